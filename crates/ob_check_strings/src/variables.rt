//! The variables of a module so far.

ghost use Rattle.std.specs.Prelude.{◌≡◌, [], ◌∷◌, ◌++◌, ◌&&◌, ◌==◌, length, None, IfOk, OnOk, OnErr};
ghost use Rattle.std.specs.Cmp.Rules.{comparing};
ghost use Rattle.std.specs.Str.{bytes_eq};
ghost use Rattle.std.proofs.Common.{rules};
ghost use Rattle.ob_mean.specs.declared.module.ModuleVariable.TheVariants as variable;
ghost use Rattle.ob_check_kinds.specs.Kinds.{kind_of};
ghost use Rattle.ob_check_strings.specs.Numbered as numbered;
ghost use Rattle.ob_check_strings.specs.Strings as spec;

use ob_base::{Items, Text};
use ob_check_kinds::Kinds;
use ob_mean::{ModuleVariable, RecordKind, Shape};
use ob_types::ObType;
use std::alloc::{AllocError, Global};
use std::collections::HashMap;
use std::hash::{Hash, Hasher};
use std::marker::Model;

/// A string, and in how many elements it stands.
#[derive(Drop)]
struct Written {
    characters: Text,
    elements: u32,
}

impl PartialEq for Written {
    ghost eq = { λ v w. bytes_eq v.characters w.characters && (v.elements == w.elements) };

    ghost laws = { Prim.search (comparing, rules) };

    fn eq(&self, other: &Written) -> bool {
        self.characters.same(&other.characters) && self.elements == other.elements
    }
}

impl Eq for Written {
    ghost laws = { Prim.search (comparing, rules) };
}

/// How many characters at each end of a long string are hashed; those between are not.
const HASHED: usize = 64;

/// The ends of a string, which are the whole where it is short.
fn ends(characters: &[u8]) -> (&[u8], &[u8])
    ensures first { result.0.now ≡ numbered.first_of characters.now }
    ensures last { result.1.now ≡ numbered.last_of characters.now }
{
    let most = characters.len().min(HASHED);
    (&characters[..most], &characters[characters.len() - most..])
}

impl Hash for Written {
    ghost use Rattle.std.specs.Prelude.{◌++◌, length};
    ghost use Rattle.std.specs.Hash as fed;
    ghost use Rattle.std.specs.Cmp.Rules.{hashing};
    ghost use Rattle.std.proofs.Common.{rules};
    ghost use Rattle.ob_check_strings.specs.Numbered.{first_of, last_of};

    ghost hash_input = { λ w. fed.slice fed.u8 (first_of w.characters) ++ fed.slice fed.u8 (last_of w.characters) ++ fed.usize (length w.characters) ++ fed.u32 w.elements };

    ghost respects_eq = { Prim.search (hashing, rules) };

    fn hash<H: Hasher>(&self, state: &mut H) {
        let characters = self.characters.as_slice();
        let (first, last) = ends(characters);
        first.hash(state);
        last.hash(state);
        state.write_usize(characters.len());
        state.write_u32(self.elements);
    }
}

/// The variables of a module so far: the declared ones, and after them the strings that it passes and compares. A string has its
/// number in a map. The kinds of record types that are told are kept beside them. Contracts see the list of variables.
#[derive(Drop)]
pub struct Variables {
    alloc: Global,
    all: Items<ModuleVariable>,
    numbers: HashMap<Written, usize>,
    kinds: Kinds,
}

impl Model for Variables {
    ghost use Rattle.std.specs.Prelude.{List};
    ghost use Rattle.ob_mean.specs.declared.module.ModuleVariable.{ModuleVariable};
    ghost use Rattle.ob_mean.specs.contracts.shape.Shape as shape;
    ghost use Rattle.ob_check_strings.specs.Numbered.{AreNumbers};
    ghost use Rattle.std.specs.Coded.{codes};

    ghost Value = { List ModuleVariable };

    ghost coded = { Prim.hlevel (codes, shape.the_row.coded) };

    ghost view = { λ v. v.all };

    ghost invariant = { λ v. AreNumbers v.numbers v.all };
}

impl Variables {
    /// No variable.
    pub fn new(alloc: Global) -> Variables
        ensures { result ≡ [] }
    {
        Variables {
            alloc,
            all: Items::new(alloc),
            numbers: HashMap::new(alloc),
            kinds: Kinds::new(alloc),
        }
    }

    /// A declared variable more. Out of memory leaves them as they were.
    pub fn declare(&mut self, shape: Shape) -> Result<(), AllocError>
        ensures ok { OnOk result (self.new ≡ self.old ++ variable.Declared shape ∷ []) }
        ensures err { OnErr result (self.new ≡ self.old) }
    {
        self.all.push(ModuleVariable::Declared(shape))?;
        Ok(())
    }

    /// The number of the variable that is this string in `elements` elements, and the variables then: of the one that is there, or
    /// else of one more.
    pub fn string(self, text: Text, elements: u32) -> Result<(usize, Variables), AllocError>
        ensures number { IfOk result (λ p. p.0 ≡ spec.string_number self text elements) }
        ensures variables { IfOk result (λ p. p.1 ≡ spec.with_string self text elements) }
    {
        let written = Written {
            characters: text.copy(self.alloc)?,
            elements,
        };
        match self.numbers.get(&written) {
            Some(number) => Ok((*number, self)),
            None => self.with_new(written, text),
        }
    }

    /// One string more, which is not there.
    fn with_new(self, written: Written, text: Text) -> Result<(usize, Variables), AllocError>
        requires same { written.characters ≡ text }
        requires new { spec.string_at self text written.elements ≡ None }
        ensures number { IfOk result (λ p. p.0 ≡ length self) }
        ensures variables { IfOk result (λ p. p.1 ≡ self ++ variable.Text text written.elements ∷ []) }
    {
        let mut variables = self;
        let number = variables.all.len();
        let elements = written.elements;
        variables.all.push(ModuleVariable::Text(text, elements))?;
        variables.numbers.insert(written, number)?;
        Ok((number, variables))
    }

    /// A record type by its names, those of its bases, and its shape: one more owner of that of an equal type, if there was one.
    /// Or lack of memory.
    pub fn kind_of(&mut self, of: &ObType) -> Result<RecordKind, AllocError>
        ensures same { self.new ≡ self.old }
        ensures kind { IfOk result (λ k. k ≡ kind_of of.now) }
    {
        self.kinds.kind_of(self.alloc, of)
    }

    /// The variables as a list.
    pub fn into_items(self) -> Items<ModuleVariable>
        ensures { result ≡ self }
    {
        self.all
    }
}
