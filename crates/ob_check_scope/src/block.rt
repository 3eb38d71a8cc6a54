//! What one block declares.

ghost use Rattle.std.specs.Prelude.{◌≡◌, [], ◌∷◌, ◌++◌, None, OnOk, option_copied};
ghost use Rattle.ob_check_scope.specs.Block.{find};

use ob_base::Text;
use ob_types::{Constant, ObType, Signature};
use std::alloc::{AllocError, Global};
use std::collections::HashMap;
use std::marker::Model;

/// Where a variable or a parameter stands.
#[derive(Clone, Copy, Debug, PartialEq, Eq)]
pub enum Standing {
    /// A variable of the module that others see, by its number among those.
    Exported(u32),
    /// A variable of the module that others don't see, by its number among those.
    Own(u32),
    /// A parameter that holds a value, or a variable of the procedure, by its number. The parameters come first.
    Local(usize),
    /// What a VAR parameter names, by the parameter's number.
    ByParameter(usize),
    /// What a structured value parameter names, by the parameter's number. Nothing writes to it.
    ReadOnly(usize),
}

/// What a name stands for.
#[derive(Drop)]
pub enum Entry {
    Constant(Constant),
    TypeName(ObType),
    Variable(ObType, Standing),
    /// A procedure, and its number among those of the module.
    Procedure(Signature, usize),
    /// The module In.
    In,
    /// The module Out.
    Out,
    /// Another module: its number among those that are imported, but for In and Out, and its place among the loaded ones.
    Module(usize, usize),
}

/// A name with what it stands for, and whether other modules see it.
#[derive(Drop)]
pub struct Declared {
    pub name: Text,
    pub exported: bool,
    pub entry: Entry,
}

/// The declarations of a block, the oldest first, with a map from each name to its place among them.
#[derive(Drop)]
pub struct Block {
    declared: Vec<Declared>,
    places: HashMap<Vec<u8>, usize>,
}

impl Model for Block {
    ghost use Rattle.std.specs.Prelude.{List};
    ghost use Rattle.std.specs.Coded.{codes};
    ghost use Rattle.ob_types.specs.contracts.structure.ObType as structure;
    ghost use Rattle.ob_check_scope.specs.declared.block.Declared.{Declared};

    ghost Value = { List Declared };

    ghost coded = { Prim.hlevel (codes, structure.the_row.coded) };

    ghost use Rattle.ob_check_scope.specs.Block.{IsIndex};

    ghost view = { λ b. b.declared.items };

    ghost invariant = { λ b. IsIndex b.places b.declared.items };
}

/// So few declarations are looked through, which takes less time than the map.
const FEW: usize = 4;

/// What a name of these characters stands for among these. It stands where it is called, as `find_spelled` does.
#[inline(always)]
fn find_among<'a>(declared: &'a [Declared], name: &[u8]) -> Option<&'a Entry>
    ensures { option_copied result ≡ find declared.now name.now }
{
    for each in declared {
        if each.name.as_slice() == name {
            return Some(&each.entry);
        }
    }
    None
}

impl Block {
    /// No declaration.
    pub fn new(alloc: Global) -> Block
        ensures { result ≡ [] }
    {
        Block {
            declared: Vec::new(alloc),
            places: HashMap::new(alloc),
        }
    }

    /// The declarations, the oldest first.
    pub fn declared(&self) -> &[Declared]
        ensures { result.now ≡ self.now }
    {
        self.declared.as_slice()
    }

    /// What a name stands for, if the block declares it.
    pub fn find(&self, name: &Text) -> Option<&Entry>
        ensures { option_copied result ≡ find self.now name.now }
    {
        self.find_spelled(name.as_slice())
    }

    /// The same for a name of these characters. It stands where it is called, for a name is looked up in many blocks.
    #[inline(always)]
    pub(crate) fn find_spelled(&self, name: &[u8]) -> Option<&Entry>
        ensures { option_copied result ≡ find self.now name.now }
    {
        if self.declared.len() <= FEW {
            find_among(self.declared.as_slice(), name)
        } else {
            self.find_placed(name)
        }
    }

    /// The same by the map.
    #[inline(never)]
    fn find_placed(&self, name: &[u8]) -> Option<&Entry>
        ensures { option_copied result ≡ find self.now name.now }
    {
        match self.places.get(name) {
            Some(place) => Some(&self.declared[*place].entry),
            None => None,
        }
    }

    /// One declaration more, of a name that the block does not have. Where memory is refused the
    /// block is to be dropped.
    pub fn declare(
        &mut self,
        alloc: Global,
        name: &Text,
        exported: bool,
        entry: Entry,
    ) -> Result<(), AllocError>
        requires { find self.old name.now ≡ None }
        ensures ok { OnOk result (self.new ≡ self.old ++ record { name = name.now; exported = exported; entry = entry } ∷ []) }
    {
        let key = Vec::from_slice(alloc, name.as_slice())?;
        let name = name.copy(alloc)?;
        self.declared.reserve(1)?;
        let place = self.declared.len();
        self.places.insert(key, place)?;
        match self.declared.push(Declared {
            name,
            exported,
            entry,
        }) {
            Ok(()) => Ok(()),
            Err(_) => unreachable!(),
        }
    }
}
