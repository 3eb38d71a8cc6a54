//! What a module exports, with a number for each type in it, so that a type that stands there many times is compared once.

ghost use Rattle.std.specs.Prelude.{◌≡◌, ◌≤◌, [], ◌∷◌, Some, slice_get, take, length, IfOk, IfSome, OnOk};
ghost use Rattle.ob_types.specs.Numbered as spec;

use crate::alike::{alike, same_below};
use crate::compatible::same;
use crate::exports::{Exported, Formal, Object};
use crate::form::ObType;
use ob_base::Items;
use std::alloc::{AllocError, Global};
use std::marker::Model;

/// Among how many that were numbered last a type is looked for: the time to look for one stays small.
const MOST: usize = 32;

/// The number of a type, if it is among those that were numbered last.
fn number_of(kinds: &[ObType], of: &ObType) -> Option<usize>
    ensures { IfSome result (λ n. slice_get kinds.now n ≡ Some of.now) }
{
    for number in kinds.len().saturating_sub(MOST)..kinds.len() {
        if same(&kinds[number], of) {
            return Some(number);
        }
    }
    None
}

/// The number of a type, which is added where it is not found. Or lack of memory.
#[tactic(auto, using(crate::proofs::Numbering::kept_more, crate::proofs::Numbering::read_last))]
fn numbered(kinds: &mut Items<ObType>, of: &ObType) -> Result<usize, AllocError>
    ensures number { IfOk result (λ n. slice_get kinds.new n ≡ Some of.now) }
    ensures keeps { spec.Keeps kinds.old kinds.new }
{
    if let Some(number) = number_of(kinds.as_slice(), of) {
        return Ok(number);
    }
    let number = kinds.len();
    kinds.push(of.another()?)?;
    Ok(number)
}

fn number_one(
    alloc: Global,
    kinds: &mut Items<ObType>,
    of: &ObType,
) -> Result<Items<usize>, AllocError>
    ensures numbers { IfOk result (λ ns. spec.AreOf kinds.new ns (of.now ∷ [])) }
    ensures keeps { spec.Keeps kinds.old kinds.new }
{
    let mut numbers = Items::new(alloc);
    let number = numbered(kinds, of)?;
    numbers.push(number)?;
    Ok(numbers)
}

fn number_formals(
    alloc: Global,
    kinds: &mut Items<ObType>,
    formals: &[Formal],
) -> Result<Items<usize>, AllocError>
    ensures numbers { IfOk result (λ ns. spec.AreOf kinds.new ns (spec.types_of formals.now)) }
    ensures keeps { spec.Keeps kinds.old kinds.new }
{
    let mut numbers = Items::new(alloc);
    for formal in formals {
        let number = numbered(kinds, &formal.of)?;
        numbers.push(number)?;
    }
    Ok(numbers)
}

/// The numbers of the types of an object.
fn number_object(
    alloc: Global,
    kinds: &mut Items<ObType>,
    object: &Object,
) -> Result<Items<usize>, AllocError>
    ensures numbers { IfOk result (λ ns. spec.AreOf kinds.new ns (spec.types_in object.now)) }
    ensures keeps { spec.Keeps kinds.old kinds.new }
{
    match object {
        Object::Constant(_) => Ok(Items::new(alloc)),
        Object::TypeName(of) | Object::Variable(of) => number_one(alloc, kinds, of),
        Object::Procedure(signature) => {
            number_formals(alloc, kinds, signature.formals.as_slice())
        }
    }
}

/// The numbers of the types of each exported name.
fn number_all(
    alloc: Global,
    kinds: &mut Items<ObType>,
    exports: &[Exported],
) -> Result<Items<Items<usize>>, AllocError>
    ensures { IfOk result (λ nss. spec.AreNumbered kinds.new nss exports.now) }
{
    let mut numbers = Items::new(alloc);
    for exported in exports {
        let more = number_object(alloc, kinds, &exported.object)?;
        numbers.push(more)?;
    }
    Ok(numbers)
}

/// What a module exports. Contracts see the list of it.
#[derive(Drop)]
pub(crate) struct NumberedExports {
    exports: Items<Exported>,
    kinds: Items<ObType>,
    numbers: Items<Items<usize>>,
}

impl Model for NumberedExports {
    ghost use Rattle.std.specs.Prelude.{List};
    ghost use Rattle.std.specs.Coded.{codes};
    ghost use Rattle.ob_types.specs.contracts.structure.ObType as structure;
    ghost use Rattle.ob_types.specs.declared.exports.Exported.{Exported};
    ghost use Rattle.ob_types.specs.Numbered.{AreNumbered};

    ghost Value = { List Exported };

    ghost coded = { Prim.hlevel (codes, structure.the_row.coded) };

    ghost view = { λ e. e.exports };

    ghost invariant = { λ e. AreNumbered e.kinds e.numbers e.exports };
}

impl NumberedExports {
    /// These, numbered. Or lack of memory.
    pub fn new(alloc: Global, exports: Items<Exported>) -> Result<NumberedExports, AllocError>
        ensures { IfOk result (λ e. e ≡ exports) }
    {
        let mut kinds = Items::new(alloc);
        let numbers = number_all(alloc, &mut kinds, exports.as_slice())?;
        Ok(NumberedExports {
            exports,
            kinds,
            numbers,
        })
    }

    /// All of them, in order.
    pub fn as_slice(&self) -> &[Exported]
        ensures { result.now ≡ self.now }
    {
        self.exports.as_slice()
    }

    /// How many from the first are the same in both. A type is compared once for all names in which it stands.
    pub fn same_before(&self, other: &NumberedExports) -> usize
        ensures same { take result self.now ≡ take result other.now }
        ensures left { result ≤ length self.now }
        ensures right { result ≤ length other.now }
    {
        let common = same_below(self.kinds.as_slice(), other.kinds.as_slice());
        let left = self.exports.as_slice();
        let right = other.exports.as_slice();
        let numbers = self.numbers.as_slice();
        let others = other.numbers.as_slice();
        for i in 0..left.len().min(right.len()) {
            if !alike(
                &left[i],
                &right[i],
                numbers[i].as_slice(),
                others[i].as_slice(),
                common,
            ) {
                return i;
            }
        }
        left.len().min(right.len())
    }
}
