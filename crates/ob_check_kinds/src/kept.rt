//! Types that are kept with what was made of them, so that for an equal type one more owner of that is taken.

ghost use Rattle.std.specs.Prelude.{◌≡◌, IfOk, IfSome};
ghost use Rattle.ob_types.specs.declared.structure.ObType.{ObType};
ghost use Rattle.ob_check_kinds.specs.Kinds.{kind_of};
ghost use Rattle.ob_check_kinds.specs.Shapes.{shape_of};

use ob_mean::{RecordKind, Shape};
use ob_types::{ObType, same};
use std::alloc::AllocError;
use std::marker::Model;

/// What is made of a type, and may have more owners.
pub(crate) trait MadeOf: Drop {
    /// What is made of a type.
    ghost made_of: { ObType → Self };

    /// One more owner. The only error is that no more owners can be counted.
    fn more(&self) -> Result<Self, AllocError>
        ensures { IfOk result (λ one. one ≡ self.now) };
}

impl MadeOf for Shape {
    ghost made_of = { shape_of };

    fn more(&self) -> Result<Shape, AllocError> {
        self.another()
    }
}

impl MadeOf for RecordKind {
    ghost made_of = { kind_of };

    fn more(&self) -> Result<RecordKind, AllocError> {
        self.another()
    }
}

/// A type that is kept with what was made of it. Contracts see the type.
#[derive(Drop)]
pub(crate) struct Kept<W: MadeOf> {
    of: ObType,
    made: W,
}

impl<W: MadeOf> Model for Kept<W> {
    ghost use Rattle.std.specs.Coded.{codes};
    ghost use Rattle.std.specs.Prelude.{◌≡◌};
    ghost use Rattle.ob_types.specs.contracts.structure.ObType as types;
    ghost use Rattle.ob_types.specs.declared.structure.ObType.{ObType};

    ghost Value = { ObType };

    ghost coded = { Prim.hlevel (codes, types.the_row.coded) };

    ghost view = { λ k. k.of };

    ghost invariant = { λ k. k.made ≡ W.made_of k.of };
}

impl<W: MadeOf> Kept<W> {
    pub(crate) fn new(of: ObType, made: W) -> Kept<W>
        requires { made ≡ W.made_of of }
        ensures { result ≡ of }
    {
        Kept { of, made }
    }

    fn of(&self) -> &ObType
        ensures { result.now ≡ self.now }
    {
        &self.of
    }

    fn made(&self) -> &W
        ensures { result.now ≡ W.made_of self.now }
    {
        &self.made
    }
}

/// One more owner of what was made of an equal type that is kept, if there is one. The only error is that no more owners can
/// be counted.
#[tactic(auto, using(ob_types::proofs::SameType::same_true))]
pub(crate) fn find<W: MadeOf>(all: &[Kept<W>], of: &ObType) -> Result<Option<W>, AllocError>
    ensures { IfOk result (λ found. IfSome found (λ w. w ≡ W.made_of of.now)) }
{
    for kept in all {
        if same(kept.of(), of) {
            return Ok(Some(kept.made().more()?));
        }
    }
    Ok(None)
}
