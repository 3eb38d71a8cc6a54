//! Types whose shapes were made, so that for an equal type one more owner of the shape is taken.

ghost use Rattle.std.specs.Prelude.{◌≡◌, IfOk, IfSome};
ghost use Rattle.ob_check_kinds.specs.Shapes as spec;

use crate::kept::{Kept, find};
use ob_mean::Shape;
use ob_types::ObType;
use std::alloc::{AllocError, Global};

/// How many types are kept at most: the time to look for one stays small.
const MOST: usize = 32;

/// The last structured types whose shapes were made, the latest last, and these shapes.
#[derive(Drop)]
pub struct Made {
    types: Vec<Kept<Shape>>,
}

impl Made {
    /// None yet.
    pub fn new(alloc: Global) -> Made {
        Made {
            types: Vec::new(alloc),
        }
    }

    /// One more owner of the shape of an equal type that is kept, if there is one. The only error is that no more owners can be
    /// counted.
    pub(crate) fn find(&self, of: &ObType) -> Result<Option<Shape>, AllocError>
        ensures { IfOk result (λ found. IfSome found (λ s. s ≡ spec.shape_of of.now)) }
    {
        find(self.types.as_slice(), of)
    }

    /// Keeps a type with its shape, which is the answer, and forgets the first one where there are too many. Or lack of memory.
    pub(crate) fn keep(&mut self, of: &ObType, shape: Shape) -> Result<Shape, AllocError>
        requires { shape ≡ spec.shape_of of.now }
        ensures { IfOk result (λ s. s ≡ spec.shape_of of.now) }
    {
        if self.types.len() == MOST {
            self.types.remove(0);
        }
        self.types.push(Kept::new(of.another()?, shape.another()?))?;
        Ok(shape)
    }
}
