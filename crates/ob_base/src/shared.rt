//! Values with several owners.

ghost use Rattle.std.specs.Prelude.{◌≡◌, IfOk};

use std::alloc::{AllocError, Global};
use std::marker::Model;
use std::sync::Arc;

/// One of the owners of a value that nothing changes. The value is there once, however many own it. Contracts see it as the
/// value itself.
#[derive(Drop)]
pub struct Shared<T> {
    pointer: Arc<T>,
}

impl<T> Model for Shared<T> {
    ghost Value = { T };

    ghost coded = { T.code };

    ghost view = { λ s. s.pointer.value };
}

impl<T> Shared<T> {
    /// The value.
    pub fn get(&self) -> &T
        ensures { result.now ≡ self.now }
    {
        &self.pointer
    }
}

impl<T: Drop> Shared<T> {
    /// The first owner of a value.
    pub fn new(alloc: Global, value: T) -> Result<Shared<T>, AllocError>
        ensures { IfOk result (λ s. s ≡ value) }
    {
        Ok(Shared {
            pointer: Arc::new(alloc, value)?,
        })
    }

    /// One more owner of the same value, in constant time and without memory. Refused only where no more owners can be counted.
    pub fn another(&self) -> Result<Shared<T>, AllocError>
        ensures { IfOk result (λ s. s ≡ self.now) }
    {
        Ok(Shared {
            pointer: Arc::try_clone(&self.pointer)?,
        })
    }
}
