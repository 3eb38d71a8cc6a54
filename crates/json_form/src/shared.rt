//! A value that several owners keep without a copy of it.

ghost use Rattle.std.specs.Prelude.{◌≡◌, IfOk, IfErr};

use std::alloc::{AllocError, AllocFailed, Global};
use std::marker::Model;
use std::sync::Arc;

/// One of the owners of a value. Contracts see it as the value itself.
///
/// The value is let go with its last owner. An owner may go to another thread where the value may be
/// sent and looked at there.
pub struct Shared<T: Drop> {
    pointer: Arc<T>,
}

// Written out, so that a proof of a caller has one step for it.
impl<T: Drop> Drop for Shared<T> {
    fn drop(self) {
        let Shared { pointer: _ } = self;
    }
}

impl<T: Drop> Model for Shared<T> {
    ghost use Rattle.std.specs.Arc.{arc_value};

    ghost Value = { T };

    ghost view = { λ s. arc_value s.pointer };
}

impl<T: Drop> Shared<T> {
    /// The first owner of a value. Where there is no memory for it, the value is handed back.
    pub fn share(alloc: Global, value: T) -> Result<Shared<T>, AllocFailed<T>>
        ensures shared { IfOk result (λ s. s ≡ value) }
        ensures returned { IfErr result (λ e. e.value ≡ value) }
    {
        let pointer = Arc::new(alloc, value)?;
        Ok(Shared { pointer })
    }

    /// One more owner of the same value, which takes no memory. It is refused only where the count of
    /// owners is full.
    pub fn another(&self) -> Result<Shared<T>, AllocError>
        ensures { IfOk result (λ s. s ≡ self.now) }
    {
        Ok(Shared {
            pointer: Arc::try_clone(&self.pointer)?,
        })
    }

    /// The value.
    pub fn value(&self) -> &T
        ensures { result.now ≡ self.now }
    {
        &self.pointer
    }
}
