//! Lists with several owners.

ghost use Rattle.std.specs.Prelude.{◌≡◌, IfOk};

use crate::items::Items;
use std::alloc::{AllocError, Global};
use std::marker::Model;
use std::sync::Arc;

/// One of the owners of items that nothing changes. The items are there once, however many own them. Contracts see the list of
/// them, as of `Items`.
#[derive(Drop)]
pub struct SharedItems<T> {
    pointer: Arc<Items<T>>,
}

impl<T> Model for SharedItems<T> {
    ghost use Rattle.std.specs.Prelude.{List};
    ghost use Rattle.std.specs.Coded.{coded_list};

    ghost Value = { List T };

    ghost coded = { coded_list T.code };

    ghost view = { λ s. s.pointer.value };
}

impl<T> SharedItems<T> {
    /// All of them, in order.
    pub fn as_slice(&self) -> &[T]
        ensures { result.now ≡ self.now }
    {
        self.pointer.as_slice()
    }
}

impl<T: Drop> SharedItems<T> {
    /// The first owner of these items.
    pub fn new(alloc: Global, items: Items<T>) -> Result<SharedItems<T>, AllocError>
        ensures { IfOk result (λ s. s ≡ items) }
    {
        Ok(SharedItems {
            pointer: Arc::new(alloc, items)?,
        })
    }

    /// One more owner of the same items, in constant time and without memory. Refused only where no more owners can be counted.
    pub fn another(&self) -> Result<SharedItems<T>, AllocError>
        ensures { IfOk result (λ s. s ≡ self.now) }
    {
        Ok(SharedItems {
            pointer: Arc::try_clone(&self.pointer)?,
        })
    }
}
