//! A `Vec` that contracts see as a list.

ghost use Rattle.std.specs.Prelude.{◌≡◌, ◌<◌, [], ◌∷◌, ◌++◌, length, slice_get, slice_set, IfSome, IfNone, OnOk, OnErr, IfErr};

use std::alloc::{AllocFailed, Global};
use std::marker::Model;
use std::mem;

/// Things in order.
#[derive(Debug)]
pub struct Listed<T: Drop> {
    items: Vec<T>,
}

// Written out, so that a proof of a caller has one step for it.
impl<T: Drop> Drop for Listed<T> {
    fn drop(self) {
        let Listed { items: _ } = self;
    }
}

impl<T: Drop> Model for Listed<T> {
    ghost use Rattle.std.specs.Prelude.{List};
    ghost use Rattle.std.specs.Coded.{coded_list};

    ghost Value = { List T };

    ghost coded = { coded_list T.code };

    ghost view = { λ l. l.items.items };
}

impl<T: Drop> Listed<T> {
    /// None.
    pub fn empty(alloc: Global) -> Listed<T>
        ensures { result ≡ [] }
    {
        Listed {
            items: Vec::new(alloc),
        }
    }

    /// The things of a `Vec`.
    pub fn new(items: Vec<T>) -> Listed<T>
        ensures { result ≡ items.items }
    {
        Listed { items }
    }

    /// They themselves, as a `Vec`.
    pub fn into_vec(self) -> Vec<T>
        ensures { result.items ≡ self }
    {
        let Listed { items } = self;
        items
    }

    /// All of them.
    pub fn as_slice(&self) -> &[T]
        ensures { result.now ≡ self.now }
    {
        self.items.as_slice()
    }

    /// Another thing in the place of one, which comes back.
    pub fn replace(&mut self, place: usize, item: T) -> T
        requires { place < length self.old }
        ensures new { self.new ≡ slice_set self.old place item }
        ensures old { slice_get self.old place ≡ Some result }
    {
        mem::replace(&mut self.items[place], item)
    }

    /// The last one, taken away.
    pub fn pop(&mut self) -> Option<T>
        ensures some { IfSome result (λ x. self.old ≡ self.new ++ x ∷ []) }
        ensures none { IfNone result ((self.old ≡ []) × (self.new ≡ [])) }
    {
        self.items.pop()
    }

    /// One more at the end. Where there is no memory for it, it comes back and nothing has changed.
    pub fn push(&mut self, item: T) -> Result<(), AllocFailed<T>>
        ensures ok { OnOk result (self.new ≡ self.old ++ item ∷ []) }
        ensures err { OnErr result (self.new ≡ self.old) }
        ensures returned { IfErr result (λ e. e.value ≡ item) }
    {
        self.items.push(item)
    }
}
