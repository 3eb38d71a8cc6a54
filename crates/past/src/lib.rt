//! What was: a list that grows, that clauses alone see, and that takes no bytes.
#![tactic(auto)]

ghost use Rattle.std.specs.Prelude.{◌≡◌, [], ◌∷◌, List};
ghost use Rattle.std.specs.Borrow.{ftrue};
ghost use base.Stored.{coded_list};

use std::marker::{Model, PhantomData};

/// A list, newest first. It has no bytes and owns nothing, so only the clauses below tie `items`.
pub struct Past<T> {
    marker: PhantomData<T>,
    pub ghost items: { List T } by { coded_list T.code },
}

impl<T> Model for Past<T> {
    ghost also_owns = { λ _. ftrue };
}

impl<T> Past<T> {
    /// Nothing was.
    pub fn new() -> Past<T>
        ensures { result.items ≡ [] }
    {
        Past {
            marker: PhantomData,
        }
    }

    /// The same, and then this.
    pub fn and(&self, item: &T) -> Past<T>
        ensures { result.items ≡ item.now ∷ self.now.items }
    {
        let _ = item;
        Past {
            marker: PhantomData,
        }
    }
}

impl<T> Drop for Past<T> {
    fn drop(self) {
        let Self { marker: _ } = self;
    }
}

/// A struct with `also_owns` has neither by itself. This one owns nothing.
unsafe impl<T> Send for Past<T> {}

unsafe impl<T> Sync for Past<T> {}
