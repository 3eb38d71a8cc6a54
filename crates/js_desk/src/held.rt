//! Requests that wait until they are looked at again.
ghost use Rattle.std.specs.Prelude.{◌≡◌, ◌++◌, ◌∷◌, [], None, IfSome};

use std::alloc::Global;
use std::marker::Model;
use std::mem;

/// Requests in the order in which they began to wait, and how many of the first are to be looked at again.
#[derive(Drop)]
pub struct Held<Q: Drop> {
    requests: Vec<Q>,
    again: usize,
}

impl<Q: Drop> Model for Held<Q> {
    ghost use Rattle.std.specs.Prelude.{List};

    ghost Value = { List Q };

    ghost view = { λ h. h.requests.items };
}

impl<Q: Drop> Held<Q> {
    /// None.
    pub fn new(alloc: Global) -> Held<Q>
        ensures { result ≡ [] }
    {
        Held {
            requests: Vec::new(alloc),
            again: 0,
        }
    }

    /// One more waits, after the others. Where there is no memory, it comes back, and nothing has changed.
    pub fn hold(&mut self, request: Q) -> Option<Q>
        ensures held { result ≡ None → self.new ≡ self.old ++ request ∷ [] }
        ensures back { IfSome result (λ back. (back ≡ request) × (self.new ≡ self.old)) }
    {
        if self.requests.reserve(1).is_err() {
            return Some(request);
        }
        self.requests.push_reserved(request);
        None
    }

    /// All that wait are to be looked at again.
    pub fn look_again(&mut self)
        ensures { self.new ≡ self.old }
    {
        self.again = self.requests.len();
    }

    /// The first one, which waits no more, where it is to be looked at again.
    pub fn next(&mut self) -> Option<Q>
        ensures some { IfSome result (λ first. self.old ≡ first ∷ self.new) }
        ensures none { result ≡ None → self.new ≡ self.old }
    {
        if self.again == 0 || self.requests.is_empty() {
            return None;
        }
        self.again -= 1;
        Some(self.requests.remove(0))
    }

    /// All, in their order. None wait then.
    pub fn take_all(&mut self, alloc: Global) -> Vec<Q>
        ensures { (result.items ≡ self.old) × (self.new ≡ []) }
    {
        self.again = 0;
        mem::replace(&mut self.requests, Vec::new(alloc))
    }
}
