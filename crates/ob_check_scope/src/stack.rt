//! Stacks.

ghost use Rattle.std.specs.Prelude.{◌≡◌, [], ◌∷◌, reverse, length, OnOk, OnErr};
ghost use Rattle.ob_check_scope.specs.Stack.{top, below, is_empty};

use std::alloc::{AllocError, Global};
use std::marker::Model;

/// What was put on one another. Contracts see the list of it, the last first.
#[derive(Drop)]
pub struct Stack<T> {
    items: Vec<T>,
}

impl<T> Model for Stack<T> {
    ghost use Rattle.std.specs.Prelude.{List, reverse};
    ghost use Rattle.std.specs.Coded.{coded_list};

    ghost Value = { List T };

    ghost coded = { coded_list T.code };

    ghost view = { λ s. reverse s.items.items };
}

impl<T> Stack<T> {
    /// A stack with nothing on it.
    pub fn new(alloc: Global) -> Stack<T>
        ensures { result ≡ [] }
    {
        Stack {
            items: Vec::new(alloc),
        }
    }

    /// Whether nothing is on it.
    pub fn is_empty(&self) -> bool
        ensures { result ≡ is_empty self.now }
    {
        self.items.is_empty()
    }

    /// All of it, the first that was put there first.
    pub fn as_slice(&self) -> &[T]
        ensures { result.now ≡ reverse self.now }
    {
        self.items.as_slice()
    }
}

impl<T: Drop> Stack<T> {
    /// One more on top, or lack of memory.
    pub fn push(&mut self, item: T) -> Result<(), AllocError>
        ensures ok { OnOk result (self.new ≡ item ∷ self.old) }
    {
        self.items.push(item)?;
        Ok(())
    }

    /// Takes off what is on top, if anything is there.
    pub fn pop(&mut self) -> Option<T>
        ensures value { result ≡ top self.old }
        ensures rest { self.new ≡ below self.old }
    {
        self.items.pop()
    }
}
