//! What holds entries.
ghost use Rattle.std.specs.Prelude.{◌≡◌, ◌-◌, ◌++◌, List, take, drop, length, IfOk, OnOk};
ghost use Rattle.jk_log.specs.declared.entry.Entry.{Entry as entry};

use jk_log::Entry;
use std::alloc::AllocError;

/// A list of entries, or a row of what holds some.
pub trait Holds: Drop {
    /// All of them, in order.
    ghost entries: { Self → List entry };

    /// Its numbers are right.
    ghost is_whole: { Self → Type 0 };

    /// How many.
    fn count(&self) -> usize
        requires { is_whole self.now }
        ensures { result ≡ length (entries self.now) };

    /// The same, by one more pointer to it.
    fn share(&self) -> Result<Self, AllocError>
        ensures same { IfOk result (λ s. entries s ≡ entries self.now) }
        ensures whole { IfOk result (λ s. is_whole self.now → is_whole s) };

    /// Copies entries from a place on to the end of a list, until the list has `max`.
    fn copy_from(&self, found: &mut Vec<Entry>, place: usize, max: usize) -> Result<(), AllocError>
        requires { is_whole self.now }
        ensures { OnOk result (found.new.items ≡ found.old.items ++ take (max - length found.old.items) (drop place (entries self.now))) };
}
