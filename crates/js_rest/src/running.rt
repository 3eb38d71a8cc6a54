//! The kernels that run, as far as the routes reach them.
ghost use Rattle.std.specs.Prelude.{◌≡◌, ℕ, List, Result, OnOk, OnErr};
ghost use Rattle.js_tables.specs.declared.plan.Command.{Command};
ghost use Rattle.js_rest.specs.declared.untold.Untold.{Untold};

use crate::untold::Untold;
use js_tables::Command;
use std::alloc::AllocError;

/// The kernels that run.
pub trait Running: Drop {
    // A kernel of that identifier was made.
    ghost begins: { Self → List ℕ → Self → Type 0 };

    // A kernel was told a command, or why it was not.
    ghost tells: { Self → List ℕ → Command → Result (Unit {0}) Untold → Self → Type 0 };

    /// Makes the parts of a kernel.
    ///
    /// # Errors
    /// Where there is no memory. Nothing has changed.
    fn begin(&mut self, id: &str) -> Result<(), AllocError>
        ensures ok { OnOk result (begins self.old id.now self.new) }
        ensures err { OnErr result (self.new ≡ self.old) };

    /// Sends a command to a kernel, on its control channel from seat 0.
    ///
    /// # Errors
    /// Where its inbox is full, and where there is no memory. Nothing has changed.
    fn tell(&mut self, id: &str, command: Command) -> Result<(), Untold>
        ensures told { tells self.old id.now command result self.new }
        ensures err { OnErr result (self.new ≡ self.old) };
}
