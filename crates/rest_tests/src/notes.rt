//! Kernels that only take note of what they are told.
ghost use Rattle.std.specs.Prelude.{◌≡◌, OnErr};

use js_rest::{Running, Untold};
use js_tables::Command;
use std::alloc::{AllocError, Global};

/// What kernels were told since the notes were last read, a line each, and whether they can be made and told.
#[derive(Drop)]
pub(crate) struct Notes {
    alloc: Global,
    told: String,
    pub(crate) is_barren: bool,
    pub(crate) is_full: bool,
}

impl Notes {
    /// Kernels that can be made, and whose inboxes have room.
    pub(crate) fn new(alloc: Global) -> Notes {
        Notes {
            alloc,
            told: String::new(alloc),
            is_barren: false,
            is_full: false,
        }
    }

    /// The notes since this was last called.
    pub(crate) fn take(&mut self) -> String {
        std::mem::replace(&mut self.told, String::new(self.alloc))
    }

    /// One more line. Where there is no memory for it, nothing has changed.
    fn note(&mut self, word: &str, id: &str) -> Result<(), AllocError>
        ensures { OnErr result (self.new ≡ self.old) }
    {
        self.told = format!(in self.alloc; "{}* {word} {id}\n", self.told.as_str())?;
        Ok(())
    }
}

impl Running for Notes {
    ghost begins = { λ old id new. Unit {0} };

    ghost tells = { λ old id command result new. Unit {0} };

    fn begin(&mut self, id: &str) -> Result<(), AllocError> {
        if self.is_barren {
            return Err(AllocError);
        }
        self.note("begin", id)
    }

    fn tell(&mut self, id: &str, command: Command) -> Result<(), Untold> {
        if self.is_full {
            return Err(Untold::Full);
        }
        let word = match command {
            Command::Interrupt => "interrupt",
            Command::Restart => "restart",
            Command::Shutdown => "shutdown",
        };
        match self.note(word, id) {
            Ok(()) => Ok(()),
            Err(_) => Err(Untold::Memory),
        }
    }
}
