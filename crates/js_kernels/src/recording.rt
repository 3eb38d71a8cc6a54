//! What is read for the recorder of a kernel's session.
ghost use Rattle.std.specs.Prelude.{◌≡◌, ◌++◌, ◌||◌, ◌↔◌, [], IsTrue, false, not, true};
ghost use Rattle.std.specs.List.{list_any};
ghost use Rattle.jk_board.specs.Ends.{board_of, read_by};
ghost use Rattle.js_kernels.specs.Recording as spec;
ghost use Rattle.js_tables.specs.Tables.{rows};
ghost use Rattle.js_ws.specs.Shutdowns as last;

use crate::found::Found;
use jk_board::Follower;
use jk_language::Language;
use jk_log::Entry;
use js_follow::follow;
use js_shelf::Shelf;
use js_tables::Tables;
use js_ws::{ENTRIES, is_last};
use json_form::Text;
use std::alloc::Global;

/// What is read for the recorder of a kernel's session.
#[derive(Drop)]
pub struct Scribe<L: Language> {
    pub follower: Follower<L>,
    /// What was read, and the recorder was not told yet.
    pub held: Vec<Entry>,
    /// Whether the last entry that the kernel will ever show was read: the idle of a shutdown without restart.
    pub over: bool,
    /// Whether the last read found as much as it could take, so that there may be more.
    pub full: bool,
    /// Whether the recorder's save was tried after the last read, or none was due then.
    pub tried: bool,
}

/// Whether the last entry of a kernel is among them.
fn has_last(entries: &[Entry]) -> bool
    ensures { result ≡ list_any last.is_last entries.now }
{
    entries.iter().any(|entry| is_last(entry))
}

impl<L: Language> Scribe<L> {
    /// Nothing was read yet.
    pub(crate) fn new(alloc: Global, follower: Follower<L>) -> Scribe<L>
        ensures { (result.follower ≡ follower) × (result.held.items ≡ []) × (result.over ≡ false) × (result.tried ≡ false) }
    {
        Scribe {
            follower,
            held: Vec::new(alloc),
            over: false,
            full: false,
            tried: false,
        }
    }

    /// Reads on, where the recorder was told all that was read before.
    pub(crate) fn read(self, alloc: Global) -> Scribe<L>
        ensures reads { spec.Reads self result }
        ensures board { board_of result.follower ≡ board_of self.follower }
    {
        let Scribe {
            follower,
            held,
            over,
            full: _,
            tried: _,
        } = self;
        if !held.is_empty() {
            return Scribe {
                follower,
                held,
                over,
                full: false,
                tried: false,
            };
        }
        let (follower, found) = follower.read(alloc, ENTRIES);
        match found {
            Ok(entries) => Scribe {
                follower,
                over: over || has_last(entries.as_slice()),
                full: entries.len() == ENTRIES,
                held: entries,
                tried: false,
            },
            Err(_) => Scribe {
                follower,
                held,
                over,
                full: false,
                tried: false,
            },
        }
    }

    /// What the last read found.
    pub(crate) fn found(&self) -> Found {
        if self.full {
            Found::More
        } else if self.holds() {
            Found::Entries
        } else {
            Found::Nothing
        }
    }

    /// Whether the recorder is still to be told something.
    pub(crate) fn holds(&self) -> bool {
        !self.held.is_empty()
    }

    /// Whether the recorder was told all that the kernel will ever show, and its save was tried then, or none was due.
    pub(crate) fn is_over(&self) -> bool
        ensures { IsTrue result ↔ ((self.now.held.items ≡ []) × (self.now.over ≡ true) × (self.now.tried ≡ true)) }
    {
        self.over && self.tried && self.held.is_empty()
    }

    /// The recorder is told nothing. Its save was not tried where it is due.
    pub(crate) fn waits(self, due: bool) -> Scribe<L>
        ensures { result ≡ record self { tried = not due } }
    {
        let mut scribe = self;
        scribe.tried = !due;
        scribe
    }

    /// Tells the recorder of a kernel what was read, and saves it where that is due. What there is no memory for is held. Where the
    /// kernel has no recorder, nothing is. A save for which there is no memory was not tried.
    pub(crate) fn tell<S: Shelf>(
        self,
        alloc: Global,
        tables: &mut Tables,
        shelf: &mut S,
        date: &Text,
        kernel: &str,
    ) -> Scribe<L>
        ensures { spec.Tells (S.contents shelf.old) (S.contents shelf.new) (S.faults shelf.old) (S.faults shelf.new) kernel.now date.now self result (rows tables.old) (rows tables.new) }
    {
        let Scribe {
            follower,
            held,
            over,
            full,
            tried: _,
        } = self;
        let (held, tried) = match follow(alloc, tables, shelf, date, kernel, held) {
            Some(followed) => (followed.rest.into_vec(), followed.tried),
            None => (Vec::new(alloc), true),
        };
        Scribe {
            follower,
            held,
            over,
            full,
            tried,
        }
    }
}
