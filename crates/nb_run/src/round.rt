//! A cell from its request to its end, slice by slice.

ghost use Rattle.std.specs.Prelude.{◌≡◌, ◌||◌, List, IfOk};
ghost use Rattle.std.specs.List.{list_any};
ghost use Rattle.jk_log.specs.declared.arrival.Arrival.{Arrival};
ghost use Rattle.jk_log.specs.declared.entry.Entry.{Entry};
ghost use Rattle.nb_run.specs.Going.{Goes, HasRound, IsQuiet};
ghost use Rattle.nb_run.specs.Runs.{IsSentFor, is_done};

use crate::cells::Code;
use crate::player::Player;
use crate::request::request_for;
use crate::status::RunFault;
use jk_core::{Kernel, Work};
use jk_language::Language;
use std::alloc::Global;
use std::io::{BufRead, Write};

/// What a slice came to: whether a cell is said to have ended well, and whether the kernel rests.
#[derive(Clone, Copy, Debug)]
pub(crate) struct Round {
    pub done: bool,
    pub over: bool,
}

/// Whether one of two is so.
pub(crate) fn either(first: bool, second: bool) -> bool
    ensures { result ≡ (first || second) }
{
    first || second
}

impl<L: Language> Player<Kernel<L>> {
    /// Works a slice, tells what it shows, and gives the line that it asks for.
    fn round<R: BufRead, E: Write>(
        &mut self,
        alloc: Global,
        lines: &mut R,
        errors: &mut E,
    ) -> Result<Round, RunFault>
        ensures { IfOk result (λ round. HasRound round.done round.over self.old self.new) }
    {
        let work = self.slice()?;
        let done = self.tell(errors)?;
        match work {
            Work::Rest => return Ok(Round { done, over: true }),
            Work::NeedsLine => self.give(alloc, lines)?,
            Work::NeedsParse => self.read_next(alloc)?,
            Work::Ran | Work::NoMemory => {}
        }
        Ok(Round { done, over: false })
    }

    /// Runs a cell to its end. The answer is whether it ended well.
    pub(crate) fn run_cell<R: BufRead, E: Write>(
        &mut self,
        alloc: Global,
        code: &Code,
        lines: &mut R,
        errors: &mut E,
    ) -> Result<bool, RunFault>
        ensures { IfOk result (λ ok. (sent : List Arrival) × (told : List Entry)
            × Goes self.old self.new sent told × IsSentFor code.now sent
            × (ok ≡ list_any is_done told) × IsQuiet self.new.kernel) }
    {
        self.begin(alloc, request_for(alloc, code)?)?;
        let mut done = false;
        let mut slices: u64 = 0;
        'slices: while slices < u64::MAX {
            let round = self.round(alloc, lines, errors)?;
            done = either(done, round.done);
            if round.over {
                return Ok(done);
            }
            slices += 1;
        }
        Err(RunFault::Memory)
    }
}
