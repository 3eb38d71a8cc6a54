//! The kernel, as its driver calls it.

ghost use Rattle.std.specs.Prelude.{◌≡◌, [], length, take, OnOk, OnErr, IfOk, IfErr, Ok};
ghost use Rattle.jk_log.specs.Legal.{IsLegal};
ghost use Rattle.jk_core.specs.Steps.{Takes, without, is_at_rest as rests, Works, GivesJob, Hands};
ghost use Rattle.jk_log.specs.Log.{ended as ended_of};
ghost use Rattle.jk_log.specs.Pending.{joined};
ghost use Rattle.jk_core.specs.State.{fresh};

use crate::desk::{Desk, Place, new_desk};
use crate::run::work_on;
use crate::script::{Script, keep};
use crate::taking::take_in;
use jk_language::Language;
use jk_log::{Arrival, Entry, Job, ParsedCell};
use std::alloc::{AllocError, AllocFailed, Global};
use std::marker::Model;

/// What a slice came to.
#[derive(Clone, Copy, Debug, PartialEq, Eq)]
pub enum Work {
    /// No cell runs, and nothing waits.
    Rest,
    /// No cell runs, and the first request that waits is a cell without a result.
    NeedsParse,
    /// A cell went on by all the turns given, or ended, or a request that waited was marked.
    Ran,
    /// The cell that runs asked its seat for a line, and has none yet. A call while it asks changes nothing.
    NeedsLine,
    /// Memory was refused, and nothing has changed; or the cell that runs has gone on, as by fewer turns, to where it
    /// has to go on without a line, which found no room in the log.
    NoMemory,
}

/// What became of a result.
#[derive(Drop)]
pub enum Used<P> {
    Kept,
    /// No waiting request has that number and that text and no result yet.
    Stranger(P),
}

/// One kernel: its log, what waits, what is pending, and the cell that runs.
#[derive(Drop)]
pub struct Kernel<L: Language> {
    script: Script<L::Tree>,
    desk: Desk<L::Session, L::Machine>,
}

impl<L: Language> Model for Kernel<L> {
    ghost use Rattle.jk_core.specs.State.{KernelState};
    ghost use Rattle.jk_core.specs.Kept.{IsKept, Stands};
    ghost use Rattle.std.specs.Coded.{codes};
    ghost use Rattle.json_form.specs.contracts.kept.Json as json;

    ghost Value = { KernelState L.Tree };

    ghost coded = { Prim.hlevel (codes, json.the_row.coded, L.Tree.code) };

    ghost view = { λ k. k.script.state };

    ghost invariant = { λ k. record {
      kept : IsKept L.spoken k.script.state;
      stands : Stands L.spoken L.state k.script.state k.desk;
    } };
}

impl<L: Language> Kernel<L> {
    /// A kernel that has taken nothing.
    pub fn new(alloc: Global) -> Result<Kernel<L>, AllocError>
        ensures { result ≡ Ok fresh }
    {
        Ok(Kernel {
            script: Script::new(alloc),
            desk: new_desk::<L>(alloc),
        })
    }

    /// Takes an arrival, and marks it where it is answered at once. After a shutdown without restart the arrival is
    /// dropped, and nothing changes.
    ///
    /// # Errors
    ///
    /// Out of memory: the arrival is handed back, and nothing has changed.
    pub fn take(&mut self, arrival: Arrival) -> Result<(), AllocFailed<Arrival>>
        ensures ok { OnOk result (Takes L.spoken arrival self.old self.new) }
        ensures err { IfErr result (λ back. (back.value ≡ arrival) × (self.new ≡ self.old)) }
        ensures legal { IsLegal L.spoken self.new.log }
    {
        take_in::<L>(&mut self.script, &mut self.desk, arrival)
    }

    /// Goes on by at most `turns` turns with the cell that runs. Where none runs, answers the requests that wait before
    /// the first execute request, and begins that one.
    pub fn work(&mut self, turns: u64) -> Work
        ensures works { Works L.spoken turns self.old result self.new }
        ensures legal { IsLegal L.spoken self.new.log }
    {
        work_on::<L>(&mut self.script, &mut self.desk, turns)
    }

    /// The text of the next execute request that waits and was not given. Each is given once, in the order taken.
    pub fn next_job(&mut self) -> Result<Option<Job>, AllocError>
        ensures ok { IfOk result (λ job. GivesJob self.old job self.new) }
        ensures err { OnErr result (self.new ≡ self.old) }
    {
        self.script.next_job::<L>()
    }

    /// Keeps the result of a job, where a request waits for it.
    pub fn parsed(&mut self, cell: ParsedCell<L>) -> Used<ParsedCell<L>>
        ensures { Hands cell self.old result self.new }
    {
        keep(&mut self.script, cell)
    }

    /// Whether no cell runs and nothing waits.
    pub fn is_at_rest(&self) -> bool
        ensures { result ≡ rests self.now }
    {
        match &self.desk.place {
            Place::Resting(_) => self.script.first().is_none(),
            Place::Running(_) => false,
        }
    }

    /// Whether the kernel was shut down, and not to start again.
    pub fn ended(&self) -> bool
        ensures { result ≡ ended_of self.now.log }
    {
        self.script.ended()
    }

    /// The log is legal.
    pub fn legal(&self)
        ensures { IsLegal L.spoken self.now.log }
    {
        // The script's invariant is what the clause says.
        let _ = &self.script;
    }

    /// How many marks are pending.
    pub fn pending_marks(&self) -> usize
        ensures { result ≡ length self.now.pending }
    {
        self.script.pending_marks()
    }

    /// The entries of the first `most` pending marks, which pend no more. Where memory is refused nothing has
    /// changed.
    pub fn take_pending(&mut self, most: usize) -> Result<Vec<Entry>, AllocError>
        ensures entries { IfOk result (λ entries. entries.items ≡ joined (take most self.old.pending)) }
        ensures ok { OnOk result (self.new ≡ without most self.old) }
        ensures err { OnErr result (self.new ≡ self.old) }
    {
        self.script.take_pending(most)
    }
}
