//! A kernel, and the recorder that is told what it shows.

ghost use Rattle.std.specs.Prelude.{◌≡◌, List, [], ◌∷◌, None, Ok, IfOk, OnOk};
ghost use Rattle.std.specs.List.{list_any};
ghost use Rattle.jk_log.specs.declared.arrival.Arrival.{Arrival};
ghost use Rattle.jk_log.specs.declared.entry.Entry.{Entry};
ghost use Rattle.jk_log.specs.Log.{running};
ghost use Rattle.jk_core.specs.declared.kernel.Work.TheVariants as worked;
ghost use Rattle.jk_core.specs.Steps.{Takes};
ghost use Rattle.nb_run.specs.Going.{Goes, Tells};
ghost use Rattle.nb_run.specs.Runs.{IsInput, is_done as is_done_entry};

use crate::lines::next_line;
use crate::request::line_message;
use crate::status::RunFault;
use jk_core::{Kernel, Work};
use jk_language::Language;
use jk_log::{Arrival, Entry, Told, What};
use jp_msg::{Message, Outcome, Output};
use json_form::Shared;
use nb_record::Recorder;
use std::alloc::Global;
use std::io::{BufRead, Write};

/// How many turns a slice has.
const TURNS: u64 = 1_000_000;

/// A kernel, the recorder of a notebook, and how many arrivals the kernel was sent.
#[derive(Drop)]
pub(crate) struct Player<K> {
    pub kernel: K,
    pub recorder: Recorder,
    pub sent: u64,
}

/// Whether an entry is the reply to a cell that ended well.
fn is_done(entry: &Entry) -> bool
    ensures { result ≡ is_done_entry entry.now }
{
    matches!(
        &entry.content,
        Told::Output(Output::ExecuteReply(Outcome::Done { .. }))
    )
}

/// Writes the errors among the entries, a line each: the notebook's path, the cell's id, and the error. Where that fails,
/// nothing more is written.
fn write_errors<E: Write>(errors: &mut E, path: &str, entries: &[Entry]) {
    for entry in entries {
        if let Told::Output(Output::Error(failure)) = &entry.content {
            if let Some(request) = &entry.parent {
                let cell = request.value().header.msg_id.as_str();
                let name = failure.ename.as_str();
                let text = failure.evalue.as_str();
                let _ = write!(errors, "{path}, cell {cell}: {name}");
                if !text.is_empty() {
                    let _ = write!(errors, ": {text}");
                }
                let _ = errors.write_all(b"\n");
            }
        }
    }
}

/// A message with an owner of its own.
fn shared(alloc: Global, message: Message) -> Result<Shared<Message>, RunFault>
    ensures { IfOk result (λ s. s ≡ message) }
{
    match Shared::share(alloc, message) {
        Ok(message) => Ok(message),
        Err(_) => Err(RunFault::Memory),
    }
}

/// The kernel takes an arrival.
fn take<L: Language>(kernel: &mut Kernel<L>, arrival: Arrival) -> Result<(), RunFault>
    ensures { OnOk result (Takes L.spoken arrival kernel.old kernel.new) }
{
    match kernel.take(arrival) {
        Ok(()) => Ok(()),
        Err(_) => Err(RunFault::Memory),
    }
}

/// Whether one of the entries is the reply to a cell that ended well.
fn are_done(entries: &[Entry]) -> bool
    ensures { result ≡ list_any is_done_entry entries.now }
{
    entries.iter().any(|entry| is_done(entry))
}

impl<L: Language> Player<Kernel<L>> {
    /// Seat 0 sends this.
    fn send(&mut self, what: What) -> Result<(), RunFault>
        ensures { OnOk result ((a : Arrival) × (a.seat ≡ 0) × (a.what ≡ what) × Goes self.old self.new (a ∷ []) []) }
    {
        if self.kernel.ended() {
            return Err(RunFault::Memory);
        }
        let number = self.sent.saturating_add(1);
        let arrival = Arrival {
            seat: 0,
            number,
            what,
        };
        take(&mut self.kernel, arrival)?;
        self.sent = number;
        Ok(())
    }

    /// The next job, if there is one, is given, read and handed in.
    pub(crate) fn read_next(&mut self, alloc: Global) -> Result<(), RunFault>
        ensures { OnOk result (Goes self.old self.new [] []) }
    {
        if let Some(job) = self.kernel.next_job()? {
            let _used = self.kernel.parsed(job.parse::<L>(alloc));
        }
        Ok(())
    }

    /// Seat 0 sends the request of a cell, and its text is read.
    pub(crate) fn begin(&mut self, alloc: Global, request: Message) -> Result<(), RunFault>
        ensures { OnOk result ((a : Arrival) × (a.seat ≡ 0) × (a.what ≡ What.Shell request) × Goes self.old self.new (a ∷ []) []) }
    {
        let request = shared(alloc, request)?;
        self.send(What::Shell(request))?;
        self.read_next(alloc)
    }

    /// The cell that asks is given the next line. At the end of the input the seat leaves, so that there is none.
    pub(crate) fn give<R: BufRead>(&mut self, alloc: Global, lines: &mut R) -> Result<(), RunFault>
        ensures { OnOk result ((a : Arrival) × IsInput a × Goes self.old self.new (a ∷ []) []) }
    {
        match next_line(alloc, lines)? {
            Some(line) => {
                let message = shared(alloc, line_message(alloc, line)?)?;
                self.send(What::Stdin(message))
            }
            None => self.send(What::Leave),
        }
    }

    /// Works a slice.
    pub(crate) fn slice(&mut self) -> Result<Work, RunFault>
        ensures goes { OnOk result (Goes self.old self.new [] []) }
        ensures rests { result ≡ Ok worked.Rest → running self.new.kernel.log ≡ None }
    {
        let work = self.kernel.work(TURNS);
        if work == Work::NoMemory {
            return Err(RunFault::Memory);
        }
        Ok(work)
    }

    /// The recorder is told all that is pending. The answer is whether a cell is said to have ended well.
    pub(crate) fn tell<E: Write>(&mut self, errors: &mut E) -> Result<bool, RunFault>
        ensures { IfOk result (λ done. (told : List Entry) × Tells self.old self.new told × (done ≡ list_any is_done_entry told)) }
    {
        let marks = self.kernel.pending_marks();
        let entries = self.kernel.take_pending(marks)?;
        let told = self.recorder.entries(entries.as_slice());
        if told < entries.len() {
            return Err(RunFault::Memory);
        }
        write_errors(errors, self.recorder.path().as_str(), entries.as_slice());
        Ok(are_done(entries.as_slice()))
    }
}
