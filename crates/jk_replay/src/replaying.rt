//! A kernel that is replayed, line by line.

ghost use Rattle.std.specs.Prelude.{◌≡◌, ◌≢◌, ◌+◌, ◌^◌, ◌-◌, min, ℕ, List, [], replicate, string_bytes, IfOk, OnOk, slice_index_or, slice_set, length, Ok};
ghost use Rattle.jk_core.specs.State.{KernelState};
ghost use Rattle.jk_replay.specs.Replaying as spec;
ghost use Rattle.jk_replay.specs.Replays.{opening};

use crate::show::show;
use crate::step::Step;
use jk_core::{Kernel, Work};
use jk_language::Language;
use jk_log::{Arrival, What};
use jp_msg::{Channel, Message};
use json_form::{Fault, Shared};
use std::alloc::{AllocError, Global};

/// A kernel, how many arrivals each seat has sent, and which seats have joined and not left since.
#[derive(Drop)]
pub struct Replay<K> {
    pub kernel: K,
    pub sent: [u64; 256],
    pub seated: [bool; 256],
}

/// What a message is as an arrival.
fn sent_on(message: Shared<Message>) -> What
    ensures { result ≡ spec.sent_on message.channel message }
{
    match message.value().channel {
        Channel::Shell => What::Shell(message),
        Channel::Control => What::Control(message),
        Channel::Stdin | Channel::Iopub => What::Stdin(message),
    }
}

impl<L: Language> Replay<Kernel<L>> {
    /// A kernel that has taken nothing.
    pub fn new(alloc: Global) -> Result<Replay<Kernel<L>>, AllocError>
        ensures { IfOk result (λ replay. replay ≡ opening) }
    {
        Ok(Replay {
            kernel: Kernel::new(alloc)?,
            sent: [0; 256],
            seated: [false; 256],
        })
    }

    /// A seat sends this. Once the kernel has ended, it is dropped.
    fn send(&mut self, seat: u8, what: What) -> Result<(), AllocError>
        ensures { OnOk result (spec.Sends L.spoken seat what self.old self.new) }
    {
        let number = self.sent[seat as usize].saturating_add(1);
        match self.kernel.take(Arrival { seat, number, what }) {
            Ok(()) => {
                self.sent[seat as usize] = number;
                Ok(())
            }
            Err(_) => Err(AllocError),
        }
    }

    /// A seat joins with the first that it sends, and anew with the first after it left.
    fn join(&mut self, seat: u8) -> Result<(), AllocError>
        ensures { OnOk result (spec.Joins L.spoken seat self.old self.new) }
    {
        if !self.seated[seat as usize] {
            self.send(seat, What::Join)?;
            self.seated[seat as usize] = true;
        }
        Ok(())
    }

    /// The next job, if there is one, is given, read and handed in.
    fn parse_one(&mut self, alloc: Global) -> Result<(), AllocError>
        ensures { OnOk result ((k : KernelState L.Tree) × spec.ParsesOne L.spoken self.old.kernel k
            × (self.new ≡ spec.with_kernel k self.old)) }
    {
        match self.kernel.next_job()? {
            Some(job) => {
                let _used = self.kernel.parsed(job.parse::<L>(alloc));
                Ok(())
            }
            None => Ok(()),
        }
    }

    /// The lines of all pending entries.
    fn pending_lines(&mut self, alloc: Global) -> Result<String, AllocError>
        ensures state { OnOk result (self.new ≡ spec.shown self.old) }
        ensures lines { IfOk result (λ lines. string_bytes lines ≡ spec.pending_lines self.old.kernel) }
    {
        let marks = self.kernel.pending_marks();
        let entries = self.kernel.take_pending(marks)?;
        show(alloc, entries.as_slice())
    }

    fn message(&mut self, alloc: Global, seat: u8, message: Message) -> Result<String, AllocError>
        ensures { IfOk result (λ lines. spec.StepDone L.spoken (Step.Message seat message) self.old self.new (string_bytes lines)) }
    {
        let message = match Shared::share(alloc, message) {
            Ok(message) => message,
            Err(_) => return Err(AllocError),
        };
        self.join(seat)?;
        self.send(seat, sent_on(message))?;
        self.parse_one(alloc)?;
        self.pending_lines(alloc)
    }

    /// Works a slice. The answer is what it came to, and the lines that it shows.
    pub fn slice(&mut self, alloc: Global, turns: u64) -> Result<(Work, String), AllocError>
        ensures { IfOk result (λ sliced. spec.IsSliced L.spoken turns self.old sliced.0 self.new (string_bytes sliced.1)) }
    {
        let answer = self.kernel.work(turns);
        if answer == Work::NoMemory {
            return Err(AllocError);
        }
        let lines = self.pending_lines(alloc)?;
        Ok((answer, lines))
    }

    fn leave(&mut self, alloc: Global, seat: u8) -> Result<String, AllocError>
        ensures { IfOk result (λ lines. spec.StepDone L.spoken (Step.Leave seat) self.old self.new (string_bytes lines)) }
    {
        self.send(seat, What::Leave)?;
        self.seated[seat as usize] = false;
        self.pending_lines(alloc)
    }

    /// What a line asks for, where it may be asked for now.
    pub fn admitted(&self, step: Step) -> Result<Step, Fault>
        ensures { result ≡ spec.admitted self.now step }
    {
        match step {
            Step::Leave(seat) => if self.seated[seat as usize] {
                Ok(Step::Leave(seat))
            } else {
                Err(Fault::WrongKind)
            },
            Step::Message(seat, message) => Ok(Step::Message(seat, message)),
            Step::Run(turns) => Ok(Step::Run(turns)),
        }
    }

    /// What a line asks for. The answer is the lines that it shows.
    pub fn step(&mut self, alloc: Global, step: Step) -> Result<String, AllocError>
        ensures { IfOk result (λ lines. spec.StepDone L.spoken step self.old self.new (string_bytes lines)) }
    {
        match step {
            Step::Message(seat, message) => self.message(alloc, seat, message),
            Step::Run(turns) => {
                let (_answer, lines) = self.slice(alloc, turns)?;
                Ok(lines)
            }
            Step::Leave(seat) => self.leave(alloc, seat),
        }
    }
}
