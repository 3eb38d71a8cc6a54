//! What a worker does.
ghost use Rattle.std.specs.Prelude.{◌≡◌, true, [], ◌∷◌, ◌++◌, MatchBool, MatchOption};
ghost use Rattle.jk_queues.specs.Pool.{taken_by, made_by, found_stopped, IsSameEnd};
ghost use Rattle.jk_queues.specs.Work.{IsRound, HasWorked};

use super::WorkerEnd;
use crate::line::{AlsoGets, AlsoPuts};
use crate::pauses::Pauses;
use crate::stop::Looks;
use jk_language::Language;
use jk_log::{Job, ParsedCell};
use std::alloc::Global;
use std::sync::Wait;
use std::thread;
use std::time::Clock;

/// What a worker passes before and after each job.
pub trait Gate {
    fn before(&self, job: u64);

    fn after(&self, job: u64);
}

/// What a round of a worker came to.
#[derive(Clone, Copy, Debug, PartialEq, Eq)]
pub enum Round {
    /// It took a job, and handed its result in.
    Worked,
    /// There was no job.
    Idle,
    /// It found the pool stopped. A result that it had in hand is dropped.
    Stopped,
}

impl<T: Drop> WorkerEnd<T> {
    /// Whether the driver has stopped the pool.
    fn is_stopped<R: Wait>(&mut self, rt: &R) -> bool
        ensures found { found_stopped self.new ≡ result }
        ensures views { (taken_by self.new ≡ taken_by self.old) × (made_by self.new ≡ made_by self.old) }
        ensures same { IsSameEnd self.old self.new }
    {
        self.stop.load_as::<Looks, R>(rt, &mut self.stopping)[0] == 1
    }

    /// The next job, or `None` where no job stood in the queue at one moment of the call.
    fn next_job<R: Wait>(&mut self, rt: &R) -> Option<Job>
        ensures taken { MatchOption result (taken_by self.new ≡ taken_by self.old) (λ job. taken_by self.new ≡ taken_by self.old ++ job ∷ []) }
        ensures made { made_by self.new ≡ made_by self.old }
        ensures same { IsSameEnd self.old self.new }
    {
        self.jobs.pop_as::<AlsoGets, R>(rt, &mut self.taken)
    }

    /// Gives a result back, and waits while there is no room. It says whether it did: it didn't only where it
    /// found the pool stopped.
    fn hand_in<R: Wait>(&mut self, rt: &R, made: T) -> bool
        ensures handed { MatchBool result (made_by self.new ≡ made_by self.old ++ made ∷ []) ((made_by self.new ≡ made_by self.old) × (found_stopped self.new ≡ true)) }
        ensures taken { taken_by self.new ≡ taken_by self.old }
        ensures same { IsSameEnd self.old self.new }
    {
        let mut made = made;
        for _ in rt.forever() {
            match self
                .results
                .push_as::<AlsoPuts, R>(rt, &mut self.made, made)
            {
                Ok(()) => return true,
                Err(back) => made = back,
            }
            if self.is_stopped(rt) {
                return false;
            }
            thread::yield_now();
        }
        unreachable!()
    }
}

impl<L: Language> WorkerEnd<ParsedCell<L>> {
    /// Takes a job, reads its text and hands the result in, if there is a job and the pool isn't stopped.
    fn round<R: Wait, G: Gate>(&mut self, rt: &R, alloc: Global, gate: &G) -> Round
        ensures { IsRound result self.old self.new }
    {
        if self.is_stopped(rt) {
            return Round::Stopped;
        }
        let Some(job) = self.next_job(rt) else {
            return Round::Idle;
        };
        let number = job.number;
        gate.before(number);
        let handed = self.hand_in(rt, job.parse::<L>(alloc));
        gate.after(number);
        if handed {
            Round::Worked
        } else {
            Round::Stopped
        }
    }
}

/// Reads the texts of jobs until it finds the pool stopped. Each job that it takes has its result handed in, but for one that was
/// in hand where the pool was found stopped. While there is no job it pauses, the longer the longer that has been so.
pub fn worker<L: Language, R: Wait + Clock, G: Gate>(
    rt: &R,
    alloc: Global,
    gate: &G,
    end: WorkerEnd<ParsedCell<L>>,
) -> WorkerEnd<ParsedCell<L>>
    ensures { HasWorked end result }
{
    let mut pauses = Pauses::new();
    let mut end = end;
    for _ in rt.forever() {
        match end.round(rt, alloc, gate) {
            Round::Worked => pauses.pause_unless(rt, true),
            Round::Idle => pauses.pause_unless(rt, false),
            Round::Stopped => return end,
        }
    }
    unreachable!()
}
