//! A driver until its kernel was shut down.
ghost use Rattle.std.specs.Prelude.{◌≡◌, ◌≢◌, ℕ, [], None, true, false};
ghost use Rattle.jk_core.specs.declared.kernel.Work.{Work as Worked};
ghost use Rattle.jk_core.specs.declared.kernel.Work.TheVariants.{NoMemory};
ghost use Rattle.jk_log.specs.Log.{ended};
ghost use Rattle.jk_queues.specs.Pool.{has_stopped};
ghost use Rattle.jk_run.specs.Driver.{AreSameEnds, HasDone, HasDriven};

use crate::driver::Driver;
use crate::pace::{Pace, micros_since};
use crate::round::round;
use jk_core::Work;
use jk_language::Language;
use jk_queues::pauses::Pauses;
use std::sync::Wait;
use std::time::{Clock, Instant};

/// Those who follow a board, and may rest.
pub trait Following {
    /// The board has entries that it did not have before.
    fn shown(&self);
}

/// Makes rounds until the kernel was shut down, not to start again, and all is published. Then it stops the pool and hands
/// the driver back, whose publisher has to outlive the followers. While there is nothing to do it pauses between rounds, the
/// longer the longer that has been so. How many turns the slice of a round has follows from how long the last round took. Those who
/// follow the board are told of each round that published something.
pub fn drive<L: Language, R: Wait + Clock + Following>(rt: &R, driver: Driver<L>) -> Driver<L>
    ensures acts { HasDriven L.spoken driver result }
    ensures same { AreSameEnds driver result }
    ensures last { (turns : ℕ) × (answer : Worked) × HasDone L.spoken turns answer driver result }
    ensures ended { ended result.kernel.log ≡ true }
    ensures shown { (result.entries ≡ None) × (result.kernel.pending ≡ []) }
    ensures stopped { has_stopped result.pool ≡ true }
{
    let mut pauses = Pauses::new();
    let mut last = Work::Rest;
    let mut pace = Pace::first();
    let mut driver = driver;
    for _ in rt.forever() {
        let start = Instant::now(rt);
        let (next, work, made) = round(rt, pace.turns, driver);
        driver = next;
        if made.shown {
            rt.shown();
        }
        if found_memory(work) && driver.kernel.ended() {
            driver.pool.stop(rt);
            return driver;
        }
        pace = next_pace(pace, work, micros_since(rt, start), made.marks);
        pauses.pause_unless(rt, goes_on(last, work));
        last = work;
    }
    unreachable!()
}

/// The pace after a round that answered `work`, took `micros` microseconds and made `marks` marks in its slice.
fn next_pace(pace: Pace, work: Work, micros: u64, marks: usize) -> Pace {
    match work {
        Work::Ran => pace.after(micros, marks),
        Work::Rest | Work::NeedsParse | Work::NeedsLine | Work::NoMemory => Pace::first(),
    }
}

/// Whether no call of a round was refused for memory.
fn found_memory(work: Work) -> bool
    ensures { result ≡ true → work ≢ NoMemory }
{
    match work {
        Work::Rest | Work::NeedsParse | Work::Ran | Work::NeedsLine => true,
        Work::NoMemory => false,
    }
}

/// Whether a round found something to do: it worked, or what its slice came to is something else than before.
fn goes_on(last: Work, work: Work) -> bool
    ensures { result ≡ false → work ≡ last }
{
    work == Work::Ran || work != last
}
