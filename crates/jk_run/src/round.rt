//! Rounds of a driver. A round takes the driver apart and makes it anew of its parts, since what a driver's type says of them holds
//! before and after, and not while one has moved on.
ghost use Rattle.std.specs.Prelude.{◌≡◌, ◌≢◌, ◌≤◌, [], true, None};
ghost use Rattle.jk_log.specs.Legal.{IsLegal};
ghost use Rattle.jk_core.specs.declared.kernel.Work.TheVariants.{NoMemory};
ghost use Rattle.jk_core.specs.Steps.{Works};
ghost use Rattle.jk_run.specs.Driver.{HasDriven, AreSameEnds, IsRound, Rounds};

use crate::arrivals::take_arrivals;
use crate::board::{publish_hand, publish_pending};
use crate::driver::Driver;
use crate::jobs::{give_jobs, hand_results};
use jk_core::{Kernel, Work};
use jk_language::Language;
use std::sync::Wait;

/// The turns of a slice of `drive_some`.
const SLICE: u64 = 1_000;

/// How many bytes may be unread by one who is lent a place at the board, before the kernel waits.
const UNREAD: usize = 67_108_864;

/// What a round made: how many marks its slice did, and whether it published anything.
#[derive(Clone, Copy)]
pub(crate) struct Made {
    pub(crate) marks: usize,
    pub(crate) shown: bool,
}

impl Made {
    /// Nothing yet.
    fn nothing() -> Made {
        Made {
            marks: 0,
            shown: false,
        }
    }
}

/// Makes `rounds` rounds, and answers the slice of the last one, or `NoMemory` where a call of that round was refused for
/// memory. A round takes what arrived, gives jobs, hands results to the kernel, works one slice and publishes. While a
/// follower that is lent is more than 67,108,864 bytes behind, it works no slice, unless the kernel was shut down: a budget
/// that is used up counts as refused memory.
pub fn drive_some<L: Language, R: Wait>(rt: &R, rounds: u64, driver: Driver<L>) -> (Driver<L>, Work)
    requires { 1 ≤ rounds }
    ensures rounds { Rounds L.spoken rounds driver result.1 result.0 }
    ensures acts { HasDriven L.spoken driver result.0 }
    ensures same { AreSameEnds driver result.0 }
    ensures done { IsRound L.spoken 1000 result.1 driver result.0 }
    ensures legal { IsLegal L.spoken result.0.kernel.log }
{
    let (mut driver, mut work, _) = round(rt, SLICE, driver);
    for _ in 1..rounds {
        let (next, answer, _) = round(rt, SLICE, driver);
        driver = next;
        work = answer;
    }
    driver.kernel.legal();
    (driver, work)
}

/// One round, whose slice has at most `turns` turns. It says also what it made. Where entries in hand find no memory again, it is
/// over.
pub(crate) fn round<L: Language, R: Wait>(
    rt: &R,
    turns: u64,
    driver: Driver<L>,
) -> (Driver<L>, Work, Made)
    requires { 1 ≤ turns }
    ensures acts { HasDriven L.spoken driver result.0 }
    ensures same { AreSameEnds driver result.0 }
    ensures shown { result.1 ≢ NoMemory → (result.0.entries ≡ None) × (result.0.kernel.pending ≡ []) }
    ensures done { IsRound L.spoken turns result.1 driver result.0 }
{
    let held = driver.entries.is_some();
    let driver = show_hand(rt, driver);
    if driver.entries.is_some() {
        return (driver, Work::NoMemory, Made::nothing());
    }
    let (driver, work, made) = go_round(rt, turns, driver);
    let shown = held || made.shown;
    (driver, work, Made { shown, ..made })
}

/// Publishes the entries in hand.
fn show_hand<L: Language, R: Wait>(rt: &R, driver: Driver<L>) -> Driver<L>
    ensures acts { HasDriven L.spoken driver result }
    ensures same { AreSameEnds driver result }
{
    let Driver {
        alloc,
        kernel,
        taker,
        pool,
        publisher,
        arrival,
        job,
        entries,
        mut spare,
    } = driver;
    let (publisher, entries) = publish_hand(rt, alloc, &kernel, publisher, entries, &mut spare);
    Driver {
        alloc,
        kernel,
        taker,
        pool,
        publisher,
        arrival,
        job,
        entries,
        spare,
    }
}

/// A round of a driver with no entries in hand.
fn go_round<L: Language, R: Wait>(rt: &R, turns: u64, driver: Driver<L>) -> (Driver<L>, Work, Made)
    requires { driver.entries ≡ None }
    ensures acts { HasDriven L.spoken driver result.0 }
    ensures same { AreSameEnds driver result.0 }
    ensures shown { result.1 ≢ NoMemory → (result.0.entries ≡ None) × (result.0.kernel.pending ≡ []) }
    ensures done { IsRound L.spoken turns result.1 driver result.0 }
{
    let Driver {
        alloc,
        mut kernel,
        taker,
        mut pool,
        publisher,
        arrival,
        job,
        entries: _,
        mut spare,
    } = driver;
    let (taker, arrival) = take_arrivals(rt, &mut kernel, taker, arrival, &mut spare);
    let (job, gave) = give_jobs(rt, &mut kernel, &mut pool, job);
    hand_results(rt, &mut kernel, &mut pool);
    spare.keep(alloc);
    let room = kernel.ended() || publisher.unread() <= UNREAD;
    let before = kernel.pending_marks();
    let work = work_slice(&mut kernel, turns, room);
    let pending = kernel.pending_marks();
    let made = Made {
        marks: pending.saturating_sub(before),
        shown: pending > 0,
    };
    let (publisher, entries, shown) = publish_pending(
        rt,
        alloc,
        &mut kernel,
        publisher,
        &mut spare,
    );
    let taken = arrival.is_none();
    let next = Driver {
        alloc,
        kernel,
        taker,
        pool,
        publisher,
        arrival,
        job,
        entries,
        spare,
    };
    (next, answer_of(taken, gave, shown, work), made)
}

/// Works one slice, where there is room for what it shows. Else the answer is that there is no memory.
fn work_slice<L: Language>(kernel: &mut Kernel<L>, turns: u64, room: bool) -> Work
    ensures { Works L.spoken turns kernel.old result kernel.new }
{
    if room {
        kernel.work(turns)
    } else {
        Work::NoMemory
    }
}

/// What a round answers: that of its slice, where memory was there for all else.
fn answer_of(taken: bool, gave: bool, shown: bool, work: Work) -> Work
    ensures { result ≢ NoMemory → (taken ≡ true) × (gave ≡ true) × (shown ≡ true) × (result ≡ work) }
{
    if taken && gave && shown {
        work
    } else {
        Work::NoMemory
    }
}
