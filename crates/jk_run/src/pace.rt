//! How many turns a slice has. A slice is to be so short that whoever interrupts a cell has soon an answer, and so long that what
//! stands round it costs little beside it. How long a turn takes is known only after it, and a slice in which a cell goes from quick
//! turns to slow ones is long. So slices grow slowly, and past a few turns only where a cell has had very many; and they get
//! shorter at once.
ghost use Rattle.std.specs.Prelude.{◌≡◌, ◌≤◌, ◌<◌, ◌*◌, ◌+◌, ◌/◌, if◌then◌else◌, max, min};

use std::io;
use std::time::{Clock, Instant};

/// The turns of the first slices of a cell, whose pace nobody knows yet.
const FIRST: u64 = 8;

/// The turns that a slice has at most where the one before it wrote something, since what a cell writes is to be shown soon, and
/// where the cell has not had very many.
const FEW: u64 = 1_000;

/// The turns that a slice has at most.
const MOST: u64 = 20_000;

/// After a short slice that wrote nothing the next has more turns by one and by this part of them.
const PART: u64 = 256;

/// A slice of more than a few turns has at most this part of those that its cell has had.
const PATIENCE: u64 = 20_000;

/// A slice that took fewer microseconds was short.
const SHORT: u64 = 100;

/// A slice that took more microseconds was long.
const LONG: u64 = 10_000;

/// How many microseconds a slice is to take that follows a long one.
const AIM: u64 = 5_000;

/// How many turns the next slice has, and how many those before it had since the cell began: at most as many as allow the longest
/// slice.
#[derive(Drop)]
pub(crate) struct Pace {
    pub(crate) turns: u64,
    had: u64,
    ghost some: { 1 ≤ turns },
    ghost bounded: { turns ≤ 20000 },
    ghost enough: { had ≤ 400000000 },
}

impl Pace {
    /// The pace of a cell that begins.
    pub(crate) fn first() -> Pace
        ensures { (result.turns ≡ 8) × (result.had ≡ 0) }
    {
        Pace {
            turns: FIRST,
            had: 0,
        }
    }

    /// The pace after a slice that took `micros` microseconds and made `marks` marks. A cell that goes on makes none, or one
    /// for what it wrote: with more a cell began or ended.
    pub(crate) fn after(self, micros: u64, marks: usize) -> Pace
        ensures long { 10000 < micros → 2 * result.turns ≤ max 2 self.turns }
        ensures silent { micros < 100 → marks ≡ 0 → result.turns ≡ min (self.turns + self.turns / 256 + 1) (max 1000 (result.had / 20000)) }
        ensures writes { micros ≤ 10000 → marks ≡ 1 → result.turns ≤ 1000 }
        ensures other { micros ≤ 10000 → 2 ≤ marks → result.turns ≡ 8 }
        ensures had { marks ≤ 1 → result.had ≡ min 400000000 (self.had + self.turns) }
    {
        if marks > 1 && micros <= LONG {
            return Pace::first();
        }
        let had = (self.had + self.turns).min(MOST * PATIENCE);
        let is_short = micros < SHORT;
        let turns = if micros > LONG {
            shorter(self.turns, micros)
        } else if marks == 1 {
            written(self.turns, is_short)
        } else {
            silent(self.turns, is_short, had)
        };
        Pace { turns, had }
    }
}

/// The turns after a slice of `turns` turns that took `micros` microseconds, which was too long.
fn shorter(turns: u64, micros: u64) -> u64
    requires turns { turns ≤ 20000 }
    requires long { 10000 < micros }
    ensures some { 1 ≤ result }
    ensures half { 2 * result ≤ max 2 turns }
{
    let half = (turns / 2).max(1);
    (turns * AIM / micros).max(1).min(half)
}

/// The turns after a slice of `turns` turns that wrote something.
fn written(turns: u64, is_short: bool) -> u64
    requires { turns ≤ 20000 }
    ensures { result ≡ min 1000 (if is_short then 2 * turns else turns) }
{
    let more = if is_short { 2 * turns } else { turns };
    more.min(FEW)
}

/// The turns after a slice of `turns` turns that wrote nothing, where the cell has had `had` in all.
fn silent(turns: u64, is_short: bool, had: u64) -> u64
    requires { turns ≤ 20000 }
    ensures { result ≡ (if is_short then min (turns + turns / 256 + 1) (max 1000 (had / 20000)) else turns) }
{
    if is_short {
        (turns + turns / PART + 1).min((had / PATIENCE).max(FEW))
    } else {
        turns
    }
}

/// How many microseconds have passed since a moment. Where the clock can't be read, as many as make a slice neither short nor
/// long.
pub(crate) fn micros_since<R: Clock>(rt: &R, start: io::Result<Instant>) -> u64 {
    let Ok(start) = start else {
        return LONG;
    };
    match start.elapsed(rt) {
        Ok(passed) => u64::try_from(passed.as_micros()).unwrap_or(u64::MAX),
        Err(_) => LONG,
    }
}
