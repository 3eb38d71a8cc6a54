//! The pauses of a thread that looks again and again for something to do.
ghost use Rattle.std.specs.Prelude.{◌≡◌, ◌≤◌, ◌/◌, max, min, true, false};

use crossbeam_utils::Backoff;
use std::thread;
use std::time::{Clock, Duration};

/// How many microseconds the shortest sleep takes.
const SHORTEST: u64 = 50;

/// How many microseconds the longest sleep takes.
const LONGEST: u64 = 30_000;

/// A sleep takes this part of what was slept before it.
const PART: u64 = 256;

/// The pauses of one thread. After something was found a few of them only let other threads run. Those that follow are sleeps,
/// which grow with what was slept since: a thread that has waited for long looks seldom.
#[derive(Drop)]
pub struct Pauses {
    backoff: Backoff,
    /// How many microseconds were slept since something was found.
    slept: u64,
}

impl Pauses {
    /// Something was just found.
    pub fn new() -> Pauses
        ensures { result.slept ≡ 0 }
    {
        Pauses {
            backoff: Backoff::new(),
            slept: 0,
        }
    }

    /// Pauses, unless something was found.
    pub fn pause_unless<R: Clock>(&mut self, rt: &R, found: bool)
        ensures short { found ≡ true → self.new.slept ≡ 0 }
        ensures longer { found ≡ false → self.old.slept ≤ self.new.slept }
    {
        if found {
            self.backoff.reset();
            self.slept = 0;
        } else {
            self.pause(rt);
        }
    }

    /// Lets other threads run, or sleeps.
    fn pause<R: Clock>(&mut self, rt: &R)
        ensures { self.old.slept ≤ self.new.slept }
    {
        if self.backoff.is_completed() {
            let sleep = next_sleep(self.slept);
            thread::sleep(rt, Duration::from_micros(sleep));
            self.slept = self.slept.saturating_add(sleep);
        } else {
            self.backoff.snooze();
        }
    }
}

/// How many microseconds a sleep takes before which `slept` were slept.
fn next_sleep(slept: u64) -> u64
    ensures { result ≡ max 50 (min (slept / 256) 30000) }
{
    (slept / PART).min(LONGEST).max(SHORTEST)
}
