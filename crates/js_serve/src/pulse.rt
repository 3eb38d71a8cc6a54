//! The thread that calls the desk when recorders are to be read for.

use crossbeam_channel::{Receiver, RecvTimeoutError, SendError, Sender};
use jk_language::Language;
use js_call::Call;
use js_kernels::Found;
use std::sync::Wait;
use std::thread;
use std::time::{Clock, Duration};

/// How many milliseconds pass before a call that found no memory is tried again.
const PAUSE: u64 = 100;

/// How many milliseconds pass between two reads.
const SHORT: u64 = 20;

/// How many reads in a row may find nothing before the pauses are long. They take about a second.
const QUIET_READS: u32 = 50;

/// How many milliseconds pass between two reads where nothing came for a while.
const LONG: u64 = 100;

/// How many milliseconds pass between two reads while a kernel ends.
pub(crate) const QUICK: u64 = 1;

/// How many milliseconds pass before a refused save is tried again.
const SAVE_PAUSE: u64 = 1_000;

/// How many milliseconds pass where there is no kernel.
const IDLE: u64 = 3_600_000;

/// A look at all recorders that is under way, one after the other. Between two of them calls are taken.
#[derive(Clone, Copy, Debug)]
pub(crate) struct Round {
    /// Which recorder is next.
    pub(crate) place: usize,
    /// Whether refused saves are tried again.
    pub(crate) saves: bool,
    /// The most urgent that was found so far.
    pub(crate) found: Found,
    /// How many calls were taken since the last recorder.
    pub(crate) calls: u32,
}

impl Round {
    /// No recorder has read yet.
    pub(crate) fn new(saves: bool, found: Found) -> Round {
        Round {
            place: 0,
            saves,
            found,
            calls: 0,
        }
    }

    /// After one more recorder.
    pub(crate) fn after(self, found: Found) -> Round {
        Round {
            place: self.place.saturating_add(1),
            saves: self.saves,
            found: self.found.or(found),
            calls: 0,
        }
    }

    /// After one more call.
    pub(crate) fn after_call(self) -> Round {
        Round {
            calls: self.calls.saturating_add(1),
            ..self
        }
    }
}

/// When recorders are read for.
#[derive(Drop)]
pub(crate) struct Rhythm {
    /// How many reads in a row have found nothing.
    quiet: u32,
    /// How many milliseconds have passed since refused saves were tried again.
    passed: u64,
}

impl Rhythm {
    /// Nothing was read yet.
    pub(crate) fn new() -> Rhythm {
        Rhythm {
            quiet: 0,
            passed: 0,
        }
    }

    /// How many milliseconds pass before the next read.
    pub(crate) fn next(&mut self, found: Found) -> u64 {
        self.quiet = if found == Found::Nothing {
            self.quiet.saturating_add(1)
        } else {
            0
        };
        let pause = match found {
            Found::NoKernel => IDLE,
            Found::More => 0,
            Found::Ending => QUICK,
            Found::Entries => SHORT,
            Found::Nothing => if self.quiet < QUIET_READS {
                SHORT
            } else {
                LONG
            },
        };
        self.passed = self.passed.saturating_add(pause);
        pause
    }

    /// Whether refused saves are to be tried again now.
    pub(crate) fn is_time_to_save(&mut self) -> bool {
        if self.passed < SAVE_PAUSE {
            return false;
        }
        self.passed = 0;
        true
    }
}

/// Calls the desk each time a pause that it said is over, until the desk is gone.
pub(crate) fn pulse<L: Language, R: Wait + Clock>(
    rt: &R,
    calls: &Sender<Call<L>>,
    pauses: &Receiver<u64>,
) {
    let mut pause = IDLE;
    for _ in rt.forever() {
        match pauses.recv_timeout(rt, Duration::from_millis(pause)) {
            Ok(next) => pause = next,
            Err(RecvTimeoutError::Disconnected) => return,
            Err(RecvTimeoutError::Timeout) => {
                if !call(rt, calls) {
                    return;
                }
                match pauses.recv(rt) {
                    Ok(next) => pause = next,
                    Err(_) => return,
                }
            }
        }
    }
}

/// Calls the desk. Where memory is refused it is tried again. It says whether the desk is there.
fn call<L: Language, R: Wait + Clock>(rt: &R, calls: &Sender<Call<L>>) -> bool {
    for _ in rt.forever() {
        match calls.send(rt, Call::Pulse) {
            Ok(()) => return true,
            Err(SendError::OutOfMemory(_)) => thread::sleep(rt, Duration::from_millis(PAUSE)),
            Err(_) => return false,
        }
    }
    false
}
