//! What the server itself sees of a kernel.
ghost use Rattle.std.specs.Prelude.{◌≡◌, false};
ghost use Rattle.jk_board.specs.Ends.{board_of};
ghost use Rattle.js_tables.specs.declared.tables.State.TheVariants.{Idle};
ghost use Rattle.js_kernels.specs.Watching as spec;

use jk_board::Follower;
use jk_language::Language;
use jk_log::{Entry, Told};
use jp_msg::{Output, State as Said};
use js_tables::State;
use js_ws::ENTRIES;
use std::alloc::Global;

/// The follower of seat 0, and what it found.
#[derive(Drop)]
pub(crate) struct Watch<L: Language> {
    pub(crate) follower: Follower<L>,
    /// By the last status.
    pub(crate) state: State,
    /// Whether the kernel was shut down, not to start again.
    pub(crate) ended: bool,
}

fn state_of(said: Said) -> State
    ensures { result ≡ spec.state_of said }
{
    match said {
        Said::Busy => State::Busy,
        Said::Idle => State::Idle,
    }
}

/// The state that an entry tells, or the one before it.
fn state_by(before: State, told: &Told) -> State
    ensures { result ≡ spec.state_by before told.now }
{
    match told {
        Told::Output(Output::Status(said)) => state_of(*said),
        _ => before,
    }
}

/// The state after these entries.
fn state_after(before: State, entries: &[Entry]) -> State
    ensures { result ≡ spec.state_after before entries.now }
{
    let mut state = before;
    for entry in entries {
        state = state_by(state, &entry.content);
    }
    state
}

/// Whether an entry is the reply to a shutdown without restart.
fn tells_end(told: &Told) -> bool
    ensures { result ≡ spec.tells_end told.now }
{
    match told {
        Told::Output(Output::ShutdownReply { restart }) => !*restart,
        _ => false,
    }
}

/// Whether such a reply is among these entries.
fn has_end(entries: &[Entry]) -> bool
    ensures { result ≡ spec.has_end entries.now }
{
    entries.iter().any(|entry| tells_end(&entry.content))
}

impl<L: Language> Watch<L> {
    /// Nothing was found yet.
    pub(crate) fn new(follower: Follower<L>) -> Watch<L>
        ensures follower { result.follower ≡ follower }
        ensures nothing { (result.state ≡ Idle) × (result.ended ≡ false) }
    {
        Watch {
            follower,
            state: State::Idle,
            ended: false,
        }
    }

    /// Reads on, and says how many entries were found.
    fn read_some(self, alloc: Global) -> (Watch<L>, usize)
        ensures reads { spec.ReadsOn self result.0 }
        ensures board { board_of result.0.follower ≡ board_of self.follower }
    {
        let Watch {
            follower,
            state,
            ended,
        } = self;
        let (follower, found) = follower.read(alloc, ENTRIES);
        match found {
            Ok(entries) => (
                Watch {
                    follower,
                    state: state_after(state, entries.as_slice()),
                    ended: ended || has_end(entries.as_slice()),
                },
                entries.len(),
            ),
            Err(_) => (
                Watch {
                    follower,
                    state,
                    ended,
                },
                0,
            ),
        }
    }

    /// Reads all that is there, and says whether anything was found.
    pub(crate) fn read(self, alloc: Global) -> (Watch<L>, bool)
        ensures reads { spec.ReadsOn self result.0 }
        ensures board { board_of result.0.follower ≡ board_of self.follower }
    {
        let (mut watch, first) = self.read_some(alloc);
        let mut last = first;
        for _ in 0..u64::MAX {
            if last < ENTRIES {
                break;
            }
            let (same, count) = watch.read_some(alloc);
            watch = same;
            last = count;
        }
        (watch, first > 0)
    }
}
