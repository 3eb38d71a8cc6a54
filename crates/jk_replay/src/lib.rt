//! Messages and steps, a line each, replayed by a kernel on one thread.
#![tactic(auto)]

mod input;
mod replay;
mod replaying;
mod show;
mod status;
mod step;

pub use replay::{End, ReplayFault, Side, replay_lines};
pub use status::{ended_status, replay_status, usage_status};
