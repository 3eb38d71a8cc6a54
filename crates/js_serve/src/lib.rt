//! The running server: the desk that answers for all its connections and kernels, and what its threads do.
#![tactic(auto)]

mod concern;
mod desk;
mod job;
mod pulse;

pub use desk::{Closes, Desk, close_desk};
pub use job::{Job, work};
