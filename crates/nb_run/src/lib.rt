//! A notebook's cells, run on a fresh kernel on one thread, and saved with what they show.
#![tactic(auto)]

mod cells;
mod lines;
mod player;
mod request;
mod round;
mod run;
mod source;
mod status;

pub use run::{Asked, run_saved};
pub use source::read_from;
pub use status::{RunFault, run_status};
