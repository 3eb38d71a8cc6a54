//! The threads of a kernel: the one that drives it, those that parse its cells, and what wakes them.
#![tactic(auto)]

mod bell;
mod driving;
mod neighbours;
mod parser;
mod place;
mod wakes;

pub use bell::Bell;
pub use driving::{NewKernel, Opened, Opening, Returned, drive_kernel, make_kernel};
pub use neighbours::Neighbours;
pub use parser::{Parser, parse};
pub use place::Place;
pub use wakes::{SERVER, Wakes};
