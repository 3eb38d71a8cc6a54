//! The driver of a kernel: it takes what seats send, gives jobs to the pool, hands results to the kernel, works, and
//! publishes.
#![tactic(auto)]

mod arrivals;
mod board;
mod driver;
mod jobs;
mod law;
mod pace;
mod round;
mod running;

pub use driver::{Driver, Parts};
pub use law::{act_law, drive_law};
pub use round::drive_some;
pub use running::{Following, drive};
