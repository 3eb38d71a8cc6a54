//! What the threads of the running server tell its desk, and what that replies.
#![tactic(auto)]

mod asking;
mod call;
mod client;
mod clock;
mod crowd;
mod exchange;
mod limits;
mod question;
mod telling;
mod turns;
mod waiting;

pub use asking::{Matter, admit, refused};
pub use call::{Call, Reply, Upgrade};
pub use client::{Client, Made};
pub use clock::{date_now, given_now};
pub use crowd::{Crowd, Guest, Ticket, Turned};
pub use exchange::Exchange;
pub use limits::Limits;
pub use question::Question;
pub use telling::tell;
pub use turns::Turns;
pub use waiting::{Waiting, ask_by};
