//! The queues between the threads of a kernel: the inbox, to which eight seats send, and the pool of parsers.
#![tactic(auto)]

pub mod inbox;
pub mod line;
pub mod part;
pub mod pauses;
pub mod pool;
pub mod rule;
pub mod spare;
pub mod stop;

pub use inbox::{Full, Inbox, Left, Seat, Seats, Taker, close};
pub use pool::{Gate, Pool, WorkerEnd, worker};
pub use spare::Spare;
