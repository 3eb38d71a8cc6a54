//! The log of a kernel: what seats send, what the kernel marks, and what is shown of that.
#![tactic(auto)]

mod arrival;
mod entry;
mod failure;
mod job;
mod leaves;
mod mark;
mod query;
mod show;
mod written;

pub use arrival::{Arrival, Sort, What, execute_sent, input_sent, sort_of};
pub use entry::{Entry, To, Told};
pub use job::{Job, Parsed, ParsedCell};
pub use leaves::Leaves;
pub use mark::{Cause, Ending, Item, Kind, Mark};
pub use query::status_of;
pub use show::add_entries;
pub use written::Written;
