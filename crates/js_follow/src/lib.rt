//! The recorders of sessions: what kernels show goes into the notebooks of their sessions.
#![tactic(auto)]

mod changing;
mod following;
mod joining;
mod putting;

pub use following::{Followed, follow, is_due};
pub use putting::put_book;
