//! Streams with limits of time: one whose reads wait as long as its traffic allows, and one whose reads end by a deadline.
#![tactic(auto)]

mod calls;
mod limited;
mod owner;
mod paced;
mod rest;

pub use limited::{Limited, end_of_answer};
pub use owner::Owner;
pub use paced::Paced;
pub use rest::{Rest, Selector, Waking};
