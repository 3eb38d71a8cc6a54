//! What a cell of the tests' small language means.
#![tactic(auto)]

mod text;

pub use text::{Text, begins_with};
