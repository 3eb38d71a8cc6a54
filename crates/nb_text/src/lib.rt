//! Texts of notebooks, written straight from the notebook with no JSON value in between.
#![tactic(auto)]

mod cells;
mod compact;
mod joined;
mod members;
mod outputs;
mod sink;
mod values;
mod whole;

pub use sink::Compact;
pub use whole::write_notebook;
