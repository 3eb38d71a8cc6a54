//! The recorder of a notebook: what a kernel shows goes into the cells that asked for it.
#![tactic(auto)]

mod cells;
mod event;
mod keeping;
mod pages;
mod recorder;

pub use event::{Event, ends_stored};
pub use pages::Pages;
pub use recorder::Recorder;
