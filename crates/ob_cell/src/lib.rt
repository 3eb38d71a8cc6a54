//! Oberon, as a kernel speaks of a language: from a cell's text to its tree, to what it means, and to the machine that runs it.
#![tactic(auto)]

mod cell;
mod command;
mod compiled;
mod laws;
mod loaded;
mod module;
mod planned;
mod reading;
mod start;
mod tree;

pub use laws::{oberon_law, text_law};
pub use reading::parse;
pub use start::begin;
pub use tree::Tree;
