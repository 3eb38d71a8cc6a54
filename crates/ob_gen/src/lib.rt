//! From typed trees to stack code.
#![tactic(auto)]

mod action;
mod compile;
mod emit;
mod jumps;
mod known;
mod laws;
mod module;
mod statement;

pub use laws::{body_law, commands_law};
pub use module::{generate, module_code};
