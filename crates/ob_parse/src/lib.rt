//! Tokens to trees.
#![tactic(auto)]

mod cell;
mod declaration;
mod formal;
mod laws;
mod module;
mod procedure;
mod statement;
mod structure;
mod text;

pub use cell::parse;
pub use laws::{cell_function_law, tree_function_law};
pub use text::parse_text;
