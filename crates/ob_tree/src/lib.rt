//! Syntax trees of Oberon-07, their grammar, and where an expression begins.
#![tactic(auto)]

pub mod first_token;
pub mod tree;

pub use first_token::first_token_law;
