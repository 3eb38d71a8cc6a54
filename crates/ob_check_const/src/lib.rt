//! The static rules of constants, and of names of types.
#![tactic(auto)]

pub mod constant;
pub mod folding;
pub mod named_type;
