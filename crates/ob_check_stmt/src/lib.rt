//! The static rules of statements.
#![tactic(auto)]

pub mod assignment;
pub mod call;
pub mod for_head;
pub mod label;
pub mod labels;
pub mod standard_call;
pub mod statement;
