//! Tokens to expressions: the cursor of the parser, names, labels, operators and expressions.
#![tactic(auto)]

mod ahead;
mod expression;
mod name;
mod operator;
mod parser;

pub use parser::Parser;
