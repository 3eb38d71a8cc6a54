//! Text to tokens.
#![tactic(auto)]

mod class;
mod found;
mod gap;
mod number;
mod place;
mod scanner;
mod sign;
mod spelling;
mod string;
mod token;
mod word;

pub use ob_base::{Boxed, Code, Fault, Items, Refused, Text};
pub use scanner::{one_list_law, scan, token_function_law};
pub use token::{Kind, Span, Symbol, Token, same_symbol};
