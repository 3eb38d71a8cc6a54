//! The static rules of expressions, of variables that are written, and of lists of actual parameters: from syntax trees to
//! typed ones.
#![tactic(auto)]

mod alone;
mod expression;
mod value;

pub use expression::{actual, expr, target};
pub use value::{actuals, assigned_value, basic_value, guard, number, truth};
