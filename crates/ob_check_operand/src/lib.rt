//! The static rules of single operands: names, elements, fields, operators, relations, predeclared functions, parameters.
#![tactic(auto)]

pub mod functions;
pub mod joining;
pub mod names;
pub mod operand;
pub mod passing;
pub mod relations;
pub mod selecting;

pub use names::{Called, procedure};
pub use operand::Operand;
