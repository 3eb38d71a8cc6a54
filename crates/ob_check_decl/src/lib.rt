//! The static rules of declarations: constants that are named, types, variables, headings of procedures, and the interface of a
//! module.
#![tactic(auto)]

mod declaration;
mod heading;
mod interface;
mod written_type;

pub use declaration::{MAX_NESTING, declare_all, declare_module, declared_by};
pub use heading::{Entered, enter_procedure};
pub use interface::{exported_procedures, interface_of};
