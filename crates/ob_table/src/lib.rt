//! Where variables are among others.
#![tactic(auto)]

mod table;

pub use table::Table;
