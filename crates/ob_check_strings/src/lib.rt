//! The variables of a module while it is checked: the declared ones, and after them its strings, each once.
#![tactic(auto)]

mod variables;

pub use variables::Variables;
