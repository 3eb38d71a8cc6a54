//! The static rules of procedures and modules of Oberon-07, and a checker that answers exactly by all rules.
#![tactic(auto)]

mod checked;
mod module;
mod procedure;

pub use checked::{Checked, Imported};
pub use module::check;
