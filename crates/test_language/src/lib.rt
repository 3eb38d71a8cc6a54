//! A small language for tests of what runs one.
#![tactic(auto)]

mod language;
mod machine;

pub use language::TestLanguage;
pub use machine::Machine;
pub use test_meaning::Text;
