//! Oberon-07, for a kernel.
#![tactic(auto)]

mod oberon;

pub use oberon::Oberon;
