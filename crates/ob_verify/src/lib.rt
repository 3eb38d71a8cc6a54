//! Tests of code that somebody made: whether it is safe wherever it is linked, and whether modules are linked so.
#![tactic(auto)]

mod found;
mod kinds;
pub mod linked;
mod measured;
pub mod validate;
