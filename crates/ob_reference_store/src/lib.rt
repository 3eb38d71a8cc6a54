//! What the plain evaluator keeps: values, the store with its variables, and the state of a run with what In reads and Out
//! writes.
#![tactic(auto)]

pub mod bases;
pub mod frame;
pub mod input;
pub mod row;
pub mod state;
pub mod stop;
pub mod value;
pub mod variable;
pub mod write;
pub mod zero;
