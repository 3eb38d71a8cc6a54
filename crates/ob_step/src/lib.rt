//! One instruction of the machine, and one turn.
#![tactic(auto)]

mod cells;
mod input;
pub mod jumps;
pub mod objects;
mod operands;
pub mod output;
mod places;
mod records;
pub mod state;
pub mod step;
mod texts;
pub mod turn;
mod values;
pub mod waits;
