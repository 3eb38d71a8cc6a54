//! The plans of requests that name things in contents (Jupyter Server REST API): a new thing gets a free name, and a
//! thing goes to another path. A function here reads the shelf and changes nothing.
#![tactic(auto)]

mod moves;
mod untitled;

pub use moves::{Moving, rename_plan};
pub use untitled::{Making, free_name_law, untitled_plan};
