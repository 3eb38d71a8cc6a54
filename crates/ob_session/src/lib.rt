//! Sessions: what is loaded, what links, and what a cell does to it. Definitions, and laws of them.
#![tactic(auto)]

mod laws;

pub use laws::{fed_law, lawful_law, links_law, loads_law, rows_law};
