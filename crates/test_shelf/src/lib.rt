//! A shelf whose device fails when it is told to, for tests of what stands on shelves.
#![tactic(auto)]

mod failing;

pub use failing::FailingShelf;
