//! Where a piece of a program runs.

use ob_mean::Loaded;
use ob_reference_store::state::At;
use std::alloc::Global;

/// Where a piece of a program runs, and among which modules. What is made for it is made by this allocator.
#[derive(Clone, Copy)]
pub struct Site<'a> {
    pub alloc: Global,
    pub program: &'a [Loaded],
    pub at: At,
}
