//! Where a part of a text stands.

use crate::imports::Imports;
use crate::scope::Scope;
use std::alloc::Global;

/// Where a part of a text stands: what is loaded and what is declared there. What is made for it is made by this allocator.
#[derive(Clone, Copy)]
pub struct Site<'a> {
    pub alloc: Global,
    pub imports: &'a Imports,
    pub scope: &'a Scope,
    /// How many constructs more may nest there.
    pub levels: u32,
}
