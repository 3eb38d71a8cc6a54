//! Room that a thread keeps beforehand.

use std::alloc::Global;

/// How many bytes are kept.
const ROOM: usize = 65_536;

/// A block of memory that is let go where memory is refused, so that what arrives is taken and answered then too. No clause
/// speaks of it.
#[derive(Drop)]
pub struct Spare {
    block: Option<Vec<u8>>,
}

impl Spare {
    /// No block yet.
    pub fn new() -> Spare {
        Spare { block: None }
    }

    /// Takes a block, where none is there and there is memory. It says whether one is there then.
    pub fn keep(&mut self, alloc: Global) -> bool {
        if self.block.is_none() {
            self.block = Vec::with_capacity(alloc, ROOM).ok();
        }
        self.block.is_some()
    }

    /// Lets the block go. It says whether one was there.
    pub fn let_go(&mut self) -> bool {
        self.block.take().is_some()
    }
}
