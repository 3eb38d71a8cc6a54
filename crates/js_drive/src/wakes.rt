//! What wakes a kernel and its channels.

use crate::bell::Bell;
use crate::neighbours::Neighbours;
use std::alloc::{AllocError, Global};
use std::sync::Wait;

/// The place of the server itself, which has no channel.
pub const SERVER: u8 = 0;

/// The bell by which a kernel's driver rests, and its channels.
#[derive(Drop)]
pub struct Wakes {
    pub driver: Bell,
    pub channels: Neighbours,
}

impl Wakes {
    pub(crate) fn new(alloc: Global) -> Result<Wakes, AllocError> {
        Ok(Wakes {
            driver: Bell::new(alloc)?,
            channels: Neighbours::new(alloc)?,
        })
    }

    /// The same, for another thread.
    pub fn another(&self) -> Result<Wakes, AllocError> {
        Ok(Wakes {
            driver: self.driver.another()?,
            channels: self.channels.another()?,
        })
    }

    /// Wakes the driver, for which something was submitted at a place, and the channels at the other places, so that they look for
    /// what it will show.
    pub fn wake_all<R: Wait>(&self, rt: &R, place: u8) {
        self.driver.ring();
        self.channels.wake(rt, place);
    }
}
