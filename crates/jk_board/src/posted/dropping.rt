//! How a board drops what was read.
ghost use Rattle.std.specs.Prelude.{◌≡◌, ◌+◌, ◌-◌, ◌<◌, ◌≤◌, [], true, length, IfOk};
ghost use Rattle.jk_board.specs.Posted.{held_of, Follows};

use super::Posted;
use std::alloc::{AllocError, Global};

impl Posted {
    /// This board without whole parts that stand before a place: the first parts of its oldest row, of the next row where that is
    /// empty then, and of the newest where both are. Where all entries stand before the place, none is kept.
    pub fn without_read(&self, alloc: Global, place: usize) -> Result<Posted, AllocError>
        ensures follows { IfOk result (Follows place [] self.now) }
        ensures past { IfOk result (λ b. self.now.dropped + length (held_of self.now) ≤ place → held_of b ≡ []) }
    {
        let read = place.saturating_sub(self.dropped);
        let (oldest, first) = self.oldest.without(alloc, read)?;
        let left = left_for_next(read, first, oldest.is_empty());
        let (older, second) = self.older.without(alloc, left)?;
        let left = left_for_next(left, second, older.is_empty());
        let (newest, third) = self.newest.without(alloc, left)?;
        Ok(Posted {
            dropped: self.dropped + first + second + third,
            oldest,
            older,
            newest,
            end: self.end,
            bytes: self.bytes,
        })
    }
}

/// How many entries the next row may drop, where of `read` this one dropped `dropped`: none, where it keeps any.
fn left_for_next(read: usize, dropped: usize, is_empty: bool) -> usize
    ensures within { result ≤ read - dropped }
    ensures none { 0 < result → is_empty ≡ true }
    ensures all { is_empty ≡ true → result ≡ read - dropped }
{
    if is_empty {
        read.saturating_sub(dropped)
    } else {
        0
    }
}
