//! What is kept of a board: rows of what was published, which its copies share.
ghost use Rattle.std.specs.Prelude.{◌≡◌, ◌+◌, ◌++◌, length};
ghost use Rattle.jk_board.specs.Levels.{of_newest, of_older, of_oldest, AreWhole};

use jk_log::Entry;
use std::alloc::{AllocError, Global};
use std::sync::Arc;

mod boards;
mod dropping;
mod holds;
mod publications;
mod rows;

pub use holds::Holds;

/// What was published at once.
#[derive(Drop)]
pub struct Publication {
    entries: Arc<Vec<Entry>, Global>,
}

/// A part of a row, and how many entries of the row stand before it.
#[derive(Drop)]
pub struct Part<T> {
    before: usize,
    held: T,
}

/// Parts in order, which copies of the row share, and how many entries they hold.
#[derive(Drop)]
pub struct Row<T> {
    parts: Arc<Vec<Part<T>>, Global>,
    count: usize,
}

/// The last part of all that was published, in order. A copy of it is a copy of three pointers.
#[derive(Drop)]
pub struct Posted {
    /// How many entries stood before them, and were dropped.
    dropped: usize,
    /// Rows of 64 rows of 64 publications.
    oldest: Row<Row<Row<Publication>>>,
    /// At most 64 rows of 64 publications.
    older: Row<Row<Publication>>,
    /// At most 64 publications.
    newest: Row<Publication>,
    /// How many entries the whole board has.
    end: usize,
    /// The bytes of all that was ever put on it.
    bytes: usize,
    ghost whole: { AreWhole oldest older newest },
    ghost ended: { end ≡ dropped + length (of_oldest oldest ++ of_older older ++ of_newest newest) },
}
