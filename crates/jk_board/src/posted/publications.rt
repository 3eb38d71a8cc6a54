//! What was published at once.
ghost use Rattle.std.specs.Prelude.{◌≡◌, ◌-◌, ◌++◌, take, drop, length, IfOk, MatchResult, OnOk};
ghost use Rattle.jk_board.specs.Levels.{of_newest, IsWholeNewest, RowEndsWith};

use super::rows::wider;
use super::{Holds, Part, Publication, Row};
use jk_log::Entry;
use std::alloc::{AllocError, Global};
use std::sync::Arc;

impl Holds for Publication {
    ghost use Rattle.jk_board.specs.Levels.{published};

    ghost entries = { published };

    ghost is_whole = { λ _. Unit {0} };

    fn count(&self) -> usize {
        self.entries.len()
    }

    fn share(&self) -> Result<Publication, AllocError> {
        let entries = Arc::try_clone(&self.entries)?;
        Ok(Publication { entries })
    }

    fn copy_from(
        &self,
        found: &mut Vec<Entry>,
        place: usize,
        max: usize,
    ) -> Result<(), AllocError> {
        copy_some(found, after(self.entries.as_slice(), place), max)
    }
}

impl Row<Publication> {
    /// This row and then the entries as its last part. They come back where there is no memory.
    pub fn with_entries(
        &self,
        alloc: Global,
        entries: Vec<Entry>,
    ) -> Result<Row<Publication>, (Vec<Entry>, AllocError)>
        requires { IsWholeNewest self.now }
        ensures all { MatchResult result (λ r. of_newest r ≡ of_newest self.now ++ entries.items) (λ e. e.0 ≡ entries) }
        ensures whole { IfOk result IsWholeNewest }
        ensures last { IfOk result (RowEndsWith entries) }
    {
        let before = self.count;
        let Some(count) = before.checked_add(entries.len()) else {
            return Err((entries, AllocError));
        };
        let mut parts = match wider(alloc, &self.parts, 0, 0) {
            Ok(parts) => parts,
            Err(error) => return Err((entries, error)),
        };
        let Some(open) = Arc::get_mut(&mut parts) else {
            return Err((entries, AllocError));
        };
        match Arc::new(alloc, entries) {
            Ok(entries) => open.push_reserved(Part {
                before,
                held: Publication { entries },
            }),
            Err(failed) => return Err((failed.value, AllocError)),
        }
        Ok(Row { parts, count })
    }
}

/// What follows the first `count` entries.
fn after(entries: &[Entry], count: usize) -> &[Entry]
    ensures { result.now ≡ drop count entries.now }
{
    if count < entries.len() {
        &entries[count..]
    } else {
        &entries[entries.len()..]
    }
}

/// Copies entries to the end of the list, until it has `max`.
fn copy_some(found: &mut Vec<Entry>, entries: &[Entry], max: usize) -> Result<(), AllocError>
    ensures { OnOk result (found.new.items ≡ found.old.items ++ take (max - length found.old.items) entries.now) }
{
    let room = max.saturating_sub(found.len());
    let wanted = &entries[..room.min(entries.len())];
    for entry in wanted {
        found.push(entry.copy()?)?;
    }
    Ok(())
}
