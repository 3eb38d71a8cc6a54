//! Rows, and how they are copied and read.
ghost use Rattle.std.specs.Prelude.{◌≡◌, ◌<◌, ◌≤◌, ◌++◌, [], ◌∷◌, true, take, drop, length, IfOk, vec_len, vec_capacity};
ghost use Rattle.std.specs.Arc.{arc_value};
ghost use Rattle.jk_board.specs.Rows.{flat, AreNumbered, of_row, IsWholeRow};

use super::{Holds, Part, Row};
use jk_log::Entry;
use std::alloc::{AllocError, Global};
use std::sync::Arc;

/// How many parts a row has before it becomes a part of the next one.
const FULL: usize = 64;

impl<T: Holds> Row<T> {
    /// A row with no parts.
    pub fn new(alloc: Global) -> Result<Row<T>, AllocError>
        ensures none { IfOk result (λ r. of_row T.entries r ≡ []) }
        ensures whole { IfOk result (λ r. IsWholeRow T.entries T.is_whole r) }
    {
        let parts = Arc::new(alloc, Vec::new(alloc))?;
        Ok(Row { parts, count: 0 })
    }

    /// Whether it holds no entry.
    pub fn is_empty(&self) -> bool
        requires { IsWholeRow T.entries T.is_whole self.now }
        ensures yes { result ≡ true → of_row T.entries self.now ≡ [] }
        ensures no { of_row T.entries self.now ≡ [] → result ≡ true }
    {
        self.count == 0
    }

    /// Whether it has 64 parts.
    pub fn is_full(&self) -> bool {
        self.parts.len() >= FULL
    }

    /// This row and then one part more.
    pub fn with(&self, alloc: Global, held: T) -> Result<Row<T>, AllocError>
        requires row { IsWholeRow T.entries T.is_whole self.now }
        requires part { T.is_whole held }
        ensures all { IfOk result (λ r. of_row T.entries r ≡ of_row T.entries self.now ++ T.entries held) }
        ensures whole { IfOk result (λ r. IsWholeRow T.entries T.is_whole r) }
    {
        let before = self.count;
        let count = before.checked_add(held.count()).ok_or(AllocError)?;
        let mut parts = wider(alloc, &self.parts, 0, 0)?;
        let open = Arc::get_mut(&mut parts).ok_or(AllocError)?;
        open.push_reserved(Part { before, held });
        Ok(Row { parts, count })
    }

    /// This row without the parts whose entries all stand before a place, and how many entries those are.
    pub fn without(&self, alloc: Global, place: usize) -> Result<(Row<T>, usize), AllocError>
        requires { IsWholeRow T.entries T.is_whole self.now }
        ensures all { IfOk result (λ r. of_row T.entries r.0 ≡ drop r.1 (of_row T.entries self.now)) }
        ensures within { IfOk result (λ r. (r.1 ≤ length (of_row T.entries self.now)) × (r.1 ≤ place)) }
        ensures past { IfOk result (λ r. length (of_row T.entries self.now) ≤ place → r.1 ≡ length (of_row T.entries self.now)) }
        ensures whole { IfOk result (λ r. IsWholeRow T.entries T.is_whole r.0) }
    {
        let (from, gone) = self.before(place);
        if from == 0 {
            return Ok((self.share()?, 0));
        }
        let parts = wider(alloc, &self.parts, from, gone)?;
        let count = self.count - gone;
        Ok((Row { parts, count }, gone))
    }

    /// How many parts stand before a place as a whole, and how many entries they hold. The part at that place is not counted.
    fn before(&self, place: usize) -> (usize, usize)
        requires { IsWholeRow T.entries T.is_whole self.now }
        ensures parts { result.0 ≤ length (arc_value self.now.parts).items }
        ensures entries { result.1 ≡ length (flat T.entries (take result.0 (arc_value self.now.parts).items)) }
        ensures before { result.1 ≤ place }
        ensures past { length (of_row T.entries self.now) ≤ place → result.1 ≡ length (of_row T.entries self.now) }
    {
        let parts: &Vec<Part<T>> = &self.parts;
        if self.count <= place {
            return (parts.len(), self.count);
        }
        let from = part_at(parts.as_slice(), place);
        match parts.get(from) {
            Some(part) => (from, part.before),
            None => (0, 0),
        }
    }
}

/// The parts from number `from` on, before which `gone` entries stand, in a row of their own with room for one more.
pub(crate) fn wider<T: Holds>(
    alloc: Global,
    parts: &Vec<Part<T>>,
    from: usize,
    gone: usize,
) -> Result<Arc<Vec<Part<T>>, Global>, AllocError>
    requires numbered { AreNumbered T.entries T.is_whole parts.now.items }
    requires from { from ≤ length parts.now.items }
    requires gone { gone ≡ length (flat T.entries (take from parts.now.items)) }
    ensures same { IfOk result (λ r. flat T.entries (arc_value r).items ≡ flat T.entries (drop from parts.now.items)) }
    ensures numbered { IfOk result (λ r. AreNumbered T.entries T.is_whole (arc_value r).items) }
    ensures room { IfOk result (λ r. vec_len (arc_value r) < vec_capacity (arc_value r)) }
{
    let rest = &parts.as_slice()[from..];
    let size = rest.len().checked_add(1).ok_or(AllocError)?;
    let mut shared = Vec::with_capacity(alloc, size)?;
    for part in rest {
        let held = part.held.share()?;
        let before = part.before - gone;
        shared.push_reserved(Part { before, held });
    }
    Ok(Arc::new(alloc, shared)?)
}

/// The last part before which at most `place` entries stand; the first, where there is none.
fn part_at<T: Holds>(parts: &[Part<T>], place: usize) -> usize
    requires numbered { AreNumbered T.entries T.is_whole parts.now }
    ensures before { length (flat T.entries (take result parts.now)) ≤ place }
    ensures within { result ≤ length parts.now }
{
    let mut low = 0;
    let mut high = parts.len();
    'halves: while high - low > 1 {
        let middle = low + (high - low) / 2;
        if parts[middle].before <= place {
            low = middle;
        } else {
            high = middle;
        }
    }
    low
}

impl<T: Holds> Holds for Row<T> {
    ghost use Rattle.jk_board.specs.Rows.{of_row, IsWholeRow};

    ghost entries = { of_row T.entries };

    ghost is_whole = { IsWholeRow T.entries T.is_whole };

    fn count(&self) -> usize {
        self.count
    }

    fn share(&self) -> Result<Row<T>, AllocError> {
        let parts = Arc::try_clone(&self.parts)?;
        let count = self.count;
        Ok(Row { parts, count })
    }

    fn copy_from(
        &self,
        found: &mut Vec<Entry>,
        place: usize,
        max: usize,
    ) -> Result<(), AllocError> {
        let parts: &Vec<Part<T>> = &self.parts;
        for i in part_at(parts.as_slice(), place)..parts.len() {
            if found.len() >= max {
                return Ok(());
            }
            let part = &parts[i];
            part.held
                .copy_from(found, place.saturating_sub(part.before), max)?;
        }
        Ok(())
    }
}
