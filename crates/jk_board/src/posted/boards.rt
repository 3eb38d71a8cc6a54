//! How a board is made, goes on and is read.
ghost use Rattle.std.specs.Prelude.{◌≡◌, ◌+◌, ◌-◌, ◌<◌, ◌≤◌, ◌++◌, [], take, drop, length, Err, IfOk, OnOk, MatchResult};
ghost use Rattle.std.specs.Arc.{arc_value};
ghost use Rattle.std.specs.declared.alloc.Global.{Global};
ghost use Rattle.std.specs.declared.vec.Vec.{Vec};
ghost use Rattle.jk_log.specs.declared.entry.Entry.{Entry};
ghost use Rattle.jk_board.specs.Levels.{of_oldest, of_older, IsWholeOldest, IsWholeOlder};
ghost use Rattle.jk_board.specs.Posted.{held_of, IsSame, Follows, EndsWith};
ghost use Rattle.jk_board.specs.declared.follower.Refusal.TheVariants.{Lost};

use super::{Holds, Posted, Publication, Row};
use crate::follower::Refusal;
use crate::sizes::bytes_of;
use jk_log::Entry;
use std::alloc::{AllocError, Global};
use std::sync::{Arc, Wait};

impl Posted {
    /// An empty board.
    pub fn new(alloc: Global) -> Result<Posted, AllocError>
        ensures { IfOk result (λ b. (b.dropped ≡ 0) × (held_of b ≡ [])) }
    {
        let oldest = Row::new(alloc)?;
        let older = Row::new(alloc)?;
        let newest = Row::new(alloc)?;
        Ok(Posted {
            dropped: 0,
            oldest,
            older,
            newest,
            end: 0,
            bytes: 0,
        })
    }

    /// How many entries were dropped.
    pub fn dropped(&self) -> usize
        ensures { result ≡ self.now.dropped }
    {
        self.dropped
    }

    /// How many entries the whole board has.
    pub fn end(&self) -> usize
        ensures { result ≡ self.now.dropped + length (held_of self.now) }
    {
        self.end
    }

    /// How many entries are kept.
    pub fn kept(&self) -> usize
        ensures { result ≡ length (held_of self.now) }
    {
        self.end - self.dropped
    }

    /// The bytes of all that was ever put on it.
    pub fn bytes(&self) -> usize {
        self.bytes
    }

    /// The same board, by one more pointer to each of its rows.
    pub fn share(&self) -> Result<Posted, AllocError>
        ensures { IfOk result (λ b. IsSame b self.now) }
    {
        let oldest = self.oldest.share()?;
        let older = self.older.share()?;
        let newest = self.newest.share()?;
        Ok(Posted {
            dropped: self.dropped,
            oldest,
            older,
            newest,
            end: self.end,
            bytes: self.bytes,
        })
    }

    /// The same board, whose newest row is not full.
    fn with_room(&self, alloc: Global) -> Result<Posted, AllocError>
        ensures { IfOk result (λ b. IsSame b self.now) }
    {
        if !self.newest.is_full() {
            return self.share();
        }
        let (oldest, older) = self.older_with_room(alloc)?;
        let older = older.with(alloc, self.newest.share()?)?;
        let newest = Row::new(alloc)?;
        Ok(Posted {
            dropped: self.dropped,
            oldest,
            older,
            newest,
            end: self.end,
            bytes: self.bytes,
        })
    }

    /// The rows before the newest one, of which the later is not full.
    fn older_with_room(
        &self,
        alloc: Global,
    ) -> Result<(Row<Row<Row<Publication>>>, Row<Row<Publication>>), AllocError>
        ensures same { IfOk result (λ t. of_oldest t.0 ++ of_older t.1 ≡ of_oldest self.now.oldest ++ of_older self.now.older) }
        ensures whole { IfOk result (λ t. IsWholeOldest t.0 × IsWholeOlder t.1) }
    {
        if !self.older.is_full() {
            return Ok((self.oldest.share()?, self.older.share()?));
        }
        let oldest = self.oldest.with(alloc, self.older.share()?)?;
        Ok((oldest, Row::new(alloc)?))
    }

    /// This board and then the entries, without whole parts that stand before this place. The entries come back where there is no
    /// memory.
    pub fn with(
        &self,
        alloc: Global,
        entries: Vec<Entry>,
        place: usize,
    ) -> Result<Posted, (Vec<Entry>, AllocError)>
        ensures all { MatchResult result (λ b. Follows place entries.items self.now b) (λ e. e.0 ≡ entries) }
        ensures last { IfOk result (EndsWith entries) }
    {
        let Some(end) = self.end.checked_add(entries.len()) else {
            return Err((entries, AllocError));
        };
        let bytes = self.bytes.saturating_add(bytes_of(entries.as_slice()));
        let board = match self.ready(alloc, place) {
            Ok(board) => board,
            Err(error) => return Err((entries, error)),
        };
        let Posted {
            dropped,
            oldest,
            older,
            newest,
            end: _,
            bytes: _,
        } = board;
        let newest = newest.with_entries(alloc, entries)?;
        Ok(Posted {
            dropped,
            oldest,
            older,
            newest,
            end,
            bytes,
        })
    }

    /// This board without whole parts that stand before this place, with room for one part more in its newest row.
    fn ready(&self, alloc: Global, place: usize) -> Result<Posted, AllocError>
        ensures { IfOk result (Follows place [] self.now) }
    {
        self.without_read(alloc, place)?.with_room(alloc)
    }

    /// The entries that were put last. It waits until no one shares them.
    pub fn into_last<R: Wait>(self, rt: &R) -> Vec<Entry>
        requires { 0 < length (arc_value self.newest.parts).items }
        ensures { (entries : Vec Entry Global) → EndsWith entries self → result ≡ entries }
    {
        let mut parts = only(rt, self.newest.parts);
        let last = parts.pop().unwrap();
        only(rt, last.held.entries)
    }

    /// The entries from a place of the whole board on, at most `max`.
    ///
    /// # Errors
    /// Where there is no memory, and where the entry at that place was dropped.
    pub fn entries_from(
        &self,
        alloc: Global,
        place: usize,
        max: usize,
    ) -> Result<Vec<Entry>, Refusal>
        ensures there { OnOk result (self.now.dropped ≤ place) }
        ensures next { IfOk result (λ v. v.items ≡ take max (drop (place - self.now.dropped) (held_of self.now))) }
        ensures lost { result ≡ Err Lost → place < self.now.dropped }
    {
        if place < self.dropped {
            return Err(Refusal::Lost);
        }
        match self.held_from(alloc, place - self.dropped, max) {
            Ok(entries) => Ok(entries),
            Err(_) => Err(Refusal::Memory),
        }
    }

    /// Of the entries that are kept those from a place on, at most `max`. It looks for the place by halves, and reads no further
    /// than it has to.
    fn held_from(&self, alloc: Global, place: usize, max: usize) -> Result<Vec<Entry>, AllocError>
        ensures { IfOk result (λ v. v.items ≡ take max (drop place (held_of self.now))) }
    {
        let mut found = Vec::new(alloc);
        self.oldest.copy_from(&mut found, place, max)?;
        let place = place.saturating_sub(self.oldest.count());
        self.older.copy_from(&mut found, place, max)?;
        let place = place.saturating_sub(self.older.count());
        self.newest.copy_from(&mut found, place, max)?;
        Ok(found)
    }
}

/// Waits until this is the only pointer to the value.
fn only<T, R: Wait>(rt: &R, shared: Arc<T>) -> T
    ensures { result ≡ arc_value shared }
{
    let mut shared = shared;
    for _ in rt.forever() {
        match Arc::try_unwrap(shared) {
            Ok(value) => return value,
            Err(again) => shared = again,
        }
    }
    unreachable!()
}
