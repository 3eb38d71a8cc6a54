//! How far the followers that are lent have read. No clause speaks of what stands in the words of their marks, and `least_of` says what
//! is made of what was read there.
ghost use Rattle.std.specs.Prelude.{◌≡◌, ◌==◌, if◌then◌else◌, None, Some};
ghost use Rattle.jk_board.specs.Marks.{least_lent};

use std::alloc::Global;
use std::sync::Arc;
use std::sync::atomic::{AtomicUsize, Ordering};

/// How many may be lent.
pub const SEATS: usize = 9;

/// What stands in both words of a follower that is not lent: it holds nothing back.
const IDLE: usize = usize::MAX;

/// Of each follower how many entries it has read, and their bytes.
#[derive(Drop)]
pub struct Marks {
    places: [AtomicUsize; SEATS],
    bytes: [AtomicUsize; SEATS],
}

impl Marks {
    /// None is lent.
    pub fn new() -> Marks {
        Marks {
            places: idle_words(),
            bytes: idle_words(),
        }
    }

    /// How many entries the slowest that is lent has read, and the last number there is where none is lent.
    pub fn least_place(&self) -> usize {
        least_of(&read(&self.places))
    }

    /// How many bytes the slowest that is lent has read, and the last number there is where none is lent.
    pub fn least_bytes(&self) -> usize {
        least_of(&read(&self.bytes))
    }

    fn write(&self, seat: usize, place: usize, bytes: usize) {
        if seat < SEATS {
            self.places[seat].store(place, Ordering::SeqCst);
            self.bytes[seat].store(bytes, Ordering::SeqCst);
        }
    }

    fn is_lent(&self, seat: usize) -> bool {
        seat < SEATS && lent(self.places[seat].load(Ordering::SeqCst)).is_some()
    }
}

/// The least number of those who are lent, and the last number there is where nobody is lent. One who is not lent has none, and holds
/// nothing back.
pub fn least_of(marks: &[Option<usize>]) -> usize
    ensures { result ≡ least_lent usize.MAX marks.now }
{
    let mut least = usize::MAX;
    for mark in marks {
        if let Some(number) = *mark {
            least = least.min(number);
        }
    }
    least
}

/// What a word says of its follower: how far one who is lent has read.
fn lent(word: usize) -> Option<usize>
    ensures { result ≡ (if word == usize.MAX then None else Some word) }
{
    if word == IDLE { None } else { Some(word) }
}

/// What the words say now, one after another.
fn read(words: &[AtomicUsize; SEATS]) -> [Option<usize>; SEATS] {
    let mut marks = [None; SEATS];
    for seat in 0..SEATS {
        marks[seat] = lent(words[seat].load(Ordering::SeqCst));
    }
    marks
}

fn idle_words() -> [AtomicUsize; SEATS] {
    [
        AtomicUsize::new(IDLE),
        AtomicUsize::new(IDLE),
        AtomicUsize::new(IDLE),
        AtomicUsize::new(IDLE),
        AtomicUsize::new(IDLE),
        AtomicUsize::new(IDLE),
        AtomicUsize::new(IDLE),
        AtomicUsize::new(IDLE),
        AtomicUsize::new(IDLE),
    ]
}

/// The mark of one follower. That of a seat past the last one is never lent.
#[derive(Drop)]
pub struct Mark {
    marks: Arc<Marks, Global>,
    seat: usize,
    /// The bytes of all that the follower has read or passed.
    bytes: usize,
}

impl Mark {
    /// The mark of a follower that is not lent, and has read nothing.
    pub fn new(marks: Arc<Marks, Global>, seat: usize) -> Mark {
        Mark {
            marks,
            seat,
            bytes: 0,
        }
    }

    /// Holds all that is on the board, until it is known where the follower stands.
    pub fn hold(&self) {
        self.marks.write(self.seat, 0, IDLE);
    }

    /// The follower is lent, and has read or passed `place` entries, which have `bytes` bytes.
    pub fn lend(&mut self, place: usize, bytes: usize) {
        self.bytes = bytes;
        self.marks.write(self.seat, place, bytes);
    }

    /// The follower has read up to a place, `more` bytes more.
    pub fn move_on(&mut self, place: usize, more: usize) {
        self.bytes = self.bytes.saturating_add(more);
        if self.marks.is_lent(self.seat) {
            self.marks.write(self.seat, place, self.bytes);
        }
    }

    /// The follower is not lent any more.
    pub fn rest(&self) {
        self.marks.write(self.seat, IDLE, IDLE);
    }
}
