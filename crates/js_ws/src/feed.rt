//! The entries for a frontend: what the board gives, and what is due and not sent.
ghost use Rattle.std.specs.Prelude.{◌≡◌, ◌+◌, ◌<◌, ◌≤◌, ◌++◌, ◌||◌, List, vec_len, vec_capacity};
ghost use Rattle.jk_board.specs.Ends.{board_of, read_by};
ghost use Rattle.js_ws.specs.Reads.{items_read};

use crate::view::{busy_with, goes_to, is_join, is_last};
use jk_board::{Follower, Refusal};
use jk_language::Language;
use jk_log::Entry;
use std::alloc::Global;

/// How many entries a channel asks its follower for at once.
pub const ENTRIES: usize = 64;

/// A follower, and the entries of its connection that are due and not sent.
#[derive(Drop)]
pub struct Feed<L: Language> {
    pub(crate) follower: Follower<L>,
    pub(crate) held: Vec<Entry>,
    /// The number of the connection's own join.
    pub(crate) join: u64,
    /// Whether that join was found.
    pub(crate) joined: bool,
    /// Whether the kernel's last entry was found.
    pub(crate) ended: bool,
    /// Whether the kernel is busy with a request of the shell, by the entries that were found.
    pub(crate) busy: bool,
}

/// How far a connection has come in what its follower gives.
#[derive(Clone, Copy)]
struct Place {
    seat: u8,
    join: u64,
    joined: bool,
    ended: bool,
    busy: bool,
}

impl Place {
    ghost use Rattle.jk_log.specs.View.{is_join, part, has_joined};
    ghost use Rattle.js_ws.specs.Views.{one};
    ghost use Rattle.js_ws.specs.Shutdowns.{is_last, has_last};
    ghost use Rattle.js_ws.specs.Statuses.{busy_with, busy_after};

    /// Takes one more entry.
    fn take(&mut self, entry: Entry, held: &mut Vec<Entry>)
        requires room { vec_len held.old < vec_capacity held.old }
        ensures same { (self.new.seat ≡ self.old.seat) × (self.new.join ≡ self.old.join) }
        ensures held { held.new.items ≡ held.old.items ++ one self.old.joined entry self.old.seat }
        ensures joined { self.new.joined ≡ (self.old.joined || is_join self.old.seat self.old.join entry) }
        ensures ended { self.new.ended ≡ (self.old.ended || is_last entry) }
        ensures busy { self.new.busy ≡ busy_with self.old.busy entry }
        ensures len { vec_len held.new ≤ vec_len held.old + 1 }
        ensures capacity { vec_capacity held.new ≡ vec_capacity held.old }
    {
        let before = self.joined;
        self.joined = before || is_join(&entry, self.seat, self.join);
        self.ended = self.ended || is_last(&entry);
        self.busy = busy_with(self.busy, &entry);
        if before && goes_to(entry.to, self.seat) {
            held.push_reserved(entry);
        }
    }

    /// Puts those of the connection after the held ones.
    #[tactic(auto, using(crate::proofs::Parts::part_more, crate::proofs::Parts::joined_more, crate::proofs::Parts::last_more, crate::proofs::Parts::busy_more))]
    fn take_all(mut self, given: Vec<Entry>, held: &mut Vec<Entry>) -> Place
        requires room { vec_len held.old + vec_len given ≤ vec_capacity held.old }
        ensures held { held.new.items ≡ held.old.items ++ part self.joined given.items self.seat self.join }
        ensures joined { result.joined ≡ (self.joined || has_joined self.seat self.join given.items) }
        ensures ended { result.ended ≡ (self.ended || has_last given.items) }
        ensures busy { result.busy ≡ busy_after self.busy given.items }
    {
        for entry in given {
            self.take(entry, held);
        }
        self
    }
}

impl<L: Language> Feed<L> {
    ghost use Rattle.jk_log.specs.View.{part, has_joined};
    ghost use Rattle.js_ws.specs.Shutdowns.{has_last};
    ghost use Rattle.js_ws.specs.Statuses.{busy_after};
    ghost use Rattle.jk_log.specs.declared.entry.Entry.{Entry};

    /// Takes the next entries that the follower gives, and holds those of the connection at this seat. None are taken where
    /// there is no memory. It says whether those that come next were lost.
    pub(crate) fn take(self, alloc: Global, seat: u8) -> (Feed<L>, bool)
        ensures found { (got : List Entry) × (read_by result.0.follower ≡ read_by self.follower ++ got)
            × (result.0.held.items ≡ self.held.items ++ part self.joined got seat self.join)
            × (result.0.joined ≡ (self.joined || has_joined seat self.join got))
            × (result.0.ended ≡ (self.ended || has_last got))
            × (result.0.busy ≡ busy_after self.busy got) }
        ensures same { result.0.join ≡ self.join }
        ensures board { board_of result.0.follower ≡ board_of self.follower }
    {
        let Feed {
            follower,
            mut held,
            join,
            joined,
            ended,
            busy,
        } = self;
        let place = Place {
            seat,
            join,
            joined,
            ended,
            busy,
        };
        let next = read_next(alloc, follower, &mut held);
        let (follower, given, lost) = next;
        let place = place.take_all(given, &mut held);
        let feed = Feed {
            follower,
            held,
            join,
            joined: place.joined,
            ended: place.ended,
            busy: place.busy,
        };
        (feed, lost)
    }
}

/// The entries that were read, or none.
fn or_none(alloc: Global, read: Result<Vec<Entry>, Refusal>) -> Vec<Entry>
    ensures { result.items ≡ items_read read }
{
    match read {
        Ok(entries) => entries,
        Err(_) => Vec::new(alloc),
    }
}

/// The next entries that a follower gives, and room for them among the held ones. None are read where there is no memory. It says
/// whether they were lost.
fn read_next<L: Language>(
    alloc: Global,
    follower: Follower<L>,
    held: &mut Vec<Entry>,
) -> (Follower<L>, Vec<Entry>, bool)
    ensures held { held.new.items ≡ held.old.items }
    ensures room { vec_len held.new + vec_len result.1 ≤ vec_capacity held.new }
    ensures board { board_of result.0 ≡ board_of follower }
    ensures read { read_by result.0 ≡ read_by follower ++ result.1.items }
{
    let Ok(()) = held.reserve(ENTRIES) else {
        return (follower, Vec::new(alloc), false);
    };
    let read = follower.read(alloc, ENTRIES);
    let (follower, given) = read;
    let lost = matches!(given, Err(Refusal::Lost));
    let entries = or_none(alloc, given);
    (follower, entries, lost)
}
