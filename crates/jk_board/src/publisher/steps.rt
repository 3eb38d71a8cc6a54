//! What the publisher does.
ghost use Rattle.std.specs.Prelude.{◌≡◌, ◌∷◌, ◌++◌, [], drop, length, MatchResult};
ghost use Rattle.left_right.specs.Sides.{view};
ghost use Rattle.jk_board.specs.Ends.{published, publisher_of};
ghost use Rattle.jk_board.specs.Posted.{held_of, Shows};
ghost use Rattle.jk_board.specs.Pending.{IsNext};
ghost use Rattle.jk_board.specs.Boards.{IsBoard, StartsWith};
ghost use Rattle.jk_board.specs.declared.publisher.Replace.{Replace as replacement};

use super::{Copies, Publisher, Replace};
use crate::rule::Finds;
use jk_language::Language;
use jk_log::Entry;
use std::alloc::{AllocError, Global};
use std::sync::Wait;

impl<L: Language> Publisher<L> {
    /// Puts the entries after all that was published. Before that it drops whole parts that all have read who are lent.
    ///
    /// # Errors
    /// The entries come back where there is no memory. What was published stays as it was.
    pub fn publish<R: Wait>(
        self,
        rt: &R,
        alloc: Global,
        entries: Vec<Entry>,
    ) -> (Publisher<L>, Result<(), (Vec<Entry>, AllocError)>)
        requires { IsBoard L.spoken (published self ++ entries.items) }
        ensures owner { publisher_of result.0 ≡ publisher_of self }
        ensures published { MatchResult result.1 (λ _. published result.0 ≡ published self ++ entries.items) (λ back. (back.0 ≡ entries) × (published result.0 ≡ published self)) }
    {
        let Publisher {
            mut copies,
            marks,
            owner,
        } = self;
        let read = marks.least_place();
        let posted = match copies.published().with(alloc, entries, read) {
            Ok(posted) => posted,
            Err(back) => return (
                Publisher {
                    copies,
                    marks,
                    owner,
                },
                Err(back),
            ),
        };
        match copies.append(Replace { posted }) {
            Ok(()) => {
                let copies = show_next::<L, R>(rt, copies);
                (
                    Publisher {
                        copies,
                        marks,
                        owner,
                    },
                    Ok(()),
                )
            }
            Err(next) => {
                let entries = next.posted.into_last(rt);
                (
                    Publisher {
                        copies,
                        marks,
                        owner,
                    },
                    Err((entries, AllocError)),
                )
            }
        }
    }

    /// Drops whole parts that all have read who are lent, from one of the two copies of the board. It publishes nothing, and does
    /// nothing where neither copy keeps such a part or there is no memory.
    pub fn let_go<R: Wait>(self, rt: &R, alloc: Global) -> Publisher<L>
        ensures owner { publisher_of result ≡ publisher_of self }
        ensures published { published result ≡ published self }
    {
        let Publisher {
            mut copies,
            marks,
            owner,
        } = self;
        let read = marks.least_place();
        let Ok(posted) = copies.published().without_read(alloc, read) else {
            return Publisher {
                copies,
                marks,
                owner,
            };
        };
        if posted.dropped() == copies.desk.spare.get().dropped() {
            return Publisher {
                copies,
                marks,
                owner,
            };
        }
        match copies.append(Replace { posted }) {
            Ok(()) => {
                let copies = show_next::<L, R>(rt, copies);
                return Publisher {
                    copies,
                    marks,
                    owner,
                };
            }
            Err(next) => drop(next),
        }
        Publisher {
            copies,
            marks,
            owner,
        }
    }

    /// How many entries are kept.
    pub fn kept(&self) -> usize
        ensures { result ≡ length (held_of self.now.copies.desk.shown.value) }
    {
        self.copies.published().kept()
    }

    /// The bytes of the entries that the slowest of those who are lent has not read: their texts, and 128 for each. None where
    /// nobody is lent.
    pub fn unread(&self) -> usize {
        let posted = self.copies.published();
        posted.bytes().saturating_sub(self.marks.least_bytes())
    }

    /// Waits for those who read.
    pub fn end<R: Wait>(self, rt: &R) {
        let Publisher {
            copies,
            marks: _,
            owner: _,
        } = self;
        copies.take(rt);
    }
}

/// Shows the one board that is pending. It can fail only where too many share it, and then tries again.
fn show_next<L: Language, R: Wait>(rt: &R, copies: Copies<L>) -> Copies<L>
    requires pending { IsNext L.spoken (view copies.desk.place).seen (drop copies.behind copies.log.items) }
    requires saw { Shows (view copies.desk.place).seen copies.desk.shown.value }
    ensures nothing_pending { drop result.behind result.log.items ≡ [] }
    ensures saw_all { Shows (view result.desk.place).seen result.desk.shown.value }
    ensures shown { (next : replacement) → drop copies.behind copies.log.items ≡ next ∷ [] → Shows (view result.desk.place).seen next.posted }
    ensures later { StartsWith (view result.desk.place).seen (view copies.desk.place).seen }
{
    let mut copies = copies;
    for _ in rt.forever() {
        let (turned, shown) = copies.publish_as::<Finds<L>, R>(rt);
        if shown.is_ok() {
            return turned;
        }
        copies = turned;
    }
    unreachable!()
}
