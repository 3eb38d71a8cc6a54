//! What a follower does.
ghost use Rattle.std.specs.Prelude.{◌≡◌, ◌<◌, ◌≤◌, ◌++◌, take, drop, length, Err, IfOk, OnOk, OnErr};
ghost use Rattle.std.specs.List.{AllByRecursion};
ghost use Rattle.jk_board.specs.Ends.{board_of, found_by, told_to, read_by, news_from, news_of};
ghost use Rattle.jk_board.specs.Boards.{IsBoard, StartsWith};
ghost use Rattle.jk_board.specs.declared.follower.Refusal.TheVariants.{Lost};

use super::{Follower, Refusal};
use crate::news::News;
use crate::rule::Finds;
use crate::sizes::bytes_of;
use jk_language::Language;
use jk_log::Entry;
use std::alloc::{AllocError, Global};

impl<L: Language> Follower<L> {
    /// The next entries, at most `max`, and the follower after them.
    ///
    /// # Errors
    /// Where there is no memory, where the publisher has ended, and where what comes next was dropped. What was read stays as it
    /// was.
    pub fn read(self, alloc: Global, max: usize) -> (Follower<L>, Result<Vec<Entry>, Refusal>)
        requires { max ≤ 64 }
        ensures board { board_of result.0 ≡ board_of self }
        ensures told { told_to result.0 ≡ told_to self }
        ensures later { StartsWith (found_by result.0) (found_by self) }
        ensures found { IfOk result.1 (λ v. IsBoard L.spoken (found_by result.0) × AllByRecursion (StartsWith (found_by result.0)) (told_to self)) }
        ensures next { IfOk result.1 (λ v. v.items ≡ take max (drop self.place (found_by result.0))) }
        ensures read { IfOk result.1 (λ v. read_by result.0 ≡ read_by self ++ v.items) }
        ensures refused { OnErr result.1 (read_by result.0 ≡ read_by self) }
        ensures lost { result.1 ≡ Err Lost → self.place < length (found_by result.0) }
    {
        let Follower {
            reader,
            place,
            mut mark,
            owner,
        } = self;
        let reading = match reader.enter_as::<Finds<L>>() {
            Ok(reading) => reading,
            Err(reader) => return (
                Follower {
                    reader,
                    place,
                    mark,
                    owner,
                },
                Err(Refusal::Memory),
            ),
        };
        let found = reading.get().entries_from(alloc, place, max);
        let reader = reading.leave();
        let entries = match found {
            Ok(entries) => entries,
            Err(refusal) => return (
                Follower {
                    reader,
                    place,
                    mark,
                    owner,
                },
                Err(refusal),
            ),
        };
        match place.checked_add(entries.len()) {
            Some(place) => {
                mark.move_on(place, bytes_of(entries.as_slice()));
                (
                    Follower {
                        reader,
                        place,
                        mark,
                        owner,
                    },
                    Ok(entries),
                )
            }
            None => (
                Follower {
                    reader,
                    place,
                    mark,
                    owner,
                },
                Err(Refusal::Memory),
            ),
        }
    }

    /// The follower after all that it finds, of which nothing is copied. It is lent from now on.
    ///
    /// # Errors
    /// Where the publisher has ended. What was read stays as it was.
    pub fn pass(self) -> (Follower<L>, Result<(), AllocError>)
        ensures board { board_of result.0 ≡ board_of self }
        ensures told { told_to result.0 ≡ told_to self }
        ensures later { StartsWith (found_by result.0) (found_by self) }
        ensures found { OnOk result.1 (IsBoard L.spoken (found_by result.0) × AllByRecursion (StartsWith (found_by result.0)) (told_to self)) }
        ensures passed { OnOk result.1 (read_by result.0 ≡ found_by result.0) }
        ensures more { StartsWith (read_by result.0) (read_by self) }
        ensures refused { OnErr result.1 (read_by result.0 ≡ read_by self) }
    {
        let Follower {
            reader,
            place,
            mut mark,
            owner,
        } = self;
        mark.hold();
        match reader.enter_as::<Finds<L>>() {
            Ok(reading) => {
                let end = reading.get().end();
                let bytes = reading.get().bytes();
                let reader = reading.leave();
                mark.lend(end, bytes);
                let place = end;
                (
                    Follower {
                        reader,
                        place,
                        mark,
                        owner,
                    },
                    Ok(()),
                )
            }
            Err(reader) => (
                Follower {
                    reader,
                    place,
                    mark,
                    owner,
                },
                Err(AllocError),
            ),
        }
    }

    /// It is not lent any more, and holds nothing back. What it has read stays as it was.
    pub fn rest(&self) {
        self.mark.rest();
    }

    /// Learns what was published: from now on it finds no less. What it has read stays as it was.
    pub fn learn(self, news: News<L>) -> Follower<L>
        requires { StartsWith (news_of news) (found_by self) × AllByRecursion (StartsWith (news_of news)) (told_to self) }
        ensures board { board_of result ≡ news_from news }
        ensures found { found_by result ≡ news_of news }
        ensures read { read_by result ≡ read_by self }
    {
        Follower {
            reader: news.reader,
            place: self.place,
            mark: self.mark,
            owner: news.owner,
        }
    }
}
