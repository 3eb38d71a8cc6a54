//! What the ends do.
ghost use Rattle.std.specs.Prelude.{◌≡◌, ◌+◌, ◌<◌, ◌≤◌, ◌^◌, ◌⊎◌, ◌++◌, ◌∷◌, [], List, length, IfSome, MatchOption, MatchResult};
ghost use Rattle.crossbeam_queue.specs.Fifo.{Held};
ghost use Rattle.jk_queues.specs.Inbox.{Stands, SentIn, IsSeated, sends, takes, of};
ghost use Rattle.jk_queues.specs.Ends.{seat_view, seat_inbox, sent_by, taker_view, taker_inbox, taken_by};
ghost use Rattle.jk_log.specs.declared.arrival.Arrival.{Arrival};

use super::{Full, Seat, Taker};
use crate::rule::{Sends, Takes};
use jk_log::Arrival;
use std::sync::Wait;

impl Seat {
    /// Its number among the eight seats.
    pub fn place(&self) -> u8
        ensures { result ≡ self.now.place }
    {
        self.place
    }

    /// One more than the arrivals that it pushed.
    pub fn next_number(&self) -> u64
        ensures { result ≡ length (sent_by self.now) + 1 }
    {
        self.next
    }

    /// Sends an arrival, or hands it back where the inbox was full at one moment of the call, or after 2^64 - 2 arrivals.
    pub fn submit<R: Wait>(self, rt: &R, arrival: Arrival) -> (Seat, Result<(), Full>)
        requires seat { arrival.seat ≡ self.place }
        requires number { arrival.number ≡ length (sent_by self) + 1 }
        ensures same { (seat_inbox result.0 ≡ seat_inbox self) × (result.0.place ≡ self.place) }
        ensures sent { MatchResult result.1 (λ _. seat_view result.0 ≡ sends (seat_view self) arrival) (λ full. (full.arrival ≡ arrival) × (seat_view result.0 ≡ seat_view self)) }
        ensures full { MatchResult result.1 (λ _. Unit {0}) (λ full. Held 256 (Stands (seat_view self)) ⊎ (2 ^ 62 < length (sent_by self))) }
    {
        let Seat {
            queue,
            mut pass,
            place,
            next,
        } = self;
        let Some(after) = next.checked_add(1) else {
            let seat = Seat {
                queue,
                pass,
                place,
                next,
            };
            return (seat, Err(Full { arrival }));
        };
        match queue.push_as::<Sends, R>(rt, &mut pass, arrival) {
            Ok(()) => {
                let seat = Seat {
                    queue,
                    pass,
                    place,
                    next: after,
                };
                (seat, Ok(()))
            }
            Err(arrival) => {
                let seat = Seat {
                    queue,
                    pass,
                    place,
                    next,
                };
                (seat, Err(Full { arrival }))
            }
        }
    }
}

impl Taker {
    /// The first arrival, or `None` where the inbox was empty at one moment of the call.
    pub fn pop<R: Wait>(self, rt: &R) -> (Taker, Option<Arrival>)
        ensures same { taker_inbox result.0 ≡ taker_inbox self }
        ensures taken { MatchOption result.1 ((taker_view result.0 ≡ taker_view self) × Held 0 (Stands (taker_view self))) (λ x. (taker_view result.0 ≡ takes (taker_view self) x) × ((items : List Arrival) × Stands (taker_view self) (x ∷ items))) }
        ensures seated { IfSome result.1 (λ x. x.seat < 8) }
    {
        let Taker {
            queue,
            mut pass,
            left,
        } = self;
        let first = queue.pop_as::<Takes, R>(rt, &mut pass);
        (Taker { queue, pass, left }, first)
    }
}
