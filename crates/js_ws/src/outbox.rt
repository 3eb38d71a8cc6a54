//! What a connection sends to the kernel's inbox: its seat, and what is not yet submitted.
ghost use Rattle.std.specs.Prelude.{◌≡◌, ◌||◌, ◌++◌, None, is_some, true};
ghost use Rattle.jk_queues.specs.Ends.{seat_inbox};

use crate::hearing::Heard;
use jk_log::{Arrival, What};
use jk_queues::{Full, Seat};
use std::sync::Wait;

/// A seat, and what it sends next where the inbox had no room for it.
#[derive(Drop)]
pub struct Outbox {
    pub(crate) seat: Seat,
    pub(crate) hand: Option<What>,
    /// Whether the connection's `Leave` was made.
    pub(crate) leaving: bool,
}

impl Outbox {
    ghost use Rattle.js_ws.specs.Arrivals.{sent_or_held, arrivals_of, is_due, leave_of, WasFull};

    /// Submits what is in hand. It stays in hand where the inbox is full.
    #[tactic(auto, using(crate::proofs::Sending::submitted, crate::proofs::Sending::kept_back))]
    pub(crate) fn submit<R: Wait>(self, rt: &R) -> Outbox
        ensures seat { (result.seat.place ≡ self.seat.place) × (seat_inbox result.seat ≡ seat_inbox self.seat) }
        ensures all { sent_or_held result ≡ sent_or_held self }
        ensures hand { is_some result.hand ≡ true → result.hand ≡ self.hand }
        ensures full { is_some result.hand ≡ true → WasFull result.seat }
        ensures leaving { result.leaving ≡ self.leaving }
    {
        let Outbox {
            seat,
            hand,
            leaving,
        } = self;
        let Some(what) = hand else {
            return Outbox {
                seat,
                hand: None,
                leaving,
            };
        };
        let arrival = Arrival {
            seat: seat.place(),
            number: seat.next_number(),
            what,
        };
        match seat.submit(rt, arrival) {
            (seat, Ok(())) => Outbox {
                seat,
                hand: None,
                leaving,
            },
            (seat, Err(full)) => {
                let Full { arrival } = full;
                let Arrival {
                    seat: _,
                    number: _,
                    what,
                } = arrival;
                Outbox {
                    seat,
                    hand: Some(what),
                    leaving,
                }
            }
        }
    }

    /// Whether something waits for room in the inbox.
    pub(crate) fn waits(&self) -> bool
        ensures { result ≡ is_some self.now.hand }
    {
        self.hand.is_some()
    }

    /// Submits what was heard, where it is something that the seat sends.
    #[tactic(auto, using(crate::proofs::Sending::in_hand_now))]
    pub(crate) fn say<R: Wait>(self, rt: &R, heard: Heard) -> Outbox
        requires none { self.hand ≡ None }
        ensures seat { (result.seat.place ≡ self.seat.place) × (seat_inbox result.seat ≡ seat_inbox self.seat) }
        ensures all { sent_or_held result ≡ sent_or_held self ++ arrivals_of self.seat.place (sent_or_held self) heard }
        ensures full { is_some result.hand ≡ true → WasFull result.seat }
        ensures leaving { result.leaving ≡ self.leaving }
    {
        match heard {
            Heard::Said(what) => {
                let Outbox {
                    seat,
                    hand: _,
                    leaving,
                } = self;
                let outbox = Outbox {
                    seat,
                    hand: Some(what),
                    leaving,
                };
                outbox.submit(rt)
            }
            Heard::Other => self,
            Heard::Quiet => self,
            Heard::Fault => self,
        }
    }

    /// Submits the connection's `Leave` where it is due: the stream has failed, the kernel's last entry was not found, and
    /// nothing is in hand.
    #[tactic(auto, using(crate::proofs::Sending::in_hand_now))]
    pub(crate) fn leave<R: Wait>(self, rt: &R, failed: bool, ended: bool) -> Outbox
        ensures seat { (result.seat.place ≡ self.seat.place) × (seat_inbox result.seat ≡ seat_inbox self.seat) }
        ensures all { sent_or_held result ≡ sent_or_held self
            ++ leave_of (is_due failed ended self.leaving self.hand) self.seat.place (sent_or_held self) }
        ensures hand { is_some self.hand ≡ true → result.hand ≡ self.hand }
        ensures full { (is_some self.hand ≡ true → WasFull self.seat) → is_some result.hand ≡ true → WasFull result.seat }
        ensures leaving { result.leaving ≡ (self.leaving || is_due failed ended self.leaving self.hand) }
    {
        if !failed || ended || self.leaving || self.hand.is_some() {
            return self;
        }
        let Outbox {
            seat,
            hand: _,
            leaving: _,
        } = self;
        let outbox = Outbox {
            seat,
            hand: Some(What::Leave),
            leaving: true,
        };
        outbox.submit(rt)
    }
}
