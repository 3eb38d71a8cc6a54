//! The rule of the inbox, and what each step of it tells.

use crate::part::Part;
use crossbeam_queue::RuledArrayQueue;
use crossbeam_queue::protocol::{Join, Lesson, Outcome, Protocol, Split};
use jk_log::Arrival;

/// Of each seat, what was taken and then what stands in the queue is what it sent, in order.
pub struct InOrder;

impl Protocol<Arrival, Part> for InOrder {
    ghost use Rattle.jk_queues.specs.Inbox as inbox;

    ghost holds = { inbox.InOrder };

    ghost first = { inbox.whole };
}

/// One seat's arrival joins at the back.
pub struct Sends;

impl Outcome<Arrival, Part> for Sends {
    ghost use Rattle.std.specs.Prelude.{◌≡◌};
    ghost use Rattle.jk_queues.specs.Inbox.{sends};

    ghost then = { λ v x w. w ≡ sends v x };
}

impl Lesson<Arrival, Part> for Sends {
    ghost use Rattle.jk_queues.specs.Inbox.{Stands};

    ghost fact = { Stands };
}

/// The taker takes the first arrival.
pub struct Takes;

impl Outcome<Arrival, Part> for Takes {
    ghost use Rattle.std.specs.Prelude.{◌≡◌, ◌∷◌, List};
    ghost use Rattle.jk_queues.specs.Inbox.{takes, Stands};
    ghost use Rattle.jk_log.specs.declared.arrival.Arrival.{Arrival};

    ghost then = { λ v x w. (w ≡ takes v x) × ((items : List Arrival) × Stands v (x ∷ items)) };
}

impl Lesson<Arrival, Part> for Takes {
    ghost use Rattle.jk_queues.specs.Inbox.{Stands};

    ghost fact = { Stands };
}

/// The first seat of a pass gets a pass of its own.
pub struct FirstSeat;

impl Split<Part> for FirstSeat {
    ghost use Rattle.std.specs.Prelude.{[], take, drop, false};
    ghost use Rattle.jk_queues.specs.Inbox.{part};

    ghost left = { λ v. part (drop 1 v.senders) v.takes v.taken };

    ghost right = { λ v. part (take 1 v.senders) false [] };
}

/// The seats of another pass come back.
pub struct Back;

impl Join<Part> for Back {
    ghost use Rattle.std.specs.Prelude.{[], ◌++◌, false};
    ghost use Rattle.jk_queues.specs.Inbox.{part};

    ghost both = { λ v w. part (v.senders ++ w.senders) v.takes v.taken };

    ghost spent = { part [] false [] };
}

pub type Queue = RuledArrayQueue<Arrival, Part, InOrder>;
