//! How an inbox is made and closed.
ghost use Rattle.std.specs.Prelude.{◌≡◌, ℕ, ◌-◌, ◌<◌, ◌≤◌, ◌++◌, ◌∷◌, [], true, List, length, IfOk, OnOk};
ghost use Rattle.std.specs.List.{AllByRecursion};
ghost use Rattle.std.specs.Arc.{arc_value};
ghost use Rattle.crossbeam_queue.specs.Passes.{view, IsPassOf, IsSamePass, ruled_capacity};
ghost use Rattle.jk_queues.specs.Inbox.{SentIn, IsSeated, part, sender, fresh};
ghost use Rattle.jk_queues.specs.Ends.{seat_view, seat_inbox, sent_by, taker_view, taker_inbox, taken_by, IsAt, AreAllOf, IsNew, AreNew, AreAllSent};
ghost use Rattle.jk_log.specs.declared.arrival.Arrival.{Arrival};

use super::{Inbox, Left, ROOM, Seat, Seats, Taker};
use crate::part::Part;
use crate::rule::{Back, FirstSeat, Queue, Takes};
use crossbeam_queue::Pass;
use jk_log::Arrival;
use std::alloc::{AllocError, Global};
use std::sync::{Arc, Wait};

impl Inbox {
    /// A new inbox: the taker, and the eight seats, each of which has sent nothing.
    ///
    /// # Errors
    /// Where memory is refused.
    pub fn new(alloc: Global) -> Result<Inbox, AllocError>
        ensures taker { IfOk result (λ b. taker_view b.taker ≡ part [] true []) }
        ensures seats { IfOk result (λ b. AreAllOf (taker_inbox b.taker) b.seats × AreNew b.seats) }
    {
        let left = Vec::with_capacity(alloc, ROOM)?;
        let (queue, mut pass) = Queue::ruled(alloc, ROOM)?;
        let queue = Arc::new(alloc, queue)?;
        let zero = take_seat(&queue, &mut pass, 0)?;
        let one = take_seat(&queue, &mut pass, 1)?;
        let two = take_seat(&queue, &mut pass, 2)?;
        let three = take_seat(&queue, &mut pass, 3)?;
        let four = take_seat(&queue, &mut pass, 4)?;
        let five = take_seat(&queue, &mut pass, 5)?;
        let six = take_seat(&queue, &mut pass, 6)?;
        let seven = take_seat(&queue, &mut pass, 7)?;
        let seats = Seats {
            zero,
            one,
            two,
            three,
            four,
            five,
            six,
            seven,
        };
        let taker = Taker { queue, pass, left };
        Ok(Inbox { taker, seats })
    }
}

/// Gives the first seat of the pass an end of its own.
fn take_seat(
    queue: &Arc<Queue, Global>,
    pass: &mut Pass<Arrival, Part>,
    place: u8,
) -> Result<Seat, AllocError>
    requires place { place < 8 }
    requires queue { IsPassOf (arc_value queue.now) pass.old }
    requires room { ruled_capacity (arc_value queue.now) ≡ 256 }
    requires all { view pass.old ≡ part (fresh (8 - place)) true [] }
    ensures queue { IsSamePass pass.old pass.new }
    ensures others { OnOk result (view pass.new ≡ part (fresh (7 - place)) true []) }
    ensures seat { IfOk result (λ s. IsAt pass.old.table_id place s × IsNew s) }
{
    let queue = Arc::try_clone(queue)?;
    let pass = queue.another::<FirstSeat>(pass);
    Ok(Seat {
        queue,
        pass,
        place,
        next: 1,
    })
}

/// Ends the inbox: what was taken and what is left are, of each seat, all that it sent.
pub fn close<R: Wait>(rt: &R, taker: Taker, seats: Seats) -> Left
    requires { AreAllOf (taker_inbox taker) seats }
    ensures { AreAllSent seats (taken_by taker ++ result.arrivals.items) }
{
    let Seats {
        zero,
        one,
        two,
        three,
        four,
        five,
        six,
        seven,
    } = seats;
    let taker = take_in(taker, zero);
    let taker = take_in(taker, one);
    let taker = take_in(taker, two);
    let taker = take_in(taker, three);
    let taker = take_in(taker, four);
    let taker = take_in(taker, five);
    let taker = take_in(taker, six);
    let taker = take_in(taker, seven);
    take_rest(rt, taker)
}

/// The taker has the seat for its own from now on.
fn take_in(taker: Taker, seat: Seat) -> Taker
    requires { seat_inbox seat ≡ taker_inbox taker }
    ensures same { taker_inbox result ≡ taker_inbox taker }
    ensures seats { taker_view result ≡ part ((taker_view taker).senders ++ (seat_view seat).senders) (taker_view taker).takes (taker_view taker).taken }
{
    let Taker {
        queue,
        mut pass,
        left,
    } = taker;
    queue.absorb::<Back>(&mut pass, seat.pass);
    Taker { queue, pass, left }
}

/// Takes all that stands in the inbox, where the taker's seats are all that there are.
fn take_rest<R: Wait>(rt: &R, taker: Taker) -> Left
    requires { (n : ℕ) × ((all : List Arrival) → AllByRecursion IsSeated all → AllByRecursion (SentIn all) (taker_view taker).senders → length all ≡ n) }
    ensures { AllByRecursion (SentIn (taken_by taker ++ result.arrivals.items)) (taker_view taker).senders }
{
    let Taker {
        queue,
        mut pass,
        mut left,
    } = taker;
    queue.learn_as::<Takes>(&mut pass);
    for _ in rt.forever() {
        match queue.pop_as::<Takes, R>(rt, &mut pass) {
            Some(arrival) => left.push_reserved(arrival),
            None => return Left { arrivals: left },
        }
    }
    unreachable!()
}
