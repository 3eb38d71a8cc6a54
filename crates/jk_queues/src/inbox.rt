//! The inbox: eight seats send to one taker.
ghost use Rattle.std.specs.Prelude.{◌≡◌, ◌+◌, ◌<◌, true, length, [], ◌≤◌, vec_capacity};
ghost use Rattle.std.specs.Arc.{arc_value};
ghost use Rattle.crossbeam_queue.specs.Passes.{view, IsPassOf, ruled_capacity};
ghost use Rattle.jk_queues.specs.Inbox.{own};

use crate::part::Part;
use crate::rule::Queue;
use crossbeam_queue::Pass;
use jk_log::Arrival;
use std::alloc::Global;
use std::sync::Arc;

mod ends;
mod steps;

pub use ends::close;

/// How many arrivals may stand in the inbox.
pub const ROOM: usize = 256;

/// The end of one seat.
#[derive(Drop)]
pub struct Seat {
    queue: Arc<Queue, Global>,
    pass: Pass<Arrival, Part>,
    place: u8,
    next: u64,
    ghost of_queue: { IsPassOf (arc_value queue) pass },
    ghost room: { ruled_capacity (arc_value queue) ≡ 256 },
    ghost seated: { place < 8 },
    ghost own_place: { (own (view pass)).place ≡ place },
    ghost numbered: { next ≡ length (own (view pass)).sent + 1 },
}

/// The end of the one who takes, with room for what is left at the close.
#[derive(Drop)]
pub struct Taker {
    queue: Arc<Queue, Global>,
    pass: Pass<Arrival, Part>,
    left: Vec<Arrival>,
    ghost of_queue: { IsPassOf (arc_value queue) pass },
    ghost takes: { (view pass).takes ≡ true },
    ghost empty: { left.items ≡ [] },
    ghost roomy: { 256 ≤ vec_capacity left },
}

/// The eight seats.
#[derive(Drop)]
pub struct Seats {
    pub zero: Seat,
    pub one: Seat,
    pub two: Seat,
    pub three: Seat,
    pub four: Seat,
    pub five: Seat,
    pub six: Seat,
    pub seven: Seat,
}

/// The ends of a new inbox.
#[derive(Drop)]
pub struct Inbox {
    pub taker: Taker,
    pub seats: Seats,
}

/// What was never taken, in order.
#[derive(Drop)]
pub struct Left {
    pub arrivals: Vec<Arrival>,
}

/// The inbox had no room for this arrival.
#[derive(Drop)]
pub struct Full {
    pub arrival: Arrival,
}
