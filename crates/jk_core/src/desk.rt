//! What stands beside the script while cells run.

ghost use Rattle.std.specs.Prelude.{◌≡◌};

use jk_language::Language;
use jk_log::Arrival;
use std::alloc::Global;
use std::mem;

/// How a cell that runs stands to its lines.
#[derive(Drop)]
pub(crate) enum Wants {
    Nothing,
    /// It asked for a line, and was given none since.
    Asked,
    /// It asked for a line, and what arrived is that line. The machine was not given it.
    Given(Arrival),
}

/// A cell that runs, and what has to be known of its request.
#[derive(Drop)]
pub(crate) struct Active<M> {
    /// The request's place in the log.
    pub at: usize,
    pub seat: u8,
    /// Whether its error aborts what waits.
    pub stops: bool,
    /// Whether it may ask for a line.
    pub allows: bool,
    pub wants: Wants,
    /// Whether a line was given since the last flush.
    pub read: bool,
    pub machine: M,
}

/// A session is with the machine of the cell that runs, or at rest.
#[derive(Drop)]
pub(crate) enum Place<S, M> {
    Resting(S),
    Running(Active<M>),
}

/// What stands beside the script.
#[derive(Drop)]
pub(crate) struct Desk<S, M> {
    pub alloc: Global,
    pub count: u64,
    pub place: Place<S, M>,
}

/// A desk at which nothing has run.
pub(crate) fn new_desk<L: Language>(alloc: Global) -> Desk<L::Session, L::Machine>
    ensures count { result.count ≡ 0 }
    ensures place { result.place ≡ Place.Resting L.spoken.opening }
{
    let place = Place::Resting(L::opening(alloc));
    Desk {
        alloc,
        count: 0,
        place,
    }
}

/// Takes out what is there, and leaves an opening session.
pub(crate) fn take_place<L: Language>(
    desk: &mut Desk<L::Session, L::Machine>,
) -> Place<L::Session, L::Machine>
    ensures value { result ≡ desk.old.place }
    ensures count { desk.new.count ≡ desk.old.count }
{
    let empty = Place::Resting(L::opening(desk.alloc));
    mem::replace(&mut desk.place, empty)
}
