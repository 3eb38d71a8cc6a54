//! A home: seat 0 of a kernel's inbox, and the places that it lends.
ghost use Rattle.std.specs.Prelude.{◌≡◌};
ghost use Rattle.jk_queues.specs.Ends.{seat_inbox};
ghost use Rattle.js_home.specs.Places.{all_of, AreOneToSeven, AreOf};

use crate::free::Free;
use jk_language::Language;
use jk_queues::Seat;
use js_lend::Loan;

mod make;
mod steps;

/// Seat 0 of an inbox, the places that are free, and the loans of the others. The places are 1 to 7, each once, and all are of
/// the inbox of seat 0.
#[derive(Drop)]
pub struct Home<L: Language> {
    zero: Seat,
    free: Vec<Free<L>>,
    lent: Vec<Loan<Free<L>>>,
    ghost first: { zero.place ≡ 0 },
    ghost places: { AreOneToSeven (all_of free.items lent.items) },
    ghost own: { AreOf (seat_inbox zero) (all_of free.items lent.items) },
}
