//! What a home does.
ghost use Rattle.std.specs.Prelude.{◌≡◌, ◌<◌, length, IfOk, IfErr, MatchBool};
ghost use Rattle.js_home.specs.Homes.{lent_of, Tells, LendsPlace, IsPlaceOf, IsSame, WasRefused, TakesBackAt, HasTakenBack};

use super::Home;
use crate::place::Place;
use crate::refused::NoPlace;
use jk_language::Language;
use jk_log::{Arrival, What};
use jk_queues::Full;
use js_lend::Blank;
use std::alloc::Global;
use std::sync::Wait;

impl<L: Language> Home<L> {
    /// Sends something from seat 0, or hands it back where the inbox was full at one moment of the call.
    pub fn tell<R: Wait>(self, rt: &R, what: What) -> (Home<L>, Result<(), Full>)
        ensures { Tells self what result.1 result.0 }
    {
        let Home { zero, free, lent } = self;
        let arrival = Arrival {
            seat: zero.place(),
            number: zero.next_number(),
            what,
        };
        let (zero, sent) = zero.submit(rt, arrival);
        (Home { zero, free, lent }, sent)
    }

    /// Lends the last free place.
    ///
    /// # Errors
    /// Where all are lent, and where memory is refused. Nothing has changed.
    pub fn lend<R: Wait>(&mut self, rt: &R, alloc: Global) -> Result<Place<L>, NoPlace>
        ensures lent { IfOk result (λ place. LendsPlace self.old place self.new) }
        ensures own { IfOk result (λ place. IsPlaceOf self.old place) }
        ensures refused { IfErr result (λ why. IsSame self.old self.new × WasRefused why self.old) }
    {
        if self.lent.reserve(1).is_err() {
            return Err(NoPlace::Memory);
        }
        let Ok(blank) = Blank::new(alloc) else {
            return Err(NoPlace::Memory);
        };
        let Some(free) = self.free.pop() else {
            return Err(NoPlace::Lent);
        };
        let (loan, lease) = blank.lend(rt, free);
        self.lent.push_reserved(loan);
        Ok(Place::new(lease))
    }

    /// How many places are lent.
    pub fn lent(&self) -> usize
        ensures { result ≡ length (lent_of self.now) }
    {
        self.lent.len()
    }

    /// Takes the place of a loan back, where it has come.
    fn take_at<R: Wait>(&mut self, rt: &R, place: usize) -> bool
        requires { place < length (lent_of self.old) }
        ensures { MatchBool result (TakesBackAt place self.old self.new) (IsSame self.old self.new) }
    {
        if self.free.reserve(1).is_err() {
            return false;
        }
        let Some(free) = self.lent[place].take(rt) else {
            return false;
        };
        drop(self.lent.remove(place));
        self.free.push_reserved(free);
        true
    }

    /// Takes back the first place that has come. It says whether one has.
    pub fn take_back<R: Wait>(&mut self, rt: &R) -> bool
        ensures { MatchBool result (HasTakenBack self.old self.new) (IsSame self.old self.new) }
    {
        let count = self.lent();
        for place in 0..count {
            if self.take_at(rt, place) {
                return true;
            }
        }
        false
    }
}
