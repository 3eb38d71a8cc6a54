//! When each seat left last.

ghost use Rattle.std.specs.Prelude.{◌≡◌, ℕ, ◌<◌, Some, true, length, slice_get, if◌then◌else◌};
ghost use Rattle.jk_log.specs.Log.{leaves};
ghost use Rattle.jk_log.specs.Leaving.{are_zeros};

use crate::arrival::{Arrival, What};
use std::marker::Model;

/// The place of each seat's last leave, or 0. Contracts see it as the list of these places.
#[derive(Drop)]
pub struct Leaves {
    places: [usize; 256],
}

impl Model for Leaves {
    ghost use Rattle.std.specs.Prelude.{ℕ, List};

    ghost Value = { List ℕ };

    ghost view = { λ leaves. leaves.places };
}

impl Leaves {
    /// No seat has left.
    pub fn none() -> Leaves
        ensures seats { length result ≡ 256 }
        ensures none { are_zeros result ≡ true }
    {
        Leaves { places: [0; 256] }
    }

    /// An arrival is taken at this place.
    pub fn take(&mut self, arrival: &Arrival, place: usize)
        ensures { (seat : ℕ) → seat < 256 → slice_get self.new seat ≡ (if leaves seat arrival.now then Some place else slice_get self.old seat) }
    {
        if let What::Leave = &arrival.what {
            self.places[arrival.seat as usize] = place;
        }
    }

    /// The place of a seat's last leave.
    pub fn last(&self, seat: u8) -> usize
        ensures { slice_get self.now seat ≡ Some result }
    {
        self.places[seat as usize]
    }
}
