//! The word by which the driver tells the workers of its pool to return.

use atomic_table::Split;
use crossbeam_utils::atomic::seq_cell::RuledSeqCell;
use crossbeam_utils::rule::{Outcome, Protocol};

/// What a pass knows: whether it is the one that may stop the pool, and whether it knows that the pool was stopped. No value
/// of it is made.
pub struct Known {
    pub stops: bool,
    pub stopped: bool,
}

/// The word is 1 where a pass knows that the pool was stopped, and 0 as long as the one that may stop it has not.
pub struct Stopping;

impl Protocol<[u64; 1], Known> for Stopping {
    ghost use Rattle.std.specs.Prelude.{true, false};
    ghost use Rattle.jk_queues.specs.Stop as stop;

    ghost holds = { stop.Stopping };

    ghost first = { stop.known true false };
}

/// The one that may stop the pool does so.
pub struct Stops;

impl Outcome<[u64; 1], Known> for Stops {
    ghost use Rattle.std.specs.Prelude.{◌≡◌, true};
    ghost use Rattle.jk_queues.specs.Stop.{known};

    ghost then = { λ v x y w. w ≡ known v.stops true };
}

/// A pass looks whether the pool was stopped.
pub struct Looks;

impl Outcome<[u64; 1], Known> for Looks {
    ghost use Rattle.std.specs.Prelude.{◌≡◌};
    ghost use Rattle.jk_queues.specs.Stop.{known, is_set};

    ghost then = { λ v x y w. w ≡ known v.stops (is_set x) };
}

/// Another pass, which may only look.
pub struct Looker;

impl Split<Known> for Looker {
    ghost use Rattle.std.specs.Prelude.{false};
    ghost use Rattle.jk_queues.specs.Stop.{known};

    ghost left = { λ v. v };

    ghost right = { λ v. known false false };
}

pub type Stop = RuledSeqCell<[u64; 1], Known, Stopping, 1>;
