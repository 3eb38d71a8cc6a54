//! Why a piece of a program gives no value.

ghost use Rattle.std.specs.Prelude.{◌≡◌};
ghost use Rattle.ob_reference_store.specs.declared.stop.Stop.TheVariants.{Unanswered};

use ob_mean::Outcome;
use std::alloc::{AllocError, AllocFailed};

/// There was no memory, the tree is deeper than the room that was given, or no checker makes such a tree.
#[derive(Clone, Copy, Debug, PartialEq, Eq)]
pub struct NoAnswer;

impl From<AllocError> for NoAnswer {
    fn from(_e: AllocError) -> NoAnswer {
        NoAnswer
    }
}

impl<T: Drop> From<AllocFailed<T>> for NoAnswer {
    fn from(_e: AllocFailed<T>) -> NoAnswer {
        NoAnswer
    }
}

/// Why a piece gives no value.
#[derive(Drop)]
pub enum Stop {
    /// The run stands.
    Stands(Outcome),
    /// There is no answer.
    Unanswered,
}

impl From<NoAnswer> for Stop {
    ghost from_gives = { λ _ e. e ≡ Unanswered };

    fn from(_e: NoAnswer) -> Stop {
        Stop::Unanswered
    }
}

impl From<AllocError> for Stop {
    ghost from_gives = { λ _ e. e ≡ Unanswered };

    fn from(_e: AllocError) -> Stop {
        Stop::Unanswered
    }
}

impl<T: Drop> From<AllocFailed<T>> for Stop {
    ghost from_gives = { λ _ e. e ≡ Unanswered };

    fn from(_e: AllocFailed<T>) -> Stop {
        Stop::Unanswered
    }
}
