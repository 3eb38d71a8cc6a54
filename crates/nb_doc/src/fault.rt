//! Why a text is no notebook.

ghost use Rattle.std.specs.Prelude.{◌≡◌};
ghost use Rattle.nb_doc.specs.Steps.{bad_of};
ghost use Rattle.nb_doc.specs.Reading.{fault_number};
ghost use Rattle.nb_doc.specs.declared.fault.NbBad.TheVariants.{Memory, Fault as NbBadFault};

use json_form::{Bad, Fault};
use std::alloc::{AllocError, AllocFailed};

/// What is wrong with a notebook's text: the fault that comes first. They are looked for in this order, each over
/// all cells before the next.
#[derive(Clone, Copy, Debug, PartialEq, Eq)]
pub enum NbFault {
    /// The text is not JSON.
    NotJson,
    /// A number is not whole.
    NotWhole,
    /// It is no notebook of version 4.0 to 4.5.
    OtherVersion,
    /// A field is missing or of another kind.
    BadField,
    /// An id is empty, too long, or has a character that is not allowed.
    BadId,
    /// An id stands twice.
    RepeatedId,
}

/// A fault, or lack of memory.
#[derive(Clone, Copy, Debug, PartialEq, Eq)]
pub enum NbBad {
    Fault(NbFault),
    Memory,
}

impl From<Bad> for NbBad {
    ghost from_gives = { λ b e. e ≡ bad_of b };

    fn from(bad: Bad) -> NbBad {
        match bad {
            Bad::Memory => NbBad::Memory,
            Bad::Fault(Fault::NotJson) => NbBad::Fault(NbFault::NotJson),
            Bad::Fault(Fault::NotWhole) => NbBad::Fault(NbFault::NotWhole),
            Bad::Fault(Fault::Missing | Fault::WrongKind | Fault::TooLong) => {
                NbBad::Fault(NbFault::BadField)
            }
        }
    }
}

impl From<NbFault> for NbBad {
    ghost from_gives = { λ f e. e ≡ NbBadFault f };

    fn from(fault: NbFault) -> NbBad {
        NbBad::Fault(fault)
    }
}

impl From<AllocError> for NbBad {
    ghost from_gives = { λ _ e. e ≡ Memory };

    fn from(_e: AllocError) -> NbBad {
        NbBad::Memory
    }
}

impl<T: Drop> From<AllocFailed<T>> for NbBad {
    ghost from_gives = { λ _ e. e ≡ Memory };

    fn from(_e: AllocFailed<T>) -> NbBad {
        NbBad::Memory
    }
}

/// The number by which a fault is told, from 1 to 6.
#[tactic(auto, unfolding(crate::specs::Reading::fault_number))]
pub fn number_of(fault: NbFault) -> u8
    ensures { result ≡ fault_number fault }
{
    match fault {
        NbFault::NotJson => 1,
        NbFault::BadField => 2,
        NbFault::BadId => 3,
        NbFault::RepeatedId => 4,
        NbFault::OtherVersion => 5,
        NbFault::NotWhole => 6,
    }
}
