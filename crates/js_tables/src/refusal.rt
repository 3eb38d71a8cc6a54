//! Why a request has no plan.
ghost use Rattle.std.specs.Prelude.{◌≡◌};
ghost use Rattle.js_tables.specs.declared.refusal.Refusal.TheVariants as refusal;
ghost use Rattle.js_tables.specs.Plans as spec;

use js_http::ErrorStatus;
use js_shelf::ShelfRefusal;
use json_form::{Bad, Fault};
use std::alloc::{AllocError, AllocFailed};

/// A status that the request deserves, or a failure of the device or of memory.
#[derive(Clone, Copy, Debug, PartialEq, Eq)]
pub enum Refusal {
    Status(ErrorStatus),
    Failed,
}

impl Refusal {
    /// The status to answer with.
    pub fn status(self) -> ErrorStatus
        ensures { result ≡ spec.status_of self }
    {
        match self {
            Refusal::Status(status) => status,
            Refusal::Failed => ErrorStatus::InternalServerError,
        }
    }
}

impl From<ErrorStatus> for Refusal {
    ghost from_gives = { λ status e. e ≡ refusal.Status status };

    fn from(status: ErrorStatus) -> Refusal {
        Refusal::Status(status)
    }
}

impl From<Fault> for Refusal {
    ghost from_gives = { λ _ e. e ≡ spec.bad_request };

    fn from(_: Fault) -> Refusal {
        Refusal::Status(ErrorStatus::BadRequest)
    }
}

impl From<Bad> for Refusal {
    ghost from_gives = { λ bad e. e ≡ spec.of_bad bad };

    fn from(bad: Bad) -> Refusal {
        match bad {
            Bad::Fault(_) => Refusal::Status(ErrorStatus::BadRequest),
            Bad::Memory => Refusal::Failed,
        }
    }
}

impl From<ShelfRefusal> for Refusal {
    ghost from_gives = { λ cause e. e ≡ spec.of_shelf cause };

    fn from(cause: ShelfRefusal) -> Refusal {
        match cause {
            ShelfRefusal::Missing => Refusal::Status(ErrorStatus::NotFound),
            ShelfRefusal::Exists => Refusal::Status(ErrorStatus::Conflict),
            ShelfRefusal::BadPath | ShelfRefusal::NotEmpty => {
                Refusal::Status(ErrorStatus::BadRequest)
            }
            ShelfRefusal::Device | ShelfRefusal::Memory => Refusal::Failed,
        }
    }
}

impl From<AllocError> for Refusal {
    ghost from_gives = { λ _ e. e ≡ refusal.Failed };

    fn from(_: AllocError) -> Refusal {
        Refusal::Failed
    }
}

impl<T: Drop> From<AllocFailed<T>> for Refusal {
    ghost from_gives = { λ _ e. e ≡ refusal.Failed };

    fn from(_: AllocFailed<T>) -> Refusal {
        Refusal::Failed
    }
}
