//! How a run ends: its status, and what is told of it.

ghost use Rattle.std.specs.Prelude.{◌≡◌, Result};
ghost use Rattle.nb_run.specs.Statuses as spec;
ghost use Rattle.nb_run.specs.declared.status.RunFault.TheVariants as fault_as;

use js_shelf::ShelfRefusal;
use nb_doc::{NbFault, number_of};
use std::alloc::{AllocError, AllocFailed};
use std::io::Write;

/// Why a notebook was not run and saved.
#[derive(Clone, Copy, Debug, PartialEq, Eq)]
pub enum RunFault {
    Memory,
    /// There is no file, or it can't be read.
    Unread,
    /// The file is no notebook.
    NoNotebook(NbFault),
    /// A line for a cell that asks could not be read.
    Input,
    /// The notebook could not be saved.
    Unwritten,
}

impl From<AllocError> for RunFault {
    ghost from_gives = { λ _ e. e ≡ fault_as.Memory };

    fn from(_e: AllocError) -> RunFault {
        RunFault::Memory
    }
}

impl<T: Drop> From<AllocFailed<T>> for RunFault {
    ghost from_gives = { λ _ e. e ≡ fault_as.Memory };

    fn from(_e: AllocFailed<T>) -> RunFault {
        RunFault::Memory
    }
}

impl From<ShelfRefusal> for RunFault {
    ghost from_gives = { λ refusal e. e ≡ spec.fault_of refusal };

    fn from(refusal: ShelfRefusal) -> RunFault {
        match refusal {
            ShelfRefusal::Memory => RunFault::Memory,
            ShelfRefusal::Missing
            | ShelfRefusal::Exists
            | ShelfRefusal::BadPath
            | ShelfRefusal::NotEmpty
            | ShelfRefusal::Device => RunFault::Unwritten,
        }
    }
}

/// The program's status by how a run ended: 0 where all cells ended well, 5 where one did not, 2 for lack of memory, 4
/// where a file or a line could not be read or written, 6 where the file is no notebook.
fn status_of(ended: Result<bool, RunFault>) -> u8
    ensures { result ≡ spec.status_of ended }
{
    match ended {
        Ok(true) => 0,
        Ok(false) => 5,
        Err(RunFault::Memory) => 2,
        Err(RunFault::Unread | RunFault::Input | RunFault::Unwritten) => 4,
        Err(RunFault::NoNotebook(_)) => 6,
    }
}

/// Writes why a notebook was not run and saved, after its path, and answers the program's status. What can't be written
/// is left out.
pub fn run_status<E: Write>(ended: Result<bool, RunFault>, path: &str, errors: &mut E) -> u8
    ensures { result ≡ spec.status_of ended }
{
    let _ = match ended {
        Ok(_) => Ok(()),
        Err(RunFault::Memory) => write!(errors, "{path}: out of memory\n"),
        Err(RunFault::Unread) => write!(errors, "{path}: can't be read\n"),
        Err(RunFault::Unwritten) => write!(errors, "{path}: can't be written\n"),
        Err(RunFault::Input) => write!(errors, "{path}: no line could be read\n"),
        Err(RunFault::NoNotebook(fault)) => {
            let number = number_of(fault);
            write!(errors, "{path}: no notebook, fault {number}\n")
        }
    };
    status_of(ended)
}
