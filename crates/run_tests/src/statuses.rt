//! How runs end.

use js_shelf::{Bytes, Item, MemoryShelf, Shelf, ShelfRefusal};
use nb_doc::{NbFault, Notebook};
use nb_run::{RunFault, read_from, run_status};
use std::alloc::Global;
use std::test::Fail;

/// Whether a run that ended so has this status, and tells this.
fn ends(alloc: Global, ended: Result<bool, RunFault>, status: u8, told: &str) -> bool {
    let mut errors = Vec::new(alloc);
    run_status(ended, "n", &mut errors) == status && errors.as_slice() == told.as_bytes()
}

#[test]
fn each_status(rt: HostRuntime) {
    let alloc = rt.alloc();
    assert!(rt; ends(alloc, Ok(true), 0, ""));
    assert!(rt; ends(alloc, Ok(false), 5, ""));
    assert!(rt; ends(alloc, Err(RunFault::Memory), 2, "n: out of memory\n"));
    assert!(rt; ends(alloc, Err(RunFault::Unread), 4, "n: can't be read\n"));
    assert!(rt; ends(alloc, Err(RunFault::Unwritten), 4, "n: can't be written\n"));
    assert!(rt; ends(alloc, Err(RunFault::Input), 4, "n: no line could be read\n"));
    assert!(rt;
        ends(
            alloc,
            Err(RunFault::NoNotebook(NbFault::OtherVersion)),
            6,
            "n: no notebook, fault 5\n"
        )
    );
    assert_eq!(rt; RunFault::from(ShelfRefusal::Memory), RunFault::Memory);
}

/// Why a notebook could not be read.
fn fault(read: Result<Notebook, RunFault>) -> Option<RunFault> {
    match read {
        Ok(_) => None,
        Err(fault) => Some(fault),
    }
}

#[test]
fn what_is_no_notebook(rt: HostRuntime) -> Result<(), Fail> {
    let alloc = rt.alloc();
    let mut shelf = MemoryShelf::new(alloc)?;
    let bytes = Vec::from_slice(alloc, b"text")?;
    assert_eq!(rt; shelf.put("n", Item::File(Bytes::from(bytes))), Ok(()));
    let read = fault(read_from(alloc, &mut shelf, "n"));
    assert_eq!(rt; read, Some(RunFault::NoNotebook(NbFault::NotJson)));
    assert_eq!(rt;
        fault(read_from(alloc, &mut shelf, "m")),
        Some(RunFault::Unread)
    );
    assert_eq!(rt;
        fault(read_from(alloc, &mut shelf, "")),
        Some(RunFault::Unread)
    );
    Ok(())
}
