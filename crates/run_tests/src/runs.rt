//! Notebooks run on a kernel of the small language.

use js_shelf::{Bytes, Item, MemoryShelf, Shelf};
use json_form::Text;
use nb_run::{Asked, RunFault, read_from, run_saved};
use std::alloc::Global;
use std::test::Fail;
use test_language::TestLanguage;
use test_shelf::FailingShelf;

/// A notebook of a cell of text and two code cells, `c1` and `c2`, which have not run.
fn notebook_text(alloc: Global, first: &str, second: &str) -> Result<String, Fail> {
    Ok(format!(in alloc;
        "{{\"cells\":[{{\"cell_type\":\"code\",\"execution_count\":null,\"id\":\"c1\",\"metadata\":{{}},\"outputs\":[],\"source\":\"{first}\"}},{{\"cell_type\":\"markdown\",\"id\":\"m\",\"metadata\":{{}},\"source\":\"a\"}},{{\"cell_type\":\"code\",\"execution_count\":null,\"id\":\"c2\",\"metadata\":{{}},\"outputs\":[],\"source\":\"{second}\"}}],\"metadata\":{{}},\"nbformat\":4,\"nbformat_minor\":5}}"
    )?)
}

/// Puts a text on a shelf, as the file `n`.
fn put(alloc: Global, shelf: &mut impl Shelf, text: &str) -> Result<(), Fail> {
    let bytes = Vec::from_slice(alloc, text.as_bytes())?;
    match shelf.put("n", Item::File(Bytes::from(bytes))) {
        Ok(()) => Ok(()),
        Err(_) => Err(Fail::new("no put")),
    }
}

/// The file `n` of a shelf, with no blanks and line ends.
fn squeezed(alloc: Global, shelf: &mut impl Shelf) -> Result<String, Fail> {
    let mut text = String::new(alloc);
    if let Ok(Item::File(bytes)) = shelf.get("n") {
        for byte in bytes.as_slice() {
            if *byte != b' ' && *byte != b'\n' {
                text.push(*byte as char)?;
            }
        }
    }
    Ok(text)
}

/// Runs the file `n` of a shelf, which is saved there. The answer is how that ended, and what was written of errors.
fn run(
    alloc: Global,
    shelf: &mut impl Shelf,
    all: bool,
    input: &[u8],
) -> Result<(Result<bool, RunFault>, Vec<u8>), Fail> {
    let mut errors = Vec::new(alloc);
    let notebook = match read_from(alloc, shelf, "n") {
        Ok(notebook) => notebook,
        Err(fault) => return Ok((Err(fault), errors)),
    };
    let asked = Asked {
        notebook,
        all,
        path: Text::from_str(alloc, "n")?,
    };
    let mut lines = input;
    let ended = run_saved::<TestLanguage, _, _, _>(alloc, asked, shelf, &mut lines, &mut errors);
    Ok((ended, errors))
}

/// A code cell as it is saved, squeezed: its outputs and its source.
fn cell(alloc: Global, id: &str, count: &str, outputs: &str, source: &str) -> Result<String, Fail> {
    Ok(format!(in alloc;
        "{{\"cell_type\":\"code\",\"execution_count\":{count},\"id\":\"{id}\",\"metadata\":{{}},\"outputs\":[{outputs}],\"source\":[\"{source}\"]}}"
    )?)
}

/// A stream as it is saved, squeezed.
fn stream(alloc: Global, text: &str) -> Result<String, Fail> {
    Ok(format!(in alloc;
        "{{\"name\":\"stdout\",\"output_type\":\"stream\",\"text\":[\"{text}\"]}}"
    )?)
}

/// Two cells run on one session: the second shows what the first kept, after a line that it asks for.
#[test]
fn two_cells_and_a_line(rt: HostRuntime) -> Result<(), Fail> {
    let alloc = rt.alloc();
    let mut shelf = MemoryShelf::new(alloc)?;
    put(
        alloc,
        &mut shelf,
        notebook_text(alloc, "ab", "$?$")?.as_str(),
    )?;
    let (ended, errors) = run(alloc, &mut shelf, false, b"xyz\nnext\n")?;
    assert_eq!(rt; ended, Ok(true));
    assert_eq!(rt; errors.len(), 0);
    let text = squeezed(alloc, &mut shelf)?;
    let first = cell(alloc, "c1", "1", stream(alloc, "ab")?.as_str(), "ab")?;
    let second = cell(alloc, "c2", "2", stream(alloc, "bx")?.as_str(), "$?$")?;
    assert!(rt; text.as_str().contains(first.as_str()));
    assert!(rt; text.as_str().contains(second.as_str()));
    Ok(())
}

/// Where the input is at its end a cell goes on without a line.
#[test]
fn no_line_is_left(rt: HostRuntime) -> Result<(), Fail> {
    let alloc = rt.alloc();
    let mut shelf = MemoryShelf::new(alloc)?;
    put(
        alloc,
        &mut shelf,
        notebook_text(alloc, "?a", "?b")?.as_str(),
    )?;
    let (ended, _errors) = run(alloc, &mut shelf, false, b"")?;
    assert_eq!(rt; ended, Ok(true));
    let text = squeezed(alloc, &mut shelf)?;
    let second = cell(alloc, "c2", "2", stream(alloc, "b")?.as_str(), "?b")?;
    assert!(rt; text.as_str().contains(second.as_str()));
    Ok(())
}

/// After an error the other cell is not run, and the notebook is saved.
#[test]
fn stops_at_an_error(rt: HostRuntime) -> Result<(), Fail> {
    let alloc = rt.alloc();
    let mut shelf = MemoryShelf::new(alloc)?;
    put(alloc, &mut shelf, notebook_text(alloc, "#", "b")?.as_str())?;
    let (ended, errors) = run(alloc, &mut shelf, false, b"")?;
    assert_eq!(rt; ended, Ok(false));
    assert_eq!(rt;
        errors.as_slice(),
        b"n, cell c1: CompileError: compile error 5 at 1:1\n".as_slice()
    );
    let text = squeezed(alloc, &mut shelf)?;
    let second = cell(alloc, "c2", "null", "", "b")?;
    assert!(rt; text.as_str().contains("compileerror5at1:1"));
    assert!(rt; text.as_str().contains(second.as_str()));
    Ok(())
}

/// The same where all are to be run.
#[test]
fn goes_on_where_all_are_run(rt: HostRuntime) -> Result<(), Fail> {
    let alloc = rt.alloc();
    let mut shelf = MemoryShelf::new(alloc)?;
    put(alloc, &mut shelf, notebook_text(alloc, "!a", "b")?.as_str())?;
    let (ended, errors) = run(alloc, &mut shelf, true, b"")?;
    assert_eq!(rt; ended, Ok(false));
    assert!(rt; errors.as_slice().starts_with(b"n, cell c1: Trap: trap 2"));
    let text = squeezed(alloc, &mut shelf)?;
    let second = cell(alloc, "c2", "2", stream(alloc, "b")?.as_str(), "b")?;
    assert!(rt; text.as_str().contains(second.as_str()));
    Ok(())
}

/// A device that refuses the save: the second call after the fault is set, since the first reads.
#[test]
fn a_save_is_refused(rt: HostRuntime) -> Result<(), Fail> {
    let alloc = rt.alloc();
    let mut shelf = FailingShelf::new(alloc)?;
    put(alloc, &mut shelf, notebook_text(alloc, "a", "b")?.as_str())?;
    let before = squeezed(alloc, &mut shelf)?;
    shelf.fail_at(2);
    let (ended, _errors) = run(alloc, &mut shelf, false, b"")?;
    assert_eq!(rt; ended, Err(RunFault::Unwritten));
    assert_eq!(rt; squeezed(alloc, &mut shelf)?.as_str(), before.as_str());
    shelf.fail_at(1);
    let (ended, _errors) = run(alloc, &mut shelf, false, b"")?;
    assert_eq!(rt; ended, Err(RunFault::Unread));
    Ok(())
}

/// A line that is no UTF-8 can't be given.
#[test]
fn a_line_is_no_text(rt: HostRuntime) -> Result<(), Fail> {
    let alloc = rt.alloc();
    let mut shelf = MemoryShelf::new(alloc)?;
    put(alloc, &mut shelf, notebook_text(alloc, "?", "b")?.as_str())?;
    let (ended, _errors) = run(alloc, &mut shelf, false, b"\xff\n")?;
    assert_eq!(rt; ended, Err(RunFault::Input));
    Ok(())
}
