//! What replays come to, and sessions of cells as tables.

use crate::sent::{Sent, lines};
use crate::shown::{Shown, entries};
use oberon_lines::replay_text;
use std::alloc::{AllocError, Global};
use std::process::Abort;
use std::test::Fail;

/// How a replay ends: what is told on the standard error, and the exit status.
type End = (&'static str, u8);

const RESTS: End = ("", 0);

const WORK_LEFT: End = ("work left\n", 3);

/// An input writes just this, and ends so.
pub fn assert_writes<R: AllocGlobal + Abort>(rt: &R, input: &str, wanted: &str, end: End) {
    let replayed = replay_text(rt.alloc(), input);
    let (told, status) = end;
    assert_eq!(rt;
        std::str::from_utf8(replayed.written.as_slice()),
        Ok(wanted)
    );
    assert_eq!(rt; std::str::from_utf8(replayed.told.as_slice()), Ok(told));
    assert_eq!(rt; replayed.status, status);
}

/// These lines show just this, and the kernel rests after them.
pub fn assert_shows<R: AllocGlobal + Abort>(
    rt: &R,
    sent: &[Sent<'_>],
    shown: &[(&str, u8, Shown<'_>)],
) -> Result<(), Fail> {
    let input = lines(rt.alloc(), sent)?;
    let wanted = entries(rt.alloc(), shown)?;
    assert_writes(rt, input.as_str(), wanted.as_str(), RESTS);
    Ok(())
}

/// The same, but work is left.
pub fn assert_leaves_work<R: AllocGlobal + Abort>(
    rt: &R,
    sent: &[Sent<'_>],
    shown: &[(&str, u8, Shown<'_>)],
) -> Result<(), Fail> {
    let input = lines(rt.alloc(), sent)?;
    let wanted = entries(rt.alloc(), shown)?;
    assert_writes(rt, input.as_str(), wanted.as_str(), WORK_LEFT);
    Ok(())
}

/// A cell of a session.
#[derive(Clone, Copy)]
pub struct Row<'a> {
    /// The cell's text, as it stands in a line of JSON.
    code: &'a str,
    /// What it writes, so too; empty for nothing.
    writes: &'a str,
    /// Its error's name and value; both are empty where the cell ends well.
    ename: &'a str,
    evalue: &'a str,
}

/// A cell that ends well.
pub fn ok<'a>(code: &'a str, writes: &'a str) -> Row<'a> {
    Row {
        code,
        writes,
        ename: "",
        evalue: "",
    }
}

/// A cell that ends by an error.
pub fn error<'a>(code: &'a str, writes: &'a str, ename: &'a str, evalue: &'a str) -> Row<'a> {
    Row {
        code,
        writes,
        ename,
        evalue,
    }
}

/// A cell that ends by a trap.
pub fn trap<'a>(code: &'a str, writes: &'a str, evalue: &'a str) -> Row<'a> {
    error(code, writes, "Trap", evalue)
}

/// What a cell of this number shows.
fn shown_by(alloc: Global, row: &Row<'_>, count: u64) -> Result<String, AllocError> {
    let end = if row.ename.is_empty() {
        Shown::Ok(count)
    } else {
        Shown::Failed(count, row.ename, row.evalue)
    };
    let begun = [
        ("m", 0, Shown::Busy),
        ("m", 0, Shown::Input(count, row.code)),
    ];
    let ended = [("m", 0, end), ("m", 0, Shown::Idle)];
    let mut text = entries(alloc, &begun)?;
    if !row.writes.is_empty() {
        text.push_str(entries(alloc, &[("m", 0, Shown::Stream(row.writes))])?.as_str())?;
    }
    text.push_str(entries(alloc, &ended)?.as_str())?;
    Ok(text)
}

/// Each cell of a session is run to its end before the next one is taken, and the lines written are just these.
pub fn assert_session<R: AllocGlobal + Abort>(rt: &R, rows: &[Row<'_>]) -> Result<(), Fail> {
    let alloc = rt.alloc();
    let mut input = String::new(alloc);
    let mut wanted = String::new(alloc);
    for (place, row) in rows.iter().enumerate() {
        let count = (place as u64).saturating_add(1);
        let sent = [Sent::Cell(0, "m", row.code), Sent::Run(10_000)];
        input.push_str(lines(alloc, &sent)?.as_str())?;
        wanted.push_str(shown_by(alloc, row, count)?.as_str())?;
    }
    assert_writes(rt, input.as_str(), wanted.as_str(), RESTS);
    Ok(())
}

/// Each cell is run in a session of its own.
pub fn assert_cells<R: AllocGlobal + Abort>(rt: &R, rows: &[Row<'_>]) -> Result<(), Fail> {
    for row in rows {
        assert_session(rt, &[*row])?;
    }
    Ok(())
}
