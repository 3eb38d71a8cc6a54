//! Inputs at the limits and just past them.

use crate::replays::{assert_session, assert_writes, error, ok};
use crate::sent::Sent::{Cell, CellWith};
use crate::sent::lines;
use oberon_lines::replay_text;
use std::alloc::{AllocError, Global};
use std::process::Abort;
use std::test::Fail;

/// A part as often as said, between two texts.
fn repeated(
    alloc: Global,
    before: &str,
    part: &str,
    count: usize,
    behind: &str,
) -> Result<String, AllocError> {
    let mut text = String::from_str(alloc, before)?;
    for _ in 0..count {
        text.push_str(part)?;
    }
    text.push_str(behind)?;
    Ok(text)
}

/// The module of these declarations is accepted.
fn assert_accepted<R: AllocGlobal + Abort>(rt: &R, inside: &str) -> Result<(), Fail> {
    let code = format!(in rt.alloc(); "MODULE A; {inside} END A.")?;
    assert_session(rt, &[ok(code.as_str(), "")])
}

/// The module of these declarations is refused with this code, wherever that is.
fn assert_refused<R: AllocGlobal + Abort>(rt: &R, inside: &str, number: u8) -> Result<(), Fail> {
    let code = format!(in rt.alloc(); "MODULE A; {inside} END A.")?;
    let input = lines(rt.alloc(), &[Cell(0, "m", code.as_str())])?;
    let replayed = replay_text(rt.alloc(), input.as_str());
    let written = std::str::from_utf8(replayed.written.as_slice()).or(Err("no text"))?;
    let wanted = format!(in rt.alloc(); "\"evalue\":\"compile error {number} at 1:")?;
    assert!(rt; written.contains(wanted.as_str()));
    assert_eq!(rt; replayed.status, 0);
    Ok(())
}

/// A constant in so many parentheses.
fn nested(alloc: Global, count: usize) -> Result<String, AllocError> {
    let opened = repeated(alloc, "CONST c = ", "(", count, "1")?;
    repeated(alloc, opened.as_str(), ")", count, ";")
}

#[test]
fn nesting_and_names(rt: HostRuntime) -> Result<(), Fail> {
    assert_accepted(&rt, nested(rt.alloc(), 200)?.as_str())?;
    assert_refused(&rt, nested(rt.alloc(), 201)?.as_str(), 6)?;
    let name = repeated(rt.alloc(), "VAR ", "x", 64, ": INTEGER;")?;
    assert_accepted(&rt, name.as_str())?;
    let name = repeated(rt.alloc(), "VAR ", "x", 65, ": INTEGER;")?;
    assert_refused(&rt, name.as_str(), 4)
}

#[test]
fn numbers(rt: HostRuntime) -> Result<(), Fail> {
    let last = "MODULE A; IMPORT Out; BEGIN Out.Int(0FFFFFFFFH, 0) END A.";
    assert_session(&rt, &[ok(last, "-1")])?;
    assert_refused(&rt, "CONST c = 100000000H;", 4)?;
    assert_accepted(&rt, "CONST c = 0FFX;")?;
    assert_refused(&rt, "CONST c = 100X;", 4)?;
    assert_refused(&rt, "CONST c = 1.;", 4)?;
    assert_accepted(&rt, "CONST c = 2147483647;")?;
    assert_refused(&rt, "CONST c = 2147483648;", 4)
}

#[test]
fn sizes_of_types(rt: HostRuntime) -> Result<(), Fail> {
    assert_accepted(&rt, "VAR a: ARRAY 65536 OF INTEGER;")?;
    assert_refused(&rt, "VAR a: ARRAY 65537 OF INTEGER;", 20)?;
    assert_refused(&rt, "VAR a: ARRAY 256, 257 OF INTEGER;", 20)?;
    assert_refused(&rt, "VAR a: ARRAY 0 OF INTEGER;", 20)?;
    let deep = repeated(rt.alloc(), "VAR a: ARRAY 1", ", 1", 199, " OF INTEGER;")?;
    assert_accepted(&rt, deep.as_str())?;
    let deeper = repeated(rt.alloc(), "VAR a: ARRAY 1", ", 1", 200, " OF INTEGER;")?;
    assert_refused(&rt, deeper.as_str(), 20)
}

#[test]
fn cells_of_a_module_and_of_a_procedure(rt: HostRuntime) -> Result<(), Fail> {
    assert_accepted(&rt, "VAR a, b, c, d: ARRAY 65536 OF INTEGER;")?;
    assert_refused(
        &rt,
        "VAR a, b, c, d: ARRAY 65536 OF INTEGER; e: INTEGER;",
        20,
    )?;
    assert_accepted(&rt, "PROCEDURE P; VAR a: ARRAY 16384 OF INTEGER; END P;")?;
    assert_refused(
        &rt,
        "PROCEDURE P; VAR a: ARRAY 16384 OF INTEGER; i: INTEGER; END P;",
        20,
    )
}

/// A line of an empty cell after blanks, with so many bytes.
fn line_of(alloc: Global, bytes: usize) -> Result<String, Fail> {
    let line = lines(alloc, &[Cell(0, "m", "")])?;
    let blanks = bytes.saturating_sub(line.len()).saturating_add(1);
    Ok(repeated(alloc, "", " ", blanks, line.as_str())?)
}

#[test]
fn long_messages(rt: HostRuntime) -> Result<(), Fail> {
    let usual = lines(rt.alloc(), &[Cell(0, "m", "")])?;
    let written = replay_text(rt.alloc(), usual.as_str()).written;
    let written = std::str::from_utf8(written.as_slice()).or(Err("no text"))?;
    let longest = line_of(rt.alloc(), 1_048_576)?;
    assert_writes(&rt, longest.as_str(), written, ("", 0));
    let longer = line_of(rt.alloc(), 1_048_577)?;
    assert_writes(&rt, longer.as_str(), "", ("line 1: bad 5\n", 1));
    Ok(())
}

/// A line of an empty cell whose content has this field too is refused so.
fn assert_bad<R: AllocGlobal + Abort>(rt: &R, field: &str, told: &'static str) -> Result<(), Fail> {
    let line = lines(rt.alloc(), &[CellWith(0, "m", "", field)])?;
    assert_writes(rt, line.as_str(), "", (told, 1));
    Ok(())
}

/// A field of content such that the line has this depth.
fn deep(alloc: Global, depth: usize) -> Result<String, AllocError> {
    let lists = depth.saturating_sub(2);
    let opened = repeated(alloc, ",\"n\":", "[", lists, "")?;
    repeated(alloc, opened.as_str(), "]", lists, "")
}

#[test]
fn messages_that_are_refused(rt: HostRuntime) -> Result<(), Fail> {
    let usual = lines(rt.alloc(), &[Cell(0, "m", "")])?;
    let written = replay_text(rt.alloc(), usual.as_str()).written;
    let written = std::str::from_utf8(written.as_slice()).or(Err("no text"))?;
    let deepest = deep(rt.alloc(), 127)?;
    let deepest = lines(rt.alloc(), &[CellWith(0, "m", "", deepest.as_str())])?;
    assert_writes(&rt, deepest.as_str(), written, ("", 0));
    assert_bad(&rt, deep(rt.alloc(), 128)?.as_str(), "line 1: bad 1\n")?;
    for field in [
        ",\"n\":-0",
        ",\"n\":1e2",
        ",\"n\":1.5",
        ",\"n\":18446744073709551616",
    ] {
        assert_bad(&rt, field, "line 1: bad 4\n")?;
    }
    Ok(())
}

/// A refused line leaves what the lines before it did.
#[test]
fn a_bad_line_behind_a_cell(rt: HostRuntime) -> Result<(), Fail> {
    let refused = "MODULE A; BEGIN x := 1 END A.";
    let failure = error(refused, "", "CompileError", "compile error 10 at 1:17");
    assert_session(&rt, &[failure])?;
    let cell = lines(rt.alloc(), &[Cell(0, "m", refused)])?;
    let whole = replay_text(rt.alloc(), cell.as_str()).written;
    let whole = std::str::from_utf8(whole.as_slice()).or(Err("no text"))?;
    let input = format!(in rt.alloc(); "{}{{\"run\":1}}\n\n{{", cell.as_str())?;
    assert_writes(&rt, input.as_str(), whole, ("line 4: bad 1\n", 1));
    Ok(())
}
