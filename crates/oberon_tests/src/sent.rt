//! Lines that are given to a replay, in short form.

use std::alloc::{AllocError, Global};

/// A line of input. Texts stand as they do in JSON.
#[derive(Clone, Copy)]
pub enum Sent<'a> {
    /// A seat asks under a name for a cell of this text.
    Cell(u8, &'a str, &'a str),
    /// The same, with more fields of the content, each after a comma.
    CellWith(u8, &'a str, &'a str, &'a str),
    /// A slice of so many turns.
    Run(u64),
    /// A seat leaves.
    Leave(u8),
    /// A seat sends a line that was asked for.
    Line(u8, &'a str),
    /// A seat sends on the shell channel, under a name, a request of this type, without its ending, and content.
    Query(u8, &'a str, &'a str, &'a str),
    /// Seat 0 interrupts, under a name.
    Interrupt(&'a str),
    /// Seat 0 shuts the kernel down, under a name, and asks whether it is to begin anew.
    Shutdown(&'a str, bool),
}

/// A message of a seat: its channel, its type, its name and its content.
fn message(
    alloc: Global,
    seat: u8,
    channel: &str,
    kind: &str,
    id: &str,
    content: &str,
) -> Result<String, AllocError> {
    format!(in alloc;
        "{{\"channel\":\"{channel}\",\"content\":{content},\"header\":{{\"msg_id\":\"{id}\",\"msg_type\":\"{kind}\",\"session\":\"s\"}},\"seat\":{seat}}}\n"
    )
}

fn cell(alloc: Global, seat: u8, id: &str, code: &str, more: &str) -> Result<String, AllocError> {
    let content = format!(in alloc; "{{\"code\":\"{code}\"{more}}}")?;
    message(
        alloc,
        seat,
        "shell",
        "execute_request",
        id,
        content.as_str(),
    )
}

fn query(
    alloc: Global,
    seat: u8,
    id: &str,
    kind: &str,
    content: &str,
) -> Result<String, AllocError> {
    let kind = format!(in alloc; "{kind}_request")?;
    message(alloc, seat, "shell", kind.as_str(), id, content)
}

fn reply(alloc: Global, seat: u8, line: &str) -> Result<String, AllocError> {
    let content = format!(in alloc; "{{\"value\":\"{line}\"}}")?;
    message(alloc, seat, "stdin", "input_reply", "r", content.as_str())
}

fn shutdown(alloc: Global, id: &str, restart: bool) -> Result<String, AllocError> {
    let content = format!(in alloc; "{{\"restart\":{restart}}}")?;
    message(
        alloc,
        0,
        "control",
        "shutdown_request",
        id,
        content.as_str(),
    )
}

fn line(alloc: Global, sent: Sent<'_>) -> Result<String, AllocError> {
    match sent {
        Sent::Cell(seat, id, code) => cell(alloc, seat, id, code, ""),
        Sent::CellWith(seat, id, code, more) => cell(alloc, seat, id, code, more),
        Sent::Run(turns) => format!(in alloc; "{{\"run\":{turns}}}\n"),
        Sent::Leave(seat) => format!(in alloc; "{{\"leave\":{seat}}}\n"),
        Sent::Line(seat, text) => reply(alloc, seat, text),
        Sent::Query(seat, id, kind, content) => query(alloc, seat, id, kind, content),
        Sent::Interrupt(id) => message(alloc, 0, "control", "interrupt_request", id, "{}"),
        Sent::Shutdown(id, restart) => shutdown(alloc, id, restart),
    }
}

/// The text of these lines.
pub fn lines(alloc: Global, all: &[Sent<'_>]) -> Result<String, AllocError> {
    let mut text = String::new(alloc);
    for sent in all {
        text.push_str(line(alloc, *sent)?.as_str())?;
    }
    Ok(text)
}
