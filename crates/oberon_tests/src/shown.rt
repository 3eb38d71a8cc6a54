//! Entries that a replay is to write, in short form.

use std::alloc::{AllocError, Global};

/// An entry, or two. Texts stand as they do in JSON.
#[derive(Clone, Copy)]
pub enum Shown<'a> {
    Busy,
    Idle,
    /// The input of the cell of this number, and its text.
    Input(u64, &'a str),
    /// What the cell wrote since the last one.
    Stream(&'a str),
    /// The seat is asked for a line.
    Asks,
    /// The reply to the cell of this number, which ended well.
    Ok(u64),
    /// The reply to the cell of this number, which ended by an error of this name and value.
    Err(u64, &'a str, &'a str),
    /// That error, and the reply.
    Failed(u64, &'a str, &'a str),
    Aborted,
    /// The reply on the shell channel of this type, without its ending, and content.
    Reply(&'a str, &'a str),
    Interrupted,
    /// The reply to a shutdown, and whether the kernel begins anew.
    Shut(bool),
}

/// A line of an entry to all.
fn to_all(alloc: Global, id: &str, kind: &str, content: &str) -> Result<String, AllocError> {
    format!(in alloc;
        "{{\"channel\":\"iopub\",\"content\":{content},\"msg_type\":\"{kind}\",\"parent\":\"{id}\",\"to\":\"all\"}}\n"
    )
}

/// A line of an entry to a seat.
fn to_seat(
    alloc: Global,
    seat: u8,
    id: &str,
    channel: &str,
    kind: &str,
    content: &str,
) -> Result<String, AllocError> {
    format!(in alloc;
        "{{\"channel\":\"{channel}\",\"content\":{content},\"msg_type\":\"{kind}\",\"parent\":\"{id}\",\"to\":{seat}}}\n"
    )
}

fn input(alloc: Global, id: &str, count: u64, code: &str) -> Result<String, AllocError> {
    let content = format!(in alloc; "{{\"code\":\"{code}\",\"execution_count\":{count}}}")?;
    to_all(alloc, id, "execute_input", content.as_str())
}

fn stream(alloc: Global, id: &str, text: &str) -> Result<String, AllocError> {
    let content = format!(in alloc; "{{\"name\":\"stdout\",\"text\":\"{text}\"}}")?;
    to_all(alloc, id, "stream", content.as_str())
}

fn ended(alloc: Global, seat: u8, id: &str, count: u64) -> Result<String, AllocError> {
    let content = format!(in alloc;
        "{{\"execution_count\":{count},\"payload\":[],\"status\":\"ok\",\"user_expressions\":{{}}}}"
    )?;
    to_seat(alloc, seat, id, "shell", "execute_reply", content.as_str())
}

/// The one line of a traceback: the name alone where there is no value.
fn trace(alloc: Global, ename: &str, evalue: &str) -> Result<String, AllocError> {
    if evalue.is_empty() {
        String::from_str(alloc, ename)
    } else {
        format!(in alloc; "{ename}: {evalue}")
    }
}

fn error(alloc: Global, id: &str, ename: &str, evalue: &str) -> Result<String, AllocError> {
    let trace = trace(alloc, ename, evalue)?;
    let trace = trace.as_str();
    let content = format!(in alloc;
        "{{\"ename\":\"{ename}\",\"evalue\":\"{evalue}\",\"traceback\":[\"{trace}\"]}}"
    )?;
    to_all(alloc, id, "error", content.as_str())
}

fn error_reply(
    alloc: Global,
    seat: u8,
    id: &str,
    count: u64,
    ename: &str,
    evalue: &str,
) -> Result<String, AllocError> {
    let trace = trace(alloc, ename, evalue)?;
    let trace = trace.as_str();
    let content = format!(in alloc;
        "{{\"ename\":\"{ename}\",\"evalue\":\"{evalue}\",\"execution_count\":{count},\"status\":\"error\",\"traceback\":[\"{trace}\"]}}"
    )?;
    to_seat(alloc, seat, id, "shell", "execute_reply", content.as_str())
}

fn failed(
    alloc: Global,
    seat: u8,
    id: &str,
    count: u64,
    ename: &str,
    evalue: &str,
) -> Result<String, AllocError> {
    let mut lines = error(alloc, id, ename, evalue)?;
    lines.push_str(error_reply(alloc, seat, id, count, ename, evalue)?.as_str())?;
    Ok(lines)
}

fn asks(alloc: Global, seat: u8, id: &str) -> Result<String, AllocError> {
    let content = "{\"password\":false,\"prompt\":\"\"}";
    to_seat(alloc, seat, id, "stdin", "input_request", content)
}

fn reply(
    alloc: Global,
    seat: u8,
    id: &str,
    kind: &str,
    content: &str,
) -> Result<String, AllocError> {
    let kind = format!(in alloc; "{kind}_reply")?;
    to_seat(alloc, seat, id, "shell", kind.as_str(), content)
}

fn shut(alloc: Global, seat: u8, id: &str, restart: bool) -> Result<String, AllocError> {
    let content = format!(in alloc; "{{\"restart\":{restart},\"status\":\"ok\"}}")?;
    to_seat(
        alloc,
        seat,
        id,
        "control",
        "shutdown_reply",
        content.as_str(),
    )
}

/// The lines of an entry for the message of this name of a seat.
fn line(alloc: Global, id: &str, seat: u8, shown: Shown<'_>) -> Result<String, AllocError> {
    match shown {
        Shown::Busy => to_all(alloc, id, "status", "{\"execution_state\":\"busy\"}"),
        Shown::Idle => to_all(alloc, id, "status", "{\"execution_state\":\"idle\"}"),
        Shown::Input(count, code) => input(alloc, id, count, code),
        Shown::Stream(text) => stream(alloc, id, text),
        Shown::Asks => asks(alloc, seat, id),
        Shown::Ok(count) => ended(alloc, seat, id, count),
        Shown::Err(count, ename, evalue) => error_reply(alloc, seat, id, count, ename, evalue),
        Shown::Failed(count, ename, evalue) => failed(alloc, seat, id, count, ename, evalue),
        Shown::Aborted => {
            to_seat(
                alloc,
                seat,
                id,
                "shell",
                "execute_reply",
                "{\"status\":\"aborted\"}",
            )
        }
        Shown::Reply(kind, content) => reply(alloc, seat, id, kind, content),
        Shown::Interrupted => {
            to_seat(
                alloc,
                seat,
                id,
                "control",
                "interrupt_reply",
                "{\"status\":\"ok\"}",
            )
        }
        Shown::Shut(restart) => shut(alloc, seat, id, restart),
    }
}

/// The text of these entries, each for the message of this name of a seat.
pub fn entries(alloc: Global, all: &[(&str, u8, Shown<'_>)]) -> Result<String, AllocError> {
    let mut text = String::new(alloc);
    for (id, seat, shown) in all {
        text.push_str(line(alloc, *id, *seat, *shown)?.as_str())?;
    }
    Ok(text)
}
