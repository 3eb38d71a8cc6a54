//! Plays on a kernel of the small language: what it is sent, and what it answers.

use crate::shown::{read_all, request, shown, take};
use jk_core::{Kernel, Work};
use jk_language::Language;
use jk_log::What;
use jp_msg::Message;
use json_form::Shared;
use std::alloc::Global;
use std::process::Abort;
use std::test::Fail;
use test_language::TestLanguage;

/// A step of a play. What a seat sends has a name.
#[derive(Clone, Copy)]
pub enum Step<'a> {
    /// A seat asks for a cell of this text.
    Cell(u8, &'a str, &'a str),
    /// The same, with more fields of the content, each after a comma.
    CellWith(u8, &'a str, &'a str, &'a str),
    /// A seat sends a request of this type and content on the shell channel.
    Query(u8, &'a str, &'a str, &'a str),
    /// The same on the control channel.
    Control(u8, &'a str, &'a str, &'a str),
    /// A seat sends a line, which has no name.
    Line(u8, &'a str),
    Join(u8),
    Leave(u8),
    /// Every text that waits is read.
    Read,
    /// A slice of so many turns comes to this.
    Turns(u64, Work),
    /// So many marks are pending.
    Pends(usize),
    /// What is pending is this, and is taken.
    Shows(&'a str),
    /// No text waits to be read.
    NoJob,
    /// Whether no cell runs and nothing waits.
    Rests(bool),
    /// Whether the kernel was shut down, and not to start again.
    Ended(bool),
}

/// A message of this type, name and content.
fn message(
    alloc: Global,
    channel: &str,
    kind: &str,
    id: &str,
    content: &str,
) -> Result<Shared<Message>, Fail> {
    let text = format!(in alloc;
        "{{\"channel\":\"{channel}\",\"content\":{{{content}}},\"header\":{{\"msg_id\":\"{id}\",\"msg_type\":\"{kind}\",\"session\":\"s\"}}}}"
    )?;
    request(alloc, text.as_str())
}

/// A request for a cell.
fn cell(alloc: Global, id: &str, code: &str, more: &str) -> Result<What, Fail> {
    let content = format!(in alloc; "\"code\":\"{code}\"{more}")?;
    Ok(What::Shell(message(alloc, "shell", "execute_request", id, content.as_str())?))
}

/// A line that was asked for.
fn line(alloc: Global, line: &str) -> Result<What, Fail> {
    let content = format!(in alloc; "\"value\":\"{line}\"")?;
    Ok(What::Stdin(message(alloc, "stdin", "input_reply", "r", content.as_str())?))
}

/// What a step sends, and from which seat.
fn sent(alloc: Global, step: Step<'_>) -> Result<Option<(u8, What)>, Fail> {
    Ok(match step {
        Step::Cell(seat, id, code) => Some((seat, cell(alloc, id, code, "")?)),
        Step::CellWith(seat, id, code, more) => Some((seat, cell(alloc, id, code, more)?)),
        Step::Query(seat, id, kind, content) => {
            Some((
                seat,
                What::Shell(message(alloc, "shell", kind, id, content)?),
            ))
        }
        Step::Control(seat, id, kind, content) => {
            Some((
                seat,
                What::Control(message(alloc, "control", kind, id, content)?),
            ))
        }
        Step::Line(seat, text) => Some((seat, line(alloc, text)?)),
        Step::Join(seat) => Some((seat, What::Join)),
        Step::Leave(seat) => Some((seat, What::Leave)),
        _ => None,
    })
}

/// Takes one step.
fn act<L: Language>(
    rt: &impl Abort,
    alloc: Global,
    kernel: &mut Kernel<L>,
    step: Step<'_>,
) -> Result<(), Fail> {
    if let Some((seat, what)) = sent(alloc, step)? {
        return take(kernel, seat, what);
    }
    match step {
        Step::Read => read_all(alloc, kernel)?,
        Step::Turns(turns, wanted) => assert_eq!(rt; kernel.work(turns), wanted),
        Step::Pends(wanted) => assert_eq!(rt; kernel.pending_marks(), wanted),
        Step::Shows(wanted) => assert_eq!(rt; shown(alloc, kernel)?.as_str(), wanted),
        Step::NoJob => assert!(rt; kernel.next_job()?.is_none()),
        Step::Rests(wanted) => assert_eq!(rt; kernel.is_at_rest(), wanted),
        Step::Ended(wanted) => assert_eq!(rt; kernel.ended(), wanted),
        _ => {}
    }
    Ok(())
}

/// Takes these steps.
pub fn go_on<L: Language>(
    rt: &impl Abort,
    alloc: Global,
    kernel: &mut Kernel<L>,
    steps: &[Step<'_>],
) -> Result<(), Fail> {
    for step in steps {
        act(rt, alloc, kernel, *step)?;
    }
    Ok(())
}

/// Plays on a kernel that has taken nothing.
pub fn play<R: AllocGlobal + Abort>(rt: &R, steps: &[Step<'_>]) -> Result<(), Fail> {
    let mut kernel: Kernel<TestLanguage> = Kernel::new(rt.alloc())?;
    go_on(rt, rt.alloc(), &mut kernel, steps)
}
