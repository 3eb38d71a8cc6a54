//! What a kernel takes and shows.

use jk_core::Kernel;
use jk_language::Language;
use jk_log::{Arrival, Entry, To, Told, What};
use jp_msg::{Completeness, Message, Outcome, Output, State, read_message};
use json_form::Shared;
use std::alloc::Global;
use std::test::Fail;

/// The message that a text says.
pub fn request(alloc: Global, text: &str) -> Result<Shared<Message>, Fail> {
    let message = read_message(alloc, text)?;
    Ok(Shared::share(alloc, message)?)
}

/// Takes what a seat sends.
pub fn take<L: Language>(kernel: &mut Kernel<L>, seat: u8, what: What) -> Result<(), Fail> {
    let number = 1;
    kernel.take(Arrival { seat, number, what })?;
    Ok(())
}

/// Reads every text that waits.
pub fn read_all<L: Language>(alloc: Global, kernel: &mut Kernel<L>) -> Result<(), Fail> {
    for _ in 0..8 {
        if let Some(job) = kernel.next_job()? {
            let _ = kernel.parsed(job.parse(alloc));
        }
    }
    Ok(())
}

/// What kind of output this is.
fn word(output: &Output) -> &'static str {
    match output {
        Output::Status(State::Busy) => "busy",
        Output::Status(State::Idle) => "idle",
        Output::ExecuteInput { .. } => "input",
        Output::Stream(_) => "stream",
        Output::Error(_) => "error",
        Output::ExecuteReply(Outcome::Done { .. }) => "ok",
        Output::ExecuteReply(Outcome::Failed { .. }) => "err",
        Output::ExecuteReply(Outcome::Aborted) => "aborted",
        Output::InterruptReply => "interrupt_reply",
        Output::InputRequest => "input_request",
        Output::KernelInfoReply => "kernel_info_reply",
        Output::IsCompleteReply(Completeness::Complete) => "complete",
        Output::IsCompleteReply(Completeness::Incomplete) => "incomplete",
        Output::IsCompleteReply(Completeness::Invalid) => "invalid",
        Output::CompleteReply { .. } => "complete_reply",
        Output::InspectReply => "inspect_reply",
        Output::HistoryReply => "history_reply",
        Output::CommInfoReply => "comm_info_reply",
        Output::ShutdownReply { restart: true } => "shutdown_reply restart",
        Output::ShutdownReply { restart: false } => "shutdown_reply",
    }
}

/// The counts, texts and names that it tells, each after a blank.
fn details(alloc: Global, output: &Output) -> Result<String, Fail> {
    Ok(match output {
        Output::ExecuteInput {
            code: _,
            execution_count: count,
        } => format!(in alloc; " {count}")?,
        Output::ExecuteReply(
            Outcome::Done {
                execution_count: count,
            },
        ) => format!(in alloc; " {count}")?,
        Output::CompleteReply { cursor_pos: cursor } => {
            let cursor = cursor.number();
            format!(in alloc; " {cursor}")?
        }
        Output::Stream(written) => {
            let written = written.value().as_str();
            format!(in alloc; " {written}")?
        }
        Output::Error(failure) => {
            let ename = failure.ename.as_str();
            let evalue = failure.evalue.as_str();
            format!(in alloc; " {ename}: {evalue}")?
        }
        Output::ExecuteReply(
            Outcome::Failed {
                execution_count: count,
                failure,
            },
        ) => {
            let ename = failure.ename.as_str();
            format!(in alloc; " {count} {ename}")?
        }
        _ => String::new(alloc),
    })
}

/// What an output tells, but for the message that it is for.
fn output_told(alloc: Global, output: &Output) -> Result<String, Fail> {
    let mut text = details(alloc, output)?;
    text.insert_str(0, word(output))?;
    Ok(text)
}

fn add_told(alloc: Global, text: &mut String, entry: &Entry) -> Result<(), Fail> {
    let parent = match &entry.parent {
        Some(message) => {
            let id = message.value().header.msg_id.as_str();
            format!(in alloc; " for {id}")?
        }
        None => String::new(alloc),
    };
    let to = match entry.to {
        To::All => String::new(alloc),
        To::Seat(seat) => format!(in alloc; " to {seat}")?,
        To::Nobody => format!(in alloc; " to nobody")?,
    };
    let told = match &entry.content {
        Told::Joined { seat, number } => format!(in alloc; "joined {seat} {number}")?,
        Told::Left { seat, number } => format!(in alloc; "left {seat} {number}")?,
        Told::Output(output) => output_told(alloc, output)?,
    };
    if !text.is_empty() {
        text.push_str(", ")?;
    }
    for part in [told.as_str(), parent.as_str(), to.as_str()] {
        text.push_str(part)?;
    }
    Ok(())
}

/// What is pending, entry by entry: what it tells, for which message, and to which seat where it does not go to all.
pub fn shown<L: Language>(alloc: Global, kernel: &mut Kernel<L>) -> Result<String, Fail> {
    let mut text = String::new(alloc);
    let marks = kernel.pending_marks();
    for entry in &kernel.take_pending(marks)? {
        add_told(alloc, &mut text, &entry.copy()?)?;
    }
    Ok(text)
}
