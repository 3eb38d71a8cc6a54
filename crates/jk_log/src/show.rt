//! The entries that a mark shows.

ghost use Rattle.std.specs.Prelude.{◌≡◌, ◌++◌, ◌∷◌, [], OnOk, if◌then◌else◌};
ghost use Rattle.jk_log.specs.Render.{answer_shown, answered, begun, control_shown, ended, entries_of, execute_shown, failed, noticed, query_shown, replied, shown_of, told};

use crate::arrival::{Arrival, What, execute_of, query_of};
use crate::entry::{Entry, To, Told};
use crate::failure::{of_cause, of_refusal, of_trap};
use crate::mark::{Cause, Ending, Kind};
use crate::query::reply_of;
use jp_msg::{Channel, Completeness, Execute, Failure, Message, Outcome, Output, Request, State};
use json_form::Shared;
use std::alloc::AllocError;

/// Adds an entry for this request.
fn add(
    entries: &mut Vec<Entry>,
    to: To,
    channel: Channel,
    parent: &Shared<Message>,
    output: Output,
) -> Result<(), AllocError>
    ensures { OnOk result (entries.new.items ≡ entries.old.items ++ told to channel parent.now output ∷ []) }
{
    let parent = Some(parent.another()?);
    let content = Told::Output(output);
    entries.push(Entry {
        to,
        channel,
        parent,
        content,
    })?;
    Ok(())
}

/// Adds an entry to all.
fn add_iopub(
    entries: &mut Vec<Entry>,
    parent: &Shared<Message>,
    output: Output,
) -> Result<(), AllocError>
    ensures { OnOk result (entries.new.items ≡ entries.old.items ++ told To.All Channel.Iopub parent.now output ∷ []) }
{
    add(entries, To::All, Channel::Iopub, parent, output)
}

/// Adds the reply to the asker, and idle.
fn add_reply(
    entries: &mut Vec<Entry>,
    seat: u8,
    channel: Channel,
    parent: &Shared<Message>,
    output: Output,
) -> Result<(), AllocError>
    ensures { OnOk result (entries.new.items ≡ entries.old.items ++ replied seat channel parent.now output) }
{
    add(entries, To::Seat(seat), channel, parent, output)?;
    add_iopub(entries, parent, Output::Status(State::Idle))
}

/// Adds an error where the request is not silent, the reply and idle.
fn add_failed(
    entries: &mut Vec<Entry>,
    seat: u8,
    parent: &Shared<Message>,
    silent: bool,
    failure: Failure,
    count: u64,
) -> Result<(), AllocError>
    ensures { OnOk result (entries.new.items ≡ entries.old.items ++ failed seat parent.now silent failure count) }
{
    if !silent {
        add_iopub(entries, parent, Output::Error(failure.copy()?))?;
    }
    let execution_count = count;
    let outcome = Outcome::Failed {
        execution_count,
        failure,
    };
    add_reply(
        entries,
        seat,
        Channel::Shell,
        parent,
        Output::ExecuteReply(outcome),
    )
}

/// Adds what the end of a cell shows.
fn add_ended(
    entries: &mut Vec<Entry>,
    seat: u8,
    parent: &Shared<Message>,
    silent: bool,
    ending: &Ending,
    count: u64,
) -> Result<(), AllocError>
    ensures { OnOk result (entries.new.items ≡ entries.old.items ++ ended seat parent.now silent ending.now count) }
{
    let alloc = *entries.allocator();
    match ending {
        Ending::Completed => {
            add_reply(
                entries,
                seat,
                Channel::Shell,
                parent,
                Output::done_reply(count),
            )
        }
        Ending::Trapped(trap) => {
            let failure = of_trap(alloc, trap)?;
            add_failed(entries, seat, parent, silent, failure, count)
        }
        Ending::Refused(refusal) => {
            let failure = of_refusal(alloc, refusal)?;
            add_failed(entries, seat, parent, silent, failure, count)
        }
    }
}

/// Adds what the beginning of a cell shows.
fn add_begun(
    entries: &mut Vec<Entry>,
    parent: &Shared<Message>,
    execute: &Execute,
    count: u64,
) -> Result<(), AllocError>
    ensures { OnOk result (entries.new.items ≡ entries.old.items ++ begun parent.now execute.now count) }
{
    add_iopub(entries, parent, Output::Status(State::Busy))?;
    if execute.silent {
        return Ok(());
    }
    let code = execute.code.another()?;
    let execution_count = count;
    let input = Output::ExecuteInput {
        code,
        execution_count,
    };
    add_iopub(entries, parent, input)
}

/// Adds what a mark shows of an execute request.
fn add_shown(
    entries: &mut Vec<Entry>,
    seat: u8,
    kind: &Kind,
    parent: &Shared<Message>,
    execute: &Execute,
) -> Result<(), AllocError>
    ensures { OnOk result (entries.new.items ≡ entries.old.items ++ shown_of seat kind.now parent.now execute.now) }
{
    let alloc = *entries.allocator();
    match kind {
        Kind::Join
        | Kind::Leave
        | Kind::Line { .. }
        | Kind::Answer { .. }
        | Kind::Interrupt
        | Kind::KernelInfo
        | Kind::Restart { .. } => Ok(()),
        Kind::Ask => add(
            entries,
            To::Seat(seat),
            Channel::Stdin,
            parent,
            Output::InputRequest,
        ),
        Kind::Abort => {
            add_iopub(entries, parent, Output::Status(State::Busy))?;
            let reply = Output::aborted_reply();
            add_reply(entries, seat, Channel::Shell, parent, reply)
        }
        Kind::Begin { count } => add_begun(entries, parent, execute, *count),
        Kind::Flush { turns: _, text } => {
            if execute.silent || text.as_str().is_empty() {
                return Ok(());
            }
            let output = Output::Stream(text.shared(alloc)?);
            add_iopub(entries, parent, output)
        }
        Kind::End { ending, count } => {
            add_ended(entries, seat, parent, execute.silent, ending, *count)
        }
        Kind::Stop {
            turns: _,
            cause,
            count,
        } => {
            let failure = of_cause(alloc, *cause)?;
            add_failed(entries, seat, parent, execute.silent, failure, *count)
        }
        Kind::Refuse { count } => {
            add_iopub(entries, parent, Output::Status(State::Busy))?;
            let failure = of_cause(alloc, Cause::Memory)?;
            let execution_count = *count;
            let reply = Output::ExecuteReply(Outcome::Failed {
                execution_count,
                failure,
            });
            add_reply(entries, seat, Channel::Shell, parent, reply)
        }
    }
}

/// Adds busy, the reply to the asker, and idle.
fn add_answered(
    entries: &mut Vec<Entry>,
    seat: u8,
    channel: Channel,
    parent: &Shared<Message>,
    output: Output,
) -> Result<(), AllocError>
    ensures { OnOk result (entries.new.items ≡ entries.old.items ++ answered seat channel parent.now output) }
{
    add_iopub(entries, parent, Output::Status(State::Busy))?;
    add_reply(entries, seat, channel, parent, output)
}

/// Adds what an answer shows of a request that is no cell.
fn add_answer(
    entries: &mut Vec<Entry>,
    seat: u8,
    status: Option<Completeness>,
    parent: &Shared<Message>,
    request: &Request,
) -> Result<(), AllocError>
    ensures { OnOk result (entries.new.items ≡ entries.old.items ++ answer_shown seat status parent.now request.now) }
{
    match reply_of(request, status) {
        Some(output) => add_answered(entries, seat, Channel::Shell, parent, output),
        None => Ok(()),
    }
}

/// Adds what an answer shows of what arrived.
fn add_query(
    entries: &mut Vec<Entry>,
    seat: u8,
    status: Option<Completeness>,
    what: &What,
) -> Result<(), AllocError>
    ensures { OnOk result (entries.new.items ≡ entries.old.items ++ query_shown seat status what.now) }
{
    match what {
        What::Shell(message) => match query_of(message.value()) {
            Some(request) => add_answer(entries, seat, status, message, request),
            None => Ok(()),
        },
        What::Join | What::Leave | What::Control(_) | What::Stdin(_) => Ok(()),
    }
}

/// Adds what the answer of a control request shows.
fn add_control(
    entries: &mut Vec<Entry>,
    seat: u8,
    output: Output,
    what: &What,
) -> Result<(), AllocError>
    ensures { OnOk result (entries.new.items ≡ entries.old.items ++ control_shown seat output what.now) }
{
    match what {
        What::Control(message) => add_answered(entries, seat, Channel::Control, message, output),
        What::Join | What::Leave | What::Shell(_) | What::Stdin(_) => Ok(()),
    }
}

/// Adds what a mark shows of the execute request that arrived.
fn add_execute(
    entries: &mut Vec<Entry>,
    seat: u8,
    kind: &Kind,
    what: &What,
) -> Result<(), AllocError>
    ensures { OnOk result (entries.new.items ≡ entries.old.items ++ execute_shown seat kind.now what.now) }
{
    match what {
        What::Shell(message) => match execute_of(message.value()) {
            Some(execute) => add_shown(entries, seat, kind, message, execute),
            None => Ok(()),
        },
        What::Join | What::Leave | What::Control(_) | What::Stdin(_) => Ok(()),
    }
}

/// Adds an entry to nobody.
fn add_told(entries: &mut Vec<Entry>, content: Told) -> Result<(), AllocError>
    ensures { OnOk result (entries.new.items ≡ entries.old.items ++ noticed content ∷ []) }
{
    entries.push(Entry {
        to: To::Nobody,
        channel: Channel::Iopub,
        parent: None,
        content,
    })?;
    Ok(())
}

/// Adds the entries of a mark for this arrival. Where memory is refused some of them may have been added.
pub fn add_entries(
    entries: &mut Vec<Entry>,
    kind: &Kind,
    arrival: &Arrival,
) -> Result<(), AllocError>
    ensures { OnOk result (entries.new.items ≡ entries.old.items ++ entries_of kind.now arrival.now) }
{
    let (seat, number) = (arrival.seat, arrival.number);
    let what = &arrival.what;
    match kind {
        Kind::Join => add_told(entries, Told::Joined { seat, number }),
        Kind::Leave => add_told(entries, Told::Left { seat, number }),
        Kind::Answer { status } => add_query(entries, seat, *status, what),
        Kind::Interrupt => add_control(entries, seat, Output::InterruptReply, what),
        Kind::KernelInfo => add_control(entries, seat, Output::KernelInfoReply, what),
        Kind::Restart { restart } => {
            let restart = *restart;
            add_control(entries, seat, Output::ShutdownReply { restart }, what)
        }
        Kind::Begin { .. }
        | Kind::Flush { .. }
        | Kind::Ask
        | Kind::Line { .. }
        | Kind::End { .. }
        | Kind::Stop { .. }
        | Kind::Refuse { .. }
        | Kind::Abort => add_execute(entries, seat, kind, what),
    }
}
