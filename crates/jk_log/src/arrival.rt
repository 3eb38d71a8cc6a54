//! What seats send.

ghost use Rattle.std.specs.Prelude.{◌≡◌, option_copied};
ghost use Rattle.jk_log.specs.Asked.{content_sort, control_sort, execute_in, input_in, message_execute, message_input, message_query, query_in, shell_sort, sort_as, stdin_sort};

use jp_msg::{Content, Execute, Message, Request};
use json_form::{Shared, Text};

/// What a seat sent: that a connection begins or ends, or a message on a channel.
#[derive(Drop)]
pub enum What {
    Join,
    Leave,
    Shell(Shared<Message>),
    Control(Shared<Message>),
    Stdin(Shared<Message>),
}

/// What a seat (0 to 7) sent, as its arrival of this number, from 1.
#[derive(Drop)]
pub struct Arrival {
    pub seat: u8,
    pub number: u64,
    pub what: What,
}

/// What has to be done for an arrival.
#[derive(Clone, Copy)]
pub enum Sort {
    Join,
    Leave,
    /// It waits until its cell is begun.
    Execute,
    /// It waits, and is answered without a cell.
    Query,
    /// It is the line of the cell that asks its seat.
    Input,
    Interrupt,
    /// It is answered at once.
    KernelInfo,
    Shutdown { restart: bool },
    /// Nothing: it is dropped.
    Other,
}

/// What has to be done for an arrival.
pub fn sort_of(what: &What) -> Sort
    ensures { result ≡ sort_as what.now }
{
    match what {
        What::Join => Sort::Join,
        What::Leave => Sort::Leave,
        What::Shell(message) => on_shell(message.value()),
        What::Control(message) => on_control(message.value()),
        What::Stdin(message) => on_stdin(message.value()),
    }
}

/// What a message on the shell channel asks.
fn on_shell(message: &Message) -> Sort
    ensures { result ≡ content_sort shell_sort message.now.content }
{
    match &message.content {
        Content::Request(request) => match request {
            Request::Execute(_) => Sort::Execute,
            Request::KernelInfo
            | Request::IsComplete { .. }
            | Request::Complete { .. }
            | Request::Inspect
            | Request::History
            | Request::CommInfo => Sort::Query,
            Request::Interrupt
            | Request::Shutdown { .. }
            | Request::InputReply { .. }
            | Request::Other => Sort::Other,
        },
        Content::Output(_) => Sort::Other,
    }
}

/// What a message on the control channel asks.
fn on_control(message: &Message) -> Sort
    ensures { result ≡ content_sort control_sort message.now.content }
{
    match &message.content {
        Content::Request(request) => match request {
            Request::Interrupt => Sort::Interrupt,
            Request::KernelInfo => Sort::KernelInfo,
            Request::Shutdown { restart } => Sort::Shutdown { restart: *restart },
            Request::Execute(_)
            | Request::IsComplete { .. }
            | Request::Complete { .. }
            | Request::Inspect
            | Request::History
            | Request::CommInfo
            | Request::InputReply { .. }
            | Request::Other => Sort::Other,
        },
        Content::Output(_) => Sort::Other,
    }
}

/// What a message on the stdin channel asks.
fn on_stdin(message: &Message) -> Sort
    ensures { result ≡ content_sort stdin_sort message.now.content }
{
    match &message.content {
        Content::Request(request) => match request {
            Request::InputReply { .. } => Sort::Input,
            Request::Execute(_)
            | Request::KernelInfo
            | Request::IsComplete { .. }
            | Request::Complete { .. }
            | Request::Inspect
            | Request::History
            | Request::CommInfo
            | Request::Interrupt
            | Request::Shutdown { .. }
            | Request::Other => Sort::Other,
        },
        Content::Output(_) => Sort::Other,
    }
}

/// The execute request that an arrival is.
pub fn execute_sent(what: &What) -> Option<&Execute>
    ensures { option_copied result ≡ execute_in what.now }
{
    match what {
        What::Shell(message) => execute_of(message.value()),
        What::Join | What::Leave | What::Control(_) | What::Stdin(_) => None,
    }
}

/// The line that an arrival is.
pub fn input_sent(what: &What) -> Option<&Text>
    ensures { option_copied result ≡ input_in what.now }
{
    match what {
        What::Stdin(message) => input_of(message.value()),
        What::Join | What::Leave | What::Shell(_) | What::Control(_) => None,
    }
}

/// The line in a message.
fn input_of(message: &Message) -> Option<&Text>
    ensures { option_copied result ≡ message_input message.now }
{
    match &message.content {
        Content::Request(request) => match request {
            Request::InputReply { value } => Some(value),
            Request::Execute(_)
            | Request::KernelInfo
            | Request::IsComplete { .. }
            | Request::Complete { .. }
            | Request::Inspect
            | Request::History
            | Request::CommInfo
            | Request::Interrupt
            | Request::Shutdown { .. }
            | Request::Other => None,
        },
        Content::Output(_) => None,
    }
}

/// The execute request in a message.
pub(crate) fn execute_of(message: &Message) -> Option<&Execute>
    ensures { option_copied result ≡ message_execute message.now }
{
    match &message.content {
        Content::Request(request) => match request {
            Request::Execute(execute) => Some(execute),
            Request::KernelInfo
            | Request::IsComplete { .. }
            | Request::Complete { .. }
            | Request::Inspect
            | Request::History
            | Request::CommInfo
            | Request::Interrupt
            | Request::Shutdown { .. }
            | Request::InputReply { .. }
            | Request::Other => None,
        },
        Content::Output(_) => None,
    }
}

/// The request that an arrival is which waits and is no cell.
pub(crate) fn query_sent(what: &What) -> Option<&Request>
    ensures { option_copied result ≡ query_in what.now }
{
    match what {
        What::Shell(message) => query_of(message.value()),
        What::Join | What::Leave | What::Control(_) | What::Stdin(_) => None,
    }
}

/// The request in a message that waits on the shell channel and is no cell.
pub(crate) fn query_of(message: &Message) -> Option<&Request>
    ensures { option_copied result ≡ message_query message.now }
{
    match &message.content {
        Content::Request(request) => match request {
            Request::KernelInfo
            | Request::IsComplete { .. }
            | Request::Complete { .. }
            | Request::Inspect
            | Request::History
            | Request::CommInfo => Some(request),
            Request::Execute(_)
            | Request::Interrupt
            | Request::Shutdown { .. }
            | Request::InputReply { .. }
            | Request::Other => None,
        },
        Content::Output(_) => None,
    }
}
