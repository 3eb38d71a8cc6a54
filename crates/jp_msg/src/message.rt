//! What a message holds.

use json_form::{Json, Shared, Text, Whole};

/// A message, read or to be written, as in "Messaging in Jupyter", version 5.4.
#[derive(Drop)]
pub struct Message {
    pub header: Header,
    /// The header of the message that this one answers, as it was read.
    pub parent_header: Json,
    pub metadata: Json,
    pub content: Content,
    pub channel: Channel,
    /// The binary parts, of which there are none.
    pub buffers: (),
}

/// What names a message. Where it was read, a missing `username`, `date` or `version` is empty.
#[derive(Drop)]
pub struct Header {
    pub msg_id: Text,
    pub session: Text,
    pub msg_type: Text,
    pub username: Text,
    pub date: Text,
    pub version: Text,
    /// The whole object, with fields that have no name here.
    pub json: Json,
}

/// The channel that a message goes by. Frontends send on the first three, and the kernel tells all of them by
/// the last.
#[derive(Clone, Copy, Debug, PartialEq, Eq)]
pub enum Channel {
    Shell,
    Control,
    Stdin,
    Iopub,
}

/// What a frontend asks, or what the kernel tells.
#[derive(Drop)]
pub enum Content {
    Request(Request),
    Output(Output),
}

/// What a frontend sends.
#[derive(Drop)]
pub enum Request {
    Execute(Execute),
    KernelInfo,
    IsComplete { code: Text },
    Complete { cursor_pos: Whole },
    Inspect,
    History,
    CommInfo,
    Interrupt,
    /// `restart` says whether the kernel starts again.
    Shutdown { restart: bool },
    /// `value` is the line.
    InputReply { value: Text },
    /// A request of another type, or on another channel.
    Other,
}

/// A cell to be run.
#[derive(Drop)]
pub struct Execute {
    /// Copies share it, as does what is shown as the cell begins.
    pub code: Shared<Text>,
    pub silent: bool,
    pub store_history: bool,
    pub user_expressions: Json,
    pub allow_stdin: bool,
    pub stop_on_error: bool,
}

/// Which request a message is.
#[derive(Clone, Copy, Debug, PartialEq, Eq)]
pub enum RequestKind {
    Execute,
    KernelInfo,
    IsComplete,
    Complete,
    Inspect,
    History,
    CommInfo,
    Interrupt,
    Shutdown,
    InputReply,
    Other,
}

/// What a kernel sends.
#[derive(Drop)]
pub enum Output {
    Status(State),
    /// A cell that begins, and its count. Copies share its text.
    ExecuteInput {
        code: Shared<Text>,
        execution_count: u64,
    },
    /// What a cell wrote. Copies share its text.
    Stream(Shared<Text>),
    Error(Failure),
    InputRequest,
    ExecuteReply(Outcome),
    KernelInfoReply,
    IsCompleteReply(Completeness),
    /// No completions, at the place of the cursor.
    CompleteReply {
        cursor_pos: Whole,
    },
    InspectReply,
    HistoryReply,
    CommInfoReply,
    InterruptReply,
    /// `restart` says whether the kernel starts again.
    ShutdownReply {
        restart: bool,
    },
}

/// What a status says of a kernel.
#[derive(Clone, Copy, Debug, PartialEq, Eq)]
pub enum State {
    Busy,
    Idle,
}

/// How a cell ended.
#[derive(Drop)]
pub enum Outcome {
    Done {
        execution_count: u64,
    },
    Failed {
        execution_count: u64,
        failure: Failure,
    },
    /// It was never begun.
    Aborted,
}

/// An error's name and its value.
#[derive(Drop)]
pub struct Failure {
    pub ename: Text,
    pub evalue: Text,
}

/// What an `is_complete` reply says of a code.
#[derive(Clone, Copy, Debug, PartialEq, Eq)]
pub enum Completeness {
    Complete,
    Incomplete,
    Invalid,
}
