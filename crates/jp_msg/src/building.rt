//! Making messages.

ghost use Rattle.std.specs.Prelude.{◌≡◌, IfOk};
ghost use Rattle.jp_msg.specs.Building.{kernel_header, kernel_message, output_type};
ghost use Rattle.jp_msg.specs.declared.message.Output.TheVariants.{Status, ExecuteInput, Stream, Error, InputRequest, ExecuteReply, KernelInfoReply, IsCompleteReply, CompleteReply, InspectReply, HistoryReply, CommInfoReply, InterruptReply, ShutdownReply};
ghost use Rattle.jp_msg.specs.declared.message.Outcome.TheVariants.{Done, Failed, Aborted};

use crate::message::{
    Channel, Completeness, Content, Failure, Header, Message, Outcome, Output, State,
};
use crate::writing::header_value;
use json_form::{Json, Shared, Text, Whole};
use std::alloc::{AllocError, Global};

/// A text that several may keep, of which each owner is one more count and no copy.
///
/// # Errors
///
/// Out of memory.
pub fn shared_text(alloc: Global, text: &str) -> Result<Shared<Text>, AllocError>
    ensures { IfOk result (λ t. t ≡ text.now) }
{
    match Shared::share(alloc, Text::from_str(alloc, text)?) {
        Ok(shared) => Ok(shared),
        Err(_) => Err(AllocError),
    }
}

impl Output {
    /// `status`: the kernel is busy or idle with its parent.
    pub fn status(execution_state: State) -> Output
        ensures { result ≡ Status execution_state }
    {
        Self::Status(execution_state)
    }

    /// `execute_input`: a cell that begins, with the count that then holds.
    pub fn execute_input(
        alloc: Global,
        code: &str,
        execution_count: u64,
    ) -> Result<Output, AllocError>
        ensures { IfOk result (λ o. o ≡ ExecuteInput code.now execution_count) }
    {
        Ok(Self::ExecuteInput {
            code: shared_text(alloc, code)?,
            execution_count,
        })
    }

    /// `stream`: what a cell wrote to its standard output.
    pub fn stream(alloc: Global, text: &str) -> Result<Output, AllocError>
        ensures { IfOk result (λ o. o ≡ Stream text.now) }
    {
        Ok(Self::Stream(shared_text(alloc, text)?))
    }

    /// `error`: a cell's error, whose value may be empty.
    pub fn error(alloc: Global, ename: &str, evalue: &str) -> Result<Output, AllocError>
        ensures { IfOk result (λ o. o ≡ Error (record { ename = ename.now; evalue = evalue.now })) }
    {
        Ok(Self::Error(Failure::new(alloc, ename, evalue)?))
    }

    /// `input_request`: a line is asked for, without a prompt.
    pub fn input_request() -> Output
        ensures { result ≡ InputRequest }
    {
        Self::InputRequest
    }

    /// `execute_reply` to a cell that ended well.
    pub fn done_reply(execution_count: u64) -> Output
        ensures { result ≡ ExecuteReply (Done execution_count) }
    {
        Self::ExecuteReply(Outcome::Done { execution_count })
    }

    /// `execute_reply` to a cell that ended by an error.
    pub fn failed_reply(
        alloc: Global,
        execution_count: u64,
        ename: &str,
        evalue: &str,
    ) -> Result<Output, AllocError>
        ensures { IfOk result (λ o. o
            ≡ ExecuteReply (Failed execution_count (record { ename = ename.now; evalue = evalue.now }))) }
    {
        let failure = Failure::new(alloc, ename, evalue)?;
        Ok(Self::ExecuteReply(Outcome::Failed {
            execution_count,
            failure,
        }))
    }

    /// `execute_reply` to a cell that was never begun.
    pub fn aborted_reply() -> Output
        ensures { result ≡ ExecuteReply Aborted }
    {
        Self::ExecuteReply(Outcome::Aborted)
    }

    /// `kernel_info_reply`: the kernel and its language.
    pub fn kernel_info_reply() -> Output
        ensures { result ≡ KernelInfoReply }
    {
        Self::KernelInfoReply
    }

    /// `is_complete_reply`.
    pub fn is_complete_reply(status: Completeness) -> Output
        ensures { result ≡ IsCompleteReply status }
    {
        Self::IsCompleteReply(status)
    }

    /// `complete_reply` without completions.
    pub fn complete_reply(cursor_pos: Whole) -> Output
        ensures { result ≡ CompleteReply cursor_pos }
    {
        Self::CompleteReply { cursor_pos }
    }

    /// `inspect_reply` where nothing was found.
    pub fn inspect_reply() -> Output
        ensures { result ≡ InspectReply }
    {
        Self::InspectReply
    }

    /// `history_reply` without a history.
    pub fn history_reply() -> Output
        ensures { result ≡ HistoryReply }
    {
        Self::HistoryReply
    }

    /// `comm_info_reply` without comms.
    pub fn comm_info_reply() -> Output
        ensures { result ≡ CommInfoReply }
    {
        Self::CommInfoReply
    }

    /// `interrupt_reply`.
    pub fn interrupt_reply() -> Output
        ensures { result ≡ InterruptReply }
    {
        Self::InterruptReply
    }

    /// `shutdown_reply`.
    pub fn shutdown_reply(restart: bool) -> Output
        ensures { result ≡ ShutdownReply restart }
    {
        Self::ShutdownReply { restart }
    }

    /// The type of the message that tells it.
    #[tactic(auto, unfolding(crate::specs::Building::output_type))]
    pub fn type_name(&self) -> &'static str
        ensures { result.now ≡ output_type self.now }
    {
        match self {
            Output::Status(_) => "status",
            Output::ExecuteInput { .. } => "execute_input",
            Output::Stream(_) => "stream",
            Output::Error(_) => "error",
            Output::InputRequest => "input_request",
            Output::ExecuteReply(_) => "execute_reply",
            Output::KernelInfoReply => "kernel_info_reply",
            Output::IsCompleteReply(_) => "is_complete_reply",
            Output::CompleteReply { .. } => "complete_reply",
            Output::InspectReply => "inspect_reply",
            Output::HistoryReply => "history_reply",
            Output::CommInfoReply => "comm_info_reply",
            Output::InterruptReply => "interrupt_reply",
            Output::ShutdownReply { .. } => "shutdown_reply",
        }
    }
}

impl Failure {
    /// An error's name and its value, which may be empty.
    pub fn new(alloc: Global, ename: &str, evalue: &str) -> Result<Failure, AllocError>
        ensures { IfOk result (λ f. f ≡ record { ename = ename.now; evalue = evalue.now }) }
    {
        Ok(Failure {
            ename: Text::from_str(alloc, ename)?,
            evalue: Text::from_str(alloc, evalue)?,
        })
    }
}

/// What names a message, beside its type.
#[derive(Clone, Copy)]
pub struct Stamp<'s> {
    pub msg_id: &'s str,
    pub session: &'s str,
    pub date: &'s str,
}

impl Message {
    /// A message of the kernel that answers `parent`, whose header stays as it was read. Identifier, session and
    /// date are handed in.
    #[tactic(auto, unfolding(crate::specs::Building::kernel_message))]
    pub fn of_kernel(
        alloc: Global,
        stamp: Stamp<'_>,
        parent: &Message,
        channel: Channel,
        output: Output,
    ) -> Result<Message, AllocError>
        ensures { IfOk result (λ m. m ≡ kernel_message stamp.entry.msg_id.now
            stamp.entry.session.now stamp.entry.date.now parent.now channel output) }
    {
        let header = Header::of_kernel(alloc, stamp, output.type_name())?;
        Ok(Message {
            header,
            parent_header: parent.header.json.copy()?,
            metadata: Json::empty(alloc),
            content: Content::Output(output),
            channel,
            buffers: (),
        })
    }
}

impl Header {
    #[tactic(auto, unfolding(crate::specs::Building::kernel_header))]
    fn of_kernel(alloc: Global, stamp: Stamp<'_>, msg_type: &str) -> Result<Header, AllocError>
        ensures { IfOk result (λ h. h ≡ kernel_header stamp.entry.msg_id.now
            stamp.entry.session.now stamp.entry.date.now msg_type.now) }
    {
        let mut header = Header {
            msg_id: Text::from_str(alloc, stamp.msg_id)?,
            session: Text::from_str(alloc, stamp.session)?,
            msg_type: Text::from_str(alloc, msg_type)?,
            username: Text::from_str(alloc, "kernel")?,
            date: Text::from_str(alloc, stamp.date)?,
            version: Text::from_str(alloc, "5.4")?,
            json: Json::empty(alloc),
        };
        header.json = Json::of_whole(header_value(alloc, &header)?);
        Ok(header)
    }
}
