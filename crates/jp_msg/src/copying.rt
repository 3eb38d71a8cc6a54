//! Copies, which are equal to what they were made of.

ghost use Rattle.std.specs.Prelude.{◌≡◌, IfOk};

use crate::message::{Content, Execute, Failure, Header, Message, Outcome, Output, Request};
use std::alloc::AllocError;

impl Message {
    /// An equal value.
    pub fn copy(&self) -> Result<Message, AllocError>
        ensures { IfOk result (λ m. m ≡ self.now) }
    {
        Ok(Message {
            header: self.header.copy()?,
            parent_header: self.parent_header.copy()?,
            metadata: self.metadata.copy()?,
            content: self.content.copy()?,
            channel: self.channel,
            buffers: self.buffers,
        })
    }
}

impl Header {
    /// An equal value.
    pub fn copy(&self) -> Result<Header, AllocError>
        ensures { IfOk result (λ h. h ≡ self.now) }
    {
        Ok(Header {
            msg_id: self.msg_id.copy()?,
            session: self.session.copy()?,
            msg_type: self.msg_type.copy()?,
            username: self.username.copy()?,
            date: self.date.copy()?,
            version: self.version.copy()?,
            json: self.json.copy()?,
        })
    }
}

impl Content {
    /// An equal value.
    pub fn copy(&self) -> Result<Content, AllocError>
        ensures { IfOk result (λ c. c ≡ self.now) }
    {
        match self {
            Content::Request(request) => Ok(Content::Request(request.copy()?)),
            Content::Output(output) => Ok(Content::Output(output.copy()?)),
        }
    }
}

impl Request {
    /// An equal value.
    pub fn copy(&self) -> Result<Request, AllocError>
        ensures { IfOk result (λ r. r ≡ self.now) }
    {
        match self {
            Request::Execute(execute) => Ok(Request::Execute(execute.copy()?)),
            Request::KernelInfo => Ok(Request::KernelInfo),
            Request::IsComplete { code } => Ok(Request::IsComplete { code: code.copy()? }),
            Request::Complete { cursor_pos } => Ok(Request::Complete {
                cursor_pos: *cursor_pos,
            }),
            Request::Inspect => Ok(Request::Inspect),
            Request::History => Ok(Request::History),
            Request::CommInfo => Ok(Request::CommInfo),
            Request::Interrupt => Ok(Request::Interrupt),
            Request::Shutdown { restart } => Ok(Request::Shutdown { restart: *restart }),
            Request::InputReply { value } => Ok(Request::InputReply {
                value: value.copy()?,
            }),
            Request::Other => Ok(Request::Other),
        }
    }
}

impl Execute {
    /// An equal value.
    pub fn copy(&self) -> Result<Execute, AllocError>
        ensures { IfOk result (λ e. e ≡ self.now) }
    {
        Ok(Execute {
            code: self.code.another()?,
            silent: self.silent,
            store_history: self.store_history,
            user_expressions: self.user_expressions.copy()?,
            allow_stdin: self.allow_stdin,
            stop_on_error: self.stop_on_error,
        })
    }
}

impl Output {
    /// An equal value.
    pub fn copy(&self) -> Result<Output, AllocError>
        ensures { IfOk result (λ o. o ≡ self.now) }
    {
        match self {
            Output::Status(state) => Ok(Output::Status(*state)),
            Output::ExecuteInput {
                code,
                execution_count,
            } => Ok(Output::ExecuteInput {
                code: code.another()?,
                execution_count: *execution_count,
            }),
            Output::Stream(text) => Ok(Output::Stream(text.another()?)),
            Output::Error(failure) => Ok(Output::Error(failure.copy()?)),
            Output::InputRequest => Ok(Output::InputRequest),
            Output::ExecuteReply(outcome) => Ok(Output::ExecuteReply(outcome.copy()?)),
            Output::KernelInfoReply => Ok(Output::KernelInfoReply),
            Output::IsCompleteReply(answer) => Ok(Output::IsCompleteReply(*answer)),
            Output::CompleteReply { cursor_pos } => Ok(Output::CompleteReply {
                cursor_pos: *cursor_pos,
            }),
            Output::InspectReply => Ok(Output::InspectReply),
            Output::HistoryReply => Ok(Output::HistoryReply),
            Output::CommInfoReply => Ok(Output::CommInfoReply),
            Output::InterruptReply => Ok(Output::InterruptReply),
            Output::ShutdownReply { restart } => Ok(Output::ShutdownReply { restart: *restart }),
        }
    }
}

impl Outcome {
    /// An equal value.
    pub fn copy(&self) -> Result<Outcome, AllocError>
        ensures { IfOk result (λ o. o ≡ self.now) }
    {
        match self {
            Outcome::Done { execution_count } => Ok(Outcome::Done {
                execution_count: *execution_count,
            }),
            Outcome::Failed {
                execution_count,
                failure,
            } => Ok(Outcome::Failed {
                execution_count: *execution_count,
                failure: failure.copy()?,
            }),
            Outcome::Aborted => Ok(Outcome::Aborted),
        }
    }
}

impl Failure {
    /// An equal value.
    pub fn copy(&self) -> Result<Failure, AllocError>
        ensures { IfOk result (λ f. f ≡ self.now) }
    {
        Ok(Failure {
            ename: self.ename.copy()?,
            evalue: self.evalue.copy()?,
        })
    }
}
