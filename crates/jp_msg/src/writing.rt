//! Writing messages.

ghost use Rattle.std.specs.Prelude.{◌≡◌, false, IfOk, string_bytes};
ghost use Rattle.json_form.specs.Forms.{empty_object};
ghost use Rattle.serde_json.specs.View.{view};
ghost use Rattle.serde_json.specs.Written.{has_float};
ghost use Rattle.jp_msg.specs.Writing.{message_text, message_form, header_form, content_form, request_form, execute_form, output_form, status_form, execute_input_form, stream_form, error_form, input_request_form, execute_reply_form, done_form, failed_form, kernel_info_form, is_complete_form, complete_form, inspect_form, history_form, comm_info_form, ok_form, shutdown_form, traceback_text, channel_name, state_name};

use crate::message::{
    Channel, Completeness, Content, Execute, Failure, Header, Message, Outcome, Output, Request,
    State,
};
use json_form::{Json, Text, Whole};
use serde_json::{Value, json};
use std::alloc::{AllocError, Global};

/// The one text of a message: no space, each object's keys sorted, no line end.
#[tactic(auto, unfolding(crate::specs::Writing::message_text))]
pub fn write_message(alloc: Global, message: &Message) -> Result<String, AllocError>
    ensures { IfOk result (λ s. string_bytes s ≡ message_text message.now) }
{
    let value = message_value(alloc, message)?;
    value.to_string(alloc)
}

#[tactic(auto, unfolding(crate::specs::Writing::message_form))]
fn message_value(alloc: Global, message: &Message) -> Result<Value, AllocError>
    ensures form { IfOk result (λ v. view v ≡ message_form message.now) }
    ensures whole { IfOk result (λ v. has_float (view v) ≡ false) }
{
    let content = content_value(alloc, &message.content)?;
    let header = header_value(alloc, &message.header)?;
    json!(in alloc; {
        "buffers": [],
        "channel": message.channel.name(),
        "content": content,
        "header": header,
        "metadata": message.metadata.value(),
        "parent_header": message.parent_header.value()
    })
}

#[tactic(auto, unfolding(crate::specs::Writing::header_form))]
pub(crate) fn header_value(alloc: Global, header: &Header) -> Result<Value, AllocError>
    ensures form { IfOk result (λ v. view v ≡ header_form header.now) }
    ensures whole { IfOk result (λ v. has_float (view v) ≡ false) }
{
    json!(in alloc; {
        "date": header.date.as_str(),
        "msg_id": header.msg_id.as_str(),
        "msg_type": header.msg_type.as_str(),
        "session": header.session.as_str(),
        "username": "kernel",
        "version": "5.4"
    })
}

impl Channel {
    /// The name by which messages say it.
    #[tactic(auto, unfolding(crate::specs::Writing::channel_name))]
    pub fn name(self) -> &'static str
        ensures { result.now ≡ channel_name self }
    {
        match self {
            Channel::Shell => "shell",
            Channel::Control => "control",
            Channel::Stdin => "stdin",
            Channel::Iopub => "iopub",
        }
    }
}

#[tactic(auto, unfolding(crate::specs::Writing::content_form))]
fn content_value(alloc: Global, content: &Content) -> Result<Value, AllocError>
    ensures form { IfOk result (λ v. view v ≡ content_form content.now) }
    ensures whole { IfOk result (λ v. has_float (view v) ≡ false) }
{
    match content {
        Content::Request(request) => request_value(alloc, request),
        Content::Output(output) => output_value(alloc, output),
    }
}

#[tactic(auto, unfolding(crate::specs::Writing::request_form))]
fn request_value(alloc: Global, request: &Request) -> Result<Value, AllocError>
    ensures form { IfOk result (λ v. view v ≡ request_form request.now) }
    ensures whole { IfOk result (λ v. has_float (view v) ≡ false) }
{
    match request {
        Request::Execute(execute) => execute_value(alloc, execute),
        Request::IsComplete { code } => json!(in alloc; {"code": code.as_str()}),
        Request::Complete { cursor_pos } => json!(in alloc; {"cursor_pos": cursor_pos.value()}),
        Request::Shutdown { restart } => json!(in alloc; {"restart": *restart}),
        Request::InputReply { value } => json!(in alloc; {"value": value.as_str()}),
        Request::KernelInfo
        | Request::Inspect
        | Request::History
        | Request::CommInfo
        | Request::Interrupt
        | Request::Other => json!(in alloc; {}),
    }
}

#[tactic(auto, unfolding(crate::specs::Writing::execute_form))]
fn execute_value(alloc: Global, execute: &Execute) -> Result<Value, AllocError>
    ensures form { IfOk result (λ v. view v ≡ execute_form execute.now) }
    ensures whole { IfOk result (λ v. has_float (view v) ≡ false) }
{
    json!(in alloc; {
        "allow_stdin": execute.allow_stdin,
        "code": execute.code.value().as_str(),
        "silent": execute.silent,
        "stop_on_error": execute.stop_on_error,
        "store_history": execute.store_history,
        "user_expressions": execute.user_expressions.value()
    })
}

/// What the kernel tells, apart from its message. `Json::write` gives its text.
pub fn output_json(alloc: Global, output: &Output) -> Result<Json, AllocError>
    ensures { IfOk result (λ j. j ≡ output_form output.now) }
{
    Ok(Json::of_whole(output_value(alloc, output)?))
}

#[tactic(auto, unfolding(crate::specs::Writing::output_form))]
fn output_value(alloc: Global, output: &Output) -> Result<Value, AllocError>
    ensures form { IfOk result (λ v. view v ≡ output_form output.now) }
    ensures whole { IfOk result (λ v. has_float (view v) ≡ false) }
{
    match output {
        Output::Status(state) => status_value(alloc, *state),
        Output::ExecuteInput {
            code,
            execution_count,
        } => execute_input_value(alloc, code.value(), *execution_count),
        Output::Stream(text) => stream_value(alloc, text.value()),
        Output::Error(failure) => error_value(alloc, failure),
        Output::InputRequest => input_request_value(alloc),
        Output::ExecuteReply(outcome) => execute_reply_value(alloc, outcome),
        Output::KernelInfoReply => kernel_info_value(alloc),
        Output::IsCompleteReply(answer) => is_complete_value(alloc, *answer),
        Output::CompleteReply { cursor_pos } => complete_value(alloc, *cursor_pos),
        Output::InspectReply => inspect_value(alloc),
        Output::HistoryReply => history_value(alloc),
        Output::CommInfoReply => comm_info_value(alloc),
        Output::InterruptReply => ok_value(alloc),
        Output::ShutdownReply { restart } => shutdown_value(alloc, *restart),
    }
}

#[tactic(auto, unfolding(crate::specs::Writing::status_form))]
fn status_value(alloc: Global, state: State) -> Result<Value, AllocError>
    ensures form { IfOk result (λ v. view v ≡ status_form state) }
    ensures whole { IfOk result (λ v. has_float (view v) ≡ false) }
{
    json!(in alloc; {"execution_state": state_text(state)})
}

#[tactic(auto, unfolding(crate::specs::Writing::state_name))]
fn state_text(state: State) -> &'static str
    ensures { result.now ≡ state_name state }
{
    match state {
        State::Busy => "busy",
        State::Idle => "idle",
    }
}

#[tactic(auto, unfolding(crate::specs::Writing::execute_input_form))]
fn execute_input_value(alloc: Global, code: &Text, count: u64) -> Result<Value, AllocError>
    ensures form { IfOk result (λ v. view v ≡ execute_input_form code.now count) }
    ensures whole { IfOk result (λ v. has_float (view v) ≡ false) }
{
    json!(in alloc; {"code": code.as_str(), "execution_count": count})
}

#[tactic(auto, unfolding(crate::specs::Writing::stream_form))]
fn stream_value(alloc: Global, text: &Text) -> Result<Value, AllocError>
    ensures form { IfOk result (λ v. view v ≡ stream_form text.now) }
    ensures whole { IfOk result (λ v. has_float (view v) ≡ false) }
{
    json!(in alloc; {"name": "stdout", "text": text.as_str()})
}

#[tactic(auto, unfolding(crate::specs::Writing::error_form))]
fn error_value(alloc: Global, failure: &Failure) -> Result<Value, AllocError>
    ensures form { IfOk result (λ v. view v ≡ error_form failure.now) }
    ensures whole { IfOk result (λ v. has_float (view v) ≡ false) }
{
    let trace = traceback(alloc, failure)?;
    json!(in alloc; {
        "ename": failure.ename.as_str(),
        "evalue": failure.evalue.as_str(),
        "traceback": [trace.as_str()]
    })
}

/// The one line of a traceback.
#[tactic(auto, unfolding(crate::specs::Writing::traceback_text))]
fn traceback(alloc: Global, failure: &Failure) -> Result<String, AllocError>
    ensures { IfOk result (λ s. string_bytes s ≡ traceback_text failure.now) }
{
    let mut line = String::from_str(alloc, failure.ename.as_str())?;
    if !failure.evalue.as_str().is_empty() {
        line.push_str(": ")?;
        line.push_str(failure.evalue.as_str())?;
    }
    Ok(line)
}

#[tactic(auto, unfolding(crate::specs::Writing::input_request_form))]
fn input_request_value(alloc: Global) -> Result<Value, AllocError>
    ensures form { IfOk result (λ v. view v ≡ input_request_form) }
    ensures whole { IfOk result (λ v. has_float (view v) ≡ false) }
{
    json!(in alloc; {"password": false, "prompt": ""})
}

#[tactic(auto, unfolding(crate::specs::Writing::execute_reply_form))]
fn execute_reply_value(alloc: Global, outcome: &Outcome) -> Result<Value, AllocError>
    ensures form { IfOk result (λ v. view v ≡ execute_reply_form outcome.now) }
    ensures whole { IfOk result (λ v. has_float (view v) ≡ false) }
{
    match outcome {
        Outcome::Done { execution_count } => done_value(alloc, *execution_count),
        Outcome::Failed {
            execution_count,
            failure,
        } => failed_value(alloc, *execution_count, failure),
        Outcome::Aborted => json!(in alloc; {"status": "aborted"}),
    }
}

#[tactic(auto, unfolding(crate::specs::Writing::done_form))]
fn done_value(alloc: Global, count: u64) -> Result<Value, AllocError>
    ensures form { IfOk result (λ v. view v ≡ done_form count) }
    ensures whole { IfOk result (λ v. has_float (view v) ≡ false) }
{
    json!(in alloc; {
        "execution_count": count,
        "payload": [],
        "status": "ok",
        "user_expressions": {}
    })
}

#[tactic(auto, unfolding(crate::specs::Writing::failed_form))]
fn failed_value(alloc: Global, count: u64, failure: &Failure) -> Result<Value, AllocError>
    ensures form { IfOk result (λ v. view v ≡ failed_form count failure.now) }
    ensures whole { IfOk result (λ v. has_float (view v) ≡ false) }
{
    let trace = traceback(alloc, failure)?;
    json!(in alloc; {
        "ename": failure.ename.as_str(),
        "evalue": failure.evalue.as_str(),
        "execution_count": count,
        "status": "error",
        "traceback": [trace.as_str()]
    })
}

#[tactic(auto, unfolding(crate::specs::Writing::kernel_info_form))]
fn kernel_info_value(alloc: Global) -> Result<Value, AllocError>
    ensures form { IfOk result (λ v. view v ≡ kernel_info_form) }
    ensures whole { IfOk result (λ v. has_float (view v) ≡ false) }
{
    json!(in alloc; {
        "banner": "Oberon-07",
        "implementation": "jupyter_oberon",
        "implementation_version": "1.0.0",
        "language_info": {
            "file_extension": ".Mod",
            "mimetype": "text/x-oberon",
            "name": "oberon",
            "version": "07"
        },
        "protocol_version": "5.4",
        "status": "ok"
    })
}

#[tactic(auto, unfolding(crate::specs::Writing::is_complete_form))]
fn is_complete_value(alloc: Global, answer: Completeness) -> Result<Value, AllocError>
    ensures form { IfOk result (λ v. view v ≡ is_complete_form answer) }
    ensures whole { IfOk result (λ v. has_float (view v) ≡ false) }
{
    match answer {
        Completeness::Complete => json!(in alloc; {"status": "complete"}),
        Completeness::Incomplete => json!(in alloc; {"indent": "", "status": "incomplete"}),
        Completeness::Invalid => json!(in alloc; {"status": "invalid"}),
    }
}

#[tactic(auto, unfolding(crate::specs::Writing::complete_form))]
fn complete_value(alloc: Global, cursor: Whole) -> Result<Value, AllocError>
    ensures form { IfOk result (λ v. view v ≡ complete_form cursor) }
    ensures whole { IfOk result (λ v. has_float (view v) ≡ false) }
{
    json!(in alloc; {
        "cursor_end": cursor.value(),
        "cursor_start": cursor.value(),
        "matches": [],
        "metadata": {},
        "status": "ok"
    })
}

#[tactic(auto, unfolding(crate::specs::Writing::inspect_form))]
fn inspect_value(alloc: Global) -> Result<Value, AllocError>
    ensures form { IfOk result (λ v. view v ≡ inspect_form) }
    ensures whole { IfOk result (λ v. has_float (view v) ≡ false) }
{
    json!(in alloc; {"data": {}, "found": false, "metadata": {}, "status": "ok"})
}

#[tactic(auto, unfolding(crate::specs::Writing::history_form))]
fn history_value(alloc: Global) -> Result<Value, AllocError>
    ensures form { IfOk result (λ v. view v ≡ history_form) }
    ensures whole { IfOk result (λ v. has_float (view v) ≡ false) }
{
    json!(in alloc; {"history": [], "status": "ok"})
}

#[tactic(auto, unfolding(crate::specs::Writing::comm_info_form))]
fn comm_info_value(alloc: Global) -> Result<Value, AllocError>
    ensures form { IfOk result (λ v. view v ≡ comm_info_form) }
    ensures whole { IfOk result (λ v. has_float (view v) ≡ false) }
{
    json!(in alloc; {"comms": {}, "status": "ok"})
}

#[tactic(auto, unfolding(crate::specs::Writing::ok_form))]
fn ok_value(alloc: Global) -> Result<Value, AllocError>
    ensures form { IfOk result (λ v. view v ≡ ok_form) }
    ensures whole { IfOk result (λ v. has_float (view v) ≡ false) }
{
    json!(in alloc; {"status": "ok"})
}

#[tactic(auto, unfolding(crate::specs::Writing::shutdown_form))]
fn shutdown_value(alloc: Global, restart: bool) -> Result<Value, AllocError>
    ensures form { IfOk result (λ v. view v ≡ shutdown_form restart) }
    ensures whole { IfOk result (λ v. has_float (view v) ≡ false) }
{
    json!(in alloc; {"restart": restart, "status": "ok"})
}
