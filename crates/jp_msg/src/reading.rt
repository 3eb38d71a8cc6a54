//! Reading messages.

ghost use Rattle.std.specs.Prelude.{◌≡◌, false, Ok, IfOk};
ghost use Rattle.json_form.specs.Forms.{Gives};
ghost use Rattle.serde_json.specs.View.{view};
ghost use Rattle.serde_json.specs.Written.{has_float};
ghost use Rattle.jp_msg.specs.TextForms.{IsMessage, IsMessageText};
ghost use Rattle.jp_msg.specs.declared.message.Message.{Message};
ghost use Rattle.jp_msg.specs.Reading.{fault_number, value_at, message_at, message_of, header_of, channel_at, channel_named, content_of, request_of, execute_of, kind_of, shell_kind, control_kind, stdin_kind};

use crate::building::shared_text;
use crate::message::{Channel, Content, Execute, Header, Message, Request, RequestKind};
use json_form::{
    Bad, Fault, Json, Text, Whole, boolean_field_or, no_items_field, object_field,
    object_field_or_empty, text_field, text_field_or, whole_field_or,
};
use serde_json::Value;
use std::alloc::Global;

/// How many bytes a message may have.
pub const MAX_MESSAGE: usize = 1_048_576;

/// The message that a text is, or its first fault: `TooLong`, `NotJson`, `NotWhole`, and then the fields in
/// their order, each first `Missing` and then `WrongKind`.
pub fn read_message(alloc: Global, text: &str) -> Result<Message, Bad>
    // What is read is the text's message.
    ensures found { IfOk result (IsMessageText text.now) }
    // A text that is a message is read, unless memory runs out.
    ensures only { (m : Message) → IsMessageText text.now m → Gives result (Ok m) }
    // Which fault it is.
    ensures exact { Gives result (message_at text.now) }
{
    message_in(alloc, text)
}

#[tactic(auto, unfolding(crate::specs::Reading::message_at))]
fn message_in(alloc: Global, text: &str) -> Result<Message, Bad>
    ensures { Gives result (message_at text.now) }
{
    let json = read_value(alloc, text)?;
    message_given(alloc, &json)
}

/// The value of a text of at most `MAX_MESSAGE` bytes that is JSON with whole numbers, or its first fault:
/// `TooLong`, `NotJson`, `NotWhole`.
#[tactic(auto, unfolding(crate::specs::Reading::value_at))]
pub fn read_value(alloc: Global, text: &str) -> Result<Json, Bad>
    ensures { Gives result (value_at text.now) }
{
    if text.len() > MAX_MESSAGE {
        return Err(Bad::Fault(Fault::TooLong));
    }
    Json::read(alloc, text)
}

/// The message that a value is, or its first fault. `read_message` is `read_value` and then this, so whoever
/// has to look at a text first reads it once.
pub fn message_of_value(alloc: Global, json: &Json) -> Result<Message, Bad>
    // What is read is the value's message.
    ensures found { IfOk result (IsMessage json.now) }
    // A value that is a message is read, unless memory runs out.
    ensures only { (m : Message) → IsMessage json.now m → Gives result (Ok m) }
    // Which fault it is: fields in their order, each first `Missing` and then `WrongKind`.
    ensures exact { Gives result (message_of json.now) }
{
    message_given(alloc, json)
}

fn message_given(alloc: Global, json: &Json) -> Result<Message, Bad>
    ensures { Gives result (message_of json.now) }
{
    message(alloc, json.value())
}

/// The number by which a fault is told, from 1 to 5.
#[tactic(auto, unfolding(crate::specs::Reading::fault_number))]
pub fn number_of(fault: Fault) -> u8
    ensures { result ≡ fault_number fault }
{
    match fault {
        Fault::NotJson => 1,
        Fault::Missing => 2,
        Fault::WrongKind => 3,
        Fault::NotWhole => 4,
        Fault::TooLong => 5,
    }
}

#[tactic(auto, unfolding(crate::specs::Reading::message_of))]
fn message(alloc: Global, value: &Value) -> Result<Message, Bad>
    requires { has_float (view value.now) ≡ false }
    ensures { Gives result (message_of (view value.now)) }
{
    let header = header(alloc, object_field(value, "header")?)?;
    let parent_header = object_field_or_empty(alloc, value, "parent_header")?;
    let metadata = object_field_or_empty(alloc, value, "metadata")?;
    let content = object_field(value, "content")?;
    let channel = channel(value)?;
    let buffers = no_items_field(value, "buffers")?;
    let content = content_read(alloc, channel, &header.msg_type, content)?;
    Ok(Message {
        header,
        parent_header,
        metadata,
        content,
        channel,
        buffers,
    })
}

#[tactic(auto, unfolding(crate::specs::Reading::header_of))]
fn header(alloc: Global, value: &Value) -> Result<Header, Bad>
    requires { has_float (view value.now) ≡ false }
    ensures { Gives result (header_of (view value.now)) }
{
    let msg_id = text_field(value, "msg_id")?;
    let session = text_field(value, "session")?;
    let msg_type = text_field(value, "msg_type")?;
    let username = text_field_or(value, "username", "")?;
    let date = text_field_or(value, "date", "")?;
    let version = text_field_or(value, "version", "")?;
    Ok(Header {
        msg_id: Text::from_str(alloc, msg_id)?,
        session: Text::from_str(alloc, session)?,
        msg_type: Text::from_str(alloc, msg_type)?,
        username: Text::from_str(alloc, username)?,
        date: Text::from_str(alloc, date)?,
        version: Text::from_str(alloc, version)?,
        json: Json::keep(value)?,
    })
}

#[tactic(auto, unfolding(crate::specs::Reading::channel_at))]
fn channel(value: &Value) -> Result<Channel, Fault>
    ensures { result ≡ channel_at (view value.now) }
{
    channel_of(text_field_or(value, "channel", "shell")?)
}

#[tactic(auto, unfolding(crate::specs::Reading::channel_named))]
fn channel_of(name: &str) -> Result<Channel, Fault>
    ensures { result ≡ channel_named name.now }
{
    if name == "shell" {
        Ok(Channel::Shell)
    } else if name == "control" {
        Ok(Channel::Control)
    } else if name == "stdin" {
        Ok(Channel::Stdin)
    } else {
        Err(Fault::WrongKind)
    }
}

#[tactic(auto, unfolding(crate::specs::Reading::content_of))]
fn content_read(
    alloc: Global,
    channel: Channel,
    msg_type: &Text,
    value: &Value,
) -> Result<Content, Bad>
    requires { has_float (view value.now) ≡ false }
    ensures { Gives result (content_of channel msg_type.now (view value.now)) }
{
    let kind = request_kind(channel, msg_type.as_str());
    Ok(Content::Request(request(alloc, kind, value)?))
}

#[tactic(auto, unfolding(crate::specs::Reading::kind_of))]
fn request_kind(channel: Channel, msg_type: &str) -> RequestKind
    ensures { result ≡ kind_of channel msg_type.now }
{
    match channel {
        Channel::Shell => shell_request(msg_type),
        Channel::Control => control_request(msg_type),
        Channel::Stdin => stdin_request(msg_type),
        Channel::Iopub => RequestKind::Other,
    }
}

#[tactic(auto, unfolding(crate::specs::Reading::shell_kind))]
fn shell_request(msg_type: &str) -> RequestKind
    ensures { result ≡ shell_kind msg_type.now }
{
    if msg_type == "execute_request" {
        RequestKind::Execute
    } else if msg_type == "kernel_info_request" {
        RequestKind::KernelInfo
    } else if msg_type == "is_complete_request" {
        RequestKind::IsComplete
    } else if msg_type == "complete_request" {
        RequestKind::Complete
    } else if msg_type == "inspect_request" {
        RequestKind::Inspect
    } else if msg_type == "history_request" {
        RequestKind::History
    } else if msg_type == "comm_info_request" {
        RequestKind::CommInfo
    } else {
        RequestKind::Other
    }
}

#[tactic(auto, unfolding(crate::specs::Reading::control_kind))]
fn control_request(msg_type: &str) -> RequestKind
    ensures { result ≡ control_kind msg_type.now }
{
    if msg_type == "kernel_info_request" {
        RequestKind::KernelInfo
    } else if msg_type == "interrupt_request" {
        RequestKind::Interrupt
    } else if msg_type == "shutdown_request" {
        RequestKind::Shutdown
    } else {
        RequestKind::Other
    }
}

#[tactic(auto, unfolding(crate::specs::Reading::stdin_kind))]
fn stdin_request(msg_type: &str) -> RequestKind
    ensures { result ≡ stdin_kind msg_type.now }
{
    if msg_type == "input_reply" {
        RequestKind::InputReply
    } else {
        RequestKind::Other
    }
}

#[tactic(auto, unfolding(crate::specs::Reading::request_of))]
fn request(alloc: Global, kind: RequestKind, value: &Value) -> Result<Request, Bad>
    requires { has_float (view value.now) ≡ false }
    ensures { Gives result (request_of kind (view value.now)) }
{
    match kind {
        RequestKind::Execute => Ok(Request::Execute(execute(alloc, value)?)),
        RequestKind::KernelInfo => Ok(Request::KernelInfo),
        RequestKind::IsComplete => {
            let code = text_field(value, "code")?;
            Ok(Request::IsComplete {
                code: Text::from_str(alloc, code)?,
            })
        }
        RequestKind::Complete => {
            let cursor_pos = whole_field_or(value, "cursor_pos", Whole::ZERO)?;
            Ok(Request::Complete { cursor_pos })
        }
        RequestKind::Inspect => Ok(Request::Inspect),
        RequestKind::History => Ok(Request::History),
        RequestKind::CommInfo => Ok(Request::CommInfo),
        RequestKind::Interrupt => Ok(Request::Interrupt),
        RequestKind::Shutdown => {
            let restart = boolean_field_or(value, "restart", false)?;
            Ok(Request::Shutdown { restart })
        }
        RequestKind::InputReply => {
            let line = text_field(value, "value")?;
            Ok(Request::InputReply {
                value: Text::from_str(alloc, line)?,
            })
        }
        RequestKind::Other => Ok(Request::Other),
    }
}

#[tactic(auto, unfolding(crate::specs::Reading::execute_of))]
fn execute(alloc: Global, value: &Value) -> Result<Execute, Bad>
    requires { has_float (view value.now) ≡ false }
    ensures { Gives result (execute_of (view value.now)) }
{
    let code = text_field(value, "code")?;
    let silent = boolean_field_or(value, "silent", false)?;
    let store_history = boolean_field_or(value, "store_history", true)?;
    let user_expressions = object_field_or_empty(alloc, value, "user_expressions")?;
    let allow_stdin = boolean_field_or(value, "allow_stdin", true)?;
    let stop_on_error = boolean_field_or(value, "stop_on_error", true)?;
    Ok(Execute {
        code: shared_text(alloc, code)?,
        silent,
        store_history,
        user_expressions,
        allow_stdin,
        stop_on_error,
    })
}
