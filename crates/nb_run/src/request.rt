//! What is sent to the kernel.

ghost use Rattle.std.specs.Prelude.{◌≡◌, IfOk, string_bytes};
ghost use Rattle.nb_run.specs.Runs.{execute_of, metadata_of};
ghost use Rattle.jp_msg.specs.declared.message.Content.TheVariants as content;
ghost use Rattle.jp_msg.specs.declared.message.Request.TheVariants as request;

use crate::cells::Code;
use jp_msg::{Channel, Content, Execute, Header, Message, Request, shared_text};
use json_form::{Json, Text};
use serde_json::json;
use std::alloc::{AllocError, Global};

/// The header of a message of this name.
fn header(alloc: Global, msg_id: &str, msg_type: &str) -> Result<Header, AllocError> {
    Ok(Header {
        msg_id: Text::from_str(alloc, msg_id)?,
        session: Text::from_str(alloc, "run")?,
        msg_type: Text::from_str(alloc, msg_type)?,
        username: Text::from_str(alloc, "")?,
        date: Text::from_str(alloc, "")?,
        version: Text::from_str(alloc, "5.4")?,
        json: Json::empty(alloc),
    })
}

/// The metadata that name a cell.
#[tactic(auto, unfolding(crate::specs::Runs::metadata_of))]
fn metadata(alloc: Global, id: &str) -> Result<Json, AllocError>
    ensures { IfOk result (λ j. j ≡ metadata_of id.now) }
{
    let value = json!(in alloc; {"cellId": id})?;
    Ok(Json::of_whole(value))
}

fn execute(alloc: Global, source: &Text) -> Result<Execute, AllocError>
    ensures { IfOk result (λ e. e ≡ execute_of source.now) }
{
    Ok(Execute {
        code: shared_text(alloc, source.as_str())?,
        silent: false,
        store_history: true,
        user_expressions: Json::empty(alloc),
        allow_stdin: true,
        stop_on_error: true,
    })
}

/// The request that a code cell be run: its source, with its id as `cellId`.
pub(crate) fn request_for(alloc: Global, code: &Code) -> Result<Message, AllocError>
    ensures runs { IfOk result (λ m. m.content ≡ content.Request (request.Execute (execute_of code.now.source))) }
    ensures names { IfOk result (λ m. m.metadata ≡ metadata_of code.now.id) }
{
    Ok(Message {
        header: header(alloc, code.id.as_str(), "execute_request")?,
        parent_header: Json::empty(alloc),
        metadata: metadata(alloc, code.id.as_str())?,
        content: Content::Request(Request::Execute(execute(alloc, &code.source)?)),
        channel: Channel::Shell,
        buffers: (),
    })
}

/// A line for the cell that asks.
pub(crate) fn line_message(alloc: Global, line: String) -> Result<Message, AllocError>
    ensures { IfOk result (λ m. m.content ≡ content.Request (request.InputReply (string_bytes line))) }
{
    Ok(Message {
        header: header(alloc, "line", "input_reply")?,
        parent_header: Json::empty(alloc),
        metadata: Json::empty(alloc),
        content: Content::Request(Request::InputReply {
            value: Text::from_string(line),
        }),
        channel: Channel::Stdin,
        buffers: (),
    })
}
