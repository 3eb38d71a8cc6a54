//! What an entry is sent as.
ghost use Rattle.std.specs.Prelude.{◌≡◌, IfOk, string_bytes};
ghost use Rattle.jp_msg.specs.declared.message.Content.TheVariants.{Output as ContentOutput};
ghost use Rattle.js_ws.specs.Frames.{id_of, output_message, message_frame, frame_of, payload_frame};

use crate::names::Names;
use crate::protocol::Protocol;
use crate::serialize::serialize_message;
use itoa::Buffer;
use jk_log::{Entry, Told};
use jp_msg::{Channel, Message, Output, Stamp, write_message};
use std::alloc::{AllocError, Global};

/// What goes to the frontend.
#[derive(Drop)]
pub(crate) enum Payload {
    Text(String),
    Binary(Vec<u8>),
    Nothing,
}

/// The identifier of the message that is sent after `number` others.
fn make_id(alloc: Global, names: &Names, number: u64) -> Result<String, AllocError>
    ensures { IfOk result (λ s. string_bytes s ≡ id_of names.now number) }
{
    let mut buffer = Buffer::new();
    let mut id = String::from_str(alloc, names.id.as_str())?;
    id.push_str("_")?;
    id.push_str(buffer.format(number))?;
    Ok(id)
}

/// How a message is stamped.
#[derive(Clone, Copy)]
pub(crate) struct Naming<'n> {
    pub(crate) names: &'n Names,
    pub(crate) date: &'n str,
    pub(crate) number: u64,
}

/// The message of an output for a request.
fn make_message(
    alloc: Global,
    naming: Naming<'_>,
    parent: &Message,
    channel: Channel,
    output: &Output,
) -> Result<Message, AllocError>
    ensures { IfOk result (λ m. m ≡ output_message naming.entry.names.now naming.entry.date.now naming.entry.number channel output.now parent.now) }
{
    let id = make_id(alloc, naming.names, naming.number)?;
    let stamp = Stamp {
        msg_id: id.as_str(),
        session: naming.names.session.as_str(),
        date: naming.date,
    };
    Message::of_kernel(alloc, stamp, parent, channel, output.copy()?)
}

/// What a message that tells this is sent as.
fn write_payload(
    alloc: Global,
    protocol: Protocol,
    message: &Message,
    output: &Output,
) -> Result<Payload, AllocError>
    requires { message.now.content ≡ ContentOutput output.now }
    ensures { IfOk result (λ p. payload_frame p ≡ message_frame protocol message.now) }
{
    match protocol {
        Protocol::Default => Ok(Payload::Text(write_message(alloc, message)?)),
        Protocol::V1 => Ok(Payload::Binary(serialize_message(alloc, message, output)?)),
    }
}

/// What an entry is sent as: an output for a request is a message, and another entry is nothing.
#[tactic(auto, unfolding(jp_msg::specs::Building::kernel_message))]
pub(crate) fn write_entry(
    alloc: Global,
    naming: Naming<'_>,
    entry: &Entry,
) -> Result<Payload, AllocError>
    ensures { IfOk result (λ p. payload_frame p ≡ frame_of naming.entry.names.now naming.entry.date.now naming.entry.number entry.now) }
{
    match (&entry.content, &entry.parent) {
        (Told::Output(output), Some(parent)) => {
            let message = make_message(alloc, naming, parent.value(), entry.channel, output)?;
            write_payload(alloc, naming.names.protocol, &message, output)
        }
        _ => Ok(Payload::Nothing),
    }
}
