//! Messages read from binary messages.
ghost use Rattle.std.specs.Prelude.{◌≡◌, ◌+◌, ◌*◌, ◌≤◌, false, length, IfOk};
ghost use Rattle.json_form.specs.Forms.{Gives, seen};
ghost use Rattle.serde_json.specs.View.{view};
ghost use Rattle.serde_json.specs.Written.{has_float};
ghost use Rattle.js_ws.specs.Serialized as spec;

use jp_msg::{Bad, Fault, MAX_MESSAGE, Message, message_of_value};
use json_form::Json;
use serde_json::{Value, json};
use std::alloc::{AllocError, Global};

/// How many bytes six offsets and their number have.
const TABLE: usize = 56;

/// The number in 64 bits that stands after `place` others.
#[tactic(auto, unfolding(crate::specs::Serialized::number_at))]
fn number_at(bytes: &[u8], place: usize) -> usize
    requires { 8 * place + 8 ≤ length bytes.now }
    ensures { result ≡ spec.number_at place bytes.now }
{
    let mut number = [0; 8];
    number.copy_from_slice(&bytes[8 * place..8 * place + 8]);
    usize::from_le_bytes(number)
}

/// Whether five parts are told of, from the end of the offsets to the end of the message.
fn has_five(bytes: &[u8]) -> bool
    ensures { result ≡ spec.has_five bytes.now }
{
    bytes.len() >= TABLE
        && number_at(bytes, 0) == 6
        && number_at(bytes, 1) == TABLE
        && number_at(bytes, 6) == bytes.len()
}

/// A part, from its offset to the next.
#[tactic(auto, unfolding(crate::specs::Serialized::part_at))]
fn part_at(bytes: &[u8], place: usize) -> Result<&[u8], Fault>
    requires { 8 * place + 24 ≤ length bytes.now }
    ensures { seen (λ part. part.now) result ≡ spec.part_at place bytes.now }
{
    let start = number_at(bytes, place + 1);
    let end = number_at(bytes, place + 2);
    if start <= end && end <= bytes.len() {
        Ok(&bytes[start..end])
    } else {
        Err(Fault::NotJson)
    }
}

/// The text that a part is.
#[tactic(auto, using(crate::proofs::Utf8::text_if_utf8, crate::proofs::Utf8::none_if_not))]
fn text_of(part: &[u8]) -> Result<&str, Fault>
    ensures { seen (λ text. text.now) result ≡ spec.text_of part.now }
{
    match std::str::from_utf8(part) {
        Ok(text) => Ok(text),
        Err(_) => Err(Fault::NotJson),
    }
}

/// The value of a part that is JSON by itself.
fn json_of(alloc: Global, part: &[u8]) -> Result<Json, Bad>
    ensures { Gives result (spec.json_of part.now) }
{
    let text = text_of(part)?;
    Json::read(alloc, text)
}

/// The value of the part at a place.
#[tactic(auto, unfolding(crate::specs::Serialized::json_at))]
fn json_at(alloc: Global, bytes: &[u8], place: usize) -> Result<Json, Bad>
    requires { 8 * place + 24 ≤ length bytes.now }
    ensures { Gives result (spec.json_at place bytes.now) }
{
    json_of(alloc, part_at(bytes, place)?)
}

/// The object with these fields.
fn object_with(
    alloc: Global,
    channel: &str,
    header: Value,
    parent_header: Value,
    metadata: Value,
    content: Value,
) -> Result<Value, AllocError>
    requires header { has_float (view header) ≡ false }
    requires parent_header { has_float (view parent_header) ≡ false }
    requires metadata { has_float (view metadata) ≡ false }
    requires content { has_float (view content) ≡ false }
    ensures form { IfOk result (λ v. view v ≡ spec.object_with channel.now (view header) (view parent_header) (view metadata) (view content)) }
    ensures whole { IfOk result (λ v. has_float (view v) ≡ false) }
{
    json!(in alloc; {
        "buffers": [],
        "channel": channel,
        "content": content,
        "header": header,
        "metadata": metadata,
        "parent_header": parent_header
    })
}

/// The object whose fields are the parts.
#[tactic(auto, unfolding(crate::specs::Serialized::object_of))]
fn object_of(alloc: Global, bytes: &[u8]) -> Result<Json, Bad>
    requires { 56 ≤ length bytes.now }
    ensures { Gives result (spec.object_of bytes.now) }
{
    let channel = text_of(part_at(bytes, 0)?)?;
    let header = json_at(alloc, bytes, 1)?.into_value();
    let parent_header = json_at(alloc, bytes, 2)?.into_value();
    let metadata = json_at(alloc, bytes, 3)?.into_value();
    let content = json_at(alloc, bytes, 4)?.into_value();
    let object = object_with(alloc, channel, header, parent_header, metadata, content)?;
    Ok(Json::of_whole(object))
}

/// The object of the parts of a message that is short enough and has five.
#[tactic(auto, unfolding(crate::specs::Serialized::value_in))]
fn value_in(alloc: Global, bytes: &[u8]) -> Result<Json, Bad>
    ensures { Gives result (spec.value_in bytes.now) }
{
    if bytes.len() > MAX_MESSAGE {
        return Err(Bad::Fault(Fault::TooLong));
    }
    if !has_five(bytes) {
        return Err(Bad::Fault(Fault::NotJson));
    }
    object_of(alloc, bytes)
}

/// The message that a binary message is, or its first fault: it is too long; it does not have five parts, or one of them is
/// not JSON by itself (`NotJson`); a number is not whole; and then the faults of a message in the default protocol.
#[tactic(auto, unfolding(crate::specs::Serialized::message_in))]
pub fn deserialize_message(alloc: Global, bytes: &[u8]) -> Result<Message, Bad>
    ensures { Gives result (spec.message_in bytes.now) }
{
    let object = value_in(alloc, bytes)?;
    message_of_value(alloc, &object)
}
