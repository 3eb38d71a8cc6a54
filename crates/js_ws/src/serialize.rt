//! Messages as binary messages.
ghost use Rattle.std.specs.Prelude.{◌≡◌, ◌++◌, ◌≤◌, false, IfOk, OnOk, length};
ghost use Rattle.serde_json.specs.View.{view};
ghost use Rattle.serde_json.specs.Written.{compact_text, has_float};
ghost use Rattle.jp_msg.specs.declared.message.Content.TheVariants.{Output as ContentOutput};
ghost use Rattle.jp_msg.specs.Writing.{header_form, output_form};
ghost use Rattle.js_ws.specs.Serialized.{number_bytes, offsets_from, joined, serialized, parts_of};

use jp_msg::{Header, Message, Output, output_json};
use json_form::Text;
use serde_json::{Value, json};
use std::alloc::{AllocError, Global};

/// Puts a number in 64 bits at the end.
#[tactic(auto, unfolding(crate::specs::Serialized::number_bytes))]
fn push_number(out: &mut Vec<u8>, number: usize) -> Result<(), AllocError>
    ensures { OnOk result (out.new.items ≡ out.old.items ++ number_bytes number) }
{
    out.extend_from_slice(&number.to_le_bytes())
}

/// Puts the offsets of the parts at the end, if the first begins here.
fn push_offsets(out: &mut Vec<u8>, here: usize, parts: &[Text]) -> Result<(), AllocError>
    ensures { OnOk result (out.new.items ≡ out.old.items ++ offsets_from here parts.now) }
{
    let mut place = here;
    for part in parts {
        push_number(out, place)?;
        place = place.checked_add(part.as_str().len()).ok_or(AllocError)?;
    }
    push_number(out, place)
}

/// Puts the parts at the end.
fn push_parts(out: &mut Vec<u8>, parts: &[Text]) -> Result<(), AllocError>
    ensures { OnOk result (out.new.items ≡ out.old.items ++ joined parts.now) }
{
    for part in parts {
        out.extend_from_slice(part.as_str().as_bytes())?;
    }
    Ok(())
}

/// The binary message of parts.
fn join(alloc: Global, parts: &[Text]) -> Result<Vec<u8>, AllocError>
    requires { length parts.now ≤ 5 }
    ensures { IfOk result (λ out. out.items ≡ serialized parts.now) }
{
    let mut out = Vec::new(alloc);
    push_number(&mut out, parts.len() + 1)?;
    push_offsets(&mut out, 8 * (parts.len() + 2), parts)?;
    push_parts(&mut out, parts)?;
    Ok(out)
}

/// The value of a header.
#[tactic(auto, unfolding(jp_msg::specs::Writing::header_form))]
fn header_value(alloc: Global, header: &Header) -> Result<Value, AllocError>
    ensures form { IfOk result (λ v. view v ≡ header_form header.now) }
    ensures whole { IfOk result (λ v. has_float (view v) ≡ false) }
{
    json!(in alloc; {
        "date": header.date.as_str(),
        "msg_id": header.msg_id.as_str(),
        "msg_type": header.msg_type.as_str(),
        "session": header.session.as_str(),
        "username": "kernel",
        "version": "5.4"
    })
}

/// The text of a header.
fn header_text(alloc: Global, header: &Header) -> Result<Text, AllocError>
    ensures { IfOk result (λ text. text ≡ compact_text (header_form header.now)) }
{
    let value = header_value(alloc, header)?;
    Ok(Text::from_string(value.to_string(alloc)?))
}

/// The binary message of a message that tells this.
#[tactic(auto, unfolding(crate::specs::Serialized::parts_of, jp_msg::specs::Writing::content_form))]
pub(crate) fn serialize_message(
    alloc: Global,
    message: &Message,
    output: &Output,
) -> Result<Vec<u8>, AllocError>
    requires { message.now.content ≡ ContentOutput output.now }
    ensures { IfOk result (λ out. out.items ≡ serialized (parts_of message.now)) }
{
    let parts = [
        Text::from_str(alloc, message.channel.name())?,
        header_text(alloc, &message.header)?,
        Text::from_string(message.parent_header.write(alloc)?),
        Text::from_string(message.metadata.write(alloc)?),
        Text::from_string(output_json(alloc, output)?.write(alloc)?),
    ];
    join(alloc, &parts)
}
