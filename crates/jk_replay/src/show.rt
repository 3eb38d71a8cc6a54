//! Entries as lines of JSON.

ghost use Rattle.std.specs.Prelude.{◌≡◌, ◌++◌, ◌∷◌, [], List, ℕ, string_bytes, IfOk, OnOk, false};
ghost use Rattle.serde_json.specs.Data.{string, number, unsigned};
ghost use Rattle.serde_json.specs.View.{view};
ghost use Rattle.serde_json.specs.Written.{has_float, compact_text};
ghost use Rattle.std.specs.Prelude.{codes};
ghost use Rattle.jk_replay.specs.Shown as spec;

use jk_log::{Entry, To, Told};
use jp_msg::{Output, output_json};
use json_form::Json;
use serde_json::{Value, json};
use std::alloc::{AllocError, Global};

/// The identifier of the message that an entry is for.
fn parent_id(entry: &Entry) -> &str
    ensures { result.now ≡ spec.parent_id entry.now.parent }
{
    match &entry.parent {
        Some(message) => message.value().header.msg_id.as_str(),
        None => "",
    }
}

/// An entry to all.
#[tactic(auto, unfolding(crate::specs::Shown::entry_form))]
fn all_value(alloc: Global, entry: &Entry, output: &Output) -> Result<Value, AllocError>
    ensures form { IfOk result (λ v. view v ≡ spec.entry_form entry.now output.now (string (codes "all"))) }
    ensures whole { IfOk result (λ v. has_float (view v) ≡ false) }
{
    let content = output_json(alloc, output)?.into_value();
    json!(in alloc; {
        "channel": entry.channel.name(),
        "content": content,
        "msg_type": output.type_name(),
        "parent": parent_id(entry),
        "to": "all"
    })
}

/// An entry to a seat.
#[tactic(auto, unfolding(crate::specs::Shown::entry_form))]
fn seat_value(alloc: Global, entry: &Entry, output: &Output, seat: u8) -> Result<Value, AllocError>
    ensures form { IfOk result (λ v. view v ≡ spec.entry_form entry.now output.now (number (unsigned seat))) }
    ensures whole { IfOk result (λ v. has_float (view v) ≡ false) }
{
    let content = output_json(alloc, output)?.into_value();
    json!(in alloc; {
        "channel": entry.channel.name(),
        "content": content,
        "msg_type": output.type_name(),
        "parent": parent_id(entry),
        "to": seat as u64
    })
}

/// Adds a line of JSON.
fn add_line(alloc: Global, lines: &mut String, json: &Json) -> Result<(), AllocError>
    ensures { OnOk result (string_bytes lines.new ≡ string_bytes lines.old ++ spec.line_of json.now) }
{
    let text = json.write(alloc)?;
    lines.push_str(text.as_str())?;
    lines.push_str("\n")?;
    Ok(())
}

#[tactic(auto, unfolding(crate::specs::Shown::output_line))]
fn add_output(
    alloc: Global,
    lines: &mut String,
    entry: &Entry,
    output: &Output,
) -> Result<(), AllocError>
    ensures { OnOk result (string_bytes lines.new ≡ string_bytes lines.old ++ spec.output_line entry.now entry.now.to output.now) }
{
    match entry.to {
        To::Nobody => Ok(()),
        To::All => {
            let json = Json::of_whole(all_value(alloc, entry, output)?);
            add_line(alloc, lines, &json)
        }
        To::Seat(seat) => {
            let json = Json::of_whole(seat_value(alloc, entry, output, seat)?);
            add_line(alloc, lines, &json)
        }
    }
}

#[tactic(auto, unfolding(crate::specs::Shown::entry_line))]
fn add_entry(alloc: Global, lines: &mut String, entry: &Entry) -> Result<(), AllocError>
    ensures { OnOk result (string_bytes lines.new ≡ string_bytes lines.old ++ spec.entry_line entry.now) }
{
    match &entry.content {
        Told::Output(output) => add_output(alloc, lines, entry, output),
        Told::Joined { .. } | Told::Left { .. } => Ok(()),
    }
}

/// The lines of entries. What goes to nobody has none.
pub fn show(alloc: Global, entries: &[Entry]) -> Result<String, AllocError>
    ensures { IfOk result (λ s. string_bytes s ≡ spec.entry_lines entries.now) }
{
    let mut lines = String::new(alloc);
    for entry in entries {
        add_entry(alloc, &mut lines, entry)?;
    }
    Ok(lines)
}
