//! The members of the objects of a notebook.

ghost use Rattle.std.specs.Prelude.{◌≡◌, false, ◌++◌, OnOk};
ghost use Rattle.serde_json.specs.Data.{number, string, unsigned};
ghost use Rattle.serde_json.specs.View.{view};
ghost use Rattle.serde_json.specs.Written.{has_float};
ghost use Rattle.nb_doc.specs.Writing.{lines_of, texts_form, lines_form, count_form};
ghost use Rattle.nb_text.specs.Tokens.{attachments_tokens, member_tokens, texts_tokens};

use crate::sink::Tokens;
use crate::values::{write_positive, write_value};
use json::Token;
use json_form::{Json, Text, Whole};
use serde_json::Value;
use std::alloc::AllocError;

/// A text.
pub(crate) fn write_text<W: Tokens>(out: &mut W, key: &str, text: &str) -> Result<(), AllocError>
    ensures { OnOk result (W.Tokens.written out.new ≡ W.Tokens.written out.old ++ member_tokens key.now (string text.now)) }
{
    out.token(Token::Key(key))?;
    out.token(Token::String(text))
}

/// A value that is kept as it was read.
pub(crate) fn write_json<W: Tokens>(out: &mut W, key: &str, json: &Json) -> Result<(), AllocError>
    ensures { OnOk result (W.Tokens.written out.new ≡ W.Tokens.written out.old ++ member_tokens key.now json.now) }
{
    out.token(Token::Key(key))?;
    write_value(json.value(), out)
}

/// An object that may be missing.
pub(crate) fn write_attachments<W: Tokens>(
    out: &mut W,
    attachments: &Option<Json>,
) -> Result<(), AllocError>
    ensures { OnOk result (W.Tokens.written out.new ≡ W.Tokens.written out.old ++ attachments_tokens attachments.now) }
{
    match attachments {
        None => Ok(()),
        Some(json) => write_json(out, "attachments", json),
    }
}

/// A part of the version.
pub(crate) fn write_version<W: Tokens>(
    out: &mut W,
    key: &str,
    version: u64,
) -> Result<(), AllocError>
    ensures { OnOk result (W.Tokens.written out.new ≡ W.Tokens.written out.old ++ member_tokens key.now (number (unsigned version))) }
{
    out.token(Token::Key(key))?;
    write_positive(version, out)
}

/// The count of a cell that may not have run.
pub(crate) fn write_count<W: Tokens>(
    out: &mut W,
    key: &str,
    count: Option<Whole>,
) -> Result<(), AllocError>
    ensures { OnOk result (W.Tokens.written out.new ≡ W.Tokens.written out.old ++ member_tokens key.now (count_form count)) }
{
    out.token(Token::Key(key))?;
    let value = count_value(count);
    write_value(&value, out)
}

#[tactic(auto, unfolding(nb_doc::specs::Writing::count_form))]
fn count_value(count: Option<Whole>) -> Value
    ensures form { view result ≡ count_form count }
    ensures whole { has_float (view result) ≡ false }
{
    match count {
        None => Value::Null,
        Some(number) => number.value(),
    }
}

/// The lines of a text with their ends.
#[tactic(auto, unfolding(nb_doc::specs::Writing::lines_form, nb_doc::specs::Writing::texts_form))]
pub(crate) fn write_lines<W: Tokens>(out: &mut W, key: &str, text: &str) -> Result<(), AllocError>
    ensures { OnOk result (W.Tokens.written out.new ≡ W.Tokens.written out.old ++ member_tokens key.now (lines_form text.now)) }
{
    out.token(Token::Key(key))?;
    out.token(Token::BeginArray)?;
    write_each_line(out, text)
}

fn write_each_line<W: Tokens>(out: &mut W, text: &str) -> Result<(), AllocError>
    ensures { OnOk result (W.Tokens.written out.new ≡ W.Tokens.written out.old ++ texts_tokens (lines_of text.now)) }
{
    for line in text.split_inclusive('\n') {
        out.token(Token::String(line))?;
    }
    out.token(Token::EndArray)
}

/// Texts.
#[tactic(auto, unfolding(nb_doc::specs::Writing::texts_form))]
pub(crate) fn write_texts<W: Tokens>(
    out: &mut W,
    key: &str,
    texts: &[Text],
) -> Result<(), AllocError>
    ensures { OnOk result (W.Tokens.written out.new ≡ W.Tokens.written out.old ++ member_tokens key.now (texts_form texts.now)) }
{
    out.token(Token::Key(key))?;
    out.token(Token::BeginArray)?;
    for text in texts {
        out.token(Token::String(text.as_str()))?;
    }
    out.token(Token::EndArray)
}
