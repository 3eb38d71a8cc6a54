//! The tokens of a JSON value.

ghost use Rattle.std.specs.Prelude.{◌≡◌, None, false, ◌∷◌, [], ◌++◌, decimal, OnOk};
ghost use Rattle.std.specs.Fmt.{signed_decimal};
ghost use Rattle.json.specs.Token.{number as number_token};
ghost use Rattle.serde_json.specs.Find.{as_u64, is_float};
ghost use Rattle.serde_json.specs.View.{view, number_view, items_view, members_view};
ghost use Rattle.serde_json.specs.Written.{has_float, items_have_float, members_have_float, number_text};
ghost use Rattle.nb_text.specs.Tokens.{data_tokens, list_tokens, object_tokens};

use crate::sink::Tokens;
use json::Token;
use serde_json::{Map, Number, Value};
use std::alloc::AllocError;

#[cycle(write)]
pub(crate) fn write_value<W: Tokens>(value: &Value, out: &mut W) -> Result<(), AllocError>
    requires { has_float (view value.now) ≡ false }
    ensures { OnOk result (W.Tokens.written out.new ≡ W.Tokens.written out.old ++ data_tokens (view value.now)) }
{
    match value {
        Value::Null => out.token(Token::Null),
        Value::Bool(b) => out.token(Token::Bool(*b)),
        Value::Number(number) => write_number(number, out),
        Value::String(text) => out.token(Token::String(text.as_str())),
        Value::Array(items) => {
            out.token(Token::BeginArray)?;
            write_items(items, out)
        }
        Value::Object(members) => {
            out.token(Token::BeginObject)?;
            write_members(members, out)
        }
    }
}

#[cycle(write)]
fn write_items<W: Tokens>(items: &Vec<Value>, out: &mut W) -> Result<(), AllocError>
    requires { items_have_float (items_view items.now.items) ≡ false }
    ensures { OnOk result (W.Tokens.written out.new ≡ W.Tokens.written out.old ++ list_tokens (items_view items.now.items)) }
{
    for item in items {
        write_value(item, out)?;
    }
    out.token(Token::EndArray)
}

#[cycle(write)]
fn write_members<W: Tokens>(members: &Map<String, Value>, out: &mut W) -> Result<(), AllocError>
    requires { members_have_float (members_view members.now.entries) ≡ false }
    ensures { OnOk result
        (W.Tokens.written out.new ≡ W.Tokens.written out.old ++ object_tokens (members_view members.now.entries)) }
{
    for (key, member) in members.iter() {
        out.token(Token::Key(key.as_str()))?;
        write_value(member, out)?;
    }
    out.token(Token::EndObject)
}

#[tactic(auto, using(crate::proofs::Numbers::positive_text))]
fn write_number<W: Tokens>(number: &Number, out: &mut W) -> Result<(), AllocError>
    requires { is_float (number_view number.now) ≡ false }
    ensures { OnOk result (W.Tokens.written out.new ≡ W.Tokens.written out.old ++ number_token (number_text (number_view number.now)) ∷ []) }
{
    match number.as_u64() {
        Some(positive) => write_positive(positive, out),
        None => write_other(number, out),
    }
}

// A number below zero, as no other is left.
#[tactic(auto, using(crate::proofs::Numbers::negative_text, crate::proofs::Numbers::no_other))]
fn write_other<W: Tokens>(number: &Number, out: &mut W) -> Result<(), AllocError>
    requires whole { is_float (number_view number.now) ≡ false }
    requires other { as_u64 (number_view number.now) ≡ None }
    ensures { OnOk result (W.Tokens.written out.new ≡ W.Tokens.written out.old ++ number_token (number_text (number_view number.now)) ∷ []) }
{
    match number.as_i64() {
        Some(negative) => write_negative(negative, out),
        None => Ok(()),
    }
}

pub(crate) fn write_positive<W: Tokens>(positive: u64, out: &mut W) -> Result<(), AllocError>
    ensures { OnOk result (W.Tokens.written out.new ≡ W.Tokens.written out.old ++ number_token (decimal positive) ∷ []) }
{
    let mut buffer = itoa::Buffer::new();
    out.token(Token::Number(buffer.format(positive)))
}

fn write_negative<W: Tokens>(negative: i64, out: &mut W) -> Result<(), AllocError>
    ensures { OnOk result (W.Tokens.written out.new ≡ W.Tokens.written out.old ++ number_token (signed_decimal negative) ∷ []) }
{
    let mut buffer = itoa::Buffer::new();
    out.token(Token::Number(buffer.format(negative)))
}
