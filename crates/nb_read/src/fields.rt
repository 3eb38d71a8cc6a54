//! The fields of an object.

ghost use Rattle.std.specs.Prelude.{◌≡◌, option_map, option_and_then};
ghost use Rattle.std.specs.Result.{result_ok};
ghost use Rattle.json_form.specs.Forms.{object_of, joined_items};
ghost use Rattle.serde_json.specs.Find.{get, as_str, as_array};
ghost use Rattle.nb_doc.specs.TextForms.{joined_text};
ghost use Rattle.nb_read.specs.Finds.{Finds, FindsBy};
ghost use Rattle.nb_read.specs.Lent.{data_view, items_data};

use crate::kept::keep;
use crate::unread::Unread;
use json::Value;
use json_form::{Json, Text};
use std::alloc::Global;

/// A field, if it is there. Of equal keys the last counts.
#[tactic(auto, using(crate::proofs::Lent::found_is))]
pub(crate) fn field<'v, 't>(value: &'v Value<'t>, key: &str) -> Option<&'v Value<'t>>
    ensures { option_map (λ v. data_view v.now) result ≡ get key.now (data_view value.now) }
{
    value.get(key)
}

/// A text that a field is.
pub(crate) fn text_in<'v>(value: &'v Value<'_>) -> Result<&'v str, Unread>
    ensures { FindsBy (λ s. s.now) result (as_str (data_view value.now)) }
{
    match value {
        Value::String(text) => Ok(*text),
        _ => Err(Unread::Other),
    }
}

/// A text.
pub(crate) fn text_field<'v>(value: &'v Value<'_>, key: &str) -> Result<&'v str, Unread>
    ensures { FindsBy (λ s. s.now) result (option_and_then as_str (get key.now (data_view value.now))) }
{
    match field(value, key) {
        Some(found) => text_in(found),
        None => Err(Unread::Other),
    }
}

fn list_in<'v, 't>(value: &'v Value<'t>) -> Result<&'v Vec<Value<'t>>, Unread>
    ensures { FindsBy (λ v. items_data v.now.items) result (as_array (data_view value.now)) }
{
    match value {
        Value::Array(items) => Ok(items),
        _ => Err(Unread::Other),
    }
}

/// A list.
pub(crate) fn list_field<'v, 't>(
    value: &'v Value<'t>,
    key: &str,
) -> Result<&'v Vec<Value<'t>>, Unread>
    ensures { FindsBy (λ v. items_data v.now.items) result (option_and_then as_array (get key.now (data_view value.now))) }
{
    match field(value, key) {
        Some(found) => list_in(found),
        None => Err(Unread::Other),
    }
}

/// An object, which is kept as it is.
pub(crate) fn object_in(alloc: Global, value: &Value<'_>) -> Result<Json, Unread>
    ensures { Finds result (object_of (data_view value.now)) }
{
    match value {
        Value::Object(_) => keep(alloc, value),
        _ => Err(Unread::Other),
    }
}

/// The same as a field.
pub(crate) fn object_field(alloc: Global, value: &Value<'_>, key: &str) -> Result<Json, Unread>
    ensures { Finds result (option_and_then object_of (get key.now (data_view value.now))) }
{
    match field(value, key) {
        Some(found) => object_in(alloc, found),
        None => Err(Unread::Other),
    }
}

/// A text, or a list of texts that are joined.
pub(crate) fn joined_field(alloc: Global, value: &Value<'_>, key: &str) -> Result<Text, Unread>
    ensures { Finds result (option_and_then joined_text (get key.now (data_view value.now))) }
{
    match field(value, key) {
        Some(found) => joined_in(alloc, found),
        None => Err(Unread::Other),
    }
}

#[tactic(auto, unfolding(json_form::specs::Forms::joined_of))]
fn joined_in(alloc: Global, value: &Value<'_>) -> Result<Text, Unread>
    ensures { Finds result (joined_text (data_view value.now)) }
{
    match value {
        Value::String(text) => Ok(Text::from_str(alloc, text)?),
        Value::Array(items) => join(alloc, items),
        _ => Err(Unread::Other),
    }
}

fn join(alloc: Global, items: &Vec<Value<'_>>) -> Result<Text, Unread>
    ensures { Finds result (result_ok (joined_items (items_data items.now.items))) }
{
    let mut text = String::with_capacity(alloc, joined_len(items))?;
    for item in items {
        let line = text_in(item)?;
        text.push_str(line)?;
    }
    Ok(Text::from_string(text))
}

/// How many bytes the texts of a list have, so that there is room for all at once.
fn joined_len(items: &Vec<Value<'_>>) -> usize {
    let mut len: usize = 0;
    for item in items {
        if let Value::String(text) = item {
            len = len.saturating_add(text.len());
        }
    }
    len
}
