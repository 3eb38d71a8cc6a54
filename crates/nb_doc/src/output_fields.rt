//! Reading the outputs of a cell.

ghost use Rattle.std.specs.Prelude.{◌≡◌, false, IfOk};
ghost use Rattle.json_form.specs.Forms.{seen, Gives, needed, of_kind, object_at, each};
ghost use Rattle.serde_json.specs.Find.{get, as_array, as_str};
ghost use Rattle.serde_json.specs.View.{view, items_view};
ghost use Rattle.serde_json.specs.Written.{has_float, items_have_float};
ghost use Rattle.nb_doc.specs.Fields.{texts_at, stream_of, error_of, output_named, output_of, outputs_at};

use crate::listed::Listed;
use crate::notebook::Output;
use json_form::{Bad, Fault, Json, Text, joined_field, object_field, part, text_field};
use serde_json::Value;
use std::alloc::Global;

/// A list.
pub(crate) fn list_field<'v>(value: &'v Value, key: &str) -> Result<&'v Vec<Value>, Fault>
    requires { has_float (view value.now) ≡ false }
    ensures form { seen (λ v. items_view v.now.items) result ≡ needed as_array (get key.now (view value.now)) }
    ensures whole { IfOk result (λ v. items_have_float (items_view v.now.items) ≡ false) }
{
    match part(value, key) {
        None => Err(Fault::Missing),
        Some(field) => list_in(field),
    }
}

fn list_in(field: &Value) -> Result<&Vec<Value>, Fault>
    requires { has_float (view field.now) ≡ false }
    ensures form { seen (λ v. items_view v.now.items) result ≡ of_kind (as_array (view field.now)) }
    ensures whole { IfOk result (λ v. items_have_float (items_view v.now.items) ≡ false) }
{
    match field {
        Value::Array(items) => Ok(items),
        _ => Err(Fault::WrongKind),
    }
}

/// An object that is kept as it is.
pub(crate) fn kept_object(alloc: Global, value: &Value, key: &str) -> Result<Json, Bad>
    requires { has_float (view value.now) ≡ false }
    ensures { Gives result (object_at key.now (view value.now)) }
{
    let object = object_field(value, key)?;
    Ok(Json::keep(object)?)
}

/// The outputs of a cell.
#[tactic(auto, unfolding(crate::specs::Fields::outputs_at))]
pub(crate) fn read_outputs(alloc: Global, value: &Value) -> Result<Listed<Output>, Bad>
    requires { has_float (view value.now) ≡ false }
    ensures { Gives result (outputs_at (view value.now)) }
{
    outputs(alloc, list_field(value, "outputs")?)
}

fn outputs(alloc: Global, items: &Vec<Value>) -> Result<Listed<Output>, Bad>
    requires { items_have_float (items_view items.now.items) ≡ false }
    ensures { Gives result (each output_of (items_view items.now.items)) }
{
    let mut found = Vec::new(alloc);
    for item in items {
        let output = output(alloc, item)?;
        found.push(output)?;
    }
    Ok(Listed::new(found))
}

#[tactic(auto, unfolding(crate::specs::Fields::output_of))]
fn output(alloc: Global, value: &Value) -> Result<Output, Bad>
    requires { has_float (view value.now) ≡ false }
    ensures { Gives result (output_of (view value.now)) }
{
    let kind = text_field(value, "output_type")?;
    output_of_kind(alloc, kind, value)
}

#[tactic(auto, unfolding(crate::specs::Fields::output_named))]
fn output_of_kind(alloc: Global, kind: &str, value: &Value) -> Result<Output, Bad>
    requires { has_float (view value.now) ≡ false }
    ensures { Gives result (output_named kind.now (view value.now)) }
{
    if kind == "stream" {
        stream(alloc, value)
    } else if kind == "error" {
        error(alloc, value)
    } else if kind == "display_data" || kind == "execute_result" {
        Ok(Output::Kept(Json::keep(value)?))
    } else {
        Err(Bad::Fault(Fault::WrongKind))
    }
}

#[tactic(auto, unfolding(crate::specs::Fields::stream_of))]
fn stream(alloc: Global, value: &Value) -> Result<Output, Bad>
    ensures { Gives result (stream_of (view value.now)) }
{
    let name = text_field(value, "name")?;
    let text = joined_field(alloc, value, "text")?;
    Ok(Output::Stream {
        name: Text::from_str(alloc, name)?,
        text,
    })
}

#[tactic(auto, unfolding(crate::specs::Fields::error_of))]
fn error(alloc: Global, value: &Value) -> Result<Output, Bad>
    requires { has_float (view value.now) ≡ false }
    ensures { Gives result (error_of (view value.now)) }
{
    let ename = text_field(value, "ename")?;
    let evalue = text_field(value, "evalue")?;
    let traceback = texts_field(alloc, value, "traceback")?;
    Ok(Output::Error {
        ename: Text::from_str(alloc, ename)?,
        evalue: Text::from_str(alloc, evalue)?,
        traceback,
    })
}

/// A list of texts.
#[tactic(auto, unfolding(crate::specs::Fields::texts_at))]
fn texts_field(alloc: Global, value: &Value, key: &str) -> Result<Listed<Text>, Bad>
    requires { has_float (view value.now) ≡ false }
    ensures { Gives result (texts_at key.now (view value.now)) }
{
    texts(alloc, list_field(value, key)?)
}

fn texts(alloc: Global, items: &Vec<Value>) -> Result<Listed<Text>, Bad>
    ensures { Gives result (each (λ e. of_kind (as_str e)) (items_view items.now.items)) }
{
    let mut found = Vec::new(alloc);
    for item in items {
        let text = item.as_str().ok_or(Fault::WrongKind)?;
        found.push(Text::from_str(alloc, text)?)?;
    }
    Ok(Listed::new(found))
}
