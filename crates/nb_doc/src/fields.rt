//! Reading the fields of a notebook and its cells, as they stand.

ghost use Rattle.std.specs.Prelude.{◌≡◌, false};
ghost use Rattle.json_form.specs.Forms.{Gives, each};
ghost use Rattle.serde_json.specs.View.{view, items_view};
ghost use Rattle.serde_json.specs.Written.{has_float, items_have_float};
ghost use Rattle.nb_doc.specs.Fields.{count_at, count_of, execution_of, attachments_at, content_named, id_at, draft_of, cells_at, drafts_of};

use crate::draft::{Age, Draft, Drafts};
use crate::listed::Listed;
use crate::notebook::{Content, Execution};
use crate::output_fields::{kept_object, read_outputs};
use crate::taken::taken_list;
use json_form::{Bad, Fault, Json, Text, Whole, joined_field, part, text_field};
use serde_json::Value;
use std::alloc::Global;

/// All fields of a notebook, in the order of the definition. What was read of a cell goes before the next one is.
#[tactic(auto, unfolding(crate::specs::Fields::drafts_of))]
pub(crate) fn read_drafts(alloc: Global, age: Age, value: Value) -> Result<Drafts, Bad>
    requires { has_float (view value) ≡ false }
    ensures { Gives result (drafts_of age (view value)) }
{
    let metadata = kept_object(alloc, &value, "metadata");
    let cells = cells_field(alloc, age, value)?;
    Ok(Drafts {
        cells,
        metadata: metadata?,
    })
}

#[tactic(auto, unfolding(crate::specs::Fields::cells_at))]
fn cells_field(alloc: Global, age: Age, value: Value) -> Result<Listed<Draft>, Bad>
    requires { has_float (view value) ≡ false }
    ensures { Gives result (cells_at age (view value)) }
{
    cells(alloc, age, taken_list(value, "cells")?)
}

fn cells(alloc: Global, age: Age, items: Vec<Value>) -> Result<Listed<Draft>, Bad>
    requires { items_have_float (items_view items.items) ≡ false }
    ensures { Gives result (each (draft_of age) (items_view items.items)) }
{
    let mut found = Vec::with_capacity(alloc, items.len())?;
    for item in items {
        let draft = draft(alloc, age, &item)?;
        found.push(draft)?;
    }
    Ok(Listed::new(found))
}

#[tactic(auto, unfolding(crate::specs::Fields::draft_of))]
fn draft(alloc: Global, age: Age, value: &Value) -> Result<Draft, Bad>
    requires { has_float (view value.now) ≡ false }
    ensures { Gives result (draft_of age (view value.now)) }
{
    let kind = text_field(value, "cell_type")?;
    let id = id_field(alloc, age, value)?;
    let metadata = kept_object(alloc, value, "metadata")?;
    let source = joined_field(alloc, value, "source")?;
    let content = content(alloc, kind, value)?;
    Ok(Draft {
        id,
        metadata,
        source,
        content,
    })
}

#[tactic(auto, unfolding(crate::specs::Fields::id_at))]
fn id_field(alloc: Global, age: Age, value: &Value) -> Result<Option<Text>, Bad>
    ensures { Gives result (id_at age (view value.now)) }
{
    match value.get("id") {
        None => match age {
            Age::Current => Err(Bad::Fault(Fault::Missing)),
            Age::Older => Ok(None),
        },
        Some(field) => {
            let id = field.as_str().ok_or(Fault::WrongKind)?;
            Ok(Some(Text::from_str(alloc, id)?))
        }
    }
}

#[tactic(auto, unfolding(crate::specs::Fields::content_named))]
fn content(alloc: Global, kind: &str, value: &Value) -> Result<Content, Bad>
    requires { has_float (view value.now) ≡ false }
    ensures { Gives result (content_named kind.now (view value.now)) }
{
    if kind == "code" {
        Ok(Content::Code(execution(alloc, value)?))
    } else if kind == "markdown" {
        let attachments = attachments(alloc, value)?;
        Ok(Content::Markdown { attachments })
    } else if kind == "raw" {
        let attachments = attachments(alloc, value)?;
        Ok(Content::Raw { attachments })
    } else {
        Err(Bad::Fault(Fault::WrongKind))
    }
}

#[tactic(auto, unfolding(crate::specs::Fields::execution_of))]
fn execution(alloc: Global, value: &Value) -> Result<Execution, Bad>
    requires { has_float (view value.now) ≡ false }
    ensures { Gives result (execution_of (view value.now)) }
{
    let execution_count = count_field(value)?;
    let outputs = read_outputs(alloc, value)?;
    Ok(Execution {
        execution_count,
        outputs,
    })
}

#[tactic(auto, unfolding(crate::specs::Fields::count_at))]
fn count_field(value: &Value) -> Result<Option<Whole>, Fault>
    ensures { result ≡ count_at (view value.now) }
{
    match value.get("execution_count") {
        None => Err(Fault::Missing),
        Some(field) => count(field).ok_or(Fault::WrongKind),
    }
}

/// `null`, or a whole number.
fn count(value: &Value) -> Option<Option<Whole>>
    ensures { result ≡ count_of (view value.now) }
{
    match value {
        Value::Null => Some(None),
        Value::Number(_) => Some(Some(Whole::of(value)?)),
        _ => None,
    }
}

#[tactic(auto, unfolding(crate::specs::Fields::attachments_at))]
fn attachments(alloc: Global, value: &Value) -> Result<Option<Json>, Bad>
    requires { has_float (view value.now) ≡ false }
    ensures { Gives result (attachments_at (view value.now)) }
{
    match part(value, "attachments") {
        None => Ok(None),
        Some(field) => {
            if !field.is_object() {
                return Err(Bad::Fault(Fault::WrongKind));
            }
            Ok(Some(Json::keep(field)?))
        }
    }
}
