//! Reading the cells of a notebook of 4.5.

ghost use Rattle.std.specs.Prelude.{◌≡◌, IfOk, codes, option_and_then};
ghost use Rattle.serde_json.specs.Find.{get, as_str};
ghost use Rattle.json_form.specs.Forms.{Has};
ghost use Rattle.nb_doc.specs.Fields.{count_of};
ghost use Rattle.nb_doc.specs.TextForms.{HasAttachments, IsCode, IsContentOf, Members};
ghost use Rattle.nb_read.specs.Finds.{Finds};
ghost use Rattle.nb_read.specs.Lent.{data_view, items_data};
ghost use Rattle.nb_read.specs.Own.{IsOwnCell, HasCells};

use crate::fields::{field, joined_field, list_field, object_field, text_field};
use crate::numbers::integer_in;
use crate::outputs::read_outputs;
use crate::unread::Unread;
use json::Value;
use json_form::{Json, Text, Whole};
use nb_doc::{Cell, Content, Execution};
use std::alloc::Global;

/// The cells, each of which has an id.
pub(crate) fn read_cells(alloc: Global, value: &Value<'_>) -> Result<Vec<Cell>, Unread>
    ensures { IfOk result (λ cs. HasCells (data_view value.now) cs.items) }
{
    let items = list_field(value, "cells")?;
    let found = cells(alloc, items)?;
    Ok(found)
}

fn cells(alloc: Global, items: &Vec<Value<'_>>) -> Result<Vec<Cell>, Unread>
    ensures { IfOk result (λ cs. Members IsOwnCell (items_data items.now.items) cs.items) }
{
    let mut found = Vec::with_capacity(alloc, items.len())?;
    for item in items {
        let cell = cell(alloc, item)?;
        found.push(cell)?;
    }
    Ok(found)
}

fn cell(alloc: Global, value: &Value<'_>) -> Result<Cell, Unread>
    ensures { IfOk result (λ c. IsOwnCell (data_view value.now) c) }
{
    let given = text_field(value, "id")?;
    let metadata = object_field(alloc, value, "metadata")?;
    let source = joined_field(alloc, value, "source")?;
    let content = content(alloc, value)?;
    let id = Text::from_str(alloc, given)?;
    Ok(Cell {
        id,
        metadata,
        source,
        content,
    })
}

#[tactic(auto, using(crate::proofs::Named::has_named))]
fn content(alloc: Global, value: &Value<'_>) -> Result<Content, Unread>
    ensures { IfOk result (λ c. IsContentOf (data_view value.now) c) }
{
    let kind = text_field(value, "cell_type")?;
    if kind == "code" {
        let execution = execution(alloc, value)?;
        Ok(Content::Code(execution))
    } else if kind == "markdown" {
        let attachments = attachments(alloc, value)?;
        Ok(Content::Markdown { attachments })
    } else if kind == "raw" {
        let attachments = attachments(alloc, value)?;
        Ok(Content::Raw { attachments })
    } else {
        Err(Unread::Other)
    }
}

fn execution(alloc: Global, value: &Value<'_>) -> Result<Execution, Unread>
    requires { Has as_str (codes "cell_type") (data_view value.now) (codes "code") }
    ensures { IfOk result (λ e. IsCode (data_view value.now) e) }
{
    let execution_count = count_field(value)?;
    let outputs = read_outputs(alloc, value)?;
    Ok(Execution {
        execution_count,
        outputs,
    })
}

fn count_field(value: &Value<'_>) -> Result<Option<Whole>, Unread>
    ensures { Finds result (option_and_then count_of (get (codes "execution_count") (data_view value.now))) }
{
    match field(value, "execution_count") {
        Some(found) => count(found),
        None => Err(Unread::Other),
    }
}

/// `null`, or a whole number.
fn count(value: &Value<'_>) -> Result<Option<Whole>, Unread>
    ensures { Finds result (count_of (data_view value.now)) }
{
    match value {
        Value::Null => Ok(None),
        Value::Number(text) => match integer_in(text) {
            Some(number) => Ok(Some(number)),
            None => Err(Unread::Other),
        },
        _ => Err(Unread::Other),
    }
}

fn attachments(alloc: Global, value: &Value<'_>) -> Result<Option<Json>, Unread>
    ensures { IfOk result (λ a. HasAttachments (data_view value.now) a) }
{
    match field(value, "attachments") {
        None => Ok(None),
        Some(_) => Ok(Some(object_field(alloc, value, "attachments")?)),
    }
}
