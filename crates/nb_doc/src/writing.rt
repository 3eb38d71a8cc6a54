//! Writing notebooks.

ghost use Rattle.std.specs.Prelude.{◌≡◌, ◌≤◌, false, Ok, IfOk};
ghost use Rattle.serde_json.specs.Data.{depth};
ghost use Rattle.serde_json.specs.Read.{max_depth};
ghost use Rattle.serde_json.specs.View.{view};
ghost use Rattle.serde_json.specs.Written.{has_float};
ghost use Rattle.nb_doc.specs.Writing.{count_form, code_form, text_form, cell_form, cells_form, notebook_form, notebook_text};
ghost use Rattle.nb_doc.specs.Documents.{IsDocument, joined_notebook};
ghost use Rattle.nb_doc.specs.Reading.{json_at, notebook_at};

use crate::lines::lines_value;
use crate::notebook::{Cell, Content, Execution, Notebook};
use crate::output_row::outputs_value;
use crate::row::Row;
use json_form::{Json, Text, Whole};
use serde_json::{Value, json};
use std::alloc::{AllocError, Global};

/// The one text of a notebook: version 4.5, two blanks a level, each object's keys sorted, a line end at last. A
/// source and the text of a stream are lists of lines, and neighbouring streams of one name are one.
pub fn write_notebook(alloc: Global, notebook: &Notebook) -> Result<Vec<u8>, AllocError>
    ensures text { IfOk result (λ b. b.items ≡ notebook_text notebook.now) }
    // The JSON of the text is the notebook's, if that nests no deeper than JSON is read.
    ensures json { IfOk result (λ b. depth (notebook_form notebook.now) ≤ max_depth
        → json_at b.items ≡ Ok (notebook_form notebook.now)) }
    // A document that nests no deeper than JSON is read reads back, with neighbouring streams joined.
    ensures reads_back { IfOk result (λ b. IsDocument notebook.now
        → depth (notebook_form notebook.now) ≤ max_depth
        → notebook_at b.items ≡ Ok (joined_notebook notebook.now)) }
{
    let value = notebook_value(alloc, notebook)?;
    let mut text = value.to_vec_pretty(alloc)?;
    text.push(b'\n')?;
    Ok(text)
}

/// The JSON value of a notebook, whose text is the notebook's.
#[tactic(auto, unfolding(crate::specs::Writing::notebook_form))]
pub fn notebook_value(alloc: Global, notebook: &Notebook) -> Result<Value, AllocError>
    ensures form { IfOk result (λ v. view v ≡ notebook_form notebook.now) }
    ensures whole { IfOk result (λ v. has_float (view v) ≡ false) }
{
    let cells = cells_value(alloc, notebook.cells.as_slice())?;
    json!(in alloc; {
        "cells": cells,
        "metadata": notebook.metadata.value(),
        "nbformat": 4u64,
        "nbformat_minor": 5u64
    })
}

#[tactic(auto, unfolding(crate::specs::Writing::cells_form))]
fn cells_value(alloc: Global, cells: &[Cell]) -> Result<Value, AllocError>
    ensures form { IfOk result (λ v. view v ≡ cells_form cells.now) }
    ensures whole { IfOk result (λ v. has_float (view v) ≡ false) }
{
    let mut row = Row::empty(alloc);
    for cell in cells {
        row.push(cell_value(alloc, cell)?)?;
    }
    Ok(row.into_value())
}

#[tactic(auto, unfolding(crate::specs::Writing::cell_form))]
fn cell_value(alloc: Global, cell: &Cell) -> Result<Value, AllocError>
    ensures form { IfOk result (λ v. view v ≡ cell_form cell.now) }
    ensures whole { IfOk result (λ v. has_float (view v) ≡ false) }
{
    match &cell.content {
        Content::Code(execution) => code_value(alloc, cell, execution),
        Content::Markdown { attachments } => text_value(alloc, "markdown", cell, attachments),
        Content::Raw { attachments } => text_value(alloc, "raw", cell, attachments),
    }
}

#[tactic(auto, unfolding(crate::specs::Writing::code_form))]
fn code_value(alloc: Global, cell: &Cell, execution: &Execution) -> Result<Value, AllocError>
    ensures form { IfOk result
        (λ v. view v ≡ code_form cell.now.id cell.now.metadata cell.now.source execution.now) }
    ensures whole { IfOk result (λ v. has_float (view v) ≡ false) }
{
    let outputs = outputs_value(alloc, execution.outputs.as_slice())?;
    let source = lines_value(alloc, cell.source.as_str())?;
    json!(in alloc; {
        "cell_type": "code",
        "execution_count": count_value(execution.execution_count),
        "id": cell.id.as_str(),
        "metadata": cell.metadata.value(),
        "outputs": outputs,
        "source": source
    })
}

#[tactic(auto, unfolding(crate::specs::Writing::count_form))]
fn count_value(count: Option<Whole>) -> Value
    ensures form { view result ≡ count_form count }
    ensures whole { has_float (view result) ≡ false }
{
    match count {
        None => Value::Null,
        Some(number) => number.value(),
    }
}

#[tactic(auto, unfolding(crate::specs::Writing::text_form))]
fn text_value(
    alloc: Global,
    kind: &str,
    cell: &Cell,
    attachments: &Option<Json>,
) -> Result<Value, AllocError>
    ensures form { IfOk result (λ v. view v
        ≡ text_form kind.now cell.now.id cell.now.metadata cell.now.source attachments.now) }
    ensures whole { IfOk result (λ v. has_float (view v) ≡ false) }
{
    match attachments {
        None => plain_value(alloc, kind, cell),
        Some(attachments) => attached_value(alloc, kind, cell, attachments),
    }
}

#[tactic(auto, unfolding(crate::specs::Writing::text_form))]
fn plain_value(alloc: Global, kind: &str, cell: &Cell) -> Result<Value, AllocError>
    ensures form { IfOk result (λ v. view v
        ≡ text_form kind.now cell.now.id cell.now.metadata cell.now.source None) }
    ensures whole { IfOk result (λ v. has_float (view v) ≡ false) }
{
    let source = lines_value(alloc, cell.source.as_str())?;
    json!(in alloc; {
        "cell_type": kind,
        "id": cell.id.as_str(),
        "metadata": cell.metadata.value(),
        "source": source
    })
}

#[tactic(auto, unfolding(crate::specs::Writing::text_form))]
fn attached_value(
    alloc: Global,
    kind: &str,
    cell: &Cell,
    attachments: &Json,
) -> Result<Value, AllocError>
    ensures form { IfOk result (λ v. view v
        ≡ text_form kind.now cell.now.id cell.now.metadata cell.now.source (Some attachments.now)) }
    ensures whole { IfOk result (λ v. has_float (view v) ≡ false) }
{
    let source = lines_value(alloc, cell.source.as_str())?;
    json!(in alloc; {
        "attachments": attachments.value(),
        "cell_type": kind,
        "id": cell.id.as_str(),
        "metadata": cell.metadata.value(),
        "source": source
    })
}
