//! Writing the outputs of a cell, neighbouring streams of one name joined.

ghost use Rattle.std.specs.Prelude.{◌≡◌, false, List, ◌∷◌, ◌++◌, Some, IfOk};
ghost use Rattle.serde_json.specs.View.{view};
ghost use Rattle.serde_json.specs.Written.{has_float};
ghost use Rattle.nb_doc.specs.declared.notebook.Output.{Output};
ghost use Rattle.nb_doc.specs.declared.notebook.Output.TheVariants.{Stream as StreamOutput};
ghost use Rattle.nb_doc.specs.OutputRow.{forms, row_forms, closed_forms};
ghost use Rattle.nb_doc.specs.Writing.{stream_form, error_form, outputs_form};

use crate::lines::{lines_value, texts_value};
use crate::notebook::Output;
use crate::row::Row;
use json_form::Text;
use serde_json::{Value, json};
use std::alloc::{AllocError, Global};

/// A stream that the next output may go on with.
#[derive(Drop)]
struct OpenStream {
    name: Text,
    text: Text,
}

/// What is written of a cell's outputs, and the stream that comes next.
#[derive(Drop)]
struct OutputRow {
    written: Row,
    open: Option<OpenStream>,
}

/// The outputs of a cell.
#[tactic(auto, unfolding(crate::specs::Writing::outputs_form))]
pub(crate) fn outputs_value(alloc: Global, outputs: &[Output]) -> Result<Value, AllocError>
    ensures form { IfOk result (λ v. view v ≡ outputs_form outputs.now) }
    ensures whole { IfOk result (λ v. has_float (view v) ≡ false) }
{
    let mut row = OutputRow {
        written: Row::empty(alloc),
        open: None,
    };
    for output in outputs {
        row = with_output(alloc, row, output)?;
    }
    let written = closed(alloc, row)?;
    Ok(written.into_value())
}

fn with_output(alloc: Global, row: OutputRow, output: &Output) -> Result<OutputRow, AllocError>
    ensures { IfOk result (λ r. (rest : List Output) → row_forms r rest ≡ row_forms row (output.now ∷ rest)) }
{
    match output {
        Output::Stream { name, text } => with_stream(alloc, row, name, text),
        Output::Error {
            ename,
            evalue,
            traceback,
        } => {
            let value = error_value(alloc, ename, evalue, traceback.as_slice())?;
            with_other(alloc, row, value)
        }
        Output::Kept(json) => with_other(alloc, row, json.copy()?.into_value()),
    }
}

fn with_stream(
    alloc: Global,
    row: OutputRow,
    name: &Text,
    text: &Text,
) -> Result<OutputRow, AllocError>
    ensures { IfOk result (λ r. (rest : List Output)
        → row_forms r rest ≡ row_forms row (StreamOutput name.now text.now ∷ rest)) }
{
    let OutputRow { mut written, open } = row;
    match open {
        None => begun(written, name, text),
        Some(stream) => if stream.name.as_str() == name.as_str() {
            Ok(OutputRow {
                written,
                open: Some(longer(stream, text)?),
            })
        } else {
            written.push(stream_value(alloc, &stream)?)?;
            begun(written, name, text)
        },
    }
}

fn begun(written: Row, name: &Text, text: &Text) -> Result<OutputRow, AllocError>
    ensures written { IfOk result (λ r. r.written ≡ written) }
    ensures open { IfOk result (λ r. r.open ≡ Some (record { name = name.now; text = text.now })) }
{
    let stream = OpenStream {
        name: name.copy()?,
        text: text.copy()?,
    };
    Ok(OutputRow {
        written,
        open: Some(stream),
    })
}

fn longer(stream: OpenStream, text: &Text) -> Result<OpenStream, AllocError>
    ensures { IfOk result (λ s. s ≡ record stream { text = stream.text ++ text.now }) }
{
    let OpenStream { name, text: before } = stream;
    let mut whole = before.into_string();
    whole.push_str(text.as_str())?;
    Ok(OpenStream {
        name,
        text: Text::from_string(whole),
    })
}

/// An output that is no stream, already in JSON.
fn with_other(alloc: Global, row: OutputRow, value: Value) -> Result<OutputRow, AllocError>
    requires { has_float (view value) ≡ false }
    ensures { IfOk result (λ r. (rest : List Output)
        → row_forms r rest ≡ closed_forms row ++ view value ∷ forms rest) }
{
    let mut written = closed(alloc, row)?;
    written.push(value)?;
    Ok(OutputRow {
        written,
        open: None,
    })
}

/// All that is written, the open stream at last.
fn closed(alloc: Global, row: OutputRow) -> Result<Row, AllocError>
    ensures { IfOk result (λ w. w ≡ closed_forms row) }
{
    let OutputRow { mut written, open } = row;
    if let Some(stream) = open {
        written.push(stream_value(alloc, &stream)?)?;
    }
    Ok(written)
}

#[tactic(auto, unfolding(crate::specs::Writing::stream_form))]
fn stream_value(alloc: Global, stream: &OpenStream) -> Result<Value, AllocError>
    ensures form { IfOk result (λ v. view v ≡ stream_form stream.now.name stream.now.text) }
    ensures whole { IfOk result (λ v. has_float (view v) ≡ false) }
{
    let text = lines_value(alloc, stream.text.as_str())?;
    json!(in alloc; {
        "name": stream.name.as_str(),
        "output_type": "stream",
        "text": text
    })
}

#[tactic(auto, unfolding(crate::specs::Writing::error_form))]
fn error_value(
    alloc: Global,
    ename: &Text,
    evalue: &Text,
    traceback: &[Text],
) -> Result<Value, AllocError>
    ensures form { IfOk result (λ v. view v ≡ error_form ename.now evalue.now traceback.now) }
    ensures whole { IfOk result (λ v. has_float (view v) ≡ false) }
{
    let traceback = texts_value(alloc, traceback)?;
    json!(in alloc; {
        "ename": ename.as_str(),
        "evalue": evalue.as_str(),
        "output_type": "error",
        "traceback": traceback
    })
}
