//! The cells of a notebook, and the notebook.

ghost use Rattle.std.specs.Prelude.{◌≡◌, None, Some, ◌++◌, OnOk};
ghost use Rattle.std.specs.List.{AllByRecursion};
ghost use Rattle.nb_doc.specs.Writing.{joined, code_form, text_form, cell_form, cells_form, notebook_form};
ghost use Rattle.nb_text.specs.Joined.{IsJoinedCell, IsJoined};
ghost use Rattle.nb_text.specs.Tokens.{data_tokens, member_tokens};

use crate::members::{
    write_attachments, write_count, write_json, write_lines, write_text, write_version,
};
use crate::outputs::write_outputs;
use crate::sink::Tokens;
use json::Token;
use json_form::Json;
use nb_doc::{Cell, Content, Execution, Notebook};
use std::alloc::AllocError;

/// A notebook, no neighbouring streams of which have one name.
#[tactic(auto, unfolding(nb_doc::specs::Writing::notebook_form))]
pub(crate) fn write_joined<W: Tokens>(out: &mut W, notebook: &Notebook) -> Result<(), AllocError>
    requires { IsJoined notebook.now }
    ensures { OnOk result (W.Tokens.written out.new ≡ W.Tokens.written out.old ++ data_tokens (notebook_form notebook.now)) }
{
    out.token(Token::BeginObject)?;
    write_cells(out, "cells", notebook.cells.as_slice())?;
    write_json(out, "metadata", &notebook.metadata)?;
    write_version(out, "nbformat", 4)?;
    write_version(out, "nbformat_minor", 5)?;
    out.token(Token::EndObject)
}

#[tactic(auto, unfolding(nb_doc::specs::Writing::cells_form))]
fn write_cells<W: Tokens>(out: &mut W, key: &str, cells: &[Cell]) -> Result<(), AllocError>
    requires { AllByRecursion IsJoinedCell cells.now }
    ensures { OnOk result (W.Tokens.written out.new ≡ W.Tokens.written out.old ++ member_tokens key.now (cells_form cells.now)) }
{
    out.token(Token::Key(key))?;
    out.token(Token::BeginArray)?;
    for cell in cells {
        write_cell(out, cell)?;
    }
    out.token(Token::EndArray)
}

#[tactic(auto, unfolding(nb_doc::specs::Writing::cell_form))]
fn write_cell<W: Tokens>(out: &mut W, cell: &Cell) -> Result<(), AllocError>
    requires { IsJoinedCell cell.now }
    ensures { OnOk result (W.Tokens.written out.new ≡ W.Tokens.written out.old ++ data_tokens (cell_form cell.now)) }
{
    match &cell.content {
        Content::Code(execution) => write_code(out, cell, execution),
        Content::Markdown { attachments } => write_plain(out, "markdown", cell, attachments),
        Content::Raw { attachments } => write_plain(out, "raw", cell, attachments),
    }
}

#[tactic(auto, unfolding(nb_doc::specs::Writing::code_form))]
fn write_code<W: Tokens>(out: &mut W, cell: &Cell, execution: &Execution) -> Result<(), AllocError>
    requires { joined execution.now.outputs ≡ execution.now.outputs }
    ensures { OnOk result (W.Tokens.written out.new
        ≡ W.Tokens.written out.old ++ data_tokens (code_form cell.now.id cell.now.metadata cell.now.source execution.now)) }
{
    out.token(Token::BeginObject)?;
    write_text(out, "cell_type", "code")?;
    write_count(out, "execution_count", execution.execution_count)?;
    write_text(out, "id", cell.id.as_str())?;
    write_json(out, "metadata", &cell.metadata)?;
    write_outputs(out, "outputs", execution.outputs.as_slice())?;
    write_lines(out, "source", cell.source.as_str())?;
    out.token(Token::EndObject)
}

/// A cell of text, with its attachments where it has some.
#[tactic(auto, using(crate::proofs::Plain::plain_tokens))]
fn write_plain<W: Tokens>(
    out: &mut W,
    kind: &str,
    cell: &Cell,
    attachments: &Option<Json>,
) -> Result<(), AllocError>
    ensures { OnOk result (W.Tokens.written out.new
        ≡ W.Tokens.written out.old ++ data_tokens (text_form kind.now cell.now.id cell.now.metadata cell.now.source attachments.now)) }
{
    out.token(Token::BeginObject)?;
    write_attachments(out, attachments)?;
    write_text(out, "cell_type", kind)?;
    write_text(out, "id", cell.id.as_str())?;
    write_json(out, "metadata", &cell.metadata)?;
    write_lines(out, "source", cell.source.as_str())?;
    out.token(Token::EndObject)
}
