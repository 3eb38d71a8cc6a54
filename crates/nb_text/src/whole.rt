//! The text of a notebook.

ghost use Rattle.std.specs.Prelude.{◌≡◌, ◌++◌, OnOk, IfOk};
ghost use Rattle.nb_doc.specs.Writing.{notebook_form, notebook_text};
ghost use Rattle.nb_text.specs.Tokens.{data_tokens};

use crate::cells::write_joined;
use crate::joined::is_joined;
use crate::sink::Tokens;
use crate::values::write_value;
use json::Pretty;
use nb_doc::{Notebook, notebook_value};
use std::alloc::{AllocError, Global};

/// A notebook, with no JSON value of it in between where its streams are joined already.
pub(crate) fn write_book<W: Tokens>(
    alloc: Global,
    out: &mut W,
    notebook: &Notebook,
) -> Result<(), AllocError>
    ensures { OnOk result (W.Tokens.written out.new ≡ W.Tokens.written out.old ++ data_tokens (notebook_form notebook.now)) }
{
    if is_joined(notebook) {
        return write_joined(out, notebook);
    }
    let value = notebook_value(alloc, notebook)?;
    write_value(&value, out)
}

/// The one text of a notebook, as `nb_doc` writes it.
#[tactic(auto, unfolding(nb_doc::specs::Writing::notebook_text, json_form::specs::Forms::pretty_text))]
pub fn write_notebook(alloc: Global, notebook: &Notebook) -> Result<Vec<u8>, AllocError>
    ensures { IfOk result (λ b. b.items ≡ notebook_text notebook.now) }
{
    let mut out = Pretty::new(alloc);
    write_book(alloc, &mut out, notebook)?;
    let mut text = out.into_inner();
    text.push(b'\n')?;
    Ok(text)
}
