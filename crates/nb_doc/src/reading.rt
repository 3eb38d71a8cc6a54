//! Reading notebooks.

ghost use Rattle.std.specs.Prelude.{◌≡◌, ◌<◌, ◌≤◌, ◌^◌, false, length, Ok, IfOk};
ghost use Rattle.serde_json.specs.Data.{depth};
ghost use Rattle.serde_json.specs.Read.{max_depth};
ghost use Rattle.serde_json.specs.View.{view};
ghost use Rattle.serde_json.specs.Written.{has_float};
ghost use Rattle.json_form.specs.Forms.{Gives};
ghost use Rattle.nb_doc.specs.Steps.{Answers};
ghost use Rattle.nb_doc.specs.declared.notebook.Notebook.{Notebook};
ghost use Rattle.nb_doc.specs.Documents.{IsDocument};
ghost use Rattle.nb_doc.specs.TextForms.{IsNotebook, IsNotebookText};
ghost use Rattle.nb_doc.specs.Reading.{json_at, notebook_of, notebook_at};
ghost use Rattle.nb_doc.specs.Writing.{notebook_form};

use crate::cell_ids::raise_cells;
use crate::fault::NbBad;
use crate::fields::read_drafts;
use crate::ids::read_ids;
use crate::notebook::Notebook;
use crate::version::read_version;
use json_form::{Bad, Json};
use serde_json::Value;
use std::alloc::Global;

/// The notebook that a text is, or its first fault, in the order of `NbFault`. A text of version 4.0 to 4.4 is
/// raised to 4.5: a cell that has no id gets `run-` and the least number from 1 that no cell of the text has and no
/// earlier cell got. Fields that have no name in the format are dropped.
pub fn read_notebook(alloc: Global, text: &[u8]) -> Result<Notebook, NbBad>
    // What is read is the text's notebook.
    ensures found { IfOk result (IsNotebookText text.now) }
    // A text that is a notebook is read, unless memory runs out.
    ensures only { (n : Notebook) → IsNotebookText text.now n → Answers result (Ok n) }
    // Which fault it is.
    ensures exact { Answers result (notebook_at text.now) }
    // It is a document of 4.5: all ids are allowed and distinct, those too that were given.
    ensures document { IfOk result IsDocument }
    // Once it is written it nests no deeper than JSON is read, so that what is written reads back.
    ensures shallow { IfOk result (λ n. depth (notebook_form n) ≤ max_depth) }
{
    notebook_in(alloc, text)
}

/// The notebook that a JSON value is, or its first fault, in the order of `NbFault`: what `read_notebook` finds in each
/// text of this value. The value is used up, and what was read of a cell goes before the next one is read.
pub fn notebook_of_value(alloc: Global, value: Value) -> Result<Notebook, NbBad>
    requires { has_float (view value) ≡ false }
    // What is found is the value's notebook.
    ensures found { IfOk result (IsNotebook (view value)) }
    // A value that is a notebook is found to be one, unless memory runs out.
    ensures only { (n : Notebook) → IsNotebook (view value) n → Answers result (Ok n) }
    // Which fault it is.
    ensures exact { Answers result (notebook_of (view value)) }
    // It is a document of 4.5, as what is read of a text is.
    ensures document { IfOk result IsDocument }
    // Once it is written it nests no deeper than JSON is read, where the value does not either.
    ensures shallow { depth (view value) ≤ max_depth → IfOk result (λ n. depth (notebook_form n) ≤ max_depth) }
{
    notebook(alloc, value)
}

#[tactic(auto, using(crate::proofs::Passes::passes_fault), unfolding(crate::specs::Reading::notebook_at))]
fn notebook_in(alloc: Global, text: &[u8]) -> Result<Notebook, NbBad>
    ensures exact { Answers result (notebook_at text.now) }
    ensures few { IfOk result (λ n. length n.cells < 2 ^ 64) }
{
    let json = read_json(alloc, text)?;
    notebook(alloc, json.into_value())
}

#[tactic(auto, unfolding(crate::specs::Reading::json_at))]
fn read_json(alloc: Global, text: &[u8]) -> Result<Json, Bad>
    ensures { Gives result (json_at text.now) }
{
    Json::read_bytes(alloc, text)
}

#[tactic(auto, using(crate::proofs::Passes::passes_fault, crate::proofs::Passes::refuses_later), unfolding(crate::specs::Reading::notebook_of))]
fn notebook(alloc: Global, value: Value) -> Result<Notebook, NbBad>
    requires { has_float (view value) ≡ false }
    ensures exact { Answers result (notebook_of (view value)) }
    ensures few { IfOk result (λ n. length n.cells < 2 ^ 64) }
{
    let age = read_version(&value)?;
    let drafts = read_drafts(alloc, age, value)?;
    let ids = read_ids(alloc, drafts.cells.as_slice())?;
    Ok(Notebook {
        cells: raise_cells(alloc, drafts.cells, ids)?,
        metadata: drafts.metadata,
    })
}
