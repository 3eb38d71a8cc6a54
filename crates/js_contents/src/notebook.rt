//! Notebooks as contents.
ghost use Rattle.std.specs.Prelude.{◌≡◌, ◌≤◌, IfOk};
ghost use Rattle.serde_json.specs.Data.{depth};
ghost use Rattle.serde_json.specs.Read.{max_depth};
ghost use Rattle.nb_doc.specs.Writing.{notebook_form};
ghost use Rattle.nb_doc.specs.Documents.{IsDocument};
ghost use Rattle.js_shelf.specs.Shelves.{Tells};
ghost use Rattle.js_tables.specs.Plans.{Gives};
ghost use Rattle.js_contents.specs.Notebooks as spec;

use crate::look::present_item;
use js_http::ErrorStatus;
use js_shelf::{Bytes, Item, Shelf};
use js_tables::Refusal;
use json_form::Json;
use nb_doc::{NbBad, Notebook, notebook_of_value, write_notebook};
use nb_read::read_notebook;
use std::alloc::{AllocError, Global};

fn read_answer(answer: Result<Notebook, NbBad>) -> Result<Notebook, Refusal>
    ensures { result ≡ spec.read_answer answer }
{
    match answer {
        Ok(notebook) => Ok(notebook),
        Err(NbBad::Fault(_)) => Err(Refusal::Status(ErrorStatus::BadRequest)),
        Err(NbBad::Memory) => Err(Refusal::Failed),
    }
}

/// The notebook that bytes are. Others are a bad request.
#[tactic(auto, using(crate::proofs::Books::gives_answer))]
pub(crate) fn notebook_in(alloc: Global, bytes: &[u8]) -> Result<Notebook, Refusal>
    ensures exact { Gives result (spec.notebook_in bytes.now) }
    ensures document { IfOk result IsDocument }
    ensures shallow { IfOk result (λ n. depth (notebook_form n) ≤ max_depth) }
{
    read_answer(read_notebook(alloc, bytes))
}

/// The notebook that a JSON value is. Others are a bad request.
#[tactic(auto, using(crate::proofs::Books::gives_answer))]
pub(crate) fn notebook_of(alloc: Global, content: Json) -> Result<Notebook, Refusal>
    requires { depth content ≤ max_depth }
    ensures exact { Gives result (spec.notebook_of content) }
    ensures document { IfOk result IsDocument }
    ensures shallow { IfOk result (λ n. depth (notebook_form n) ≤ max_depth) }
{
    read_answer(notebook_of_value(alloc, content.into_value()))
}

/// The file that keeps a notebook.
#[tactic(auto, unfolding(crate::specs::Notebooks::notebook_file))]
pub(crate) fn notebook_file(alloc: Global, notebook: &Notebook) -> Result<Item, AllocError>
    ensures { IfOk result (λ item. item ≡ spec.notebook_file notebook.now) }
{
    Ok(Item::File(Bytes::from(write_notebook(alloc, notebook)?)))
}

/// What a recorder begins with: a notebook, and the bytes of the file that it was read of, if there is one.
#[derive(Drop)]
pub struct First {
    pub notebook: Notebook,
    pub known: Option<Bytes>,
}

fn begun_file(alloc: Global, bytes: Bytes) -> Result<First, Refusal>
    ensures exact { Gives result (spec.begun_file bytes) }
    ensures document { IfOk result (λ f. IsDocument f.notebook) }
    ensures shallow { IfOk result (λ f. depth (notebook_form f.notebook) ≤ max_depth) }
{
    let notebook = notebook_in(alloc, bytes.as_slice())?;
    Ok(First {
        notebook,
        known: Some(bytes),
    })
}

fn begun(alloc: Global, item: Option<Item>) -> Result<First, Refusal>
    ensures exact { Gives result (spec.begun item) }
    ensures document { IfOk result (λ f. IsDocument f.notebook) }
    ensures shallow { IfOk result (λ f. depth (notebook_form f.notebook) ≤ max_depth) }
{
    match item {
        None => Ok(First {
            notebook: Notebook::empty(alloc),
            known: None,
        }),
        Some(Item::Folder) => Err(Refusal::Status(ErrorStatus::BadRequest)),
        Some(Item::File(bytes)) => begun_file(alloc, bytes),
    }
}

/// What a recorder of a path begins with: an empty notebook where nothing stands there. A folder and an unreadable file are a bad
/// request.
pub fn notebook_for<S: Shelf>(alloc: Global, shelf: &mut S, path: &str) -> Result<First, Refusal>
    ensures exact { Tells (S.contents shelf.old) (S.contents shelf.new) (spec.Begins path.now result) }
    ensures document { IfOk result (λ f. IsDocument f.notebook) }
    ensures shallow { IfOk result (λ f. depth (notebook_form f.notebook) ≤ max_depth) }
{
    let item = present_item(shelf, path)?;
    begun(alloc, item)
}
