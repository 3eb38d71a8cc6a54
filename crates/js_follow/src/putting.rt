//! A notebook that is put, perhaps where the recorder of a session keeps its own.
ghost use Rattle.std.specs.Prelude.{◌≡◌, ◌≤◌, ◌<◌, length, IfSome};
ghost use Rattle.serde_json.specs.Data.{depth};
ghost use Rattle.serde_json.specs.Read.{max_depth};
ghost use Rattle.nb_doc.specs.Documents.{IsDocument};
ghost use Rattle.nb_doc.specs.Writing.{notebook_form};
ghost use Rattle.js_follow.specs.Putting as spec;
ghost use Rattle.js_tables.specs.Tables.{rows, HasRoom};

use crate::changing::is_unchanged;
use crate::following::{place_of, save_to};
use js_shelf::{Bytes, Item, Shelf, ShelfRefusal};
use js_tables::{ReadNotebook, Recording, Tables, find_by_path};
use json_form::Text;
use nb_doc::Notebook;
use std::alloc::Global;

/// Where the recorder of the session at a path stands.
fn recorder_at(tables: &Tables, path: &str) -> Option<usize>
    ensures place { result ≡ spec.recorder_at path.now (rows tables.now) }
    ensures within { IfSome result (λ place. place < length (rows tables.now).recordings) }
{
    match find_by_path(&tables.kernels, path) {
        None => None,
        Some(kernel) => place_of(&tables.recordings, kernel.id.as_str()),
    }
}

/// Gives a recorder a notebook, and saves it at a path, once. A refused save is due. Where there is no memory for the notebook,
/// nothing has changed.
fn take_put<S: Shelf>(
    alloc: Global,
    recording: &mut Recording,
    shelf: &mut S,
    path: Text,
    notebook: Notebook,
) -> Result<(), ShelfRefusal>
    requires document { IsDocument notebook }
    requires shallow { depth (notebook_form notebook) ≤ max_depth }
    ensures { spec.TakesPut (S.contents shelf.old) (S.contents shelf.new) (S.faults shelf.old) (S.faults shelf.new) path notebook result recording.old recording.new }
{
    if recording.recorder.put(notebook).is_err() {
        return Err(ShelfRefusal::Memory);
    }
    recording.due = true;
    save_to(alloc, recording, shelf, path)
}

/// The same, unless somebody else changed the file at the path. That is refused, and a save is due, which takes their change.
#[tactic(auto, unfolding(crate::specs::Putting::GivesTo))]
fn give<S: Shelf>(
    alloc: Global,
    recording: &mut Recording,
    shelf: &mut S,
    path: Text,
    notebook: Notebook,
) -> Result<(), ShelfRefusal>
    requires document { IsDocument notebook }
    requires shallow { depth (notebook_form notebook) ≤ max_depth }
    ensures { spec.GivesTo (S.contents shelf.old) (S.contents shelf.new) (S.faults shelf.old) (S.faults shelf.new) path notebook result recording.old recording.new }
{
    if !is_unchanged(recording, shelf, path.as_str())? {
        recording.due = true;
        return Err(ShelfRefusal::Exists);
    }
    take_put(alloc, recording, shelf, path, notebook)
}

/// Puts the file of a notebook.
fn put_file<S: Shelf>(
    alloc: Global,
    shelf: &mut S,
    path: &Text,
    book: ReadNotebook,
) -> Result<(), ShelfRefusal>
    ensures { spec.PutsFile (S.contents shelf.old) (S.contents shelf.new) (S.faults shelf.old) (S.faults shelf.new) path.now book result }
{
    let text = book.into_text(alloc)?;
    shelf.put(path.as_str(), Item::File(Bytes::from(text)))
}

/// Puts a notebook at a path. The recorder of the session there, if there is one, is given it and saves, once; a refused save is
/// due. Where there is none, the file of the notebook is put.
///
/// # Errors
/// What the shelf refuses, and lack of memory. `Exists` where somebody else changed the recorder's file: a save is due then, which
/// takes their change, and a later put takes the place of both.
pub fn put_book<S: Shelf>(
    alloc: Global,
    tables: &mut Tables,
    shelf: &mut S,
    path: Text,
    book: ReadNotebook,
) -> Result<(), ShelfRefusal>
    requires { HasRoom tables.old }
    ensures puts { spec.PutsBook (S.contents shelf.old) (S.contents shelf.new) (S.faults shelf.old) (S.faults shelf.new) path book result (rows tables.old) (rows tables.new) }
    ensures room { HasRoom tables.new }
{
    match recorder_at(tables, path.as_str()) {
        None => put_file(alloc, shelf, &path, book),
        Some(place) => give(
            alloc,
            &mut tables.recordings[place],
            shelf,
            path,
            book.into_notebook(),
        ),
    }
}
