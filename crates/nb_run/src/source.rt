//! Notebooks from a shelf.

ghost use Rattle.std.specs.Prelude.{◌≡◌, ◌≤◌, ℕ, List, Ok, IfOk};
ghost use Rattle.serde_json.specs.Data.{depth};
ghost use Rattle.serde_json.specs.Read.{max_depth};
ghost use Rattle.js_shelf.specs.declared.item.Item.TheVariants.{File};
ghost use Rattle.js_shelf.specs.Shelves.{Tells, Gets};
ghost use Rattle.nb_doc.specs.Documents.{IsDocument};
ghost use Rattle.nb_doc.specs.TextForms.{IsNotebookText};
ghost use Rattle.nb_doc.specs.Writing.{notebook_form};

use crate::status::RunFault;
use js_shelf::{Item, Shelf, ShelfRefusal};
use nb_doc::{NbBad, Notebook};
use nb_read::read_notebook;
use std::alloc::Global;

/// The notebook in a file of a shelf.
///
/// # Errors
///
/// `Unread` where there is no file that can be read, `NoNotebook` where it is no notebook of 4.0 to 4.5, `Memory`.
pub fn read_from<S: Shelf>(alloc: Global, shelf: &mut S, path: &str) -> Result<Notebook, RunFault>
    ensures found { IfOk result (λ n. (bytes : List ℕ) × IsNotebookText bytes n
        × Tells (S.contents shelf.old) (S.contents shelf.new) (Gets path.now (Ok (File bytes)))) }
    ensures document { IfOk result IsDocument }
    ensures shallow { IfOk result (λ n. depth (notebook_form n) ≤ max_depth) }
{
    match shelf.get(path) {
        Ok(Item::File(bytes)) => match read_notebook(alloc, bytes.as_slice()) {
            Ok(notebook) => Ok(notebook),
            Err(NbBad::Memory) => Err(RunFault::Memory),
            Err(NbBad::Fault(fault)) => Err(RunFault::NoNotebook(fault)),
        },
        Ok(Item::Folder) => Err(RunFault::Unread),
        Err(ShelfRefusal::Memory) => Err(RunFault::Memory),
        Err(_) => Err(RunFault::Unread),
    }
}
