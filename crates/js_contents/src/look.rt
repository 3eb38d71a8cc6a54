//! What stands at a path, by a look that changes nothing.
ghost use Rattle.std.specs.Prelude.{◌≡◌};
ghost use Rattle.js_shelf.specs.Shelves.{Tells};
ghost use Rattle.js_contents.specs.Looks as spec;

use js_shelf::{Item, ItemKind, Names, Opening, Shelf, ShelfRefusal};
use js_tables::Refusal;

fn shown_opening(answer: Result<Opening, ShelfRefusal>) -> Result<Opening, Refusal>
    ensures { result ≡ spec.shown_opening answer }
{
    match answer {
        Ok(opening) => Ok(opening),
        Err(cause) => Err(Refusal::from(cause)),
    }
}

fn shown_present<T: Drop>(answer: Result<T, ShelfRefusal>) -> Result<Option<T>, Refusal>
    ensures { result ≡ spec.shown_present answer }
{
    match answer {
        Ok(found) => Ok(Some(found)),
        Err(ShelfRefusal::Missing) => Ok(None),
        Err(cause) => Err(Refusal::from(cause)),
    }
}

fn shown_kind(answer: Result<ItemKind, ShelfRefusal>) -> Result<ItemKind, Refusal>
    ensures { result ≡ spec.shown_kind answer }
{
    match answer {
        Ok(kind) => Ok(kind),
        Err(cause) => Err(Refusal::from(cause)),
    }
}

pub(crate) fn is_folder(kind: ItemKind) -> bool
    ensures { result ≡ spec.is_folder_kind kind }
{
    match kind {
        ItemKind::File(_) => false,
        ItemKind::Folder => true,
    }
}

fn shown_folder(answer: Result<ItemKind, ShelfRefusal>) -> Option<bool>
    ensures { result ≡ spec.shown_folder answer }
{
    match answer {
        Ok(kind) => Some(is_folder(kind)),
        Err(ShelfRefusal::Device) => None,
        Err(ShelfRefusal::Memory) => None,
        Err(_) => Some(false),
    }
}

fn shown_names(answer: Result<Names, ShelfRefusal>) -> Result<Names, Refusal>
    ensures { result ≡ spec.shown_names answer }
{
    match answer {
        Ok(names) => Ok(names),
        Err(cause) => Err(Refusal::from(cause)),
    }
}

/// Opens what stands at a path, where something does.
pub(crate) fn open_at<S: Shelf>(shelf: &mut S, path: &str) -> Result<Opening, Refusal>
    ensures { Tells (S.contents shelf.old) (S.contents shelf.new) (spec.OpensAt path.now result) }
{
    shown_opening(shelf.open(path))
}

/// The kind of what stands at a path, where something does.
pub(crate) fn kind_at<S: Shelf>(shelf: &mut S, path: &str) -> Result<ItemKind, Refusal>
    ensures { Tells (S.contents shelf.old) (S.contents shelf.new) (spec.FindsKind path.now result) }
{
    shown_kind(shelf.kind(path))
}

/// The kind of what stands at a path, if something does.
pub(crate) fn present<S: Shelf>(shelf: &mut S, path: &str) -> Result<Option<ItemKind>, Refusal>
    ensures { Tells (S.contents shelf.old) (S.contents shelf.new) (spec.Presents path.now result) }
{
    shown_present(shelf.kind(path))
}

/// What stands at a path, if something does.
pub(crate) fn present_item<S: Shelf>(shelf: &mut S, path: &str) -> Result<Option<Item>, Refusal>
    ensures { Tells (S.contents shelf.old) (S.contents shelf.new) (spec.PresentsItem path.now result) }
{
    shown_present(shelf.get(path))
}

/// Whether a folder stands at a path; none where the device or memory failed.
pub fn has_folder<S: Shelf>(shelf: &mut S, path: &str) -> Option<bool>
    ensures { Tells (S.contents shelf.old) (S.contents shelf.new) (spec.HasFolder path.now result) }
{
    shown_folder(shelf.kind(path))
}

/// The names of what stands in a folder.
pub fn names_in<S: Shelf>(shelf: &mut S, path: &str) -> Result<Names, Refusal>
    ensures { Tells (S.contents shelf.old) (S.contents shelf.new) (spec.HasNames path.now result) }
{
    shown_names(shelf.list(path))
}
