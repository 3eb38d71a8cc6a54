//! What stands in a recorder's file before it saves there. What somebody else made of it is not overwritten unseen.
ghost use Rattle.std.specs.Prelude.{◌≡◌, ◌≤◌, false, IfOk, OnOk, OnErr};
ghost use Rattle.serde_json.specs.Data.{depth};
ghost use Rattle.serde_json.specs.Read.{max_depth};
ghost use Rattle.nb_doc.specs.Documents.{IsDocument};
ghost use Rattle.nb_doc.specs.Writing.{notebook_form};
ghost use Rattle.js_shelf.specs.Shelves.{Tells, HasCause, Gets, Renames};
ghost use Rattle.js_follow.specs.Changing as spec;

use crate::joining::joint;
use js_shelf::{Bytes, Item, ItemKind, Shelf, ShelfRefusal};
use js_tables::Recording;
use json_form::Text;
use nb_doc::{NbBad, Notebook};
use nb_read::read_notebook;
use std::alloc::{AllocError, Global};

fn are(bytes: &[u8], other: &Option<Bytes>) -> bool
    ensures { result ≡ spec.are bytes.now other.now }
{
    match other {
        None => false,
        Some(other) => bytes == other.as_slice(),
    }
}

/// Whether a file of these bytes is the recorder's own.
fn is_own(recording: &Recording, bytes: &[u8]) -> bool
    ensures { result ≡ spec.is_own bytes.now recording.now }
{
    are(bytes, &recording.known) || are(bytes, &recording.tried)
}

/// A file of more bytes is not read, unless it may be the recorder's own.
const MAX_READ: u64 = 64 << 20;

/// Whether a file of `count` bytes may hold these.
fn has_length(count: u64, bytes: &Option<Bytes>) -> bool
    ensures { result ≡ spec.has_length count bytes.now }
{
    match bytes {
        None => false,
        Some(bytes) => count == bytes.count(),
    }
}

/// Whether a file of `count` bytes may be the recorder's own.
fn may_be_own(recording: &Recording, count: u64) -> bool
    ensures { result ≡ spec.may_be_own count recording.now }
{
    has_length(count, &recording.known) || has_length(count, &recording.tried)
}

/// Whether a file of `count` bytes is read.
fn is_read(recording: &Recording, count: u64) -> bool
    ensures { result ≡ spec.is_read count recording.now }
{
    count <= MAX_READ || may_be_own(recording, count)
}

/// The notebook that a recorder knew of its file.
fn notebook_known(alloc: Global, known: &Option<Bytes>) -> Result<Notebook, AllocError>
    ensures { IfOk result (λ n. n ≡ spec.notebook_known known.now) }
{
    match known {
        None => Ok(Notebook::empty(alloc)),
        Some(bytes) => match read_notebook(alloc, bytes.as_slice()) {
            Ok(notebook) => Ok(notebook),
            Err(NbBad::Fault(_)) => Ok(Notebook::empty(alloc)),
            Err(NbBad::Memory) => Err(AllocError),
        },
    }
}

/// A recorder takes the notebook that somebody else made of its file, which holds these bytes.
fn take(
    alloc: Global,
    recording: &mut Recording,
    theirs: Notebook,
    bytes: Bytes,
) -> Result<(), AllocError>
    requires document { IsDocument theirs }
    requires shallow { depth (notebook_form theirs) ≤ max_depth }
    ensures ok { OnOk result (spec.HasTaken theirs bytes recording.old recording.new) }
    ensures err { OnErr result (recording.new ≡ recording.old) }
{
    let known = notebook_known(alloc, &recording.known)?;
    let joint = joint(alloc, &known, recording.recorder.notebook(), theirs)?;
    recording.recorder.put(joint)?;
    recording.known = Some(bytes);
    recording.tried = None;
    Ok(())
}

/// Where a file goes that is no notebook.
fn beside(alloc: Global, path: &str, date: &Text) -> Result<Text, AllocError>
    ensures { IfOk result (λ place. place ≡ spec.beside path.now date.now) }
{
    let mut place = String::from_str(alloc, path)?;
    place.push_str(".")?;
    place.push_str(date.as_str())?;
    Ok(Text::from_string(place))
}

fn set_aside<S: Shelf>(
    alloc: Global,
    shelf: &mut S,
    path: &str,
    date: &Text,
) -> Result<(), ShelfRefusal>
    ensures renames { Tells (S.contents shelf.old) (S.contents shelf.new) (Renames path.now (spec.beside path.now date.now) result) }
    ensures cause { HasCause (S.faults shelf.old) (S.faults shelf.new) result }
{
    let place = beside(alloc, path, date)?;
    shelf.rename(path, place.as_str())
}

/// Meets a file of these bytes that is not the recorder's own.
fn meet_change<S: Shelf>(
    alloc: Global,
    recording: &mut Recording,
    shelf: &mut S,
    path: &str,
    date: &Text,
    bytes: Bytes,
) -> Result<(), ShelfRefusal>
    ensures { spec.MeetsFile (S.contents shelf.old) (S.contents shelf.new) (S.faults shelf.old) (S.faults shelf.new) false bytes path.now date.now result recording.old recording.new }
{
    match read_notebook(alloc, bytes.as_slice()) {
        Ok(theirs) => Ok(take(alloc, recording, theirs, bytes)?),
        Err(NbBad::Fault(_)) => set_aside(alloc, shelf, path, date),
        Err(NbBad::Memory) => Err(ShelfRefusal::Memory),
    }
}

fn meet_file<S: Shelf>(
    alloc: Global,
    recording: &mut Recording,
    shelf: &mut S,
    path: &str,
    date: &Text,
    bytes: Bytes,
) -> Result<(), ShelfRefusal>
    ensures { spec.MeetsFile (S.contents shelf.old) (S.contents shelf.new) (S.faults shelf.old) (S.faults shelf.new) (spec.is_own bytes recording.old) bytes path.now date.now result recording.old recording.new }
{
    if !is_own(recording, bytes.as_slice()) {
        return meet_change(alloc, recording, shelf, path, date, bytes);
    }
    recording.known = Some(bytes);
    recording.tried = None;
    Ok(())
}

/// Where nothing stands at the path, the save makes the file anew.
fn unless_missing(refusal: ShelfRefusal) -> Result<(), ShelfRefusal>
    ensures { result ≡ spec.unless_missing refusal }
{
    match refusal {
        ShelfRefusal::Missing => Ok(()),
        other => Err(other),
    }
}

/// Reads what stands at a path, and meets it.
fn read_and_meet<S: Shelf>(
    alloc: Global,
    recording: &mut Recording,
    shelf: &mut S,
    path: &str,
    date: &Text,
) -> Result<(), ShelfRefusal>
    ensures { spec.ReadsAndMeets (S.contents shelf.old) (S.contents shelf.new) (S.faults shelf.old) (S.faults shelf.new) path.now date.now result recording.old recording.new }
{
    match shelf.get(path) {
        Ok(Item::File(bytes)) => meet_file(alloc, recording, shelf, path, date, bytes),
        Ok(Item::Folder) => Ok(()),
        Err(refusal) => unless_missing(refusal),
    }
}

/// Meets a file of `count` bytes.
fn meet_count<S: Shelf>(
    alloc: Global,
    recording: &mut Recording,
    shelf: &mut S,
    path: &str,
    date: &Text,
    count: u64,
) -> Result<(), ShelfRefusal>
    ensures { spec.MeetsCount (S.contents shelf.old) (S.contents shelf.new) (S.faults shelf.old) (S.faults shelf.new) (spec.is_read count recording.old) path.now date.now result recording.old recording.new }
{
    if is_read(recording, count) {
        read_and_meet(alloc, recording, shelf, path, date)
    } else {
        set_aside(alloc, shelf, path, date)
    }
}

/// Looks at a recorder's file before it saves there. A notebook that somebody else made of it is taken. What is no notebook, or too
/// long to be read, goes beside, under the date. After a refusal the recorder is as it was, and must not save.
pub(crate) fn look<S: Shelf>(
    alloc: Global,
    recording: &mut Recording,
    shelf: &mut S,
    path: &str,
    date: &Text,
) -> Result<(), ShelfRefusal>
    ensures { spec.Looks (S.contents shelf.old) (S.contents shelf.new) (S.faults shelf.old) (S.faults shelf.new) path.now date.now result recording.old recording.new }
{
    match shelf.kind(path) {
        Ok(ItemKind::File(count)) => meet_count(alloc, recording, shelf, path, date, count),
        Ok(ItemKind::Folder) => Ok(()),
        Err(refusal) => unless_missing(refusal),
    }
}

// ---- whether a put may take the place of what stands there

/// Where nothing stands at the path, a put makes the file anew.
fn or_free(refusal: ShelfRefusal) -> Result<bool, ShelfRefusal>
    ensures { result ≡ spec.or_free refusal }
{
    match refusal {
        ShelfRefusal::Missing => Ok(true),
        other => Err(other),
    }
}

fn compared(recording: &Recording, found: Result<Item, ShelfRefusal>) -> Result<bool, ShelfRefusal>
    ensures { result ≡ spec.compared found recording.now }
{
    match found {
        Ok(Item::File(bytes)) => Ok(is_own(recording, bytes.as_slice())),
        Ok(Item::Folder) => Ok(true),
        Err(refusal) => or_free(refusal),
    }
}

/// Compares a file of `count` bytes.
fn compare_count<S: Shelf>(
    recording: &Recording,
    shelf: &mut S,
    path: &str,
    count: u64,
) -> Result<bool, ShelfRefusal>
    ensures { spec.ComparesCount (S.contents shelf.old) (S.contents shelf.new) (S.faults shelf.old) (S.faults shelf.new) (spec.may_be_own count recording.now) path.now result recording.now }
{
    if !may_be_own(recording, count) {
        return Ok(false);
    }
    compared(recording, shelf.get(path))
}

/// Whether nobody else changed what stands at a recorder's path, so that a put may take its place. A folder refuses the put itself.
pub(crate) fn is_unchanged<S: Shelf>(
    recording: &Recording,
    shelf: &mut S,
    path: &str,
) -> Result<bool, ShelfRefusal>
    ensures { spec.Compares (S.contents shelf.old) (S.contents shelf.new) (S.faults shelf.old) (S.faults shelf.new) path.now result recording.now }
{
    match shelf.kind(path) {
        Ok(ItemKind::File(count)) => compare_count(recording, shelf, path, count),
        Ok(ItemKind::Folder) => Ok(true),
        Err(refusal) => or_free(refusal),
    }
}
