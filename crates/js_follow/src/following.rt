//! What a kernel shows goes into the notebook of its session.
ghost use Rattle.std.specs.Prelude.{◌≡◌, ◌≤◌, ◌<◌, take, drop, length, position, slice_get, Some, IfOk};
ghost use Rattle.std.specs.List.{list_any};
ghost use Rattle.std.specs.Str.{bytes_eq};
ghost use Rattle.js_shelf.specs.Shelves.{Tells, HasCause};
ghost use Rattle.nb_record.specs.State.{Saves, ends_stored as is_ending};
ghost use Rattle.js_follow.specs.Following as spec;
ghost use Rattle.js_tables.specs.Tables.{rows};

use crate::changing::look;
use jk_log::Entry;
use js_shelf::{Bytes, Item, Shelf, ShelfRefusal};
use js_tables::{Kernel, Recording, Tables, Update, find_kernel};
use json_form::Text;
use nb_doc::Listed;
use nb_record::ends_stored;
use nb_text::write_notebook;
use std::alloc::{AllocError, Global};

pub(crate) fn place_of(recordings: &[Recording], kernel: &str) -> Option<usize>
    ensures { result ≡ position (λ c. bytes_eq c.kernel kernel.now) recordings.now }
{
    recordings
        .iter()
        .position(|recording| recording.kernel.as_str() == kernel)
}

// ---- telling

/// Whether one of the entries ends a stored cell.
fn end_stored(entries: &[Entry]) -> bool
    ensures { result ≡ list_any is_ending entries.now }
{
    entries.iter().any(|entry| ends_stored(entry))
}

/// Tells a recorder the first of the entries, as many as there is memory for, and answers how many.
fn tell(recording: &mut Recording, entries: &[Entry]) -> usize
    ensures told { spec.HasTold (take result entries.now) recording.old recording.new }
    ensures within { result ≤ length entries.now }
{
    let count = recording.recorder.entries(entries);
    let ended = end_stored(&entries[..count]);
    recording.due = recording.due || ended;
    count
}

/// The entries after the first `count`.
fn rest_of(entries: Vec<Entry>, count: usize) -> Listed<Entry>
    requires { count ≤ length entries.items }
    ensures { result ≡ drop count entries.items }
{
    let mut entries = entries;
    drop(entries.drain(..count));
    Listed::new(entries)
}

// ---- saving

/// The path of a recorder's file: that of its kernel's session.
fn path_of(kernels: &[Kernel], recording: &Recording) -> Result<Text, AllocError>
    ensures { IfOk result (λ path. path ≡ spec.path_of kernels.now recording.now) }
{
    match find_kernel(kernels, recording.kernel.as_str().as_bytes()) {
        None => recording.recorder.path().copy(),
        Some(kernel) => match &kernel.session {
            None => recording.recorder.path().copy(),
            Some(session) => session.path.copy(),
        },
    }
}

/// Saves a recorder that has gone to its path. A refused save is due still.
fn save<S: Shelf>(
    alloc: Global,
    recording: &mut Recording,
    shelf: &mut S,
) -> Result<(), ShelfRefusal>
    ensures recorder { recording.new ≡ spec.saved result recording.old }
    ensures shelf { Tells (S.contents shelf.old) (S.contents shelf.new) (Saves recording.old.recorder result) }
    ensures cause { HasCause (S.faults shelf.old) (S.faults shelf.new) result }
{
    let text = write_notebook(alloc, recording.recorder.notebook())?;
    let copy = Bytes::from(text.clone()?);
    let saved = shelf.put(
        recording.recorder.path().as_str(),
        Item::File(Bytes::from(text)),
    );
    match saved {
        Ok(()) => {
            recording.due = false;
            recording.known = Some(copy);
            recording.tried = None;
        }
        Err(ShelfRefusal::Device) => recording.tried = Some(copy),
        Err(_) => (),
    }
    saved
}

/// Saves a recorder that goes to a path. It says whether that is saved; a refused save is due still.
pub(crate) fn save_to<S: Shelf>(
    alloc: Global,
    recording: &mut Recording,
    shelf: &mut S,
    path: Text,
) -> Result<(), ShelfRefusal>
    ensures { spec.SavesTo (S.contents shelf.old) (S.contents shelf.new) (S.faults shelf.old) (S.faults shelf.new) path result recording.old recording.new }
{
    recording.recorder.moved(path);
    save(alloc, recording, shelf)
}

/// Looks at a recorder's file, and saves it there. It says whether that is saved.
#[tactic(auto, unfolding(crate::specs::Following::LooksAndSaves))]
fn look_and_save<S: Shelf>(
    alloc: Global,
    recording: &mut Recording,
    shelf: &mut S,
    path: Text,
    date: &Text,
) -> Result<(), ShelfRefusal>
    ensures { spec.LooksAndSaves (S.contents shelf.old) (S.contents shelf.new) (S.faults shelf.old) (S.faults shelf.new) path date.now result recording.old recording.new }
{
    look(alloc, recording, shelf, path.as_str(), date)?;
    save_to(alloc, recording, shelf, path)
}

/// The path of a recorder's file and a copy of it.
fn two_paths(kernels: &[Kernel], recording: &Recording) -> Result<(Text, Text), AllocError>
    ensures { IfOk result (λ paths. (paths.0 ≡ spec.path_of kernels.now recording.now) × (paths.1 ≡ spec.path_of kernels.now recording.now)) }
{
    let path = path_of(kernels, recording)?;
    let copy = path.copy()?;
    Ok((path, copy))
}

/// Whether a save was tried: not where memory was refused to it.
fn was_tried(saved: &Result<(), ShelfRefusal>) -> bool
    ensures { result ≡ spec.was_tried saved.now }
{
    match saved {
        Ok(()) => true,
        Err(ShelfRefusal::Memory) => false,
        Err(_) => true,
    }
}

/// Saves the recorder at a place, and says whether that was tried. Where there is no memory, it is due still.
fn save_at<S: Shelf>(
    alloc: Global,
    tables: &mut Tables,
    shelf: &mut S,
    date: &Text,
    place: usize,
) -> bool
    requires { place < length (rows tables.old).recordings }
    ensures { (x : Recording) → slice_get (rows tables.old).recordings place ≡ Some x
        → spec.SavesDue (S.contents shelf.old) (S.contents shelf.new) (S.faults shelf.old) (S.faults shelf.new) result date.now place x (rows tables.old) (rows tables.new) }
{
    if tables.make_room().is_err() {
        return false;
    }
    let Ok((path, file)) = two_paths(&tables.kernels, &tables.recordings[place]) else {
        return false;
    };
    let Ok(saved) = date.copy() else {
        return false;
    };
    let outcome = look_and_save(alloc, &mut tables.recordings[place], shelf, path, date);
    if outcome.is_ok() {
        tables.update(Update::SetDate(file, saved));
        return true;
    }
    was_tried(&outcome)
}

/// Saves the recorder at a place where that is due, and says whether that was tried, or is not due. Where there is no memory, it
/// is due still.
fn save_if_due<S: Shelf>(
    alloc: Global,
    tables: &mut Tables,
    shelf: &mut S,
    date: &Text,
    place: usize,
) -> bool
    requires { place < length (rows tables.old).recordings }
    ensures { (x : Recording) → slice_get (rows tables.old).recordings place ≡ Some x
        → spec.SavesIf (S.contents shelf.old) (S.contents shelf.new) (S.faults shelf.old) (S.faults shelf.new) x.due result date.now place x (rows tables.old) (rows tables.new) }
{
    if tables.recordings[place].due {
        save_at(alloc, tables, shelf, date, place)
    } else {
        true
    }
}

/// What came of entries that a recorder was to follow.
#[derive(Drop)]
pub struct Followed {
    /// The last of them, which the recorder was not told since memory was refused.
    pub rest: Listed<Entry>,
    /// Whether its save was tried, or none is due. It is not where memory was refused to the save, which is due still.
    pub tried: bool,
}

/// Tells the recorder at a place entries, and saves it where that is due.
fn follow_at<S: Shelf>(
    alloc: Global,
    tables: &mut Tables,
    shelf: &mut S,
    date: &Text,
    place: usize,
    entries: Vec<Entry>,
) -> Followed
    requires { place < length (rows tables.old).recordings }
    ensures { spec.FollowsAt (S.contents shelf.old) (S.contents shelf.new) (S.faults shelf.old) (S.faults shelf.new) place date.now entries.items result (rows tables.old) (rows tables.new) }
{
    let count = tell(&mut tables.recordings[place], entries.as_slice());
    let tried = save_if_due(alloc, tables, shelf, date, place);
    Followed {
        rest: rest_of(entries, count),
        tried,
    }
}

/// Tells the recorder of a kernel what the kernel showed, in order, and saves it where a stored cell has ended or a save was
/// refused before. After a save the file has this date.
///
/// Before a save the file is looked at. What somebody else made of it is taken, or kept beside it under the date.
///
/// It answers the last of the entries, which the recorder was not told since memory was refused, and whether the save was tried.
/// There is no answer where the kernel has no recorder.
pub fn follow<S: Shelf>(
    alloc: Global,
    tables: &mut Tables,
    shelf: &mut S,
    date: &Text,
    kernel: &str,
    entries: Vec<Entry>,
) -> Option<Followed>
    ensures { spec.Follows (S.contents shelf.old) (S.contents shelf.new) (S.faults shelf.old) (S.faults shelf.new) kernel.now date.now entries.items result (rows tables.old) (rows tables.new) }
{
    match place_of(&tables.recordings, kernel) {
        None => None,
        Some(place) => Some(follow_at(alloc, tables, shelf, date, place, entries)),
    }
}

/// Whether a recorder of a kernel is still to be saved.
pub fn is_due(tables: &Tables, kernel: &str) -> bool
    ensures { result ≡ spec.is_due kernel.now (rows tables.now) }
{
    tables.recordings.iter().any(|recording| recording.due && recording.kernel.as_str() == kernel)
}
