//! PUT and DELETE of contents.
ghost use Rattle.std.specs.Prelude.{◌≡◌, IfOk};
ghost use Rattle.js_shelf.specs.Shelves.{Tells};
ghost use Rattle.js_tables.specs.Plans.{Gives};
ghost use Rattle.js_tables.specs.Tables.{rows};
ghost use Rattle.js_contents.specs.Stores as spec;

use crate::kind::about_at;
use crate::look::present;
use crate::notebook::notebook_file;
use crate::place::{Place, place_of};
use crate::put::{PutBody, Putting, Ready};
use crate::read::bare_value;
use js_http::{Bytes, ErrorStatus, Response};
use js_shelf::{Item, Shelf};
use js_tables::{Answer, Change, Given, Plan, Refusal, Tables, Update, json_body};
use json_form::Text;
use std::alloc::{AllocError, Global};

// ---- DELETE

fn removal(place: Place) -> Result<Plan, AllocError>
    ensures { IfOk result (λ plan. plan ≡ spec.removal place) }
{
    Ok(Plan {
        change: Change::Delete(place.path.copy()?),
        update: Update::DropFile(place.path),
        answer: Answer::Reply(Response::NoContent),
    })
}

/// The plan of a DELETE. The first three segments are those of `/api/contents`.
pub fn remove_plan(alloc: Global, segments: &[Bytes]) -> Result<Plan, Refusal>
    ensures { Gives result (spec.remove_plan segments.now) }
{
    let place = place_of(alloc, segments)?;
    Ok(removal(place)?)
}

// ---- PUT

/// What a PUT changes. A notebook is put as one, since a recorder may keep the file.
fn put_change(path: Text, putting: Putting) -> Change
    ensures { result ≡ spec.put_change path putting }
{
    match putting {
        Putting::Folder => Change::Put(path, Item::Folder),
        Putting::File(bytes) => Change::Put(path, Item::File(bytes)),
        Putting::Notebook(book) => Change::PutBook(path, book),
    }
}

/// What puts a new file or folder.
fn new_change(alloc: Global, path: Text, putting: Putting) -> Result<Change, AllocError>
    ensures { IfOk result (λ change. change ≡ spec.new_change path putting) }
{
    match putting {
        Putting::Folder => Ok(Change::Put(path, Item::Folder)),
        Putting::File(bytes) => Ok(Change::Put(path, Item::File(bytes))),
        Putting::Notebook(book) => Ok(Change::Put(path, notebook_file(alloc, book.notebook())?)),
    }
}

fn is_folder_putting(putting: &Putting) -> bool
    ensures { result ≡ spec.is_folder_putting putting.now }
{
    matches!(putting, Putting::Folder)
}

fn stored(is_there: bool, content: Bytes) -> Response
    ensures { result ≡ spec.stored is_there content }
{
    if is_there {
        Response::Success(content)
    } else {
        Response::Created(None, content)
    }
}

/// What stands at the place from now on is said without its content: 200 where something was there, else 201.
fn storing_by(
    alloc: Global,
    given: &Given,
    change: Change,
    place: Place,
    is_folder: bool,
    is_there: bool,
) -> Result<Plan, AllocError>
    ensures { IfOk result (λ plan. plan ≡ spec.storing_by given.now change place is_folder is_there) }
{
    let path = place.path.copy()?;
    let about = about_at(place, is_folder, given.date.copy()?);
    let content = json_body(alloc, &bare_value(alloc, &about)?)?;
    Ok(Plan {
        change,
        update: Update::SetDate(path, given.date.copy()?),
        answer: Answer::Reply(stored(is_there, content)),
    })
}

/// The plan by which something new stands at a place, where nothing was.
pub fn storing(
    alloc: Global,
    given: &Given,
    putting: Putting,
    place: Place,
) -> Result<Plan, AllocError>
    ensures { IfOk result (λ plan. plan ≡ spec.storing given.now putting place) }
{
    let path = place.path.copy()?;
    let is_folder = is_folder_putting(&putting);
    let change = new_change(alloc, path, putting)?;
    storing_by(alloc, given, change, place, is_folder, false)
}

fn replacing(
    alloc: Global,
    given: &Given,
    putting: Putting,
    place: Place,
    is_there: bool,
) -> Result<Plan, AllocError>
    ensures { IfOk result (λ plan. plan ≡ spec.replacing given.now putting place is_there) }
{
    let path = place.path.copy()?;
    let is_folder = is_folder_putting(&putting);
    storing_by(
        alloc,
        given,
        put_change(path, putting),
        place,
        is_folder,
        is_there,
    )
}

/// Whether a request says no date, or this one.
fn is_same_date(asked: &Option<Text>, date: &str) -> bool
    ensures { result ≡ spec.is_same_date asked.now date.now }
{
    match asked {
        None => true,
        Some(asked) => asked.as_str() == date,
    }
}

/// Refuses a put over what was last put at another date than the request says.
fn check_date(
    tables: &Tables,
    place: &Place,
    asked: &Option<Text>,
    is_there: bool,
) -> Result<(), Refusal>
    ensures { Gives result (spec.date_checked (rows tables.now) place.now asked.now is_there) }
{
    let date = tables.date_of(place.path.as_str());
    if is_there && !is_same_date(asked, date) {
        return Err(Refusal::Status(ErrorStatus::Conflict));
    }
    Ok(())
}

/// What a PUT puts over what stands at the place, or where nothing stands.
fn put_over(
    alloc: Global,
    tables: &Tables,
    given: &Given,
    body: PutBody,
    place: Place,
    is_there: bool,
) -> Result<Plan, Refusal>
    ensures { Gives result (spec.put_over (rows tables.now) given.now body place is_there) }
{
    check_date(tables, &place, &body.last_modified, is_there)?;
    Ok(replacing(alloc, given, body.putting, place, is_there)?)
}

fn put_at<S: Shelf>(
    alloc: Global,
    tables: &Tables,
    shelf: &mut S,
    given: &Given,
    body: PutBody,
    place: Place,
) -> Result<Plan, Refusal>
    ensures { Tells (S.contents shelf.old) (S.contents shelf.new) (spec.PutsAt (rows tables.now) given.now body place result) }
{
    match present(shelf, place.path.as_str()) {
        Ok(item) => put_over(alloc, tables, given, body, place, item.is_some()),
        Err(refusal) => Err(refusal),
    }
}

/// The plan of a PUT whose body and path have been read.
///
/// # Errors
/// What a look at the path is refused with, and then 409 where something is there whose date is not the `last_modified` of the body.
pub fn put_plan<S: Shelf>(
    alloc: Global,
    tables: &Tables,
    shelf: &mut S,
    given: &Given,
    ready: Ready,
) -> Result<Plan, Refusal>
    ensures { Tells (S.contents shelf.old) (S.contents shelf.new) (spec.Puts (rows tables.now) given.now ready result) }
{
    put_at(alloc, tables, shelf, given, ready.body, ready.place)
}
