//! GET of contents.
ghost use Rattle.std.specs.Prelude.{◌≡◌, false, IfOk};
ghost use Rattle.serde_json.specs.View.{view};
ghost use Rattle.serde_json.specs.Written.{has_float};
ghost use Rattle.js_shelf.specs.Shelves.{Tells};
ghost use Rattle.js_tables.specs.Plans.{Gives};
ghost use Rattle.js_tables.specs.Tables.{rows};
ghost use Rattle.js_contents.specs.Forms as forms;
ghost use Rattle.js_contents.specs.Reads as spec;

use crate::kind::about_now;
use crate::list::objects;
use crate::look::{is_folder, kind_at, names_in, open_at};
use crate::notebook::notebook_in;
use crate::place::{Place, place_of};
use crate::shown::notebook_body;
use base64::engine::general_purpose::STANDARD;
use js_http::{Bytes, ErrorStatus, Request, Response, query_value};
use js_shelf::{Item, ItemKind, Name, Opening, Shelf};
use js_tables::{About, Kind, Plan, Refusal, Tables, json_body, model_value, reply, text_value};
use nb_doc::Row;
use serde_json::Value;
use std::alloc::{AllocError, Global};

// ---- what the query asks for

fn check_type(alloc: Global, request: &Request, kind: Kind) -> Result<(), Refusal>
    ensures { Gives result (spec.type_checked request.now kind) }
{
    match query_value(alloc, request.query(), "type")? {
        None => Ok(()),
        Some(asked) => if asked.as_str() == kind.name() {
            Ok(())
        } else {
            Err(Refusal::Status(ErrorStatus::BadRequest))
        },
    }
}

fn asks_bare(alloc: Global, request: &Request) -> Result<bool, AllocError>
    ensures { IfOk result (λ asks. asks ≡ spec.asks_bare request.now) }
{
    match query_value(alloc, request.query(), "content")? {
        None => Ok(false),
        Some(asked) => Ok(asked.as_str() == "0"),
    }
}

// ---- what is shown

/// A thing without its content.
pub fn bare_value(alloc: Global, about: &About) -> Result<Value, AllocError>
    ensures form { IfOk result (λ v. view v ≡ forms.bare_form about.now) }
    ensures whole { IfOk result (λ v. has_float (view v) ≡ false) }
{
    model_value(alloc, about, Value::Null, Value::Null, Value::Null)
}

fn text_model(
    alloc: Global,
    about: &About,
    content: &str,
    format: &str,
    mimetype: &str,
) -> Result<Value, AllocError>
    ensures form { IfOk result (λ v. view v ≡ forms.text_form about.now content.now format.now mimetype.now) }
    ensures whole { IfOk result (λ v. has_float (view v) ≡ false) }
{
    let content = text_value(alloc, content)?;
    let format = text_value(alloc, format)?;
    let mimetype = text_value(alloc, mimetype)?;
    model_value(alloc, about, content, format, mimetype)
}

/// A file, as text where it is text.
fn file_value(alloc: Global, about: &About, bytes: &[u8]) -> Result<Value, AllocError>
    ensures form { IfOk result (λ v. view v ≡ forms.file_form about.now bytes.now) }
    ensures whole { IfOk result (λ v. has_float (view v) ≡ false) }
{
    match std::str::from_utf8(bytes) {
        Ok(text) => text_model(alloc, about, text, "text", "text/plain"),
        Err(_) => {
            let text = STANDARD.encode(alloc, bytes)?;
            text_model(
                alloc,
                about,
                text.as_str(),
                "base64",
                "application/octet-stream",
            )
        }
    }
}

fn json_model(alloc: Global, about: &About, content: Value) -> Result<Value, AllocError>
    requires { has_float (view content) ≡ false }
    ensures form { IfOk result (λ v. view v ≡ forms.json_form about.now (view content)) }
    ensures whole { IfOk result (λ v. has_float (view v) ≡ false) }
{
    let format = text_value(alloc, "json")?;
    model_value(alloc, about, content, format, Value::Null)
}

// ---- the answer

fn shown(alloc: Global, value: &Value) -> Result<Plan, AllocError>
    requires { has_float (view value.now) ≡ false }
    ensures { IfOk result (λ plan. plan ≡ spec.shown (view value.now)) }
{
    Ok(reply(Response::Success(json_body(alloc, value)?)))
}

/// The content of a file of more bytes is not shown.
const MAX_SHOWN: u64 = 64 << 20;

/// What a look at a path comes to: a plan, a file that is to be read, or a folder that is to be listed.
#[derive(Drop)]
pub enum Seen {
    Shown(Plan),
    File(About),
    Folder(About),
}

/// What is to be done for a request: a plan, or a file that is to be read and shown, which was opened.
#[derive(Drop)]
pub enum Aim {
    Plan(Plan),
    File(About, Opening),
}

fn notebook_plan(alloc: Global, about: &About, bytes: &[u8]) -> Result<Plan, Refusal>
    ensures { Gives result (spec.notebook_plan about.now bytes.now) }
{
    let notebook = notebook_in(alloc, bytes)?;
    let body = notebook_body(alloc, about, &notebook)?;
    Ok(reply(Response::Success(body)))
}

fn file_plan(alloc: Global, about: &About, bytes: &[u8]) -> Result<Plan, Refusal>
    ensures { Gives result (spec.file_plan about.now.kind about.now bytes.now) }
{
    if matches!(about.kind, Kind::Notebook) {
        return notebook_plan(alloc, about, bytes);
    }
    let value = file_value(alloc, about, bytes)?;
    Ok(shown(alloc, &value)?)
}

fn bare_plan(alloc: Global, about: &About) -> Result<Plan, AllocError>
    ensures { IfOk result (λ plan. plan ≡ spec.shown (forms.bare_form about.now)) }
{
    let value = bare_value(alloc, about)?;
    shown(alloc, &value)
}

fn seen_kind(
    alloc: Global,
    request: &Request,
    about: About,
    kind: ItemKind,
) -> Result<Seen, Refusal>
    ensures { Gives result (spec.seen_kind request.now about kind) }
{
    check_type(alloc, request, about.kind)?;
    if asks_bare(alloc, request)? {
        return Ok(Seen::Shown(bare_plan(alloc, &about)?));
    }
    match kind {
        ItemKind::File(count) if count > MAX_SHOWN => {
            Err(Refusal::Status(ErrorStatus::BadRequest))
        }
        ItemKind::File(_) => Ok(Seen::File(about)),
        ItemKind::Folder => Ok(Seen::Folder(about)),
    }
}

fn seen_at<S: Shelf>(
    alloc: Global,
    tables: &Tables,
    shelf: &mut S,
    request: &Request,
    place: Place,
) -> Result<Seen, Refusal>
    ensures { Tells (S.contents shelf.old) (S.contents shelf.new) (spec.SeesAt (rows tables.now) request.now place result) }
{
    let kind = kind_at(shelf, place.path.as_str())?;
    let about = about_now(alloc, tables, place, is_folder(kind))?;
    seen_kind(alloc, request, about, kind)
}

fn seen_by<S: Shelf>(
    alloc: Global,
    tables: &Tables,
    shelf: &mut S,
    request: &Request,
    segments: &[Bytes],
) -> Result<Seen, Refusal>
    ensures { Tells (S.contents shelf.old) (S.contents shelf.new) (spec.Sees (rows tables.now) request.now segments.now result) }
{
    let place = place_of(alloc, segments)?;
    seen_at(alloc, tables, shelf, request, place)
}

fn rows_plan(alloc: Global, about: &About, objects: Row) -> Result<Plan, AllocError>
    ensures { IfOk result (λ plan. plan ≡ spec.rows_plan about.now objects) }
{
    let value = json_model(alloc, about, objects.into_value())?;
    shown(alloc, &value)
}

fn named_plan<S: Shelf>(
    alloc: Global,
    tables: &Tables,
    shelf: &mut S,
    about: &About,
    names: &[Name],
) -> Result<Plan, Refusal>
    ensures { Tells (S.contents shelf.old) (S.contents shelf.new) (spec.ShowsNamed (rows tables.now) about.now names.now result) }
{
    match objects(alloc, tables, shelf, about.path.as_str(), names) {
        None => Err(Refusal::Failed),
        Some(objects) => Ok(rows_plan(alloc, about, objects)?),
    }
}

fn folder_plan<S: Shelf>(
    alloc: Global,
    tables: &Tables,
    shelf: &mut S,
    about: &About,
) -> Result<Plan, Refusal>
    ensures { Tells (S.contents shelf.old) (S.contents shelf.new) (spec.ShowsFolder (rows tables.now) about.now result) }
{
    match names_in(shelf, about.path.as_str()) {
        Ok(names) => named_plan(alloc, tables, shelf, about, names.as_slice()),
        Err(refusal) => Err(refusal),
    }
}

/// The plan of a look at a file: what stands there is shown.
fn item_plan(alloc: Global, about: &About, item: &Item) -> Result<Plan, Refusal>
    ensures { Gives result (spec.item_plan about.now item.now) }
{
    match item {
        Item::File(bytes) => file_plan(alloc, about, bytes.as_slice()),
        Item::Folder => Err(Refusal::Status(ErrorStatus::NotFound)),
    }
}

/// The plan of a look at a file that was opened: it is read and shown. It looks at no shelf, so any thread may do it.
///
/// # Errors
/// `Failed` where the device or memory fails; or the status that refuses the request, as where it is no notebook at a notebook's path.
pub fn opening_plan(alloc: Global, about: &About, opening: Opening) -> Result<Plan, Refusal>
    ensures { spec.IsOpenedPlan about.now opening result }
{
    match opening.read() {
        Ok(item) => item_plan(alloc, about, &item),
        Err(_) => Err(Refusal::Failed),
    }
}

/// A file that is still to be read and shown.
fn file_aim<S: Shelf>(shelf: &mut S, about: About) -> Result<Aim, Refusal>
    ensures { Tells (S.contents shelf.old) (S.contents shelf.new) (spec.AimsAtFile about result) }
{
    match open_at(shelf, about.path.as_str()) {
        Ok(opening) => Ok(Aim::File(about, opening)),
        Err(refusal) => Err(refusal),
    }
}

/// What was found is what is to be done.
pub fn planned(found: Result<Plan, Refusal>) -> Result<Aim, Refusal>
    ensures { result ≡ spec.planned found }
{
    match found {
        Ok(plan) => Ok(Aim::Plan(plan)),
        Err(refusal) => Err(refusal),
    }
}

fn folder_aim<S: Shelf>(
    alloc: Global,
    tables: &Tables,
    shelf: &mut S,
    about: &About,
) -> Result<Aim, Refusal>
    ensures { Tells (S.contents shelf.old) (S.contents shelf.new) (spec.AimsAtFolder (rows tables.now) about.now result) }
{
    planned(folder_plan(alloc, tables, shelf, about))
}

fn seen_aim<S: Shelf>(
    alloc: Global,
    tables: &Tables,
    shelf: &mut S,
    seen: Seen,
) -> Result<Aim, Refusal>
    ensures { Tells (S.contents shelf.old) (S.contents shelf.new) (spec.AimsAtSeen (rows tables.now) seen result) }
{
    match seen {
        Seen::Shown(plan) => Ok(Aim::Plan(plan)),
        Seen::File(about) => file_aim(shelf, about),
        Seen::Folder(about) => folder_aim(alloc, tables, shelf, &about),
    }
}

/// What a GET comes to: a plan by which a folder is shown, or a file that was opened, which `opening_plan` reads and shows. The first
/// three segments are those of `/api/contents`.
pub fn read_aim<S: Shelf>(
    alloc: Global,
    tables: &Tables,
    shelf: &mut S,
    request: &Request,
    segments: &[Bytes],
) -> Result<Aim, Refusal>
    ensures { Tells (S.contents shelf.old) (S.contents shelf.new) (spec.AimsAt (rows tables.now) request.now segments.now result) }
{
    match seen_by(alloc, tables, shelf, request, segments) {
        Ok(seen) => seen_aim(alloc, tables, shelf, seen),
        Err(refusal) => Err(refusal),
    }
}
