//! PATCH of contents: a thing goes to another path, and what is known of it goes with it.
ghost use Rattle.std.specs.Prelude.{◌≡◌, ◌++◌, ℕ, List, map, Some, string_bytes, OnOk, IfOk};
ghost use Rattle.std.specs.HashMap.{get_by_text};
ghost use Rattle.std.specs.Option.{option_copied, option_map};
ghost use Rattle.js_shelf.specs.Paths.{behind as behind_of, following as following_of, goes as goes_of};
ghost use Rattle.js_shelf.specs.Shelves.{Tells};
ghost use Rattle.js_tables.specs.Plans.{Gives};
ghost use Rattle.js_tables.specs.Tables.{rows, with_date};
ghost use Rattle.js_names.specs.Moves as spec;

use js_contents::{Place, about_at, bare_value, has_folder, named_place, place_of};
use js_http::{Bytes, ErrorStatus, Response};
use js_shelf::Shelf;
use js_tables::{
    Answer, Change, Kernel, Plan, Refusal, Session, Tables, Update, find_by_path, json_body,
    kernel_copy, read_body, text_in,
};
use json_form::Text;
use nb_doc::Listed;
use std::alloc::{AllocError, Global};
use std::collections::HashMap;

/// A thing that is to go to another path.
#[derive(Drop)]
pub struct Moving {
    pub from: Place,
    pub to: Place,
}

// ---- paths

/// Whether the text is nothing, or a slash and more.
fn goes_down(text: &str) -> bool
    ensures { result ≡ spec.goes_down text.now }
{
    match text.as_bytes() {
        [] => true,
        [first, ..] => *first == b'/',
    }
}

/// What follows a front of a path.
pub(crate) fn behind<'p>(top: &str, path: &'p str) -> Option<&'p str>
    ensures { option_copied result ≡ behind_of top.now path.now }
{
    path.strip_prefix(top)
}

/// What follows the path `top` in a path that is `top` or stands below it.
fn following<'p>(top: &str, path: &'p str) -> Option<&'p str>
    ensures { option_copied result ≡ following_of top.now path.now }
{
    match behind(top, path) {
        Some(rest) if goes_down(rest) => Some(rest),
        _ => None,
    }
}

/// A path, and what follows it.
fn joined(alloc: Global, top: &str, rest: &str) -> Result<String, AllocError>
    ensures { IfOk result (λ path. string_bytes path ≡ top.now ++ rest.now) }
{
    let mut path = String::from_str(alloc, top)?;
    path.push_str(rest)?;
    Ok(path)
}

/// Where a path goes.
fn moved_path(alloc: Global, from: &str, to: &str, path: &str) -> Result<Text, AllocError>
    ensures { IfOk result (λ moved. moved ≡ spec.moved_path from.now to.now path.now) }
{
    match following(from, path) {
        None => Text::from_str(alloc, path),
        Some(rest) => Ok(Text::from_string(joined(alloc, to, rest)?)),
    }
}

// ---- sessions

fn moved_session(
    alloc: Global,
    from: &str,
    to: &str,
    session: &Option<Session>,
) -> Result<Option<Session>, AllocError>
    ensures { IfOk result (λ moved. moved ≡ spec.moved_session from.now to.now session.now) }
{
    match session {
        None => Ok(None),
        Some(session) => Ok(Some(Session {
            id: session.id.copy()?,
            path: moved_path(alloc, from, to, session.path.as_str())?,
            name: session.name.copy()?,
            kind: session.kind.copy()?,
        })),
    }
}

fn moved_kernel(alloc: Global, from: &str, to: &str, kernel: &Kernel) -> Result<Kernel, AllocError>
    ensures { IfOk result (λ moved. moved ≡ spec.moved_kernel from.now to.now kernel.now) }
{
    let session = moved_session(alloc, from, to, &kernel.session)?;
    kernel_copy(kernel, session)
}

fn moved_kernels(
    alloc: Global,
    from: &str,
    to: &str,
    kernels: &[Kernel],
) -> Result<Listed<Kernel>, AllocError>
    ensures { IfOk result (λ moved. moved ≡ map (spec.moved_kernel from.now to.now) kernels.now) }
{
    let mut moved = Listed::empty(alloc);
    for kernel in kernels {
        moved.push(moved_kernel(alloc, from, to, kernel)?)?;
    }
    Ok(moved)
}

/// Whether a session stays at a path.
fn stays_at(kernels: &[Kernel], from: &str, path: &str) -> bool
    ensures { result ≡ spec.stays_at kernels.now from.now path.now }
{
    match following(from, path) {
        Some(_) => false,
        None => find_by_path(kernels, path).is_some(),
    }
}

/// Refuses that a session gets the path of one that stays.
fn check_session(
    alloc: Global,
    from: &str,
    to: &str,
    kernels: &[Kernel],
    session: &Option<Session>,
) -> Result<(), Refusal>
    ensures { Gives result (spec.session_checked from.now to.now kernels.now session.now) }
{
    match session {
        None => Ok(()),
        Some(session) => match following(from, session.path.as_str()) {
            None => Ok(()),
            Some(rest) => {
                let path = joined(alloc, to, rest)?;
                if stays_at(kernels, from, path.as_str()) {
                    return Err(Refusal::Status(ErrorStatus::Conflict));
                }
                Ok(())
            }
        },
    }
}

fn check_sessions(alloc: Global, from: &str, to: &str, kernels: &[Kernel]) -> Result<(), Refusal>
    ensures { Gives result (spec.sessions_checked from.now to.now kernels.now kernels.now) }
{
    for kernel in kernels {
        check_session(alloc, from, to, kernels, &kernel.session)?;
    }
    Ok(())
}

// ---- dates

/// Where the date of a path goes. What stood at the new path, or below it, is gone, and its date goes nowhere.
fn goes(alloc: Global, from: &str, to: &str, path: &str) -> Result<Option<String>, AllocError>
    ensures { IfOk result (λ place. option_map string_bytes place ≡ goes_of from.now to.now path.now) }
{
    match following(from, path) {
        Some(rest) => Ok(Some(joined(alloc, to, rest)?)),
        None if following(to, path).is_some() => Ok(None),
        None => Ok(Some(String::from_str(alloc, path)?)),
    }
}

fn add_date(dates: &mut HashMap<String, Text>, path: String, date: Text) -> Result<(), AllocError>
    ensures { OnOk result ((other : List ℕ) → get_by_text dates.new other ≡ with_date (string_bytes path) (Some date) (get_by_text dates.old) other) }
{
    dates.insert(path, date)?;
    Ok(())
}

/// The dates after a move, as copies.
fn moved_dates(
    alloc: Global,
    from: &str,
    to: &str,
    dates: &HashMap<String, Text>,
) -> Result<HashMap<String, Text>, AllocError>
    ensures { IfOk result (λ moved. spec.HasMoved from.now to.now (get_by_text dates.now) (get_by_text moved)) }
{
    let mut moved = HashMap::new(alloc);
    for (path, date) in dates {
        if let Some(path) = goes(alloc, from, to, path.as_str())? {
            add_date(&mut moved, path, date.copy()?)?;
        }
    }
    Ok(moved)
}

// ---- the plan

fn read_moving(
    alloc: Global,
    tables: &Tables,
    content: &[u8],
    segments: &[Bytes],
) -> Result<Moving, Refusal>
    ensures { Gives result (spec.moving content.now segments.now (rows tables.now)) }
{
    let body = read_body(alloc, content)?;
    let to = named_place(alloc, text_in(alloc, &body, "path")?)?;
    let from = place_of(alloc, segments)?;
    check_sessions(alloc, from.path.as_str(), to.path.as_str(), &tables.kernels)?;
    Ok(Moving { from, to })
}

fn shown_moved(
    alloc: Global,
    tables: &Tables,
    from: &str,
    to: Place,
    is_folder: bool,
) -> Result<Answer, AllocError>
    ensures { IfOk result (λ answer. answer ≡ spec.shown_moved (rows tables.now) from.now to is_folder) }
{
    let date = Text::from_str(alloc, tables.date_of(from))?;
    let about = about_at(to, is_folder, date);
    let content = json_body(alloc, &bare_value(alloc, &about)?)?;
    Ok(Answer::Reply(Response::Success(content)))
}

fn renaming(
    alloc: Global,
    tables: &Tables,
    moving: Moving,
    is_folder: bool,
) -> Result<Plan, Refusal>
    ensures { spec.IsRenaming (rows tables.now) moving is_folder result }
{
    let Moving { from, to } = moving;
    let from = from.path;
    let target = to.path.copy()?;
    let kernels = moved_kernels(alloc, from.as_str(), target.as_str(), &tables.kernels)?;
    let dates = moved_dates(alloc, from.as_str(), target.as_str(), &tables.dates)?;
    let answer = shown_moved(alloc, tables, from.as_str(), to, is_folder)?;
    Ok(Plan {
        change: Change::Rename(from, target),
        update: Update::Move(kernels, dates),
        answer,
    })
}

fn rename_at<S: Shelf>(
    alloc: Global,
    tables: &Tables,
    shelf: &mut S,
    moving: Moving,
) -> Result<Plan, Refusal>
    ensures { Tells (S.contents shelf.old) (S.contents shelf.new) (spec.RenamesAt (rows tables.now) moving result) }
{
    match has_folder(shelf, moving.from.path.as_str()) {
        None => Err(Refusal::Failed),
        Some(is_folder) => renaming(alloc, tables, moving, is_folder),
    }
}

/// The plan of a PATCH.
pub fn rename_plan<S: Shelf>(
    alloc: Global,
    tables: &Tables,
    shelf: &mut S,
    content: &[u8],
    segments: &[Bytes],
) -> Result<Plan, Refusal>
    ensures { Tells (S.contents shelf.old) (S.contents shelf.new) (spec.Renames (rows tables.now) content.now segments.now result) }
{
    match read_moving(alloc, tables, content, segments) {
        Ok(moving) => rename_at(alloc, tables, shelf, moving),
        Err(refusal) => Err(refusal),
    }
}
