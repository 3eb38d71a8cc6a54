//! POST of contents: a new thing under the first free name.
ghost use Rattle.std.specs.Prelude.{◌≡◌, ℕ, ◌+◌, ◌^◌, ◌<◌, ◌||◌, false, List, ◌++◌, length, string_bytes, OnOk, IfOk};
ghost use Rattle.std.specs.HashSet.{contains_text};
ghost use Rattle.std.specs.Str.{bytes_eq};
ghost use Rattle.js_contents.specs.Places.{child};
ghost use Rattle.js_shelf.specs.Shelves.{Tells};
ghost use Rattle.js_tables.specs.Plans.{Gives};
ghost use Rattle.js_tables.specs.Sessions.{is_at};
ghost use Rattle.js_tables.specs.Tables.{rows};
ghost use Rattle.js_tables.specs.declared.forms.Kind.{Kind};
ghost use Rattle.js_tables.specs.declared.tables.Kernel.{Kernel};
ghost use Rattle.js_names.specs.Untitled as spec;

use crate::moves::behind;
use itoa::Buffer;
use js_contents::{Putting, below, fitted, if_path, names_in, place_of, storing};
use js_http::ErrorStatus;
use js_shelf::{Bytes, Name, Shelf, is_step};
use js_tables::{
    Given, Kernel, Kind, Plan, ReadNotebook, Refusal, Session, Tables, optional_text_in, read_body,
};
use json_form::{Json, Text, given_part};
use std::alloc::{AllocError, Global};
use std::collections::HashSet;

/// A new thing that is asked for: its kind, what its name ends in, and the folder.
#[derive(Drop)]
pub struct Making {
    pub kind: Kind,
    pub ending: Text,
    pub folder: Text,
}

// ---- names

fn stem(kind: Kind) -> &'static str
    ensures { result.now ≡ spec.stem kind }
{
    match kind {
        Kind::Notebook => "Untitled",
        Kind::File => "untitled",
        Kind::Directory => "Untitled Folder",
    }
}

fn joint(kind: Kind) -> &'static str
    ensures { result.now ≡ spec.joint kind }
{
    match kind {
        Kind::Directory => " ",
        _ => "",
    }
}

/// The name of that number: the first has none.
fn name_at(alloc: Global, kind: Kind, ending: &str, number: u64) -> Result<Text, AllocError>
    ensures { IfOk result (λ name. name ≡ spec.name_at kind ending.now number) }
{
    let mut name = String::from_str(alloc, stem(kind))?;
    if number > 0 {
        let mut buffer = Buffer::new();
        name.push_str(joint(kind))?;
        name.push_str(buffer.format(number))?;
    }
    name.push_str(ending)?;
    Ok(Text::from_string(name))
}

/// What stands before the name in the paths of what is in a folder.
fn front_of(alloc: Global, folder: &str) -> Result<String, AllocError>
    ensures { IfOk result (λ front. (name : List ℕ) → string_bytes front ++ name ≡ (child folder.now name).path) }
{
    let mut front = String::from_str(alloc, folder)?;
    if !front.is_empty() {
        front.push_str("/")?;
    }
    Ok(front)
}

/// Adds a name to those that are taken.
fn take(taken: &mut HashSet<String>, name: String) -> Result<(), AllocError>
    ensures { OnOk result ((other : List ℕ) → contains_text taken.new other ≡ (contains_text taken.old other || bytes_eq (string_bytes name) other)) }
{
    taken.insert(name)?;
    Ok(())
}

/// Adds names to those that are taken.
fn take_names(alloc: Global, taken: &mut HashSet<String>, names: &[Name]) -> Result<(), AllocError>
    ensures { OnOk result ((name : List ℕ) → contains_text taken.new name ≡ (contains_text taken.old name || spec.is_among names.now name)) }
{
    for name in names {
        take(taken, String::from_str(alloc, name.as_str())?)?;
    }
    Ok(())
}

/// Adds the name that a session's path has behind a front, if it has one.
#[tactic(auto, using(crate::proofs::Taken::taken_none, crate::proofs::Taken::taken_other, crate::proofs::Taken::taken_more))]
fn take_session(
    alloc: Global,
    taken: &mut HashSet<String>,
    front: &str,
    session: &Option<Session>,
) -> Result<(), AllocError>
    ensures { OnOk result ((name : List ℕ) → contains_text taken.new name ≡ (contains_text taken.old name || is_at (front.now ++ name) session.now)) }
{
    let Some(session) = session else {
        return Ok(());
    };
    let Some(name) = behind(front, session.path.as_str()) else {
        return Ok(());
    };
    take(taken, String::from_str(alloc, name)?)
}

/// Adds to the names that are taken in a folder those that sessions' paths have there.
fn take_sessions(
    alloc: Global,
    taken: &mut HashSet<String>,
    folder: &str,
    kernels: &[Kernel],
) -> Result<(), AllocError>
    ensures { OnOk result ((name : List ℕ) → contains_text taken.new name ≡ (contains_text taken.old name || spec.has_session folder.now kernels.now name)) }
{
    let front = front_of(alloc, folder)?;
    for kernel in kernels {
        take_session(alloc, taken, front.as_str(), &kernel.session)?;
    }
    Ok(())
}

/// The names that are taken in a folder.
fn taken_in(
    alloc: Global,
    folder: &str,
    names: &[Name],
    kernels: &[Kernel],
) -> Result<HashSet<String>, AllocError>
    ensures { IfOk result (λ taken. (name : List ℕ) → contains_text taken name ≡ spec.is_taken folder.now names.now kernels.now name) }
{
    let mut taken = HashSet::new(alloc);
    take_names(alloc, &mut taken, names)?;
    take_sessions(alloc, &mut taken, folder, kernels)?;
    Ok(taken)
}

/// The first name in a folder that is free.
fn first_free(
    alloc: Global,
    kind: Kind,
    ending: &str,
    folder: &str,
    names: &[Name],
    kernels: &[Kernel],
) -> Result<Text, AllocError>
    ensures { IfOk result (λ name. name ≡ spec.first_free kind ending.now folder.now names.now kernels.now) }
{
    let taken = taken_in(alloc, folder, names, kernels)?;
    let last = (names.len() + kernels.len()) as u64;
    for number in 0..last {
        let name = name_at(alloc, kind, ending, number)?;
        if !taken.contains(name.as_str()) {
            return Ok(name);
        }
    }
    name_at(alloc, kind, ending, last)
}

/// A law: the first name that is free is none that is taken.
pub fn free_name_law()
    ensures { (kind : Kind) (ending folder : List ℕ) (names : List (List ℕ)) (kernels : List Kernel) → length names + length kernels < 2 ^ 64
        → spec.is_taken folder names kernels (spec.first_free kind ending folder names kernels) ≡ false }
{}

// ---- the body

fn kind_named(name: &str) -> Result<Kind, Refusal>
    ensures { Gives result (spec.kind_named name.now) }
{
    if name == "file" {
        return Ok(Kind::File);
    }
    if name == "notebook" {
        return Ok(Kind::Notebook);
    }
    if name == "directory" {
        return Ok(Kind::Directory);
    }
    Err(Refusal::Status(ErrorStatus::BadRequest))
}

fn check_no_copy(body: &Json) -> Result<(), Refusal>
    ensures { Gives result (spec.no_copy body.now) }
{
    match given_part(body.value(), "copy_from") {
        None => Ok(()),
        Some(_) => Err(Refusal::Status(ErrorStatus::BadRequest)),
    }
}

fn ending_for(alloc: Global, kind: Kind, extension: Text) -> Result<Text, AllocError>
    ensures { IfOk result (λ ending. ending ≡ spec.ending_for kind extension) }
{
    match kind {
        Kind::File => Ok(extension),
        Kind::Notebook => Text::from_str(alloc, ".ipynb"),
        Kind::Directory => Text::from_str(alloc, ""),
    }
}

fn check_name(name: &str) -> Result<(), Refusal>
    ensures { Gives result (spec.name_checked name.now) }
{
    if !is_step(name.as_bytes()) {
        return Err(Refusal::Status(ErrorStatus::BadRequest));
    }
    Ok(())
}

fn making_in(alloc: Global, body: &Json, folder: Text) -> Result<Making, Refusal>
    ensures { Gives result (spec.making_in body.now folder) }
{
    check_no_copy(body)?;
    let kind = optional_text_in(alloc, body, "type", "file")?;
    let kind = kind_named(kind.as_str())?;
    let extension = optional_text_in(alloc, body, "ext", "")?;
    let ending = ending_for(alloc, kind, extension)?;
    let first = name_at(alloc, kind, ending.as_str(), 0)?;
    check_name(first.as_str())?;
    Ok(Making {
        kind,
        ending,
        folder,
    })
}

fn read_making(
    alloc: Global,
    content: &[u8],
    segments: &[js_http::Bytes],
) -> Result<Making, Refusal>
    ensures { Gives result (spec.making content.now segments.now) }
{
    let body = read_body(alloc, content)?;
    let place = place_of(alloc, segments)?;
    making_in(alloc, &body, place.path)
}

// ---- the plan

fn empty_putting(alloc: Global, kind: Kind) -> Putting
    ensures { result ≡ spec.empty_putting kind }
{
    match kind {
        Kind::File => Putting::File(Bytes::from(Vec::new(alloc))),
        Kind::Notebook => Putting::Notebook(ReadNotebook::empty(alloc)),
        Kind::Directory => Putting::Folder,
    }
}

fn made(
    alloc: Global,
    tables: &Tables,
    given: &Given,
    making: &Making,
    names: &[Name],
) -> Result<Plan, Refusal>
    ensures { Gives result (spec.made (rows tables.now) given.now making.now names.now) }
{
    let folder = making.folder.as_str();
    let ending = making.ending.as_str();
    let name = first_free(alloc, making.kind, ending, folder, names, &tables.kernels)?;
    let place = if_path(below(alloc, folder, name.as_str())?)?;
    let putting = fitted(
        alloc,
        place.name.as_str(),
        empty_putting(alloc, making.kind),
    )?;
    Ok(storing(alloc, given, putting, place)?)
}

fn made_in<S: Shelf>(
    alloc: Global,
    tables: &Tables,
    shelf: &mut S,
    given: &Given,
    making: &Making,
) -> Result<Plan, Refusal>
    ensures { Tells (S.contents shelf.old) (S.contents shelf.new) (spec.Makes (rows tables.now) given.now making.now result) }
{
    match names_in(shelf, making.folder.as_str()) {
        Ok(names) => made(alloc, tables, given, making, names.as_slice()),
        Err(refusal) => Err(refusal),
    }
}

/// The plan of a POST.
pub fn untitled_plan<S: Shelf>(
    alloc: Global,
    tables: &Tables,
    shelf: &mut S,
    given: &Given,
    content: &[u8],
    segments: &[js_http::Bytes],
) -> Result<Plan, Refusal>
    ensures { Tells (S.contents shelf.old) (S.contents shelf.new) (spec.MakesUntitled (rows tables.now) given.now content.now segments.now result) }
{
    match read_making(alloc, content, segments) {
        Ok(making) => made_in(alloc, tables, shelf, given, &making),
        Err(refusal) => Err(refusal),
    }
}
