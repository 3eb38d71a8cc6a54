//! A new session.
ghost use Rattle.std.specs.Prelude.{◌≡◌, ◌≤◌, IfOk, IfSome};
ghost use Rattle.serde_json.specs.Data.{depth};
ghost use Rattle.serde_json.specs.Read.{max_depth};
ghost use Rattle.js_rest.specs.Opening as spec;
ghost use Rattle.js_shelf.specs.Shelves.{Tells};
ghost use Rattle.js_tables.specs.Plans.{Gives};
ghost use Rattle.js_tables.specs.Tables.{rows};
ghost use Rattle.nb_doc.specs.Documents.{IsDocument};
ghost use Rattle.nb_doc.specs.Writing.{notebook_form};

use crate::kernels::{check_room, new_kernel};
use crate::sessions::check_path;
use js_contents::{First, is_notebook_name, notebook_for};
use js_http::{ErrorStatus, Response};
use js_shelf::Shelf;
use js_tables::{
    Answer, Change, Given, Kernel, Plan, Recording, Refusal, Session, Tables, Update,
    check_kernel_name, find_by_path, find_kernel, json_body, kernel_copy, optional_text_in,
    read_body, reply, session_copy, session_value, text_in, with_session,
};
use json_form::{Json, Text, given_part, needed_object};
use nb_doc::Notebook;
use nb_record::Recorder;
use std::alloc::{AllocError, Global};

/// What a new session is to have.
#[derive(Drop)]
pub struct Fields {
    pub path: Text,
    pub kind: Text,
    pub name: Text,
}

/// A session that is asked for, and the identifier of its kernel; none is a new kernel.
#[derive(Drop)]
pub struct Asked {
    pub fields: Fields,
    pub kernel: Option<Text>,
}

// ---- the body

fn id_in(alloc: Global, kernel: &Json) -> Result<Option<Text>, Refusal>
    ensures { Gives result (spec.id_in kernel.now) }
{
    check_kernel_name(kernel)?;
    match given_part(kernel.value(), "id") {
        None => Ok(None),
        Some(_) => Ok(Some(text_in(alloc, kernel, "id")?)),
    }
}

/// The kernel that a body asks for, if it asks for one.
fn kernel_asked(alloc: Global, body: &Json) -> Result<Option<Text>, Refusal>
    ensures { Gives result (spec.kernel_asked body.now) }
{
    match given_part(body.value(), "kernel") {
        None => Ok(None),
        Some(field) => {
            let kernel = Json::keep(needed_object(Some(field))?)?;
            id_in(alloc, &kernel)
        }
    }
}

fn asked_in(alloc: Global, body: &Json) -> Result<Asked, Refusal>
    ensures { Gives result (spec.asked_in body.now) }
{
    let path = text_in(alloc, body, "path")?;
    let kind = text_in(alloc, body, "type")?;
    let name = optional_text_in(alloc, body, "name", "")?;
    let kernel = kernel_asked(alloc, body)?;
    check_path(path.as_str())?;
    Ok(Asked {
        fields: Fields { path, kind, name },
        kernel,
    })
}

fn read_asked(alloc: Global, content: &[u8]) -> Result<Asked, Refusal>
    ensures { Gives result (spec.asked content.now) }
{
    asked_in(alloc, &read_body(alloc, content)?)
}

// ---- a path that has a session answers that session

fn answered(alloc: Global, kernel: &Kernel, session: &Session) -> Result<Answer, AllocError>
    ensures { IfOk result (λ answer. answer ≡ spec.answered kernel.now session.now) }
{
    let value = session_value(alloc, kernel, session)?;
    Ok(Answer::Reply(Response::Created(None, json_body(alloc, &value)?)))
}

fn again(alloc: Global, kernel: &Kernel) -> Result<Plan, Refusal>
    ensures { Gives result (spec.again kernel.now) }
{
    match &kernel.session {
        None => Err(Refusal::Status(ErrorStatus::NotFound)),
        Some(session) => Ok(Plan {
            change: Change::Nothing,
            update: Update::Same,
            answer: answered(alloc, kernel, session)?,
        }),
    }
}

// ---- the recorder of a notebook

/// What the recorder of a path begins with; nothing where the path is no notebook's.
fn first_of<S: Shelf>(alloc: Global, shelf: &mut S, path: &str) -> Result<Option<First>, Refusal>
    ensures exact { Tells (S.contents shelf.old) (S.contents shelf.new) (spec.FindsFirst path.now result) }
    ensures document { IfOk result (λ first. IfSome first (λ f. IsDocument f.notebook)) }
    ensures shallow { IfOk result (λ first. IfSome first (λ f. depth (notebook_form f.notebook) ≤ max_depth)) }
{
    if !is_notebook_name(path) {
        return Ok(None);
    }
    Ok(Some(notebook_for(alloc, shelf, path)?))
}

fn recorder_of(alloc: Global, path: Text, notebook: Notebook) -> Recorder
    requires document { IsDocument notebook }
    requires shallow { depth (notebook_form notebook) ≤ max_depth }
    ensures { result ≡ spec.recorder_of path notebook }
{
    Recorder::new(alloc, path, notebook)
}

fn recording_of(
    alloc: Global,
    kernel: &str,
    path: &str,
    first: Option<First>,
) -> Result<Option<Recording>, AllocError>
    requires document { IfSome first (λ f. IsDocument f.notebook) }
    requires shallow { IfSome first (λ f. depth (notebook_form f.notebook) ≤ max_depth) }
    ensures { IfOk result (λ recording. recording ≡ spec.recording_of kernel.now path.now first) }
{
    match first {
        None => Ok(None),
        Some(First { notebook, known }) => {
            let kernel = Text::from_str(alloc, kernel)?;
            let path = Text::from_str(alloc, path)?;
            Ok(Some(Recording {
                kernel,
                recorder: recorder_of(alloc, path, notebook),
                due: false,
                known,
                tried: None,
            }))
        }
    }
}

// ---- a session that is made now

fn new_session(alloc: Global, given: &Given, fields: Fields) -> Result<Session, AllocError>
    ensures { IfOk result (λ session. session ≡ spec.new_session given.now fields) }
{
    Ok(Session {
        id: given.second_id(alloc)?,
        path: fields.path,
        name: fields.name,
        kind: fields.kind,
    })
}

/// It gets a kernel that is there.
fn joining(
    alloc: Global,
    tables: &Tables,
    kernel: &Kernel,
    session: &Session,
    first: Option<First>,
) -> Result<Plan, AllocError>
    requires document { IfSome first (λ f. IsDocument f.notebook) }
    requires shallow { IfSome first (λ f. depth (notebook_form f.notebook) ≤ max_depth) }
    ensures { IfOk result (λ plan. plan ≡ spec.joining (rows tables.now) kernel.now session.now first) }
{
    let answer = answered(alloc, kernel, session)?;
    let kernels = with_session(alloc, &tables.kernels, kernel.id.as_str(), session)?;
    let recording = recording_of(alloc, kernel.id.as_str(), session.path.as_str(), first)?;
    Ok(Plan {
        change: Change::Nothing,
        update: Update::SetKernels(kernels, recording),
        answer,
    })
}

/// It gets a kernel that is made now.
fn beginning(
    alloc: Global,
    kernel: Kernel,
    session: Session,
    first: Option<First>,
) -> Result<Plan, AllocError>
    requires document { IfSome first (λ f. IsDocument f.notebook) }
    requires shallow { IfSome first (λ f. depth (notebook_form f.notebook) ≤ max_depth) }
    ensures { IfOk result (λ plan. plan ≡ spec.beginning kernel session first) }
{
    let answer = answered(alloc, &kernel, &session)?;
    let recording = recording_of(alloc, kernel.id.as_str(), session.path.as_str(), first)?;
    let id = kernel.id.copy()?;
    let kernel = kernel_copy(&kernel, Some(session))?;
    Ok(Plan {
        change: Change::Begin(id),
        update: Update::AddKernel(kernel, recording),
        answer,
    })
}

// ---- the plan

fn check_alone(kernel: &Kernel) -> Result<(), Refusal>
    ensures { Gives result (spec.alone kernel.now.session) }
{
    match kernel.session {
        None => Ok(()),
        Some(_) => Err(Refusal::Status(ErrorStatus::Conflict)),
    }
}

fn open_on<S: Shelf>(
    alloc: Global,
    tables: &Tables,
    shelf: &mut S,
    given: &Given,
    fields: Fields,
    kernel: &Kernel,
) -> Result<Plan, Refusal>
    ensures { Tells (S.contents shelf.old) (S.contents shelf.new) (spec.OpensOn (rows tables.now) given.now fields kernel.now result) }
{
    check_alone(kernel)?;
    let first = first_of(alloc, shelf, fields.path.as_str())?;
    let session = new_session(alloc, given, fields)?;
    Ok(joining(alloc, tables, kernel, &session, first)?)
}

fn open_new<S: Shelf>(
    alloc: Global,
    tables: &Tables,
    shelf: &mut S,
    given: &Given,
    fields: Fields,
) -> Result<Plan, Refusal>
    ensures { Tells (S.contents shelf.old) (S.contents shelf.new) (spec.OpensNew (rows tables.now) given.now fields result) }
{
    let first = first_of(alloc, shelf, fields.path.as_str())?;
    check_room(tables)?;
    let session = new_session(alloc, given, fields)?;
    let kernel = new_kernel(alloc, given)?;
    Ok(beginning(alloc, kernel, session, first)?)
}

fn open_as<S: Shelf>(
    alloc: Global,
    tables: &Tables,
    shelf: &mut S,
    given: &Given,
    fields: Fields,
    id: &str,
) -> Result<Plan, Refusal>
    ensures { Tells (S.contents shelf.old) (S.contents shelf.new) (spec.OpensAs (rows tables.now) given.now fields id.now result) }
{
    match find_kernel(&tables.kernels, id.as_bytes()) {
        None => Err(Refusal::Status(ErrorStatus::NotFound)),
        Some(kernel) => open_on(alloc, tables, shelf, given, fields, kernel),
    }
}

fn open_fresh<S: Shelf>(
    alloc: Global,
    tables: &Tables,
    shelf: &mut S,
    given: &Given,
    asked: Asked,
) -> Result<Plan, Refusal>
    ensures { Tells (S.contents shelf.old) (S.contents shelf.new) (spec.OpensFresh (rows tables.now) given.now asked result) }
{
    let Asked { fields, kernel } = asked;
    match kernel {
        None => open_new(alloc, tables, shelf, given, fields),
        Some(id) => open_as(alloc, tables, shelf, given, fields, id.as_str()),
    }
}

fn open_asked<S: Shelf>(
    alloc: Global,
    tables: &Tables,
    shelf: &mut S,
    given: &Given,
    asked: Asked,
) -> Result<Plan, Refusal>
    ensures { Tells (S.contents shelf.old) (S.contents shelf.new) (spec.OpensAsked (rows tables.now) given.now asked result) }
{
    match find_by_path(&tables.kernels, asked.fields.path.as_str()) {
        None => open_fresh(alloc, tables, shelf, given, asked),
        Some(kernel) => again(alloc, kernel),
    }
}

/// The plan of a new session.
pub(crate) fn open<S: Shelf>(
    alloc: Global,
    tables: &Tables,
    shelf: &mut S,
    given: &Given,
    content: &[u8],
) -> Result<Plan, Refusal>
    ensures { Tells (S.contents shelf.old) (S.contents shelf.new) (spec.Opens (rows tables.now) given.now content.now result) }
{
    let asked = read_asked(alloc, content)?;
    open_asked(alloc, tables, shelf, given, asked)
}
