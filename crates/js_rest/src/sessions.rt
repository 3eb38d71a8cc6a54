//! The routes of sessions, but for a new one.
ghost use Rattle.std.specs.Prelude.{◌≡◌, IfOk};
ghost use Rattle.js_rest.specs.Sessions as spec;
ghost use Rattle.js_tables.specs.Plans.{Gives};
ghost use Rattle.js_tables.specs.Tables.{rows};

use crate::kernels::ending;
use js_http::{ErrorStatus, Response};
use js_shelf::is_path;
use js_tables::{
    Answer, Change, Kernel, Plan, Refusal, Session, Tables, Update, find_by_path, find_by_session,
    json_body, optional_text_in, read_body, reply, session_value, sessions_value, with_session,
};
use json_form::{Json, Text, given_part};
use std::alloc::{AllocError, Global};

/// All sessions.
pub(crate) fn all(alloc: Global, tables: &Tables) -> Result<Plan, Refusal>
    ensures { Gives result (spec.all_plan (rows tables.now)) }
{
    let value = sessions_value(alloc, &tables.kernels)?;
    Ok(reply(Response::Success(json_body(alloc, &value)?)))
}

fn shown(alloc: Global, kernel: &Kernel, session: &Session) -> Result<Plan, AllocError>
    ensures { IfOk result (λ plan. plan ≡ spec.shown kernel.now session.now) }
{
    let value = session_value(alloc, kernel, session)?;
    Ok(reply(Response::Success(json_body(alloc, &value)?)))
}

fn one_shown(alloc: Global, kernel: &Kernel) -> Result<Plan, Refusal>
    ensures { Gives result (spec.one_shown kernel.now) }
{
    match &kernel.session {
        None => Err(Refusal::Status(ErrorStatus::NotFound)),
        Some(session) => Ok(shown(alloc, kernel, session)?),
    }
}

/// One session.
pub(crate) fn one(alloc: Global, tables: &Tables, id: &[u8]) -> Result<Plan, Refusal>
    ensures { Gives result (spec.one_plan id.now (rows tables.now)) }
{
    match find_by_session(&tables.kernels, id) {
        None => Err(Refusal::Status(ErrorStatus::NotFound)),
        Some(kernel) => one_shown(alloc, kernel),
    }
}

/// A session ends, and its kernel with it.
pub(crate) fn end(tables: &Tables, id: &[u8]) -> Result<Plan, Refusal>
    ensures { Gives result (spec.end_plan id.now (rows tables.now)) }
{
    match find_by_session(&tables.kernels, id) {
        None => Err(Refusal::Status(ErrorStatus::NotFound)),
        Some(kernel) => Ok(ending(tables, kernel)?),
    }
}

// ---- a session is changed

fn check_no_kernel(body: &Json) -> Result<(), Refusal>
    ensures { Gives result (spec.no_kernel body.now) }
{
    match given_part(body.value(), "kernel") {
        None => Ok(()),
        Some(_) => Err(Refusal::Status(ErrorStatus::BadRequest)),
    }
}

/// Refuses what is no path.
pub(crate) fn check_path(path: &str) -> Result<(), Refusal>
    ensures { Gives result (spec.path_checked path.now) }
{
    if !is_path(path) {
        return Err(Refusal::Status(ErrorStatus::BadRequest));
    }
    Ok(())
}

fn changed(alloc: Global, body: &Json, session: &Session) -> Result<Session, Refusal>
    ensures { Gives result (spec.changed body.now session.now) }
{
    let path = optional_text_in(alloc, body, "path", session.path.as_str())?;
    let name = optional_text_in(alloc, body, "name", session.name.as_str())?;
    let kind = optional_text_in(alloc, body, "type", session.kind.as_str())?;
    check_path(path.as_str())?;
    Ok(Session {
        id: session.id.copy()?,
        path,
        name,
        kind,
    })
}

fn check_free(tables: &Tables, id: &str, path: &str) -> Result<(), Refusal>
    ensures { Gives result (spec.free_for id.now path.now (rows tables.now)) }
{
    match find_by_path(&tables.kernels, path) {
        None => Ok(()),
        Some(kernel) => if kernel.id.as_str() == id {
            Ok(())
        } else {
            Err(Refusal::Status(ErrorStatus::Conflict))
        },
    }
}

fn changing(
    alloc: Global,
    tables: &Tables,
    kernel: &Kernel,
    session: &Session,
) -> Result<Plan, AllocError>
    ensures { IfOk result (λ plan. plan ≡ spec.changing (rows tables.now) kernel.now session.now) }
{
    let value = session_value(alloc, kernel, session)?;
    let response = Response::Success(json_body(alloc, &value)?);
    let kernels = with_session(alloc, &tables.kernels, kernel.id.as_str(), session)?;
    Ok(Plan {
        change: Change::Nothing,
        update: Update::SetKernels(kernels, None),
        answer: Answer::Reply(response),
    })
}

fn change_of(alloc: Global, tables: &Tables, kernel: &Kernel, body: &Json) -> Result<Plan, Refusal>
    ensures { Gives result (spec.change_of (rows tables.now) kernel.now body.now) }
{
    match &kernel.session {
        None => Err(Refusal::Status(ErrorStatus::NotFound)),
        Some(session) => {
            let session = changed(alloc, body, session)?;
            check_free(tables, kernel.id.as_str(), session.path.as_str())?;
            Ok(changing(alloc, tables, kernel, &session)?)
        }
    }
}

/// A session is changed.
pub(crate) fn patch(
    alloc: Global,
    tables: &Tables,
    id: &[u8],
    content: &[u8],
) -> Result<Plan, Refusal>
    ensures { Gives result (spec.change_plan id.now content.now (rows tables.now)) }
{
    let body = read_body(alloc, content)?;
    check_no_kernel(&body)?;
    match find_by_session(&tables.kernels, id) {
        None => Err(Refusal::Status(ErrorStatus::NotFound)),
        Some(kernel) => change_of(alloc, tables, kernel, &body),
    }
}
