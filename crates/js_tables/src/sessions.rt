//! Kernels by their sessions, and copies of both.
ghost use Rattle.std.specs.Prelude.{◌≡◌, map, IfOk};
ghost use Rattle.std.specs.Option.{option_copied};
ghost use Rattle.js_tables.specs.Sessions as spec;

use crate::tables::{Kernel, Session};
use nb_doc::Listed;
use std::alloc::{AllocError, Global};

fn is_session(session: &Option<Session>, id: &[u8]) -> bool
    ensures { result ≡ spec.is_session id.now session.now }
{
    match session {
        None => false,
        Some(session) => session.id.as_str().as_bytes() == id,
    }
}

fn is_at(session: &Option<Session>, path: &str) -> bool
    ensures { result ≡ spec.is_at path.now session.now }
{
    match session {
        None => false,
        Some(session) => session.path.as_str() == path,
    }
}

/// The kernel whose session has that identifier.
pub fn find_by_session<'k>(kernels: &'k [Kernel], id: &[u8]) -> Option<&'k Kernel>
    ensures { option_copied result ≡ spec.find_by_session id.now kernels.now }
{
    kernels
        .iter()
        .find(|kernel| is_session(&kernel.session, id))
}

/// The kernel whose session has that path.
pub fn find_by_path<'k>(kernels: &'k [Kernel], path: &str) -> Option<&'k Kernel>
    ensures { option_copied result ≡ spec.find_by_path path.now kernels.now }
{
    kernels.iter().find(|kernel| is_at(&kernel.session, path))
}

/// An equal session.
///
/// # Errors
/// Where there is no memory.
pub fn session_copy(session: &Session) -> Result<Session, AllocError>
    ensures { IfOk result (λ copy. copy ≡ session.now) }
{
    Ok(Session {
        id: session.id.copy()?,
        path: session.path.copy()?,
        name: session.name.copy()?,
        kind: session.kind.copy()?,
    })
}

fn optional_copy(session: &Option<Session>) -> Result<Option<Session>, AllocError>
    ensures { IfOk result (λ copy. copy ≡ session.now) }
{
    match session {
        None => Ok(None),
        Some(session) => Ok(Some(session_copy(session)?)),
    }
}

/// An equal kernel but for its session.
///
/// # Errors
/// Where there is no memory.
pub fn kernel_copy(kernel: &Kernel, session: Option<Session>) -> Result<Kernel, AllocError>
    ensures { IfOk result (λ copy. copy ≡ record kernel.now { session = session }) }
{
    Ok(Kernel {
        id: kernel.id.copy()?,
        last_activity: kernel.last_activity.copy()?,
        state: kernel.state,
        connections: kernel.connections,
        session,
    })
}

fn changed(kernel: &Kernel, id: &str, session: &Session) -> Result<Kernel, AllocError>
    ensures { IfOk result (λ copy. copy ≡ spec.changed id.now session.now kernel.now) }
{
    if kernel.id.as_str() == id {
        kernel_copy(kernel, Some(session_copy(session)?))
    } else {
        kernel_copy(kernel, optional_copy(&kernel.session)?)
    }
}

/// The kernels, where the one of that identifier has this session.
///
/// # Errors
/// Where there is no memory.
pub fn with_session(
    alloc: Global,
    kernels: &[Kernel],
    id: &str,
    session: &Session,
) -> Result<Listed<Kernel>, AllocError>
    ensures { IfOk result (λ copies. copies ≡ map (spec.changed id.now session.now) kernels.now) }
{
    let mut copies = Listed::empty(alloc);
    for kernel in kernels {
        copies.push(changed(kernel, id, session)?)?;
    }
    Ok(copies)
}
