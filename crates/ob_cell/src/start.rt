//! A cell that is begun.

ghost use Rattle.std.specs.Prelude.{◌≡◌, ℕ, List, IfOk, IfErr};
ghost use Rattle.jk_language.specs.Beginning.{HasBegun};
ghost use Rattle.ob_link.specs.Looking.{fault_seen};
ghost use Rattle.ob_load.specs.MachineState.{begun_in, state_of};
ghost use Rattle.ob_load.specs.Parts.{told_fault};
ghost use Rattle.ob_load.specs.declared.task.Task.TheVariants as task;
ghost use Rattle.ob_cell.specs.Planned.{IsLoadable};
ghost use Rattle.ob_session.specs.Session.{installed, name_of, place_of};
ghost use Rattle.ob_cell.specs.Oberon.{spoken_oberon, IsTreeOf};

use crate::cell::plan;
use crate::planned::{Plan, Planned};
use crate::reading::numbered;
use crate::tree::Tree;
use jk_language::{Begun, LinkFault, Name, Refusal};
use ob_base::{Refused, Text};
use ob_image::KnownFaces;
use ob_load::{Machine, Session};
use std::alloc::{AllocError, Global};

fn begin_module(session: Session, planned: Planned) -> Result<Machine, (Session, AllocError)>
    requires { IsLoadable session.modules planned }
    ensures begun { IfOk result (λ m. m ≡ begun_in (installed session planned.module) (task.Body (place_of session.modules (name_of planned.module)))) }
    ensures back { IfErr result (λ back. back.0 ≡ session) }
{
    let Planned {
        module: added,
        face,
        faces,
        code,
    } = planned;
    session.run_module(added, KnownFaces::new(face, faces), code)
}

fn told_name(alloc: Global, name: &Text) -> Result<Name, AllocError>
    ensures { IfOk result (λ told. told ≡ name.now) }
{
    Name::from_slice(alloc, name.as_slice())
}

/// Why a cell does not link, as a kernel shows it.
fn told_link(alloc: Global, fault: &ob_link::LinkFault) -> Result<LinkFault, AllocError>
    ensures { IfOk result (λ told. told ≡ told_fault (fault_seen fault.now)) }
{
    match fault {
        ob_link::LinkFault::NotLoaded(home) => Ok(LinkFault::NotLoaded(told_name(alloc, home)?)),
        ob_link::LinkFault::NoCommand(home, name) => {
            let home = told_name(alloc, home)?;
            Ok(LinkFault::NoCommand(home, told_name(alloc, name)?))
        }
        ob_link::LinkFault::OtherKey(name) => Ok(LinkFault::OtherKey(told_name(alloc, name)?)),
    }
}

/// A machine before the first turn of a cell, or why the cell is refused.
///
/// # Errors
///
/// Out of memory, and then the session is handed back as it was.
pub fn begin(
    alloc: Global,
    session: Session,
    tree: &Tree,
) -> Result<Begun<Session, Machine>, (Session, AllocError)>
    ensures begun { IfOk result (λ begun. (text : List ℕ) → IsTreeOf text tree.now → HasBegun spoken_oberon state_of session text begun) }
    ensures back { IfErr result (λ back. back.0 ≡ session) }
{
    match plan(alloc, session.modules(), tree.cell()) {
        Ok(Plan::Module(planned)) => Ok(Begun::Runs(begin_module(session, planned)?)),
        Ok(Plan::Commands(commands)) => Ok(Begun::Runs(session.run_commands(commands)?)),
        Ok(Plan::Unlinked(fault)) => match told_link(alloc, &fault) {
            Ok(fault) => Ok(Begun::Refused(session, Refusal::Link(fault))),
            Err(error) => Err((session, error)),
        },
        Err(Refused::Fault(fault)) => Ok(Begun::Refused(
            session,
            Refusal::Compile(numbered(fault)),
        )),
        Err(Refused::Memory) => Err((session, AllocError)),
    }
}
