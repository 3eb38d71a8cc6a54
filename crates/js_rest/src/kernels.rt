//! The routes of the server's version, of kernelspecs and of kernels.
ghost use Rattle.std.specs.Prelude.{◌≡◌, ◌++◌, IfOk, codes};
ghost use Rattle.js_rest.specs.Kernels as spec;
ghost use Rattle.js_tables.specs.Plans.{Gives};
ghost use Rattle.js_tables.specs.Tables.{rows};

use js_http::{ErrorStatus, Response, Text as Location};
use js_tables::{
    Answer, Change, Command, Given, Kernel, Plan, Refusal, State, Tables, Update,
    check_kernel_name, find_kernel, json_body, kernel_value, kernels_value, kernelspecs_value,
    read_body, reply, version_value,
};
use std::alloc::{AllocError, Global};

/// How many kernels there are at most.
pub const MAX_KERNELS: usize = 16;

/// The version of the server.
pub(crate) fn version(alloc: Global) -> Result<Plan, Refusal>
    ensures { Gives result (spec.version_plan) }
{
    let value = version_value(alloc)?;
    Ok(reply(Response::Success(json_body(alloc, &value)?)))
}

/// The kernels that can be made.
pub(crate) fn kernelspecs(alloc: Global) -> Result<Plan, Refusal>
    ensures { Gives result (spec.kernelspecs_plan) }
{
    let value = kernelspecs_value(alloc)?;
    Ok(reply(Response::Success(json_body(alloc, &value)?)))
}

/// All kernels.
pub(crate) fn all(alloc: Global, tables: &Tables) -> Result<Plan, Refusal>
    ensures { Gives result (spec.all_plan (rows tables.now)) }
{
    let value = kernels_value(alloc, &tables.kernels)?;
    Ok(reply(Response::Success(json_body(alloc, &value)?)))
}

/// One kernel.
pub(crate) fn one(alloc: Global, tables: &Tables, id: &[u8]) -> Result<Plan, Refusal>
    ensures { Gives result (spec.one_plan id.now (rows tables.now)) }
{
    match find_kernel(&tables.kernels, id) {
        None => Err(Refusal::Status(ErrorStatus::NotFound)),
        Some(kernel) => {
            let value = kernel_value(alloc, kernel)?;
            Ok(reply(Response::Success(json_body(alloc, &value)?)))
        }
    }
}

/// A kernel is told to shut down, and goes with its session. Where it has a recorder it stays until the recorder has saved all
/// that it showed.
pub(crate) fn ending(tables: &Tables, kernel: &Kernel) -> Result<Plan, AllocError>
    ensures { IfOk result (λ plan. plan ≡ spec.ending kernel.now (rows tables.now)) }
{
    let change = Change::Tell(kernel.id.copy()?, Command::Shutdown);
    let id = kernel.id.copy()?;
    if tables.has_recorder(kernel.id.as_str()) {
        Ok(Plan {
            change,
            update: Update::Same,
            answer: Answer::Ends(id),
        })
    } else {
        Ok(Plan {
            change,
            update: Update::DropKernel(id),
            answer: Answer::Reply(Response::NoContent),
        })
    }
}

/// A kernel is to end.
pub(crate) fn end(tables: &Tables, id: &[u8]) -> Result<Plan, Refusal>
    ensures { Gives result (spec.end_plan id.now (rows tables.now)) }
{
    match find_kernel(&tables.kernels, id) {
        None => Err(Refusal::Status(ErrorStatus::NotFound)),
        Some(kernel) => Ok(ending(tables, kernel)?),
    }
}

/// A kernel is interrupted.
pub(crate) fn interrupt(tables: &Tables, id: &[u8]) -> Result<Plan, Refusal>
    ensures { Gives result (spec.interrupt_plan id.now (rows tables.now)) }
{
    match find_kernel(&tables.kernels, id) {
        None => Err(Refusal::Status(ErrorStatus::NotFound)),
        Some(kernel) => Ok(Plan {
            change: Change::Tell(kernel.id.copy()?, Command::Interrupt),
            update: Update::Same,
            answer: Answer::Reply(Response::NoContent),
        }),
    }
}

/// A kernel is restarted.
pub(crate) fn restart(alloc: Global, tables: &Tables, id: &[u8]) -> Result<Plan, Refusal>
    ensures { Gives result (spec.restart_plan id.now (rows tables.now)) }
{
    match find_kernel(&tables.kernels, id) {
        None => Err(Refusal::Status(ErrorStatus::NotFound)),
        Some(kernel) => {
            let value = kernel_value(alloc, kernel)?;
            Ok(Plan {
                change: Change::Tell(kernel.id.copy()?, Command::Restart),
                update: Update::Same,
                answer: Answer::Reply(Response::Success(json_body(alloc, &value)?)),
            })
        }
    }
}

/// The channels of a kernel are asked for.
pub(crate) fn channels(tables: &Tables, id: &[u8]) -> Result<Plan, Refusal>
    ensures { Gives result (spec.channels_plan id.now (rows tables.now)) }
{
    match find_kernel(&tables.kernels, id) {
        None => Err(Refusal::Status(ErrorStatus::NotFound)),
        Some(kernel) => Ok(Plan {
            change: Change::Nothing,
            update: Update::Same,
            answer: Answer::Channels(kernel.id.copy()?),
        }),
    }
}

/// A kernel that is made now, without a session.
pub(crate) fn new_kernel(alloc: Global, given: &Given) -> Result<Kernel, AllocError>
    ensures { IfOk result (λ kernel. kernel ≡ spec.new_kernel given.now) }
{
    Ok(Kernel {
        id: given.first_id(alloc)?,
        last_activity: given.date.copy()?,
        state: State::Idle,
        connections: 0,
        session: None,
    })
}

fn location(alloc: Global, kernel: &Kernel) -> Result<Location, AllocError>
    ensures { IfOk result (λ text. text ≡ spec.location kernel.now) }
{
    let mut text = String::from_str(alloc, "/api/kernels/")?;
    text.push_str(kernel.id.as_str())?;
    Ok(Location::from(text))
}

fn creation(alloc: Global, kernel: Kernel) -> Result<Plan, AllocError>
    ensures { IfOk result (λ plan. plan ≡ spec.creation kernel) }
{
    let value = kernel_value(alloc, &kernel)?;
    let content = json_body(alloc, &value)?;
    let location = location(alloc, &kernel)?;
    Ok(Plan {
        change: Change::Begin(kernel.id.copy()?),
        update: Update::AddKernel(kernel, None),
        answer: Answer::Reply(Response::Created(Some(location), content)),
    })
}

/// Refuses one more kernel where there are as many as there may be.
pub(crate) fn check_room(tables: &Tables) -> Result<(), Refusal>
    ensures { Gives result (spec.has_place (rows tables.now)) }
{
    if tables.kernels.len() >= MAX_KERNELS {
        return Err(Refusal::Status(ErrorStatus::ServiceUnavailable));
    }
    Ok(())
}

/// A new kernel.
pub(crate) fn create(
    alloc: Global,
    tables: &Tables,
    given: &Given,
    content: &[u8],
) -> Result<Plan, Refusal>
    ensures { Gives result (spec.create_plan given.now content.now (rows tables.now)) }
{
    check_kernel_name(&read_body(alloc, content)?)?;
    check_room(tables)?;
    let kernel = new_kernel(alloc, given)?;
    Ok(creation(alloc, kernel)?)
}
