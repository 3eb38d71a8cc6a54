//! Calls, and what is passed.

ghost use Rattle.std.specs.Prelude.{◌≡◌, map, option_to_list};
ghost use Rattle.ob_mean.specs.Expressions as spec;
ghost use Rattle.ob_mean.specs.Programs as programs;
ghost use Rattle.ob_reference_store.specs.Kept.{value_in};
ghost use Rattle.ob_reference.specs.Lists.{called};
ghost use Rattle.ob_reference_store.specs.States.{Follows, scope_in, supply_in, world_in};

use crate::expression::{place, told_of, value};
use crate::site::Site;
use crate::statement::statements;
use ob_mean::{Argument, Callee, Outcome, TrapKind, TurnKind, TypedExpr, TypedProcedure};
use ob_reference_store::bases::down;
use ob_reference_store::frame::{enter, home_of, leave, procedure_of};
use ob_reference_store::row::count;
use ob_reference_store::state::{At, State, take_turn};
use ob_reference_store::stop::Stop;
use ob_reference_store::value::Value;
use ob_reference_store::variable::count_at;
use ob_reference_store::zero::{beside, cell};

/// What is passed to one parameter.
#[cycle(running)]
fn argument(site: Site<'_>, room: u32, state: &mut State, a: &Argument) -> Result<Value, Stop>
    ensures { Follows value_in result state.new (spec.argument_of (scope_in site.entry.program.now site.entry.at) a.now (supply_in state.old) (world_in state.old)) }
{
    if room == 0 {
        return Err(Stop::Unanswered);
    }
    match a {
        Argument::Value(e) => {
            let number = value(site, room - 1, state, e)?;
            Ok(cell(number))
        }
        Argument::Place(d) => {
            let path = place(site, room - 1, state, d)?;
            Ok(Value::Named(path))
        }
        Argument::Open(d) => {
            let path = place(site, room - 1, state, d)?;
            let length = count_at(&state.store, &path)?;
            Ok(Value::Open(path, length))
        }
        Argument::Typed(d, kind, levels) => {
            let path = place(site, room - 1, state, d)?;
            let base = down(path, *levels)?;
            Ok(Value::Typed(base, kind.names.another()?))
        }
        Argument::Again(d, levels) => {
            let path = place(site, room - 1, state, d)?;
            let base = down(path, *levels)?;
            match told_of(site, &state.store, d) {
                Some(types) => Ok(Value::Typed(base, types.another()?)),
                None => Ok(Value::Named(base)),
            }
        }
    }
}

/// What is passed.
#[cycle(running)]
pub(crate) fn passed(
    site: Site<'_>,
    room: u32,
    state: &mut State,
    arguments: &[Argument],
) -> Result<Value, Stop>
    ensures { Follows value_in result state.new (spec.passed (map (spec.argument_of (scope_in site.entry.program.now site.entry.at)) arguments.now) (supply_in state.old) (world_in state.old)) }
{
    if room == 0 {
        return Err(Stop::Unanswered);
    }
    match arguments {
        [] => Ok(Value::Nothing),
        [first, others @ ..] => {
            let one = argument(site, room - 1, state, first)?;
            let rest = passed(site, room - 1, state, others)?;
            Ok(beside(site.alloc, one, rest)?)
        }
    }
}

/// A call: the test of the depth, the turn, and the procedure.
#[cycle(running)]
#[tactic(auto, using(crate::proofs::Calls::call_none, crate::proofs::Calls::call_waits, crate::proofs::Calls::call_missing, crate::proofs::Calls::call_found))]
pub(crate) fn call(
    site: Site<'_>,
    room: u32,
    state: &mut State,
    callee: Callee,
    passed: Value,
    line: usize,
) -> Result<Option<i32>, Stop>
    ensures { Follows option_to_list result state.new (programs.call_at site.entry.program.now site.entry.at.depth site.entry.at.home callee (value_in passed) line (supply_in state.old) (world_in state.old)) }
{
    if room == 0 {
        return Err(Stop::Unanswered);
    }
    if site.at.depth == 0 {
        return Err(Stop::Stands(Outcome::Trapped(TrapKind::CallDepth, site.at.home, line)));
    }
    take_turn(state, TurnKind::ProcedureCall)?;
    let at = At {
        home: home_of(site.program, site.at.home, callee),
        frame: count(&state.store)?,
        depth: site.at.depth - 1,
    };
    match procedure_of(site.program, site.at.home, callee) {
        Some(f) => procedure(Site { at, ..site }, room - 1, state, f, passed),
        None => Ok(None),
    }
}

/// A procedure, whose variables go when it returns.
#[cycle(running)]
fn procedure(
    site: Site<'_>,
    room: u32,
    state: &mut State,
    f: &TypedProcedure,
    passed: Value,
) -> Result<Option<i32>, Stop>
    ensures { Follows option_to_list result state.new (programs.procedure_meaning (scope_in site.entry.program.now site.entry.at) f.now (value_in passed) (supply_in state.old) (world_in state.old)) }
{
    if room == 0 {
        return Err(Stop::Unanswered);
    }
    enter(site.alloc, room, state, passed, f)?;
    statements(site, room - 1, state, f.body.as_slice())?;
    let returned = result_of(site, room - 1, state, &f.result)?;
    leave(state, site.at.frame);
    Ok(returned)
}

/// The value after RETURN.
#[cycle(running)]
fn result_of(
    site: Site<'_>,
    room: u32,
    state: &mut State,
    returned: &Option<TypedExpr>,
) -> Result<Option<i32>, Stop>
    ensures { Follows option_to_list result state.new (programs.result_of (scope_in site.entry.program.now site.entry.at) returned.now (supply_in state.old) (world_in state.old)) }
{
    if room == 0 {
        return Err(Stop::Unanswered);
    }
    match returned {
        None => Ok(None),
        Some(e) => {
            let number = value(site, room - 1, state, e)?;
            Ok(Some(number))
        }
    }
}

/// The value that a function gave.
fn only(given: Option<i32>) -> i32
    ensures { result ≡ spec.only (option_to_list given) }
{
    match given {
        Some(number) => number,
        None => 0,
    }
}

/// The value of a function.
#[cycle(running)]
pub(crate) fn function(
    site: Site<'_>,
    room: u32,
    state: &mut State,
    callee: Callee,
    line: usize,
    arguments: &[Argument],
) -> Result<i32, Stop>
    ensures { Follows (λ v. v) result state.new (called (scope_in site.entry.program.now site.entry.at) callee line arguments.now (supply_in state.old) (world_in state.old)) }
{
    if room == 0 {
        return Err(Stop::Unanswered);
    }
    let row = passed(site, room - 1, state, arguments)?;
    let given = call(site, room - 1, state, callee, row, line)?;
    Ok(only(given))
}
