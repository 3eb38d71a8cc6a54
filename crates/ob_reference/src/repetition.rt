//! Loops.

ghost use Rattle.std.specs.Prelude.{◌≡◌, ◌+ℤ◌};
ghost use Rattle.ob_mean.specs.declared.outcome.Outcome.TheVariants.{Stopped};
ghost use Rattle.ob_mean.specs.declared.outcome.TurnKind.TheVariants.{BodyEntry};
ghost use Rattle.ob_mean.specs.Values.{Cell, number, get};
ghost use Rattle.ob_mean.specs.Arithmetic.{truth, wrap};
ghost use Rattle.ob_mean.specs.Runs as runs;
ghost use Rattle.ob_mean.specs.Control.{looping, repeating};
ghost use Rattle.ob_mean.specs.Expressions.{value_of, variable_place};
ghost use Rattle.ob_mean.specs.Statements as spec;
ghost use Rattle.ob_reference_store.specs.declared.stop.Stop.TheVariants.{Stands};
ghost use Rattle.ob_reference.specs.Branches.{branch_pieces, for_pieces};
ghost use Rattle.ob_reference_store.specs.Kept.{place_of};
ghost use Rattle.ob_reference.specs.Rounds.{Round};
ghost use Rattle.ob_reference_store.specs.States.{Follows, scope_in, supply_in, world_in};

use crate::action::adjusted;
use crate::expression::value;
use crate::site::Site;
use crate::statement::{first_branch, statements};
use ob_mean::{Adjustment, Branch, ForHead, Outcome, TurnKind, TypedExpr, TypedStatement};
use ob_reference_store::state::{State, take_turn};
use ob_reference_store::stop::Stop;
use ob_reference_store::variable::{number_at, store_at, variable_path};
use ob_reference_store::zero::cell;

/// A loop has entered its body as often as turns were left when it began.
fn stopped(state: &mut State) -> Stop
    ensures why { result ≡ Stands (Stopped BodyEntry) }
    ensures state { state.new ≡ record state.old { turns = 0 } }
{
    state.turns = 0;
    Stop::Stands(Outcome::Stopped(TurnKind::BodyEntry))
}

/// WHILE.
#[cycle(running)]
pub(crate) fn while_loop(
    site: Site<'_>,
    room: u32,
    state: &mut State,
    branches: &[Branch],
) -> Result<(), Stop>
    ensures { Follows (λ _. runs.done) result state.new (looping (branch_pieces (scope_in site.entry.program.now site.entry.at) branches.now) (supply_in state.old).turns (supply_in state.old) (world_in state.old)) }
{
    if room == 0 {
        return Err(Stop::Unanswered);
    }
    let most = state.turns;
    for _ in 0..most {
        if !while_round(site, room - 1, state, branches)? {
            return Ok(());
        }
    }
    match first_branch(site, room - 1, state, branches)? {
        None => Ok(()),
        Some(_) => Err(stopped(state)),
    }
}

/// A round of WHILE: whether a guard holds.
#[cycle(running)]
fn while_round(
    site: Site<'_>,
    room: u32,
    state: &mut State,
    branches: &[Branch],
) -> Result<bool, Stop>
    ensures { Round (looping (branch_pieces (scope_in site.entry.program.now site.entry.at) branches.now)) (supply_in state.old) (world_in state.old) result state.new }
{
    if room == 0 {
        return Err(Stop::Unanswered);
    }
    match first_branch(site, room - 1, state, branches)? {
        None => Ok(false),
        Some(body) => {
            take_turn(state, TurnKind::BodyEntry)?;
            statements(site, room - 1, state, body)?;
            Ok(true)
        }
    }
}

/// REPEAT.
#[cycle(running)]
pub(crate) fn repeat_loop(
    site: Site<'_>,
    room: u32,
    state: &mut State,
    body: &[TypedStatement],
    until: &TypedExpr,
) -> Result<(), Stop>
    ensures { Follows (λ _. runs.done) result state.new (repeating (spec.list_meaning (scope_in site.entry.program.now site.entry.at) body.now) (value_of (scope_in site.entry.program.now site.entry.at) until.now) (supply_in state.old).turns (supply_in state.old) (world_in state.old)) }
{
    if room == 0 {
        return Err(Stop::Unanswered);
    }
    let most = state.turns;
    for _ in 0..most {
        if !repeat_round(site, room - 1, state, body, until)? {
            return Ok(());
        }
    }
    Err(stopped(state))
}

/// A round of REPEAT: whether there is another.
#[cycle(running)]
fn repeat_round(
    site: Site<'_>,
    room: u32,
    state: &mut State,
    body: &[TypedStatement],
    until: &TypedExpr,
) -> Result<bool, Stop>
    ensures { Round (repeating (spec.list_meaning (scope_in site.entry.program.now site.entry.at) body.now) (value_of (scope_in site.entry.program.now site.entry.at) until.now)) (supply_in state.old) (world_in state.old) result state.new }
{
    if room == 0 {
        return Err(Stop::Unanswered);
    }
    take_turn(state, TurnKind::BodyEntry)?;
    statements(site, room - 1, state, body)?;
    let holds = value(site, room - 1, state, until)?;
    Ok(holds == 0)
}

/// Whether a variable is not past the last value of FOR.
fn not_past(step: i32, variable: i32, last: i32) -> bool
    ensures { result ≡ spec.not_past step variable last }
{
    if step < 0 {
        last <= variable
    } else {
        variable <= last
    }
}

/// Adds the step of FOR to its variable.
fn step_on(state: &mut State, path: &[usize], step: i32)
    ensures world { world_in state.new ≡ runs.stored (world_in state.old) (place_of path.now) (Cell (wrap (number (get (world_in state.old).store (place_of path.now)) +ℤ step))) }
    ensures supply { supply_in state.new ≡ supply_in state.old }
{
    let now = number_at(&state.store, path);
    store_at(state, path, cell(adjusted(Adjustment::Increase, now, step)));
}

/// FOR.
#[cycle(running)]
pub(crate) fn for_loop(
    site: Site<'_>,
    room: u32,
    state: &mut State,
    head: &ForHead,
    body: &[TypedStatement],
) -> Result<(), Stop>
    ensures { Follows (λ _. runs.done) result state.new (spec.for_loop (scope_in site.entry.program.now site.entry.at) head.now (variable_place (scope_in site.entry.program.now site.entry.at) head.now.variable (world_in state.old).store) (spec.list_meaning (scope_in site.entry.program.now site.entry.at) body.now) (supply_in state.old) (world_in state.old)) }
{
    if room == 0 {
        return Err(Stop::Unanswered);
    }
    let path = variable_path(
        site.alloc,
        site.program,
        site.at,
        &state.store,
        head.variable,
    )?;
    let first = value(site, room - 1, state, &head.first)?;
    store_at(state, &path, cell(first));
    for_rounds(site, room - 1, state, head, &path, body)
}

/// The rounds of FOR, once its variable is set.
#[cycle(running)]
fn for_rounds(
    site: Site<'_>,
    room: u32,
    state: &mut State,
    head: &ForHead,
    path: &[usize],
    body: &[TypedStatement],
) -> Result<(), Stop>
    ensures { Follows (λ _. runs.done) result state.new (looping (for_pieces (scope_in site.entry.program.now site.entry.at) head.now (place_of path.now) body.now) (supply_in state.old).turns (supply_in state.old) (world_in state.old)) }
{
    if room == 0 {
        return Err(Stop::Unanswered);
    }
    let most = state.turns;
    for _ in 0..most {
        if !for_round(site, room - 1, state, head, path, body)? {
            return Ok(());
        }
    }
    if for_test(site, room - 1, state, head, path)? {
        Err(stopped(state))
    } else {
        Ok(())
    }
}

/// A round of FOR: whether its variable was not past the last value.
#[cycle(running)]
fn for_round(
    site: Site<'_>,
    room: u32,
    state: &mut State,
    head: &ForHead,
    path: &[usize],
    body: &[TypedStatement],
) -> Result<bool, Stop>
    ensures { Round (looping (for_pieces (scope_in site.entry.program.now site.entry.at) head.now (place_of path.now) body.now)) (supply_in state.old) (world_in state.old) result state.new }
{
    if room == 0 {
        return Err(Stop::Unanswered);
    }
    if !for_test(site, room - 1, state, head, path)? {
        return Ok(false);
    }
    take_turn(state, TurnKind::BodyEntry)?;
    statements(site, room - 1, state, body)?;
    step_on(state, path, head.step);
    Ok(true)
}

/// The test of FOR.
#[cycle(running)]
fn for_test(
    site: Site<'_>,
    room: u32,
    state: &mut State,
    head: &ForHead,
    path: &[usize],
) -> Result<bool, Stop>
    ensures { Follows truth result state.new (spec.for_guard (scope_in site.entry.program.now site.entry.at) head.now (place_of path.now) (supply_in state.old) (world_in state.old)) }
{
    if room == 0 {
        return Err(Stop::Unanswered);
    }
    let now = number_at(&state.store, path);
    let last = value(site, room - 1, state, &head.last)?;
    Ok(not_past(head.step, now, last))
}
