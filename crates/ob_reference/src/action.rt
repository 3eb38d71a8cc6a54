//! Statements that have no others in them.

ghost use Rattle.std.specs.Prelude.{◌≡◌, List};
ghost use Rattle.ob_mean.specs.Runs.{done};
ghost use Rattle.ob_mean.specs.Statements as spec;
ghost use Rattle.ob_mean.specs.declared.module.Loaded.{Loaded};
ghost use Rattle.ob_reference_store.specs.Kept.{place_of};
ghost use Rattle.ob_reference_store.specs.States.{Follows, scope_in, supply_in, world_in};

use crate::call::{call, passed};
use crate::expression::{place, value};
use crate::site::Site;
use ob_mean::{Action, Adjustment, InputCall, Outcome, OutputCall, TrapKind};
use ob_reference_store::input::{read_into, reopen};
use ob_reference_store::state::{At, State};
use ob_reference_store::stop::Stop;
use ob_reference_store::variable::{copy_at, count_at, number_at, store_at};
use ob_reference_store::write::{write_char, write_end, write_int, write_nothing, write_text};
use ob_reference_store::zero::{cell, text_row};
use std::alloc::Global;

/// A number more, or less, which wraps.
pub(crate) fn adjusted(adjustment: Adjustment, x: i32, y: i32) -> i32
    ensures { result ≡ spec.adjusted adjustment x y }
{
    match adjustment {
        Adjustment::Increase => x.wrapping_add(y),
        Adjustment::Decrease => x.wrapping_sub(y),
    }
}

/// A string for the array at a place.
fn store_text(
    alloc: Global,
    at: At,
    state: &mut State,
    path: &[usize],
    line: usize,
    text: &[u8],
) -> Result<(), Stop>
    ensures { (program : List Loaded) → Follows (λ _. done) result state.new (spec.text_stored (scope_in program at) (place_of path.now) line text.now (supply_in state.old) (world_in state.old)) }
{
    let length = count_at(&state.store, path)?;
    if text.len() >= length {
        return Err(Stop::Stands(Outcome::Trapped(TrapKind::TextLength, at.home, line)));
    }
    let row = text_row(alloc, length, text)?;
    store_at(state, path, row);
    Ok(())
}

/// A statement that has no others in it.
#[cycle(running)]
pub(crate) fn action(site: Site<'_>, room: u32, state: &mut State, one: &Action) -> Result<(), Stop>
    ensures { Follows (λ _. done) result state.new (spec.action_meaning (scope_in site.entry.program.now site.entry.at) one.now (supply_in state.old) (world_in state.old)) }
{
    if room == 0 {
        return Err(Stop::Unanswered);
    }
    match one {
        Action::Assign(d, e) => {
            let path = place(site, room - 1, state, d)?;
            let number = value(site, room - 1, state, e)?;
            store_at(state, &path, cell(number));
            Ok(())
        }
        Action::Copy(d, e) => {
            let target = place(site, room - 1, state, d)?;
            let source = place(site, room - 1, state, e)?;
            let copied = copy_at(site.alloc, &state.store, &source)?;
            store_at(state, &target, copied);
            Ok(())
        }
        Action::AssignText(d, line, text) => {
            let path = place(site, room - 1, state, d)?;
            store_text(site.alloc, site.at, state, &path, *line, text.as_slice())
        }
        Action::Adjust(adjustment, d, e) => {
            let path = place(site, room - 1, state, d)?;
            let number = value(site, room - 1, state, e)?;
            let now = number_at(&state.store, &path);
            store_at(state, &path, cell(adjusted(*adjustment, now, number)));
            Ok(())
        }
        Action::Assert(line, e) => {
            let holds = value(site, room - 1, state, e)?;
            if holds == 0 {
                let trap = Outcome::Trapped(TrapKind::Assertion, site.at.home, *line);
                return Err(Stop::Stands(trap));
            }
            Ok(())
        }
        Action::Call(callee, line, arguments) => {
            let row = passed(site, room - 1, state, arguments.as_slice())?;
            call(site, room - 1, state, *callee, row, *line)?;
            Ok(())
        }
        Action::Input(call) => input(site, room - 1, state, call),
        Action::Output(call) => output(site, room - 1, state, call),
    }
}

/// A call of In.
#[cycle(running)]
fn input(site: Site<'_>, room: u32, state: &mut State, call: &InputCall) -> Result<(), Stop>
    ensures { Follows (λ _. done) result state.new (spec.input_meaning (scope_in site.entry.program.now site.entry.at) call.now (supply_in state.old) (world_in state.old)) }
{
    if room == 0 {
        return Err(Stop::Unanswered);
    }
    match call {
        InputCall::Open => reopen(state),
        InputCall::Read(reader, d) => {
            let path = place(site, room - 1, state, d)?;
            read_into(site.alloc, state, *reader, &path)
        }
    }
}

/// A call of Out.
#[cycle(running)]
fn output(site: Site<'_>, room: u32, state: &mut State, call: &OutputCall) -> Result<(), Stop>
    ensures { Follows (λ _. done) result state.new (spec.output_meaning (scope_in site.entry.program.now site.entry.at) call.now (supply_in state.old) (world_in state.old)) }
{
    if room == 0 {
        return Err(Stop::Unanswered);
    }
    match call {
        OutputCall::Open => write_nothing(state),
        OutputCall::Char(e) => {
            let number = value(site, room - 1, state, e)?;
            write_char(state, number)
        }
        OutputCall::String(d) => {
            let path = place(site, room - 1, state, d)?;
            write_text(site.alloc, state, &path)
        }
        OutputCall::Int(e, width) => {
            let number = value(site, room - 1, state, e.get())?;
            let width = value(site, room - 1, state, width.get())?;
            write_int(state, number, width)
        }
        OutputCall::Ln => write_end(state),
    }
}
