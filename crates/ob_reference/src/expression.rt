//! Expressions and places.

ghost use Rattle.std.specs.Prelude.{◌≡◌, List, [], pos, IfOk, MatchOption, MatchResult};
ghost use Rattle.ob_mean.specs.Values.{Part, count, get};
ghost use Rattle.ob_mean.specs.declared.module.Loaded.{Loaded};
ghost use Rattle.ob_mean.specs.declared.outcome.Outcome.TheVariants.{Trapped};
ghost use Rattle.ob_reference_store.specs.declared.stop.Stop.TheVariants.{Stands};
ghost use Rattle.ob_mean.specs.RecordTypes.{extends};
ghost use Rattle.ob_mean.specs.Expressions as spec;
ghost use Rattle.ob_reference_store.specs.Kept.{place_of, value_in};
ghost use Rattle.ob_reference_store.specs.States.{Follows, scope_in, supply_in, world_in};
ghost use Rattle.ob_reference.specs.Lists.{operation_pieces, value_pieces};

use crate::call::function;
use crate::site::Site;
use ob_base::SharedItems;
use ob_mean::{
    Designator, Operation, Outcome, TrapKind, TypeName, TypedExpr, Variable, apply, apply_one,
    extends, texts_relate, truth,
};
use ob_reference_store::bases::{told_by, up};
use ob_reference_store::state::{At, State};
use ob_reference_store::stop::{NoAnswer, Stop};
use ob_reference_store::value::Value;
use ob_reference_store::variable::{count_at, number_at, text_at, variable_path};

/// The value of an expression.
#[cycle(running)]
#[tactic(auto, using(crate::proofs::Trees::unary_is, crate::proofs::Trees::chain_is, crate::proofs::Trees::every_is, crate::proofs::Trees::either_is, crate::proofs::Trees::function_is))]
pub(crate) fn value(
    site: Site<'_>,
    room: u32,
    state: &mut State,
    e: &TypedExpr,
) -> Result<i32, Stop>
    ensures { Follows (λ v. v) result state.new (spec.value_of (scope_in site.entry.program.now site.entry.at) e.now (supply_in state.old) (world_in state.old)) }
{
    if room == 0 {
        return Err(Stop::Unanswered);
    }
    match e {
        TypedExpr::Constant(number) => Ok(*number),
        TypedExpr::Read(d) => {
            let path = place(site, room - 1, state, d)?;
            Ok(number_at(&state.store, &path))
        }
        TypedExpr::InputDone => Ok(truth(state.input.is_done())),
        TypedExpr::Unary(operator, line, operand) => {
            let x = value(site, room - 1, state, operand.get())?;
            finish(site.at.home, *line, apply_one(*operator, x))
        }
        TypedExpr::Chain(first, others) => {
            let x = value(site, room - 1, state, first.get())?;
            chain(site, room - 1, state, x, others.as_slice())
        }
        TypedExpr::Every(all) => every(site, room - 1, state, all.as_slice()),
        TypedExpr::Either(all) => either(site, room - 1, state, all.as_slice()),
        TypedExpr::Texts(relation, first, second) => {
            let first = place(site, room - 1, state, first)?;
            let second = place(site, room - 1, state, second)?;
            let one = text_at(site.alloc, &state.store, &first)?;
            let other = text_at(site.alloc, &state.store, &second)?;
            Ok(truth(texts_relate(*relation, &one, &other)))
        }
        TypedExpr::Length(d) => {
            let path = place(site, room - 1, state, d)?;
            let count = count_at(&state.store, &path)?;
            Ok(length(count)?)
        }
        TypedExpr::Function(callee, line, arguments) => {
            function(site, room - 1, state, *callee, *line, arguments.as_slice())
        }
        TypedExpr::Test(d, types) => {
            let _path = place(site, room - 1, state, d)?;
            Ok(truth(is_told(site, &state.store, d, types.as_slice())))
        }
    }
}

/// A computed number, or the trap in this line.
fn finish(home: usize, line: usize, computed: Result<i32, TrapKind>) -> Result<i32, Stop>
    ensures { MatchResult computed (λ v. result ≡ Ok v) (λ kind. result ≡ Err (Stands (Trapped kind home line))) }
{
    match computed {
        Ok(number) => Ok(number),
        Err(kind) => Err(Stop::Stands(Outcome::Trapped(kind, home, line))),
    }
}

fn length(count: usize) -> Result<i32, NoAnswer>
    ensures { IfOk result (λ v. v ≡ pos count) }
{
    match i32::try_from(count) {
        Ok(number) => Ok(number),
        Err(_) => Err(NoAnswer),
    }
}

/// An operand, and operators with their second operands.
#[cycle(running)]
#[tactic(auto, using(crate::proofs::Trees::chain_gives))]
fn chain(
    site: Site<'_>,
    room: u32,
    state: &mut State,
    first: i32,
    others: &[Operation],
) -> Result<i32, Stop>
    ensures { Follows (λ v. v) result state.new (spec.chained (operation_pieces (scope_in site.entry.program.now site.entry.at) others.now) first (supply_in state.old) (world_in state.old)) }
{
    if room == 0 {
        return Err(Stop::Unanswered);
    }
    match others {
        [] => Ok(first),
        [operation, rest @ ..] => {
            let second = value(site, room - 1, state, &operation.operand)?;
            match apply(operation.operator, first, second) {
                Ok(number) => chain(site, room - 1, state, number, rest),
                Err(kind) => {
                    Err(Stop::Stands(Outcome::Trapped(kind, site.at.home, operation.line)))
                }
            }
        }
    }
}

/// Whether each holds.
#[cycle(running)]
fn every(site: Site<'_>, room: u32, state: &mut State, all: &[TypedExpr]) -> Result<i32, Stop>
    ensures { Follows (λ v. v) result state.new (spec.every (value_pieces (scope_in site.entry.program.now site.entry.at) all.now) (supply_in state.old) (world_in state.old)) }
{
    if room == 0 {
        return Err(Stop::Unanswered);
    }
    match all {
        [] => Ok(1),
        [first, rest @ ..] => {
            let holds = value(site, room - 1, state, first)?;
            if holds == 0 {
                Ok(0)
            } else {
                every(site, room - 1, state, rest)
            }
        }
    }
}

/// Whether one of them holds.
#[cycle(running)]
fn either(site: Site<'_>, room: u32, state: &mut State, all: &[TypedExpr]) -> Result<i32, Stop>
    ensures { Follows (λ v. v) result state.new (spec.either (value_pieces (scope_in site.entry.program.now site.entry.at) all.now) (supply_in state.old) (world_in state.old)) }
{
    if room == 0 {
        return Err(Stop::Unanswered);
    }
    match all {
        [] => Ok(0),
        [first, rest @ ..] => {
            let holds = value(site, room - 1, state, first)?;
            if holds == 0 {
                either(site, room - 1, state, rest)
            } else {
                Ok(1)
            }
        }
    }
}

/// The element of an array.
fn element(
    at: At,
    state: &State,
    array: Vec<usize>,
    index: i32,
    line: usize,
) -> Result<Vec<usize>, Stop>
    ensures { (program : List Loaded) → Follows (λ path. place_of path.items) result state.now (spec.element (scope_in program at) (spec.index_in index (count (get (world_in state.now).store (place_of array.items)))) (place_of array.items) line (supply_in state.now) (world_in state.now)) }
{
    let count = count_at(&state.store, &array)?;
    if index < 0 || index as usize >= count {
        return Err(Stop::Stands(Outcome::Trapped(TrapKind::Index, at.home, line)));
    }
    Ok(part(array, index as usize)?)
}

/// A part of a place.
#[tactic(auto, using(ob_reference_store::proofs::Paths::part_of))]
fn part(whole: Vec<usize>, number: usize) -> Result<Vec<usize>, NoAnswer>
    ensures { IfOk result (λ path. place_of path.items ≡ Part (place_of whole.items) number) }
{
    let mut path = whole;
    path.push(number)?;
    Ok(path)
}

/// The record type that is told of what a variable names.
fn told_variable<'a>(
    site: Site<'_>,
    store: &'a Value,
    variable: Variable,
) -> Option<&'a SharedItems<TypeName>>
    ensures { MatchOption result
        (spec.told_variable (scope_in site.entry.program.now site.entry.at) variable (value_in store.now) ≡ [])
        (λ type. spec.told_variable (scope_in site.entry.program.now site.entry.at) variable (value_in store.now) ≡ type.now) }
{
    match variable {
        Variable::ByParameter(x) => told_by(store, site.at.frame, x),
        _ => None,
    }
}

/// The record type that is told of what a VAR parameter names, guarded or not.
#[tactic(auto, using(crate::proofs::Trees::told_guarded))]
pub(crate) fn told_of<'a>(
    site: Site<'_>,
    store: &'a Value,
    d: &Designator,
) -> Option<&'a SharedItems<TypeName>>
    ensures { MatchOption result
        (spec.told_of (scope_in site.entry.program.now site.entry.at) d.now (value_in store.now) ≡ [])
        (λ type. spec.told_of (scope_in site.entry.program.now site.entry.at) d.now (value_in store.now) ≡ type.now) }
{
    match d {
        Designator::Whole(variable) => told_variable(site, store, *variable),
        Designator::Element(_, _, _) => None,
        Designator::Field(_, _) => None,
        Designator::Guarded(record, _, _, _) => told_of(site, store, record.get()),
    }
}

/// Whether what is told of a place is this record type, or one that extends it.
fn is_told(site: Site<'_>, store: &Value, d: &Designator, types: &[TypeName]) -> bool
    ensures { result ≡ extends (spec.told_of (scope_in site.entry.program.now site.entry.at) d.now (value_in store.now)) types.now }
{
    match told_of(site, store, d) {
        Some(told) => extends(told.as_slice(), types),
        None => extends(&[], types),
    }
}

/// The record `levels` levels up of which a place is the base part, where that is of the type of a guard.
fn extension(
    site: Site<'_>,
    state: &State,
    holds: bool,
    levels: usize,
    base: Vec<usize>,
    line: usize,
) -> Result<Vec<usize>, Stop>
    ensures { Follows (λ path. place_of path.items) result state.now (spec.extension (scope_in site.entry.program.now site.entry.at) holds levels (place_of base.items) line (supply_in state.now) (world_in state.now)) }
{
    if !holds {
        return Err(Stop::Stands(Outcome::Trapped(TrapKind::Guard, site.at.home, line)));
    }
    Ok(up(base, levels))
}

/// The place of a variable or a part of one.
#[cycle(running)]
#[tactic(auto, using(crate::proofs::Trees::element_is, crate::proofs::Trees::field_is, crate::proofs::Trees::guarded_is))]
pub(crate) fn place(
    site: Site<'_>,
    room: u32,
    state: &mut State,
    d: &Designator,
) -> Result<Vec<usize>, Stop>
    ensures { Follows (λ path. place_of path.items) result state.new (spec.place_of (scope_in site.entry.program.now site.entry.at) d.now (supply_in state.old) (world_in state.old)) }
{
    if room == 0 {
        return Err(Stop::Unanswered);
    }
    match d {
        Designator::Whole(variable) => {
            Ok(variable_path(site.alloc, site.program, site.at, &state.store, *variable)?)
        }
        Designator::Element(array, line, index) => {
            let array = place(site, room - 1, state, array.get())?;
            let index = value(site, room - 1, state, index.get())?;
            element(site.at, state, array, index, *line)
        }
        Designator::Field(record, number) => {
            let whole = place(site, room - 1, state, record.get())?;
            Ok(part(whole, *number)?)
        }
        Designator::Guarded(record, line, kind, levels) => {
            let base = place(site, room - 1, state, record.get())?;
            let holds = is_told(
                site,
                &state.store,
                record.get(),
                kind.get().names.as_slice(),
            );
            extension(site, state, holds, *levels, base, *line)
        }
    }
}
