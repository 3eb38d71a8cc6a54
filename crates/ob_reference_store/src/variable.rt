//! The places of variables, and what stands there.

ghost use Rattle.std.specs.Prelude.{◌≡◌, ◌∷◌, [], IfOk, slice_index};
ghost use Rattle.ob_mean.specs.Values as spec;
ghost use Rattle.ob_mean.specs.Texts as texts;
ghost use Rattle.ob_mean.specs.Runs.{stored};
ghost use Rattle.ob_mean.specs.Programs.{imports_of};
ghost use Rattle.ob_mean.specs.Expressions.{variable_place};
ghost use Rattle.ob_reference_store.specs.Kept.{value_in, place_of};
ghost use Rattle.ob_reference_store.specs.States.{scope_in, supply_in, world_in};

use crate::row::{characters, copy, count, named, number, text};
use crate::state::{At, State};
use crate::stop::NoAnswer;
use crate::value::{Value, at, item, set};
use ob_mean::{Loaded, Variable};
use std::alloc::{AllocError, Global};

/// The number of a module that is imported.
pub(crate) fn import_of(program: &[Loaded], home: usize, import: usize) -> usize
    ensures { result ≡ slice_index (imports_of program.now home) import }
{
    match program.get(home) {
        Some(module) => match module.imports.as_slice().get(import) {
            Some(number) => *number,
            None => 0,
        },
        None => 0,
    }
}

fn path_of(alloc: Global, part: usize, variable: usize) -> Result<Vec<usize>, AllocError>
    ensures { IfOk result (λ path. path.items ≡ part ∷ variable ∷ []) }
{
    let mut path = Vec::new(alloc);
    path.push(part)?;
    path.push(variable)?;
    Ok(path)
}

fn named_by(
    alloc: Global,
    store: &Value,
    part: usize,
    parameter: usize,
) -> Result<Vec<usize>, AllocError>
    ensures { IfOk result (λ path. place_of path.items ≡ spec.named (spec.item (spec.item (value_in store.now) part) parameter)) }
{
    match item(store, part) {
        Some(row) => match item(row, parameter) {
            Some(value) => named(alloc, value),
            None => Ok(Vec::new(alloc)),
        },
        None => Ok(Vec::new(alloc)),
    }
}

/// The place of a variable.
pub fn variable_path(
    alloc: Global,
    program: &[Loaded],
    at: At,
    store: &Value,
    variable: Variable,
) -> Result<Vec<usize>, AllocError>
    ensures { IfOk result (λ path. place_of path.items ≡ variable_place (scope_in program.now at) variable (value_in store.now)) }
{
    match variable {
        Variable::OfModule(x) => path_of(alloc, at.home, x),
        Variable::OfImport(import, x) => path_of(alloc, import_of(program, at.home, import), x),
        Variable::OfProcedure(x) => path_of(alloc, at.frame, x),
        Variable::ByParameter(x) => named_by(alloc, store, at.frame, x),
    }
}

/// The number at a place.
#[tactic(auto, using(crate::proofs::Paths::get_path))]
pub fn number_at(store: &Value, path: &[usize]) -> i32
    ensures { result ≡ spec.number (spec.get (value_in store.now) (place_of path.now)) }
{
    match at(store, path) {
        Some(value) => number(value),
        None => 0,
    }
}

/// How many values stand at a place.
#[tactic(auto, using(crate::proofs::Paths::get_path))]
pub fn count_at(store: &Value, path: &[usize]) -> Result<usize, NoAnswer>
    ensures { IfOk result (λ n. n ≡ spec.count (spec.get (value_in store.now) (place_of path.now))) }
{
    match at(store, path) {
        Some(value) => count(value),
        None => Ok(0),
    }
}

/// The text at a place.
#[tactic(auto, using(crate::proofs::Paths::get_path))]
pub fn text_at(alloc: Global, store: &Value, path: &[usize]) -> Result<Vec<u8>, NoAnswer>
    ensures { IfOk result (λ t. t.items ≡ texts.text_of (spec.get (value_in store.now) (place_of path.now))) }
{
    let mut out = Vec::new(alloc);
    match at(store, path) {
        Some(value) => {
            text(value, &mut out)?;
            Ok(out)
        }
        None => Ok(out),
    }
}

/// The characters of the array at a place.
#[tactic(auto, using(crate::proofs::Paths::get_path))]
pub(crate) fn characters_at(
    alloc: Global,
    store: &Value,
    path: &[usize],
) -> Result<Vec<u8>, NoAnswer>
    ensures { IfOk result (λ t. t.items ≡ texts.characters (spec.get (value_in store.now) (place_of path.now))) }
{
    let mut out = Vec::new(alloc);
    match at(store, path) {
        Some(value) => {
            characters(value, &mut out)?;
            Ok(out)
        }
        None => Ok(out),
    }
}

/// Another value at a place.
#[tactic(auto, using(crate::proofs::Paths::set_path))]
pub fn store_at(state: &mut State, path: &[usize], value: Value)
    ensures world { world_in state.new ≡ stored (world_in state.old) (place_of path.now) (value_in value) }
    ensures supply { supply_in state.new ≡ supply_in state.old }
{
    set(&mut state.store, path, value);
}

/// What stands at a place, once more.
#[tactic(auto, using(crate::proofs::Paths::get_path))]
pub fn copy_at(alloc: Global, store: &Value, path: &[usize]) -> Result<Value, NoAnswer>
    ensures { IfOk result (λ v. value_in v ≡ spec.get (value_in store.now) (place_of path.now)) }
{
    match at(store, path) {
        Some(value) => Ok(copy(alloc, value)?),
        None => Ok(Value::Nothing),
    }
}
