//! What a call needs: the procedure, and its variables.

ghost use Rattle.std.specs.Prelude.{◌≡◌, OnOk, slice_index, MatchOption, None, Some};
ghost use Rattle.ob_mean.specs.Values.{first};
ghost use Rattle.ob_mean.specs.Runs.{with_store};
ghost use Rattle.ob_mean.specs.Programs as programs;
ghost use Rattle.ob_reference_store.specs.Kept.{value_in};
ghost use Rattle.ob_reference_store.specs.States.{supply_in, world_in};

use crate::row::{append, keep_first};
use crate::state::State;
use crate::stop::NoAnswer;
use crate::value::Value;
use crate::variable::import_of;
use crate::zero::{beside, zeros};
use ob_mean::{Callee, Loaded, TypedProcedure};
use std::alloc::Global;

/// The module of a procedure that is called.
pub fn home_of(program: &[Loaded], home: usize, callee: Callee) -> usize
    ensures { result ≡ programs.home_of program.now home callee }
{
    match callee {
        Callee::OfModule(_) => home,
        Callee::OfImport(import, _) => import_of(program, home, import),
    }
}

fn exported_at(module: &Loaded, place: usize) -> usize
    ensures { result ≡ slice_index module.now.tree.exported place }
{
    match module.tree.exported.as_slice().get(place) {
        Some(number) => *number,
        None => 0,
    }
}

/// The procedure that is called.
pub fn procedure_of(program: &[Loaded], home: usize, callee: Callee) -> Option<&TypedProcedure>
    ensures { MatchOption result (programs.procedure_of program.now home callee ≡ None) (λ f. programs.procedure_of program.now home callee ≡ Some f.now) }
{
    match callee {
        Callee::OfModule(number) => match program.get(home) {
            Some(module) => module.tree.procedures.as_slice().get(number),
            None => None,
        },
        Callee::OfImport(import, place) => match program.get(import_of(program, home, import)) {
            Some(module) => {
                module
                    .tree
                    .procedures
                    .as_slice()
                    .get(exported_at(module, place))
            }
            None => None,
        },
    }
}

/// The variables of one more call.
pub fn enter(
    alloc: Global,
    room: u32,
    state: &mut State,
    passed: Value,
    f: &TypedProcedure,
) -> Result<(), NoAnswer>
    ensures world { OnOk result (world_in state.new ≡ with_store (world_in state.old) (programs.entered (world_in state.old).store (value_in passed) f.now)) }
    ensures supply { OnOk result (supply_in state.new ≡ supply_in state.old) }
{
    let own = zeros(alloc, room, f.variables.as_slice())?;
    let mut variables = passed;
    append(&mut variables, own);
    let part = beside(alloc, variables, Value::Nothing)?;
    append(&mut state.store, part);
    Ok(())
}

/// The variables of a call go.
pub fn leave(state: &mut State, frame: usize)
    ensures world { world_in state.new ≡ with_store (world_in state.old) (first frame (world_in state.old).store) }
    ensures supply { supply_in state.new ≡ supply_in state.old }
{
    keep_first(&mut state.store, frame);
}
