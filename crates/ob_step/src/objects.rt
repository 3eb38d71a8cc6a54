//! Where the cells of what instructions name are.

ghost use Rattle.std.specs.Prelude.{◌≡◌, ◌+◌, ◌<◌, ◌≤◌, ◌^◌, length, Some, IsSome, slice_get};
ghost use Rattle.ob_code.specs.Machine as spec;
ghost use Rattle.ob_code.specs.Machine.{imports_in, import_number};
ghost use Rattle.ob_step.specs.States.{config_of};
ghost use Rattle.ob_step.specs.Needs.{IsInside, RootIsThere, LengthIsThere, exported_in, CalleeIsThere};

use crate::state::State;
use ob_code::instr::{Extent, Length, LinkedModule, Name, Procedure, Root, Target, Told};
use ob_mean::Callee;

/// The module of this number.
pub fn module(code: &[LinkedModule], home: usize) -> &LinkedModule
    requires { home < length code.now }
    ensures { slice_get code.now home ≡ Some result.now }
{
    &code[home]
}

/// A procedure that is there.
pub fn procedure(code: &[LinkedModule], home: usize, number: usize) -> &Procedure
    requires { IsSome (spec.procedure_in (slice_get code.now home) number) }
    ensures { spec.procedure_in (slice_get code.now home) number ≡ Some result.now }
{
    &code[home].code.procedures[number]
}

/// The number of the module that a module imports.
fn imported(code: &[LinkedModule], home: usize, import: usize) -> usize
    requires home { home < length code.now }
    requires import { import < length (imports_in (slice_get code.now home)) }
    ensures { result ≡ import_number code.now home import }
{
    module(code, home).imports[import]
}

/// The number that an exported procedure has in its module.
fn exported(code: &[LinkedModule], home: usize, place: usize) -> usize
    requires home { home < length code.now }
    requires place { place < length (exported_in (slice_get code.now home)) }
    ensures { result ≡ spec.exported_number (slice_get code.now home) place }
{
    module(code, home).code.exported[place]
}

/// The module and the number of the procedure that is called.
pub fn callee(code: &[LinkedModule], home: usize, callee: Callee) -> (usize, usize)
    requires { CalleeIsThere code.now home callee }
    ensures home { result.0 ≡ spec.target_of code.now home callee }
    ensures number { result.1 ≡ spec.number_of code.now home callee }
{
    match callee {
        Callee::OfModule(number) => (home, number),
        Callee::OfImport(import, place) => {
            let target = imported(code, home, import);
            (target, exported(code, target, place))
        }
    }
}

/// What is told of an object that is no record, or of which nothing is asked.
pub fn untold() -> Told
    ensures { result ≡ spec.untold }
{
    Told {
        home: 0,
        procedure: 0,
        place: 0,
    }
}

fn part_of(base: usize, extent: Extent) -> Name
    requires { base + extent.from < 2 ^ 64 }
    ensures { result ≡ spec.part_of base extent }
{
    Name {
        address: base + extent.from,
        cells: extent.cells,
        length: 0,
        told: untold(),
    }
}

/// Where an object's cells are.
pub fn object(code: &[LinkedModule], state: &State, root: Root) -> Name
    requires { RootIsThere code.now (config_of state.now) root }
    ensures value { result ≡ spec.object code.now (config_of state.now) root }
    ensures there { IsInside (config_of state.now) result }
{
    match root {
        Root::OfModule(extent) => part_of(module(code, state.at.home).cells, extent),
        Root::OfImport(import, extent) => {
            let home = imported(code, state.at.home, import);
            part_of(module(code, home).cells, extent)
        }
        Root::OfCall(extent) => part_of(state.at.cells, extent),
        Root::Named(x) => state.names[state.at.names + x],
    }
}

/// How many elements an array has.
pub fn elements(state: &State, length: Length) -> usize
    requires { LengthIsThere (config_of state.now) length }
    ensures { result ≡ spec.elements (config_of state.now) length }
{
    match length {
        Length::Elements(n) => n,
        Length::OfName(x) => state.names[state.at.names + x].length,
    }
}

/// Where cell k of an object stands, from which on n cells of the object are there.
pub fn place_in(object: Name, k: i32, n: usize) -> usize
    requires within { IsSome (spec.within object k n) }
    requires there { object.address + object.cells < 2 ^ 64 }
    ensures value { spec.within object k n ≡ Some result }
    ensures there { result + n ≤ object.address + object.cells }
{
    object.address + k as usize
}
