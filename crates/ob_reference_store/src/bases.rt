//! Record types that are told with names, and the bases of records.

ghost use Rattle.std.specs.Prelude.{◌≡◌, [], IfOk, MatchOption};
ghost use Rattle.ob_mean.specs.Values as spec;
ghost use Rattle.ob_mean.specs.Values.{Whole, Part};
ghost use Rattle.ob_reference_store.specs.Kept.{value_in, place_of};

use crate::stop::NoAnswer;
use crate::value::{Value, item, told};
use ob_base::SharedItems;
use ob_mean::TypeName;

/// The record type that is told with the name that a parameter has in the call of this number.
pub fn told_by(store: &Value, frame: usize, parameter: usize) -> Option<&SharedItems<TypeName>>
    ensures { MatchOption result
        (spec.told (spec.get (value_in store.now) (Part (Part Whole frame) parameter)) ≡ [])
        (λ type. spec.told (spec.get (value_in store.now) (Part (Part Whole frame) parameter)) ≡ type.now) }
{
    match item(store, frame) {
        Some(row) => match item(row, parameter) {
            Some(value) => told(value),
            None => None,
        },
        None => None,
    }
}

/// The record `levels` levels up of which a place is the base part.
#[tactic(auto, using(crate::proofs::Paths::part_of))]
pub fn up(path: Vec<usize>, levels: usize) -> Vec<usize>
    ensures { place_of result.items ≡ spec.up levels (place_of path.items) }
{
    if levels == 0 {
        return path;
    }
    let mut record = path;
    match record.pop() {
        Some(_) => up(record, levels - 1),
        None => record,
    }
}

/// The base part `levels` levels down.
#[tactic(auto, using(crate::proofs::Paths::part_of))]
pub fn down(path: Vec<usize>, levels: usize) -> Result<Vec<usize>, NoAnswer>
    ensures { IfOk result (λ part. place_of part.items ≡ spec.down levels (place_of path.items)) }
{
    if levels == 0 {
        return Ok(path);
    }
    let mut part = down(path, levels - 1)?;
    part.push(0)?;
    Ok(part)
}
