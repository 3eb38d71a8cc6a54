//! Variables before anything is assigned to them.

ghost use Rattle.std.specs.Prelude.{◌≡◌, pos, IfOk};
ghost use Rattle.ob_mean.specs.Values as spec;
ghost use Rattle.ob_mean.specs.Shapes as shapes;
ghost use Rattle.ob_mean.specs.Texts as texts;
ghost use Rattle.ob_reference_store.specs.Kept.{value_in};

use crate::row::copy;
use crate::stop::NoAnswer;
use crate::value::Value;
use ob_mean::{ModuleVariable, Shape, ShapeForm};
use std::alloc::{AllocError, Global};

/// A value beside a row.
pub fn beside(alloc: Global, first: Value, rest: Value) -> Result<Value, AllocError>
    ensures { IfOk result (λ v. value_in v ≡ spec.Beside (value_in first) (value_in rest)) }
{
    Ok(Value::Beside(Box::new(alloc, first)?, Box::new(alloc, rest)?))
}

/// A value of basic type.
pub fn cell(number: i32) -> Value
    ensures { value_in result ≡ spec.Cell number }
{
    Value::Cell(number)
}

/// A character.
pub(crate) fn character_cell(c: u8) -> Value
    ensures { value_in result ≡ spec.Cell (pos c) }
{
    Value::Cell(i32::from(c))
}

/// An array of `length` elements with these characters at its front.
#[tactic(auto, using(crate::proofs::Zeros::text_none, crate::proofs::Zeros::text_front))]
pub fn text_row(alloc: Global, length: usize, characters: &[u8]) -> Result<Value, AllocError>
    ensures { IfOk result (λ v. value_in v ≡ texts.text_row length characters.now) }
{
    if length == 0 {
        return Ok(Value::Nothing);
    }
    match characters {
        [] => {
            let rest = text_row(alloc, length - 1, characters)?;
            beside(alloc, Value::Cell(0), rest)
        }
        [c, others @ ..] => {
            let rest = text_row(alloc, length - 1, others)?;
            beside(alloc, character_cell(*c), rest)
        }
    }
}

/// A row of `length` equal values.
#[tactic(auto, using(crate::proofs::Zeros::row_more))]
fn equal_row(alloc: Global, length: u32, value: &Value) -> Result<Value, AllocError>
    ensures { IfOk result (λ v. value_in v ≡ spec.row length (value_in value.now)) }
{
    if length == 0 {
        return Ok(Value::Nothing);
    }
    let first = copy(alloc, value)?;
    let rest = equal_row(alloc, length - 1, value)?;
    beside(alloc, first, rest)
}

fn at_least_one(alloc: Global, row: Value) -> Result<Value, AllocError>
    ensures { IfOk result (λ v. value_in v ≡ shapes.at_least_one (value_in row)) }
{
    match row {
        Value::Beside(first, rest) => Ok(Value::Beside(first, rest)),
        _ => beside(alloc, Value::Cell(0), Value::Nothing),
    }
}

/// A variable of this shape.
#[cycle(zero)]
#[tactic(auto, using(ob_mean::proofs::Zeros::array_zero, ob_mean::proofs::Zeros::record_zero))]
fn zero_of(alloc: Global, room: u32, shape: &Shape) -> Result<Value, NoAnswer>
    ensures { IfOk result (λ v. value_in v ≡ shapes.zero_of shape.now) }
{
    if room == 0 {
        return Err(NoAnswer);
    }
    match shape.form() {
        ShapeForm::Basic => Ok(Value::Cell(0)),
        ShapeForm::Array(length, element) => {
            let zero = zero_of(alloc, room - 1, element.get())?;
            Ok(equal_row(alloc, *length, &zero)?)
        }
        ShapeForm::Record(fields) => {
            let row = zeros(alloc, room - 1, fields.get().shapes.as_slice())?;
            Ok(at_least_one(alloc, row)?)
        }
    }
}

/// Variables of these shapes.
#[cycle(zero)]
pub(crate) fn zeros(alloc: Global, room: u32, all: &[Shape]) -> Result<Value, NoAnswer>
    ensures { IfOk result (λ v. value_in v ≡ shapes.zeros all.now) }
{
    if room == 0 {
        return Err(NoAnswer);
    }
    match all {
        [] => Ok(Value::Nothing),
        [shape, others @ ..] => {
            let first = zero_of(alloc, room - 1, shape)?;
            let rest = zeros(alloc, room - 1, others)?;
            Ok(beside(alloc, first, rest)?)
        }
    }
}

fn opening_value(alloc: Global, room: u32, variable: &ModuleVariable) -> Result<Value, NoAnswer>
    ensures { IfOk result (λ v. value_in v ≡ shapes.opening_value variable.now) }
{
    match variable {
        ModuleVariable::Declared(shape) => zero_of(alloc, room, shape),
        ModuleVariable::Text(characters, length) => {
            Ok(text_row(alloc, *length as usize, characters.as_slice())?)
        }
    }
}

/// The variables of a module.
pub fn opening_row(
    alloc: Global,
    room: u32,
    variables: &[ModuleVariable],
) -> Result<Value, NoAnswer>
    ensures { IfOk result (λ v. value_in v ≡ shapes.opening_row variables.now) }
{
    match variables {
        [] => Ok(Value::Nothing),
        [variable, others @ ..] => {
            let first = opening_value(alloc, room, variable)?;
            let rest = opening_row(alloc, room, others)?;
            Ok(beside(alloc, first, rest)?)
        }
    }
}
