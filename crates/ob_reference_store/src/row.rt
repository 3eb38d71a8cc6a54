//! Rows of values: how many, one after the other, and the characters in them.

ghost use Rattle.std.specs.Prelude.{◌≡◌, ◌++◌, [], ◌∷◌, IfOk, OnOk, IfSome};
ghost use Rattle.ob_mean.specs.Values as spec;
ghost use Rattle.ob_mean.specs.Texts as texts;
ghost use Rattle.ob_reference_store.specs.Kept.{value_in, place_of};

use crate::stop::NoAnswer;
use crate::value::Value;
use std::alloc::{AllocError, Global};

/// How many values stand in a row.
pub fn count(row: &Value) -> Result<usize, NoAnswer>
    ensures { IfOk result (λ n. n ≡ spec.count (value_in row.now)) }
{
    match row {
        Value::Beside(_, rest) => {
            let behind = count(rest)?;
            match behind.checked_add(1) {
                Some(all) => Ok(all),
                None => Err(NoAnswer),
            }
        }
        _ => Ok(0),
    }
}

/// Puts a row after another.
pub(crate) fn append(row: &mut Value, more: Value)
    ensures { value_in row.new ≡ spec.append (value_in row.old) (value_in more) }
{
    match row {
        Value::Beside(_, rest) => append(rest, more),
        _ => *row = more,
    }
}

/// Keeps the first values of a row.
pub fn keep_first(row: &mut Value, count: usize)
    ensures { value_in row.new ≡ spec.first count (value_in row.old) }
{
    if count == 0 {
        *row = Value::Nothing;
        return;
    }
    match row {
        Value::Beside(_, rest) => keep_first(rest, count - 1),
        _ => *row = Value::Nothing,
    }
}

/// The number that a value holds.
pub(crate) fn number(value: &Value) -> i32
    ensures { result ≡ spec.number (value_in value.now) }
{
    match value {
        Value::Cell(number) => *number,
        _ => 0,
    }
}

/// The place that a value names.
pub(crate) fn named(alloc: Global, value: &Value) -> Result<Vec<usize>, AllocError>
    ensures { IfOk result (λ path. place_of path.items ≡ spec.named (value_in value.now)) }
{
    match value {
        Value::Named(path) => Vec::from_slice(alloc, path),
        Value::Typed(path, _) => Vec::from_slice(alloc, path),
        Value::Open(path, _) => Vec::from_slice(alloc, path),
        _ => Ok(Vec::new(alloc)),
    }
}

/// The same value once more.
pub fn copy(alloc: Global, value: &Value) -> Result<Value, AllocError>
    ensures { IfOk result (λ v. value_in v ≡ value_in value.now) }
{
    match value {
        Value::Cell(number) => Ok(Value::Cell(*number)),
        Value::Named(path) => Ok(Value::Named(Vec::from_slice(alloc, path)?)),
        Value::Typed(path, type_names) => {
            let path = Vec::from_slice(alloc, path)?;
            Ok(Value::Typed(path, type_names.another()?))
        }
        Value::Open(path, length) => Ok(Value::Open(Vec::from_slice(alloc, path)?, *length)),
        Value::Nothing => Ok(Value::Nothing),
        Value::Beside(first, rest) => {
            let first = copy(alloc, first)?;
            let rest = copy(alloc, rest)?;
            Ok(Value::Beside(Box::new(alloc, first)?, Box::new(alloc, rest)?))
        }
    }
}

/// The character that a cell holds: 0X for a number that is none.
pub(crate) fn character(number: i32) -> u8
    ensures { result ≡ texts.character number }
{
    if number >= 0 && number < 256 {
        number as u8
    } else {
        0
    }
}

/// Appends the characters of an array.
pub(crate) fn characters(row: &Value, out: &mut Vec<u8>) -> Result<(), NoAnswer>
    ensures { OnOk result (out.new.items ≡ out.old.items ++ texts.characters (value_in row.now)) }
{
    match row {
        Value::Beside(first, rest) => {
            let c = character(number(first));
            out.push(c)?;
            characters(rest, out)
        }
        _ => Ok(()),
    }
}

/// Appends the text that stands in an array.
pub(crate) fn text(row: &Value, out: &mut Vec<u8>) -> Result<(), NoAnswer>
    ensures { OnOk result (out.new.items ≡ out.old.items ++ texts.text_of (value_in row.now)) }
{
    match row {
        Value::Beside(first, rest) => {
            let c = character(number(first));
            if c == 0 {
                return Ok(());
            }
            out.push(c)?;
            text(rest, out)
        }
        _ => Ok(()),
    }
}
