//! Whether two types are the same, and what may be assigned.

ghost use Rattle.std.specs.Prelude.{◌≡◌, length, option_map};
ghost use Rattle.std.specs.Cmp.Lexicographic.{pointwise};
ghost use Rattle.ob_types.specs.declared.structure.ObType.TheVariants.{Record as OfRecord};
ghost use Rattle.ob_types.specs.Spelling.{AreAlike, AmongAlike, AreWithin, EndAlike};
ghost use Rattle.ob_types.specs.Types as spec;

use crate::form::{Field, Form, ObType, RecordType};
use crate::structure::Basic;

/// Whether two types are the same: basic types by name, arrays by length and element, open arrays by element, records by
/// name and written-out structure.
#[cycle(same)]
#[tactic(auto, using(crate::proofs::Measures::array_size, crate::proofs::Measures::open_size, crate::proofs::Measures::fields_size))]
pub fn same(left: &ObType, right: &ObType) -> bool
    ensures { result ≡ spec.same left.now right.now }
{
    match (left.form(), right.form()) {
        (Form::Basic(x), Form::Basic(y)) => x == y,
        (Form::Array(n, x), Form::Array(m, y)) => *n == *m && same(x.get(), y.get()),
        (Form::Open(x), Form::Open(y)) => same(x.get(), y.get()),
        (Form::Record(x), Form::Record(y)) => same_record(x.get(), y.get()),
        _ => false,
    }
}

/// The same of records: they are spelled alike, and the records in them are the same.
#[cycle(same)]
#[tactic(auto, using(crate::proofs::Measures::fields_fall))]
pub(crate) fn same_record(left: &RecordType, right: &RecordType) -> bool
    ensures { result ≡ spec.same (OfRecord left.now) (OfRecord right.now) }
{
    if left.spelling() == right.spelling() {
        let (ends, others) = (left.ends(), right.ends());
        if ends.backs.as_slice() == others.backs.as_slice() {
            same_kept(left.fields(), right.fields(), ends.kept.as_slice())
        } else {
            same_each(left.fields(), right.fields())
        }
    } else {
        false
    }
}

/// Whether fields that are spelled alike are the same, where those are whose numbers are kept: where they end with the same
/// records, all do.
#[cycle(same)]
fn same_kept(left: &[Field], right: &[Field], kept: &[usize]) -> bool
    requires alike { AreAlike left.now right.now }
    requires within { AreWithin kept.now left.now }
    requires enough { AmongAlike kept.now left.now right.now → EndAlike left.now right.now (length left.now) }
    ensures { result ≡ pointwise spec.same_field left.now right.now }
{
    for &number in kept {
        if !same(left[number].of(), right[number].of()) {
            return false;
        }
    }
    true
}

/// Whether fields that are spelled alike are the same.
#[cycle(same)]
fn same_each(left: &[Field], right: &[Field]) -> bool
    requires alike { AreAlike left.now right.now }
    ensures { result ≡ pointwise spec.same_field left.now right.now }
{
    for i in 0..left.len() {
        if !same(left[i].of(), right[i].of()) {
            return false;
        }
    }
    true
}

fn base_among(fields: &[Field]) -> Option<&ObType>
    ensures { option_map (λ t. t.now) result ≡ spec.base_among fields.now }
{
    match fields {
        [first, ..] => {
            if first.name().as_slice().is_empty() {
                Some(first.of())
            } else {
                None
            }
        }
        [] => None,
    }
}

/// The type that a type extends directly, where it is an extension: its first field, which has no name.
#[tactic(auto, using(crate::proofs::Equations::base_record, crate::proofs::Equations::base_array, crate::proofs::Equations::base_open))]
pub fn base_of(of: &ObType) -> Option<&ObType>
    ensures { option_map (λ t. t.now) result ≡ spec.base_of of.now }
{
    match of.form() {
        Form::Record(record) => base_among(record.get().fields()),
        Form::Basic(_) | Form::Array(_, _) | Form::Open(_) => None,
    }
}

/// Whether the type `from` is the type `to` or extends it: it does where its base does.
#[tactic(auto, using(crate::proofs::Equations::extends_step, crate::proofs::Equations::base_lower))]
pub fn extends(to: &ObType, from: &ObType) -> bool
    ensures { result ≡ spec.extends to.now from.now }
{
    if same(to, from) {
        return true;
    }
    match base_of(from) {
        Some(base) => extends(to, base),
        None => false,
    }
}

fn is_number(of: &ObType) -> bool
    ensures { result ≡ spec.is_number of.now }
{
    match of.form() {
        Form::Basic(Basic::Integer | Basic::Byte) => true,
        _ => false,
    }
}

/// Whether a value of the type `from` may be assigned to a variable of the type `to`: the types are the same, or INTEGER and
/// BYTE mixed. For a string see `string_assignable`.
pub fn assignable(to: &ObType, from: &ObType) -> bool
    ensures { result ≡ spec.assignable to.now from.now }
{
    same(to, from) || (is_number(to) && is_number(from))
}

fn is_char(of: &ObType) -> bool
    ensures { result ≡ spec.is_char of.now }
{
    match of.form() {
        Form::Basic(Basic::Char) => true,
        _ => false,
    }
}

/// Whether a string of `length` characters may be assigned to a variable of the type `to`: one character to a CHAR, fewer than
/// its elements to an array of CHAR, and any to an open array of CHAR, whose length is known when the assignment runs.
pub fn string_assignable(to: &ObType, length: usize) -> bool
    ensures { result ≡ spec.string_assignable to.now length }
{
    match to.form() {
        Form::Basic(Basic::Char) => length == 1,
        Form::Array(size, element) => is_char(element.get()) && length < *size as usize,
        Form::Open(element) => is_char(element.get()),
        _ => false,
    }
}
