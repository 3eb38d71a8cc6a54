//! Whether exported names are the same, where their types have numbers.

ghost use Rattle.std.specs.Prelude.{◌≡◌, ◌&&◌, IsTrue, true};
ghost use Rattle.ob_types.specs.Numbered as spec;

use crate::compatible::same;
use crate::exports::{Constant, Exported, Formal, FormalKind, Object, Signature};
use crate::form::ObType;
use crate::structure::Basic;

fn same_constant(left: &Constant, right: &Constant) -> bool
    ensures { IsTrue result → left.now ≡ right.now }
{
    match (left, right) {
        (Constant::Integer(one), Constant::Integer(other)) => *one == *other,
        (Constant::Boolean(one), Constant::Boolean(other)) => *one == *other,
        (Constant::Char(one), Constant::Char(other)) => *one == *other,
        (Constant::Text(one), Constant::Text(other)) => one.same(other),
        _ => false,
    }
}

fn same_kind(left: FormalKind, right: FormalKind) -> bool
    ensures { result ≡ spec.same_kind left right }
{
    match (left, right) {
        (FormalKind::Value, FormalKind::Value) => true,
        (FormalKind::Variable, FormalKind::Variable) => true,
        _ => false,
    }
}

fn passed_alike(left: &[Formal], right: &[Formal]) -> bool
    ensures { result ≡ spec.passed_alike left.now right.now }
{
    if left.len() != right.len() {
        return false;
    }
    for i in 0..left.len() {
        if !same_kind(left[i].kind, right[i].kind) {
            return false;
        }
    }
    true
}

fn same_result(left: Option<Basic>, right: Option<Basic>) -> bool
    ensures { IsTrue result → left ≡ right }
{
    match (left, right) {
        (None, None) => true,
        (Some(one), Some(other)) => one == other,
        _ => false,
    }
}

/// Whether two signatures are the same where their types are.
fn same_signature(left: &Signature, right: &Signature) -> bool
    ensures { IsTrue result → spec.types_of left.now.formals ≡ spec.types_of right.now.formals → left.now ≡ right.now }
{
    passed_alike(left.formals.as_slice(), right.formals.as_slice())
        && same_result(left.result, right.result)
}

/// Whether two objects are the same where their types are.
fn same_object(left: &Object, right: &Object) -> bool
    ensures { IsTrue result → spec.types_in left.now ≡ spec.types_in right.now → left.now ≡ right.now }
{
    match (left, right) {
        (Object::Constant(one), Object::Constant(other)) => same_constant(one, other),
        (Object::TypeName(_), Object::TypeName(_)) => true,
        (Object::Variable(_), Object::Variable(_)) => true,
        (Object::Procedure(one), Object::Procedure(other)) => same_signature(one, other),
        _ => false,
    }
}

fn are_below(most: usize, numbers: &[usize]) -> bool
    ensures { result ≡ spec.are_below most numbers.now }
{
    for &number in numbers {
        if number >= most {
            return false;
        }
    }
    true
}

/// Whether two exported names are seen to be the same, whose types have these numbers, where the types of numbers below
/// `common` are.
pub(crate) fn alike(
    left: &Exported,
    right: &Exported,
    numbers: &[usize],
    others: &[usize],
    common: usize,
) -> bool
    ensures same { IsTrue result → spec.types_in left.now.object ≡ spec.types_in right.now.object → left.now ≡ right.now }
    ensures numbers { IsTrue result → numbers.now ≡ others.now }
    ensures below { IsTrue result → spec.are_below common numbers.now ≡ true }
{
    left.name.same(&right.name)
        && numbers == others
        && are_below(common, numbers)
        && same_object(&left.object, &right.object)
}

/// How many types from the first are the same in both.
pub(crate) fn same_below(left: &[ObType], right: &[ObType]) -> usize
    ensures { spec.SameBelow result left.now right.now }
{
    for i in 0..left.len().min(right.len()) {
        if !same(&left[i], &right[i]) {
            return i;
        }
    }
    left.len().min(right.len())
}
