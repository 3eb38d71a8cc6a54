//! What constants are worth.

ghost use Rattle.std.specs.Prelude.{◌≡◌, IfOk, option_map, pos};
ghost use Rattle.ob_mean.specs.Arithmetic.{texts_relate, truth};
ghost use Rattle.ob_mean.specs.Texts.{before_zero as text_of, natural};
ghost use Rattle.ob_mean.specs.declared.operator.UnaryOperator.TheVariants as one;
ghost use Rattle.ob_check_const.specs.Folding as spec;

use ob_base::Text;
use ob_check_scope::predeclared::Function;
use ob_check_scope::texts::before_zero;
use ob_mean::{Operator, Relation, UnaryOperator, apply, apply_one, holds, texts_relate, truth};
use ob_tree::tree::{AddOperator, MulOperator, Relation as Written, Sign};
use ob_types::Constant;
use std::alloc::{AllocError, Global};

/// What a constant expression is worth: a value of its type, or none where its evaluation would trap.
#[derive(Debug, Drop)]
pub enum Folded {
    Integer(Option<i32>),
    Boolean(Option<bool>),
    Char(Option<u8>),
    /// A string.
    Text(Text),
}

fn is_number(value: &Folded) -> bool
    ensures { result ≡ spec.is_number value.now }
{
    match value {
        Folded::Integer(_) => true,
        _ => false,
    }
}

fn is_truth(value: &Folded) -> bool
    ensures { result ≡ spec.is_truth value.now }
{
    match value {
        Folded::Boolean(_) => true,
        _ => false,
    }
}

/// Whether a value may stand before `+`, `-` or OR.
pub fn adds(operator: AddOperator, left: &Folded) -> bool
    ensures { result ≡ spec.adds operator left.now }
{
    match operator {
        AddOperator::Or => is_truth(left),
        _ => is_number(left),
    }
}

/// Whether a value may stand before `*`, DIV, MOD or `&`.
pub fn multiplies(operator: MulOperator, left: &Folded) -> bool
    ensures { result ≡ spec.multiplies operator left.now }
{
    match operator {
        MulOperator::And => is_truth(left),
        _ => is_number(left),
    }
}

fn is_equality(relation: Relation) -> bool
    ensures { result ≡ spec.is_equality relation }
{
    match relation {
        Relation::Equal | Relation::NotEqual => true,
        _ => false,
    }
}

/// Whether a value may stand before a relation.
pub fn relates(relation: Written, left: &Folded) -> bool
    ensures { result ≡ spec.relates (spec.relation_of relation) left.now }
{
    match left {
        Folded::Boolean(_) => is_equality(relation_of(relation)),
        _ => true,
    }
}

fn applied(operator: Operator, left: Option<i32>, right: Option<i32>) -> Option<i32>
    ensures { result ≡ spec.applied operator left right }
{
    match (left, right) {
        (Some(left), Some(right)) => match apply(operator, left, right) {
            Ok(number) => Some(number),
            Err(_) => None,
        },
        _ => None,
    }
}

fn applied_one(operator: UnaryOperator, value: Option<i32>) -> Option<i32>
    ensures { result ≡ spec.applied_one operator value }
{
    match value {
        Some(value) => match apply_one(operator, value) {
            Ok(number) => Some(number),
            Err(_) => None,
        },
        None => None,
    }
}

fn every(left: Option<bool>, right: Option<bool>) -> Option<bool>
    ensures { result ≡ spec.every left right }
{
    match left {
        Some(true) => right,
        Some(false) => Some(false),
        None => None,
    }
}

fn either(left: Option<bool>, right: Option<bool>) -> Option<bool>
    ensures { result ≡ spec.either left right }
{
    match left {
        Some(true) => Some(true),
        Some(false) => right,
        None => None,
    }
}

/// The worth of a sum. None where the types don't fit.
pub fn sum_of(operator: AddOperator, left: &Folded, right: &Folded) -> Option<Folded>
    ensures { result ≡ spec.sum_of operator left.now right.now }
{
    match (operator, left, right) {
        (AddOperator::Plus, Folded::Integer(left), Folded::Integer(right)) => {
            Some(Folded::Integer(applied(Operator::Plus, *left, *right)))
        }
        (AddOperator::Minus, Folded::Integer(left), Folded::Integer(right)) => {
            Some(Folded::Integer(applied(Operator::Minus, *left, *right)))
        }
        (AddOperator::Or, Folded::Boolean(left), Folded::Boolean(right)) => {
            Some(Folded::Boolean(either(*left, *right)))
        }
        _ => None,
    }
}

/// The worth of a product. None where the types don't fit.
pub fn product_of(operator: MulOperator, left: &Folded, right: &Folded) -> Option<Folded>
    ensures { result ≡ spec.product_of operator left.now right.now }
{
    match (operator, left, right) {
        (MulOperator::Times, Folded::Integer(left), Folded::Integer(right)) => {
            Some(Folded::Integer(applied(Operator::Times, *left, *right)))
        }
        (MulOperator::Div, Folded::Integer(left), Folded::Integer(right)) => {
            Some(Folded::Integer(applied(Operator::Quotient, *left, *right)))
        }
        (MulOperator::Mod, Folded::Integer(left), Folded::Integer(right)) => {
            Some(Folded::Integer(applied(Operator::Remainder, *left, *right)))
        }
        (MulOperator::And, Folded::Boolean(left), Folded::Boolean(right)) => {
            Some(Folded::Boolean(every(*left, *right)))
        }
        _ => None,
    }
}

/// The worth of a signed value. None where it is no number.
pub fn sign_of(sign: Sign, value: &Folded) -> Option<Folded>
    ensures { result ≡ spec.sign_of sign value.now }
{
    match (sign, value) {
        (Sign::Plus, Folded::Integer(value)) => Some(Folded::Integer(*value)),
        (Sign::Minus, Folded::Integer(value)) => {
            Some(Folded::Integer(applied_one(UnaryOperator::Negative, *value)))
        }
        _ => None,
    }
}

/// The worth of what is negated by `~`. None where it is no truth value.
pub fn not_of(value: &Folded) -> Option<Folded>
    ensures { result ≡ spec.not_of value.now }
{
    match value {
        Folded::Boolean(Some(value)) => Some(Folded::Boolean(Some(!*value))),
        Folded::Boolean(None) => Some(Folded::Boolean(None)),
        _ => None,
    }
}

fn relation_of(relation: Written) -> Relation
    ensures { result ≡ spec.relation_of relation }
{
    match relation {
        Written::Equal => Relation::Equal,
        Written::NotEqual => Relation::NotEqual,
        Written::Less => Relation::Less,
        Written::LessEqual => Relation::LessEqual,
        Written::Greater => Relation::Greater,
        Written::GreaterEqual => Relation::GreaterEqual,
    }
}

fn numbers_related(relation: Relation, left: Option<i32>, right: Option<i32>) -> Option<bool>
    ensures { result ≡ spec.numbers_related relation left right }
{
    match (left, right) {
        (Some(left), Some(right)) => Some(holds(relation, left == right, left < right)),
        _ => None,
    }
}

fn number_of_truth(value: Option<bool>) -> Option<i32>
    ensures { result ≡ option_map truth value }
{
    match value {
        Some(value) => Some(truth(value)),
        None => None,
    }
}

fn number_of_character(value: Option<u8>) -> Option<i32>
    ensures { result ≡ option_map pos value }
{
    match value {
        Some(value) => Some(i32::from(value)),
        None => None,
    }
}

fn truths_related(relation: Relation, left: Option<bool>, right: Option<bool>) -> Option<Folded>
    ensures { result ≡ spec.truths_related relation left right }
{
    match relation {
        Relation::Equal | Relation::NotEqual => Some(Folded::Boolean(numbers_related(
            relation,
            number_of_truth(left),
            number_of_truth(right),
        ))),
        _ => None,
    }
}

fn character_related(relation: Relation, left: Option<u8>, right: &Text) -> Option<Folded>
    ensures { result ≡ spec.character_related relation left right.now }
{
    match right.as_slice() {
        [character] => Some(Folded::Boolean(numbers_related(
            relation,
            number_of_character(left),
            Some(i32::from(*character)),
        ))),
        _ => None,
    }
}

fn related_character(relation: Relation, left: &Text, right: Option<u8>) -> Option<Folded>
    ensures { result ≡ spec.related_character relation left.now right }
{
    match left.as_slice() {
        [character] => Some(Folded::Boolean(numbers_related(
            relation,
            Some(i32::from(*character)),
            number_of_character(right),
        ))),
        _ => None,
    }
}

/// Whether a relation holds of two strings. Those that are the same are compared in one go.
fn texts_related(relation: Relation, left: &[u8], right: &[u8]) -> bool
    ensures { result ≡ texts_relate relation (text_of left.now) (text_of right.now) }
{
    if left == right {
        holds(relation, true, false)
    } else {
        texts_relate(relation, before_zero(left), before_zero(right))
    }
}

/// The worth of a relation. None where the types don't fit.
pub fn related_of(relation: Written, left: &Folded, right: &Folded) -> Option<Folded>
    ensures { result ≡ spec.related_of (spec.relation_of relation) left.now right.now }
{
    let relation = relation_of(relation);
    match (left, right) {
        (Folded::Integer(left), Folded::Integer(right)) => {
            Some(Folded::Boolean(numbers_related(relation, *left, *right)))
        }
        (Folded::Boolean(left), Folded::Boolean(right)) => {
            truths_related(relation, *left, *right)
        }
        (Folded::Char(left), Folded::Char(right)) => Some(Folded::Boolean(numbers_related(
            relation,
            number_of_character(*left),
            number_of_character(*right),
        ))),
        (Folded::Char(left), Folded::Text(right)) => character_related(relation, *left, right),
        (Folded::Text(left), Folded::Char(right)) => related_character(relation, left, *right),
        (Folded::Text(left), Folded::Text(right)) => Some(Folded::Boolean(Some(texts_related(
            relation,
            left.as_slice(),
            right.as_slice(),
        )))),
        _ => None,
    }
}

fn character_of(text: &Text) -> Option<Folded>
    ensures { result ≡ spec.character_of text.now }
{
    match text.as_slice() {
        [character] => Some(Folded::Integer(Some(i32::from(*character)))),
        _ => None,
    }
}

fn ordinal_of(value: &Folded) -> Option<Folded>
    ensures { result ≡ spec.ordinal_of value.now }
{
    match value {
        Folded::Char(value) => Some(Folded::Integer(number_of_character(*value))),
        Folded::Boolean(value) => Some(Folded::Integer(number_of_truth(*value))),
        Folded::Text(text) => character_of(text),
        Folded::Integer(_) => None,
    }
}

fn is_odd(value: Option<i32>) -> Option<bool>
    ensures { result ≡ option_map spec.is_not_zero (spec.applied_one one.Odd value) }
{
    match applied_one(UnaryOperator::Odd, value) {
        Some(rest) => Some(rest != 0),
        None => None,
    }
}

fn character_numbered(value: Option<i32>) -> Option<u8>
    ensures { result ≡ option_map natural (spec.applied_one one.Character value) }
{
    match value {
        Some(value) => {
            if 0 <= value && value < 256 {
                Some(value as u8)
            } else {
                None
            }
        }
        None => None,
    }
}

/// Whether a function takes this value first.
pub fn takes(function: Function, value: &Folded) -> bool
    ensures { result ≡ spec.takes function value.now }
{
    match function {
        Function::Ord => ordinal_of(value).is_some(),
        Function::Len => false,
        _ => is_number(value),
    }
}

/// Whether a function takes a second value.
pub fn is_shift(function: Function) -> bool
    ensures { result ≡ spec.is_shift function }
{
    match function {
        Function::Lsl | Function::Asr | Function::Ror => true,
        _ => false,
    }
}

/// The worth of a function of one value. None where it has other parameters.
pub fn one_of(function: Function, value: &Folded) -> Option<Folded>
    ensures { result ≡ spec.one_of function value.now }
{
    match (function, value) {
        (Function::Abs, Folded::Integer(value)) => Some(Folded::Integer(applied_one(
            UnaryOperator::Absolute,
            *value,
        ))),
        (Function::Odd, Folded::Integer(value)) => Some(Folded::Boolean(is_odd(*value))),
        (Function::Chr, Folded::Integer(value)) => {
            Some(Folded::Char(character_numbered(*value)))
        }
        (Function::Ord, _) => ordinal_of(value),
        _ => None,
    }
}

/// The worth of a function of two values. None where it has other parameters.
pub fn two_of(function: Function, left: &Folded, right: &Folded) -> Option<Folded>
    ensures { result ≡ spec.two_of function left.now right.now }
{
    match (function, left, right) {
        (Function::Lsl, Folded::Integer(left), Folded::Integer(right)) => {
            Some(Folded::Integer(applied(Operator::ShiftLeft, *left, *right)))
        }
        (Function::Asr, Folded::Integer(left), Folded::Integer(right)) => {
            Some(Folded::Integer(applied(Operator::ShiftRight, *left, *right)))
        }
        (Function::Ror, Folded::Integer(left), Folded::Integer(right)) => {
            Some(Folded::Integer(applied(Operator::Rotate, *left, *right)))
        }
        _ => None,
    }
}

/// What a declared constant is worth.
pub fn folded_of(alloc: Global, constant: &Constant) -> Result<Folded, AllocError>
    ensures { IfOk result (λ f. f ≡ spec.folded_of constant.now) }
{
    match constant {
        Constant::Integer(number) => Ok(Folded::Integer(Some(*number))),
        Constant::Boolean(truth) => Ok(Folded::Boolean(Some(*truth))),
        Constant::Char(character) => Ok(Folded::Char(Some(*character))),
        Constant::Text(text) => Ok(Folded::Text(text.copy(alloc)?)),
    }
}

/// The constant of this worth. None where its evaluation would trap.
pub fn constant_of(value: Folded) -> Option<Constant>
    ensures { result ≡ spec.constant_of value }
{
    match value {
        Folded::Integer(Some(number)) => Some(Constant::Integer(number)),
        Folded::Boolean(Some(truth)) => Some(Constant::Boolean(truth)),
        Folded::Char(Some(character)) => Some(Constant::Char(character)),
        Folded::Text(text) => Some(Constant::Text(text)),
        _ => None,
    }
}
