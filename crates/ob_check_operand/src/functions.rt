//! The functions that are declared before any module.

ghost use Rattle.std.specs.Prelude.{◌≡◌, is_some};
ghost use Rattle.ob_check_scope.specs.declared.rule.RuleCode.TheVariants as code;
ghost use Rattle.ob_check_scope.specs.Rule.{Judges, Given, Then, there};
ghost use Rattle.ob_check_operand.specs.Operands.{only_character};
ghost use Rattle.ob_check_operand.specs.Functions as spec;

use crate::operand::{Operand, fitting, is_number, number_of, only_character};
use ob_base::{Boxed, Items};
use ob_check_scope::predeclared::Function;
use ob_check_scope::rejected::{Rejected, broken};
use ob_check_scope::rule::RuleCode;
use ob_mean::{Operation, Operator, TypedExpr, UnaryOperator};
use ob_scan::Span;
use ob_types::{Basic, Form, ObType};
use std::alloc::Global;
use std::mem::drop;

fn ordinal_of(operand: Operand) -> Option<TypedExpr>
    ensures { result ≡ spec.ordinal_of operand }
{
    match operand {
        Operand::Value(Basic::Char | Basic::Boolean, value) => Some(value),
        Operand::Text(text) => only_character(&text),
        _ => None,
    }
}

fn is_array(of: &ObType) -> bool
    ensures { result ≡ spec.is_array of.now }
{
    match of.form() {
        Form::Array(_, _) | Form::Open(_) => true,
        Form::Basic(_) | Form::Record(_) => false,
    }
}

fn length_of(alone: bool, operand: Operand) -> Option<Operand>
    ensures { result ≡ spec.length_of alone operand }
{
    match (alone, operand) {
        (true, Operand::Place(of, place)) => {
            if is_array(&of) {
                Some(Operand::Value(Basic::Integer, TypedExpr::Length(place)))
            } else {
                None
            }
        }
        _ => None,
    }
}

fn is_ordinal(operand: &Operand) -> bool
    ensures { result ≡ is_some (spec.ordinal_of operand.now) }
{
    match operand {
        Operand::Value(Basic::Char | Basic::Boolean, _) => true,
        Operand::Text(text) => is_one(text.as_slice()),
        _ => false,
    }
}

fn is_one(text: &[u8]) -> bool
    ensures { result ≡ is_some (only_character text.now) }
{
    match text {
        [_] => true,
        _ => false,
    }
}

fn has_length(alone: bool, operand: &Operand) -> bool
    ensures { result ≡ is_some (spec.length_of alone operand.now) }
{
    match (alone, operand) {
        (true, Operand::Place(of, _)) => is_array(of),
        _ => false,
    }
}

/// Whether a function takes this value first, and whether that is written as a variable alone.
pub fn takes(function: Function, alone: bool, operand: &Operand) -> bool
    ensures { result ≡ spec.takes function alone operand.now }
{
    match function {
        Function::Ord => is_ordinal(operand),
        Function::Len => has_length(alone, operand),
        Function::Abs
        | Function::Odd
        | Function::Chr
        | Function::Lsl
        | Function::Asr
        | Function::Ror => is_number(operand),
    }
}

fn unary(
    alloc: Global,
    basic: Basic,
    operator: UnaryOperator,
    span: Span,
    value: Option<TypedExpr>,
) -> Result<Operand, Rejected>
    ensures { Judges (there (spec.unary basic operator span.line value) code.Parameters) result }
{
    match value {
        Some(value) => Ok(Operand::Value(
            basic,
            TypedExpr::Unary(operator, span.line as usize, Boxed::new(alloc, value)?),
        )),
        None => Err(Rejected::Rule(broken(RuleCode::Parameters, span))),
    }
}

/// A function of one value, and whether that is written as a variable alone. The function's name stands at `span`, where too
/// few values are a fault.
pub fn one_of(
    alloc: Global,
    function: Function,
    span: Span,
    alone: bool,
    operand: Operand,
) -> Result<Operand, Rejected>
    ensures { Judges (there (spec.one_of function span.line alone operand) code.Parameters) result }
{
    match function {
        Function::Abs => {
            let number = number_of(operand);
            unary(alloc, Basic::Integer, UnaryOperator::Absolute, span, number)
        }
        Function::Odd => {
            let number = number_of(operand);
            unary(alloc, Basic::Boolean, UnaryOperator::Odd, span, number)
        }
        Function::Ord => {
            let ordinal = ordinal_of(operand);
            unary(alloc, Basic::Integer, UnaryOperator::Ordinal, span, ordinal)
        }
        Function::Chr => {
            let number = number_of(operand);
            unary(alloc, Basic::Char, UnaryOperator::Character, span, number)
        }
        Function::Len => fitting(length_of(alone, operand), RuleCode::Parameters, span),
        Function::Lsl | Function::Asr | Function::Ror => {
            Err(Rejected::Rule(broken(RuleCode::Parameters, span)))
        }
    }
}

/// What a shift computes.
pub fn shift_of(function: Function) -> Option<Operator>
    ensures { result ≡ spec.shift_of function }
{
    match function {
        Function::Lsl => Some(Operator::ShiftLeft),
        Function::Asr => Some(Operator::ShiftRight),
        Function::Ror => Some(Operator::Rotate),
        Function::Abs | Function::Odd | Function::Ord | Function::Chr | Function::Len => None,
    }
}

/// A shift of a number by another. A trap names the line.
fn shifted(
    alloc: Global,
    operator: Operator,
    line: usize,
    left: TypedExpr,
    right: TypedExpr,
) -> Result<Operand, Rejected>
    ensures { Judges (Given (spec.shifted operator line left right)) result }
{
    let mut steps = Items::new(alloc);
    steps.push(Operation {
        operator,
        line,
        operand: right,
    })?;
    Ok(Operand::Value(
        Basic::Integer,
        TypedExpr::Chain(Boxed::new(alloc, left)?, steps),
    ))
}

/// A shift of two values that have to be numbers. The first fault stands at `span`, the second at `second`.
fn numbers_shifted(
    alloc: Global,
    operator: Operator,
    span: Span,
    left: Option<TypedExpr>,
    right: Option<TypedExpr>,
    second: Span,
) -> Result<Operand, Rejected>
    ensures { Judges (Then (there left code.Parameters) (λ x. Then (there right code.Parameters) (λ y. Given (spec.shifted operator span.line x y)))) result }
{
    match left {
        None => {
            drop(right);
            Err(Rejected::Rule(broken(RuleCode::Parameters, span)))
        }
        Some(left) => match right {
            None => {
                drop(left);
                Err(Rejected::Rule(broken(RuleCode::Parameters, second)))
            }
            Some(right) => shifted(alloc, operator, span.line as usize, left, right),
        },
    }
}

/// A function of two values. Its name stands at `span`, and the second value at `second`.
#[tactic(auto, unfolding(crate::specs::Functions::two_of))]
pub fn two_of(
    alloc: Global,
    function: Function,
    span: Span,
    left: Operand,
    right: Operand,
    second: Span,
) -> Result<Operand, Rejected>
    ensures { Judges (spec.two_of function span.line left right) result }
{
    let left = number_of(left);
    let right = number_of(right);
    match shift_of(function) {
        Some(operator) => numbers_shifted(alloc, operator, span, left, right, second),
        None => {
            drop(left);
            drop(right);
            Err(Rejected::Rule(broken(RuleCode::Parameters, span)))
        }
    }
}
