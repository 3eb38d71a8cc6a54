//! What is passed to parameters.

ghost use Rattle.std.specs.Prelude.{◌≡◌, ◌+◌, length, IfOk};
ghost use Rattle.ob_check_scope.specs.declared.rule.RuleCode.TheVariants as code;
ghost use Rattle.ob_check_scope.specs.Rule.{Judges, Given, Then, there};
ghost use Rattle.ob_types.specs.declared.exports.FormalKind.TheVariants as kind;
ghost use Rattle.ob_mean.specs.declared.expression.Argument.TheVariants as argument;
ghost use Rattle.ob_check_operand.specs.Operands.{text_variable};
ghost use Rattle.ob_check_operand.specs.Passing as spec;

use crate::operand::{Operand, fitting, hidden, hidden_with_end, is_char, value_for};
use crate::selecting::{Selected, part_as};
use ob_base::Text;
use ob_check_kinds::levels_to;
use ob_check_scope::rejected::{Rejected, broken};
use ob_check_scope::rule::RuleCode;
use ob_check_strings::Variables;
use ob_mean::Argument;
use ob_scan::Span;
use ob_types::{Form, FormalKind, ObType, same};
use std::alloc::{AllocError, Global};

fn has_elements(element: &ObType, of: &ObType) -> bool
    ensures { result ≡ spec.has_elements element.now of.now }
{
    match of.form() {
        Form::Array(_, other) | Form::Open(other) => same(element, other.get()),
        Form::Basic(_) | Form::Record(_) => false,
    }
}

/// What a VAR parameter of record type names, if it has that type or extends it: its type is told with it, or what was told of it
/// is told again.
fn record_named(formal: &ObType, at: Selected) -> Result<(Option<Argument>, Variables), AllocError>
    ensures { IfOk result (λ p. (p.0 ≡ spec.record_passed kind.Variable formal.now at.0 at.1 at.3) × (p.1 ≡ at.2)) }
{
    let (of, place, variables, told) = at;
    let mut variables = variables;
    match levels_to(formal, &of)? {
        None => Ok((None, variables)),
        Some(levels) => {
            if told {
                return Ok((Some(Argument::Again(place, levels)), variables));
            }
            let kind = variables.kind_of(&of)?;
            Ok((Some(Argument::Typed(place, kind, levels)), variables))
        }
    }
}

/// The part of a record that is of the parameter's type, as a value.
fn record_part(
    alloc: Global,
    formal: &ObType,
    at: Selected,
) -> Result<(Option<Argument>, Variables), AllocError>
    ensures { IfOk result (λ p. (p.0 ≡ spec.record_passed kind.Value formal.now at.0 at.1 at.3) × (p.1 ≡ at.2)) }
{
    let (of, place, variables, _) = at;
    match part_as(alloc, formal, &of, place)? {
        Some(part) => Ok((Some(Argument::Place(part)), variables)),
        None => Ok((None, variables)),
    }
}

/// A variable for a parameter that names one.
#[tactic(auto, unfolding(crate::specs::Passing::variable_passed))]
fn variable_passed(
    alloc: Global,
    kind: FormalKind,
    formal: &ObType,
    at: Selected,
) -> Result<(Option<Argument>, Variables), AllocError>
    ensures { IfOk result (λ p. (p.0 ≡ spec.variable_passed kind formal.now at.0 at.1 at.3) × (p.1 ≡ at.2)) }
{
    match formal.form() {
        Form::Open(element) => {
            let (of, place, variables, _) = at;
            if has_elements(element.get(), &of) {
                Ok((Some(Argument::Open(place)), variables))
            } else {
                Ok((None, variables))
            }
        }
        Form::Record(_) => match kind {
            FormalKind::Variable => record_named(formal, at),
            FormalKind::Value => record_part(alloc, formal, at),
        },
        Form::Basic(_) | Form::Array(_, _) => {
            let (of, place, variables, _) = at;
            if same(formal, &of) {
                Ok((Some(Argument::Place(place)), variables))
            } else {
                Ok((None, variables))
            }
        }
    }
}

/// A variable as what is passed. The fault stands at `span`: 14 where it doesn't fit.
#[tactic(auto, unfolding(crate::specs::Passing::variable_argument))]
pub fn variable_argument(
    alloc: Global,
    kind: FormalKind,
    formal: &ObType,
    at: Selected,
    span: Span,
) -> Result<(Argument, Variables), Rejected>
    ensures { Judges (spec.variable_argument kind formal.now at) result }
{
    let (passed, variables) = variable_passed(alloc, kind, formal, at)?;
    let argument = fitting(passed, RuleCode::Parameters, span)?;
    Ok((argument, variables))
}

fn hidden_place(
    variables: Variables,
    text: Text,
    elements: u32,
    span: Span,
) -> Result<(Argument, Variables), Rejected>
    ensures { Judges (Then (text_variable variables text elements) (λ p. Given (argument.Place p.0, p.1))) result }
{
    let (place, variables) = hidden(text, elements, span, variables)?;
    Ok((Argument::Place(place), variables))
}

fn hidden_open(
    variables: Variables,
    text: Text,
    span: Span,
) -> Result<(Argument, Variables), Rejected>
    ensures { Judges (Then (text_variable variables text (length text + 1)) (λ p. Given (argument.Open p.0, p.1))) result }
{
    let (place, variables) = hidden_with_end(text, span, variables)?;
    Ok((Argument::Open(place), variables))
}

#[tactic(auto, unfolding(crate::specs::Passing::fixed_text))]
fn fixed_text(
    variables: Variables,
    text: Text,
    elements: u32,
    span: Span,
) -> Result<(Argument, Variables), Rejected>
    ensures { Judges (spec.fixed_text variables text elements) result }
{
    if text.as_slice().len() < elements as usize {
        hidden_place(variables, text, elements, span)
    } else {
        Err(Rejected::Rule(broken(RuleCode::Types, span)))
    }
}

/// A string for an array of CHAR.
#[tactic(auto, unfolding(crate::specs::Passing::text_passed))]
fn text_passed(
    variables: Variables,
    formal: &ObType,
    text: Text,
    span: Span,
) -> Result<(Argument, Variables), Rejected>
    ensures { Judges (spec.text_passed variables formal.now text) result }
{
    match formal.form() {
        Form::Array(length, element) => {
            if is_char(element.get()) {
                fixed_text(variables, text, *length, span)
            } else {
                Err(Rejected::Rule(broken(RuleCode::Parameters, span)))
            }
        }
        Form::Open(element) => {
            if is_char(element.get()) {
                hidden_open(variables, text, span)
            } else {
                Err(Rejected::Rule(broken(RuleCode::Parameters, span)))
            }
        }
        Form::Basic(_) | Form::Record(_) => Err(Rejected::Rule(broken(RuleCode::Parameters, span))),
    }
}

/// A structured value: a variable alone, or a string.
#[tactic(auto, unfolding(crate::specs::Passing::structure_passed))]
fn structure_passed(
    alloc: Global,
    variables: Variables,
    formal: &ObType,
    alone: bool,
    operand: Operand,
    span: Span,
) -> Result<(Argument, Variables), Rejected>
    ensures { Judges (spec.structure_passed variables formal.now alone operand) result }
{
    match operand {
        Operand::Value(_, _) => Err(Rejected::Rule(broken(RuleCode::Parameters, span))),
        Operand::Text(text) => text_passed(variables, formal, text, span),
        Operand::Place(of, place) => {
            if alone {
                let at = (of, place, variables, false);
                variable_argument(alloc, FormalKind::Value, formal, at, span)
            } else {
                Err(Rejected::Rule(broken(RuleCode::Parameters, span)))
            }
        }
    }
}

/// A value, and whether it is written as a variable alone. It begins at `span`.
#[tactic(auto, unfolding(crate::specs::Passing::value_passed))]
pub fn value_passed(
    alloc: Global,
    variables: Variables,
    formal: &ObType,
    alone: bool,
    operand: Operand,
    span: Span,
) -> Result<(Argument, Variables), Rejected>
    ensures { Judges (spec.value_passed variables formal.now span.line alone operand) result }
{
    match formal.form() {
        Form::Basic(basic) => {
            let value = value_for(alloc, *basic, operand, span)?;
            Ok((Argument::Value(value), variables))
        }
        Form::Array(_, _) | Form::Open(_) | Form::Record(_) => {
            structure_passed(alloc, variables, formal, alone, operand, span)
        }
    }
}
