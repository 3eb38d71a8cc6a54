//! Operands.

ghost use Rattle.std.specs.Prelude.{◌≡◌, ◌+◌, length, is_some};
ghost use Rattle.ob_check_scope.specs.declared.rule.RuleCode.TheVariants as code;
ghost use Rattle.ob_types.specs.Types.{is_char};
ghost use Rattle.ob_check_scope.specs.Rule.{Judges, Given, there};
ghost use Rattle.ob_check_operand.specs.Operands as spec;

use ob_base::{Boxed, Text};
use ob_check_scope::rejected::{Rejected, broken};
use ob_check_scope::rule::RuleCode;
use ob_check_strings::Variables;
use ob_mean::{Designator, TypedExpr, UnaryOperator, Variable};
use ob_scan::Span;
use ob_types::{Basic, Constant, Form, ObType};
use std::alloc::Global;

/// What an expression is.
#[derive(Drop)]
pub enum Operand {
    /// A value of basic type.
    Value(Basic, TypedExpr),
    /// A string.
    Text(Text),
    /// An array or a record, and where it stands.
    Place(ObType, Designator),
}

/// A number, of type INTEGER or BYTE.
pub fn number_of(operand: Operand) -> Option<TypedExpr>
    ensures { result ≡ spec.number_of operand }
{
    match operand {
        Operand::Value(Basic::Integer | Basic::Byte, value) => Some(value),
        Operand::Value(Basic::Boolean | Basic::Char, _) => None,
        Operand::Text(_) | Operand::Place(_, _) => None,
    }
}

/// A truth value.
pub fn truth_of(operand: Operand) -> Option<TypedExpr>
    ensures { result ≡ spec.truth_of operand }
{
    match operand {
        Operand::Value(Basic::Boolean, value) => Some(value),
        Operand::Value(Basic::Integer | Basic::Byte | Basic::Char, _) => None,
        Operand::Text(_) | Operand::Place(_, _) => None,
    }
}

/// Whether an operand is a number.
pub fn is_number(operand: &Operand) -> bool
    ensures { result ≡ is_some (spec.number_of operand.now) }
{
    match operand {
        Operand::Value(Basic::Integer | Basic::Byte, _) => true,
        _ => false,
    }
}

/// Whether an operand is a truth value.
pub fn is_truth(operand: &Operand) -> bool
    ensures { result ≡ is_some (spec.truth_of operand.now) }
{
    match operand {
        Operand::Value(Basic::Boolean, _) => true,
        _ => false,
    }
}

/// The character of a string of one.
pub fn only_character(text: &Text) -> Option<TypedExpr>
    ensures { result ≡ spec.only_character text.now }
{
    match text.as_slice() {
        [character] => Some(TypedExpr::Constant(i32::from(*character))),
        _ => None,
    }
}

/// A character: a string of one is one too.
pub fn character_of(operand: Operand) -> Option<TypedExpr>
    ensures { result ≡ spec.character_of operand }
{
    match operand {
        Operand::Value(Basic::Char, value) => Some(value),
        Operand::Text(text) => only_character(&text),
        _ => None,
    }
}

/// What a rule gave, or the fault of this code.
pub fn fitting<T>(value: Option<T>, code: RuleCode, span: Span) -> Result<T, Rejected>
    ensures { Judges (there value code) result }
{
    match value {
        Some(value) => Ok(value),
        None => Err(Rejected::Rule(broken(code, span))),
    }
}

fn byte_for(alloc: Global, operand: Operand, span: Span) -> Result<TypedExpr, Rejected>
    ensures { Judges (there (spec.byte_of span.line operand) code.Types) result }
{
    match operand {
        Operand::Value(Basic::Byte, value) => Ok(value),
        Operand::Value(Basic::Integer, value) => Ok(TypedExpr::Unary(
            UnaryOperator::Byte,
            span.line as usize,
            Boxed::new(alloc, value)?,
        )),
        Operand::Value(Basic::Boolean, _)
        | Operand::Value(Basic::Char, _)
        | Operand::Text(_)
        | Operand::Place(_, _) => Err(Rejected::Rule(broken(RuleCode::Types, span))),
    }
}

/// What may be assigned to a variable of a basic type, as a value of that type. The operand begins at `span`.
pub fn value_for(
    alloc: Global,
    basic: Basic,
    operand: Operand,
    span: Span,
) -> Result<TypedExpr, Rejected>
    ensures { Judges (there (spec.value_for basic span.line operand) code.Types) result }
{
    match basic {
        Basic::Integer => fitting(number_of(operand), RuleCode::Types, span),
        Basic::Boolean => fitting(truth_of(operand), RuleCode::Types, span),
        Basic::Char => fitting(character_of(operand), RuleCode::Types, span),
        Basic::Byte => byte_for(alloc, operand, span),
    }
}

/// The number of a truth value: 1 or 0.
pub fn truth_number(truth: bool) -> i32
    ensures { result ≡ spec.truth_number truth }
{
    if truth { 1 } else { 0 }
}

/// What a declared constant is.
pub fn operand_of_constant(alloc: Global, constant: &Constant) -> Result<Operand, Rejected>
    ensures { Judges (Given (spec.operand_of_constant constant.now)) result }
{
    match constant {
        Constant::Integer(number) => {
            Ok(Operand::Value(Basic::Integer, TypedExpr::Constant(*number)))
        }
        Constant::Boolean(truth) => Ok(Operand::Value(
            Basic::Boolean,
            TypedExpr::Constant(truth_number(*truth)),
        )),
        Constant::Char(character) => Ok(Operand::Value(
            Basic::Char,
            TypedExpr::Constant(i32::from(*character)),
        )),
        Constant::Text(text) => Ok(Operand::Text(text.copy(alloc)?)),
    }
}

/// What a variable or a part of one is: its value where it has a basic type, else where it stands.
#[tactic(auto, unfolding(crate::specs::Operands::operand_of_variable))]
pub fn operand_of_variable(of: &ObType, place: Designator) -> Result<Operand, Rejected>
    ensures { Judges (Given (spec.operand_of_variable of.now place)) result }
{
    match of.form() {
        Form::Basic(basic) => Ok(Operand::Value(*basic, TypedExpr::Read(place))),
        Form::Array(_, _) | Form::Open(_) | Form::Record(_) => {
            Ok(Operand::Place(of.another()?, place))
        }
    }
}

/// Whether it is the type CHAR.
pub fn is_char(of: &ObType) -> bool
    ensures { result ≡ is_char of.now }
{
    match of.form() {
        Form::Basic(Basic::Char) => true,
        _ => false,
    }
}

/// Whether a type is an array of CHAR, open or not.
pub fn is_text(of: &ObType) -> bool
    ensures { result ≡ spec.is_text of.now }
{
    match of.form() {
        Form::Array(_, element) | Form::Open(element) => is_char(element.get()),
        Form::Basic(_) | Form::Record(_) => false,
    }
}

/// The most elements of a string that becomes a variable.
const MAX_ELEMENTS: u32 = 2147483647;

/// A string as a variable of the module, in `elements` elements, which are fewer than 2^31.
#[tactic(auto, unfolding(crate::specs::Operands::text_variable))]
pub fn hidden(
    text: Text,
    elements: u32,
    span: Span,
    variables: Variables,
) -> Result<(Designator, Variables), Rejected>
    ensures { Judges (spec.text_variable variables text elements) result }
{
    if elements > MAX_ELEMENTS {
        return Err(Rejected::Rule(broken(RuleCode::Size, span)));
    }
    let (number, variables) = variables.string(text, elements)?;
    Ok((Designator::Whole(Variable::OfModule(number)), variables))
}

/// A string as a variable of the module, with an element more than it has characters.
#[tactic(auto, unfolding(crate::specs::Operands::text_variable))]
pub fn hidden_with_end(
    text: Text,
    span: Span,
    variables: Variables,
) -> Result<(Designator, Variables), Rejected>
    ensures { Judges (spec.text_variable variables text (length text + 1)) result }
{
    match u32::try_from(text.as_slice().len()) {
        Ok(length) => {
            if length < MAX_ELEMENTS {
                hidden(text, length + 1, span, variables)
            } else {
                Err(Rejected::Rule(broken(RuleCode::Size, span)))
            }
        }
        Err(_) => Err(Rejected::Rule(broken(RuleCode::Size, span))),
    }
}

/// Where a text stands: an array of CHAR, or a string as a variable of the module.
#[tactic(auto, unfolding(crate::specs::Operands::text_place))]
pub fn text_place(
    operand: Operand,
    span: Span,
    variables: Variables,
) -> Result<(Designator, Variables), Rejected>
    ensures { Judges (spec.text_place variables operand) result }
{
    match operand {
        Operand::Text(text) => hidden_with_end(text, span, variables),
        Operand::Place(of, place) => {
            if is_text(&of) {
                Ok((place, variables))
            } else {
                Err(Rejected::Rule(broken(RuleCode::Types, span)))
            }
        }
        Operand::Value(_, _) => Err(Rejected::Rule(broken(RuleCode::Types, span))),
    }
}
