//! Relations.

ghost use Rattle.std.specs.Prelude.{◌≡◌};
ghost use Rattle.ob_check_scope.specs.Rule.{Judges, Given};
ghost use Rattle.ob_check_operand.specs.declared.operand.Operand.TheVariants as operand;
ghost use Rattle.ob_check_operand.specs.Relations as spec;

use crate::operand::{Operand, character_of, fitting, is_text, text_place};
use ob_base::{Boxed, Items, Text};
use ob_check_scope::rejected::{Rejected, broken};
use ob_check_scope::rule::RuleCode;
use ob_check_strings::Variables;
use ob_mean::{Designator, Operation, Operator, Relation, TypedExpr};
use ob_scan::Span;
use ob_tree::tree::Relation as Written;
use ob_types::{Basic, ObType};
use std::alloc::Global;
use std::mem::drop;

/// The relation of typed trees that a written one stands for.
pub fn relation_of(relation: Written) -> Relation
    ensures { result ≡ spec.relation_of relation }
{
    match relation {
        Written::Equal => Relation::Equal,
        Written::NotEqual => Relation::NotEqual,
        Written::Less => Relation::Less,
        Written::LessEqual => Relation::LessEqual,
        Written::Greater => Relation::Greater,
        Written::GreaterEqual => Relation::GreaterEqual,
    }
}

fn is_equality(relation: Relation) -> bool
    ensures { result ≡ spec.is_equality relation }
{
    match relation {
        Relation::Equal | Relation::NotEqual => true,
        Relation::Less | Relation::LessEqual | Relation::Greater | Relation::GreaterEqual => false,
    }
}

fn is_number(basic: Basic) -> bool
    ensures { result ≡ spec.is_number basic }
{
    match basic {
        Basic::Integer | Basic::Byte => true,
        Basic::Boolean | Basic::Char => false,
    }
}

fn is_character(basic: Basic) -> bool
    ensures { result ≡ spec.is_character basic }
{
    match basic {
        Basic::Char => true,
        Basic::Integer | Basic::Byte | Basic::Boolean => false,
    }
}

fn is_truth(basic: Basic) -> bool
    ensures { result ≡ spec.is_truth basic }
{
    match basic {
        Basic::Boolean => true,
        Basic::Integer | Basic::Byte | Basic::Char => false,
    }
}

fn are_related(relation: Relation, left: Basic, right: Basic) -> bool
    ensures { result ≡ spec.are_related relation left right }
{
    match left {
        Basic::Integer | Basic::Byte => is_number(right),
        Basic::Char => is_character(right),
        Basic::Boolean => is_truth(right) && is_equality(relation),
    }
}

fn may_relate_basic(relation: Relation, left: Basic) -> bool
    ensures { result ≡ spec.may_relate_basic relation left }
{
    match left {
        Basic::Boolean => is_equality(relation),
        Basic::Integer | Basic::Byte | Basic::Char => true,
    }
}

/// Whether an operand may stand before a relation.
pub fn may_relate(relation: Relation, left: &Operand) -> bool
    ensures { result ≡ spec.may_relate relation left.now }
{
    match left {
        Operand::Value(basic, _) => may_relate_basic(relation, *basic),
        Operand::Text(_) => true,
        Operand::Place(of, _) => is_text(of),
    }
}

fn compared(
    alloc: Global,
    relation: Relation,
    span: Span,
    left: TypedExpr,
    right: TypedExpr,
) -> Result<Operand, Rejected>
    ensures { Judges (Given (spec.compared relation span.line left right)) result }
{
    let mut steps = Items::new(alloc);
    steps.push(Operation {
        operator: Operator::Compare(relation),
        line: span.line as usize,
        operand: right,
    })?;
    Ok(Operand::Value(
        Basic::Boolean,
        TypedExpr::Chain(Boxed::new(alloc, left)?, steps),
    ))
}

#[tactic(auto, unfolding(crate::specs::Relations::texts_related))]
fn texts_related(
    relation: Relation,
    span: Span,
    variables: Variables,
    left: Operand,
    right: Operand,
) -> Result<(Operand, Variables), Rejected>
    ensures { Judges (spec.texts_related relation variables left right) result }
{
    let (first, variables) = text_place(left, span, variables)?;
    let (second, variables) = text_place(right, span, variables)?;
    let value = TypedExpr::Texts(relation, first, second);
    Ok((Operand::Value(Basic::Boolean, value), variables))
}

#[tactic(auto, unfolding(crate::specs::Relations::values_related))]
fn values_related(
    alloc: Global,
    relation: Relation,
    span: Span,
    left: (Basic, TypedExpr),
    right: (Basic, TypedExpr),
) -> Result<Operand, Rejected>
    ensures { Judges (spec.values_related relation span.line left.0 left.1 right.0 right.1) result }
{
    let (one, left) = left;
    let (other, right) = right;
    if are_related(relation, one, other) {
        compared(alloc, relation, span, left, right)
    } else {
        Err(Rejected::Rule(broken(RuleCode::Types, span)))
    }
}

#[tactic(auto, unfolding(crate::specs::Relations::characters_related))]
fn characters_related(
    alloc: Global,
    relation: Relation,
    span: Span,
    left: Operand,
    right: Operand,
) -> Result<Operand, Rejected>
    ensures { Judges (spec.characters_related relation span.line left right) result }
{
    let left = fitting(character_of(left), RuleCode::Types, span)?;
    let right = fitting(character_of(right), RuleCode::Types, span)?;
    compared(alloc, relation, span, left, right)
}

/// A value with a relation to another operand.
#[tactic(auto, unfolding(crate::specs::Relations::related))]
fn value_related(
    alloc: Global,
    relation: Relation,
    span: Span,
    variables: Variables,
    left: (Basic, TypedExpr),
    right: Operand,
) -> Result<(Operand, Variables), Rejected>
    ensures { Judges (spec.related relation span.line variables (operand.Value left.0 left.1) right) result }
{
    match right {
        Operand::Value(other, right) => {
            let value = values_related(alloc, relation, span, left, (other, right))?;
            Ok((value, variables))
        }
        Operand::Text(text) => {
            let first = Operand::Value(left.0, left.1);
            let value = characters_related(alloc, relation, span, first, Operand::Text(text))?;
            Ok((value, variables))
        }
        Operand::Place(_, place) => {
            let (_, value) = left;
            drop(value);
            drop(place);
            Err(Rejected::Rule(broken(RuleCode::Types, span)))
        }
    }
}

/// A string with a relation to another operand.
#[tactic(auto, unfolding(crate::specs::Relations::related))]
fn string_related(
    alloc: Global,
    relation: Relation,
    span: Span,
    variables: Variables,
    left: Text,
    right: Operand,
) -> Result<(Operand, Variables), Rejected>
    ensures { Judges (spec.related relation span.line variables (operand.Text left) right) result }
{
    let first = Operand::Text(left);
    match right {
        Operand::Value(other, right) => {
            let second = Operand::Value(other, right);
            let value = characters_related(alloc, relation, span, first, second)?;
            Ok((value, variables))
        }
        Operand::Text(text) => {
            texts_related(relation, span, variables, first, Operand::Text(text))
        }
        Operand::Place(of, place) => {
            texts_related(relation, span, variables, first, Operand::Place(of, place))
        }
    }
}

/// What stands in a variable with a relation to another operand.
#[tactic(auto, unfolding(crate::specs::Relations::related))]
fn place_related(
    relation: Relation,
    span: Span,
    variables: Variables,
    of: ObType,
    place: Designator,
    right: Operand,
) -> Result<(Operand, Variables), Rejected>
    ensures { Judges (spec.related relation span.line variables (operand.Place of place) right) result }
{
    match right {
        Operand::Value(_, value) => {
            drop(value);
            drop(place);
            Err(Rejected::Rule(broken(RuleCode::Types, span)))
        }
        Operand::Text(text) => {
            let first = Operand::Place(of, place);
            texts_related(relation, span, variables, first, Operand::Text(text))
        }
        Operand::Place(other, second) => {
            let first = Operand::Place(of, place);
            texts_related(
                relation,
                span,
                variables,
                first,
                Operand::Place(other, second),
            )
        }
    }
}

/// Two operands with a relation between them, which stands at `span`.
pub fn related(
    alloc: Global,
    relation: Relation,
    span: Span,
    variables: Variables,
    left: Operand,
    right: Operand,
) -> Result<(Operand, Variables), Rejected>
    ensures { Judges (spec.related relation span.line variables left right) result }
{
    match left {
        Operand::Value(one, value) => {
            value_related(alloc, relation, span, variables, (one, value), right)
        }
        Operand::Text(text) => string_related(alloc, relation, span, variables, text, right),
        Operand::Place(of, place) => place_related(relation, span, variables, of, place, right),
    }
}
