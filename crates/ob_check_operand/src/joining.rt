//! Signs, sums and products.

ghost use Rattle.std.specs.Prelude.{◌≡◌, [], ◌∷◌, ◌++◌};
ghost use Rattle.ob_check_scope.specs.declared.rule.RuleCode.TheVariants as code;
ghost use Rattle.ob_check_scope.specs.Rule.{Judges, Given, Then, there};
ghost use Rattle.ob_check_operand.specs.declared.joining.Joined.TheVariants as joined;
ghost use Rattle.ob_check_operand.specs.Joining as spec;

use crate::operand::{Operand, fitting, is_number, is_truth, number_of, truth_of};
use ob_base::{Boxed, Items};
use ob_check_scope::rejected::{Rejected, broken};
use ob_check_scope::rule::RuleCode;
use ob_mean::{Operation, Operator, TypedExpr, UnaryOperator};
use ob_scan::Span;
use ob_tree::tree::{AddOperator, MulOperator, Sign};
use ob_types::Basic;
use std::alloc::Global;
use std::mem::drop;

/// What an operator joins.
#[derive(Clone, Copy)]
pub enum Joining {
    Numbers(Operator),
    Truths,
}

/// One operand, or several that operators of one kind join from left to right.
#[derive(Drop)]
pub enum Joined {
    One(Operand),
    /// The first number, and operators with the others.
    Numbers(TypedExpr, Items<Operation>),
    Truths(Items<TypedExpr>),
}

/// What an operator between terms joins: `+` and `-` numbers, OR truth values.
pub fn add_joining(operator: AddOperator) -> Joining
    ensures { result ≡ spec.add_joining operator }
{
    match operator {
        AddOperator::Plus => Joining::Numbers(Operator::Plus),
        AddOperator::Minus => Joining::Numbers(Operator::Minus),
        AddOperator::Or => Joining::Truths,
    }
}

/// What an operator between factors joins: `*`, DIV and MOD numbers, `&` truth values.
pub fn mul_joining(operator: MulOperator) -> Joining
    ensures { result ≡ spec.mul_joining operator }
{
    match operator {
        MulOperator::Times => Joining::Numbers(Operator::Times),
        MulOperator::Div => Joining::Numbers(Operator::Quotient),
        MulOperator::Mod => Joining::Numbers(Operator::Remainder),
        MulOperator::And => Joining::Truths,
    }
}

/// Whether what is joined so far may stand before an operator.
pub fn may_join(joining: Joining, left: &Joined) -> bool
    ensures { result ≡ spec.may_join joining left.now }
{
    match (joining, left) {
        (Joining::Numbers(_), Joined::One(operand)) => is_number(operand),
        (Joining::Numbers(_), Joined::Numbers(_, _)) => true,
        (Joining::Numbers(_), Joined::Truths(_)) => false,
        (Joining::Truths, Joined::One(operand)) => is_truth(operand),
        (Joining::Truths, Joined::Numbers(_, _)) => false,
        (Joining::Truths, Joined::Truths(_)) => true,
    }
}

/// One step more.
fn next_step(
    first: TypedExpr,
    so_far: Items<Operation>,
    step: Operation,
) -> Result<Joined, Rejected>
    ensures { Judges (Given (joined.Numbers first (so_far ++ step ∷ []))) result }
{
    let mut steps = so_far;
    steps.push(step)?;
    Ok(Joined::Numbers(first, steps))
}

/// The first step, after what has to be a number.
fn first_step(
    alloc: Global,
    first: Option<TypedExpr>,
    step: Operation,
    span: Span,
) -> Result<Joined, Rejected>
    ensures { Judges (Then (there first code.Types) (λ x. Given (joined.Numbers x (step ∷ [])))) result }
{
    match first {
        Some(first) => next_step(first, Items::new(alloc), step),
        None => {
            drop(step);
            Err(Rejected::Rule(broken(RuleCode::Types, span)))
        }
    }
}

#[tactic(auto, unfolding(crate::specs::Joining::with_number))]
fn with_number(
    alloc: Global,
    operator: Operator,
    span: Span,
    left: Joined,
    right: TypedExpr,
) -> Result<Joined, Rejected>
    ensures { Judges (spec.with_number operator span.line left right) result }
{
    let step = Operation {
        operator,
        line: span.line as usize,
        operand: right,
    };
    match left {
        Joined::One(operand) => first_step(alloc, number_of(operand), step, span),
        Joined::Numbers(first, so_far) => next_step(first, so_far, step),
        Joined::Truths(all) => {
            drop(all);
            drop(step);
            Err(Rejected::Rule(broken(RuleCode::Types, span)))
        }
    }
}

/// One truth value more.
fn next_truth(so_far: Items<TypedExpr>, right: TypedExpr) -> Result<Joined, Rejected>
    ensures { Judges (Given (joined.Truths (so_far ++ right ∷ []))) result }
{
    let mut all = so_far;
    all.push(right)?;
    Ok(Joined::Truths(all))
}

/// The second truth value, after what has to be one.
fn second_truth(
    alloc: Global,
    first: Option<TypedExpr>,
    right: TypedExpr,
    span: Span,
) -> Result<Joined, Rejected>
    ensures { Judges (Then (there first code.Types) (λ x. Given (joined.Truths (x ∷ right ∷ [])))) result }
{
    match first {
        Some(first) => {
            let mut all = Items::new(alloc);
            all.push(first)?;
            next_truth(all, right)
        }
        None => {
            drop(right);
            Err(Rejected::Rule(broken(RuleCode::Types, span)))
        }
    }
}

#[tactic(auto, unfolding(crate::specs::Joining::with_truth))]
fn with_truth(alloc: Global, span: Span, left: Joined, right: TypedExpr) -> Result<Joined, Rejected>
    ensures { Judges (spec.with_truth left right) result }
{
    match left {
        Joined::One(operand) => second_truth(alloc, truth_of(operand), right, span),
        Joined::Truths(so_far) => next_truth(so_far, right),
        Joined::Numbers(first, steps) => {
            drop(first);
            drop(steps);
            drop(right);
            Err(Rejected::Rule(broken(RuleCode::Types, span)))
        }
    }
}

/// One operand more, after an operator at `span`.
#[tactic(auto, unfolding(crate::specs::Joining::with_operand))]
pub fn with_operand(
    alloc: Global,
    joining: Joining,
    span: Span,
    left: Joined,
    right: Operand,
) -> Result<Joined, Rejected>
    ensures { Judges (spec.with_operand joining span.line left right) result }
{
    match joining {
        Joining::Numbers(operator) => match number_of(right) {
            Some(right) => with_number(alloc, operator, span, left, right),
            None => {
                drop(left);
                Err(Rejected::Rule(broken(RuleCode::Types, span)))
            }
        },
        Joining::Truths => match truth_of(right) {
            Some(right) => with_truth(alloc, span, left, right),
            None => {
                drop(left);
                Err(Rejected::Rule(broken(RuleCode::Types, span)))
            }
        },
    }
}

/// The operand that a sum is, or lack of memory.
pub fn sum_of(alloc: Global, joined: Joined) -> Result<Operand, Rejected>
    ensures { Judges (Given (spec.sum_of joined)) result }
{
    match joined {
        Joined::One(operand) => Ok(operand),
        Joined::Numbers(first, steps) => Ok(Operand::Value(
            Basic::Integer,
            TypedExpr::Chain(Boxed::new(alloc, first)?, steps),
        )),
        Joined::Truths(all) => Ok(Operand::Value(Basic::Boolean, TypedExpr::Either(all))),
    }
}

/// The operand that a product is, or lack of memory.
pub fn product_of(alloc: Global, joined: Joined) -> Result<Operand, Rejected>
    ensures { Judges (Given (spec.product_of joined)) result }
{
    match joined {
        Joined::One(operand) => Ok(operand),
        Joined::Numbers(first, steps) => Ok(Operand::Value(
            Basic::Integer,
            TypedExpr::Chain(Boxed::new(alloc, first)?, steps),
        )),
        Joined::Truths(all) => Ok(Operand::Value(Basic::Boolean, TypedExpr::Every(all))),
    }
}

fn sign_of(alloc: Global, sign: Sign, span: Span, value: TypedExpr) -> Result<TypedExpr, Rejected>
    ensures { Judges (Given (spec.sign_of sign span.line value)) result }
{
    match sign {
        Sign::Plus => Ok(value),
        Sign::Minus => Ok(TypedExpr::Unary(
            UnaryOperator::Negative,
            span.line as usize,
            Boxed::new(alloc, value)?,
        )),
    }
}

/// A term with the sign before it, if there is one.
#[tactic(auto, unfolding(crate::specs::Joining::signed))]
pub fn signed(
    alloc: Global,
    sign: Option<(Sign, Span)>,
    operand: Operand,
) -> Result<Operand, Rejected>
    ensures { Judges (spec.signed sign operand) result }
{
    match sign {
        None => Ok(operand),
        Some((sign, span)) => {
            let number = fitting(number_of(operand), RuleCode::Types, span)?;
            let value = sign_of(alloc, sign, span, number)?;
            Ok(Operand::Value(Basic::Integer, value))
        }
    }
}

/// A factor after `~`.
#[tactic(auto, unfolding(crate::specs::Joining::negated))]
pub fn negated(alloc: Global, span: Span, operand: Operand) -> Result<Operand, Rejected>
    ensures { Judges (spec.negated span.line operand) result }
{
    let value = fitting(truth_of(operand), RuleCode::Types, span)?;
    Ok(Operand::Value(
        Basic::Boolean,
        TypedExpr::Unary(
            UnaryOperator::Not,
            span.line as usize,
            Boxed::new(alloc, value)?,
        ),
    ))
}
