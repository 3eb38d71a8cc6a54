//! What statements take: variables that they write, values, and actual parameters.
//!
//! A number, a truth value and a guard are each read in three lines: they differ in what the operand has to be and in the code
//! where it is not, which are what a statement's rule names. A common function would take both as parameters, and be longer
//! than what it spares.

ghost use Rattle.std.specs.Prelude.{◌≡◌};
ghost use Rattle.ob_check_scope.specs.Rule.{Judges};
ghost use Rattle.ob_check_scope.specs.Sites.{on};
ghost use Rattle.ob_check_expr.specs.Expressions as spec;

use crate::expression::{all_passed, expr};
use ob_base::Items;
use ob_check_operand::operand::{Operand, fitting, number_of, truth_of, value_for};
use ob_check_scope::Site;
use ob_check_scope::rejected::Rejected;
use ob_check_scope::rule::RuleCode;
use ob_check_strings::Variables;
use ob_mean::{Argument, TypedExpr};
use ob_scan::Span;
use ob_tree::tree::Expr;
use ob_types::{Basic, Formal};

/// The actual parameters of a call, as many as there are formal ones. The called name stands at `span`.
#[tactic(auto, unfolding(crate::specs::Expressions::actuals_at))]
pub fn actuals(
    site: Site<'_>,
    formals: &[Formal],
    span: Span,
    variables: Variables,
    es: &[Expr],
) -> Result<(Items<Argument>, Variables), Rejected>
    ensures { Judges (on spec.actuals_at site.entry formals.now variables es.now) result }
{
    all_passed(site, formals, span, variables, es)
}

fn is_value(operand: Operand) -> Option<(Basic, TypedExpr)>
    ensures { result ≡ spec.is_value operand }
{
    match operand {
        Operand::Value(basic, value) => Some((basic, value)),
        Operand::Text(_) | Operand::Place(_, _) => None,
    }
}

/// A value of basic type.
#[tactic(auto, unfolding(crate::specs::Expressions::value_at))]
pub fn basic_value(
    site: Site<'_>,
    variables: Variables,
    e: &Expr,
) -> Result<(Basic, TypedExpr, Variables), Rejected>
    ensures { Judges (on spec.value_at site.entry variables e.now) result }
{
    let (operand, variables) = expr(site, variables, e)?;
    let (basic, value) = fitting(is_value(operand), RuleCode::Types, e.first_token())?;
    Ok((basic, value, variables))
}

/// A value for a variable of a basic type.
#[tactic(auto, unfolding(crate::specs::Expressions::value_for_at))]
pub fn assigned_value(
    site: Site<'_>,
    basic: Basic,
    variables: Variables,
    e: &Expr,
) -> Result<(TypedExpr, Variables), Rejected>
    ensures { Judges (on spec.value_for_at site.entry basic variables e.now) result }
{
    let (operand, variables) = expr(site, variables, e)?;
    let value = value_for(site.alloc, basic, operand, e.first_token())?;
    Ok((value, variables))
}

/// A truth value on which a statement depends.
#[tactic(auto, unfolding(crate::specs::Expressions::guard_at))]
pub fn guard(
    site: Site<'_>,
    variables: Variables,
    e: &Expr,
) -> Result<(TypedExpr, Variables), Rejected>
    ensures { Judges (on spec.guard_at site.entry variables e.now) result }
{
    let (operand, variables) = expr(site, variables, e)?;
    let value = fitting(truth_of(operand), RuleCode::Types, e.first_token())?;
    Ok((value, variables))
}

/// A number that a predeclared procedure takes.
#[tactic(auto, unfolding(crate::specs::Expressions::number_at))]
pub fn number(
    site: Site<'_>,
    variables: Variables,
    e: &Expr,
) -> Result<(TypedExpr, Variables), Rejected>
    ensures { Judges (on spec.number_at site.entry variables e.now) result }
{
    let (operand, variables) = expr(site, variables, e)?;
    let value = fitting(number_of(operand), RuleCode::Parameters, e.first_token())?;
    Ok((value, variables))
}

/// A truth value that a predeclared procedure takes.
#[tactic(auto, unfolding(crate::specs::Expressions::truth_at))]
pub fn truth(
    site: Site<'_>,
    variables: Variables,
    e: &Expr,
) -> Result<(TypedExpr, Variables), Rejected>
    ensures { Judges (on spec.truth_at site.entry variables e.now) result }
{
    let (operand, variables) = expr(site, variables, e)?;
    let value = fitting(truth_of(operand), RuleCode::Parameters, e.first_token())?;
    Ok((value, variables))
}
