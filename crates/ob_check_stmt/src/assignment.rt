//! Assignments.

ghost use Rattle.std.specs.Prelude.{◌≡◌};
ghost use Rattle.ob_check_scope.specs.Rule.{Judges};
ghost use Rattle.ob_check_scope.specs.Sites.{on};
ghost use Rattle.ob_check_stmt.specs.Assignments as spec;

use ob_check_expr::{assigned_value, expr, target};
use ob_check_operand::Operand;
use ob_check_operand::selecting::part_as;
use ob_check_scope::Site;
use ob_check_scope::rejected::{Rejected, broken};
use ob_check_scope::rule::RuleCode;
use ob_check_strings::Variables;
use ob_mean::{Action, Designator as Place};
use ob_scan::Span;
use ob_tree::tree::{Designator, Expr};
use ob_types::{Basic, Form, ObType, string_assignable};
use std::alloc::Global;

/// The basic type that a type is.
fn basic_of(of: &ObType) -> Option<Basic>
    ensures { result ≡ spec.basic_of of.now }
{
    match of.form() {
        Form::Basic(basic) => Some(*basic),
        _ => None,
    }
}

fn is_open(of: &ObType) -> bool
    ensures { result ≡ spec.is_open of.now }
{
    match of.form() {
        Form::Open(_) => true,
        _ => false,
    }
}

fn is_array(of: &ObType) -> bool
    ensures { result ≡ spec.is_array of.now }
{
    match of.form() {
        Form::Array(_, _) | Form::Open(_) => true,
        _ => false,
    }
}

/// Two arrays of which either is open.
fn is_left_out_copy(to: &ObType, from: &ObType) -> bool
    ensures { result ≡ spec.is_left_out_copy to.now from.now }
{
    is_array(to) && is_array(from) && (is_open(to) || is_open(from))
}

/// What is assigned to a variable of structured type. The value begins at this token.
#[tactic(auto, unfolding(crate::specs::Assignments::structured_assigned))]
fn structured_assigned(
    alloc: Global,
    of: &ObType,
    to: Place,
    span: Span,
    value: Operand,
) -> Result<Action, Rejected>
    ensures { Judges (spec.structured_assigned of.now to span.line value) result }
{
    match value {
        Operand::Text(chars) => {
            if !string_assignable(of, chars.as_slice().len()) {
                return Err(Rejected::Rule(broken(RuleCode::Types, span)));
            }
            Ok(Action::AssignText(to, span.line as usize, chars))
        }
        Operand::Place(from_type, from) => {
            if is_left_out_copy(of, &from_type) {
                return Err(Rejected::Rule(broken(RuleCode::LeftOut, span)));
            }
            if is_open(of) {
                return Err(Rejected::Rule(broken(RuleCode::Types, span)));
            }
            match part_as(alloc, of, &from_type, from)? {
                Some(part) => Ok(Action::Copy(to, part)),
                None => Err(Rejected::Rule(broken(RuleCode::Types, span))),
            }
        }
        Operand::Value(_, _) => Err(Rejected::Rule(broken(RuleCode::Types, span))),
    }
}

/// A value for a variable, which is of this basic type or of none.
#[tactic(auto, unfolding(crate::specs::Assignments::assigned))]
fn assigned(
    site: Site<'_>,
    basic: Option<Basic>,
    of: &ObType,
    to: Place,
    variables: Variables,
    e: &Expr,
) -> Result<(Action, Variables), Rejected>
    ensures { Judges (on spec.assigned site.entry basic of.now to variables e.now) result }
{
    match basic {
        Some(basic) => {
            let (value, variables) = assigned_value(site, basic, variables, e)?;
            Ok((Action::Assign(to, value), variables))
        }
        None => {
            let (value, variables) = expr(site, variables, e)?;
            let action = structured_assigned(site.alloc, of, to, e.first_token(), value)?;
            Ok((action, variables))
        }
    }
}

/// The variable first, and then the value.
#[tactic(auto, unfolding(crate::specs::Assignments::assignment))]
pub fn assignment(
    site: Site<'_>,
    variables: Variables,
    d: &Designator,
    e: &Expr,
) -> Result<(Action, Variables), Rejected>
    ensures { Judges (on spec.assignment site.entry variables d.now e.now) result }
{
    let (of, to, variables, _) = target(site, variables, d)?;
    assigned(site, basic_of(&of), &of, to, variables, e)
}
