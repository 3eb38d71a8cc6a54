//! What stands between FOR and DO.

ghost use Rattle.std.specs.Prelude.{◌≡◌, option_copied};
ghost use Rattle.ob_check_scope.specs.Rule.{Judges};
ghost use Rattle.ob_check_scope.specs.Sites.{on};
ghost use Rattle.ob_check_stmt.specs.Statements as spec;

use ob_base::Boxed;
use ob_check_const::constant::constant;
use ob_check_expr::assigned_value;
use ob_check_scope::predeclared::Predeclared;
use ob_check_scope::rejected::{Rejected, broken};
use ob_check_scope::rule::RuleCode;
use ob_check_scope::{Entry, Scope, Site, Standing, is_writable};
use ob_check_strings::Variables;
use ob_mean::{ForHead as TypedHead, Variable};
use ob_scan::Span;
use ob_tree::tree::{Expr, ForHead, Ident};
use ob_types::{Basic, Constant, Form, ObType};

/// What is broken where nothing declares the name of a variable.
fn absent_variable(before: Predeclared) -> RuleCode
    ensures { result ≡ spec.absent_variable before }
{
    match before {
        Predeclared::LeftOut => RuleCode::LeftOut,
        Predeclared::Unknown => RuleCode::UnknownName,
        _ => RuleCode::ReadOnly,
    }
}

fn is_integer(of: &ObType) -> bool
    ensures { result ≡ spec.is_integer of.now }
{
    match of.form() {
        Form::Basic(Basic::Integer) => true,
        _ => false,
    }
}

#[tactic(auto, unfolding(crate::specs::Statements::counter_of))]
fn counter_of(
    scope: &Scope,
    of: &ObType,
    standing: Standing,
    span: Span,
) -> Result<Variable, Rejected>
    ensures { Judges (spec.counter_of scope.now of.now standing) result }
{
    if !is_writable(standing) {
        return Err(Rejected::Rule(broken(RuleCode::ReadOnly, span)));
    }
    if !is_integer(of) {
        return Err(Rejected::Rule(broken(RuleCode::Types, span)));
    }
    Ok(scope.variable_of(standing))
}

#[tactic(auto, unfolding(crate::specs::Statements::counter_found))]
fn counter_found(
    scope: &Scope,
    entry: Option<&Entry>,
    before: Predeclared,
    span: Span,
) -> Result<Variable, Rejected>
    ensures { Judges (spec.counter_found scope.now (option_copied entry.entry) before) result }
{
    match entry {
        Some(Entry::Variable(of, standing)) => counter_of(scope, of, *standing, span),
        Some(_) => Err(Rejected::Rule(broken(RuleCode::ReadOnly, span))),
        None => Err(Rejected::Rule(broken(absent_variable(before), span))),
    }
}

/// The variable of a FOR.
#[tactic(auto, unfolding(crate::specs::Statements::counter_named))]
fn counter_named(scope: &Scope, name: &Ident) -> Result<Variable, Rejected>
    ensures { Judges (spec.counter_named scope.now name.now) result }
{
    counter_found(
        scope,
        scope.seen(&name.name),
        scope.outer(&name.name),
        name.span,
    )
}

/// The step that a constant is.
#[tactic(auto, unfolding(crate::specs::Statements::step_of))]
fn step_of(constant: &Constant, span: Span) -> Result<i32, Rejected>
    ensures { Judges (spec.step_of constant.now) result }
{
    match constant {
        Constant::Integer(number) => {
            let number = *number;
            if number == 0 {
                return Err(Rejected::Rule(broken(RuleCode::NotConstant, span)));
            }
            Ok(number)
        }
        _ => Err(Rejected::Rule(broken(RuleCode::Types, span))),
    }
}

#[tactic(auto, unfolding(crate::specs::Statements::step_at))]
fn step(site: Site<'_>, e: &Option<Boxed<Expr>>) -> Result<i32, Rejected>
    ensures { Judges (on spec.step_at site.entry e.now) result }
{
    match e {
        None => Ok(1),
        Some(e) => {
            let e = e.get();
            let span = e.first_token();
            let value = constant(site, e)?;
            step_of(&value, span)
        }
    }
}

/// What stands between FOR and DO.
#[tactic(auto, unfolding(crate::specs::Statements::for_head))]
pub fn for_head(
    site: Site<'_>,
    variables: Variables,
    h: &ForHead,
) -> Result<(TypedHead, Variables), Rejected>
    ensures { Judges (on spec.for_head site.entry variables h.now) result }
{
    let variable = counter_named(site.scope, &h.variable)?;
    let integer = Basic::Integer;
    let (first, variables) = assigned_value(site, integer, variables, h.first.get())?;
    let (last, variables) = assigned_value(site, integer, variables, h.last.get())?;
    match step(site, &h.step) {
        Ok(step) => {
            let head = TypedHead {
                variable,
                first,
                last,
                step,
            };
            Ok((head, variables))
        }
        Err(e) => {
            // By calls, since both have many parts to be let go.
            drop(first);
            drop(last);
            Err(e)
        }
    }
}
