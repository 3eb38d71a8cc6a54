//! Calls by statements.

ghost use Rattle.std.specs.Prelude.{◌≡◌};
ghost use Rattle.ob_check_scope.specs.Rule.{Judges};
ghost use Rattle.ob_check_scope.specs.Sites.{on};
ghost use Rattle.ob_check_operand.specs.Named.{callable};
ghost use Rattle.ob_check_stmt.specs.Calls as spec;

use crate::standard_call::{in_call, out_call, predeclared_call};
use ob_base::Items;
use ob_check_expr::actuals as actual_list;
use ob_check_operand::{Called, procedure};
use ob_check_scope::Site;
use ob_check_scope::rejected::{Rejected, broken};
use ob_check_scope::rule::RuleCode;
use ob_check_strings::Variables;
use ob_mean::{Action, Callee};
use ob_scan::Span;
use ob_tree::tree::{Designator, Expr};
use ob_types::{Formal, Signature};

fn has_none(formals: &[Formal]) -> bool
    ensures { result ≡ spec.has_none formals.now }
{
    match formals {
        [] => true,
        [_, ..] => false,
    }
}

#[tactic(auto, unfolding(crate::specs::Calls::call_with))]
fn call_with(
    site: Site<'_>,
    to: Callee,
    formals: &[Formal],
    variables: Variables,
    actuals: &Option<Items<Expr>>,
    span: Span,
) -> Result<(Action, Variables), Rejected>
    ensures { Judges (on spec.call_with site.entry to formals.now span.line variables actuals.now) result }
{
    match actuals {
        None => {
            if !has_none(formals) {
                return Err(Rejected::Rule(broken(RuleCode::Parameters, span)));
            }
            Ok((
                Action::Call(to, span.line as usize, Items::new(site.alloc)),
                variables,
            ))
        }
        Some(actuals) => {
            let (passed, variables) = actual_list(
                site,
                formals,
                span,
                variables,
                actuals.as_slice(),
            )?;
            Ok((Action::Call(to, span.line as usize, passed), variables))
        }
    }
}

/// A call of a procedure that is no function.
#[tactic(auto, unfolding(crate::specs::Calls::procedure_call))]
fn procedure_call(
    site: Site<'_>,
    signature: &Signature,
    to: Callee,
    variables: Variables,
    actuals: &Option<Items<Expr>>,
    span: Span,
) -> Result<(Action, Variables), Rejected>
    ensures { Judges (on spec.procedure_call site.entry signature.now to span.line variables actuals.now) result }
{
    if signature.result.is_some() {
        return Err(Rejected::Rule(broken(RuleCode::Parameters, span)));
    }
    let formals = signature.formals.as_slice();
    call_with(site, to, formals, variables, actuals, span)
}

/// A call of what a name stands for.
#[tactic(auto, unfolding(crate::specs::Calls::call_of))]
fn call_of(
    site: Site<'_>,
    what: Called<'_>,
    variables: Variables,
    actuals: &Option<Items<Expr>>,
    span: Span,
) -> Result<(Action, Variables), Rejected>
    ensures { Judges (on spec.call_of site.entry (callable what.entry) span.line variables actuals.now) result }
{
    match what {
        Called::Procedure(signature, to) => procedure_call(
            site, signature, to, variables, actuals, span,
        ),
        Called::Function(_) => Err(Rejected::Rule(broken(RuleCode::Parameters, span))),
        Called::Proper(procedure) => predeclared_call(site, procedure, variables, actuals, span),
        Called::Input(name) => in_call(site, name, variables, actuals, span),
        Called::Output(name) => out_call(site, name, variables, actuals, span),
    }
}

/// A procedure's name, with its actual parameters where parentheses stand.
#[tactic(auto, unfolding(crate::specs::Calls::call))]
pub fn call(
    site: Site<'_>,
    variables: Variables,
    d: &Designator,
    actuals: &Option<Items<Expr>>,
) -> Result<(Action, Variables), Rejected>
    ensures { Judges (on spec.call site.entry variables d.now actuals.now) result }
{
    let what = procedure(site.imports, site.scope, d)?;
    call_of(site, what, variables, actuals, d.name.span)
}
