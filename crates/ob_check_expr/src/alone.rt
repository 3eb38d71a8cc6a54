//! Expressions that are a designator alone, or a variable that is guarded.

ghost use Rattle.std.specs.Prelude.{◌≡◌, option_copied, option_map, is_some};
ghost use Rattle.ob_tree.specs.declared.tree.Factor.{out-Factor};
ghost use Rattle.ob_check_const.specs.NamedTypes.{written};
ghost use Rattle.ob_check_expr.specs.Alone as spec;

use ob_check_const::named_type::NameOfType;
use ob_check_operand::names::tells;
use ob_check_scope::{Entry, Scope};
use ob_scan::Span;
use ob_tree::tree::{
    AddedTerm, Designator, Expr, Factor, Ident, NextFactor, Selector, Sign, Simple, Term,
};

/// A variable that is written alone, and the name of the type in a guard behind it that is read as actual parameters.
#[derive(Clone, Copy)]
pub struct Lone<'a> {
    pub variable: &'a Designator,
    pub guard: Option<NameOfType<'a>>,
}

fn factor_alone<'a>(f: &'a Factor, others: &[NextFactor]) -> Option<&'a Factor>
    ensures { option_copied result ≡ spec.factor_alone f.now others.now }
{
    match others {
        [] => Some(f),
        [_, ..] => None,
    }
}

fn term_alone<'a>(
    sign: Option<(Sign, Span)>,
    t: &'a Term,
    others: &[AddedTerm],
) -> Option<&'a Factor>
    ensures { option_copied result ≡ spec.term_alone sign t.now others.now }
{
    match (sign, others) {
        (None, []) => factor_alone(&t.first, t.others.as_slice()),
        (None, [_, ..]) | (Some(_), _) => None,
    }
}

fn sum_alone(x: &Simple) -> Option<&Factor>
    ensures { option_copied result ≡ spec.sum_alone x.now }
{
    term_alone(x.sign, &x.first, x.others.as_slice())
}

/// The factor that an expression is, without operators.
fn only_factor(e: &Expr) -> Option<&Factor>
    ensures { option_copied result ≡ spec.only_factor e.now }
{
    match &e.right {
        Some(_) => None,
        None => sum_alone(&e.left),
    }
}

fn designator_in(f: Option<&Factor>) -> Option<&Designator>
    ensures { option_copied result ≡ spec.designator_in (option_copied f.entry) }
{
    match f {
        Some(Factor::Value(d)) => Some(d),
        _ => None,
    }
}

/// The designator that an expression is, without parentheses or operators.
#[tactic(auto, unfolding(crate::specs::Alone::alone))]
fn alone(e: &Expr) -> Option<&Designator>
    ensures { option_copied result ≡ spec.alone e.now }
{
    designator_in(only_factor(e))
}

/// Whether an expression is a designator, without parentheses or operators.
pub fn is_alone(e: &Expr) -> bool
    ensures { result ≡ is_some (spec.alone e.now) }
{
    match alone(e) {
        Some(_) => true,
        None => false,
    }
}

fn name_of<'a>(first: &'a Ident, selectors: &'a [Selector]) -> Option<NameOfType<'a>>
    ensures { option_map written result ≡ spec.name_of first.now selectors.now }
{
    match selectors {
        [] => Some(NameOfType {
            first,
            second: None,
        }),
        [Selector::Field(second)] => Some(NameOfType {
            first,
            second: Some(second),
        }),
        [Selector::Index(_) | Selector::Guard(_)] | [_, _, ..] => None,
    }
}

/// The name of a type that the only one of some actual parameters can be.
fn only_name(actuals: &[Expr]) -> Option<NameOfType<'_>>
    ensures { option_map written result ≡ spec.only_name actuals.now }
{
    match actuals {
        [e] => match alone(e) {
            Some(d) => name_of(&d.name, d.selectors.as_slice()),
            None => None,
        },
        [] | [_, _, ..] => None,
    }
}

fn is_told(entry: Option<&Entry>) -> bool
    ensures { result ≡ spec.is_told (option_copied entry.entry) }
{
    match entry {
        Some(Entry::Variable(_, standing)) => tells(*standing),
        _ => false,
    }
}

/// The name of the type, where what looks like a call is a guard: of a VAR parameter.
#[tactic(auto, unfolding(crate::specs::Alone::guard_in))]
pub fn guard_in<'a>(scope: &Scope, d: &Designator, actuals: &'a [Expr]) -> Option<NameOfType<'a>>
    ensures { option_map written result ≡ spec.guard_in scope.now d.now actuals.now }
{
    if is_told(scope.seen(&d.name.name)) {
        only_name(actuals)
    } else {
        None
    }
}

fn lone_in<'a>(scope: &Scope, f: Option<&'a Factor>) -> Option<Lone<'a>>
    ensures { option_map spec.lone result ≡ spec.lone_in scope.now (option_copied f.entry) }
{
    match f {
        Some(Factor::Value(d)) => Some(Lone {
            variable: d,
            guard: None,
        }),
        Some(Factor::Call(d, actuals)) => match guard_in(scope, d.get(), actuals.as_slice()) {
            Some(name) => Some(Lone {
                variable: d.get(),
                guard: Some(name),
            }),
            None => None,
        },
        _ => None,
    }
}

/// The variable that an expression is, guarded or not, without parentheses or operators.
#[tactic(auto, unfolding(crate::specs::Alone::lone_variable))]
pub fn lone_variable<'a>(scope: &Scope, e: &'a Expr) -> Option<Lone<'a>>
    ensures { option_map spec.lone result ≡ spec.lone_variable scope.now e.now }
{
    lone_in(scope, only_factor(e))
}

/// The variable that a sum is.
#[tactic(auto, unfolding(crate::specs::Alone::lone_sum))]
pub fn lone_sum<'a>(scope: &Scope, x: &'a Simple) -> Option<Lone<'a>>
    ensures { option_map spec.lone result ≡ spec.lone_sum scope.now x.now }
{
    lone_in(scope, sum_alone(x))
}
