//! Expressions, variables that are written, and actual parameters.
//!
//! Terms of a sum and factors of a product each have a loop and a step of their own. The two stand in one circle of calls, where
//! the next operand can't be handed to a common loop: the proof that the circle ends follows calls by name alone. What they
//! join operands by is common to both (`may_join`, `with_operand`).

ghost use Rattle.std.specs.Prelude.{◌≡◌, suc, false, [], option_map, is_some, IfOk, OnErr, IfErr};
ghost use Rattle.ob_check_scope.specs.Rule.{Judges, Given, Then, through};
ghost use Rattle.ob_check_scope.specs.Sites.{on};
ghost use Rattle.ob_mean.specs.declared.expression.Designator.TheVariants as designator;
ghost use Rattle.ob_tree.specs.declared.tree.Expr.{out-Expr};
ghost use Rattle.ob_check_const.specs.NamedTypes.{written};
ghost use Rattle.ob_check_operand.specs.Mapped.{result_map};
ghost use Rattle.ob_check_operand.specs.Named.{meant, callable};
ghost use Rattle.ob_check_operand.specs.Selecting as selecting;
ghost use Rattle.ob_check_expr.specs.Alone.{lone};
ghost use Rattle.ob_check_expr.specs.Expressions as spec;

use crate::alone::{Lone, guard_in, is_alone, lone_sum, lone_variable};
use ob_base::{Boxed, Items};
use ob_check_const::named_type::{NameOfType, name_of_type};
use ob_check_operand::functions::{one_of, shift_of, takes, two_of};
use ob_check_operand::joining::{
    Joined, add_joining, may_join, mul_joining, negated, product_of, signed, sum_of, with_operand,
};
use ob_check_operand::names::{Called, Named, procedure, read, written};
use ob_check_operand::operand::{
    Operand, number_of, operand_of_constant, operand_of_variable, truth_number,
};
use ob_check_operand::passing::{value_passed, variable_argument};
use ob_check_operand::relations::{may_relate, related, relation_of};
use ob_check_operand::selecting::{Selected, element_of, field_of, guarded, tested as type_tested};
use ob_check_scope::Site;
use ob_check_scope::predeclared::Function;
use ob_check_scope::rejected::{Rejected, broken, open};
use ob_check_scope::rule::RuleCode;
use ob_check_strings::Variables;
use ob_mean::{Argument, Callee, Designator, TypedExpr};
use ob_scan::Span;
use ob_tree::tree::{
    AddedTerm, Designator as Written, Expr, Factor, Ident, NextFactor, Qualident, Related,
    Relation, Selector, Simple, Term,
};
use ob_types::{Basic, Formal, FormalKind, ObType, Signature};
use std::alloc::Global;
use std::mem::drop;

/// Two sums with a relation between them, a test of a type, or one sum alone.
#[cycle(expression)]
#[tactic(auto, unfolding(crate::specs::Expressions::expr_rule, crate::specs::Expressions::expr_at, crate::specs::Expressions::related_rule))]
pub fn expr(
    site: Site<'_>,
    variables: Variables,
    e: &Expr,
) -> Result<(Operand, Variables), Rejected>
    ensures { Judges (on spec.expr_at site.entry variables e.now) result }
{
    match &e.right {
        None => simple(site, variables, &e.left),
        Some(right) => match right.get() {
            Related::By(by, span, right) => {
                let left = simple(site, variables, &e.left)?;
                relation(site, left, *by, *span, right)
            }
            Related::Is(_, name) => {
                let tested = lone_sum(site.scope, &e.left);
                test(site, variables, e, tested, name)
            }
        },
    }
}

/// A relation of what stands before it to another sum.
#[cycle(expression)]
#[tactic(auto, unfolding(crate::specs::Expressions::relation_rule))]
fn relation(
    site: Site<'_>,
    left: (Operand, Variables),
    by: Relation,
    span: Span,
    right: &Simple,
) -> Result<(Operand, Variables), Rejected>
    ensures { Judges (on spec.relation_at site.entry left by span right.now) result }
{
    let (left, variables) = left;
    let by = relation_of(by);
    if !may_relate(by, &left) {
        drop(left);
        return Err(Rejected::Rule(broken(RuleCode::Types, span)));
    }
    let (other, variables) = simple(site, variables, right)?;
    related(site.alloc, by, span, variables, left, other)
}

/// IS in an expression: a test of what stands before it, which is the variable `tested` alone. 12 at its first token where it is none.
#[cycle(expression)]
#[tactic(auto, unfolding(crate::specs::Expressions::test_rule))]
fn test(
    site: Site<'_>,
    variables: Variables,
    e: &Expr,
    tested: Option<Lone<'_>>,
    name: &Qualident,
) -> Result<(Operand, Variables), Rejected>
    ensures { Judges (on spec.test_at site.entry variables (out-Expr e.now).left (option_map lone tested.entry) name.now) result }
{
    let span = e.first_token();
    match tested {
        Some(variable) => {
            let at = lone_read(site, variables, variable)?;
            type_tested(site, at, name_of_type(name), span)
        }
        None => {
            let (left, variables) = simple(site, variables, &e.left)?;
            drop(left);
            drop(variables);
            Err(Rejected::Rule(broken(RuleCode::Types, span)))
        }
    }
}

#[cycle(expression)]
#[tactic(auto, unfolding(crate::specs::Expressions::simple_rule))]
fn simple(
    site: Site<'_>,
    variables: Variables,
    x: &Simple,
) -> Result<(Operand, Variables), Rejected>
    ensures { Judges (on spec.simple_at site.entry variables x.now) result }
{
    let (first, variables) = term(site, variables, &x.first)?;
    let first = Joined::One(signed(site.alloc, x.sign, first)?);
    let (all, variables) = added_terms(site, first, variables, x.others.as_slice())?;
    Ok((sum_of(site.alloc, all)?, variables))
}

#[cycle(expression)]
fn added_terms(
    site: Site<'_>,
    first: Joined,
    variables: Variables,
    others: &[AddedTerm],
) -> Result<(Joined, Variables), Rejected>
    ensures { Judges (through (on spec.added_term_at site.entry) (first, variables) others.now) (result_map (λ p. (p.0, p.1)) result) }
{
    let mut so_far = (first, variables);
    for x in others {
        let (left, variables) = so_far;
        so_far = added_term(site, left, variables, x)?;
    }
    Ok(so_far)
}

#[cycle(expression)]
#[tactic(auto, unfolding(crate::specs::Expressions::added_term))]
fn added_term(
    site: Site<'_>,
    left: Joined,
    variables: Variables,
    x: &AddedTerm,
) -> Result<(Joined, Variables), Rejected>
    ensures { Judges (on spec.added_term_at site.entry (left, variables) x.now) (result_map (λ p. (p.0, p.1)) result) }
{
    if !may_join(add_joining(x.operator), &left) {
        drop(left);
        return Err(Rejected::Rule(broken(RuleCode::Types, x.span)));
    }
    let (right, variables) = term(site, variables, &x.term)?;
    let all = with_operand(site.alloc, add_joining(x.operator), x.span, left, right)?;
    Ok((all, variables))
}

#[cycle(expression)]
#[tactic(auto, unfolding(crate::specs::Expressions::term_rule))]
fn term(site: Site<'_>, variables: Variables, t: &Term) -> Result<(Operand, Variables), Rejected>
    ensures { Judges (on spec.term_at site.entry variables t.now) result }
{
    let (first, variables) = factor(site, variables, &t.first)?;
    let (all, variables) = next_factors(site, Joined::One(first), variables, t.others.as_slice())?;
    Ok((product_of(site.alloc, all)?, variables))
}

#[cycle(expression)]
fn next_factors(
    site: Site<'_>,
    first: Joined,
    variables: Variables,
    others: &[NextFactor],
) -> Result<(Joined, Variables), Rejected>
    ensures { Judges (through (on spec.next_factor_at site.entry) (first, variables) others.now) (result_map (λ p. (p.0, p.1)) result) }
{
    let mut so_far = (first, variables);
    for x in others {
        let (left, variables) = so_far;
        so_far = next_factor(site, left, variables, x)?;
    }
    Ok(so_far)
}

#[cycle(expression)]
#[tactic(auto, unfolding(crate::specs::Expressions::next_factor))]
fn next_factor(
    site: Site<'_>,
    left: Joined,
    variables: Variables,
    x: &NextFactor,
) -> Result<(Joined, Variables), Rejected>
    ensures { Judges (on spec.next_factor_at site.entry (left, variables) x.now) (result_map (λ p. (p.0, p.1)) result) }
{
    if !may_join(mul_joining(x.operator), &left) {
        drop(left);
        return Err(Rejected::Rule(broken(RuleCode::Types, x.span)));
    }
    let (right, variables) = factor(site, variables, &x.factor)?;
    let all = with_operand(site.alloc, mul_joining(x.operator), x.span, left, right)?;
    Ok((all, variables))
}

#[cycle(expression)]
#[tactic(auto, unfolding(crate::specs::Expressions::factor_rule))]
fn factor(
    site: Site<'_>,
    variables: Variables,
    f: &Factor,
) -> Result<(Operand, Variables), Rejected>
    ensures { Judges (on spec.factor_at site.entry variables f.now) result }
{
    match f {
        Factor::Integer(number, _) => {
            let value = TypedExpr::Constant(*number);
            Ok((Operand::Value(Basic::Integer, value), variables))
        }
        Factor::Text(chars, _) => Ok((Operand::Text(chars.copy(site.alloc)?), variables)),
        Factor::Truth(truth, _) => {
            let value = TypedExpr::Constant(truth_number(*truth));
            Ok((Operand::Value(Basic::Boolean, value), variables))
        }
        Factor::Value(d) => {
            let named = read(site.imports, site.scope, d)?;
            value_named(site, variables, named)
        }
        Factor::Call(d, actuals) => {
            let d = d.get();
            let actuals = actuals.as_slice();
            let guard = guard_in(site.scope, d, actuals);
            call_or_guard(site, variables, d, actuals, guard)
        }
        Factor::Parens(span, e) => nested(site, *span, variables, e.get()),
        Factor::Not(span, f) => {
            let (operand, variables) = deeper(site, *span, variables, f.get())?;
            Ok((negated(site.alloc, *span, operand)?, variables))
        }
    }
}

/// What looks like a call, and the name of the type where it is a guard.
#[cycle(expression)]
#[tactic(auto, unfolding(crate::specs::Expressions::call_or_guard))]
fn call_or_guard(
    site: Site<'_>,
    variables: Variables,
    d: &Written,
    actuals: &[Expr],
    guard: Option<NameOfType<'_>>,
) -> Result<(Operand, Variables), Rejected>
    ensures { Judges (on spec.call_or_guard_at site.entry variables d.now actuals.now (option_map written guard.entry)) result }
{
    match guard {
        None => {
            let function = procedure(site.imports, site.scope, d)?;
            call(site, variables, function, d.name.span, actuals)
        }
        Some(name) => {
            let variable = Lone {
                variable: d,
                guard: Some(name),
            };
            let (of, place, variables, _) = lone_read(site, variables, variable)?;
            Ok((operand_of_variable(&of, place)?, variables))
        }
    }
}

/// What a name stands for.
#[cycle(expression)]
#[tactic(auto, unfolding(crate::specs::Expressions::meant_rule))]
fn value_named(
    site: Site<'_>,
    variables: Variables,
    named: Named,
) -> Result<(Operand, Variables), Rejected>
    ensures { Judges (on spec.meant_at site.entry (meant named.entry) variables) result }
{
    match named {
        Named::Constant(constant) => Ok((operand_of_constant(site.alloc, constant)?, variables)),
        Named::InputDone => {
            let value = TypedExpr::InputDone;
            Ok((Operand::Value(Basic::Boolean, value), variables))
        }
        Named::Variable(of, variable, told, behind) => {
            let whole = (of.another()?, Designator::Whole(variable), variables, told);
            let (of, place, variables, _) = selected(site, whole, behind)?;
            Ok((operand_of_variable(&of, place)?, variables))
        }
    }
}

/// The variable that a name stands for, which is read, or a part of it. 12 at `span` where it is none.
#[cycle(expression)]
#[tactic(auto, unfolding(crate::specs::Expressions::variable_rule))]
fn variable_named(
    site: Site<'_>,
    variables: Variables,
    named: Named,
    span: Span,
) -> Result<Selected, Rejected>
    ensures { Judges (on spec.variable_at site.entry (meant named.entry) variables) result }
{
    match named {
        Named::Constant(_) | Named::InputDone => {
            Err(Rejected::Rule(broken(RuleCode::Types, span)))
        }
        Named::Variable(of, variable, told, behind) => {
            let whole = (of.another()?, Designator::Whole(variable), variables, told);
            selected(site, whole, behind)
        }
    }
}

/// A guard behind a variable that is read as actual parameters.
#[tactic(auto, unfolding(crate::specs::Expressions::after_guard))]
fn after_guard(
    site: Site<'_>,
    guard: Option<NameOfType<'_>>,
    at: Selected,
) -> Result<Selected, Rejected>
    ensures { Judges (on spec.after_guard_at site.entry (option_map written guard.entry) at) result }
{
    match guard {
        None => Ok(at),
        Some(name) => guarded(site, at, name),
    }
}

/// A variable alone, guarded or not, that is read.
#[cycle(expression)]
#[tactic(auto, unfolding(crate::specs::Expressions::lone_read))]
fn lone_read(site: Site<'_>, variables: Variables, x: Lone<'_>) -> Result<Selected, Rejected>
    ensures { Judges (on spec.lone_read_at site.entry variables (lone x.entry)) result }
{
    let named = read(site.imports, site.scope, x.variable)?;
    let at = variable_named(site, variables, named, x.variable.name.span)?;
    after_guard(site, x.guard, at)
}

/// What selectors select.
#[cycle(expression)]
fn selected(site: Site<'_>, whole: Selected, selectors: &[Selector]) -> Result<Selected, Rejected>
    ensures { Judges (through (on spec.selected_at site.entry) whole selectors.now) result }
{
    let mut so_far = whole;
    for selector in selectors {
        so_far = next_selected(site, so_far, selector)?;
    }
    Ok(so_far)
}

/// The type of a field, and its place.
fn field_at(
    site: Site<'_>,
    of: &ObType,
    name: &Ident,
    place: Designator,
) -> Result<(ObType, Designator), Rejected>
    ensures { Judges (selecting.field_of site.entry.scope.now of.now name.now.name place) result }
{
    let (field, part) = field_of(site.alloc, site.scope, of, name, place)?;
    match field.another() {
        Ok(field) => Ok((field, part)),
        Err(_) => {
            drop(part);
            Err(Rejected::Memory)
        }
    }
}

/// What the name of a field selects.
fn field_selected(site: Site<'_>, at: Selected, name: &Ident) -> Result<Selected, Rejected>
    ensures { Judges (Then (selecting.field_of site.entry.scope.now at.0 name.now.name at.1) (λ p. Given (p.0, p.1, at.2, false))) result }
{
    let (of, place, variables, _) = at;
    let (field, part) = field_at(site, &of, name, place)?;
    Ok((field, part, variables, false))
}

/// What one selector more selects.
#[cycle(expression)]
#[tactic(auto, unfolding(ob_check_operand::specs::Selecting::selected))]
fn next_selected(site: Site<'_>, at: Selected, selector: &Selector) -> Result<Selected, Rejected>
    ensures { Judges (on spec.selected_at site.entry at selector.now) result }
{
    match selector {
        Selector::Field(name) => field_selected(site, at, name),
        Selector::Index(indexes) => elements(site, at, indexes.as_slice()),
        Selector::Guard(name) => guarded(site, at, name_of_type(name)),
    }
}

/// What indexes select.
#[cycle(expression)]
fn elements(site: Site<'_>, at: Selected, indexes: &[Expr]) -> Result<Selected, Rejected>
    ensures { Judges (through (on spec.indexed_at site.entry) at indexes.now) result }
{
    let mut so_far = at;
    for e in indexes {
        so_far = element(site, so_far, e)?;
    }
    Ok(so_far)
}

/// The element of an array at a place. A trap names the line.
fn element_at(
    alloc: Global,
    place: Designator,
    line: usize,
    index: TypedExpr,
) -> Result<Designator, Rejected>
    ensures { Judges (Given (designator.Element place line index)) result }
{
    let array = Boxed::new(alloc, place)?;
    Ok(Designator::Element(array, line, Boxed::new(alloc, index)?))
}

/// What one index more selects.
#[cycle(expression)]
#[tactic(auto, unfolding(ob_check_operand::specs::Selecting::indexed))]
fn element(site: Site<'_>, at: Selected, e: &Expr) -> Result<Selected, Rejected>
    ensures { Judges (on spec.indexed_at site.entry at e.now) result }
{
    let (array, place, variables, _) = at;
    let span = e.first_token();
    let of = element_of(&array, span)?.another()?;
    drop(array);
    let (operand, variables) = nested(site, span, variables, e)?;
    match number_of(operand) {
        Some(index) => {
            let part = element_at(site.alloc, place, span.line as usize, index)?;
            Ok((of, part, variables, false))
        }
        None => {
            drop(place);
            Err(Rejected::Rule(broken(RuleCode::Types, span)))
        }
    }
}

/// A call that gives a value. What is called stands at `span`.
#[cycle(expression)]
#[tactic(auto, unfolding(crate::specs::Expressions::call_rule))]
fn call(
    site: Site<'_>,
    variables: Variables,
    function: Called,
    span: Span,
    actuals: &[Expr],
) -> Result<(Operand, Variables), Rejected>
    ensures { Judges (on spec.call_at site.entry (callable function.entry) span.line variables actuals.now) result }
{
    match function {
        Called::Procedure(signature, callee) => {
            function_call(site, variables, signature, callee, span, actuals)
        }
        Called::Function(function) => predeclared_call(site, variables, function, span, actuals),
        Called::Proper(_) | Called::Input(_) | Called::Output(_) => {
            Err(Rejected::Rule(broken(RuleCode::Parameters, span)))
        }
    }
}

#[cycle(expression)]
#[tactic(auto, unfolding(crate::specs::Expressions::function_rule))]
fn function_call(
    site: Site<'_>,
    variables: Variables,
    signature: &Signature,
    callee: Callee,
    span: Span,
    actuals: &[Expr],
) -> Result<(Operand, Variables), Rejected>
    ensures { Judges (on spec.function_at site.entry signature.now.result callee signature.now.formals span.line variables actuals.now) result }
{
    match signature.result {
        None => Err(Rejected::Rule(broken(RuleCode::Parameters, span))),
        Some(basic) => {
            let formals = signature.formals.as_slice();
            let (passed, variables) = all_passed(site, formals, span, variables, actuals)?;
            let value = TypedExpr::Function(callee, span.line as usize, passed);
            Ok((Operand::Value(basic, value), variables))
        }
    }
}

#[cycle(expression)]
#[tactic(auto, unfolding(crate::specs::Expressions::predeclared_rule))]
fn predeclared_call(
    site: Site<'_>,
    variables: Variables,
    function: Function,
    span: Span,
    actuals: &[Expr],
) -> Result<(Operand, Variables), Rejected>
    ensures { Judges (on spec.predeclared_at site.entry function span.line variables actuals.now) result }
{
    match actuals {
        [] => Err(Rejected::Rule(broken(RuleCode::Parameters, span))),
        [one, behind @ ..] => {
            let alone = is_alone(one);
            let (value, variables) = nested(site, span, variables, one)?;
            if !takes(function, alone, &value) {
                drop(value);
                return Err(Rejected::Rule(broken(RuleCode::Parameters, one.first_token())));
            }
            one_taken(site, function, alone, (value, variables), span, behind)
        }
    }
}

/// A call of a function that is declared before any module, after its first actual parameter.
#[cycle(expression)]
#[tactic(auto, unfolding(crate::specs::Expressions::one_taken, crate::specs::Expressions::two_taken))]
fn one_taken(
    site: Site<'_>,
    function: Function,
    alone: bool,
    first: (Operand, Variables),
    span: Span,
    actuals: &[Expr],
) -> Result<(Operand, Variables), Rejected>
    ensures { Judges (on spec.one_taken_at site.entry function span.line alone first actuals.now) result }
{
    let (left, variables) = first;
    match actuals {
        [] => {
            let value = one_of(site.alloc, function, span, alone, left)?;
            Ok((value, variables))
        }
        [two, behind @ ..] => {
            let second = two.first_token();
            if shift_of(function).is_none() {
                drop(left);
                return Err(Rejected::Rule(broken(RuleCode::Parameters, second)));
            }
            let (right, variables) = nested(site, span, variables, two)?;
            match behind {
                [] => {
                    let value = two_of(site.alloc, function, span, left, right, second)?;
                    Ok((value, variables))
                }
                [three, ..] => {
                    // By calls, since both have many parts to be let go.
                    drop(left);
                    drop(right);
                    Err(Rejected::Rule(broken(RuleCode::Parameters, three.first_token())))
                }
            }
        }
    }
}

/// The actual parameters of a call, as many as there are formal ones.
#[cycle(expression)]
#[tactic(auto, unfolding(crate::specs::Expressions::all_passed, crate::specs::Expressions::none_left))]
pub fn all_passed(
    site: Site<'_>,
    formals: &[Formal],
    span: Span,
    variables: Variables,
    actuals: &[Expr],
) -> Result<(Items<Argument>, Variables), Rejected>
    ensures { Judges (spec.all_passed (on spec.passed_at site.entry) variables formals.now actuals.now) result }
{
    let (passed, variables, left) = passed_in_turn(site, formals, span, variables, actuals)?;
    match left {
        [] => Ok((passed, variables)),
        [_, ..] => Err(Rejected::Rule(broken(RuleCode::Parameters, span))),
    }
}

/// Actual parameters for the first formal ones, and those that are left.
#[cycle(expression)]
fn passed_in_turn<'a>(
    site: Site<'_>,
    formals: &'a [Formal],
    span: Span,
    variables: Variables,
    actuals: &[Expr],
) -> Result<(Items<Argument>, Variables, &'a [Formal]), Rejected>
    ensures { Judges (through (on spec.next_passed_at site.entry) ([], variables, formals.now) actuals.now) (result_map (λ p. (p.0, p.1, p.2.now)) result) }
{
    let mut so_far = (Items::new(site.alloc), variables, formals);
    for e in actuals {
        let (passed, variables, left) = so_far;
        so_far = next_passed(site, passed, variables, left, span, e)?;
    }
    Ok(so_far)
}

/// One actual parameter more.
#[cycle(expression)]
#[tactic(auto, unfolding(crate::specs::Expressions::one_passed))]
fn next_passed<'a>(
    site: Site<'_>,
    so_far: Items<Argument>,
    variables: Variables,
    formals: &'a [Formal],
    span: Span,
    e: &Expr,
) -> Result<(Items<Argument>, Variables, &'a [Formal]), Rejected>
    ensures { Judges (on spec.next_passed_at site.entry (so_far, variables, formals.now) e.now) (result_map (λ p. (p.0, p.1, p.2.now)) result) }
{
    match formals {
        [] => Err(Rejected::Rule(broken(RuleCode::Parameters, e.first_token()))),
        [formal, left @ ..] => {
            let (argument, variables) = actual(site, variables, formal, span, e)?;
            let mut passed = so_far;
            passed.push(argument)?;
            Ok((passed, variables, left))
        }
    }
}

/// The actual parameter for a formal one, in a list that opens at `span`.
#[cycle(expression)]
#[tactic(auto, unfolding(crate::specs::Expressions::passed_at))]
pub fn actual(
    site: Site<'_>,
    variables: Variables,
    formal: &Formal,
    span: Span,
    e: &Expr,
) -> Result<(Argument, Variables), Rejected>
    ensures { Judges (on spec.passed_at site.entry formal.now variables e.now) result }
{
    let inside = open(site.levels, span)?;
    actual_of_kind(
        Site {
            levels: inside,
            ..site
        },
        variables,
        formal.kind,
        &formal.of,
        e,
    )
}

#[cycle(expression)]
#[tactic(auto, unfolding(crate::specs::Expressions::actual_rule))]
fn actual_of_kind(
    site: Site<'_>,
    variables: Variables,
    kind: FormalKind,
    formal: &ObType,
    e: &Expr,
) -> Result<(Argument, Variables), Rejected>
    ensures { Judges (spec.actual_rule (on spec.expr_within site.entry) (on spec.target_within site.entry) site.entry.scope.now kind formal.now variables e.now) result }
{
    match kind {
        FormalKind::Variable => {
            let variable = lone_variable(site.scope, e);
            variable_actual(site, variables, formal, variable, e.first_token())
        }
        FormalKind::Value => value_actual(site, variables, formal, e),
    }
}

#[cycle(expression)]
#[tactic(auto, unfolding(crate::specs::Expressions::variable_actual))]
fn variable_actual(
    site: Site<'_>,
    variables: Variables,
    formal: &ObType,
    variable: Option<Lone<'_>>,
    span: Span,
) -> Result<(Argument, Variables), Rejected>
    ensures { Judges (spec.variable_actual (on spec.target_within site.entry) formal.now variables (option_map lone variable.entry)) result }
{
    match variable {
        None => Err(Rejected::Rule(broken(RuleCode::ReadOnly, span))),
        Some(variable) => {
            let at = lone_written(site, variables, variable)?;
            variable_argument(site.alloc, FormalKind::Variable, formal, at, span)
        }
    }
}

#[cycle(expression)]
#[tactic(auto, unfolding(crate::specs::Expressions::value_actual, crate::specs::Expressions::expr_at))]
fn value_actual(
    site: Site<'_>,
    variables: Variables,
    formal: &ObType,
    e: &Expr,
) -> Result<(Argument, Variables), Rejected>
    ensures { Judges (spec.value_actual (on spec.expr_within site.entry) site.entry.scope.now formal.now variables e.now) result }
{
    let (operand, variables) = expr(site, variables, e)?;
    value_passed(
        site.alloc,
        variables,
        formal,
        lone_variable(site.scope, e).is_some(),
        operand,
        e.first_token(),
    )
}

/// A variable that may be written, or a part of one.
#[cycle(expression)]
#[tactic(auto, unfolding(crate::specs::Expressions::target_at, crate::specs::Expressions::target_rule))]
pub fn target(site: Site<'_>, variables: Variables, d: &Written) -> Result<Selected, Rejected>
    ensures { Judges (on spec.target_at site.entry variables d.now) result }
{
    let target = written(site.imports, site.scope, d)?;
    let whole = (
        target.of.another()?,
        Designator::Whole(target.variable),
        variables,
        target.told,
    );
    selected(site, whole, target.behind)
}

/// A variable alone, guarded or not, that may be written.
#[cycle(expression)]
#[tactic(auto, unfolding(crate::specs::Expressions::lone_written, crate::specs::Expressions::target_at))]
fn lone_written(site: Site<'_>, variables: Variables, x: Lone<'_>) -> Result<Selected, Rejected>
    ensures { Judges (on spec.target_within site.entry variables (lone x.entry)) result }
{
    let at = target(site, variables, x.variable)?;
    after_guard(site, x.guard, at)
}

#[cycle(expression)]
#[tactic(auto, unfolding(crate::specs::Expressions::inner_at, crate::specs::Expressions::expr_at))]
fn nested(
    site: Site<'_>,
    span: Span,
    variables: Variables,
    e: &Expr,
) -> Result<(Operand, Variables), Rejected>
    ensures { Judges (on spec.inner_at site.entry variables e.now) result }
{
    let inside = open(site.levels, span)?;
    expr(
        Site {
            levels: inside,
            ..site
        },
        variables,
        e,
    )
}

#[cycle(expression)]
#[tactic(auto, unfolding(crate::specs::Expressions::deeper_at))]
fn deeper(
    site: Site<'_>,
    span: Span,
    variables: Variables,
    f: &Factor,
) -> Result<(Operand, Variables), Rejected>
    ensures { Judges (on spec.deeper_at site.entry variables f.now) result }
{
    let inside = open(site.levels, span)?;
    factor(
        Site {
            levels: inside,
            ..site
        },
        variables,
        f,
    )
}
