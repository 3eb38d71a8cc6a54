//! Constants. Terms of a sum and factors of a product each have a loop and a step of their own, as in ob_check_expr and for the
//! same reason.

ghost use Rattle.std.specs.Prelude.{◌≡◌, suc, option_copied, OnErr, IfErr, IfOk};
ghost use Rattle.ob_check_scope.specs.declared.rule.RuleCode.TheVariants as code;
ghost use Rattle.ob_tree.specs.declared.tree.Designator.{out-Designator};
ghost use Rattle.ob_tree.specs.declared.tree.Selector.{out-Selector};
ghost use Rattle.ob_check_scope.specs.Rule.{Judges, IsBroken, there, through};
ghost use Rattle.ob_check_scope.specs.Sites.{on};
ghost use Rattle.ob_check_const.specs.Constants as spec;
ghost use Rattle.ob_check_const.specs.Folding as folding;

use crate::folding::{
    Folded, adds, constant_of, folded_of, is_shift, multiplies, not_of, one_of, product_of,
    related_of, relates, sign_of, sum_of, takes, two_of,
};
use ob_check_scope::block::Entry;
use ob_check_scope::imports::Imports;
use ob_check_scope::predeclared::{
    Function, InputName, OutputName, Predeclared, absent, input_named, is_input, is_output,
    output_named,
};
use ob_check_scope::rejected::{Rejected, broken, open};
use ob_check_scope::rule::RuleCode;
use ob_check_scope::scope::Scope;
use ob_check_scope::site::Site;
use ob_scan::Span;
use ob_tree::tree::{
    AddedTerm, Designator, Expr, Factor, NextFactor, Related, Relation, Selector, Sign, Simple,
    Term,
};
use ob_types::{Constant, Object};
use std::alloc::Global;

/// What is imported under a name, with selectors after it.
#[tactic(auto, unfolding(crate::specs::Constants::imported))]
fn imported(
    alloc: Global,
    object: &Object,
    behind: &[Selector],
    span: Span,
) -> Result<Folded, Rejected>
    ensures { Judges (spec.imported object.now behind.now) result }
{
    match (object, behind) {
        (Object::Constant(constant), []) => Ok(folded_of(alloc, constant)?),
        (Object::Constant(_), [_, ..]) => Err(Rejected::Rule(broken(RuleCode::Types, span))),
        (Object::Variable(_), _) => Err(Rejected::Rule(broken(RuleCode::NotConstant, span))),
        (Object::TypeName(_) | Object::Procedure(_), _) => {
            Err(Rejected::Rule(broken(RuleCode::Types, span)))
        }
    }
}

/// The first selector after the name of a loaded module, and those after it.
#[tactic(auto, unfolding(crate::specs::Constants::member))]
fn member(
    alloc: Global,
    modules: &Imports,
    place: usize,
    selector: &Selector,
    behind: &[Selector],
    span: Span,
) -> Result<Folded, Rejected>
    ensures { Judges (spec.member modules.now place selector.now behind.now) result }
{
    match selector {
        Selector::Field(field) => match modules.exported_at(place, &field.name) {
            Some(object) => imported(alloc, object, behind, field.span),
            None => Err(Rejected::Rule(broken(RuleCode::NotExported, field.span))),
        },
        Selector::Index(_) | Selector::Guard(_) => {
            Err(Rejected::Rule(broken(RuleCode::Types, span)))
        }
    }
}

fn no_input(name: InputName) -> RuleCode
    ensures { result ≡ spec.no_input name }
{
    match name {
        InputName::Unknown => RuleCode::NotExported,
        InputName::Done => RuleCode::NotConstant,
        _ => RuleCode::Types,
    }
}

fn no_output(name: OutputName) -> RuleCode
    ensures { result ≡ spec.no_output name }
{
    match name {
        OutputName::Unknown => RuleCode::NotExported,
        _ => RuleCode::Types,
    }
}

/// A declared name with selectors after it.
#[tactic(auto, unfolding(crate::specs::Constants::named, crate::specs::Constants::input_member, crate::specs::Constants::output_member))]
fn named(
    alloc: Global,
    modules: &Imports,
    entry: &Entry,
    selectors: &[Selector],
    span: Span,
) -> Result<Folded, Rejected>
    ensures { Judges (spec.named modules.now entry.now selectors.now) result }
{
    match (entry, selectors) {
        (Entry::Constant(constant), []) => Ok(folded_of(alloc, constant)?),
        (Entry::Variable(_, _), _) => Err(Rejected::Rule(broken(RuleCode::NotConstant, span))),
        (Entry::Module(_, place), [first, behind @ ..]) => {
            member(alloc, modules, *place, first, behind, span)
        }
        (Entry::In, [Selector::Field(field), ..]) => {
            let code = no_input(input_named(&field.name));
            Err(Rejected::Rule(broken(code, field.span)))
        }
        (Entry::Out, [Selector::Field(field), ..]) => {
            let code = no_output(output_named(&field.name));
            Err(Rejected::Rule(broken(code, field.span)))
        }
        _ => Err(Rejected::Rule(broken(RuleCode::Types, span))),
    }
}

#[tactic(auto, unfolding(crate::specs::Constants::value_named))]
fn value_named(
    alloc: Global,
    modules: &Imports,
    scope: &Scope,
    d: &Designator,
) -> Result<Folded, Rejected>
    ensures { Judges (spec.value_named modules.now scope.now d.now) result }
{
    match scope.seen(&d.name.name) {
        Some(entry) => named(alloc, modules, entry, d.selectors.as_slice(), d.name.span),
        None => Err(Rejected::Rule(broken(absent(scope.outer(&d.name.name)), d.name.span))),
    }
}

/// The function that a name is which nothing declares.
#[tactic(auto, unfolding(crate::specs::Constants::function_called))]
fn function_called(predeclared: Predeclared, span: Span) -> Result<Function, Rejected>
    ensures { Judges (spec.function_called predeclared) result }
{
    match predeclared {
        Predeclared::Function(function) => Ok(function),
        Predeclared::Procedure(_) => Err(Rejected::Rule(broken(RuleCode::Parameters, span))),
        _ => Err(Rejected::Rule(broken(absent(predeclared), span))),
    }
}

/// What is broken where something of another module is called.
fn no_call(exported: bool) -> RuleCode
    ensures { result ≡ spec.no_call exported }
{
    if exported {
        RuleCode::NotConstant
    } else {
        RuleCode::NotExported
    }
}

fn calls_object(modules: &Imports, place: usize, selector: &Selector) -> RuleCode
    ensures { result ≡ spec.calls_object modules.now place (out-Selector selector.now) }
{
    match selector {
        Selector::Field(field) => no_call(modules.exported_at(place, &field.name).is_some()),
        Selector::Index(_) | Selector::Guard(_) => RuleCode::NotConstant,
    }
}

fn calls_input(selector: &Selector) -> RuleCode
    ensures { result ≡ spec.calls_input (out-Selector selector.now) }
{
    match selector {
        Selector::Field(field) => no_call(is_input(input_named(&field.name))),
        Selector::Index(_) | Selector::Guard(_) => RuleCode::NotConstant,
    }
}

fn calls_output(selector: &Selector) -> RuleCode
    ensures { result ≡ spec.calls_output (out-Selector selector.now) }
{
    match selector {
        Selector::Field(field) => no_call(is_output(output_named(&field.name))),
        Selector::Index(_) | Selector::Guard(_) => RuleCode::NotConstant,
    }
}

/// What is broken where a declared name is called.
#[tactic(auto, unfolding(crate::specs::Constants::entry_called))]
fn entry_called(modules: &Imports, entry: &Entry, selectors: &[Selector]) -> RuleCode
    ensures { result ≡ spec.entry_called modules.now entry.now selectors.now }
{
    match (entry, selectors) {
        (Entry::Module(_, place), [first, ..]) => calls_object(modules, *place, first),
        (Entry::In, [first, ..]) => calls_input(first),
        (Entry::Out, [first, ..]) => calls_output(first),
        _ => RuleCode::NotConstant,
    }
}

/// Where a fault of a name with selectors after it stands: at the name that its module lacks, or else at the first token.
fn place_of(code: RuleCode, selectors: &[Selector], span: Span) -> Span {
    match (code, selectors) {
        (RuleCode::NotExported, [Selector::Field(field), ..]) => field.span,
        _ => span,
    }
}

/// The function that a name stands for, where nothing declares it.
#[tactic(auto, unfolding(crate::specs::Constants::function_found))]
fn function_found(
    modules: &Imports,
    entry: Option<&Entry>,
    selectors: &[Selector],
    predeclared: Predeclared,
    span: Span,
) -> Result<Function, Rejected>
    ensures { Judges (spec.function_found modules.now (option_copied entry.entry) selectors.now predeclared) result }
{
    match (entry, selectors) {
        (Some(entry), _) => {
            let code = entry_called(modules, entry, selectors);
            Err(Rejected::Rule(broken(code, place_of(code, selectors, span))))
        }
        (None, []) => function_called(predeclared, span),
        (None, [_, ..]) => Err(Rejected::Rule(broken(absent(predeclared), span))),
    }
}

fn function_of(modules: &Imports, scope: &Scope, d: &Designator) -> Result<Function, Rejected>
    ensures { Judges (spec.function_of modules.now scope.now d.now) result }
{
    function_found(
        modules,
        scope.seen(&d.name.name),
        d.selectors.as_slice(),
        scope.outer(&d.name.name),
        d.name.span,
    )
}

/// What a rule gave, or the fault of types that don't fit.
fn fitting(value: Option<Folded>, code: RuleCode, span: Span) -> Result<Folded, Rejected>
    ensures { Judges (there value code) result }
{
    match value {
        Some(value) => Ok(value),
        None => Err(Rejected::Rule(broken(code, span))),
    }
}

/// A value with a sign before it.
#[tactic(auto, unfolding(crate::specs::Constants::signed))]
fn signed(sign: Option<(Sign, Span)>, value: Folded) -> Result<Folded, Rejected>
    ensures { Judges (spec.signed sign value) result }
{
    match sign {
        None => Ok(value),
        Some((sign, span)) => fitting(sign_of(sign, &value), RuleCode::Types, span),
    }
}

/// Two sums with a relation between them, or one alone. A test of a type is no constant: 15 at the first token.
#[cycle(constant)]
#[tactic(auto, unfolding(crate::specs::Constants::expr_rule, crate::specs::Constants::expr_at, crate::specs::Constants::related))]
fn expr(site: Site<'_>, e: &Expr) -> Result<Folded, Rejected>
    ensures { Judges (on spec.expr_at site.entry e.now) result }
{
    match &e.right {
        None => simple(site, &e.left),
        Some(right) => match right.get() {
            Related::By(relation, span, right) => {
                let left = simple(site, &e.left)?;
                related(site, left, *relation, *span, right)
            }
            Related::Is(_, _) => {
                Err(Rejected::Rule(broken(RuleCode::NotConstant, e.first_token())))
            }
        },
    }
}

/// A relation of what stands before it to another sum.
#[cycle(constant)]
#[tactic(auto, unfolding(crate::specs::Constants::relation))]
fn related(
    site: Site<'_>,
    left: Folded,
    relation: Relation,
    span: Span,
    right: &Simple,
) -> Result<Folded, Rejected>
    ensures { Judges (spec.relation (on spec.inner_at site.entry) (on spec.deeper_at site.entry) site.entry.imports.now site.entry.scope.now left relation right.now) result }
{
    if !relates(relation, &left) {
        return Err(Rejected::Rule(broken(RuleCode::Types, span)));
    }
    let other = simple(site, right)?;
    fitting(related_of(relation, &left, &other), RuleCode::Types, span)
}

#[cycle(constant)]
#[tactic(auto, unfolding(crate::specs::Constants::simple_rule))]
fn simple(site: Site<'_>, x: &Simple) -> Result<Folded, Rejected>
    ensures { Judges (spec.simple_rule (on spec.inner_at site.entry) (on spec.deeper_at site.entry) site.entry.imports.now site.entry.scope.now x.now) result }
{
    let first = term(site, &x.first)?;
    let first = signed(x.sign, first)?;
    added_terms(site, first, x.others.as_slice())
}

#[cycle(constant)]
fn added_terms(site: Site<'_>, first: Folded, others: &[AddedTerm]) -> Result<Folded, Rejected>
    ensures { Judges (through (spec.added_term (on spec.inner_at site.entry) (on spec.deeper_at site.entry) site.entry.imports.now site.entry.scope.now) first others.now) result }
{
    let mut so_far = first;
    for x in others {
        so_far = added_term(site, so_far, x)?;
    }
    Ok(so_far)
}

#[cycle(constant)]
#[tactic(auto, unfolding(crate::specs::Constants::added_term))]
fn added_term(site: Site<'_>, left: Folded, x: &AddedTerm) -> Result<Folded, Rejected>
    ensures { Judges (spec.added_term (on spec.inner_at site.entry) (on spec.deeper_at site.entry) site.entry.imports.now site.entry.scope.now left x.now) result }
{
    if !adds(x.operator, &left) {
        return Err(Rejected::Rule(broken(RuleCode::Types, x.span)));
    }
    let right = term(site, &x.term)?;
    fitting(sum_of(x.operator, &left, &right), RuleCode::Types, x.span)
}

#[cycle(constant)]
#[tactic(auto, unfolding(crate::specs::Constants::term_rule))]
fn term(site: Site<'_>, t: &Term) -> Result<Folded, Rejected>
    ensures { Judges (spec.term_rule (on spec.inner_at site.entry) (on spec.deeper_at site.entry) site.entry.imports.now site.entry.scope.now t.now) result }
{
    let first = factor(site, &t.first)?;
    next_factors(site, first, t.others.as_slice())
}

#[cycle(constant)]
fn next_factors(site: Site<'_>, first: Folded, others: &[NextFactor]) -> Result<Folded, Rejected>
    ensures { Judges (through (spec.next_factor (on spec.inner_at site.entry) (on spec.deeper_at site.entry) site.entry.imports.now site.entry.scope.now) first others.now) result }
{
    let mut so_far = first;
    for x in others {
        so_far = next_factor(site, so_far, x)?;
    }
    Ok(so_far)
}

#[cycle(constant)]
#[tactic(auto, unfolding(crate::specs::Constants::next_factor))]
fn next_factor(site: Site<'_>, left: Folded, x: &NextFactor) -> Result<Folded, Rejected>
    ensures { Judges (spec.next_factor (on spec.inner_at site.entry) (on spec.deeper_at site.entry) site.entry.imports.now site.entry.scope.now left x.now) result }
{
    if !multiplies(x.operator, &left) {
        return Err(Rejected::Rule(broken(RuleCode::Types, x.span)));
    }
    let right = factor(site, &x.factor)?;
    fitting(
        product_of(x.operator, &left, &right),
        RuleCode::Types,
        x.span,
    )
}

#[cycle(constant)]
#[tactic(auto, unfolding(crate::specs::Constants::factor_rule))]
fn factor(site: Site<'_>, f: &Factor) -> Result<Folded, Rejected>
    ensures { Judges (spec.factor_rule (on spec.inner_at site.entry) (on spec.deeper_at site.entry) site.entry.imports.now site.entry.scope.now f.now) result }
{
    match f {
        Factor::Integer(number, _) => Ok(Folded::Integer(Some(*number))),
        Factor::Text(chars, _) => Ok(Folded::Text(chars.copy(site.alloc)?)),
        Factor::Truth(truth, _) => Ok(Folded::Boolean(Some(*truth))),
        Factor::Value(d) => value_named(site.alloc, site.imports, site.scope, d),
        Factor::Call(d, actuals) => {
            let d = d.get();
            let function = function_of(site.imports, site.scope, d)?;
            called(site, function, actuals.as_slice(), d.name.span)
        }
        Factor::Parens(span, e) => nested(site, *span, e.get()),
        Factor::Not(span, f) => {
            let value = deeper(site, *span, f.get())?;
            fitting(not_of(&value), RuleCode::Types, *span)
        }
    }
}

/// A call of a function. Its name stands at `span`.
#[cycle(constant)]
#[tactic(auto, unfolding(crate::specs::Constants::called))]
fn called(
    site: Site<'_>,
    function: Function,
    actuals: &[Expr],
    span: Span,
) -> Result<Folded, Rejected>
    ensures { Judges (spec.called (on spec.inner_at site.entry) function actuals.now) result }
{
    match (function, actuals) {
        (Function::Len, _) => Err(Rejected::Rule(broken(RuleCode::NotConstant, span))),
        (_, []) => Err(Rejected::Rule(broken(RuleCode::Parameters, span))),
        (_, [one, behind @ ..]) => {
            let value = nested(site, span, one)?;
            if !takes(function, &value) {
                return Err(Rejected::Rule(broken(RuleCode::Parameters, one.first_token())));
            }
            one_called(site, function, &value, behind, span)
        }
    }
}

/// A call of a function, after its first actual parameter.
#[cycle(constant)]
#[tactic(auto, unfolding(crate::specs::Constants::one_called, crate::specs::Constants::two_called))]
fn one_called(
    site: Site<'_>,
    function: Function,
    left: &Folded,
    actuals: &[Expr],
    span: Span,
) -> Result<Folded, Rejected>
    ensures { Judges (spec.one_called (on spec.inner_at site.entry) function left.now actuals.now) result }
{
    match actuals {
        [] => fitting(one_of(function, left), RuleCode::Parameters, span),
        [two, behind @ ..] => {
            if !is_shift(function) {
                return Err(Rejected::Rule(broken(RuleCode::Parameters, two.first_token())));
            }
            let right = nested(site, span, two)?;
            match behind {
                [] => fitting(
                    two_of(function, left, &right),
                    RuleCode::Parameters,
                    two.first_token(),
                ),
                [three, ..] => Err(Rejected::Rule(broken(
                    RuleCode::Parameters,
                    three.first_token(),
                ))),
            }
        }
    }
}

#[cycle(constant)]
#[tactic(auto, unfolding(crate::specs::Constants::inner_at, crate::specs::Constants::expr_at))]
fn nested(site: Site<'_>, span: Span, e: &Expr) -> Result<Folded, Rejected>
    ensures { Judges (on spec.inner_at site.entry e.now) result }
{
    let inside = open(site.levels, span)?;
    expr(
        Site {
            levels: inside,
            ..site
        },
        e,
    )
}

#[cycle(constant)]
#[tactic(auto, unfolding(crate::specs::Constants::deeper_at))]
fn deeper(site: Site<'_>, span: Span, f: &Factor) -> Result<Folded, Rejected>
    ensures { Judges (on spec.deeper_at site.entry f.now) result }
{
    let inside = open(site.levels, span)?;
    factor(
        Site {
            levels: inside,
            ..site
        },
        f,
    )
}

/// The constant that an expression is, whose evaluation doesn't trap. The fault stands at its first token where it does.
#[tactic(auto, unfolding(crate::specs::Constants::constant_at))]
pub fn constant(site: Site<'_>, e: &Expr) -> Result<Constant, Rejected>
    ensures { Judges (on spec.constant_at site.entry e.now) result }
{
    let value = expr(site, e)?;
    match constant_of(value) {
        Some(constant) => Ok(constant),
        None => Err(Rejected::Rule(broken(RuleCode::NotConstant, e.first_token()))),
    }
}
