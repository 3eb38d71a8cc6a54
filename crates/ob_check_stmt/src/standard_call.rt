//! Calls of In and Out, and of the procedures that are declared before any module.
//!
//! A procedure of Out has a function of its own, with the name of its rule in specs/StandardCalls. They take their actual
//! parameters in the same lines, and differ in what each parameter has to be.

ghost use Rattle.std.specs.Prelude.{◌≡◌, IfOk};
ghost use Rattle.ob_check_scope.specs.Rule.{Judges};
ghost use Rattle.ob_check_scope.specs.Sites.{on};
ghost use Rattle.ob_mean.specs.declared.statement.OutputCall.TheVariants as output;
ghost use Rattle.ob_check_stmt.specs.StandardCalls as spec;

use ob_base::{Boxed, Items};
use ob_check_expr::{actual, number, truth};
use ob_check_scope::Site;
use ob_check_scope::predeclared::{InputName, OutputName, ProperProcedure};
use ob_check_scope::rejected::{Rejected, broken, open};
use ob_check_scope::rule::RuleCode;
use ob_check_strings::Variables;
use ob_mean::{Action, Adjustment, Argument, Designator, InputCall, OutputCall, Reader, TypedExpr};
use ob_scan::Span;
use ob_tree::tree::Expr;
use ob_types::{Basic, Formal, FormalKind, ObType};
use std::alloc::{AllocError, Global};

fn value_formal(basic: Basic) -> Formal
    ensures { result ≡ spec.value_formal basic }
{
    Formal {
        kind: FormalKind::Value,
        of: ObType::basic(basic),
    }
}

fn variable_formal(basic: Basic) -> Formal
    ensures { result ≡ spec.variable_formal basic }
{
    Formal {
        kind: FormalKind::Variable,
        of: ObType::basic(basic),
    }
}

/// `VAR s: ARRAY OF CHAR`.
fn text_variable(alloc: Global) -> Result<Formal, AllocError>
    ensures { IfOk result (λ f. f ≡ spec.text_variable) }
{
    let of = ObType::open(alloc, ObType::basic(Basic::Char))?;
    Ok(Formal {
        kind: FormalKind::Variable,
        of,
    })
}

/// `s: ARRAY OF CHAR`.
fn text_value(alloc: Global) -> Result<Formal, AllocError>
    ensures { IfOk result (λ f. f ≡ spec.text_value) }
{
    let of = ObType::open(alloc, ObType::basic(Basic::Char))?;
    Ok(Formal {
        kind: FormalKind::Value,
        of,
    })
}

/// What a reader sets.
fn reader_formal(alloc: Global, reader: Reader) -> Result<Formal, AllocError>
    ensures { IfOk result (λ f. f ≡ spec.reader_formal reader) }
{
    match reader {
        Reader::Char => Ok(variable_formal(Basic::Char)),
        Reader::Int => Ok(variable_formal(Basic::Integer)),
        Reader::String | Reader::Name => text_variable(alloc),
    }
}

/// The place that is passed to a VAR or structured parameter.
#[tactic(auto, unfolding(crate::specs::StandardCalls::place_passed))]
fn place_passed(argument: Argument, span: Span) -> Result<Designator, Rejected>
    ensures { Judges (spec.place_passed argument) result }
{
    match argument {
        Argument::Place(place) => Ok(place),
        Argument::Open(place) => Ok(place),
        _ => Err(Rejected::Rule(broken(RuleCode::Parameters, span))),
    }
}

/// The value that is passed to a scalar value parameter.
#[tactic(auto, unfolding(crate::specs::StandardCalls::value_passed))]
fn value_passed(argument: Argument, span: Span) -> Result<TypedExpr, Rejected>
    ensures { Judges (spec.value_passed argument) result }
{
    match argument {
        Argument::Value(value) => Ok(value),
        _ => Err(Rejected::Rule(broken(RuleCode::Parameters, span))),
    }
}

/// An action, where no actual parameter is left.
#[tactic(auto, unfolding(crate::specs::StandardCalls::none_left))]
fn none_left(
    action: Action,
    variables: Variables,
    actuals: &[Expr],
) -> Result<(Action, Variables), Rejected>
    ensures { Judges (spec.none_left action variables actuals.now) result }
{
    match actuals {
        [] => Ok((action, variables)),
        [e, ..] => {
            // By calls, since both have many parts to be let go.
            drop(action);
            drop(variables);
            Err(Rejected::Rule(broken(RuleCode::Parameters, e.first_token())))
        }
    }
}

/// An action without parameters.
#[tactic(auto, unfolding(crate::specs::StandardCalls::without_actuals))]
fn without_actuals(
    action: Action,
    variables: Variables,
    actuals: &Option<Items<Expr>>,
) -> Result<(Action, Variables), Rejected>
    ensures { Judges (spec.without_actuals action variables actuals.now) result }
{
    match actuals {
        None => Ok((action, variables)),
        Some(actuals) => none_left(action, variables, actuals.as_slice()),
    }
}

#[tactic(auto, unfolding(crate::specs::StandardCalls::number_inside))]
fn number_inside(
    site: Site<'_>,
    variables: Variables,
    e: &Expr,
) -> Result<(TypedExpr, Variables), Rejected>
    ensures { Judges (on spec.number_inside site.entry variables e.now) result }
{
    let inside = open(site.levels, e.first_token())?;
    number(
        Site {
            levels: inside,
            ..site
        },
        variables,
        e,
    )
}

#[tactic(auto, unfolding(crate::specs::StandardCalls::truth_inside))]
fn truth_inside(
    site: Site<'_>,
    variables: Variables,
    e: &Expr,
) -> Result<(TypedExpr, Variables), Rejected>
    ensures { Judges (on spec.truth_inside site.entry variables e.now) result }
{
    let inside = open(site.levels, e.first_token())?;
    truth(
        Site {
            levels: inside,
            ..site
        },
        variables,
        e,
    )
}

/// An actual parameter that is a place.
#[tactic(auto, unfolding(crate::specs::StandardCalls::place_at))]
fn place(
    site: Site<'_>,
    variables: Variables,
    formal: &Formal,
    e: &Expr,
) -> Result<(Designator, Variables), Rejected>
    ensures { Judges (on spec.place_at site.entry variables formal.now e.now) result }
{
    let (argument, variables) = actual(site, variables, formal, e.first_token(), e)?;
    let place = place_passed(argument, e.first_token())?;
    Ok((place, variables))
}

/// An actual parameter that is a value.
#[tactic(auto, unfolding(crate::specs::StandardCalls::scalar_at))]
fn scalar(
    site: Site<'_>,
    variables: Variables,
    basic: Basic,
    e: &Expr,
) -> Result<(TypedExpr, Variables), Rejected>
    ensures { Judges (on spec.scalar_at site.entry variables basic e.now) result }
{
    let formal = value_formal(basic);
    let (argument, variables) = actual(site, variables, &formal, e.first_token(), e)?;
    let value = value_passed(argument, e.first_token())?;
    Ok((value, variables))
}

/// A call of a procedure of In that reads.
#[tactic(auto, unfolding(crate::specs::StandardCalls::read_call))]
fn read_call(
    site: Site<'_>,
    reader: Reader,
    variables: Variables,
    actuals: &Option<Items<Expr>>,
    span: Span,
) -> Result<(Action, Variables), Rejected>
    ensures { Judges (on spec.read_call site.entry reader variables actuals.now) result }
{
    let Some(actuals) = actuals else {
        return Err(Rejected::Rule(broken(RuleCode::Parameters, span)));
    };
    match actuals.as_slice() {
        [] => Err(Rejected::Rule(broken(RuleCode::Parameters, span))),
        [e, behind @ ..] => {
            let formal = reader_formal(site.alloc, reader)?;
            let (place, variables) = place(site, variables, &formal, e)?;
            none_left(
                Action::Input(InputCall::Read(reader, place)),
                variables,
                behind,
            )
        }
    }
}

/// A call of what In exports.
#[tactic(auto, unfolding(crate::specs::StandardCalls::in_call))]
pub fn in_call(
    site: Site<'_>,
    name: InputName,
    variables: Variables,
    actuals: &Option<Items<Expr>>,
    span: Span,
) -> Result<(Action, Variables), Rejected>
    ensures { Judges (on spec.in_call site.entry name variables actuals.now) result }
{
    match name {
        InputName::Open => without_actuals(Action::Input(InputCall::Open), variables, actuals),
        InputName::Char => read_call(site, Reader::Char, variables, actuals, span),
        InputName::Int => read_call(site, Reader::Int, variables, actuals, span),
        InputName::String => read_call(site, Reader::String, variables, actuals, span),
        InputName::Name => read_call(site, Reader::Name, variables, actuals, span),
        InputName::Done => Err(Rejected::Rule(broken(RuleCode::Types, span))),
        InputName::Unknown => Err(Rejected::Rule(broken(RuleCode::NotExported, span))),
    }
}

/// `Out.Char`.
#[tactic(auto, unfolding(crate::specs::StandardCalls::out_char))]
fn out_char(
    site: Site<'_>,
    variables: Variables,
    actuals: &Option<Items<Expr>>,
    span: Span,
) -> Result<(Action, Variables), Rejected>
    ensures { Judges (on spec.out_char site.entry variables actuals.now) result }
{
    let Some(actuals) = actuals else {
        return Err(Rejected::Rule(broken(RuleCode::Parameters, span)));
    };
    match actuals.as_slice() {
        [] => Err(Rejected::Rule(broken(RuleCode::Parameters, span))),
        [e, behind @ ..] => {
            let (value, variables) = scalar(site, variables, Basic::Char, e)?;
            none_left(Action::Output(OutputCall::Char(value)), variables, behind)
        }
    }
}

/// `Out.String`.
#[tactic(auto, unfolding(crate::specs::StandardCalls::out_string))]
fn out_string(
    site: Site<'_>,
    variables: Variables,
    actuals: &Option<Items<Expr>>,
    span: Span,
) -> Result<(Action, Variables), Rejected>
    ensures { Judges (on spec.out_string site.entry variables actuals.now) result }
{
    let Some(actuals) = actuals else {
        return Err(Rejected::Rule(broken(RuleCode::Parameters, span)));
    };
    match actuals.as_slice() {
        [] => Err(Rejected::Rule(broken(RuleCode::Parameters, span))),
        [e, behind @ ..] => {
            let formal = text_value(site.alloc)?;
            let (place, variables) = place(site, variables, &formal, e)?;
            none_left(Action::Output(OutputCall::String(place)), variables, behind)
        }
    }
}

/// The call of a number and a width.
fn int_written(alloc: Global, value: TypedExpr, width: TypedExpr) -> Result<OutputCall, AllocError>
    ensures { IfOk result (λ call. call ≡ output.Int value width) }
{
    let value = Boxed::new(alloc, value)?;
    let width = Boxed::new(alloc, width)?;
    Ok(OutputCall::Int(value, width))
}

/// `Out.Int` after the number.
#[tactic(auto, unfolding(crate::specs::StandardCalls::out_width))]
fn out_width(
    site: Site<'_>,
    value: TypedExpr,
    variables: Variables,
    actuals: &[Expr],
    span: Span,
) -> Result<(Action, Variables), Rejected>
    ensures { Judges (on spec.out_width site.entry value variables actuals.now) result }
{
    match actuals {
        [] => Err(Rejected::Rule(broken(RuleCode::Parameters, span))),
        [e, behind @ ..] => {
            let (width, variables) = scalar(site, variables, Basic::Integer, e)?;
            let call = int_written(site.alloc, value, width)?;
            none_left(Action::Output(call), variables, behind)
        }
    }
}

/// `Out.Int` with a number and a width.
#[tactic(auto, unfolding(crate::specs::StandardCalls::out_int))]
fn out_int(
    site: Site<'_>,
    variables: Variables,
    actuals: &Option<Items<Expr>>,
    span: Span,
) -> Result<(Action, Variables), Rejected>
    ensures { Judges (on spec.out_int site.entry variables actuals.now) result }
{
    let Some(actuals) = actuals else {
        return Err(Rejected::Rule(broken(RuleCode::Parameters, span)));
    };
    match actuals.as_slice() {
        [] => Err(Rejected::Rule(broken(RuleCode::Parameters, span))),
        [e, behind @ ..] => {
            let (value, variables) = scalar(site, variables, Basic::Integer, e)?;
            out_width(site, value, variables, behind, span)
        }
    }
}

/// A call of what Out exports.
#[tactic(auto, unfolding(crate::specs::StandardCalls::out_call))]
pub fn out_call(
    site: Site<'_>,
    name: OutputName,
    variables: Variables,
    actuals: &Option<Items<Expr>>,
    span: Span,
) -> Result<(Action, Variables), Rejected>
    ensures { Judges (on spec.out_call site.entry name variables actuals.now) result }
{
    match name {
        OutputName::Open => without_actuals(Action::Output(OutputCall::Open), variables, actuals),
        OutputName::Char => out_char(site, variables, actuals, span),
        OutputName::String => out_string(site, variables, actuals, span),
        OutputName::Int => out_int(site, variables, actuals, span),
        OutputName::Ln => without_actuals(Action::Output(OutputCall::Ln), variables, actuals),
        OutputName::Unknown => Err(Rejected::Rule(broken(RuleCode::NotExported, span))),
    }
}

/// INC or DEC after the variable.
#[tactic(auto, unfolding(crate::specs::StandardCalls::adjusted_by))]
fn adjusted_by(
    site: Site<'_>,
    adjustment: Adjustment,
    place: Designator,
    variables: Variables,
    actuals: &[Expr],
) -> Result<(Action, Variables), Rejected>
    ensures { Judges (on spec.adjusted_by site.entry adjustment place variables actuals.now) result }
{
    match actuals {
        [] => {
            let action = Action::Adjust(adjustment, place, TypedExpr::Constant(1));
            Ok((action, variables))
        }
        [e, behind @ ..] => {
            let (by, variables) = number_inside(site, variables, e)?;
            none_left(Action::Adjust(adjustment, place, by), variables, behind)
        }
    }
}

/// INC or DEC of an INTEGER variable.
#[tactic(auto, unfolding(crate::specs::StandardCalls::adjusted))]
fn adjusted(
    site: Site<'_>,
    adjustment: Adjustment,
    variables: Variables,
    actuals: &Option<Items<Expr>>,
    span: Span,
) -> Result<(Action, Variables), Rejected>
    ensures { Judges (on spec.adjusted site.entry adjustment variables actuals.now) result }
{
    let Some(actuals) = actuals else {
        return Err(Rejected::Rule(broken(RuleCode::Parameters, span)));
    };
    let formal = variable_formal(Basic::Integer);
    match actuals.as_slice() {
        [] => Err(Rejected::Rule(broken(RuleCode::Parameters, span))),
        [v, behind @ ..] => {
            let (place, variables) = place(site, variables, &formal, v)?;
            adjusted_by(site, adjustment, place, variables, behind)
        }
    }
}

/// ASSERT of a truth value.
#[tactic(auto, unfolding(crate::specs::StandardCalls::asserted))]
fn asserted(
    site: Site<'_>,
    variables: Variables,
    actuals: &Option<Items<Expr>>,
    span: Span,
) -> Result<(Action, Variables), Rejected>
    ensures { Judges (on spec.asserted site.entry span.line variables actuals.now) result }
{
    let Some(actuals) = actuals else {
        return Err(Rejected::Rule(broken(RuleCode::Parameters, span)));
    };
    match actuals.as_slice() {
        [] => Err(Rejected::Rule(broken(RuleCode::Parameters, span))),
        [e, behind @ ..] => {
            let (condition, variables) = truth_inside(site, variables, e)?;
            none_left(
                Action::Assert(span.line as usize, condition),
                variables,
                behind,
            )
        }
    }
}

/// A call of a procedure that is declared before any module.
#[tactic(auto, unfolding(crate::specs::StandardCalls::predeclared_call))]
pub fn predeclared_call(
    site: Site<'_>,
    procedure: ProperProcedure,
    variables: Variables,
    actuals: &Option<Items<Expr>>,
    span: Span,
) -> Result<(Action, Variables), Rejected>
    ensures { Judges (on spec.predeclared_call site.entry procedure span.line variables actuals.now) result }
{
    match procedure {
        ProperProcedure::Inc => adjusted(site, Adjustment::Increase, variables, actuals, span),
        ProperProcedure::Dec => adjusted(site, Adjustment::Decrease, variables, actuals, span),
        ProperProcedure::Assert => asserted(site, variables, actuals, span),
    }
}
