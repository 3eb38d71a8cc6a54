//! Statements.

ghost use Rattle.std.specs.Prelude.{◌≡◌, ◌≤◌, [], length, IfOk};
ghost use Rattle.ob_tree.specs.declared.tree.Branch.{out-Branch};
ghost use Rattle.ob_tree.specs.declared.tree.Case.{out-Case};
ghost use Rattle.ob_check_scope.specs.Rule.{Given, Judges, through};
ghost use Rattle.ob_check_scope.specs.Sites.{on};
ghost use Rattle.ob_mean.specs.declared.statement.TypedStatement.TheVariants as typed;
ghost use Rattle.ob_check_stmt.specs.Statements as spec;

use crate::assignment::assignment;
use crate::call::call;
use crate::for_head::for_head;
use crate::label::{Labelling, is_character, labels};
use crate::labels::Labels;
use ob_base::{Boxed, Items};
use ob_check_expr::{basic_value, guard};
use ob_check_scope::Site;
use ob_check_scope::rejected::{Rejected, broken, open};
use ob_check_scope::rule::RuleCode;
use ob_check_strings::Variables;
use ob_mean::{Branch as TypedBranch, CaseArm, ForHead as TypedHead, TypedExpr, TypedStatement};
use ob_scan::Span;
use ob_tree::tree::{Branch, Case, Expr, ForHead, LabelRange, Statement};
use ob_types::Basic;
use std::alloc::{AllocError, Global};

/// So many statements are a long sequence.
const MANY: usize = 1_000;

/// All labels of a CASE so far, its arms, and the variables of the module.
type Arms = (Labels, Items<CaseArm>, Variables);

/// Statements that need not be there.
#[cycle(statement)]
#[tactic(auto, unfolding(crate::specs::Statements::optional))]
pub fn optional(
    site: Site<'_>,
    variables: Variables,
    xs: &[Statement],
    span: Span,
) -> Result<(Items<TypedStatement>, Variables), Rejected>
    ensures { Judges (on spec.optional site.entry (on spec.statements_at site.entry) variables xs.now) result }
{
    match xs {
        [] => Ok((Items::new(site.alloc), variables)),
        [_, ..] => statements(site, variables, xs, span),
    }
}

/// One guard more with its statements.
#[cycle(statement)]
#[tactic(auto, unfolding(crate::specs::Statements::next_branch))]
fn next_branch(
    site: Site<'_>,
    before: Items<TypedBranch>,
    variables: Variables,
    b: &Branch,
) -> Result<(Items<TypedBranch>, Variables), Rejected>
    ensures { Judges (on spec.next_branch site.entry (on spec.statements_at site.entry) (before, variables) b.now) result }
{
    let mut before = before;
    let condition = b.guard.get();
    let (guard, variables) = guard(site, variables, condition)?;
    let (body, variables) = statements(
        site,
        variables,
        b.body.as_slice(),
        condition.first_token(),
    )?;
    before.push(TypedBranch { guard, body })?;
    Ok((before, variables))
}

#[cycle(statement)]
fn more_branches(
    site: Site<'_>,
    first: Items<TypedBranch>,
    variables: Variables,
    others: &[Branch],
) -> Result<(Items<TypedBranch>, Variables), Rejected>
    ensures { Judges (through (on spec.next_branch site.entry (on spec.statements_at site.entry)) (first, variables) others.now) result }
{
    let mut done = first;
    let mut so_far = variables;
    for b in others {
        let (more, variables) = next_branch(site, done, so_far, b)?;
        done = more;
        so_far = variables;
    }
    Ok((done, so_far))
}

#[cycle(statement)]
#[tactic(auto, unfolding(crate::specs::Statements::branches))]
fn branches(
    site: Site<'_>,
    variables: Variables,
    first: &Branch,
    others: &[Branch],
) -> Result<(Items<TypedBranch>, Variables), Rejected>
    ensures { Judges (on spec.branches site.entry (on spec.statements_at site.entry) variables first.now others.now) result }
{
    let none = Items::new(site.alloc);
    let (done, variables) = next_branch(site, none, variables, first)?;
    more_branches(site, done, variables, others)
}

#[cycle(statement)]
#[tactic(auto, unfolding(crate::specs::Statements::if_rule))]
fn if_statement(
    site: Site<'_>,
    variables: Variables,
    first: &Branch,
    others: &[Branch],
    rest: &[Statement],
) -> Result<(TypedStatement, Variables), Rejected>
    ensures { Judges (on spec.if_rule site.entry (on spec.statements_at site.entry) variables first.now others.now rest.now) result }
{
    let span = first.guard.get().first_token();
    let (done, variables) = branches(site, variables, first, others)?;
    let (rest, variables) = optional(site, variables, rest, span)?;
    Ok((TypedStatement::If(done, rest), variables))
}

#[cycle(statement)]
#[tactic(auto, unfolding(crate::specs::Statements::while_rule))]
fn while_statement(
    site: Site<'_>,
    variables: Variables,
    first: &Branch,
    others: &[Branch],
) -> Result<(TypedStatement, Variables), Rejected>
    ensures { Judges (on spec.while_rule site.entry (on spec.statements_at site.entry) variables first.now others.now) result }
{
    let (done, variables) = branches(site, variables, first, others)?;
    Ok((TypedStatement::While(done), variables))
}

/// The arm of these labels.
#[cycle(statement)]
#[tactic(auto, unfolding(crate::specs::Statements::arm_of))]
fn arm_of(
    site: Site<'_>,
    labelling: Labelling,
    arms: Items<CaseArm>,
    variables: Variables,
    body: &[Statement],
    span: Span,
) -> Result<Arms, Rejected>
    ensures { Judges (on spec.arm_of site.entry (on spec.statements_at site.entry) labelling arms variables body.now) result }
{
    let (all, labels) = labelling;
    let mut arms = arms;
    let (body, variables) = statements(site, variables, body, span)?;
    arms.push(CaseArm { labels, body })?;
    Ok((all, arms, variables))
}

/// One case more, which may be empty.
#[cycle(statement)]
#[tactic(auto, unfolding(crate::specs::Statements::case_of))]
fn case_of(
    site: Site<'_>,
    character: bool,
    before: Arms,
    list: &[LabelRange],
    body: &[Statement],
    span: Span,
) -> Result<Arms, Rejected>
    ensures { Judges (on spec.case_of site.entry (on spec.statements_at site.entry) character before list.now body.now) result }
{
    match list {
        [] => Ok(before),
        [_, ..] => {
            let (all, arms, variables) = before;
            let labelling = labels(site.alloc, site.imports, site.scope, character, all, list)?;
            arm_of(site, labelling, arms, variables, body, span)
        }
    }
}

#[cycle(statement)]
#[tactic(auto, unfolding(crate::specs::Statements::next_case))]
fn next_case(
    site: Site<'_>,
    character: bool,
    before: Arms,
    x: &Case,
    span: Span,
) -> Result<Arms, Rejected>
    ensures { Judges (on spec.next_case site.entry (on spec.statements_at site.entry) character before x.now) result }
{
    case_of(
        site,
        character,
        before,
        x.labels.as_slice(),
        x.body.as_slice(),
        span,
    )
}

#[cycle(statement)]
fn all_cases(
    site: Site<'_>,
    character: bool,
    variables: Variables,
    cases: &[Case],
    span: Span,
) -> Result<Arms, Rejected>
    ensures { Judges (through (on spec.next_case site.entry (on spec.statements_at site.entry) character) ([], [], variables) cases.now) result }
{
    let mut so_far = (Labels::new(site.alloc), Items::new(site.alloc), variables);
    for x in cases {
        so_far = next_case(site, character, so_far, x, span)?;
    }
    Ok(so_far)
}

/// The arms of a CASE over this value.
#[cycle(statement)]
#[tactic(auto, unfolding(crate::specs::Statements::arms_of))]
fn arms_of(
    site: Site<'_>,
    span: Span,
    basic: Basic,
    value: TypedExpr,
    variables: Variables,
    cases: &[Case],
) -> Result<(TypedStatement, Variables), Rejected>
    ensures { Judges (on spec.arms_of site.entry (on spec.statements_at site.entry) span.line (basic, value, variables) cases.now) result }
{
    match is_character(basic) {
        Some(character) => {
            let (_, arms, variables) = all_cases(site, character, variables, cases, span)?;
            Ok((
                TypedStatement::Case(span.line as usize, value, arms),
                variables,
            ))
        }
        None => Err(Rejected::Rule(broken(RuleCode::Types, span))),
    }
}

#[cycle(statement)]
#[tactic(auto, unfolding(crate::specs::Statements::case_rule))]
fn case_statement(
    site: Site<'_>,
    variables: Variables,
    span: Span,
    e: &Expr,
    cases: &[Case],
) -> Result<(TypedStatement, Variables), Rejected>
    ensures { Judges (on spec.case_rule site.entry (on spec.statements_at site.entry) variables span.line e.now cases.now) result }
{
    let (basic, value, variables) = basic_value(site, variables, e)?;
    arms_of(site, span, basic, value, variables, cases)
}

#[cycle(statement)]
#[tactic(auto, unfolding(crate::specs::Statements::repeat_rule))]
fn repeat_statement(
    site: Site<'_>,
    variables: Variables,
    body: &[Statement],
    e: &Expr,
) -> Result<(TypedStatement, Variables), Rejected>
    ensures { Judges (on spec.repeat_rule site.entry (on spec.statements_at site.entry) variables body.now e.now) result }
{
    let (body, variables) = statements(site, variables, body, e.first_token())?;
    let (condition, variables) = guard(site, variables, e)?;
    Ok((TypedStatement::Repeat(body, condition), variables))
}

/// The statement of these parts.
fn for_of(
    alloc: Global,
    head: TypedHead,
    body: Items<TypedStatement>,
    variables: Variables,
) -> Result<(TypedStatement, Variables), Rejected>
    ensures { Judges (Given (typed.For head body, variables)) result }
{
    let head = Boxed::new(alloc, head)?;
    Ok((TypedStatement::For(head, body), variables))
}

#[cycle(statement)]
#[tactic(auto, unfolding(crate::specs::Statements::for_rule))]
fn for_statement(
    site: Site<'_>,
    variables: Variables,
    h: &ForHead,
    body: &[Statement],
) -> Result<(TypedStatement, Variables), Rejected>
    ensures { Judges (on spec.for_rule site.entry (on spec.statements_at site.entry) variables h.now body.now) result }
{
    let (head, variables) = for_head(site, variables, h)?;
    match statements(site, variables, body, h.variable.span) {
        Ok((body, variables)) => for_of(site.alloc, head, body, variables),
        Err(e) => {
            // By a call, since it has many parts to be let go.
            drop(head);
            Err(e)
        }
    }
}

#[cycle(statement)]
#[tactic(auto, unfolding(crate::specs::Statements::statement_of))]
fn statement(
    site: Site<'_>,
    variables: Variables,
    x: &Statement,
) -> Result<(Option<TypedStatement>, Variables), Rejected>
    ensures { Judges (on spec.statement_of site.entry (on spec.statements_at site.entry) variables x.now) result }
{
    match x {
        Statement::Empty => Ok((None, variables)),
        Statement::Assign(d, e) => {
            let (action, variables) = assignment(site, variables, d, e.get())?;
            Ok((Some(TypedStatement::Simple(action)), variables))
        }
        Statement::Call(d, actuals) => {
            let (action, variables) = call(site, variables, d, actuals)?;
            Ok((Some(TypedStatement::Simple(action)), variables))
        }
        Statement::If(first, others, rest) => {
            let others = others.as_slice();
            let rest = rest.as_slice();
            let (one, variables) = if_statement(site, variables, first, others, rest)?;
            Ok((Some(one), variables))
        }
        Statement::Case(span, e, cases) => {
            let cases = cases.as_slice();
            let (one, variables) = case_statement(site, variables, *span, e.get(), cases)?;
            Ok((Some(one), variables))
        }
        Statement::While(first, others) => {
            let others = others.as_slice();
            let (one, variables) = while_statement(site, variables, first, others)?;
            Ok((Some(one), variables))
        }
        Statement::Repeat(body, e) => {
            let body = body.as_slice();
            let (one, variables) = repeat_statement(site, variables, body, e.get())?;
            Ok((Some(one), variables))
        }
        Statement::For(h, body) => {
            let body = body.as_slice();
            let (one, variables) = for_statement(site, variables, h, body)?;
            Ok((Some(one), variables))
        }
    }
}

/// One statement more.
#[cycle(statement)]
#[tactic(auto, unfolding(crate::specs::Statements::next_statement))]
fn next_statement(
    site: Site<'_>,
    before: Items<TypedStatement>,
    variables: Variables,
    x: &Statement,
) -> Result<(Items<TypedStatement>, Variables), Rejected>
    ensures { Judges (on spec.next_statement site.entry (on spec.statements_at site.entry) (before, variables) x.now) result }
{
    let mut all = before;
    let (one, variables) = statement(site, variables, x)?;
    match one {
        Some(one) => {
            all.push(one)?;
            Ok((all, variables))
        }
        None => Ok((all, variables)),
    }
}

/// How many of these statements are not empty.
fn count_of(xs: &[Statement]) -> usize
    ensures { result ≤ length xs.now }
{
    let mut count = 0usize;
    for x in xs {
        match x {
            Statement::Empty => {}
            _ => count += 1,
        }
    }
    count
}

/// No statements yet, with room for those of a long sequence: none of them is moved while they come, which would leave holes in memory.
fn none_yet(alloc: Global, xs: &[Statement]) -> Result<Items<TypedStatement>, AllocError>
    ensures { IfOk result (λ none. none ≡ []) }
{
    let mut none = Items::new(alloc);
    if xs.len() >= MANY {
        none.make_room(count_of(xs))?;
    }
    Ok(none)
}

#[cycle(statement)]
fn sequence(
    site: Site<'_>,
    variables: Variables,
    xs: &[Statement],
) -> Result<(Items<TypedStatement>, Variables), Rejected>
    ensures { Judges (through (on spec.next_statement site.entry (on spec.statements_at site.entry)) ([], variables) xs.now) result }
{
    let mut done = none_yet(site.alloc, xs)?;
    let mut so_far = variables;
    for x in xs {
        let (more, variables) = next_statement(site, done, so_far, x)?;
        done = more;
        so_far = variables;
    }
    Ok((done, so_far))
}

/// A sequence of statements: one construct more that nests, which opens at this token.
#[cycle(statement)]
#[tactic(auto, unfolding(crate::specs::Statements::statements_at))]
pub fn statements(
    site: Site<'_>,
    variables: Variables,
    xs: &[Statement],
    span: Span,
) -> Result<(Items<TypedStatement>, Variables), Rejected>
    ensures { Judges (on spec.statements_at site.entry variables xs.now) result }
{
    let inside = open(site.levels, span)?;
    sequence(
        Site {
            levels: inside,
            ..site
        },
        variables,
        xs,
    )
}
