//! Statements, by recursive descent.
//!
//! Statements behind semicolons and cases behind bars each have a loop of their own, as the grammar writes both out. The two
//! stand in one circle of calls, where what is repeated can't be handed to a common loop: the proof that the circle ends
//! follows calls by name alone.

ghost use Rattle.std.specs.Prelude.{◌≡◌, ◌≤◌, ◌<◌, length, IfOk, OnSome};
ghost use Rattle.ob_scan.specs.declared.token.Symbol.TheVariants as s;
ghost use Rattle.ob_parse.specs.StatementReading as spec;
ghost use Rattle.ob_parse_expression.specs.Reading.{Reads, many, next_item, optional, separated};

use ob_base::{Boxed, Items, Refused};
use ob_parse_expression::Parser;
use ob_scan::{Kind, Span, Symbol, Token};
use ob_tree::tree::{Branch, Case, Expr, ForHead, Statement};

/// A sequence of statements, which opens among `levels` more constructs by the word or sign at `span`.
#[cycle(statement)]
#[tactic(auto, unfolding(ob_parse_expression::specs::Reading::separated))]
pub fn statements(
    parser: &mut Parser<'_>,
    levels: u32,
    span: Span,
) -> Result<Items<Statement>, Refused>
    ensures read { Reads (spec.statements levels parser.old.rest.now) result parser.new.rest.now }
    ensures shorter { length parser.new.rest.now ≤ length parser.old.rest.now }
{
    let inside = parser.open(levels, span)?;
    let mut statements = Items::new(parser.alloc);
    statements.push(statement(parser, inside)?)?;
    while let Some(next) = next_statement(parser, inside)? {
        statements.push(next)?;
    }
    Ok(statements)
}

#[cycle(statement)]
#[tactic(auto, unfolding(ob_parse_expression::specs::Reading::next_item))]
fn next_statement(parser: &mut Parser<'_>, levels: u32) -> Result<Option<Statement>, Refused>
    ensures read { Reads (next_item s.Semicolon (spec.statement levels (spec.statements levels)) parser.old.rest.now) result parser.new.rest.now }
    ensures shorter { length parser.new.rest.now ≤ length parser.old.rest.now }
    ensures taken { IfOk result (λ found. OnSome found (length parser.new.rest.now < length parser.old.rest.now)) }
{
    if parser.eat(Symbol::Semicolon).is_none() {
        return Ok(None);
    }
    Ok(Some(statement(parser, levels)?))
}

#[cycle(statement)]
#[tactic(auto, unfolding(crate::specs::StatementReading::statement))]
fn statement(parser: &mut Parser<'_>, levels: u32) -> Result<Statement, Refused>
    ensures read { Reads (spec.statement levels (spec.statements levels) parser.old.rest.now) result parser.new.rest.now }
    ensures shorter { length parser.new.rest.now ≤ length parser.old.rest.now }
{
    let [Token { kind, span }, rest @ ..] = parser.rest else {
        return Ok(Statement::Empty);
    };
    match kind {
        Kind::Ident(_) => assign_or_call(parser, levels),
        Kind::Symbol(Symbol::If) => {
            parser.rest = rest;
            if_statement(parser, levels)
        }
        Kind::Symbol(Symbol::Case) => {
            parser.rest = rest;
            case_statement(parser, levels, *span)
        }
        Kind::Symbol(Symbol::While) => {
            parser.rest = rest;
            while_statement(parser, levels)
        }
        Kind::Symbol(Symbol::Repeat) => {
            parser.rest = rest;
            repeat_statement(parser, levels, *span)
        }
        Kind::Symbol(Symbol::For) => {
            parser.rest = rest;
            for_statement(parser, levels)
        }
        _ => Ok(Statement::Empty),
    }
}

#[tactic(auto, unfolding(crate::specs::StatementReading::assign_or_call))]
fn assign_or_call(parser: &mut Parser<'_>, levels: u32) -> Result<Statement, Refused>
    ensures read { Reads (spec.assign_or_call levels (spec.statements levels) parser.old.rest.now) result parser.new.rest.now }
    ensures shorter { length parser.new.rest.now ≤ length parser.old.rest.now }
{
    let designator = parser.designator(levels)?;
    if parser.eat(Symbol::Becomes).is_some() {
        return Ok(Statement::Assign(designator, parser.boxed_expr(levels)?));
    }
    let Some(span) = parser.eat(Symbol::LeftParen) else {
        return Ok(Statement::Call(designator, None));
    };
    Ok(Statement::Call(designator, Some(parser.actuals(levels, span)?)))
}

/// What stands after IF.
#[cycle(statement)]
#[tactic(auto, unfolding(crate::specs::StatementReading::if_statement))]
fn if_statement(parser: &mut Parser<'_>, levels: u32) -> Result<Statement, Refused>
    ensures read { Reads (spec.if_statement levels (spec.statements levels) parser.old.rest.now) result parser.new.rest.now }
    ensures shorter { length parser.new.rest.now ≤ length parser.old.rest.now }
{
    let first = branch(parser, levels, Symbol::Then)?;
    let others = elsifs(parser, levels, Symbol::Then)?;
    let otherwise = otherwise(parser, levels)?;
    parser.expect(Symbol::End)?;
    Ok(Statement::If(first, others, otherwise))
}

/// What stands after WHILE.
#[cycle(statement)]
#[tactic(auto, unfolding(crate::specs::StatementReading::while_statement))]
fn while_statement(parser: &mut Parser<'_>, levels: u32) -> Result<Statement, Refused>
    ensures read { Reads (spec.while_statement levels (spec.statements levels) parser.old.rest.now) result parser.new.rest.now }
    ensures shorter { length parser.new.rest.now ≤ length parser.old.rest.now }
{
    let first = branch(parser, levels, Symbol::Do)?;
    let others = elsifs(parser, levels, Symbol::Do)?;
    parser.expect(Symbol::End)?;
    Ok(Statement::While(first, others))
}

/// What stands after REPEAT, whose place is given.
#[cycle(statement)]
#[tactic(auto, unfolding(crate::specs::StatementReading::repeat_statement))]
fn repeat_statement(parser: &mut Parser<'_>, levels: u32, span: Span) -> Result<Statement, Refused>
    ensures read { Reads (spec.repeat_statement levels (spec.statements levels) parser.old.rest.now) result parser.new.rest.now }
    ensures shorter { length parser.new.rest.now ≤ length parser.old.rest.now }
{
    let body = statements(parser, levels, span)?;
    parser.expect(Symbol::Until)?;
    Ok(Statement::Repeat(body, parser.boxed_expr(levels)?))
}

/// A guard, a word and statements.
#[cycle(statement)]
#[tactic(auto, unfolding(crate::specs::StatementReading::branch))]
fn branch(parser: &mut Parser<'_>, levels: u32, word: Symbol) -> Result<Branch, Refused>
    ensures read { Reads (spec.branch levels (spec.statements levels) word parser.old.rest.now) result parser.new.rest.now }
    ensures shorter { length parser.new.rest.now ≤ length parser.old.rest.now }
{
    let guard = parser.boxed_expr(levels)?;
    let span = parser.expect(word)?;
    let body = statements(parser, levels, span)?;
    Ok(Branch { guard, body })
}

#[cycle(statement)]
fn elsifs(parser: &mut Parser<'_>, levels: u32, word: Symbol) -> Result<Items<Branch>, Refused>
    ensures read { Reads (many (spec.elsif levels (spec.statements levels) word) parser.old.rest.now) result parser.new.rest.now }
    ensures shorter { length parser.new.rest.now ≤ length parser.old.rest.now }
{
    let mut others = Items::new(parser.alloc);
    while let Some(next) = elsif(parser, levels, word)? {
        others.push(next)?;
    }
    Ok(others)
}

#[cycle(statement)]
#[tactic(auto, unfolding(crate::specs::StatementReading::elsif))]
fn elsif(parser: &mut Parser<'_>, levels: u32, word: Symbol) -> Result<Option<Branch>, Refused>
    ensures read { Reads (spec.elsif levels (spec.statements levels) word parser.old.rest.now) result parser.new.rest.now }
    ensures shorter { length parser.new.rest.now ≤ length parser.old.rest.now }
    ensures taken { IfOk result (λ found. OnSome found (length parser.new.rest.now < length parser.old.rest.now)) }
{
    if parser.eat(Symbol::Elsif).is_none() {
        return Ok(None);
    }
    Ok(Some(branch(parser, levels, word)?))
}

/// The statements after ELSE, if it comes next.
#[cycle(statement)]
#[tactic(auto, unfolding(ob_parse_expression::specs::Reading::optional))]
fn otherwise(parser: &mut Parser<'_>, levels: u32) -> Result<Items<Statement>, Refused>
    ensures read { Reads (optional s.Else (spec.statements levels) parser.old.rest.now) result parser.new.rest.now }
    ensures shorter { length parser.new.rest.now ≤ length parser.old.rest.now }
{
    let Some(span) = parser.eat(Symbol::Else) else {
        return Ok(Items::new(parser.alloc));
    };
    statements(parser, levels, span)
}

/// What stands after CASE, whose place is given.
#[cycle(statement)]
#[tactic(auto, unfolding(crate::specs::StatementReading::case_statement))]
fn case_statement(parser: &mut Parser<'_>, levels: u32, span: Span) -> Result<Statement, Refused>
    ensures read { Reads (spec.case_statement levels (spec.statements levels) span parser.old.rest.now) result parser.new.rest.now }
    ensures shorter { length parser.new.rest.now ≤ length parser.old.rest.now }
{
    let value = parser.boxed_expr(levels)?;
    parser.expect(Symbol::Of)?;
    let cases = cases(parser, levels)?;
    parser.expect(Symbol::End)?;
    Ok(Statement::Case(span, value, cases))
}

#[cycle(statement)]
#[tactic(auto, unfolding(ob_parse_expression::specs::Reading::separated))]
fn cases(parser: &mut Parser<'_>, levels: u32) -> Result<Items<Case>, Refused>
    ensures read { Reads (separated s.Bar (spec.case_phrase levels (spec.statements levels)) parser.old.rest.now) result parser.new.rest.now }
    ensures shorter { length parser.new.rest.now ≤ length parser.old.rest.now }
{
    let mut cases = Items::new(parser.alloc);
    cases.push(case(parser, levels)?)?;
    while let Some(next) = next_case(parser, levels)? {
        cases.push(next)?;
    }
    Ok(cases)
}

#[cycle(statement)]
#[tactic(auto, unfolding(ob_parse_expression::specs::Reading::next_item))]
fn next_case(parser: &mut Parser<'_>, levels: u32) -> Result<Option<Case>, Refused>
    ensures read { Reads (next_item s.Bar (spec.case_phrase levels (spec.statements levels)) parser.old.rest.now) result parser.new.rest.now }
    ensures shorter { length parser.new.rest.now ≤ length parser.old.rest.now }
    ensures taken { IfOk result (λ found. OnSome found (length parser.new.rest.now < length parser.old.rest.now)) }
{
    if parser.eat(Symbol::Bar).is_none() {
        return Ok(None);
    }
    Ok(Some(case(parser, levels)?))
}

/// A case, which is empty where a bar or END comes next.
#[cycle(statement)]
#[tactic(auto, unfolding(crate::specs::StatementReading::case_phrase))]
fn case(parser: &mut Parser<'_>, levels: u32) -> Result<Case, Refused>
    ensures read { Reads (spec.case_phrase levels (spec.statements levels) parser.old.rest.now) result parser.new.rest.now }
    ensures shorter { length parser.new.rest.now ≤ length parser.old.rest.now }
{
    if at_case_end(parser) {
        return Ok(Case {
            labels: Items::new(parser.alloc),
            body: Items::new(parser.alloc),
        });
    }
    labelled(parser, levels)
}

fn at_case_end(parser: &Parser<'_>) -> bool
    ensures { result ≡ spec.at_case_end parser.now.rest.now }
{
    match parser.rest {
        [
            Token {
                kind: Kind::Symbol(Symbol::Bar | Symbol::End),
                ..
            },
            ..
        ] => true,
        _ => false,
    }
}

#[cycle(statement)]
#[tactic(auto, unfolding(crate::specs::StatementReading::labelled))]
fn labelled(parser: &mut Parser<'_>, levels: u32) -> Result<Case, Refused>
    ensures read { Reads (spec.labelled levels (spec.statements levels) parser.old.rest.now) result parser.new.rest.now }
    ensures shorter { length parser.new.rest.now ≤ length parser.old.rest.now }
{
    let labels = parser.label_ranges()?;
    let span = parser.expect(Symbol::Colon)?;
    let body = statements(parser, levels, span)?;
    Ok(Case { labels, body })
}

/// What stands after FOR.
#[cycle(statement)]
#[tactic(auto, unfolding(crate::specs::StatementReading::for_statement))]
fn for_statement(parser: &mut Parser<'_>, levels: u32) -> Result<Statement, Refused>
    ensures read { Reads (spec.for_statement levels (spec.statements levels) parser.old.rest.now) result parser.new.rest.now }
    ensures shorter { length parser.new.rest.now ≤ length parser.old.rest.now }
{
    let head = for_head(parser, levels)?;
    let span = parser.expect(Symbol::Do)?;
    let body = statements(parser, levels, span)?;
    parser.expect(Symbol::End)?;
    Ok(Statement::For(head, body))
}

#[tactic(auto, unfolding(crate::specs::StatementReading::for_head))]
fn for_head(parser: &mut Parser<'_>, levels: u32) -> Result<ForHead, Refused>
    ensures read { Reads (spec.for_head levels parser.old.rest.now) result parser.new.rest.now }
    ensures shorter { length parser.new.rest.now ≤ length parser.old.rest.now }
{
    let variable = parser.ident()?;
    parser.expect(Symbol::Becomes)?;
    let first = parser.boxed_expr(levels)?;
    parser.expect(Symbol::To)?;
    let last = parser.boxed_expr(levels)?;
    let step = step(parser, levels)?;
    Ok(ForHead {
        variable,
        first,
        last,
        step,
    })
}

/// What stands after BY, if it comes next.
#[tactic(auto, unfolding(crate::specs::StatementReading::step))]
fn step(parser: &mut Parser<'_>, levels: u32) -> Result<Option<Boxed<Expr>>, Refused>
    ensures read { Reads (spec.step levels parser.old.rest.now) result parser.new.rest.now }
    ensures shorter { length parser.new.rest.now ≤ length parser.old.rest.now }
{
    if parser.eat(Symbol::By).is_none() {
        return Ok(None);
    }
    Ok(Some(parser.boxed_expr(levels)?))
}
