//! Cells, and the tree of a list of tokens.

ghost use Rattle.std.specs.Prelude.{◌≡◌, ◌≤◌, ◌<◌, length, IfOk, OnSome, Ok, Result};
ghost use Rattle.ob_parse.specs.GrammarReading as spec;
ghost use Rattle.ob_parse.specs.Grammar.{Derives, AnswersTree, FaultsOnly};
ghost use Rattle.ob_parse_expression.specs.Reading.{Reads, many, if_ident};

use crate::module::module;
use ob_base::{Code, Items, Refused};
use ob_parse_expression::Parser;
use ob_scan::{Kind, Span, Symbol, Token};
use ob_tree::tree::{Cell, Command};
use std::alloc::Global;

/// Passes the semicolons that come next.
fn semicolons(parser: &mut Parser<'_>)
    ensures read { parser.new.rest.now ≡ spec.behind_semicolons parser.old.rest.now }
    ensures shorter { length parser.new.rest.now ≤ length parser.old.rest.now }
{
    while let [
        Token {
            kind: Kind::Symbol(Symbol::Semicolon),
            ..
        },
        rest @ ..,
    ] = parser.rest
    {
        parser.rest = rest;
    }
}

/// A command, and the semicolons after it.
#[tactic(auto, unfolding(crate::specs::GrammarReading::command))]
fn command(parser: &mut Parser<'_>) -> Result<Command, Refused>
    ensures read { Reads (spec.command parser.old.rest.now) result parser.new.rest.now }
    ensures taken { IfOk result (λ _. length parser.new.rest.now < length parser.old.rest.now) }
    ensures shorter { length parser.new.rest.now ≤ length parser.old.rest.now }
{
    let module_name = parser.ident()?;
    parser.expect(Symbol::Period)?;
    let procedure = parser.ident()?;
    semicolons(parser);
    Ok(Command {
        module_name,
        procedure,
    })
}

#[tactic(auto, unfolding(ob_parse_expression::specs::Reading::if_ident))]
fn next_command(parser: &mut Parser<'_>) -> Result<Option<Command>, Refused>
    ensures read { Reads (if_ident spec.command parser.old.rest.now) result parser.new.rest.now }
    ensures shorter { length parser.new.rest.now ≤ length parser.old.rest.now }
    ensures taken { IfOk result (λ found. OnSome found (length parser.new.rest.now < length parser.old.rest.now)) }
{
    if !parser.at_ident() {
        return Ok(None);
    }
    Ok(Some(command(parser)?))
}

fn command_items(parser: &mut Parser<'_>) -> Result<Items<Command>, Refused>
    ensures read { Reads (many (if_ident spec.command) parser.old.rest.now) result parser.new.rest.now }
    ensures shorter { length parser.new.rest.now ≤ length parser.old.rest.now }
{
    let mut items = Items::new(parser.alloc);
    while let Some(next) = next_command(parser)? {
        items.push(next)?;
    }
    Ok(items)
}

#[tactic(auto, unfolding(crate::specs::GrammarReading::commands))]
fn commands(parser: &mut Parser<'_>) -> Result<Items<Command>, Refused>
    ensures read { Reads (spec.commands parser.old.rest.now) result parser.new.rest.now }
{
    semicolons(parser);
    command_items(parser)
}

#[tactic(auto, unfolding(crate::specs::GrammarReading::cell))]
fn cell(parser: &mut Parser<'_>) -> Result<Cell, Refused>
    ensures read { Reads (spec.cell parser.old.rest.now) result parser.new.rest.now }
{
    if parser.eat(Symbol::Module).is_none() {
        return Ok(Cell::Commands(commands(parser)?));
    }
    Ok(Cell::Module(module(parser)?))
}

#[tactic(auto, unfolding(crate::specs::GrammarReading::ended))]
fn ended(parser: &Parser<'_>) -> Result<(), Refused>
    ensures read { Reads (spec.ended parser.now.rest.now) result parser.now.rest.now }
{
    match parser.rest {
        [] => Ok(()),
        [_, ..] => Err(parser.fault(Code::Token)),
    }
}

#[tactic(auto, unfolding(crate::specs::GrammarReading::whole))]
fn whole(parser: &mut Parser<'_>) -> Result<Cell, Refused>
    ensures read { Reads (spec.whole parser.old.rest.now) result parser.new.rest.now }
{
    let cell = cell(parser)?;
    ended(parser)?;
    Ok(cell)
}

/// The tree of a cell's tokens, by the grammar of Oberon-07 (Wirth, The Programming Language Oberon): a module, or
/// commands. Refuses with code 5, 6 or 7 where there is none, at the token that can't stand there, at the sign or word
/// that opens one construct too many, or at the wrong name after END; and with `Memory`.
pub fn parse(alloc: Global, tokens: &[Token]) -> Result<Cell, Refused>
    // What is answered is the tree.
    ensures found { IfOk result (λ c. Derives tokens.now c) }
    // Where there is a tree it is answered, unless memory runs out.
    ensures only { (c : Cell) → Derives tokens.now c → AnswersTree c result }
    // A fault of 5 to 7 comes only where there is none.
    ensures faults { FaultsOnly tokens.now result }
{
    let mut parser = Parser {
        alloc,
        rest: tokens,
        end: end_of(tokens),
    };
    whole(&mut parser)
}

/// The place just after the last token.
fn end_of(tokens: &[Token]) -> Span {
    let [.., token] = tokens else {
        return Span {
            start: 0,
            end: 0,
            line: 1,
            column: 1,
        };
    };
    let Span {
        start,
        end,
        line,
        column,
    } = token.span;
    Span {
        start: end,
        end,
        line,
        column: column.saturating_add(end.saturating_sub(start)),
    }
}
