//! Procedures, by recursive descent.

ghost use Rattle.std.specs.Prelude.{◌≡◌, ◌≤◌, ◌<◌, length, IfOk, OnSome};
ghost use Rattle.ob_scan.specs.declared.token.Symbol.TheVariants as s;
ghost use Rattle.ob_parse.specs.DeclarationReading as spec;
ghost use Rattle.ob_parse.specs.DeclarationReading.{inner_procedure};
ghost use Rattle.ob_parse.specs.StatementReading.{statements};
ghost use Rattle.ob_parse_expression.specs.Reading.{Reads, many, optional};

use crate::declaration::{constants, returned, types, variables};
use crate::formal::formals;
use crate::statement::statements;
use ob_base::{Boxed, Code, Items, Refused};
use ob_parse_expression::Parser;
use ob_scan::{Kind, Span, Symbol, Token};
use ob_tree::tree::{Declarations, Ident, Procedure, Statement};

/// The name that stands after END.
#[tactic(auto, unfolding(crate::specs::DeclarationReading::name_again))]
pub fn name_again(parser: &mut Parser<'_>, name: &Ident) -> Result<(), Refused>
    ensures read { Reads (spec.name_again name.now.name parser.old.rest.now) result parser.new.rest.now }
    ensures shorter { length parser.new.rest.now ≤ length parser.old.rest.now }
{
    match parser.rest {
        [
            Token {
                kind: Kind::Ident(found),
                ..
            },
            rest @ ..,
        ] => {
            if !found.get().same(&name.name) {
                return Err(parser.fault(Code::EndName));
            }
            parser.rest = rest;
            Ok(())
        }
        _ => Err(parser.fault(Code::Token)),
    }
}

/// The statements after BEGIN, if it comes next.
#[tactic(auto, unfolding(ob_parse_expression::specs::Reading::optional))]
pub fn body(parser: &mut Parser<'_>, levels: u32) -> Result<Items<Statement>, Refused>
    ensures read { Reads (optional s.Begin (statements levels) parser.old.rest.now) result parser.new.rest.now }
    ensures shorter { length parser.new.rest.now ≤ length parser.old.rest.now }
{
    let Some(span) = parser.eat(Symbol::Begin) else {
        return Ok(Items::new(parser.alloc));
    };
    statements(parser, levels, span)
}

/// Declarations in which `levels` more constructs may nest.
#[cycle(declaration)]
#[tactic(auto, unfolding(crate::specs::DeclarationReading::declarations_of))]
pub fn declarations(parser: &mut Parser<'_>, levels: u32) -> Result<Boxed<Declarations>, Refused>
    ensures read { Reads (spec.declarations levels parser.old.rest.now) result parser.new.rest.now }
    ensures shorter { length parser.new.rest.now ≤ length parser.old.rest.now }
{
    let constants = constants(parser, levels)?;
    let types = types(parser, levels)?;
    let variables = variables(parser, levels)?;
    let procedures = procedures(parser, levels)?;
    let declarations = Declarations {
        constants,
        types,
        variables,
        procedures,
    };
    Ok(Boxed::new(parser.alloc, declarations)?)
}

#[cycle(declaration)]
fn procedures(parser: &mut Parser<'_>, levels: u32) -> Result<Items<Procedure>, Refused>
    ensures read { Reads (many (spec.next_procedure levels (inner_procedure levels)) parser.old.rest.now) result parser.new.rest.now }
    ensures shorter { length parser.new.rest.now ≤ length parser.old.rest.now }
{
    let mut items = Items::new(parser.alloc);
    while let Some(next) = next_procedure(parser, levels)? {
        items.push(next)?;
    }
    Ok(items)
}

/// A procedure, if PROCEDURE comes next.
#[cycle(declaration)]
#[tactic(auto, unfolding(crate::specs::DeclarationReading::next_procedure))]
fn next_procedure(parser: &mut Parser<'_>, levels: u32) -> Result<Option<Procedure>, Refused>
    ensures read { Reads (spec.next_procedure levels (inner_procedure levels) parser.old.rest.now) result parser.new.rest.now }
    ensures shorter { length parser.new.rest.now ≤ length parser.old.rest.now }
    ensures taken { IfOk result (λ found. OnSome found (length parser.new.rest.now < length parser.old.rest.now)) }
{
    let Some(span) = parser.eat(Symbol::Procedure) else {
        return Ok(None);
    };
    Ok(Some(procedure_part(parser, levels, span)?))
}

/// What stands after PROCEDURE, whose place is given, up to the semicolon.
#[cycle(declaration)]
#[tactic(auto, unfolding(crate::specs::DeclarationReading::procedure_part))]
fn procedure_part(parser: &mut Parser<'_>, levels: u32, span: Span) -> Result<Procedure, Refused>
    ensures read { Reads (spec.procedure_part levels (inner_procedure levels) parser.old.rest.now) result parser.new.rest.now }
    ensures shorter { length parser.new.rest.now ≤ length parser.old.rest.now }
{
    let inside = parser.open(levels, span)?;
    let procedure = procedure(parser, inside)?;
    parser.expect(Symbol::Semicolon)?;
    Ok(procedure)
}

/// What stands after PROCEDURE, where `levels` more constructs may nest in it.
#[cycle(declaration)]
#[tactic(auto, unfolding(crate::specs::DeclarationReading::procedure_of))]
fn procedure(parser: &mut Parser<'_>, levels: u32) -> Result<Procedure, Refused>
    ensures read { Reads (spec.procedure_of levels (inner_procedure levels) parser.old.rest.now) result parser.new.rest.now }
    ensures shorter { length parser.new.rest.now ≤ length parser.old.rest.now }
{
    let name = parser.ident_def()?;
    let formals = formals(parser, levels)?;
    parser.expect(Symbol::Semicolon)?;
    let declarations = declarations(parser, levels)?;
    let body = body(parser, levels)?;
    let returned = returned(parser, levels)?;
    parser.expect(Symbol::End)?;
    name_again(parser, &name.name)?;
    Ok(Procedure {
        name,
        formals,
        declarations,
        body,
        returned,
    })
}
