//! Formal parameters.
//!
//! The sections have a loop like that over the fields of a record; the head of structure.rt says why the two stand beside each
//! other.

ghost use Rattle.std.specs.Prelude.{◌≡◌, ◌≤◌, ◌<◌, length, IfOk, OnSome};
ghost use Rattle.ob_scan.specs.declared.token.Symbol.TheVariants as s;
ghost use Rattle.ob_parse.specs.DeclarationReading as spec;
ghost use Rattle.ob_parse_expression.specs.Reading.{Reads, separated, next_item, closed_by};

use ob_base::{Boxed, Items, Refused};
use ob_parse_expression::Parser;
use ob_scan::Symbol;
use ob_tree::tree::{FormalSection, FormalType, Formals, Qualident};

/// The type of a formal parameter, in which `levels` more constructs may nest.
#[cycle(formal)]
#[tactic(auto, unfolding(crate::specs::DeclarationReading::formal_of))]
fn formal_type(parser: &mut Parser<'_>, levels: u32) -> Result<FormalType, Refused>
    ensures read { Reads (spec.formal_type levels parser.old.rest.now) result parser.new.rest.now }
    ensures shorter { length parser.new.rest.now ≤ length parser.old.rest.now }
{
    let Some(span) = parser.eat(Symbol::Array) else {
        return Ok(FormalType::Named(parser.qualident()?));
    };
    let inside = parser.open(levels, span)?;
    parser.expect(Symbol::Of)?;
    let element = boxed_formal(parser, inside)?;
    Ok(FormalType::Open(span, element))
}

/// The same, behind a pointer: so what holds it stays small.
#[cycle(formal)]
fn boxed_formal(parser: &mut Parser<'_>, levels: u32) -> Result<Boxed<FormalType>, Refused>
    ensures read { Reads (spec.formal_type levels parser.old.rest.now) result parser.new.rest.now }
    ensures shorter { length parser.new.rest.now ≤ length parser.old.rest.now }
{
    let value = formal_type(parser, levels)?;
    Ok(Boxed::new(parser.alloc, value)?)
}

#[tactic(auto, unfolding(crate::specs::DeclarationReading::section))]
fn section(parser: &mut Parser<'_>, levels: u32) -> Result<FormalSection, Refused>
    ensures read { Reads (spec.section levels parser.old.rest.now) result parser.new.rest.now }
    ensures shorter { length parser.new.rest.now ≤ length parser.old.rest.now }
{
    let by_reference = parser.eat(Symbol::Var);
    let names = parser.idents()?;
    parser.expect(Symbol::Colon)?;
    let of = boxed_formal(parser, levels)?;
    Ok(FormalSection {
        by_reference,
        names,
        of,
    })
}

#[tactic(auto, unfolding(ob_parse_expression::specs::Reading::separated))]
fn sections(parser: &mut Parser<'_>, levels: u32) -> Result<Items<FormalSection>, Refused>
    ensures read { Reads (separated s.Semicolon (spec.section levels) parser.old.rest.now) result parser.new.rest.now }
    ensures shorter { length parser.new.rest.now ≤ length parser.old.rest.now }
{
    let mut sections = Items::new(parser.alloc);
    sections.push(section(parser, levels)?)?;
    while let Some(next) = next_section(parser, levels)? {
        sections.push(next)?;
    }
    Ok(sections)
}

#[tactic(auto, unfolding(ob_parse_expression::specs::Reading::next_item))]
fn next_section(parser: &mut Parser<'_>, levels: u32) -> Result<Option<FormalSection>, Refused>
    ensures read { Reads (next_item s.Semicolon (spec.section levels) parser.old.rest.now) result parser.new.rest.now }
    ensures shorter { length parser.new.rest.now ≤ length parser.old.rest.now }
    ensures taken { IfOk result (λ found. OnSome found (length parser.new.rest.now < length parser.old.rest.now)) }
{
    if parser.eat(Symbol::Semicolon).is_none() {
        return Ok(None);
    }
    Ok(Some(section(parser, levels)?))
}

/// The sections up to the closing parenthesis.
#[tactic(auto, unfolding(ob_parse_expression::specs::Reading::closed_by))]
fn closed_sections(parser: &mut Parser<'_>, levels: u32) -> Result<Items<FormalSection>, Refused>
    ensures read { Reads (closed_by s.RightParen (separated s.Semicolon (spec.section levels)) parser.old.rest.now) result parser.new.rest.now }
    ensures shorter { length parser.new.rest.now ≤ length parser.old.rest.now }
{
    if parser.eat(Symbol::RightParen).is_some() {
        return Ok(Items::new(parser.alloc));
    }
    let sections = sections(parser, levels)?;
    parser.expect(Symbol::RightParen)?;
    Ok(sections)
}

/// The type after a colon, if one comes next.
#[tactic(auto, unfolding(crate::specs::DeclarationReading::result_type))]
fn result_type(parser: &mut Parser<'_>) -> Result<Option<Qualident>, Refused>
    ensures read { Reads (spec.result_type parser.old.rest.now) result parser.new.rest.now }
    ensures shorter { length parser.new.rest.now ≤ length parser.old.rest.now }
{
    if parser.eat(Symbol::Colon).is_none() {
        return Ok(None);
    }
    Ok(Some(parser.qualident()?))
}

/// What stands after the opening parenthesis of a heading.
#[tactic(auto, unfolding(crate::specs::DeclarationReading::formals_of))]
fn formals_of(parser: &mut Parser<'_>, levels: u32) -> Result<Formals, Refused>
    ensures read { Reads (spec.formals_of levels parser.old.rest.now) result parser.new.rest.now }
    ensures shorter { length parser.new.rest.now ≤ length parser.old.rest.now }
{
    let sections = closed_sections(parser, levels)?;
    let result = result_type(parser)?;
    Ok(Formals { sections, result })
}

/// The formal parameters of a heading, if an opening parenthesis comes next.
#[tactic(auto, unfolding(crate::specs::DeclarationReading::formals))]
pub fn formals(parser: &mut Parser<'_>, levels: u32) -> Result<Option<Boxed<Formals>>, Refused>
    ensures read { Reads (spec.formals levels parser.old.rest.now) result parser.new.rest.now }
    ensures shorter { length parser.new.rest.now ≤ length parser.old.rest.now }
{
    if parser.eat(Symbol::LeftParen).is_none() {
        return Ok(None);
    }
    let formals = formals_of(parser, levels)?;
    Ok(Some(Boxed::new(parser.alloc, formals)?))
}
