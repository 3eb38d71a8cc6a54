//! Types, by recursive descent.
//!
//! The fields of a record have a loop of their own, beside that over the sections of formal parameters. Types and fields stand in
//! one circle of calls, where what is repeated can't be handed to a common loop: the proof that the circle ends follows calls by
//! name alone.

ghost use Rattle.std.specs.Prelude.{◌≡◌, ◌≤◌, ◌<◌, length, IfOk, OnSome};
ghost use Rattle.ob_scan.specs.declared.token.Symbol.TheVariants as s;
ghost use Rattle.ob_parse.specs.StructureReading as spec;
ghost use Rattle.ob_parse.specs.StructureReading.{inner};
ghost use Rattle.ob_parse_expression.specs.Reading.{Reads, separated, next_item, closed_by};

use ob_base::{Boxed, Code, Items, Refused};
use ob_parse_expression::Parser;
use ob_scan::{Kind, Span, Symbol, Token};
use ob_tree::tree::{Qualident, TypeExpr, TypedNames};

/// A type in which `levels` more constructs may nest.
#[cycle(structure)]
#[tactic(auto, unfolding(crate::specs::StructureReading::type_of))]
fn type_expr(parser: &mut Parser<'_>, levels: u32) -> Result<TypeExpr, Refused>
    ensures read { Reads (spec.type_expr levels parser.old.rest.now) result parser.new.rest.now }
    ensures shorter { length parser.new.rest.now ≤ length parser.old.rest.now }
{
    let [Token { kind, span }, rest @ ..] = parser.rest else {
        return Err(parser.fault(Code::Token));
    };
    match kind {
        Kind::Ident(_) => named_type(parser),
        Kind::Symbol(Symbol::Array) => {
            parser.rest = rest;
            array_type(parser, levels, *span)
        }
        Kind::Symbol(Symbol::Record) => {
            parser.rest = rest;
            record_type(parser, levels, *span)
        }
        _ => Err(parser.fault(Code::Token)),
    }
}

/// The same, behind a pointer: so what holds it stays small.
#[cycle(structure)]
pub fn boxed_type(parser: &mut Parser<'_>, levels: u32) -> Result<Boxed<TypeExpr>, Refused>
    ensures read { Reads (spec.type_expr levels parser.old.rest.now) result parser.new.rest.now }
    ensures shorter { length parser.new.rest.now ≤ length parser.old.rest.now }
{
    let value = type_expr(parser, levels)?;
    Ok(Boxed::new(parser.alloc, value)?)
}

#[tactic(auto, unfolding(crate::specs::StructureReading::named))]
fn named_type(parser: &mut Parser<'_>) -> Result<TypeExpr, Refused>
    ensures read { Reads (spec.named parser.old.rest.now) result parser.new.rest.now }
    ensures shorter { length parser.new.rest.now ≤ length parser.old.rest.now }
{
    Ok(TypeExpr::Named(parser.qualident()?))
}

/// What stands after ARRAY, whose place is given.
#[cycle(structure)]
#[tactic(auto, unfolding(crate::specs::StructureReading::array))]
fn array_type(parser: &mut Parser<'_>, levels: u32, span: Span) -> Result<TypeExpr, Refused>
    ensures read { Reads (spec.array levels (inner levels) span parser.old.rest.now) result parser.new.rest.now }
    ensures shorter { length parser.new.rest.now ≤ length parser.old.rest.now }
{
    let inside = parser.open(levels, span)?;
    let lengths = parser.exprs(inside)?;
    parser.expect(Symbol::Of)?;
    let element = boxed_type(parser, inside)?;
    Ok(TypeExpr::Array(span, lengths, element))
}

/// What stands after RECORD, whose place is given.
#[cycle(structure)]
#[tactic(auto, unfolding(crate::specs::StructureReading::record_type))]
fn record_type(parser: &mut Parser<'_>, levels: u32, span: Span) -> Result<TypeExpr, Refused>
    ensures read { Reads (spec.record_type levels (inner levels) span parser.old.rest.now) result parser.new.rest.now }
    ensures shorter { length parser.new.rest.now ≤ length parser.old.rest.now }
{
    let inside = parser.open(levels, span)?;
    let base = base(parser)?;
    let fields = closed_fields(parser, inside)?;
    Ok(TypeExpr::Record(span, base, fields))
}

/// The name of the type that is extended, if a parenthesis comes next.
#[tactic(auto, unfolding(crate::specs::StructureReading::base))]
fn base(parser: &mut Parser<'_>) -> Result<Option<Qualident>, Refused>
    ensures read { Reads (spec.base parser.old.rest.now) result parser.new.rest.now }
    ensures shorter { length parser.new.rest.now ≤ length parser.old.rest.now }
{
    if parser.eat(Symbol::LeftParen).is_none() {
        return Ok(None);
    }
    Ok(Some(base_name(parser)?))
}

#[tactic(auto, unfolding(crate::specs::StructureReading::base_name))]
fn base_name(parser: &mut Parser<'_>) -> Result<Qualident, Refused>
    ensures read { Reads (spec.base_name parser.old.rest.now) result parser.new.rest.now }
    ensures shorter { length parser.new.rest.now ≤ length parser.old.rest.now }
{
    let name = parser.qualident()?;
    parser.expect(Symbol::RightParen)?;
    Ok(name)
}

/// The fields up to END.
#[cycle(structure)]
#[tactic(auto, unfolding(ob_parse_expression::specs::Reading::closed_by))]
fn closed_fields(parser: &mut Parser<'_>, levels: u32) -> Result<Items<TypedNames>, Refused>
    ensures read { Reads (closed_by s.End (separated s.Semicolon (spec.typed_names levels)) parser.old.rest.now) result parser.new.rest.now }
    ensures shorter { length parser.new.rest.now ≤ length parser.old.rest.now }
{
    if parser.eat(Symbol::End).is_some() {
        return Ok(Items::new(parser.alloc));
    }
    let fields = fields(parser, levels)?;
    parser.expect(Symbol::End)?;
    Ok(fields)
}

#[cycle(structure)]
#[tactic(auto, unfolding(ob_parse_expression::specs::Reading::separated))]
fn fields(parser: &mut Parser<'_>, levels: u32) -> Result<Items<TypedNames>, Refused>
    ensures read { Reads (separated s.Semicolon (spec.typed_names levels) parser.old.rest.now) result parser.new.rest.now }
    ensures shorter { length parser.new.rest.now ≤ length parser.old.rest.now }
{
    let mut fields = Items::new(parser.alloc);
    fields.push(typed_names(parser, levels)?)?;
    while let Some(next) = next_fields(parser, levels)? {
        fields.push(next)?;
    }
    Ok(fields)
}

#[cycle(structure)]
#[tactic(auto, unfolding(ob_parse_expression::specs::Reading::next_item))]
fn next_fields(parser: &mut Parser<'_>, levels: u32) -> Result<Option<TypedNames>, Refused>
    ensures read { Reads (next_item s.Semicolon (spec.typed_names levels) parser.old.rest.now) result parser.new.rest.now }
    ensures shorter { length parser.new.rest.now ≤ length parser.old.rest.now }
    ensures taken { IfOk result (λ found. OnSome found (length parser.new.rest.now < length parser.old.rest.now)) }
{
    if parser.eat(Symbol::Semicolon).is_none() {
        return Ok(None);
    }
    Ok(Some(typed_names(parser, levels)?))
}

/// Names and their type.
#[cycle(structure)]
#[tactic(auto, unfolding(crate::specs::StructureReading::names_of))]
pub fn typed_names(parser: &mut Parser<'_>, levels: u32) -> Result<TypedNames, Refused>
    ensures read { Reads (spec.typed_names levels parser.old.rest.now) result parser.new.rest.now }
    ensures shorter { length parser.new.rest.now ≤ length parser.old.rest.now }
{
    let names = parser.ident_list()?;
    parser.expect(Symbol::Colon)?;
    let of = boxed_type(parser, levels)?;
    Ok(TypedNames { names, of })
}
