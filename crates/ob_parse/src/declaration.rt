//! Declarations.

ghost use Rattle.std.specs.Prelude.{◌≡◌, ℕ, ◌≤◌, ◌<◌, length, IfOk, OnSome};
ghost use Rattle.ob_scan.specs.declared.token.Symbol.TheVariants as s;
ghost use Rattle.ob_parse.specs.DeclarationReading as spec;
ghost use Rattle.ob_parse_expression.specs.Reading.{Reader, Reads, many, optional, if_ident};

use crate::structure::{boxed_type, typed_names};
use ob_base::{Items, Refused};
use ob_parse_expression::Parser;
use ob_scan::Symbol;
use ob_tree::tree::{ConstDeclaration, Returned, TypeDeclaration, TypedNames};

/// What stands in a list after CONST, TYPE or VAR.
trait Declaration: Drop {
    /// How one is read, in which so many constructs may nest.
    ghost reader: { ℕ → Reader Self };

    /// One of them.
    fn read(parser: &mut Parser<'_>, levels: u32) -> Result<Self, Refused>
        ensures read { Reads (reader levels parser.old.rest.now) result parser.new.rest.now }
        ensures taken { IfOk result (λ _. length parser.new.rest.now < length parser.old.rest.now) }
        ensures shorter { length parser.new.rest.now ≤ length parser.old.rest.now };
}

impl Declaration for ConstDeclaration {
    ghost reader = { spec.const_declaration };

    #[tactic(auto, unfolding(crate::specs::DeclarationReading::const_declaration))]
    fn read(parser: &mut Parser<'_>, levels: u32) -> Result<ConstDeclaration, Refused> {
        let name = parser.ident_def()?;
        parser.expect(Symbol::Equal)?;
        let value = parser.boxed_expr(levels)?;
        parser.expect(Symbol::Semicolon)?;
        Ok(ConstDeclaration { name, value })
    }
}

impl Declaration for TypeDeclaration {
    ghost reader = { spec.type_declaration };

    #[tactic(auto, unfolding(crate::specs::DeclarationReading::type_declaration))]
    fn read(parser: &mut Parser<'_>, levels: u32) -> Result<TypeDeclaration, Refused> {
        let name = parser.ident_def()?;
        parser.expect(Symbol::Equal)?;
        let of = boxed_type(parser, levels)?;
        parser.expect(Symbol::Semicolon)?;
        Ok(TypeDeclaration { name, of })
    }
}

impl Declaration for TypedNames {
    ghost reader = { spec.variables };

    #[tactic(auto, unfolding(crate::specs::DeclarationReading::variables))]
    fn read(parser: &mut Parser<'_>, levels: u32) -> Result<TypedNames, Refused> {
        let names = typed_names(parser, levels)?;
        parser.expect(Symbol::Semicolon)?;
        Ok(names)
    }
}

/// The constants, if CONST comes next.
pub fn constants(parser: &mut Parser<'_>, levels: u32) -> Result<Items<ConstDeclaration>, Refused>
    ensures read { Reads (optional s.Const (many (if_ident (spec.const_declaration levels))) parser.old.rest.now) result parser.new.rest.now }
    ensures shorter { length parser.new.rest.now ≤ length parser.old.rest.now }
{
    declarations_after(parser, levels, Symbol::Const)
}

/// The types, if TYPE comes next.
pub fn types(parser: &mut Parser<'_>, levels: u32) -> Result<Items<TypeDeclaration>, Refused>
    ensures read { Reads (optional s.Type (many (if_ident (spec.type_declaration levels))) parser.old.rest.now) result parser.new.rest.now }
    ensures shorter { length parser.new.rest.now ≤ length parser.old.rest.now }
{
    declarations_after(parser, levels, Symbol::Type)
}

/// The variables, if VAR comes next.
pub fn variables(parser: &mut Parser<'_>, levels: u32) -> Result<Items<TypedNames>, Refused>
    ensures read { Reads (optional s.Var (many (if_ident (spec.variables levels))) parser.old.rest.now) result parser.new.rest.now }
    ensures shorter { length parser.new.rest.now ≤ length parser.old.rest.now }
{
    declarations_after(parser, levels, Symbol::Var)
}

/// The declarations after a word, if the word comes next.
#[tactic(auto, unfolding(ob_parse_expression::specs::Reading::optional))]
fn declarations_after<D: Declaration>(
    parser: &mut Parser<'_>,
    levels: u32,
    word: Symbol,
) -> Result<Items<D>, Refused>
    ensures read { Reads (optional word (many (if_ident (D.reader levels))) parser.old.rest.now) result parser.new.rest.now }
    ensures shorter { length parser.new.rest.now ≤ length parser.old.rest.now }
{
    if parser.eat(word).is_none() {
        return Ok(Items::new(parser.alloc));
    }
    declarations(parser, levels)
}

fn declarations<D: Declaration>(parser: &mut Parser<'_>, levels: u32) -> Result<Items<D>, Refused>
    ensures read { Reads (many (if_ident (D.reader levels)) parser.old.rest.now) result parser.new.rest.now }
    ensures shorter { length parser.new.rest.now ≤ length parser.old.rest.now }
{
    let mut items = Items::new(parser.alloc);
    while let Some(next) = next_declaration(parser, levels)? {
        items.push(next)?;
    }
    Ok(items)
}

/// A declaration, if a name comes next.
#[tactic(auto, unfolding(ob_parse_expression::specs::Reading::if_ident))]
fn next_declaration<D: Declaration>(
    parser: &mut Parser<'_>,
    levels: u32,
) -> Result<Option<D>, Refused>
    ensures read { Reads (if_ident (D.reader levels) parser.old.rest.now) result parser.new.rest.now }
    ensures shorter { length parser.new.rest.now ≤ length parser.old.rest.now }
    ensures taken { IfOk result (λ found. OnSome found (length parser.new.rest.now < length parser.old.rest.now)) }
{
    if !parser.at_ident() {
        return Ok(None);
    }
    Ok(Some(D::read(parser, levels)?))
}

/// RETURN and its value, if it comes next.
#[tactic(auto, unfolding(crate::specs::DeclarationReading::returned))]
pub fn returned(parser: &mut Parser<'_>, levels: u32) -> Result<Option<Returned>, Refused>
    ensures read { Reads (spec.returned levels parser.old.rest.now) result parser.new.rest.now }
    ensures shorter { length parser.new.rest.now ≤ length parser.old.rest.now }
{
    let Some(span) = parser.eat(Symbol::Return) else {
        return Ok(None);
    };
    let value = parser.boxed_expr(levels)?;
    Ok(Some(Returned { span, value }))
}
