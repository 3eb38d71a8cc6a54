//! Modules.

ghost use Rattle.std.specs.Prelude.{◌≡◌, ◌≤◌, ◌<◌, length, IfOk, OnSome};
ghost use Rattle.ob_scan.specs.declared.token.Symbol.TheVariants as s;
ghost use Rattle.ob_parse.specs.GrammarReading as spec;
ghost use Rattle.ob_parse_expression.specs.Reading.{Reads, separated, next_item, optional};

use crate::procedure::{body, declarations, name_again};
use ob_base::{Items, Refused};
use ob_parse_expression::Parser;
use ob_scan::Symbol;
use ob_tree::tree::{Ident, Import, Module};

/// How many constructs nest.
const MAX_NESTING: u32 = 200;

/// The name after `:=`, if that sign comes next.
#[tactic(auto, unfolding(crate::specs::GrammarReading::own_name))]
fn own_name(parser: &mut Parser<'_>) -> Result<Option<Ident>, Refused>
    ensures read { Reads (spec.own_name parser.old.rest.now) result parser.new.rest.now }
    ensures shorter { length parser.new.rest.now ≤ length parser.old.rest.now }
{
    if parser.eat(Symbol::Becomes).is_none() {
        return Ok(None);
    }
    Ok(Some(parser.ident()?))
}

#[tactic(auto, unfolding(crate::specs::GrammarReading::import_of))]
fn import(parser: &mut Parser<'_>) -> Result<Import, Refused>
    ensures read { Reads (spec.import_of parser.old.rest.now) result parser.new.rest.now }
    ensures shorter { length parser.new.rest.now ≤ length parser.old.rest.now }
{
    let name = parser.ident()?;
    let module_name = own_name(parser)?;
    Ok(Import { name, module_name })
}

#[tactic(auto, unfolding(ob_parse_expression::specs::Reading::separated))]
fn import_items(parser: &mut Parser<'_>) -> Result<Items<Import>, Refused>
    ensures read { Reads (separated s.Comma spec.import_of parser.old.rest.now) result parser.new.rest.now }
    ensures shorter { length parser.new.rest.now ≤ length parser.old.rest.now }
{
    let mut imports = Items::new(parser.alloc);
    imports.push(import(parser)?)?;
    while let Some(next) = next_import(parser)? {
        imports.push(next)?;
    }
    Ok(imports)
}

#[tactic(auto, unfolding(ob_parse_expression::specs::Reading::next_item))]
fn next_import(parser: &mut Parser<'_>) -> Result<Option<Import>, Refused>
    ensures read { Reads (next_item s.Comma spec.import_of parser.old.rest.now) result parser.new.rest.now }
    ensures shorter { length parser.new.rest.now ≤ length parser.old.rest.now }
    ensures taken { IfOk result (λ found. OnSome found (length parser.new.rest.now < length parser.old.rest.now)) }
{
    if parser.eat(Symbol::Comma).is_none() {
        return Ok(None);
    }
    Ok(Some(import(parser)?))
}

/// What stands after IMPORT.
#[tactic(auto, unfolding(crate::specs::GrammarReading::import_list))]
fn import_list(parser: &mut Parser<'_>) -> Result<Items<Import>, Refused>
    ensures read { Reads (spec.import_list parser.old.rest.now) result parser.new.rest.now }
    ensures shorter { length parser.new.rest.now ≤ length parser.old.rest.now }
{
    let imports = import_items(parser)?;
    parser.expect(Symbol::Semicolon)?;
    Ok(imports)
}

/// The imports, if IMPORT comes next.
#[tactic(auto, unfolding(ob_parse_expression::specs::Reading::optional))]
fn imports(parser: &mut Parser<'_>) -> Result<Items<Import>, Refused>
    ensures read { Reads (optional s.Import spec.import_list parser.old.rest.now) result parser.new.rest.now }
    ensures shorter { length parser.new.rest.now ≤ length parser.old.rest.now }
{
    if parser.eat(Symbol::Import).is_none() {
        return Ok(Items::new(parser.alloc));
    }
    import_list(parser)
}

/// What stands after MODULE.
#[tactic(auto, unfolding(crate::specs::GrammarReading::module_of))]
pub fn module(parser: &mut Parser<'_>) -> Result<Module, Refused>
    ensures read { Reads (spec.module_of parser.old.rest.now) result parser.new.rest.now }
{
    let name = parser.ident()?;
    parser.expect(Symbol::Semicolon)?;
    let imports = imports(parser)?;
    let declarations = declarations(parser, MAX_NESTING)?;
    let body = body(parser, MAX_NESTING)?;
    parser.expect(Symbol::End)?;
    name_again(parser, &name)?;
    parser.expect(Symbol::Period)?;
    Ok(Module {
        name,
        imports,
        declarations,
        body,
    })
}
