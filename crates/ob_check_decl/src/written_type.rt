//! Types as they are written.

ghost use Rattle.std.specs.Prelude.{◌≡◌, ◌<◌, ◌++◌, [], length, map, reverse, option_copied, IfOk};
ghost use Rattle.ob_check_scope.specs.Rule.{Judges, through};
ghost use Rattle.ob_check_scope.specs.Scope.{in_heading};
ghost use Rattle.ob_check_scope.specs.Sites.{on};
ghost use Rattle.ob_check_const.specs.NamedTypes.{type_named};
ghost use Rattle.ob_check_decl.specs.WrittenTypes as spec;
ghost use Rattle.ob_types.specs.declared.structure.ObType.{out-ObType};
ghost use Rattle.ob_types.specs.Types.{chain};

use ob_base::{Items, Text};
use ob_check_const::constant::constant;
use ob_check_const::named_type::{is_record, name_of_type, qualified, type_named};
use ob_check_scope::block::Block;
use ob_check_scope::imports::Imports;
use ob_check_scope::names::Names;
use ob_check_scope::rejected::{Rejected, broken, open};
use ob_check_scope::rule::RuleCode;
use ob_check_scope::scope::Scope;
use ob_check_scope::site::Site;
use ob_scan::Span;
use ob_tree::tree::{Expr, IdentDef, Qualident, TypeExpr, TypedNames};
use ob_types::{
    Constant, Field, Form, MAX_CELLS, MAX_LEVELS, ObType, RecordName, base_of, is_admitted, levels,
    zero_size,
};
use std::alloc::{AllocError, Global};

/// A type that was written, and how many words RECORD stand up to its end in its declaration.
#[derive(Drop)]
pub struct Written {
    pub of: ObType,
    pub records: u32,
}

/// The fields of a record so far: their names, how many cells they take, and how many words RECORD stand up to here.
#[derive(Drop)]
pub struct Fields {
    pub names: Names,
    pub fields: Items<Field>,
    pub cells: u32,
    pub records: u32,
}

/// The type that a name stands for in a heading, after these parameters. The codes are those of any name of a type.
#[tactic(auto, unfolding(ob_check_const::specs::NamedTypes::type_named))]
pub(crate) fn type_in_heading(
    modules: &Imports,
    scope: &Scope,
    parameters: &Block,
    name: &Qualident,
) -> Result<ObType, Rejected>
    ensures { Judges (type_named modules.now (in_heading scope.now parameters.now) name.now) result }
{
    let first = &name.first.name;
    qualified(
        modules,
        scope.seen_in_heading(parameters, first),
        scope.outer_in_heading(parameters, first),
        name_of_type(name),
    )
}

/// The length that a constant is.
#[tactic(auto, unfolding(crate::specs::WrittenTypes::length_of))]
fn length_of(constant: &Constant, span: Span) -> Result<u32, Rejected>
    ensures { Judges (spec.length_of constant.now) result }
{
    match constant {
        Constant::Integer(number) => {
            let number = *number;
            if number < 1 {
                return Err(Rejected::Rule(broken(RuleCode::Size, span)));
            }
            if number > MAX_CELLS as i32 {
                return Err(Rejected::Rule(broken(RuleCode::Size, span)));
            }
            Ok(number as u32)
        }
        _ => Err(Rejected::Rule(broken(RuleCode::Types, span))),
    }
}

#[tactic(auto, unfolding(crate::specs::WrittenTypes::inner_constant))]
fn inner_constant(site: Site<'_>, e: &Expr) -> Result<Constant, Rejected>
    ensures { Judges (on spec.inner_constant site.entry e.now) result }
{
    let inside = open(site.levels, e.first_token())?;
    constant(
        Site {
            levels: inside,
            ..site
        },
        e,
    )
}

/// One length more.
#[tactic(auto, unfolding(crate::specs::WrittenTypes::next_length))]
fn next_length(site: Site<'_>, so_far: Items<u32>, e: &Expr) -> Result<Items<u32>, Rejected>
    ensures { Judges (spec.next_length (on spec.inner_constant site.entry) so_far e.now) result }
{
    let mut so_far = so_far;
    let value = inner_constant(site, e)?;
    let length = length_of(&value, e.first_token())?;
    so_far.push(length)?;
    Ok(so_far)
}

fn lengths_of(site: Site<'_>, list: &[Expr]) -> Result<Items<u32>, Rejected>
    ensures { Judges (through (spec.next_length (on spec.inner_constant site.entry)) [] list.now) result }
{
    let mut so_far = Items::new(site.alloc);
    for e in list {
        so_far = next_length(site, so_far, e)?;
    }
    Ok(so_far)
}

/// An array of `length` of these.
#[tactic(auto, unfolding(crate::specs::WrittenTypes::array_of))]
fn array_of(alloc: Global, element: ObType, length: u32, span: Span) -> Result<ObType, Rejected>
    ensures { Judges (spec.array_of element length) result }
{
    let of = ObType::array(alloc, length, element)?;
    if !is_admitted(&of) {
        return Err(Rejected::Rule(broken(RuleCode::Size, span)));
    }
    Ok(of)
}

/// Arrays of arrays, the last length innermost.
fn arrays_of(
    alloc: Global,
    element: ObType,
    lengths: &[u32],
    span: Span,
) -> Result<ObType, Rejected>
    ensures { Judges (through spec.array_of element (reverse lengths.now)) result }
{
    let mut so_far = element;
    let mut i = lengths.len();
    while i > 0 {
        i -= 1;
        so_far = array_of(alloc, so_far, lengths[i], span)?;
    }
    Ok(so_far)
}

fn numbered(alloc: Global, naming: &RecordName, before: u32) -> Result<RecordName, AllocError>
    ensures { IfOk result (λ n. n ≡ spec.numbered naming.now before) }
{
    let mut name = naming.copy(alloc)?;
    name.before = before;
    Ok(name)
}

/// One name of a field more.
#[tactic(auto, unfolding(crate::specs::WrittenTypes::field_name))]
fn field_name(alloc: Global, so_far: Names, name: &IdentDef) -> Result<Names, Rejected>
    ensures { Judges (spec.field_name so_far name.now) result }
{
    let mut so_far = so_far;
    if so_far.contains(&name.name.name) {
        return Err(Rejected::Rule(broken(RuleCode::DeclaredTwice, name.name.span)));
    }
    so_far.push(alloc, &name.name.name)?;
    Ok(so_far)
}

fn field_names(alloc: Global, first: Names, names: &[IdentDef]) -> Result<Names, Rejected>
    ensures { Judges (through spec.field_name first names.now) result }
{
    let mut so_far = first;
    for name in names {
        so_far = field_name(alloc, so_far, name)?;
    }
    Ok(so_far)
}

fn push_fields(
    alloc: Global,
    first: Items<Field>,
    names: &[IdentDef],
    of: &ObType,
) -> Result<Items<Field>, AllocError>
    ensures { IfOk result (λ fs. fs ≡ first ++ map (spec.field_of of.now) names.now) }
{
    let mut so_far = first;
    for name in names {
        let field = Field::new(
            name.name.name.copy(alloc)?,
            name.mark.is_some(),
            of.another()?,
        );
        so_far.push(field)?;
    }
    Ok(so_far)
}

/// The cells of a record with `count` more fields of a type, if they fit.
fn cells_with(taken: u32, count: usize, of: &ObType) -> Option<u32>
    ensures { result ≡ spec.cells_with taken count of.now }
{
    if levels(of) >= MAX_LEVELS {
        return None;
    }
    let more = count.checked_mul(zero_size(of) as usize)?;
    let total = more.checked_add(taken as usize)?;
    if total > MAX_CELLS as usize {
        return None;
    }
    Some(total as u32)
}

fn push_names(alloc: Global, first: Names, fields: &[Field]) -> Result<Names, AllocError>
    ensures { IfOk result (λ names. names ≡ first ++ spec.names_of fields.now) }
{
    let mut so_far = first;
    for field in fields {
        so_far.push(alloc, field.name())?;
    }
    Ok(so_far)
}

fn own_names(alloc: Global, first: Names, of: &ObType) -> Result<Names, AllocError>
    ensures { IfOk result (λ names. names ≡ first ++ spec.names_layer (out-ObType of.now)) }
{
    match of.form() {
        Form::Record(record) => push_names(alloc, first, record.get().fields()),
        Form::Basic(_) | Form::Array(_, _) | Form::Open(_) => Ok(first),
    }
}

/// The names of a record's fields, and of those of its bases.
#[tactic(auto, using(ob_types::proofs::Equations::base_lower))]
fn inherited(alloc: Global, first: Names, of: &ObType) -> Result<Names, AllocError>
    ensures { IfOk result (λ names. names ≡ first ++ spec.names_along (chain of.now)) }
{
    let so_far = own_names(alloc, first, of)?;
    match base_of(of) {
        Some(base) => inherited(alloc, so_far, base),
        None => Ok(so_far),
    }
}

/// The beginning of an extension of this type: its base, whose fields it has.
#[tactic(auto, unfolding(crate::specs::WrittenTypes::extended))]
fn extended(
    alloc: Global,
    records: u32,
    of: ObType,
    span: Span,
    at: Span,
) -> Result<Fields, Rejected>
    ensures { Judges (spec.extended records of) result }
{
    if !is_record(&of) {
        return Err(Rejected::Rule(broken(RuleCode::Types, at)));
    }
    match cells_with(0, 1, &of) {
        None => Err(Rejected::Rule(broken(RuleCode::Size, span))),
        Some(cells) => {
            let names = inherited(alloc, Names::new(alloc), &of)?;
            let mut fields = Items::new(alloc);
            let base = Field::new(Text::from_vec(Vec::new(alloc)), false, of);
            fields.push(base)?;
            Ok(Fields {
                names,
                fields,
                cells,
                records,
            })
        }
    }
}

/// The beginning of a record, which may be an extension.
#[tactic(auto, unfolding(crate::specs::WrittenTypes::begun))]
fn begun(
    site: Site<'_>,
    records: u32,
    span: Span,
    base: &Option<Qualident>,
) -> Result<Fields, Rejected>
    ensures { Judges (spec.begun site.entry.imports.now site.entry.scope.now records base.now) result }
{
    match base {
        None => Ok(Fields {
            names: Names::new(site.alloc),
            fields: Items::new(site.alloc),
            cells: 0,
            records,
        }),
        Some(name) => {
            let of = type_named(site.imports, site.scope, name_of_type(name))?;
            extended(site.alloc, records, of, span, name.first.span)
        }
    }
}

/// A type as it is written, after `records` words RECORD of its declaration.
#[cycle(written)]
#[tactic(auto, unfolding(crate::specs::WrittenTypes::type_at, crate::specs::WrittenTypes::type_rule))]
pub fn written_type(
    site: Site<'_>,
    naming: &RecordName,
    records: u32,
    t: &TypeExpr,
) -> Result<Written, Rejected>
    ensures { Judges (spec.type_at site.entry.imports.now site.entry.scope.now naming.now site.entry.levels records t.now) result }
{
    match t {
        TypeExpr::Named(name) => {
            let of = type_named(site.imports, site.scope, name_of_type(name))?;
            Ok(Written { of, records })
        }
        TypeExpr::Array(span, lengths, element) => {
            let lengths = lengths_of(site, lengths.as_slice())?;
            let element = inner_type(site, naming, records, *span, element.get())?;
            let of = arrays_of(site.alloc, element.of, lengths.as_slice(), *span)?;
            Ok(Written {
                of,
                records: element.records,
            })
        }
        TypeExpr::Record(span, base, fields) => {
            if records == u32::MAX {
                return Err(Rejected::Rule(broken(RuleCode::Size, *span)));
            }
            record_type(site, naming, records, *span, base, fields.as_slice())
        }
    }
}

/// A record, after `records` words RECORD.
#[cycle(written)]
#[tactic(auto, unfolding(crate::specs::WrittenTypes::record_rule))]
fn record_type(
    site: Site<'_>,
    naming: &RecordName,
    records: u32,
    span: Span,
    base: &Option<Qualident>,
    list: &[TypedNames],
) -> Result<Written, Rejected>
    requires { records < 4294967295 }
    ensures { Judges (spec.record_rule site.entry.imports.now site.entry.scope.now (spec.inner_type site.entry.imports.now site.entry.scope.now naming.now site.entry.levels) naming.now records base.now list.now) result }
{
    let first = begun(site, records + 1, span, base)?;
    let all = all_fields(site, naming, first, span, list)?;
    let name = numbered(site.alloc, naming, records)?;
    Ok(Written {
        of: ObType::record(site.alloc, name, all.fields)?,
        records: all.records,
    })
}

#[cycle(written)]
fn all_fields(
    site: Site<'_>,
    naming: &RecordName,
    first: Fields,
    span: Span,
    list: &[TypedNames],
) -> Result<Fields, Rejected>
    ensures { Judges (through (spec.next_fields (spec.inner_type site.entry.imports.now site.entry.scope.now naming.now site.entry.levels)) first list.now) result }
{
    let mut so_far = first;
    for x in list {
        so_far = next_fields(site, naming, so_far, x, span)?;
    }
    Ok(so_far)
}

/// Fields of one type.
#[cycle(written)]
#[tactic(auto, unfolding(crate::specs::WrittenTypes::next_fields))]
fn next_fields(
    site: Site<'_>,
    naming: &RecordName,
    so_far: Fields,
    x: &TypedNames,
    span: Span,
) -> Result<Fields, Rejected>
    ensures { Judges (spec.next_fields (spec.inner_type site.entry.imports.now site.entry.scope.now naming.now site.entry.levels) so_far x.now) result }
{
    let list = x.names.as_slice();
    let names = field_names(site.alloc, so_far.names, list)?;
    let written = inner_type(site, naming, so_far.records, span, x.of.get())?;
    match cells_with(so_far.cells, list.len(), &written.of) {
        Some(cells) => {
            let fields = push_fields(site.alloc, so_far.fields, list, &written.of)?;
            Ok(Fields {
                names,
                fields,
                cells,
                records: written.records,
            })
        }
        None => Err(Rejected::Rule(broken(RuleCode::Size, span))),
    }
}

/// A type inside one construct more.
#[cycle(written)]
#[tactic(auto, unfolding(crate::specs::WrittenTypes::inner_type, crate::specs::WrittenTypes::type_at))]
fn inner_type(
    site: Site<'_>,
    naming: &RecordName,
    records: u32,
    span: Span,
    t: &TypeExpr,
) -> Result<Written, Rejected>
    ensures { Judges (spec.inner_type site.entry.imports.now site.entry.scope.now naming.now site.entry.levels records t.now) result }
{
    let inside = open(site.levels, span)?;
    let inside = Site {
        levels: inside,
        ..site
    };
    written_type(inside, naming, records, t)
}
