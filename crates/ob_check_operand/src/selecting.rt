//! Fields of records and of their bases, elements of arrays, and guards.

ghost use Rattle.std.specs.Prelude.{◌≡◌, IfOk, option_map};
ghost use Rattle.ob_check_scope.specs.declared.rule.RuleCode.TheVariants as code;
ghost use Rattle.ob_check_scope.specs.Rule.{Judges, there};
ghost use Rattle.ob_types.specs.declared.structure.ObType.{out-ObType};
ghost use Rattle.ob_types.specs.declared.structure.ObType.TheOpen.{ObType-F};
ghost use Rattle.ob_types.specs.Types.{chain};
ghost use Rattle.ob_check_const.specs.NamedTypes.{written};
ghost use Rattle.ob_check_operand.specs.Mapped.{result_map};
ghost use Rattle.ob_check_operand.specs.Selecting as spec;

use crate::operand::Operand;
use ob_base::{Boxed, Text};
use ob_check_const::named_type::{NameOfType, is_record, type_named};
use ob_check_kinds::levels_to;
use ob_check_scope::rejected::{Rejected, broken};
use ob_check_scope::rule::RuleCode;
use ob_check_scope::{Imports, Scope, Site};
use ob_check_strings::Variables;
use ob_mean::{Designator, TypedExpr};
use ob_scan::Span;
use ob_tree::tree::Ident;
use ob_types::{Basic, Field, Form, ObType, RecordType, base_of, same};
use std::alloc::{AllocError, Global};

/// A variable or a part of one: its type, its place, the variables of the module so far, and whether a type is told of it.
pub type Selected = (ObType, Designator, Variables, bool);

/// The field of a name among a record's own: the module of the record, its number, and the field.
fn field_in<'a>(record: &'a RecordType, name: &Text) -> Option<(&'a Text, usize, &'a Field)>
    ensures { option_map (λ p. (p.0.now, p.1, p.2.now)) result ≡ spec.own_layer (ObType-F.Record record.now) name.now }
{
    match record.place_of(name) {
        Some(number) => Some((&record.name().module_name, number, &record.fields()[number])),
        None => None,
    }
}

fn no_field(own: bool) -> RuleCode
    ensures { result ≡ spec.no_field own }
{
    if own {
        RuleCode::UnknownName
    } else {
        RuleCode::NotExported
    }
}

/// The same of a type, which may be no record.
fn own_field<'a>(of: &'a ObType, name: &Text) -> Option<(&'a Text, usize, &'a Field)>
    ensures { option_map (λ p. (p.0.now, p.1, p.2.now)) result ≡ spec.own_layer (out-ObType of.now) name.now }
{
    match of.form() {
        Form::Record(record) => field_in(record.get(), name),
        Form::Basic(_) | Form::Array(_, _) | Form::Open(_) => None,
    }
}

/// The field of a name in a record or its bases: the module of its record, the field, and its place.
#[tactic(auto, using(crate::proofs::Chains::field_step, ob_types::proofs::Equations::base_lower))]
fn field_along<'a>(
    alloc: Global,
    of: &'a ObType,
    name: &Text,
    place: Designator,
) -> Result<Option<(&'a Text, &'a Field, Designator)>, AllocError>
    ensures { IfOk result (λ o. option_map (λ p. (p.0.now, p.1.now, p.2)) o ≡ spec.field_along (chain of.now) name.now place) }
{
    match own_field(of, name) {
        Some((home, number, field)) => {
            let part = Designator::Field(Boxed::new(alloc, place)?, number);
            Ok(Some((home, field, part)))
        }
        None => match base_of(of) {
            Some(base) => {
                let part = Designator::Field(Boxed::new(alloc, place)?, 0);
                field_along(alloc, base, name, part)
            }
            None => Ok(None),
        },
    }
}

#[tactic(auto, unfolding(crate::specs::Selecting::seen_field))]
fn seen_field<'a>(
    scope: &Scope,
    own: bool,
    found: Option<(&'a Text, &'a Field, Designator)>,
    span: Span,
) -> Result<(&'a ObType, Designator), Rejected>
    ensures { Judges (spec.seen_field scope.now.module_name own (option_map (λ p. (p.0.now, p.1.now, p.2)) found.entry)) (result_map (λ p. (p.0.now, p.1)) result) }
{
    match found {
        None => Err(Rejected::Rule(broken(no_field(own), span))),
        Some((home, field, place)) => {
            if home.same(&scope.module_name) || field.exported() {
                Ok((field.of(), place))
            } else {
                Err(Rejected::Rule(broken(RuleCode::NotExported, span)))
            }
        }
    }
}

/// The field of a name in a variable: its type and its place.
#[tactic(auto, unfolding(crate::specs::Selecting::field_of))]
pub fn field_of<'a>(
    alloc: Global,
    scope: &Scope,
    of: &'a ObType,
    name: &Ident,
    place: Designator,
) -> Result<(&'a ObType, Designator), Rejected>
    ensures { Judges (spec.field_of scope.now of.now name.now.name place) (result_map (λ p. (p.0.now, p.1)) result) }
{
    match of.form() {
        Form::Record(record) => {
            let own = record.get().name().module_name.same(&scope.module_name);
            let found = field_along(alloc, of, &name.name, place)?;
            seen_field(scope, own, found, name.span)
        }
        Form::Basic(_) | Form::Array(_, _) | Form::Open(_) => {
            Err(Rejected::Rule(broken(RuleCode::Types, name.span)))
        }
    }
}

/// The part of a variable that is of the type `to`: the variable itself, the base of it, and so on.
#[tactic(auto, using(crate::proofs::Chains::part_step, ob_types::proofs::Equations::base_lower))]
pub fn part_as(
    alloc: Global,
    to: &ObType,
    of: &ObType,
    place: Designator,
) -> Result<Option<Designator>, AllocError>
    ensures { IfOk result (λ part. part ≡ spec.part_as to.now of.now place) }
{
    if same(to, of) {
        return Ok(Some(place));
    }
    match base_of(of) {
        Some(base) => {
            let part = Designator::Field(Boxed::new(alloc, place)?, 0);
            part_as(alloc, to, base, part)
        }
        None => Ok(None),
    }
}

/// The type of the elements of an array.
pub fn element_of<'a>(of: &'a ObType, span: Span) -> Result<&'a ObType, Rejected>
    ensures { Judges (there (spec.element_of of.now) code.Types) (result_map (λ t. t.now) result) }
{
    match of.form() {
        Form::Array(_, element) | Form::Open(element) => Ok(element.get()),
        Form::Basic(_) | Form::Record(_) => Err(Rejected::Rule(broken(RuleCode::Types, span))),
    }
}

/// The record type of a name, and how many bases down from it the type `of` stands: that type itself, or an extension of it. 12
/// at `fault` where it is neither; the codes of a name of a type, where that is broken.
#[tactic(auto, unfolding(crate::specs::Selecting::extension_named))]
pub fn extension_named(
    imports: &Imports,
    scope: &Scope,
    of: &ObType,
    name: NameOfType<'_>,
    fault: Span,
) -> Result<(ObType, usize), Rejected>
    ensures { Judges (spec.extension_named imports.now scope.now of.now (written name.entry)) result }
{
    let to = type_named(imports, scope, name)?;
    if !is_record(&to) {
        return Err(Rejected::Rule(broken(RuleCode::Types, fault)));
    }
    match levels_to(of, &to)? {
        Some(levels) => Ok((to, levels)),
        None => Err(Rejected::Rule(broken(RuleCode::Types, fault))),
    }
}

/// The line of a place.
fn line_of(span: Span) -> usize
    ensures { result ≡ span.line }
{
    span.line as usize
}

/// What is guarded: a record of the type that the guard names. 12 at the name where no type is told of it, or where that is no
/// record type that is its type or extends it.
#[tactic(auto, unfolding(crate::specs::Selecting::guarded))]
pub fn guarded(site: Site<'_>, at: Selected, name: NameOfType<'_>) -> Result<Selected, Rejected>
    ensures { Judges (spec.guarded site.entry.imports.now site.entry.scope.now at (written name.entry)) result }
{
    let (of, place, variables, told) = at;
    let span = name.first.span;
    let line = line_of(span);
    let (to, levels) = extension_named(site.imports, site.scope, &of, name, span)?;
    if !told {
        return Err(Rejected::Rule(broken(RuleCode::Types, span)));
    }
    let mut variables = variables;
    let kind = Boxed::new(site.alloc, variables.kind_of(&to)?)?;
    let inner = Boxed::new(site.alloc, place)?;
    let place = Designator::Guarded(inner, line, kind, levels);
    Ok((to, place, variables, true))
}

/// A test of what a variable names: whether it is of the type of this name, or of one that extends that. 12 at `fault` where no
/// type is told of it, or where the name is of no record type that is its type or extends it.
#[tactic(auto, unfolding(crate::specs::Selecting::tested))]
pub fn tested(
    site: Site<'_>,
    at: Selected,
    name: NameOfType<'_>,
    fault: Span,
) -> Result<(Operand, Variables), Rejected>
    ensures { Judges (spec.tested site.entry.imports.now site.entry.scope.now at (written name.entry)) result }
{
    let (of, place, variables, told) = at;
    if !told {
        return Err(Rejected::Rule(broken(RuleCode::Types, fault)));
    }
    let (to, _) = extension_named(site.imports, site.scope, &of, name, fault)?;
    let mut variables = variables;
    let kind = variables.kind_of(&to)?;
    let test = TypedExpr::Test(place, kind.names);
    Ok((Operand::Value(Basic::Boolean, test), variables))
}
