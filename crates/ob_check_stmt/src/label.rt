//! The labels of one arm of a CASE.

ghost use Rattle.std.specs.Prelude.{◌≡◌, option_copied, []};
ghost use Rattle.ob_check_scope.specs.Rule.{Judges, through};
ghost use Rattle.ob_check_stmt.specs.Labels as spec;

use crate::labels::Labels;
use ob_base::Items;
use ob_check_scope::predeclared::{
    InputName, OutputName, Predeclared, absent, input_named, output_named,
};
use ob_check_scope::rejected::{Rejected, broken};
use ob_check_scope::rule::RuleCode;
use ob_check_scope::{Entry, Imports, Scope};
use ob_mean::LabelRange as TypedRange;
use ob_scan::Span;
use ob_tree::tree::{Ident, Label, LabelRange, Qualident};
use ob_types::{Basic, Constant, Object};
use std::alloc::Global;

/// All labels of a CASE so far, and those of one arm among them.
pub type Labelling = (Labels, Items<TypedRange>);

/// The constant that a name alone stands for.
#[tactic(auto, unfolding(crate::specs::Labels::own_constant))]
fn own_constant(
    alloc: Global,
    entry: Option<&Entry>,
    before: Predeclared,
    span: Span,
) -> Result<Constant, Rejected>
    ensures { Judges (spec.own_constant (option_copied entry.entry) before) result }
{
    match entry {
        Some(Entry::Constant(constant)) => Ok(constant.copy(alloc)?),
        Some(Entry::Variable(_, _)) => Err(Rejected::Rule(broken(RuleCode::NotConstant, span))),
        Some(_) => Err(Rejected::Rule(broken(RuleCode::Types, span))),
        None => Err(Rejected::Rule(broken(absent(before), span))),
    }
}

#[tactic(auto, unfolding(crate::specs::Labels::object_constant))]
fn object_constant(alloc: Global, object: &Object, span: Span) -> Result<Constant, Rejected>
    ensures { Judges (spec.object_constant object.now) result }
{
    match object {
        Object::Constant(constant) => Ok(constant.copy(alloc)?),
        Object::Variable(_) => Err(Rejected::Rule(broken(RuleCode::NotConstant, span))),
        _ => Err(Rejected::Rule(broken(RuleCode::Types, span))),
    }
}

#[tactic(auto, unfolding(crate::specs::Labels::input_constant))]
fn input_constant(name: InputName, span: Span) -> Result<Constant, Rejected>
    ensures { Judges (spec.input_constant name) result }
{
    match name {
        InputName::Unknown => Err(Rejected::Rule(broken(RuleCode::NotExported, span))),
        InputName::Done => Err(Rejected::Rule(broken(RuleCode::NotConstant, span))),
        _ => Err(Rejected::Rule(broken(RuleCode::Types, span))),
    }
}

#[tactic(auto, unfolding(crate::specs::Labels::output_constant))]
fn output_constant(name: OutputName, span: Span) -> Result<Constant, Rejected>
    ensures { Judges (spec.output_constant name) result }
{
    match name {
        OutputName::Unknown => Err(Rejected::Rule(broken(RuleCode::NotExported, span))),
        _ => Err(Rejected::Rule(broken(RuleCode::Types, span))),
    }
}

/// The constant that a name of another module stands for.
#[tactic(auto, unfolding(crate::specs::Labels::other_constant))]
fn other_constant(
    alloc: Global,
    imports: &Imports,
    entry: Option<&Entry>,
    before: Predeclared,
    first: &Ident,
    name: &Ident,
) -> Result<Constant, Rejected>
    ensures { Judges (spec.other_constant imports.now (option_copied entry.entry) before name.now.name) result }
{
    match entry {
        Some(Entry::Module(_, place)) => match imports.exported_at(*place, &name.name) {
            Some(object) => object_constant(alloc, object, name.span),
            None => Err(Rejected::Rule(broken(RuleCode::NotExported, name.span))),
        },
        Some(Entry::In) => input_constant(input_named(&name.name), name.span),
        Some(Entry::Out) => output_constant(output_named(&name.name), name.span),
        Some(Entry::Variable(_, _)) => Err(Rejected::Rule(broken(
            RuleCode::NotConstant,
            first.span,
        ))),
        Some(_) => Err(Rejected::Rule(broken(RuleCode::Types, first.span))),
        None => Err(Rejected::Rule(broken(absent(before), first.span))),
    }
}

/// The constant that a name stands for.
#[tactic(auto, unfolding(crate::specs::Labels::constant_named))]
fn constant_named(
    alloc: Global,
    imports: &Imports,
    scope: &Scope,
    name: &Qualident,
) -> Result<Constant, Rejected>
    ensures { Judges (spec.constant_named imports.now scope.now name.now) result }
{
    let first = &name.first;
    match &name.second {
        None => own_constant(
            alloc,
            scope.seen(&first.name),
            scope.outer(&first.name),
            first.span,
        ),
        Some(second) => other_constant(
            alloc,
            imports,
            scope.seen(&first.name),
            scope.outer(&first.name),
            first,
            second,
        ),
    }
}

/// Whether characters are looked up, or numbers, by the type of what is looked up.
pub fn is_character(basic: Basic) -> Option<bool>
    ensures { result ≡ spec.is_character basic }
{
    match basic {
        Basic::Integer | Basic::Byte => Some(false),
        Basic::Char => Some(true),
        Basic::Boolean => None,
    }
}

#[tactic(auto, unfolding(crate::specs::Labels::label_constant))]
fn label_constant(
    alloc: Global,
    imports: &Imports,
    scope: &Scope,
    label: &Label,
) -> Result<Constant, Rejected>
    ensures { Judges (spec.label_constant imports.now scope.now label.now) result }
{
    match label {
        Label::Integer(number, _) => Ok(Constant::Integer(*number)),
        Label::Text(chars, _) => Ok(Constant::Text(chars.copy(alloc)?)),
        Label::Name(name) => constant_named(alloc, imports, scope, name),
    }
}

/// The number of the only character.
fn single(chars: &[u8]) -> Option<i32>
    ensures { result ≡ spec.single chars.now }
{
    match chars {
        [one] => Some(*one as i32),
        _ => None,
    }
}

fn character_label(constant: &Constant) -> Option<i32>
    ensures { result ≡ spec.character_label constant.now }
{
    match constant {
        Constant::Char(character) => Some(*character as i32),
        Constant::Text(chars) => single(chars.as_slice()),
        _ => None,
    }
}

fn number_label(constant: &Constant) -> Option<i32>
    ensures { result ≡ spec.number_label constant.now }
{
    match constant {
        Constant::Integer(number) => Some(*number),
        _ => None,
    }
}

/// The number of a label, if it is of the kind that is looked up.
fn number_of_label(character: bool, constant: &Constant) -> Option<i32>
    ensures { result ≡ spec.number_of_label character constant.now }
{
    if character {
        character_label(constant)
    } else {
        number_label(constant)
    }
}

/// The first token of a label.
fn label_span(label: &Label) -> Span {
    match label {
        Label::Integer(_, span) | Label::Text(_, span) => *span,
        Label::Name(name) => name.first.span,
    }
}

#[tactic(auto, unfolding(crate::specs::Labels::label_at))]
fn label_number(
    alloc: Global,
    imports: &Imports,
    scope: &Scope,
    character: bool,
    label: &Label,
) -> Result<i32, Rejected>
    ensures { Judges (spec.label_at imports.now scope.now character label.now) result }
{
    let constant = label_constant(alloc, imports, scope, label)?;
    match number_of_label(character, &constant) {
        Some(number) => Ok(number),
        None => Err(Rejected::Rule(broken(RuleCode::Types, label_span(label)))),
    }
}

#[tactic(auto, unfolding(crate::specs::Labels::last_label))]
fn last_label(
    alloc: Global,
    imports: &Imports,
    scope: &Scope,
    character: bool,
    first: i32,
    label: &Option<Label>,
) -> Result<i32, Rejected>
    ensures { Judges (spec.last_label imports.now scope.now character first label.now) result }
{
    match label {
        None => Ok(first),
        Some(label) => label_number(alloc, imports, scope, character, label),
    }
}

#[tactic(auto, unfolding(crate::specs::Labels::range_at))]
fn range(
    alloc: Global,
    imports: &Imports,
    scope: &Scope,
    character: bool,
    r: &LabelRange,
) -> Result<TypedRange, Rejected>
    ensures { Judges (spec.range_at imports.now scope.now character r.now) result }
{
    let first = label_number(alloc, imports, scope, character, &r.first)?;
    let last = last_label(alloc, imports, scope, character, first, &r.last)?;
    Ok(TypedRange { first, last })
}

#[tactic(auto, unfolding(crate::specs::Labels::with_range))]
fn with_range(before: Labelling, range: TypedRange, span: Span) -> Result<Labelling, Rejected>
    ensures { Judges (spec.with_range before range) result }
{
    let (mut all, mut arm) = before;
    if range.first > range.last {
        return Err(Rejected::Rule(broken(RuleCode::Label, span)));
    }
    if !all.is_free(range) {
        return Err(Rejected::Rule(broken(RuleCode::Label, span)));
    }
    all.add(range)?;
    arm.push(range)?;
    Ok((all, arm))
}

/// One range more.
#[tactic(auto, unfolding(crate::specs::Labels::next_range))]
fn next_range(
    alloc: Global,
    imports: &Imports,
    scope: &Scope,
    character: bool,
    before: Labelling,
    r: &LabelRange,
) -> Result<Labelling, Rejected>
    ensures { Judges (spec.next_range imports.now scope.now character before r.now) result }
{
    let range = range(alloc, imports, scope, character, r)?;
    with_range(before, range, label_span(&r.first))
}

/// The labels of one arm, after those of the CASE so far.
pub fn labels(
    alloc: Global,
    imports: &Imports,
    scope: &Scope,
    character: bool,
    all: Labels,
    list: &[LabelRange],
) -> Result<Labelling, Rejected>
    ensures { Judges (through (spec.next_range imports.now scope.now character) (all, []) list.now) result }
{
    let mut so_far = (all, Items::new(alloc));
    for r in list {
        so_far = next_range(alloc, imports, scope, character, so_far, r)?;
    }
    Ok(so_far)
}
