//! Headings of procedures.

ghost use Rattle.std.specs.Prelude.{◌≡◌, [], None, IfOk};
ghost use Rattle.ob_check_scope.specs.Block.{find};
ghost use Rattle.ob_tree.specs.declared.tree.Procedure.{out-Procedure};
ghost use Rattle.ob_check_scope.specs.Rule.{Judges, through};
ghost use Rattle.ob_check_scope.specs.Scope.{in_heading};
ghost use Rattle.ob_check_decl.specs.Headings as spec;

use crate::declaration::new_name;
use crate::written_type::type_in_heading;
use ob_base::{Boxed, Items};
use ob_check_scope::block::{Block, Entry, Standing};
use ob_check_scope::imports::Imports;
use ob_check_scope::names::Names;
use ob_check_scope::rejected::{Rejected, broken, open};
use ob_check_scope::rule::RuleCode;
use ob_check_scope::scope::Scope;
use ob_check_scope::site::Site;
use ob_scan::Span;
use ob_tree::tree::{FormalSection, FormalType, Formals, Ident, Procedure, Qualident};
use ob_types::{Basic, Form, Formal, FormalKind, ObType, Signature, is_admitted};
use std::alloc::Global;

/// The formal parameters so far, and the block that they make.
#[derive(Drop)]
pub struct Parameters {
    pub formals: Items<Formal>,
    pub block: Block,
}

/// The heading of a procedure: its signature, and the block of its parameters.
#[derive(Drop)]
pub struct Heading {
    pub signature: Signature,
    pub block: Block,
}

/// A procedure that was entered: the scope inside, after its parameters, and its signature.
#[derive(Drop)]
pub struct Entered {
    pub scope: Scope,
    pub signature: Signature,
}

/// An open array of a type.
#[tactic(auto, unfolding(crate::specs::Headings::open_of))]
fn open_of(alloc: Global, element: ObType, span: Span) -> Result<ObType, Rejected>
    ensures { Judges (spec.open_of element) result }
{
    let of = ObType::open(alloc, element)?;
    if !is_admitted(&of) {
        return Err(Rejected::Rule(broken(RuleCode::Size, span)));
    }
    Ok(of)
}

/// The type of a formal parameter after these. `levels` says how many more constructs may nest.
#[cycle(formal)]
#[tactic(auto, unfolding(crate::specs::Headings::formal_at, crate::specs::Headings::formal_rule))]
fn formal_type(site: Site<'_>, parameters: &Block, of: &FormalType) -> Result<ObType, Rejected>
    ensures { Judges (spec.formal_at site.entry.imports.now (in_heading site.entry.scope.now parameters.now) site.entry.levels of.now) result }
{
    match of {
        FormalType::Named(name) => type_in_heading(site.imports, site.scope, parameters, name),
        FormalType::Open(span, element) => {
            let element = inner_formal(site, parameters, *span, element.get())?;
            open_of(site.alloc, element, *span)
        }
    }
}

/// The type of a formal parameter inside one construct more.
#[cycle(formal)]
#[tactic(auto, unfolding(crate::specs::Headings::inner_formal, crate::specs::Headings::formal_at))]
fn inner_formal(
    site: Site<'_>,
    parameters: &Block,
    span: Span,
    of: &FormalType,
) -> Result<ObType, Rejected>
    ensures { Judges (spec.inner_formal site.entry.imports.now (in_heading site.entry.scope.now parameters.now) site.entry.levels of.now) result }
{
    let inside = open(site.levels, span)?;
    formal_type(
        Site {
            levels: inside,
            ..site
        },
        parameters,
        of,
    )
}

fn kind_of(by_reference: bool) -> FormalKind
    ensures { result ≡ spec.kind_of by_reference }
{
    if by_reference {
        FormalKind::Variable
    } else {
        FormalKind::Value
    }
}

fn standing_of(by_reference: bool, of: &ObType, number: usize) -> Standing
    ensures { result ≡ spec.standing_of by_reference of.now number }
{
    if by_reference {
        return Standing::ByParameter(number);
    }
    match of.form() {
        Form::Basic(_) => Standing::Local(number),
        _ => Standing::ReadOnly(number),
    }
}

/// One parameter more.
#[tactic(auto, unfolding(crate::specs::Headings::parameter_rule))]
fn parameter(
    alloc: Global,
    by_reference: bool,
    of: &ObType,
    so_far: Parameters,
    name: &Ident,
) -> Result<Parameters, Rejected>
    ensures { Judges (spec.parameter_rule by_reference of.now so_far name.now) result }
{
    let mut so_far = so_far;
    if so_far.block.find(&name.name).is_some() {
        return Err(Rejected::Rule(broken(RuleCode::DeclaredTwice, name.span)));
    }
    let number = so_far.block.declared().len();
    let entry = Entry::Variable(of.another()?, standing_of(by_reference, of, number));
    so_far.block.declare(alloc, &name.name, false, entry)?;
    so_far.formals.push(Formal {
        kind: kind_of(by_reference),
        of: of.another()?,
    })?;
    Ok(so_far)
}

fn all_parameters(
    alloc: Global,
    by_reference: bool,
    of: &ObType,
    first: Parameters,
    names: &[Ident],
) -> Result<Parameters, Rejected>
    ensures { Judges (through (spec.parameter_rule by_reference of.now) first names.now) result }
{
    let mut so_far = first;
    for name in names {
        so_far = parameter(alloc, by_reference, of, so_far, name)?;
    }
    Ok(so_far)
}

/// The names of parameters of one type, none of which stands in the heading before.
fn parameter_names(alloc: Global, block: &Block, list: &[Ident]) -> Result<Names, Rejected>
    ensures { Judges (through (spec.parameter_name block.now) [] list.now) result }
{
    let mut so_far = Names::new(alloc);
    for name in list {
        so_far = new_name(alloc, block, so_far, name)?;
    }
    Ok(so_far)
}

/// Parameters of this type.
fn parameters_of(
    alloc: Global,
    of: &ObType,
    so_far: Parameters,
    x: &FormalSection,
) -> Result<Parameters, Rejected>
    ensures { Judges (spec.parameters_of of.now so_far x.now) result }
{
    all_parameters(
        alloc,
        x.by_reference.is_some(),
        of,
        so_far,
        x.names.as_slice(),
    )
}

/// Parameters of one type, whose names are new.
#[tactic(auto, unfolding(crate::specs::Headings::typed_parameters))]
fn typed_parameters(
    site: Site<'_>,
    so_far: Parameters,
    x: &FormalSection,
) -> Result<Parameters, Rejected>
    ensures { Judges (spec.typed_parameters site.entry.imports.now site.entry.levels site.entry.scope.now so_far x.now) result }
{
    let of = formal_type(site, &so_far.block, x.of.get())?;
    parameters_of(site.alloc, &of, so_far, x)
}

/// Parameters of one type.
#[tactic(auto, unfolding(crate::specs::Headings::section_rule))]
fn section(site: Site<'_>, so_far: Parameters, x: &FormalSection) -> Result<Parameters, Rejected>
    ensures { Judges (spec.section_rule site.entry.imports.now site.entry.levels site.entry.scope.now so_far x.now) result }
{
    let _names = parameter_names(site.alloc, &so_far.block, x.names.as_slice())?;
    typed_parameters(site, so_far, x)
}

fn sections(site: Site<'_>, list: &[FormalSection]) -> Result<Parameters, Rejected>
    ensures { Judges (through (spec.section_rule site.entry.imports.now site.entry.levels site.entry.scope.now) spec.no_parameters list.now) result }
{
    let mut so_far = Parameters {
        formals: Items::new(site.alloc),
        block: Block::new(site.alloc),
    };
    for x in list {
        so_far = section(site, so_far, x)?;
    }
    Ok(so_far)
}

#[tactic(auto, unfolding(crate::specs::Headings::basic_of))]
fn basic_of(of: &ObType, span: Span) -> Result<Basic, Rejected>
    ensures { Judges (spec.basic_of of.now) result }
{
    match of.form() {
        Form::Basic(basic) => Ok(*basic),
        _ => Err(Rejected::Rule(broken(RuleCode::Parameters, span))),
    }
}

/// The type of the result after these parameters, if there is one.
#[tactic(auto, unfolding(crate::specs::Headings::result_rule))]
fn result_type(
    modules: &Imports,
    scope: &Scope,
    parameters: &Block,
    name: &Option<Qualident>,
) -> Result<Option<Basic>, Rejected>
    ensures { Judges (spec.result_rule modules.now (in_heading scope.now parameters.now) name.now) result }
{
    match name {
        None => Ok(None),
        Some(name) => {
            let of = type_in_heading(modules, scope, parameters, name)?;
            let basic = basic_of(&of, name.first.span)?;
            Ok(Some(basic))
        }
    }
}

#[tactic(auto, unfolding(crate::specs::Headings::formals_rule))]
fn formals(site: Site<'_>, formals: &Formals) -> Result<Heading, Rejected>
    ensures { Judges (spec.formals_rule site.entry.imports.now site.entry.levels site.entry.scope.now formals.now) result }
{
    let parameters = sections(site, formals.sections.as_slice())?;
    let result_type = result_type(site.imports, site.scope, &parameters.block, &formals.result)?;
    Ok(Heading {
        signature: Signature {
            formals: parameters.formals,
            result: result_type,
        },
        block: parameters.block,
    })
}

/// The heading of a procedure with these formal parameters, or without any.
#[tactic(auto, unfolding(crate::specs::Headings::heading_rule))]
fn written_heading(site: Site<'_>, list: &Option<Boxed<Formals>>) -> Result<Heading, Rejected>
    ensures { Judges (spec.heading_rule site.entry.imports.now site.entry.levels site.entry.scope.now list.now) result }
{
    match list {
        None => Ok(Heading {
            signature: Signature {
                formals: Items::new(site.alloc),
                result: None,
            },
            block: Block::new(site.alloc),
        }),
        Some(list) => formals(site, list.get()),
    }
}

/// A procedure of a name that is new.
#[tactic(auto, unfolding(crate::specs::Headings::new_procedure))]
fn new_procedure(
    alloc: Global,
    modules: &Imports,
    levels: u32,
    number: usize,
    scope: Scope,
    p: &Procedure,
) -> Result<Entered, Rejected>
    requires { find scope.block (out-Procedure p.now).name.name.name ≡ None }
    ensures { Judges (spec.new_procedure modules.now levels number scope p.now) result }
{
    let mut scope = scope;
    let name = &p.name.name.name;
    let heading = written_heading(
        Site {
            alloc,
            imports: modules,
            scope: &scope,
            levels,
        },
        &p.formals,
    )?;
    let signature = heading.signature.copy(alloc)?;
    let entry = Entry::Procedure(heading.signature, number);
    scope.declare(alloc, name, p.name.mark.is_some(), entry)?;
    let scope = scope.enter(alloc, name, heading.block)?;
    Ok(Entered { scope, signature })
}

/// Declares a procedure, which has this number among those of the module, by its heading, and goes inside (Wirth, The
/// Programming Language Oberon, Oberon-07: procedure declarations). `levels` says how many more constructs may nest in it.
///
/// `Rejected::Rule`: `DeclaredTwice` where the block has the name, or the heading a parameter's name twice; `UnknownName`,
/// `LeftOut`, `Types` and `NotExported` for what is no type's name; `Parameters` where the result is of no basic type; `Size`
/// where an open array has more than 200 levels, or more open arrays nest than may. `Rejected::Memory` where memory was
/// refused. The scope is gone then.
#[tactic(auto, unfolding(crate::specs::Headings::procedure_rule))]
pub fn enter_procedure(
    alloc: Global,
    modules: &Imports,
    levels: u32,
    number: usize,
    scope: Scope,
    p: &Procedure,
) -> Result<Entered, Rejected>
    ensures { Judges (spec.procedure_rule modules.now levels number scope p.now) result }
{
    let name = &p.name.name;
    if scope.block.find(&name.name).is_some() {
        return Err(Rejected::Rule(broken(RuleCode::DeclaredTwice, name.span)));
    }
    new_procedure(alloc, modules, levels, number, scope, p)
}
