//! What names stand for.
//!
//! A name of another module is read by `member_read` and called by `member_called`. The two stand side by side: one takes its
//! number among the variables there and the other among the procedures, and each answers in a type of its own.

ghost use Rattle.std.specs.Prelude.{◌≡◌, option_copied};
ghost use Rattle.ob_check_scope.specs.Rule.{Judges, Breaks};
ghost use Rattle.ob_check_operand.specs.Mapped.{result_map};
ghost use Rattle.ob_check_operand.specs.Named.{meant, writable, callable};
ghost use Rattle.ob_check_operand.specs.Names as spec;

use ob_check_scope::predeclared::{
    Function, InputName, OutputName, Predeclared, ProperProcedure, absent, input_named,
    output_named,
};
use ob_check_scope::rejected::{Rejected, broken};
use ob_check_scope::rule::RuleCode;
use ob_check_scope::{Entry, Imports, Scope, Standing, is_writable};
use ob_mean::{Callee, Variable};
use ob_scan::Span;
use ob_tree::tree::{Designator, Selector};
use ob_types::{Constant, ObType, Object, Signature};

/// What a name is that is read.
#[derive(Drop)]
pub enum Named<'a> {
    Constant(&'a Constant),
    /// In.Done.
    InputDone,
    /// A variable, its type, whether a type is told of what it names, and the selectors after it.
    Variable(&'a ObType, Variable, bool, &'a [Selector]),
}

/// A variable that may be written.
#[derive(Drop)]
pub struct Target<'a> {
    pub of: &'a ObType,
    pub variable: Variable,
    /// Whether a type is told of what it names.
    pub told: bool,
    /// The selectors after it.
    pub behind: &'a [Selector],
}

/// What a name is that is called.
#[derive(Drop)]
pub enum Called<'a> {
    /// A procedure of this module or of another.
    Procedure(&'a Signature, Callee),
    /// A function that is declared before any module.
    Function(Function),
    /// A proper procedure that is declared before any module.
    Proper(ProperProcedure),
    /// A procedure of In.
    Input(InputName),
    /// A procedure of Out.
    Output(OutputName),
}

/// Whether a type is told of what a variable names: of a VAR parameter.
pub fn tells(standing: Standing) -> bool
    ensures { result ≡ spec.tells standing }
{
    match standing {
        Standing::ByParameter(_) => true,
        Standing::Exported(_) | Standing::Own(_) | Standing::Local(_) | Standing::ReadOnly(_) => {
            false
        }
    }
}

#[tactic(auto, unfolding(crate::specs::Names::input_read))]
fn input_read<'a>(name: InputName, behind: &[Selector], span: Span) -> Result<Named<'a>, Rejected>
    ensures { Judges (spec.input_read name behind.now) (result_map meant result) }
{
    match (name, behind) {
        (InputName::Unknown, _) => Err(Rejected::Rule(broken(RuleCode::NotExported, span))),
        (InputName::Done, []) => Ok(Named::InputDone),
        _ => Err(Rejected::Rule(broken(RuleCode::Types, span))),
    }
}

#[tactic(auto, unfolding(crate::specs::Names::input_member))]
fn input_member<'a>(
    selector: &Selector,
    behind: &[Selector],
    span: Span,
) -> Result<Named<'a>, Rejected>
    ensures { Judges (spec.input_member selector.now behind.now) (result_map meant result) }
{
    match selector {
        Selector::Field(field) => input_read(input_named(&field.name), behind, field.span),
        Selector::Index(_) | Selector::Guard(_) => {
            Err(Rejected::Rule(broken(RuleCode::Types, span)))
        }
    }
}

#[tactic(auto, unfolding(crate::specs::Names::output_read))]
fn output_read<'a>(name: OutputName, span: Span) -> Result<Named<'a>, Rejected>
    ensures { Judges (spec.output_read name) (result_map meant result) }
{
    match name {
        OutputName::Unknown => Err(Rejected::Rule(broken(RuleCode::NotExported, span))),
        _ => Err(Rejected::Rule(broken(RuleCode::Types, span))),
    }
}

#[tactic(auto, unfolding(crate::specs::Names::output_member))]
fn output_member<'a>(selector: &Selector, span: Span) -> Result<Named<'a>, Rejected>
    ensures { Judges (spec.output_member selector.now) (result_map meant result) }
{
    match selector {
        Selector::Field(field) => output_read(output_named(&field.name), field.span),
        Selector::Index(_) | Selector::Guard(_) => {
            Err(Rejected::Rule(broken(RuleCode::Types, span)))
        }
    }
}

/// What another module exports, of which `number` says which variable it is there.
#[tactic(auto, unfolding(crate::specs::Names::object_read))]
fn object_read<'a>(
    import: usize,
    number: usize,
    object: &'a Object,
    behind: &'a [Selector],
    span: Span,
) -> Result<Named<'a>, Rejected>
    ensures { Judges (spec.object_read import number object.now behind.now) (result_map meant result) }
{
    match (object, behind) {
        (Object::Constant(constant), []) => Ok(Named::Constant(constant)),
        (Object::Variable(of), _) => {
            let variable = Variable::OfImport(import, number);
            Ok(Named::Variable(of, variable, false, behind))
        }
        (Object::Constant(_), [_, ..]) | (Object::TypeName(_), _) | (Object::Procedure(_), _) =>
            Err(Rejected::Rule(broken(RuleCode::Types, span))),
    }
}

#[tactic(auto, unfolding(crate::specs::Names::member_read))]
fn member_read<'a>(
    imports: &'a Imports,
    import: usize,
    place: usize,
    selector: &Selector,
    behind: &'a [Selector],
    span: Span,
) -> Result<Named<'a>, Rejected>
    ensures { Judges (spec.member_read imports.now import place selector.now behind.now) (result_map meant result) }
{
    match selector {
        Selector::Field(field) => match imports.exported_at(place, &field.name) {
            Some(object) => {
                let number = imports.variable_number(place, &field.name);
                object_read(import, number, object, behind, field.span)
            }
            None => Err(Rejected::Rule(broken(RuleCode::NotExported, field.span))),
        },
        Selector::Index(_) | Selector::Guard(_) => {
            Err(Rejected::Rule(broken(RuleCode::Types, span)))
        }
    }
}

#[tactic(auto, unfolding(crate::specs::Names::entry_read))]
fn entry_read<'a>(
    imports: &'a Imports,
    scope: &'a Scope,
    entry: &'a Entry,
    selectors: &'a [Selector],
    span: Span,
) -> Result<Named<'a>, Rejected>
    ensures { Judges (spec.entry_read imports.now scope.now entry.now selectors.now) (result_map meant result) }
{
    match (entry, selectors) {
        (Entry::Constant(constant), []) => Ok(Named::Constant(constant)),
        (Entry::Variable(of, standing), _) => {
            let variable = scope.variable_of(*standing);
            Ok(Named::Variable(of, variable, tells(*standing), selectors))
        }
        (Entry::In, [selector, behind @ ..]) => input_member(selector, behind, span),
        (Entry::Out, [selector, ..]) => output_member(selector, span),
        (Entry::Module(import, place), [selector, behind @ ..]) => {
            member_read(imports, *import, *place, selector, behind, span)
        }
        (Entry::Constant(_), [_, ..])
        | (Entry::TypeName(_), _)
        | (Entry::Procedure(_, _), _)
        | (Entry::In, [])
        | (Entry::Out, [])
        | (Entry::Module(_, _), []) => Err(Rejected::Rule(broken(RuleCode::Types, span))),
    }
}

/// What a name with selectors after it is, where it is read.
#[tactic(auto, unfolding(crate::specs::Names::read_at))]
pub fn read<'a>(
    imports: &'a Imports,
    scope: &'a Scope,
    d: &'a Designator,
) -> Result<Named<'a>, Rejected>
    ensures { Judges (spec.read_at imports.now scope.now d.now) (result_map meant result) }
{
    match scope.seen(&d.name.name) {
        Some(entry) => entry_read(imports, scope, entry, d.selectors.as_slice(), d.name.span),
        None => Err(Rejected::Rule(broken(absent(scope.outer(&d.name.name)), d.name.span))),
    }
}

fn no_variable(predeclared: Predeclared) -> RuleCode
    ensures { result ≡ spec.no_variable predeclared }
{
    match predeclared {
        Predeclared::LeftOut => RuleCode::LeftOut,
        Predeclared::Unknown => RuleCode::UnknownName,
        Predeclared::Basic(_) | Predeclared::Function(_) | Predeclared::Procedure(_) => {
            RuleCode::ReadOnly
        }
    }
}

#[tactic(auto, unfolding(crate::specs::Names::input_written))]
fn input_written(selector: &Selector) -> RuleCode
    ensures { result ≡ spec.input_written selector.now }
{
    match selector {
        Selector::Field(field) => match input_named(&field.name) {
            InputName::Unknown => RuleCode::NotExported,
            _ => RuleCode::ReadOnly,
        },
        Selector::Index(_) | Selector::Guard(_) => RuleCode::ReadOnly,
    }
}

#[tactic(auto, unfolding(crate::specs::Names::output_written))]
fn output_written(selector: &Selector) -> RuleCode
    ensures { result ≡ spec.output_written selector.now }
{
    match selector {
        Selector::Field(field) => match output_named(&field.name) {
            OutputName::Unknown => RuleCode::NotExported,
            _ => RuleCode::ReadOnly,
        },
        Selector::Index(_) | Selector::Guard(_) => RuleCode::ReadOnly,
    }
}

#[tactic(auto, unfolding(crate::specs::Names::object_written))]
fn object_written(imports: &Imports, place: usize, selector: &Selector) -> RuleCode
    ensures { result ≡ spec.object_written imports.now place selector.now }
{
    match selector {
        Selector::Field(field) => match imports.exported_at(place, &field.name) {
            Some(_) => RuleCode::ReadOnly,
            None => RuleCode::NotExported,
        },
        Selector::Index(_) | Selector::Guard(_) => RuleCode::ReadOnly,
    }
}

fn refuse<'a>(code: RuleCode, span: Span) -> Result<Target<'a>, Rejected>
    ensures { Judges (Breaks code) (result_map writable result) }
{
    Err(Rejected::Rule(broken(code, span)))
}

/// A name of another module: the fault stands at the name that it lacks, or else at the first token.
fn refuse_member<'a>(
    code: RuleCode,
    selector: &Selector,
    span: Span,
) -> Result<Target<'a>, Rejected>
    ensures { Judges (Breaks code) (result_map writable result) }
{
    match (code, selector) {
        (RuleCode::NotExported, Selector::Field(field)) => refuse(code, field.span),
        _ => refuse(code, span),
    }
}

#[tactic(auto, unfolding(crate::specs::Names::entry_written))]
fn entry_written<'a>(
    imports: &'a Imports,
    scope: &Scope,
    entry: &'a Entry,
    selectors: &'a [Selector],
    span: Span,
) -> Result<Target<'a>, Rejected>
    ensures { Judges (spec.entry_written imports.now scope.now entry.now selectors.now) (result_map writable result) }
{
    match (entry, selectors) {
        (Entry::Variable(of, standing), _) => {
            if !is_writable(*standing) {
                return Err(Rejected::Rule(broken(RuleCode::ReadOnly, span)));
            }
            Ok(Target {
                of,
                variable: scope.variable_of(*standing),
                told: tells(*standing),
                behind: selectors,
            })
        }
        (Entry::In, [x, ..]) => refuse_member(input_written(x), x, span),
        (Entry::Out, [x, ..]) => refuse_member(output_written(x), x, span),
        (Entry::Module(_, place), [x, ..]) => {
            refuse_member(object_written(imports, *place, x), x, span)
        }
        (Entry::Constant(_), _)
        | (Entry::TypeName(_), _)
        | (Entry::Procedure(_, _), _)
        | (Entry::In, [])
        | (Entry::Out, [])
        | (Entry::Module(_, _), []) => refuse(RuleCode::ReadOnly, span),
    }
}

/// The variable that a name with selectors after it begins with, which may be written.
#[tactic(auto, unfolding(crate::specs::Names::written_at))]
pub fn written<'a>(
    imports: &'a Imports,
    scope: &'a Scope,
    d: &'a Designator,
) -> Result<Target<'a>, Rejected>
    ensures { Judges (spec.written_at imports.now scope.now d.now) (result_map writable result) }
{
    match scope.seen(&d.name.name) {
        Some(entry) => entry_written(imports, scope, entry, d.selectors.as_slice(), d.name.span),
        None => Err(Rejected::Rule(broken(no_variable(scope.outer(&d.name.name)), d.name.span))),
    }
}

#[tactic(auto, unfolding(crate::specs::Names::predeclared_called))]
fn predeclared_called<'a>(
    predeclared: Predeclared,
    selectors: &[Selector],
    span: Span,
) -> Result<Called<'a>, Rejected>
    ensures { Judges (spec.predeclared_called predeclared selectors.now) (result_map callable result) }
{
    match (predeclared, selectors) {
        (Predeclared::Function(function), []) => Ok(Called::Function(function)),
        (Predeclared::Procedure(procedure), []) => Ok(Called::Proper(procedure)),
        _ => Err(Rejected::Rule(broken(absent(predeclared), span))),
    }
}

#[tactic(auto, unfolding(crate::specs::Names::input_called, crate::specs::Names::input_call))]
fn input_call<'a>(
    selector: &Selector,
    behind: &[Selector],
    span: Span,
) -> Result<Called<'a>, Rejected>
    ensures { Judges (spec.input_call selector.now behind.now) (result_map callable result) }
{
    match selector {
        Selector::Field(field) => match (input_named(&field.name), behind) {
            (InputName::Unknown, _) => Err(Rejected::Rule(broken(
                RuleCode::NotExported,
                field.span,
            ))),
            (InputName::Done, _) => Err(Rejected::Rule(broken(RuleCode::Types, field.span))),
            (name, []) => Ok(Called::Input(name)),
            (_, [_, ..]) => Err(Rejected::Rule(broken(RuleCode::Types, field.span))),
        },
        Selector::Index(_) | Selector::Guard(_) => {
            Err(Rejected::Rule(broken(RuleCode::Types, span)))
        }
    }
}

#[tactic(auto, unfolding(crate::specs::Names::output_called, crate::specs::Names::output_call))]
fn output_call<'a>(
    selector: &Selector,
    behind: &[Selector],
    span: Span,
) -> Result<Called<'a>, Rejected>
    ensures { Judges (spec.output_call selector.now behind.now) (result_map callable result) }
{
    match selector {
        Selector::Field(field) => match (output_named(&field.name), behind) {
            (OutputName::Unknown, _) => Err(Rejected::Rule(broken(
                RuleCode::NotExported,
                field.span,
            ))),
            (name, []) => Ok(Called::Output(name)),
            (_, [_, ..]) => Err(Rejected::Rule(broken(RuleCode::Types, field.span))),
        },
        Selector::Index(_) | Selector::Guard(_) => {
            Err(Rejected::Rule(broken(RuleCode::Types, span)))
        }
    }
}

#[tactic(auto, unfolding(crate::specs::Names::object_called))]
fn object_called<'a>(
    import: usize,
    number: usize,
    object: &'a Object,
    behind: &[Selector],
    span: Span,
) -> Result<Called<'a>, Rejected>
    ensures { Judges (spec.object_called import number object.now behind.now) (result_map callable result) }
{
    match (object, behind) {
        (Object::Procedure(signature), []) => {
            Ok(Called::Procedure(signature, Callee::OfImport(import, number)))
        }
        (Object::Procedure(_), [_, ..])
        | (Object::Constant(_), _)
        | (Object::Variable(_), _)
        | (Object::TypeName(_), _) => Err(Rejected::Rule(broken(RuleCode::Types, span))),
    }
}

#[tactic(auto, unfolding(crate::specs::Names::member_called))]
fn member_called<'a>(
    imports: &'a Imports,
    import: usize,
    place: usize,
    selector: &Selector,
    behind: &[Selector],
    span: Span,
) -> Result<Called<'a>, Rejected>
    ensures { Judges (spec.member_called imports.now import place selector.now behind.now) (result_map callable result) }
{
    match selector {
        Selector::Field(field) => match imports.exported_at(place, &field.name) {
            Some(object) => {
                let number = imports.procedure_number(place, &field.name);
                object_called(import, number, object, behind, field.span)
            }
            None => Err(Rejected::Rule(broken(RuleCode::NotExported, field.span))),
        },
        Selector::Index(_) | Selector::Guard(_) => {
            Err(Rejected::Rule(broken(RuleCode::Types, span)))
        }
    }
}

#[tactic(auto, unfolding(crate::specs::Names::entry_called))]
fn entry_called<'a>(
    imports: &'a Imports,
    entry: &'a Entry,
    selectors: &[Selector],
    span: Span,
) -> Result<Called<'a>, Rejected>
    ensures { Judges (spec.entry_called imports.now entry.now selectors.now) (result_map callable result) }
{
    match (entry, selectors) {
        (Entry::Procedure(signature, number), []) => {
            Ok(Called::Procedure(signature, Callee::OfModule(*number)))
        }
        (Entry::Module(import, place), [selector, behind @ ..]) => {
            member_called(imports, *import, *place, selector, behind, span)
        }
        (Entry::In, [selector, behind @ ..]) => input_call(selector, behind, span),
        (Entry::Out, [selector, behind @ ..]) => output_call(selector, behind, span),
        _ => Err(Rejected::Rule(broken(RuleCode::Types, span))),
    }
}

/// What a name with selectors after it is, where it is called.
#[tactic(auto, unfolding(crate::specs::Names::called_at, crate::specs::Names::name_called))]
pub fn procedure<'a>(
    imports: &'a Imports,
    scope: &'a Scope,
    d: &Designator,
) -> Result<Called<'a>, Rejected>
    ensures { Judges (spec.called_at imports.now scope.now d.now) (result_map callable result) }
{
    match scope.seen(&d.name.name) {
        Some(entry) => entry_called(imports, entry, d.selectors.as_slice(), d.name.span),
        None => predeclared_called(
            scope.outer(&d.name.name),
            d.selectors.as_slice(),
            d.name.span,
        ),
    }
}
