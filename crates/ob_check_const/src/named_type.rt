//! Names of types.

ghost use Rattle.std.specs.Prelude.{◌≡◌, option_copied};
ghost use Rattle.ob_check_scope.specs.Rule.{Judges};
ghost use Rattle.ob_check_const.specs.NamedTypes as spec;

use ob_check_scope::block::Entry;
use ob_check_scope::imports::Imports;
use ob_check_scope::predeclared::{
    Predeclared, absent, input_named, is_input, is_output, output_named,
};
use ob_check_scope::rejected::{Rejected, broken};
use ob_check_scope::rule::RuleCode;
use ob_check_scope::scope::Scope;
use ob_scan::Span;
use ob_tree::tree::{Ident, Qualident};
use ob_types::{Form, ObType, Object};

/// A name of a type as it is written: a name, or that of a module and one in it.
#[derive(Clone, Copy)]
pub struct NameOfType<'a> {
    pub first: &'a Ident,
    pub second: Option<&'a Ident>,
}

/// The name of a type that stands there.
pub fn name_of_type(name: &Qualident) -> NameOfType<'_>
    ensures { spec.written result ≡ name.now }
{
    NameOfType {
        first: &name.first,
        second: name.second.as_ref(),
    }
}

/// The type that a name is which nothing declares.
#[tactic(auto, unfolding(crate::specs::NamedTypes::predeclared_type))]
fn predeclared_type(predeclared: Predeclared, span: Span) -> Result<ObType, Rejected>
    ensures { Judges (spec.predeclared_type predeclared) result }
{
    match predeclared {
        Predeclared::Basic(basic) => Ok(ObType::basic(basic)),
        _ => Err(Rejected::Rule(broken(absent(predeclared), span))),
    }
}

/// The type that a name alone stands for.
#[tactic(auto, unfolding(crate::specs::NamedTypes::own_type))]
fn own_type(entry: Option<&Entry>, predeclared: Predeclared, span: Span) -> Result<ObType, Rejected>
    ensures { Judges (spec.own_type (option_copied entry.entry) predeclared) result }
{
    match entry {
        Some(Entry::TypeName(of)) => Ok(of.another()?),
        Some(_) => Err(Rejected::Rule(broken(RuleCode::Types, span))),
        None => predeclared_type(predeclared, span),
    }
}

fn object_type(object: &Object, span: Span) -> Result<ObType, Rejected>
    ensures { Judges (spec.object_type object.now) result }
{
    match object {
        Object::TypeName(of) => Ok(of.another()?),
        _ => Err(Rejected::Rule(broken(RuleCode::Types, span))),
    }
}

/// What is broken where a name of In or Out has to stand for a type.
fn no_type(exported: bool) -> RuleCode
    ensures { result ≡ spec.no_type exported }
{
    if exported {
        RuleCode::Types
    } else {
        RuleCode::NotExported
    }
}

/// The type that a name of another module stands for.
#[tactic(auto, unfolding(crate::specs::NamedTypes::other_type))]
fn other_type(
    modules: &Imports,
    entry: Option<&Entry>,
    predeclared: Predeclared,
    first: Span,
    name: &Ident,
) -> Result<ObType, Rejected>
    ensures { Judges (spec.other_type modules.now (option_copied entry.entry) predeclared name.now.name) result }
{
    match entry {
        Some(Entry::Module(_, place)) => match modules.exported_at(*place, &name.name) {
            Some(object) => object_type(object, name.span),
            None => Err(Rejected::Rule(broken(RuleCode::NotExported, name.span))),
        },
        Some(Entry::In) => {
            let code = no_type(is_input(input_named(&name.name)));
            Err(Rejected::Rule(broken(code, name.span)))
        }
        Some(Entry::Out) => {
            let code = no_type(is_output(output_named(&name.name)));
            Err(Rejected::Rule(broken(code, name.span)))
        }
        Some(_) => Err(Rejected::Rule(broken(RuleCode::Types, first))),
        None => Err(Rejected::Rule(broken(absent(predeclared), first))),
    }
}

/// The type that a name stands for, by what its first part stands for. The codes are those of `type_named`.
#[tactic(auto, unfolding(crate::specs::NamedTypes::qualified))]
pub fn qualified(
    modules: &Imports,
    entry: Option<&Entry>,
    predeclared: Predeclared,
    name: NameOfType<'_>,
) -> Result<ObType, Rejected>
    ensures { Judges (spec.qualified modules.now (option_copied entry.entry) predeclared (option_copied name.entry.second)) result }
{
    let first = name.first.span;
    match name.second {
        None => own_type(entry, predeclared, first),
        Some(second) => other_type(modules, entry, predeclared, first, second),
    }
}

/// The type that a name stands for, or a name of a module and one in it. 10 and 21 where nothing declares it, 12 where it is no
/// type's, 18 where its module doesn't export it.
#[tactic(auto, unfolding(crate::specs::NamedTypes::type_named))]
pub fn type_named(
    modules: &Imports,
    scope: &Scope,
    name: NameOfType<'_>,
) -> Result<ObType, Rejected>
    ensures { Judges (spec.type_named modules.now scope.now (spec.written name.entry)) result }
{
    let first = &name.first.name;
    qualified(modules, scope.seen(first), scope.outer(first), name)
}

/// Whether a type is a record.
pub fn is_record(of: &ObType) -> bool
    ensures { result ≡ spec.is_record of.now }
{
    match of.form() {
        Form::Record(_) => true,
        Form::Basic(_) | Form::Array(_, _) | Form::Open(_) => false,
    }
}
