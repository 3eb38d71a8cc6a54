//! Declarations and headings.

use ob_base::{Code, Refused, Text};
use ob_check_decl::{Entered, declare_all, declare_module, enter_procedure, interface_of};
use ob_check_scope::rejected::Rejected;
use ob_check_scope::{Entry, Imports, Scope, Standing};
use ob_parse::parse_text;
use ob_tree::tree::{Cell, Module, Procedure};
use ob_types::{Interface, interface_text};
use std::alloc::{AllocError, Global};
use std::test::Fail;

fn code_of(alloc: Global, module: &Module) -> Option<Code> {
    match declare_module(alloc, &Imports::empty(alloc), module) {
        Err(Rejected::Rule(broken)) => Some(broken.code.code()),
        _ => None,
    }
}

/// What is broken by the declarations of a module, over no loaded ones. None where nothing is.
fn broken(alloc: Global, text: &str) -> Result<Option<Code>, Refused> {
    match parse_text(alloc, text)? {
        Cell::Module(module) => Ok(code_of(alloc, &module)),
        Cell::Commands(_) => Ok(None),
    }
}

#[test]
fn a_code_for_each_broken_rule(rt: HostRuntime) -> Result<(), Fail> {
    for (text, code) in [
        ("MODULE A; VAR x: y; END A.", Code::UnknownName),
        ("MODULE A; CONST c = 1; c = 2; END A.", Code::DeclaredTwice),
        ("MODULE A; CONST c = 1 + TRUE; END A.", Code::Types),
        ("MODULE A; CONST c = ABS(1, 2); END A.", Code::Parameters),
        ("MODULE A; CONST c = 1 DIV 0; END A.", Code::NotConstant),
        (
            "MODULE A; IMPORT In; CONST c = In.Done; END A.",
            Code::NotConstant,
        ),
        ("MODULE A; IMPORT B; END A.", Code::NotLoaded),
        ("MODULE A; IMPORT A; END A.", Code::ImportsItself),
        (
            "MODULE A; IMPORT In; CONST c = In.done; END A.",
            Code::NotExported,
        ),
        ("MODULE A; VAR x: ARRAY 0 OF INTEGER; END A.", Code::Size),
        ("MODULE A; VAR x: REAL; END A.", Code::LeftOut),
    ] {
        assert_eq!(rt; broken(rt.alloc(), text)?, Some(code), "{text}");
    }
    Ok(())
}

/// The scope inside the first procedure of a module, after its variables.
fn inside(alloc: Global, modules: &Imports, module: &Module) -> Result<Scope, Refused> {
    let scope = declare_module(alloc, modules, module)?;
    match module.declarations.get().procedures.as_slice() {
        [] => Ok(scope),
        [procedure, ..] => entered(alloc, modules, scope, procedure),
    }
}

fn entered(
    alloc: Global,
    modules: &Imports,
    scope: Scope,
    procedure: &Procedure,
) -> Result<Scope, Refused> {
    let Entered {
        scope,
        signature: _,
    } = enter_procedure(alloc, modules, 199, 0, scope, procedure)?;
    let scope = declare_all(alloc, modules, 199, scope, procedure.declarations.get())?;
    Ok(scope)
}

fn standing(entry: Option<&Entry>) -> Option<Standing> {
    match entry {
        Some(Entry::Variable(_, standing)) => Some(*standing),
        _ => None,
    }
}

/// Where a variable stands that is seen inside the first procedure of a module.
fn standing_inside(alloc: Global, text: &str, name: &[u8]) -> Result<Option<Standing>, Refused> {
    let name = Text::from_slice(alloc, name)?;
    match parse_text(alloc, text)? {
        Cell::Module(module) => {
            let scope = inside(alloc, &Imports::empty(alloc), &module)?;
            Ok(standing(scope.seen(&name)))
        }
        Cell::Commands(_) => Ok(None),
    }
}

#[test]
fn variables_and_parameters_stand_where_they_are_declared(rt: HostRuntime) -> Result<(), Fail> {
    let text =
        "MODULE A; VAR u, v*, w: BYTE; PROCEDURE P(a: CHAR; VAR b: BYTE; c: ARRAY OF CHAR); VAR d: CHAR; END P; END A.";
    for (name, place) in [
        (b"u".as_slice(), Standing::Own(0)),
        (b"v".as_slice(), Standing::Exported(0)),
        (b"w".as_slice(), Standing::Own(1)),
        (b"a".as_slice(), Standing::Local(0)),
        (b"b".as_slice(), Standing::ByParameter(1)),
        (b"c".as_slice(), Standing::ReadOnly(2)),
        (b"d".as_slice(), Standing::Local(3)),
    ] {
        assert_eq!(rt; standing_inside(rt.alloc(), text, name)?, Some(place));
    }
    Ok(())
}

/// The interface of a module with its first procedure.
fn interface(alloc: Global, module: &Module) -> Result<Interface, Refused> {
    let scope = inside(alloc, &Imports::empty(alloc), module)?.leave();
    Ok(interface_of(alloc, &scope.module_name, &scope.block)?)
}

fn has_key(alloc: Global, text: &str, key: &str) -> Result<bool, Refused> {
    match parse_text(alloc, text)? {
        Cell::Module(module) => {
            let text = interface_text(alloc, &interface(alloc, &module)?)?;
            Ok(text.as_str() == key)
        }
        Cell::Commands(_) => Ok(false),
    }
}

const N: &str =
    "MODULE N; TYPE T* = RECORD a: INTEGER END; VAR t*: T; v*: INTEGER; PROCEDURE Inc*; END Inc; END N.";

#[test]
fn an_interface_has_the_procedures_too(rt: HostRuntime) -> Result<(), Fail> {
    let key = "module N\ntype T RN.T.0(a:I;)\nvar t RN.T.0(a:I;)\nvar v I\nproc Inc()\n";
    assert!(rt; has_key(rt.alloc(), N, key)?);
    Ok(())
}

/// The numbers of two names, a variable and a procedure, in an interface that is added twice.
fn numbers(alloc: Global, interface: &Interface) -> Result<(usize, usize, usize), AllocError> {
    let mut imports = Imports::empty(alloc);
    imports.add(interface, &[])?;
    imports.add(interface, &[])?;
    let variable = imports.variable_number(0, &Text::from_slice(alloc, b"v")?);
    let procedure = imports.procedure_number(0, &Text::from_slice(alloc, b"Inc")?);
    Ok((imports.modules().len(), variable, procedure))
}

fn numbers_in(alloc: Global, text: &str) -> Result<(usize, usize, usize), Refused> {
    match parse_text(alloc, text)? {
        Cell::Module(module) => Ok(numbers(alloc, &interface(alloc, &module)?)?),
        Cell::Commands(_) => Ok((0, 0, 0)),
    }
}

#[test]
fn exported_variables_and_procedures_are_numbered(rt: HostRuntime) -> Result<(), Fail> {
    assert_eq!(rt; numbers_in(rt.alloc(), N)?, (1, 1, 0));
    Ok(())
}
