//! Expressions and assignments.

use ob_base::{Code, Refused};
use ob_check_decl::{declare_module, enter_procedure};
use ob_check_expr::{
    actual, actuals, assigned_value, basic_value, expr, guard, number, target, truth,
};
use ob_check_operand::{Called, Operand, procedure};
use ob_check_scope::rejected::{Rejected, told};
use ob_check_scope::{Imports, Scope, Site};
use ob_check_strings::Variables;
use ob_mean::{
    Argument, Callee, Designator, ModuleVariable, Operation, Operator, TypedExpr, Variable,
};
use ob_parse::parse_text;
use ob_tree::tree::{Cell, Designator as Written, Expr, Module, Statement};
use ob_types::{Basic, Form, Formal, FormalKind, ObType};
use std::alloc::Global;
use std::test::Fail;

/// Names of each kind that is declared.
const NAMES: &str =
    "CONST k = 7; TYPE R = RECORD f: BYTE END; VAR x: INTEGER; b: BYTE; t: BOOLEAN; c: CHAR; r: R; s: ARRAY 4 OF CHAR; PROCEDURE F(i: INTEGER; VAR j: INTEGER; v: ARRAY OF CHAR): INTEGER; RETURN i END F;";

/// A module with the names above and this statement.
fn module_of(alloc: Global, statement: &str) -> Result<Module, Refused> {
    let text = format!(in alloc; "MODULE A; {NAMES} BEGIN {statement} END A.")?;
    match parse_text(alloc, text.as_str())? {
        Cell::Module(module) => Ok(module),
        Cell::Commands(_) => Err(Refused::Memory),
    }
}

/// A place in this scope, with nothing nested yet.
fn site_of<'a>(alloc: Global, imports: &'a Imports, scope: &'a Scope) -> Site<'a> {
    Site {
        alloc,
        imports,
        scope,
        levels: 199,
    }
}

/// The scope after the declarations of a module, the first procedure among them.
fn scope_of(alloc: Global, module: &Module) -> Result<Scope, Refused> {
    let imports = Imports::empty(alloc);
    let scope = declare_module(alloc, &imports, module)?;
    match module.declarations.get().procedures.as_slice() {
        [procedure, ..] => {
            let entered = enter_procedure(alloc, &imports, 199, 0, scope, procedure)?;
            Ok(entered.scope.leave())
        }
        [] => Ok(scope),
    }
}

/// What the first statement of a module assigns, and to what.
fn assigned(module: &Module) -> Result<(&Written, &Expr), Refused> {
    match module.body.as_slice() {
        [Statement::Assign(d, e), ..] => Ok((d, e.get())),
        _ => Err(Refused::Memory),
    }
}

fn fault_in(refused: Refused) -> Option<Code> {
    match refused {
        Refused::Fault(fault) => Some(fault.code),
        Refused::Memory => None,
    }
}

fn code_of<T: Drop>(outcome: Result<T, Rejected>) -> Option<Code> {
    match outcome {
        Ok(_) => None,
        Err(rejected) => fault_in(told(rejected)),
    }
}

/// The type of the value that is assigned to x.
fn basic_of(alloc: Global, text: &str) -> Result<Basic, Refused> {
    let statement = format!(in alloc; "x := {text}")?;
    let module = module_of(alloc, statement.as_str())?;
    let scope = scope_of(alloc, &module)?;
    let (_, e) = assigned(&module)?;
    let imports = Imports::empty(alloc);
    let (basic, _, _) = basic_value(site_of(alloc, &imports, &scope), Variables::new(alloc), e)?;
    Ok(basic)
}

/// The code of what is assigned to x.
fn assigned_code(alloc: Global, text: &str) -> Option<Code> {
    match basic_of(alloc, text) {
        Ok(_) => None,
        Err(refused) => fault_in(refused),
    }
}

#[test]
fn values_of_basic_types(rt: HostRuntime) -> Result<(), Fail> {
    for (text, basic) in [
        ("x + 1", Basic::Integer),
        ("-b", Basic::Integer),
        ("b", Basic::Byte),
        ("r.f", Basic::Byte),
        ("s[x]", Basic::Char),
        ("CHR(k)", Basic::Char),
        ("t & (x < 1) OR ~ODD(b)", Basic::Boolean),
        ("s < \"abc\"", Basic::Boolean),
        ("c = \"a\"", Basic::Boolean),
        ("LEN(s) DIV 2 + ORD(\"a\")", Basic::Integer),
        ("F(1, x, s) * F(b, x, \"abc\")", Basic::Integer),
    ] {
        assert_eq!(rt; basic_of(rt.alloc(), text)?, basic, "{text}");
    }
    Ok(())
}

#[test]
fn values_that_break_a_rule(rt: HostRuntime) -> Result<(), Fail> {
    for (text, code) in [
        ("y", Code::UnknownName),
        ("r.g", Code::UnknownName),
        ("x + t", Code::Types),
        ("s", Code::Types),
        ("t < t", Code::Types),
        ("x.f", Code::Types),
        ("F", Code::Types),
        ("F(t, x, s)", Code::Types),
        ("F(1, 2, s)", Code::ReadOnly),
        ("F(1, b, s)", Code::Parameters),
        ("F(1, x, (s))", Code::Parameters),
        ("F(1, x)", Code::Parameters),
        ("LEN((s))", Code::Parameters),
        ("FLOOR(x)", Code::LeftOut),
    ] {
        assert_eq!(rt; assigned_code(rt.alloc(), text), Some(code), "{text}");
    }
    Ok(())
}

/// The number that an expression is.
fn constant_in(e: &TypedExpr) -> Option<i32> {
    match e {
        TypedExpr::Constant(number) => Some(*number),
        _ => None,
    }
}

/// Whether this is the whole first variable of the module.
fn is_first(place: &Designator) -> bool {
    match place {
        Designator::Whole(variable) => *variable == Variable::OfModule(0),
        _ => false,
    }
}

fn reads_first(e: &TypedExpr) -> bool {
    match e {
        TypedExpr::Read(place) => is_first(place),
        _ => false,
    }
}

/// Whether 7 is subtracted, with the operator in the second line.
fn subtracts(others: &[Operation]) -> bool {
    match others {
        [one] => {
            one.operator == Operator::Minus && one.line == 2 && constant_in(&one.operand) == Some(7)
        }
        _ => false,
    }
}

/// Whether this is x - 7.
fn is_difference(e: &TypedExpr) -> bool {
    match e {
        TypedExpr::Chain(first, others) => {
            reads_first(first.get()) && subtracts(others.as_slice())
        }
        _ => false,
    }
}

/// Whether the first statement of a module assigns x - 7 to a number.
fn assigns_difference(alloc: Global, module: &Module) -> Result<bool, Refused> {
    let scope = scope_of(alloc, module)?;
    let (_, e) = assigned(module)?;
    let imports = Imports::empty(alloc);
    let none = Variables::new(alloc);
    let (value, _) = assigned_value(site_of(alloc, &imports, &scope), Basic::Integer, none, e)?;
    Ok(is_difference(&value))
}

#[test]
fn a_tree_has_numbers_and_lines(rt: HostRuntime) -> Result<(), Fail> {
    let module = module_of(rt.alloc(), "x := x\n- k")?;
    assert!(rt; assigns_difference(rt.alloc(), &module)?);
    Ok(())
}

/// The code of a value where a truth value has to stand: in a guard, and in ASSERT.
fn truth_codes(alloc: Global, text: &str) -> Result<(Option<Code>, Option<Code>), Refused> {
    let module = module_of(alloc, text)?;
    let scope = scope_of(alloc, &module)?;
    let (_, e) = assigned(&module)?;
    let imports = Imports::empty(alloc);
    let guarding = guard(site_of(alloc, &imports, &scope), Variables::new(alloc), e);
    let asserted = truth(site_of(alloc, &imports, &scope), Variables::new(alloc), e);
    Ok((code_of(guarding), code_of(asserted)))
}

#[test]
fn truth_values(rt: HostRuntime) -> Result<(), Fail> {
    let refused = (Some(Code::Types), Some(Code::Parameters));
    assert_eq!(rt; truth_codes(rt.alloc(), "x := t")?, (None, None));
    assert_eq!(rt; truth_codes(rt.alloc(), "x := b")?, refused);
    Ok(())
}

/// The code of a value where a number has to stand, and where what may be assigned to a CHAR.
fn value_codes(alloc: Global, text: &str) -> Result<(Option<Code>, Option<Code>), Refused> {
    let module = module_of(alloc, text)?;
    let scope = scope_of(alloc, &module)?;
    let (_, e) = assigned(&module)?;
    let imports = Imports::empty(alloc);
    let counted = number(site_of(alloc, &imports, &scope), Variables::new(alloc), e);
    let character = assigned_value(
        site_of(alloc, &imports, &scope),
        Basic::Char,
        Variables::new(alloc),
        e,
    );
    Ok((code_of(counted), code_of(character)))
}

#[test]
fn numbers_and_characters(rt: HostRuntime) -> Result<(), Fail> {
    let neither = (Some(Code::Parameters), Some(Code::Types));
    assert_eq!(rt;
        value_codes(rt.alloc(), "x := b")?,
        (None, Some(Code::Types))
    );
    assert_eq!(rt;
        value_codes(rt.alloc(), "x := \"a\"")?,
        (Some(Code::Parameters), None)
    );
    assert_eq!(rt; value_codes(rt.alloc(), "x := \"ab\"")?, neither);
    Ok(())
}

fn is_char(of: &ObType) -> bool {
    match of.form() {
        Form::Basic(Basic::Char) => true,
        _ => false,
    }
}

/// The code of what is assigned to, and whether it has the type CHAR.
fn target_code(alloc: Global, statement: &str) -> Result<(Option<Code>, bool), Refused> {
    let module = module_of(alloc, statement)?;
    let scope = scope_of(alloc, &module)?;
    let (d, _) = assigned(&module)?;
    let imports = Imports::empty(alloc);
    match target(site_of(alloc, &imports, &scope), Variables::new(alloc), d) {
        Ok((of, _, _, _)) => Ok((None, is_char(&of))),
        Err(rejected) => Ok((fault_in(told(rejected)), false)),
    }
}

#[test]
fn what_is_written(rt: HostRuntime) -> Result<(), Fail> {
    for (statement, code, is_char) in [
        ("s[x + 1] := c", None, true),
        ("r := r", None, false),
        ("k := 1", Some(Code::ReadOnly), false),
        ("y := 1", Some(Code::UnknownName), false),
        ("s[t] := c", Some(Code::Types), false),
    ] {
        assert_eq!(rt;
            target_code(rt.alloc(), statement)?,
            (code, is_char),
            "{statement}"
        );
    }
    Ok(())
}

/// The procedure that the first statement of a module calls, and what it passes.
fn call_in(module: &Module) -> Result<(&Written, &[Expr]), Refused> {
    match module.body.as_slice() {
        [Statement::Call(d, Some(passed)), ..] => Ok((d, passed.as_slice())),
        _ => Err(Refused::Memory),
    }
}

fn opens_first(argument: &Argument) -> bool {
    match argument {
        Argument::Open(place) => is_first(place),
        _ => false,
    }
}

fn is_string(variable: &ModuleVariable) -> bool {
    match variable {
        ModuleVariable::Text(text, elements) => {
            *elements == 4 && text.as_slice() == b"abc".as_slice()
        }
        ModuleVariable::Declared(_) => false,
    }
}

/// Whether a string is the first variable of the module, and is passed to an open array after two others.
fn is_hidden(passed: &[Argument], variables: &[ModuleVariable]) -> bool {
    match (passed, variables) {
        ([_, _, third], [variable]) => opens_first(third) && is_string(variable),
        _ => false,
    }
}

/// Whether a called name stands for the first procedure, with a string among what is passed.
fn passes_string(alloc: Global, scope: &Scope, d: &Written, es: &[Expr]) -> Result<bool, Refused> {
    let imports = Imports::empty(alloc);
    match procedure(&imports, scope, d)? {
        Called::Procedure(signature, callee) => {
            if callee != Callee::OfModule(0) {
                return Ok(false);
            }
            let formals = signature.formals.as_slice();
            let none = Variables::new(alloc);
            let (passed, variables) = actuals(
                site_of(alloc, &imports, scope),
                formals,
                d.name.span,
                none,
                es,
            )?;
            Ok(is_hidden(passed.as_slice(), variables.into_items().as_slice()))
        }
        _ => Ok(false),
    }
}

/// Whether the first statement of a module calls the first procedure with a string among what is passed.
fn calls_with_string(alloc: Global, module: &Module) -> Result<bool, Refused> {
    let scope = scope_of(alloc, module)?;
    let (d, es) = call_in(module)?;
    passes_string(alloc, &scope, d, es)
}

#[test]
fn a_string_that_is_passed_is_a_variable(rt: HostRuntime) -> Result<(), Fail> {
    let module = module_of(rt.alloc(), "F(1, x, \"abc\")")?;
    assert!(rt; calls_with_string(rt.alloc(), &module)?);
    Ok(())
}

/// Whether x is given as an operand: its value of type INTEGER.
fn is_first_number(operand: &Operand) -> bool {
    match operand {
        Operand::Value(basic, value) => *basic == Basic::Integer && reads_first(value),
        _ => false,
    }
}

fn is_first_place(argument: &Argument) -> bool {
    match argument {
        Argument::Place(place) => is_first(place),
        _ => false,
    }
}

/// Whether an expression is x, as an operand.
fn is_read(alloc: Global, scope: &Scope, e: &Expr) -> Result<bool, Refused> {
    let imports = Imports::empty(alloc);
    let (operand, _) = expr(site_of(alloc, &imports, scope), Variables::new(alloc), e)?;
    Ok(is_first_number(&operand))
}

/// Whether an expression is the variable x, where a number is passed by its place.
fn is_passed(alloc: Global, scope: &Scope, d: &Written, e: &Expr) -> Result<bool, Refused> {
    let imports = Imports::empty(alloc);
    let formal = Formal {
        kind: FormalKind::Variable,
        of: ObType::basic(Basic::Integer),
    };
    let none = Variables::new(alloc);
    let (passed, _) = actual(
        site_of(alloc, &imports, scope),
        none,
        &formal,
        d.name.span,
        e,
    )?;
    Ok(is_first_place(&passed))
}

/// Whether what a module assigns is x where it is read, and where it is passed.
fn read_and_passed(alloc: Global, module: &Module) -> Result<(bool, bool), Refused> {
    let scope = scope_of(alloc, module)?;
    let (d, e) = assigned(module)?;
    Ok((is_read(alloc, &scope, e)?, is_passed(alloc, &scope, d, e)?))
}

#[test]
fn a_variable_is_read_or_passed(rt: HostRuntime) -> Result<(), Fail> {
    let module = module_of(rt.alloc(), "x := x")?;
    assert_eq!(rt; read_and_passed(rt.alloc(), &module)?, (true, true));
    Ok(())
}
