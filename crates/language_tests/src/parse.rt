//! Texts and their trees.

use ob_base::{Code, Refused};
use ob_parse::parse_text;
use ob_tree::tree::{Cell, Module, Statement};
use std::alloc::{AllocError, Global};
use std::test::Fail;

#[derive(Clone, Copy, Debug, PartialEq, Eq)]
enum Answer {
    /// How many imports, entries of declarations and statements a module has.
    Module(usize),
    /// How many commands.
    Commands(usize),
    Fault(Code),
    FaultAtEnd(Code),
}

fn count(module: &Module) -> usize {
    let declarations = module.declarations.get();
    let entries = declarations
        .constants
        .len()
        .saturating_add(declarations.types.len())
        .saturating_add(declarations.variables.len())
        .saturating_add(declarations.procedures.len());
    entries
        .saturating_add(module.imports.len())
        .saturating_add(module.body.len())
}

fn shape(cell: &Cell) -> Answer {
    match cell {
        Cell::Module(module) => Answer::Module(count(module)),
        Cell::Commands(commands) => Answer::Commands(commands.len()),
    }
}

fn read(alloc: Global, text: &str) -> Result<Answer, AllocError> {
    match parse_text(alloc, text) {
        Ok(cell) => Ok(shape(&cell)),
        Err(Refused::Memory) => Err(AllocError),
        Err(Refused::Fault(fault)) => {
            Ok(if fault.at_end {
                Answer::FaultAtEnd(fault.code)
            } else {
                Answer::Fault(fault.code)
            })
        }
    }
}

fn place(alloc: Global, text: &str) -> Result<(usize, usize), AllocError> {
    match parse_text(alloc, text) {
        Ok(_) => Ok((0, 0)),
        Err(Refused::Memory) => Err(AllocError),
        Err(Refused::Fault(fault)) => Ok((fault.line, fault.column)),
    }
}

fn nested(alloc: Global, depth: usize) -> Result<String, AllocError> {
    let mut text = String::new(alloc);
    text.push_str("MODULE A; CONST c = ")?;
    for _ in 0..depth {
        text.push('(')?;
    }
    text.push('1')?;
    for _ in 0..depth {
        text.push(')')?;
    }
    text.push_str("; END A.")?;
    Ok(text)
}

#[test]
fn codes(rt: HostRuntime) -> Result<(), Fail> {
    for (text, answer) in [
        ("(* (* *)", Answer::FaultAtEnd(Code::Comment)),
        (
            "MODULE A; CONST s = \"a END A.",
            Answer::Fault(Code::String),
        ),
        (
            "MODULE A; CONST c = 2147483648; END A.",
            Answer::Fault(Code::Number),
        ),
        ("MODULE 1", Answer::Fault(Code::Token)),
        ("MODULE A; BEGIN", Answer::FaultAtEnd(Code::Token)),
        ("MODULE A; BEGIN r(T)", Answer::FaultAtEnd(Code::Token)),
        ("MODULE A; END B.", Answer::Fault(Code::EndName)),
        ("MODULE A; END B", Answer::Fault(Code::EndName)),
        ("MODULE A; END A. M.P", Answer::Fault(Code::Token)),
    ] {
        assert_eq!(rt; read(rt.alloc(), text)?, answer, "{text}");
    }
    Ok(())
}

/// What comes of a module of this text between its name and its end.
fn read_inside(alloc: Global, inside: &str) -> Result<Answer, AllocError> {
    let text = format!(in alloc; "MODULE A; {inside} END A.")?;
    read(alloc, text.as_str())
}

#[test]
fn extensions_and_guards(rt: HostRuntime) -> Result<(), Fail> {
    for inside in [
        "VAR r: RECORD (T) END;",
        "VAR r: RECORD (M.T) a: INTEGER END;",
        "BEGIN r(T).x := 1",
        "BEGIN r(M.T)[1] := 1",
        "BEGIN r(T) := s",
        "BEGIN r(T)(U).x := 1",
        "BEGIN r(T)(U)",
        "BEGIN P(r(T).x, r(T))",
        "BEGIN x := r(T) IS M.T",
        "BEGIN f(a)(b).c(d) := e(f)(g) = (h IS I)",
        "BEGIN f(a)(b).c(d) := e(f)(g) + h IS I",
    ] {
        assert_eq!(rt;
            read_inside(rt.alloc(), inside)?,
            Answer::Module(1),
            "{inside}"
        );
    }
    Ok(())
}

#[test]
fn parentheses_that_stand_for_nothing(rt: HostRuntime) -> Result<(), Fail> {
    for inside in [
        "VAR r: RECORD () END;",
        "VAR r: RECORD (T END;",
        "BEGIN P(1).x := 2",
        "BEGIN P(T, U).x := 2",
        "BEGIN P(a[1]).x := 2",
        "BEGIN x := y IS 1",
        "BEGIN x := a IS T & b",
        "BEGIN x := a IS T IS U",
    ] {
        assert_eq!(rt;
            read_inside(rt.alloc(), inside)?,
            Answer::Fault(Code::Token),
            "{inside}"
        );
    }
    Ok(())
}

#[test]
fn places_of_faults(rt: HostRuntime) -> Result<(), Fail> {
    for (text, at) in [
        ("MODULE A; END B.", (1, 15)),
        ("MODULE A;\nBEGIN \n ", (3, 2)),
    ] {
        assert_eq!(rt; place(rt.alloc(), text)?, at, "{text}");
    }
    Ok(())
}

/// What comes of parentheses that nest so deep, and the place of the fault.
fn read_nested(alloc: Global, depth: usize) -> Result<(Answer, (usize, usize)), AllocError> {
    let text = nested(alloc, depth)?;
    Ok((read(alloc, text.as_str())?, place(alloc, text.as_str())?))
}

#[test]
fn nesting(rt: HostRuntime) -> Result<(), Fail> {
    let most = (Answer::Module(1), (0, 0));
    assert_eq!(rt; read_nested(rt.alloc(), 200)?, most);
    let more = (Answer::Fault(Code::Nesting), (1, 221));
    assert_eq!(rt; read_nested(rt.alloc(), 201)?, more);
    Ok(())
}

#[test]
fn commands(rt: HostRuntime) -> Result<(), Fail> {
    for (text, answer) in [
        ("", Answer::Commands(0)),
        (";", Answer::Commands(0)),
        ("M.P M.P", Answer::Commands(2)),
        (";; M.P; N.Q;;", Answer::Commands(2)),
        ("M.P M", Answer::FaultAtEnd(Code::Token)),
    ] {
        assert_eq!(rt; read(rt.alloc(), text)?, answer, "{text}");
    }
    Ok(())
}

const ALL: &str = "MODULE All; IMPORT Out, I := In;
CONST limit* = 2 * (3 + ORD(\"a\")) DIV 4; yes = ~FALSE & TRUE OR (1 # 2); char = 41X;
TYPE Row* = ARRAY 2, limit OF CHAR;
  Pair* = RECORD first*, second: INTEGER; inner: RECORD END; row: Row END;
VAR a, b*: ARRAY 3 OF Pair; i: INTEGER;
PROCEDURE Max*(x, y: INTEGER; VAR p: Pair; s: ARRAY OF ARRAY OF CHAR): INTEGER;
  CONST one = 1; TYPE T = Pair; VAR m: INTEGER;
  PROCEDURE Inner; BEGIN m := one END Inner;
BEGIN IF x >= y THEN m := x ELSIF x < -1 THEN m := +y - 1 ELSE Inner; Inner() END
  RETURN m MOD 10
END Max;
PROCEDURE Nothing*(); END Nothing;
BEGIN
  a[1].first := Max(1, 2, a[0], a[i, 2].row[3]);
  WHILE i < 3 DO INC(i) ELSIF i > 10 DO DEC(i, 2) END;
  REPEAT i := i + 1; UNTIL i = 7;
  FOR i := 10 TO 1 BY -1 DO Out.Int(i, 0) END; FOR i := 0 TO 3 DO END;
  CASE i OF 1, 3..5: Out.Ln; | | char, \"x\"..All.z: i := 0; I.Open END;
  Nothing
END All.";

fn case_count(module: &Module) -> usize {
    match module.body.as_slice() {
        [_, _, _, _, _, Statement::Case(_, _, cases), ..] => cases.len(),
        _ => 0,
    }
}

#[test]
fn all_productions(rt: HostRuntime) -> Result<(), Fail> {
    // 2 imports, 3 constants, 2 types, 2 lists of variables, 2 procedures, 7 statements.
    assert_eq!(rt; read(rt.alloc(), ALL)?, Answer::Module(18));
    let cell = parse_text(rt.alloc(), ALL);
    let Ok(Cell::Module(module)) = &cell else {
        return Err(Fail::from(AllocError));
    };
    assert_eq!(rt; case_count(module), 3);
    Ok(())
}

fn columns(module: &Module) -> (u32, u32) {
    match module.declarations.get().constants.as_slice() {
        [one, other] => (
            one.value.get().first_token().column,
            other.value.get().first_token().column,
        ),
        _ => (0, 0),
    }
}

#[test]
fn first_tokens(rt: HostRuntime) -> Result<(), Fail> {
    let cell = parse_text(rt.alloc(), "MODULE A; CONST a = -x; b = ~(y); END A.");
    let Ok(Cell::Module(module)) = &cell else {
        return Err(Fail::from(AllocError));
    };
    assert_eq!(rt; columns(module), (21, 29));
    Ok(())
}
