//! Texts and the refusals of the checker.

use ob_base::{Code, Items, Refused, Text};
use ob_check_module::{Checked, check};
use ob_check_scope::Imports;
use ob_parse::parse_text;
use ob_tree::tree::{Cell, Module};
use std::alloc::Global;
use std::test::Fail;

/// The code of a fault, and its line and column. None where a module is well typed.
fn place_in(alloc: Global, imports: &Imports, module: &Module) -> Option<(Code, usize, usize)> {
    match check(alloc, module, imports) {
        Err(Refused::Fault(fault)) => Some((fault.code, fault.line, fault.column)),
        _ => None,
    }
}

fn place_over(
    alloc: Global,
    imports: &Imports,
    text: &str,
) -> Result<Option<(Code, usize, usize)>, Refused> {
    match parse_text(alloc, text)? {
        Cell::Module(module) => Ok(place_in(alloc, imports, &module)),
        Cell::Commands(_) => Ok(Some((Code::Token, 0, 0))),
    }
}

fn code_over(alloc: Global, imports: &Imports, text: &str) -> Result<Option<Code>, Refused> {
    Ok(place_over(alloc, imports, text)?.map(|(code, _, _)| code))
}

/// The code of a module of this text between its name and its end.
fn module_code(alloc: Global, inside: &str) -> Result<Option<Code>, Refused> {
    let text = format!(in alloc; "MODULE A; {inside} END A.")?;
    code_over(alloc, &Imports::empty(alloc), text.as_str())
}

/// Names of each kind that is declared, for the statements below.
const NAMES: &str =
    "IMPORT In, Out; CONST k = 1; TYPE R = RECORD a: INTEGER END; VAR x, y: INTEGER; b: BYTE; c: CHAR; t: BOOLEAN; s: ARRAY 4 OF CHAR; r, q: R; u: ARRAY 3 OF INTEGER; PROCEDURE P(i: INTEGER; VAR j: INTEGER; v: R; o: ARRAY OF INTEGER); BEGIN FOR i := 0 TO j DO END END P; PROCEDURE F(): INTEGER; RETURN 1 END F; PROCEDURE Z; END Z;";

/// The code of statements after these names.
fn body_code(alloc: Global, body: &str) -> Result<Option<Code>, Refused> {
    let inside = format!(in alloc; "{NAMES} BEGIN {body}")?;
    module_code(alloc, inside.as_str())
}

#[test]
fn statements_that_are_well_typed(rt: HostRuntime) -> Result<(), Fail> {
    for body in [
        "x := y; b := x; x := b; c := \"a\"; t := x < y",
        "s := \"abc\"; r := q; r := (q); r.a := 1; u[x] := u[0]",
        "P(x + 1, y, r, u); Z; Z(); x := F()",
        "In.Open; In.Char(c); In.Int(x); In.String(s); In.Name(s)",
        "Out.Open; Out.Char(\"a\"); Out.String(s); Out.String(\"abc\"); Out.Int(x, 0); Out.Ln",
        "INC(x); DEC(x, b); INC(u[1], 2); ASSERT(t)",
        "IF t THEN x := 1 ELSIF x = 1 THEN ELSE x := 2 END",
        "CASE x OF 1, 3 .. 4: x := 1 | 2: | END",
        "CASE c OF \"a\" .. \"z\", 0X: END; CASE b OF k: END",
        "WHILE t DO x := 1 ELSIF x < 1 DO END; REPEAT INC(x) UNTIL x > 3",
        "FOR x := 1 TO y BY -2 DO y := x END",
    ] {
        assert_eq!(rt; body_code(rt.alloc(), body)?, None, "{body}");
    }
    Ok(())
}

#[test]
fn statements_that_break_a_rule(rt: HostRuntime) -> Result<(), Fail> {
    for (body, code) in [
        ("n := 1", Code::UnknownName),
        ("x := TRUE", Code::Types),
        ("c := \"ab\"", Code::Types),
        ("s := \"abcd\"", Code::Types),
        ("r := u", Code::Types),
        ("x", Code::Types),
        ("In.Done", Code::Types),
        ("Out.Int(t, 0)", Code::Types),
        ("IF x THEN END", Code::Types),
        ("CASE t OF 1: END", Code::Types),
        ("CASE x OF \"a\": END", Code::Types),
        ("FOR c := 1 TO 2 DO END", Code::Types),
        ("k := 2", Code::ReadOnly),
        ("In.Done := TRUE", Code::ReadOnly),
        ("FOR k := 1 TO 2 DO END", Code::ReadOnly),
        ("INC(k)", Code::ReadOnly),
        ("P", Code::Parameters),
        ("F()", Code::Parameters),
        ("ABS(1)", Code::Parameters),
        ("Z(1)", Code::Parameters),
        ("In.Int(c)", Code::Parameters),
        ("INC(x, t)", Code::Parameters),
        ("ASSERT(x)", Code::Parameters),
        ("FOR x := 1 TO 2 BY 0 DO END", Code::NotConstant),
        ("CASE x OF y: END", Code::NotConstant),
        ("Out.Real(1)", Code::NotExported),
        ("CASE x OF 1: | 1: END", Code::Label),
        ("CASE x OF 1 .. 3: | 5, 2 .. 2: END", Code::Label),
        ("CASE x OF 2 .. 1: END", Code::Label),
        ("PACK(x, y)", Code::LeftOut),
        ("r(R).a := 1", Code::Types),
        ("x := r(R).a", Code::Types),
        ("t := r IS R", Code::Types),
        ("t := n IS R", Code::UnknownName),
        ("Z(R) := 1", Code::ReadOnly),
    ] {
        assert_eq!(rt; body_code(rt.alloc(), body)?, Some(code), "{body}");
    }
    Ok(())
}

#[test]
fn declarations_and_procedures(rt: HostRuntime) -> Result<(), Fail> {
    for (inside, code) in [
        ("VAR x, x: INTEGER;", Some(Code::DeclaredTwice)),
        ("CONST c = 1 DIV 0;", Some(Code::NotConstant)),
        ("VAR a: ARRAY 0 OF INTEGER;", Some(Code::Size)),
        ("VAR r: REAL;", Some(Code::LeftOut)),
        ("CONST c = 1 IS INTEGER;", Some(Code::NotConstant)),
        ("IMPORT N;", Some(Code::NotLoaded)),
        ("IMPORT A;", Some(Code::ImportsItself)),
        ("PROCEDURE P(i: INTEGER); BEGIN P(i) END P;", None),
        ("PROCEDURE P(): INTEGER; END P;", Some(Code::Parameters)),
        ("PROCEDURE P; RETURN 1 END P;", Some(Code::Parameters)),
        ("PROCEDURE P(): CHAR; RETURN 1 END P;", Some(Code::Types)),
        ("PROCEDURE P(): BYTE; RETURN 1 END P;", None),
        (
            "PROCEDURE P; VAR x: INTEGER; PROCEDURE Q; BEGIN x := 1 END Q; END P;",
            Some(Code::UnknownName),
        ),
        (
            "VAR x: INTEGER; PROCEDURE P; PROCEDURE Q; BEGIN x := 1; P END Q; BEGIN Q END P; BEGIN P",
            None,
        ),
        (
            "PROCEDURE P(v: ARRAY OF CHAR); BEGIN v := \"a\" END P;",
            Some(Code::ReadOnly),
        ),
        (
            "PROCEDURE P(VAR v: ARRAY OF CHAR); BEGIN v := \"a\" END P;",
            None,
        ),
        (
            "PROCEDURE P(VAR v, w: ARRAY OF CHAR); BEGIN v := w END P;",
            Some(Code::LeftOut),
        ),
    ] {
        assert_eq!(rt; module_code(rt.alloc(), inside)?, code, "{inside}");
    }
    Ok(())
}

#[test]
fn limits(rt: HostRuntime) -> Result<(), Fail> {
    for (inside, code) in [
        ("VAR a: ARRAY 65536 OF INTEGER;", None),
        ("VAR a: ARRAY 65537 OF INTEGER;", Some(Code::Size)),
        ("VAR a: ARRAY 256, 257 OF INTEGER;", Some(Code::Size)),
        ("VAR a, b, c, d: ARRAY 65536 OF INTEGER;", None),
        (
            "VAR a, b, c, d: ARRAY 65536 OF INTEGER; e: INTEGER;",
            Some(Code::Size),
        ),
        ("PROCEDURE P; VAR a: ARRAY 16384 OF INTEGER; END P;", None),
        (
            "PROCEDURE P; VAR a: ARRAY 16384 OF INTEGER; e: INTEGER; END P;",
            Some(Code::Size),
        ),
    ] {
        assert_eq!(rt; module_code(rt.alloc(), inside)?, code, "{inside}");
    }
    Ok(())
}

/// The code of a variable that is an array of so many lengths of 1.
fn lengths_code(alloc: Global, count: usize) -> Result<Option<Code>, Refused> {
    let mut inside = format!(in alloc; "VAR a: ARRAY 1")?;
    for _ in 1..count {
        inside.push_str(", 1")?;
    }
    inside.push_str(" OF INTEGER;")?;
    module_code(alloc, inside.as_str())
}

#[test]
fn levels_of_a_type(rt: HostRuntime) -> Result<(), Fail> {
    assert_eq!(rt; lengths_code(rt.alloc(), 200)?, None);
    assert_eq!(rt; lengths_code(rt.alloc(), 201)?, Some(Code::Size));
    Ok(())
}

fn place_of(alloc: Global, text: &str) -> Result<Option<(Code, usize, usize)>, Refused> {
    place_over(alloc, &Imports::empty(alloc), text)
}

#[test]
fn places_of_faults(rt: HostRuntime) -> Result<(), Fail> {
    for (text, place) in [
        ("MODULE A; BEGIN x := 1 END A.", (Code::UnknownName, 1, 17)),
        (
            "MODULE A; CONST c = 1;\nBEGIN c := 2 END A.",
            (Code::ReadOnly, 2, 7),
        ),
        ("MODULE Out; END Out.", (Code::DeclaredTwice, 1, 8)),
        (
            "MODULE A; TYPE T = RECORD (T) a: INTEGER END; END A.",
            (Code::UnknownName, 1, 28),
        ),
        (
            "MODULE A; TYPE R = ARRAY 2 OF INTEGER; T = RECORD (R) a: INTEGER END; END A.",
            (Code::Types, 1, 52),
        ),
        (
            "MODULE A; TYPE T = RECORD a: CHAR END; U = RECORD (T) a: CHAR END; END A.",
            (Code::DeclaredTwice, 1, 55),
        ),
        (
            "MODULE A; TYPE T = RECORD END; PROCEDURE P; END P; BEGIN P(T) := 1 END A.",
            (Code::ReadOnly, 1, 58),
        ),
        (
            "MODULE A; TYPE T = RECORD a: INTEGER END; U = RECORD (T) b: INTEGER END; W = RECORD (U) c: INTEGER END; VAR t: T; u: U; w: W; PROCEDURE P(r: T); BEGIN ASSERT(r IS U) END P; END A.",
            (Code::Types, 1, 159),
        ),
        (
            "MODULE A; TYPE T = RECORD a: INTEGER END; U = RECORD (T) b: INTEGER END; W = RECORD (U) c: INTEGER END; VAR t: T; u: U; w: W; PROCEDURE P(VAR r: T); BEGIN r(U) END P; END A.",
            (Code::Types, 1, 156),
        ),
        (
            "MODULE A; TYPE T = RECORD a: INTEGER END; U = RECORD (T) b: INTEGER END; W = RECORD (U) c: INTEGER END; VAR t: T; u: U; w: W; PROCEDURE P(VAR r: U); BEGIN r(T).a := 1 END P; END A.",
            (Code::Types, 1, 158),
        ),
        (
            "MODULE A; PROCEDURE P; CONST c = 1 IS INTEGER; END P; END A.",
            (Code::NotConstant, 1, 34),
        ),
    ] {
        assert_eq!(rt; place_of(rt.alloc(), text)?, Some(place), "{text}");
    }
    Ok(())
}

/// A record, an extension of it and one of that, and variables of them.
const EXTENSIONS: &str =
    "TYPE T = RECORD a: INTEGER END; U = RECORD (T) b: INTEGER END; W = RECORD (U) c: INTEGER END; VAR t: T; u: U; w: W; x: ARRAY 2 OF U; PROCEDURE P(r: T); END P; PROCEDURE Q(VAR r: U); BEGIN r.a := r.b END Q; PROCEDURE S(r: ARRAY OF T); END S;";

/// The code of statements after these names.
fn extension_code(alloc: Global, body: &str) -> Result<Option<Code>, Refused> {
    let inside = format!(in alloc; "{EXTENSIONS} BEGIN {body}")?;
    module_code(alloc, inside.as_str())
}

#[test]
fn records_that_extend_others(rt: HostRuntime) -> Result<(), Fail> {
    for (body, code) in [
        ("w.a := 1; w.b := w.a; w.c := w.b", None),
        ("t := u; t := w; u := w; x[0] := w", None),
        ("P(u); P(w); Q(w); Q(x[1])", None),
        ("u := t", Some(Code::Types)),
        ("t.b := 1", Some(Code::UnknownName)),
        ("Q(t)", Some(Code::Parameters)),
        ("S(x)", Some(Code::Parameters)),
    ] {
        assert_eq!(rt; extension_code(rt.alloc(), body)?, code, "{body}");
    }
    Ok(())
}

/// The code of the body of a procedure after these types: of a VAR parameter, a value and an array.
fn guarded_code(alloc: Global, body: &str) -> Result<Option<Code>, Refused> {
    let inside = format!(in alloc;
        "{EXTENSIONS} PROCEDURE G(VAR r: T; v: T; VAR y: ARRAY OF T); BEGIN {body} END G;"
    )?;
    module_code(alloc, inside.as_str())
}

#[test]
fn tests_and_guards(rt: HostRuntime) -> Result<(), Fail> {
    for (body, code) in [
        ("r(U).b := 1; r(U)(W).c := r(U).b; r(T).a := 1", None),
        (
            "ASSERT(r IS U); ASSERT((r IS T) & ~(r IS W)); ASSERT(r(U) IS W)",
            None,
        ),
        (
            "Q(r(U)); Q(r(W)); P(r(U)); t := r(U); u := r(W); r(U) := w",
            None,
        ),
        ("r(U)", Some(Code::Types)),
        ("r(U)(T).a := 1", Some(Code::Types)),
        ("ASSERT(r(U) IS T)", Some(Code::Types)),
        ("r(INTEGER).a := 1", Some(Code::Types)),
        ("r(t).a := 1", Some(Code::Types)),
        ("ASSERT(r IS X)", Some(Code::UnknownName)),
        ("ASSERT(v IS U)", Some(Code::Types)),
        ("t := v(U)", Some(Code::Types)),
        ("ASSERT(u IS W)", Some(Code::Types)),
        ("ASSERT((r) IS U)", Some(Code::Types)),
        ("ASSERT(y[0] IS U)", Some(Code::Types)),
        ("y[0](U).b := 1", Some(Code::Types)),
        ("Q(r)", Some(Code::Parameters)),
    ] {
        assert_eq!(rt; guarded_code(rt.alloc(), body)?, code, "{body}");
    }
    Ok(())
}

#[test]
fn bases(rt: HostRuntime) -> Result<(), Fail> {
    for (inside, code) in [
        ("TYPE T = RECORD END; U = RECORD (T) END;", None),
        (
            "TYPE T = RECORD (T) a: INTEGER END;",
            Some(Code::UnknownName),
        ),
        (
            "TYPE R = ARRAY 2 OF CHAR; T = RECORD (R) END;",
            Some(Code::Types),
        ),
        ("TYPE T = RECORD (CHAR) END;", Some(Code::Types)),
        (
            "TYPE T = RECORD a: CHAR END; U = RECORD (T) a: CHAR END;",
            Some(Code::DeclaredTwice),
        ),
        (
            "TYPE T = RECORD a: ARRAY 65536 OF CHAR END; U = RECORD (T) b: CHAR END;",
            Some(Code::Size),
        ),
    ] {
        assert_eq!(rt; module_code(rt.alloc(), inside)?, code, "{inside}");
    }
    Ok(())
}

/// A module with a record, a variable and a procedure.
const LIBRARY: &str =
    "MODULE N; TYPE T* = RECORD b*, a: INTEGER END; VAR t*: T; v*: INTEGER; PROCEDURE Inc*; BEGIN INC(v) END Inc; END N.";

fn checked(alloc: Global, text: &str) -> Result<Checked, Refused> {
    match parse_text(alloc, text)? {
        Cell::Module(module) => check(alloc, &module, &Imports::empty(alloc)),
        Cell::Commands(_) => Err(Refused::Memory),
    }
}

/// The module above is loaded, and reaches a module B.
fn loaded(alloc: Global) -> Result<Imports, Refused> {
    let library = checked(alloc, LIBRARY)?;
    let mut reached = Items::new(alloc);
    reached.push(Text::from_slice(alloc, b"B")?)?;
    let mut imports = Imports::empty(alloc);
    imports.add(library.interface(), reached.as_slice())?;
    Ok(imports)
}

fn importer_code(alloc: Global, text: &str) -> Result<Option<Code>, Refused> {
    code_over(alloc, &loaded(alloc)?, text)
}

#[test]
fn imported_modules(rt: HostRuntime) -> Result<(), Fail> {
    for (text, code) in [
        (
            "MODULE M; IMPORT N; VAR i: INTEGER; BEGIN i := N.v; N.Inc END M.",
            None,
        ),
        (
            "MODULE M; IMPORT N; VAR i: INTEGER; BEGIN i := N.t.a END M.",
            Some(Code::NotExported),
        ),
        (
            "MODULE M; IMPORT N; BEGIN N.v := 1 END M.",
            Some(Code::ReadOnly),
        ),
        (
            "MODULE M; IMPORT N; BEGIN N.Dec END M.",
            Some(Code::NotExported),
        ),
        ("MODULE M; IMPORT N; BEGIN N.v END M.", Some(Code::Types)),
        ("MODULE B; IMPORT N; END B.", Some(Code::ImportsItself)),
        (
            "MODULE M; IMPORT N; TYPE W = RECORD (N.T) c: INTEGER END; VAR w: W; BEGIN w.b := w.c END M.",
            None,
        ),
        (
            "MODULE M; IMPORT N; TYPE W = RECORD (N.T) c: INTEGER END; VAR w: W; BEGIN w.a := 1 END M.",
            Some(Code::NotExported),
        ),
        (
            "MODULE M; IMPORT N; TYPE W = RECORD (N.T) c: INTEGER END; VAR w: W; BEGIN w.z := 1 END M.",
            Some(Code::UnknownName),
        ),
        (
            "MODULE M; IMPORT N; TYPE W = RECORD (N.T) a: INTEGER END; END M.",
            Some(Code::DeclaredTwice),
        ),
    ] {
        assert_eq!(rt; importer_code(rt.alloc(), text)?, code, "{text}");
    }
    Ok(())
}

/// How many procedures a module has, and the number of the first that it exports.
fn procedures_of(alloc: Global, text: &str) -> Result<(usize, usize), Refused> {
    let module = checked(alloc, text)?;
    let tree = module.tree();
    match tree.exported.as_slice() {
        [first, ..] => Ok((tree.procedures.len(), *first)),
        [] => Ok((tree.procedures.len(), 0)),
    }
}

#[test]
fn procedures_are_numbered_by_their_ends(rt: HostRuntime) -> Result<(), Fail> {
    let text =
        "MODULE A; PROCEDURE P*; PROCEDURE Q; PROCEDURE R; END R; END Q; PROCEDURE S; END S; BEGIN P END P; PROCEDURE T*; END T; END A.";
    assert_eq!(rt; procedures_of(rt.alloc(), text)?, (5, 3));
    Ok(())
}
