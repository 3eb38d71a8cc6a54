//! Modules that break a rule, or several at once, of which the one whose token stands first is named. Each text stands in two
//! parts: the fault is at the first character of the second.

use ob_base::{Code, Items, Refused};
use ob_check_module::check;
use ob_check_scope::Imports;
use ob_parse::parse_text;
use ob_tree::tree::Cell;
use std::alloc::Global;
use std::test::Fail;

/// A module with a constant, a type, variables and a function.
const LIBRARY: &str =
    "MODULE N; CONST k* = 2; TYPE T* = RECORD a*: INTEGER END; VAR t*: T; v*: INTEGER; u*: ARRAY 3 OF INTEGER; PROCEDURE F*(): INTEGER; RETURN 1 END F; END N.";

/// What stands before statements.
const NAMES: &str =
    "IMPORT N, In, Out; VAR x: INTEGER; b: BOOLEAN; c: CHAR; r: RECORD a: INTEGER END; u: ARRAY 3 OF INTEGER; BEGIN ";

/// The module above is loaded.
fn loaded(alloc: Global) -> Result<Imports, Refused> {
    let mut imports = Imports::empty(alloc);
    match parse_text(alloc, LIBRARY)? {
        Cell::Module(module) => {
            let library = check(alloc, &module, &imports)?;
            let none = Items::new(alloc);
            imports.add(library.interface(), none.as_slice())?;
            Ok(imports)
        }
        Cell::Commands(_) => Ok(imports),
    }
}

/// The code and the column of the fault of a text. None where it is well typed.
fn fault_of(alloc: Global, text: &str) -> Result<Option<(Code, usize)>, Refused> {
    let imports = loaded(alloc)?;
    match parse_text(alloc, text)? {
        Cell::Module(module) => match check(alloc, &module, &imports) {
            Err(Refused::Fault(fault)) => Ok(Some((fault.code, fault.column))),
            _ => Ok(None),
        },
        Cell::Commands(_) => Ok(None),
    }
}

/// The fault of declarations or statements after these, and the column where the second part begins.
fn two_parts(
    alloc: Global,
    behind: &str,
    first: &str,
    second: &str,
) -> Result<(Option<(Code, usize)>, usize), Refused> {
    let begin = format!(in alloc; "MODULE A; {behind}{first}")?;
    let text = format!(in alloc; "{begin}{second} END A.", begin = begin.as_str())?;
    let fault = fault_of(alloc, text.as_str())?;
    Ok((fault, begin.as_str().len().saturating_add(1)))
}

/// Whether each text has its code at its place. Else the second part of the first that has not.
fn first_wrong<'a>(
    alloc: Global,
    behind: &str,
    texts: &[(&'a str, &'a str, Code)],
) -> Result<Option<(&'a str, &'a str)>, Refused> {
    for (first, second, code) in texts {
        let (fault, column) = two_parts(alloc, behind, first, second)?;
        if fault != Some((*code, column)) {
            return Ok(Some((*first, *second)));
        }
    }
    Ok(None)
}

#[test]
fn a_part_of_an_imported_variable_is_no_constant(rt: HostRuntime) -> Result<(), Fail> {
    let texts = [
        ("IMPORT N; CONST c = N.", "t.a;", Code::NotConstant),
        ("IMPORT N; CONST c = N.", "t.a + 1;", Code::NotConstant),
        ("IMPORT N; CONST c = N.", "u[0];", Code::NotConstant),
        (
            "IMPORT N; VAR x: ARRAY N.",
            "t.a OF CHAR;",
            Code::NotConstant,
        ),
        ("IMPORT N; CONST c = N.", "k.a;", Code::Types),
        ("IMPORT In; CONST c = In.", "Done;", Code::NotConstant),
        ("IMPORT N; CONST c = ", "N.F();", Code::NotConstant),
        ("CONST k = 1; c = ", "k(1);", Code::NotConstant),
    ];
    assert_eq!(rt; first_wrong(rt.alloc(), "", texts.as_slice())?, None);
    let steps = [("FOR x := 1 TO 2 BY N.", "t.a DO END", Code::NotConstant)];
    assert_eq!(rt; first_wrong(rt.alloc(), NAMES, steps.as_slice())?, None);
    Ok(())
}

#[test]
fn what_a_module_lacks(rt: HostRuntime) -> Result<(), Fail> {
    let constants = [
        ("IMPORT N; CONST c = N.", "zz[0];", Code::NotExported),
        ("IMPORT N; CONST c = N.", "zz();", Code::NotExported),
        ("IMPORT Out; CONST c = Out.", "zz.x;", Code::NotExported),
        ("IMPORT In; CONST c = In.", "zz(1);", Code::NotExported),
    ];
    assert_eq!(rt; first_wrong(rt.alloc(), "", constants.as_slice())?, None);
    let statements = [
        ("N.", "zz.x", Code::NotExported),
        ("N.", "zz[0]", Code::NotExported),
        ("N.", "zz.x(1)", Code::NotExported),
        ("x := N.", "zz.x(1)", Code::NotExported),
        ("x := N.", "zz.x", Code::NotExported),
        ("N.", "zz := 1", Code::NotExported),
        ("N.", "zz.x := 1", Code::NotExported),
        ("In.Int(N.", "zz)", Code::NotExported),
        ("Out.", "zz.x", Code::NotExported),
        ("In.", "zz[0](1)", Code::NotExported),
        ("CASE x OF N.", "zz: END", Code::NotExported),
        ("N.", "F.x", Code::Types),
        ("Out.", "Ln.x", Code::Types),
        ("", "N.v := 1", Code::ReadOnly),
    ];
    assert_eq!(rt;
        first_wrong(rt.alloc(), NAMES, statements.as_slice())?,
        None
    );
    Ok(())
}

#[test]
fn names_are_judged_before_their_type(rt: HostRuntime) -> Result<(), Fail> {
    let texts = [
        ("VAR x, ", "x: zz;", Code::DeclaredTwice),
        ("VAR x: INTEGER; ", "x: zz;", Code::DeclaredTwice),
        (
            "CONST x = 1; VAR ",
            "x: ARRAY 0 OF CHAR;",
            Code::DeclaredTwice,
        ),
        ("VAR x: ", "zz; x: INTEGER;", Code::UnknownName),
        ("TYPE T = RECORD a, ", "a: zz END;", Code::DeclaredTwice),
        ("PROCEDURE P(a, ", "a: zz); END P;", Code::DeclaredTwice),
        (
            "PROCEDURE P(a: CHAR; ",
            "a: zz); END P;",
            Code::DeclaredTwice,
        ),
        ("IMPORT Out, ", "Out := Q;", Code::DeclaredTwice),
        ("IMPORT Out, ", "Out := SYSTEM;", Code::DeclaredTwice),
        ("IMPORT Out, ", "Out := A;", Code::DeclaredTwice),
        ("IMPORT X := ", "Q;", Code::NotLoaded),
    ];
    assert_eq!(rt; first_wrong(rt.alloc(), "", texts.as_slice())?, None);
    Ok(())
}

#[test]
fn the_left_side_is_judged_before_the_right_one(rt: HostRuntime) -> Result<(), Fail> {
    let constants = [
        ("CONST c = 5 ", "& zz;", Code::Types),
        ("CONST c = TRUE ", "+ zz;", Code::Types),
        ("CONST c = TRUE ", "< zz;", Code::Types),
        ("CONST c = 5 + ", "zz;", Code::UnknownName),
        ("CONST c = 5 ", "+ TRUE;", Code::Types),
    ];
    assert_eq!(rt; first_wrong(rt.alloc(), "", constants.as_slice())?, None);
    let statements = [
        ("x := 5 ", "& zz", Code::Types),
        ("x := TRUE ", "+ zz", Code::Types),
        ("b := x + 1 ", "OR zz", Code::Types),
        ("b := b ", "< zz", Code::Types),
        ("b := r ", "= zz", Code::Types),
        ("b := c = ", "zz", Code::UnknownName),
        ("x := x DIV ", "REAL", Code::LeftOut),
        ("b := b ", "DIV REAL", Code::Types),
        ("b := x ", "& Out.nope", Code::Types),
        ("x := x ", "+ TRUE", Code::Types),
    ];
    assert_eq!(rt;
        first_wrong(rt.alloc(), NAMES, statements.as_slice())?,
        None
    );
    Ok(())
}

#[test]
fn actual_parameters_are_judged_from_left_to_right(rt: HostRuntime) -> Result<(), Fail> {
    let constants = [
        ("CONST c = LSL(", "TRUE, zz);", Code::Parameters),
        ("CONST c = ABS(1, ", "zz);", Code::Parameters),
        ("CONST c = LSL(1, ", "zz, 3);", Code::UnknownName),
        ("CONST c = LSL(1, 2, ", "zz);", Code::Parameters),
        ("CONST c = ", "LSL(1);", Code::Parameters),
        ("CONST c = CHR(", "TRUE);", Code::Parameters),
    ];
    assert_eq!(rt; first_wrong(rt.alloc(), "", constants.as_slice())?, None);
    let statements = [
        ("x := LSL(", "TRUE, zz)", Code::Parameters),
        ("x := ASR(", "c, Out.nope)", Code::Parameters),
        ("x := ABS(", "b, zz)", Code::Parameters),
        ("x := ABS(1, ", "zz)", Code::Parameters),
        ("x := LEN(", "x, zz)", Code::Parameters),
        ("x := LEN(u, ", "zz)", Code::Parameters),
        ("x := LSL(1, ", "zz)", Code::UnknownName),
        ("x := LSL(1, ", "b)", Code::Parameters),
        ("x := ", "LSL(1)", Code::Parameters),
        ("c := CHR(", "c)", Code::Parameters),
        ("INC(", "zz, 1, 2)", Code::UnknownName),
        ("INC(x, ", "b, 2)", Code::Parameters),
        ("INC(x, 1, ", "2)", Code::Parameters),
        ("ASSERT(", "x, zz)", Code::Parameters),
        ("ASSERT(b, ", "zz)", Code::Parameters),
    ];
    assert_eq!(rt;
        first_wrong(rt.alloc(), NAMES, statements.as_slice())?,
        None
    );
    Ok(())
}

#[test]
fn actual_parameters_of_in_and_out(rt: HostRuntime) -> Result<(), Fail> {
    let statements = [
        ("Out.Int(", "TRUE)", Code::Types),
        ("Out.Int(", "zz)", Code::UnknownName),
        ("Out.Int(", "\"ab\", 0, 1)", Code::Types),
        ("Out.Int(1, ", "TRUE, 2)", Code::Types),
        ("Out.Int(1, 2, ", "zz)", Code::Parameters),
        ("", "Out.Int(1)", Code::Parameters),
        ("Out.Char(", "1, 2)", Code::Types),
        ("Out.String(", "1, zz)", Code::Parameters),
        ("Out.Ln(", "zz)", Code::Parameters),
        ("In.Int(", "zz, x)", Code::UnknownName),
        ("In.Int(x, ", "zz)", Code::Parameters),
        ("In.Char(", "x, zz)", Code::Parameters),
    ];
    assert_eq!(rt;
        first_wrong(rt.alloc(), NAMES, statements.as_slice())?,
        None
    );
    Ok(())
}

#[test]
fn a_parameter_is_visible_in_the_rest_of_its_heading(rt: HostRuntime) -> Result<(), Fail> {
    let texts = [
        (
            "PROCEDURE P(INTEGER: CHAR; x: ",
            "INTEGER); END P;",
            Code::Types,
        ),
        (
            "PROCEDURE F(INTEGER: CHAR): ",
            "INTEGER; RETURN 0 END F;",
            Code::Types,
        ),
        (
            "TYPE T = CHAR; PROCEDURE P(T: INTEGER; x: ",
            "T); END P;",
            Code::Types,
        ),
        (
            "PROCEDURE P(VAR BYTE: CHAR; x: ARRAY OF ",
            "BYTE); END P;",
            Code::Types,
        ),
        (
            "IMPORT N; PROCEDURE P(N: INTEGER; x: ",
            "N.T); END P;",
            Code::Types,
        ),
        ("PROCEDURE P(a: INTEGER; x: ", "a); END P;", Code::Types),
        (
            "PROCEDURE P(a: CHAR); PROCEDURE Q(x: ",
            "a); END Q; END P;",
            Code::UnknownName,
        ),
        (
            "PROCEDURE P; VAR CHAR: BYTE; PROCEDURE Q(x: ",
            "CHAR); END Q; END P;",
            Code::UnknownName,
        ),
        ("VAR v: CHAR; PROCEDURE P(x: ", "v); END P;", Code::Types),
    ];
    assert_eq!(rt; first_wrong(rt.alloc(), "", texts.as_slice())?, None);
    for text in [
        "MODULE A; TYPE T = CHAR; PROCEDURE P(T: T); END P; END A.",
        "MODULE A; PROCEDURE P(CHAR: INTEGER; x: INTEGER): BYTE; RETURN CHAR END P; END A.",
    ] {
        assert_eq!(rt; fault_of(rt.alloc(), text)?, None, "{text}");
    }
    Ok(())
}

#[test]
fn faults_of_values_stand_at_their_first_token(rt: HostRuntime) -> Result<(), Fail> {
    let texts = [
        ("CONST c = ", "1 DIV 0;", Code::NotConstant),
        ("CONST c = 1 ", "+ CHR(300);", Code::Types),
        ("CONST c = ", "CHR(256);", Code::NotConstant),
        ("VAR a: ARRAY ", "0 OF CHAR;", Code::Size),
        ("VAR a: ARRAY 2, ", "0 OF CHAR;", Code::Size),
        ("VAR a: ARRAY ", "TRUE OF CHAR;", Code::Types),
        ("VAR a: ARRAY ", "1 MOD 0 OF CHAR;", Code::NotConstant),
        ("CONST c = ABS(", "TRUE);", Code::Parameters),
    ];
    assert_eq!(rt; first_wrong(rt.alloc(), "", texts.as_slice())?, None);
    Ok(())
}
