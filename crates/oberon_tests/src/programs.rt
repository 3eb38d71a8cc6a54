//! Programs of one module: what they write, and how they trap.

use crate::replays::{Row, assert_cells, assert_session, error, ok, trap};
use std::test::Fail;

#[test]
fn what_is_written(rt: HostRuntime) -> Result<(), Fail> {
    let rows = [
        ok("", ""),
        ok(
            "MODULE A; IMPORT Out; BEGIN Out.Int(6*7, 0); Out.Ln END A.",
            "42\\n",
        ),
        ok(
            "MODULE A; IMPORT Out; BEGIN Out.Int(7FFFFFFFH + 1, 0) END A.",
            "-2147483648",
        ),
        ok(
            "MODULE B; IMPORT Out; VAR x: INTEGER; BEGIN x := -7; Out.Int(x DIV 2, 0); Out.Char(\\\" \\\"); Out.Int(x MOD 2, 0); Out.Char(\\\" \\\"); Out.Int(-7 DIV 2, 0); Out.Ln END B.",
            "-4 1 -3\\n",
        ),
        ok(
            "MODULE E; IMPORT Out; VAR x: INTEGER; PROCEDURE P(VAR a, b: INTEGER); BEGIN a := 1; b := b + a END P; BEGIN x := 5; P(x, x); Out.Int(x, 0) END E.",
            "2",
        ),
        ok(
            "MODULE K; IMPORT Out; VAR i: INTEGER; BEGIN FOR i := 3 TO 1 BY -1 DO Out.Int(i, 2) END; Out.Int(i, 3); Out.Ln END K.",
            " 3 2 1  0\\n",
        ),
        ok(
            "MODULE S; IMPORT Out; VAR a: ARRAY 2, 3 OF INTEGER; i: INTEGER; PROCEDURE P(VAR r: ARRAY OF INTEGER; VAR x: INTEGER); BEGIN r[2] := 7; x := x + LEN(r); i := 0; r[0] := 5 END P; BEGIN i := 1; P(a[i], a[i, 2]); Out.Int(a[1, 2], 0); Out.Char(\\\" \\\"); Out.Int(a[1, 0], 0); Out.Char(\\\" \\\"); Out.Int(a[0, 0], 0); Out.Ln END S.",
            "10 5 0\\n",
        ),
    ];
    assert_cells(&rt, &rows)?;
    assert_session(&rt, &rows)
}

#[test]
fn four_arrays_of_65536_cells(rt: HostRuntime) -> Result<(), Fail> {
    assert_session(
        &rt,
        &[
            ok(
                "MODULE W; IMPORT Out; VAR a, b, c, d: ARRAY 65536 OF INTEGER; PROCEDURE Show*; BEGIN Out.Int(a[0], 0); Out.Int(a[65535], 0); Out.Int(b[0], 0); Out.Int(b[65535], 0); Out.Int(c[0], 0); Out.Int(c[65535], 0); Out.Int(d[0], 0); Out.Int(d[65535], 0) END Show; BEGIN a[0] := 1; a[65535] := 2; b[0] := 3; b[65535] := 4; c[0] := 5; c[65535] := 6; d[0] := 7; d[65535] := 8; Show END W.",
                "12345678",
            ),
            ok("W.Show", "12345678"),
        ],
    )
}

/// Modules of one line, each of which sets x to 300 and then meets the trap at its place, counted from 1.
const TRAPS: [(&str, &str); 9] = [
    (
        "MODULE T; VAR x: INTEGER; a: ARRAY 3 OF INTEGER; BEGIN x := 300; a[x] := 1 END T.",
        "trap 1 in T, line 1",
    ),
    (
        "MODULE T; VAR x: INTEGER; c: CHAR; b: BYTE; s: ARRAY 3 OF CHAR; PROCEDURE Q(VAR t: ARRAY OF CHAR); BEGIN t := \\\"abc\\\" END Q; BEGIN x := 300; x := 1 DIV (x - x) END T.",
        "trap 2 in T, line 1",
    ),
    (
        "MODULE T; VAR x: INTEGER; c: CHAR; b: BYTE; s: ARRAY 3 OF CHAR; PROCEDURE Q(VAR t: ARRAY OF CHAR); BEGIN t := \\\"abc\\\" END Q; BEGIN x := 300; CASE x OF 1: END END T.",
        "trap 3 in T, line 1",
    ),
    (
        "MODULE T; VAR x: INTEGER; c: CHAR; b: BYTE; s: ARRAY 3 OF CHAR; PROCEDURE Q(VAR t: ARRAY OF CHAR); BEGIN t := \\\"abc\\\" END Q; BEGIN x := 300; ASSERT(x = 1) END T.",
        "trap 4 in T, line 1",
    ),
    (
        "MODULE T; VAR x: INTEGER; c: CHAR; b: BYTE; s: ARRAY 3 OF CHAR; PROCEDURE Q(VAR t: ARRAY OF CHAR); BEGIN t := \\\"abc\\\" END Q; BEGIN x := 300; c := CHR(x) END T.",
        "trap 5 in T, line 1",
    ),
    (
        "MODULE T; VAR x: INTEGER; c: CHAR; b: BYTE; s: ARRAY 3 OF CHAR; PROCEDURE Q(VAR t: ARRAY OF CHAR); BEGIN t := \\\"abc\\\" END Q; BEGIN x := 300; x := LSL(x, 32) END T.",
        "trap 6 in T, line 1",
    ),
    (
        "MODULE T; VAR x: INTEGER; c: CHAR; b: BYTE; s: ARRAY 3 OF CHAR; PROCEDURE Q(VAR t: ARRAY OF CHAR); BEGIN t := \\\"abc\\\" END Q; BEGIN x := 300; Q(s) END T.",
        "trap 7 in T, line 1",
    ),
    (
        "MODULE T; VAR x: INTEGER; PROCEDURE P; BEGIN P END P; BEGIN x := 300; P END T.",
        "trap 8 in T, line 1",
    ),
    (
        "MODULE T; VAR x: INTEGER; c: CHAR; b: BYTE; s: ARRAY 3 OF CHAR; PROCEDURE Q(VAR t: ARRAY OF CHAR); BEGIN t := \\\"abc\\\" END Q; BEGIN x := 300; b := x END T.",
        "trap 9 in T, line 1",
    ),
];

#[test]
fn each_trap(rt: HostRuntime) -> Result<(), Fail> {
    for (code, value) in TRAPS {
        assert_session(&rt, &[trap(code, "", value)])?;
    }
    Ok(())
}

#[test]
fn traps_name_their_line(rt: HostRuntime) -> Result<(), Fail> {
    assert_session(
        &rt,
        &[
            trap(
                "MODULE T; IMPORT Out;\\nVAR x: INTEGER;\\nBEGIN Out.Int(1, 0);\\n  x := 1\\n    DIV\\n  x - 1 DIV\\n  (x - 1)\\nEND T.",
                "1",
                "trap 2 in T, line 5",
            ),
            trap(
                "MODULE U; VAR a: ARRAY 2 OF INTEGER; i: INTEGER;\\nPROCEDURE P;\\nBEGIN a[i] := a[\\ni + 2] END P;\\nBEGIN P END U.",
                "",
                "trap 1 in U, line 4",
            ),
        ],
    )
}

#[test]
fn the_depth_of_calls(rt: HostRuntime) -> Result<(), Fail> {
    assert_session(
        &rt,
        &[
            trap(
                "MODULE R; IMPORT Out; VAR d: INTEGER; PROCEDURE P; BEGIN INC(d); P END P; PROCEDURE Show*; BEGIN Out.Int(d, 0) END Show; BEGIN P END R.",
                "",
                "trap 8 in R, line 1",
            ),
            ok("R.Show", "1000"),
        ],
    )
}

/// Cells that are refused before they run.
fn refusals() -> [Row<'static>; 7] {
    [
        error(
            "MODULE A; BEGIN x := 1 END A.",
            "",
            "CompileError",
            "compile error 10 at 1:17",
        ),
        error("(* (* *)", "", "CompileError", "compile error 2 at 1:1"),
        error(
            "MODULE L; VAR x: INTEGER; BEGIN x := x < 1 END L.",
            "",
            "CompileError",
            "compile error 12 at 1:38",
        ),
        error(
            "MODULE A; VAR r: REAL; END A.",
            "",
            "CompileError",
            "compile error 21 at 1:18",
        ),
        error("Q.P", "", "LinkError", "link error 30: Q"),
        error("Out.Ln", "", "LinkError", "link error 31: Out.Ln"),
        error("Out.Ln; Q.P", "", "LinkError", "link error 31: Out.Ln"),
    ]
}

#[test]
fn cells_that_are_refused(rt: HostRuntime) -> Result<(), Fail> {
    assert_cells(&rt, &refusals())?;
    assert_session(&rt, &refusals())
}
