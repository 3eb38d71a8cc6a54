//! Records that extend others, numbers, and parameters that are the actual variables.

use crate::replays::{assert_cells, assert_session, ok, trap};
use std::test::Fail;

#[test]
fn records_extend_those_of_other_modules(rt: HostRuntime) -> Result<(), Fail> {
    assert_session(
        &rt,
        &[
            ok(
                "MODULE N; IMPORT Out; TYPE T* = RECORD a*: INTEGER; h: INTEGER END; PROCEDURE Set*(VAR r: T); BEGIN r.a := 4; r.h := 5 END Set; PROCEDURE Show*(r: T); BEGIN Out.Int(r.a, 0); Out.Int(r.h, 0) END Show; END N.",
                "",
            ),
            ok(
                "MODULE M; IMPORT N, Out; TYPE W* = RECORD (N.T) c*: INTEGER END; VAR w*: W; t: N.T; BEGIN w.c := 7; N.Set(w); t := w; N.Set(t); t.a := 1; w.a := w.a + t.a; N.Show(w); N.Show(t); Out.Int(w.c, 0) END M.",
                "55157",
            ),
            ok(
                "MODULE L; IMPORT M, N; PROCEDURE P*; BEGIN N.Show(M.w) END P; END L.",
                "",
            ),
            ok("L.P", "55"),
        ],
    )
}

#[test]
fn a_test_tells_an_extension(rt: HostRuntime) -> Result<(), Fail> {
    assert_cells(
        &rt,
        &[
            ok(
                "MODULE V; IMPORT Out; TYPE T = RECORD a: INTEGER END; U = RECORD (T) b: INTEGER END; VAR t: T; u: U; PROCEDURE P(VAR r: T); BEGIN IF r IS U THEN r(U).b := r.a + 1 END; r.a := 9 END P; BEGIN u.a := 4; P(u); P(t); Out.Int(u.a, 0); Out.Char(41X); Out.Int(u.b, 0); Out.Char(41X); u.a := 3; t := u; Out.Int(t.a, 0) END V.",
                "9A5A3",
            ),
            trap(
                "MODULE W; TYPE T = RECORD a: INTEGER END; U = RECORD (T) b: INTEGER END; VAR t: T; PROCEDURE P(VAR r: T); BEGIN r(U).b := 1 END P; BEGIN P(t) END W.",
                "",
                "trap 10 in W, line 1",
            ),
        ],
    )
}

#[test]
fn a_guard_knows_the_types_of_other_modules(rt: HostRuntime) -> Result<(), Fail> {
    assert_session(
        &rt,
        &[
            ok(
                "MODULE N; TYPE T* = RECORD a*: INTEGER; h: INTEGER END; U* = RECORD (T) b*: INTEGER END; PROCEDURE P*(VAR r: T); BEGIN IF r IS U THEN r(U).b := 5 END; r.h := 1 END P; PROCEDURE Q*(VAR r: T); BEGIN r(U).b := 6 END Q; END N.",
                "",
            ),
            ok(
                "MODULE M; IMPORT N, Out; TYPE W = RECORD (N.U) c: INTEGER END; X = RECORD (N.T) c: INTEGER END; VAR w: W; x: X; PROCEDURE Bad*; BEGIN N.Q(x) END Bad; BEGIN N.P(w); Out.Int(w.b, 0); N.P(x); Out.Int(x.c, 0) END M.",
                "50",
            ),
            trap("M.Bad", "", "trap 10 in N, line 1"),
        ],
    )
}

#[test]
fn an_extension_keeps_its_own_fields(rt: HostRuntime) -> Result<(), Fail> {
    assert_cells(
        &rt,
        &[
            ok(
                "MODULE A; IMPORT Out; TYPE T = RECORD a: INTEGER END; U = RECORD (T) b: INTEGER END; VAR t: T; u: U; PROCEDURE P(VAR r: T; x: T); BEGIN r := x END P; BEGIN u.b := 5; t.a := 6; P(u, t); Out.Int(u.a, 0); Out.Int(u.b, 0) END A.",
                "65",
            ),
            ok(
                "MODULE A; IMPORT Out; TYPE T = RECORD END; U = RECORD (T) b: INTEGER END; VAR t: T; u, v: U; BEGIN u.b := 2; t := u; v := u; u.b := 3; Out.Int(v.b, 0); Out.Int(u.b, 0) END A.",
                "23",
            ),
        ],
    )
}

#[test]
fn numbers_wrap_and_parameters_are_the_actual(rt: HostRuntime) -> Result<(), Fail> {
    assert_cells(
        &rt,
        &[
            ok(
                "MODULE A; IMPORT Out; BEGIN Out.Int(7FFFFFFFH + 1, 0) END A.",
                "-2147483648",
            ),
            ok(
                "MODULE K; IMPORT Out; VAR i, x: INTEGER; BEGIN x := -7; Out.Int(x DIV 2, 0); Out.Int(x MOD 2, 2); FOR i := 3 TO 1 BY -1 DO Out.Int(i, 2) END; Out.Int(i, 3) END K.",
                "-4 1 3 2 1  0",
            ),
            ok(
                "MODULE E; IMPORT Out; VAR x: INTEGER; PROCEDURE P(VAR a, b: INTEGER); BEGIN a := 1; b := b + a END P; BEGIN x := 5; P(x, x); Out.Int(x, 0) END E.",
                "2",
            ),
            ok(
                "MODULE S; IMPORT Out; VAR a: ARRAY 2, 3 OF INTEGER; i: INTEGER; PROCEDURE P(VAR r: ARRAY OF INTEGER; VAR x: INTEGER); BEGIN r[2] := 7; x := x + LEN(r); i := 0; r[0] := 5 END P; BEGIN i := 1; P(a[i], a[i, 2]); Out.Int(a[1, 2], 0); Out.Int(a[1, 0], 2); Out.Int(a[0, 0], 2) END S.",
                "10 5 0",
            ),
        ],
    )
}
