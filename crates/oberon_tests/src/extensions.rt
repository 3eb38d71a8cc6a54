//! Programs whose records extend others, with what they come to.

use crate::replays::{Row, assert_cells, assert_session, error, ok, trap};
use std::test::Fail;

fn refused<'a>(code: &'a str, evalue: &'a str) -> Row<'a> {
    error(code, "", "CompileError", evalue)
}

#[test]
fn programs_that_run(rt: HostRuntime) -> Result<(), Fail> {
    assert_cells(
        &rt,
        &[
            // three levels, guard of a guard
            ok(
                "MODULE A; IMPORT Out; TYPE T = RECORD a: INTEGER END; U = RECORD (T) b: INTEGER END; W = RECORD (U) c: INTEGER END; VAR t: T; u: U; w: W; PROCEDURE P(VAR r: T); BEGIN IF r IS W THEN r(U)(W).c := 7 END END P; BEGIN P(w); Out.Int(w.c,0); P(u); Out.Int(u.b,0) END A.",
                "70",
            ),
            // passed on, static type is the middle one
            ok(
                "MODULE A; IMPORT Out; TYPE T = RECORD a: INTEGER END; U = RECORD (T) b: INTEGER END; W = RECORD (U) c: INTEGER END; VAR t: T; u: U; w: W; PROCEDURE Q(VAR r: T); BEGIN IF r IS W THEN r(W).c := 3 END END Q; PROCEDURE P(VAR r: U); BEGIN Q(r) END P; BEGIN P(w); Out.Int(w.c,0) END A.",
                "3",
            ),
            // guarded actual, r(U) read as Actuals
            ok(
                "MODULE A; IMPORT Out; TYPE T = RECORD a: INTEGER END; U = RECORD (T) b: INTEGER END; W = RECORD (U) c: INTEGER END; VAR t: T; u: U; w: W; PROCEDURE Q(VAR r: U); BEGIN r.b := 8 END Q; PROCEDURE P(VAR r: T); BEGIN Q(r(U)) END P; BEGIN P(u); Out.Int(u.b,0) END A.",
                "8",
            ),
            // whole assignment through r keeps the rest
            ok(
                "MODULE A; IMPORT Out; TYPE T = RECORD a: INTEGER END; U = RECORD (T) b: INTEGER END; W = RECORD (U) c: INTEGER END; VAR t: T; u: U; w: W; PROCEDURE P(VAR r: T; x: T); BEGIN r := x END P; BEGIN u.b := 5; t.a := 6; P(u,t); Out.Int(u.a,0); Out.Int(u.b,0) END A.",
                "65",
            ),
            // guarded target of an assignment
            ok(
                "MODULE A; IMPORT Out; TYPE T = RECORD a: INTEGER END; U = RECORD (T) b: INTEGER END; W = RECORD (U) c: INTEGER END; VAR t: T; u: U; w: W; PROCEDURE P(VAR r: T); BEGIN r(U) := w END P; BEGIN w.b := 4; P(u); Out.Int(u.b,0) END A.",
                "4",
            ),
            // trap 10 at a guarded actual
            trap(
                "MODULE A; TYPE T = RECORD a: INTEGER END; U = RECORD (T) b: INTEGER END; W = RECORD (U) c: INTEGER END; VAR t: T; u: U; w: W; PROCEDURE Q(VAR r: U); END Q; PROCEDURE P(VAR r: T); BEGIN Q(r(U)) END P; BEGIN P(t) END A.",
                "",
                "trap 10 in A, line 1",
            ),
            // empty base
            ok(
                "MODULE A; IMPORT Out; TYPE T = RECORD END; U = RECORD (T) b: INTEGER END; VAR t: T; u: U; PROCEDURE P(VAR r: T); BEGIN IF r IS U THEN r(U).b := 2 END END P; BEGIN P(u); t := u; Out.Int(u.b,0) END A.",
                "2",
            ),
            // an element and a field have their declared type
            ok(
                "MODULE A; IMPORT Out; TYPE T = RECORD a: INTEGER END; U = RECORD (T) b: INTEGER END; W = RECORD (U) c: INTEGER END; VAR t: T; u: U; w: W; a: ARRAY 2 OF T; v: RECORD f: T END; PROCEDURE P(VAR r: T); BEGIN IF r IS U THEN Out.Int(1,0) ELSE Out.Int(0,0) END END P; BEGIN P(a[1]); P(v.f) END A.",
                "00",
            ),
        ],
    )
}

#[test]
fn programs_that_are_refused(rt: HostRuntime) -> Result<(), Fail> {
    assert_cells(
        &rt,
        &[
            refused(
                "MODULE A; TYPE T = RECORD (T) a: INTEGER END; END A.",
                "compile error 10 at 1:28",
            ),
            refused(
                "MODULE A; TYPE R = ARRAY 2 OF INTEGER; T = RECORD (R) a: INTEGER END; END A.",
                "compile error 12 at 1:52",
            ),
            refused(
                "MODULE A; TYPE T = RECORD a: INTEGER END; U = RECORD (T) b: INTEGER END; W = RECORD (U) c: INTEGER END; VAR t: T; u: U; w: W; PROCEDURE P(r: T); BEGIN ASSERT(r IS U) END P; END A.",
                "compile error 12 at 1:159",
            ),
            refused(
                "MODULE A; TYPE T = RECORD a: INTEGER END; U = RECORD (T) b: INTEGER END; W = RECORD (U) c: INTEGER END; VAR t: T; u: U; w: W; PROCEDURE P(VAR r: T); BEGIN r(U) END P; END A.",
                "compile error 12 at 1:156",
            ),
            refused(
                "MODULE A; TYPE T = RECORD a: INTEGER END; U = RECORD (T) b: INTEGER END; W = RECORD (U) c: INTEGER END; VAR t: T; u: U; w: W; PROCEDURE P(VAR r: U); BEGIN r(T).a := 1 END P; END A.",
                "compile error 12 at 1:158",
            ),
            refused(
                "MODULE A; TYPE T = RECORD a: INTEGER END; U = RECORD (T) b: INTEGER END; W = RECORD (U) c: INTEGER END; VAR t: T; u: U; w: W; x: ARRAY 2 OF U; PROCEDURE P(VAR r: ARRAY OF T); END P; BEGIN P(x) END A.",
                "compile error 14 at 1:191",
            ),
            refused(
                "MODULE A; BEGIN P(1).x := 2 END A.",
                "compile error 5 at 1:21",
            ),
            refused(
                "MODULE A; TYPE T = RECORD END; PROCEDURE P; END P; BEGIN P(T) := 1 END A.",
                "compile error 13 at 1:58",
            ),
            refused(
                "MODULE A; PROCEDURE P; CONST c = 1 IS INTEGER; END P; END A.",
                "compile error 15 at 1:34",
            ),
            refused(
                "MODULE A; TYPE T = RECORD a: INTEGER END; U = RECORD (T) b: INTEGER END; W = RECORD (U) c: INTEGER END; VAR t: T; u: U; w: W; PROCEDURE Q(VAR r: U); END Q; BEGIN Q(t) END A.",
                "compile error 14 at 1:165",
            ),
        ],
    )
}

#[test]
fn a_base_of_another_module(rt: HostRuntime) -> Result<(), Fail> {
    assert_session(
        &rt,
        &[
            ok(
                "MODULE N; TYPE T* = RECORD a*: INTEGER; h: INTEGER END; U* = RECORD (T) b*: INTEGER END; PROCEDURE P*(VAR r: T); BEGIN IF r IS U THEN r(U).b := 5 END; r.h := 1 END P; END N.",
                "",
            ),
            ok(
                "MODULE M; IMPORT N, Out; TYPE W = RECORD (N.U) c: INTEGER END; VAR w: W; BEGIN N.P(w); Out.Int(w.b,0) END M.",
                "5",
            ),
        ],
    )
}

#[test]
fn a_hidden_field(rt: HostRuntime) -> Result<(), Fail> {
    assert_session(
        &rt,
        &[
            ok(
                "MODULE N; TYPE T* = RECORD a*: INTEGER; h: INTEGER END; END N.",
                "",
            ),
            refused(
                "MODULE M; IMPORT N; TYPE W = RECORD (N.T) c: INTEGER END; VAR w: W; BEGIN w.h := 1 END M.",
                "compile error 18 at 1:77",
            ),
        ],
    )
}

#[test]
fn a_hidden_field_again(rt: HostRuntime) -> Result<(), Fail> {
    assert_session(
        &rt,
        &[
            ok(
                "MODULE N; TYPE T* = RECORD a*: INTEGER; h: INTEGER END; END N.",
                "",
            ),
            refused(
                "MODULE M; IMPORT N; TYPE W = RECORD (N.T) h: INTEGER END; END M.",
                "compile error 11 at 1:43",
            ),
        ],
    )
}

#[test]
fn a_field_that_is_not_there(rt: HostRuntime) -> Result<(), Fail> {
    assert_session(
        &rt,
        &[
            ok("MODULE N; TYPE T* = RECORD a*: INTEGER END; END N.", ""),
            refused(
                "MODULE M; IMPORT N; TYPE W = RECORD (N.T) c: INTEGER END; VAR w: W; BEGIN w.z := 1 END M.",
                "compile error 10 at 1:77",
            ),
        ],
    )
}
