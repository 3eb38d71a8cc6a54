//! Modules, their clients, and their replacement.

use crate::replays::{assert_session, error, ok, trap};
use std::test::Fail;

const BASE: &str =
    "MODULE N; TYPE T* = RECORD a: INTEGER END; VAR t*: T; v*: INTEGER; PROCEDURE Inc*; BEGIN INC(v) END Inc; END N.";

const BASE_BY_TEN: &str =
    "MODULE N; TYPE T* = RECORD a: INTEGER END; VAR t*: T; v*: INTEGER; PROCEDURE Inc*; BEGIN INC(v, 10) END Inc; END N.";

const BASE_OF_OTHER_FORM: &str =
    "MODULE N; TYPE T* = RECORD a, b: INTEGER END; VAR t*: T; v*: INTEGER; PROCEDURE Inc*; BEGIN INC(v) END Inc; END N.";

const CLIENT: &str =
    "MODULE M; IMPORT N, Out; PROCEDURE P*; BEGIN N.Inc; Out.Int(N.v, 0); Out.Ln END P; END M.";

#[test]
fn a_module_replaced(rt: HostRuntime) -> Result<(), Fail> {
    assert_session(
        &rt,
        &[
            ok(BASE, ""),
            ok(CLIENT, ""),
            ok("M.P M.P", "1\\n2\\n"),
            ok(BASE_BY_TEN, ""),
            ok("M.P", "10\\n"),
            ok(BASE_OF_OTHER_FORM, ""),
            error("M.P", "", "LinkError", "link error 32: N"),
            ok(BASE, ""),
            ok("M.P", "1\\n"),
        ],
    )
}

#[test]
fn a_client_of_a_client(rt: HostRuntime) -> Result<(), Fail> {
    assert_session(
        &rt,
        &[
            ok(BASE, ""),
            ok(CLIENT, ""),
            ok(BASE_OF_OTHER_FORM, ""),
            error(
                "MODULE L; IMPORT M; END L.",
                "",
                "LinkError",
                "link error 32: N",
            ),
            error("L.P", "", "LinkError", "link error 30: L"),
        ],
    )
}

#[test]
fn commands_and_cycles_refused(rt: HostRuntime) -> Result<(), Fail> {
    assert_session(
        &rt,
        &[
            ok(BASE, ""),
            ok(CLIENT, ""),
            error(
                "MODULE N; IMPORT M; END N.",
                "",
                "CompileError",
                "compile error 17 at 1:18",
            ),
            error("M.P N.Nope", "", "LinkError", "link error 31: N.Nope"),
            error("Out.Ln", "", "LinkError", "link error 31: Out.Ln"),
            ok("M.P", "1\\n"),
        ],
    )
}

#[test]
fn what_is_hidden_or_read_only(rt: HostRuntime) -> Result<(), Fail> {
    assert_session(
        &rt,
        &[
            ok(BASE, ""),
            error(
                "MODULE M; IMPORT N; VAR i: INTEGER; BEGIN i := N.t.a END M.",
                "",
                "CompileError",
                "compile error 18 at 1:52",
            ),
            error(
                "MODULE M; IMPORT N; BEGIN N.v := 1 END M.",
                "",
                "CompileError",
                "compile error 13 at 1:27",
            ),
            error(
                "MODULE M; IMPORT X; END M.",
                "",
                "CompileError",
                "compile error 16 at 1:18",
            ),
        ],
    )
}

#[test]
fn a_trap_in_an_imported_module(rt: HostRuntime) -> Result<(), Fail> {
    assert_session(
        &rt,
        &[
            ok(
                "MODULE N; VAR v*: INTEGER; PROCEDURE Bad*;\\nBEGIN INC(v);\\nASSERT(v < 2) END Bad; END N.",
                "",
            ),
            ok(
                "MODULE M; IMPORT N, Out; PROCEDURE P*; BEGIN N.Bad END P; PROCEDURE Show*; BEGIN Out.Int(N.v, 0) END Show; END M.",
                "",
            ),
            trap("M.P M.Show M.P M.Show", "1", "trap 4 in N, line 3"),
            ok("M.Show", "2"),
        ],
    )
}

#[test]
fn a_module_stays_whose_body_trapped(rt: HostRuntime) -> Result<(), Fail> {
    assert_session(
        &rt,
        &[
            trap(
                "MODULE A; IMPORT Out; VAR x: INTEGER; PROCEDURE Show*; BEGIN Out.Int(x, 0) END Show; BEGIN x := 7; ASSERT(x = 8) END A.",
                "",
                "trap 4 in A, line 1",
            ),
            ok("A.Show", "7"),
            error(
                "MODULE A; BEGIN x := 1 END A.",
                "",
                "CompileError",
                "compile error 10 at 1:17",
            ),
            ok("A.Show", "7"),
        ],
    )
}
