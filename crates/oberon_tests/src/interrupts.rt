//! Slices, several seats, errors, silent cells and interrupts.

use crate::replays::assert_shows;
use crate::sent::Sent::{Cell, CellWith, Interrupt, Line, Run};
use crate::shown::Shown::{
    Aborted, Asks, Busy, Err as Refused, Failed, Idle, Input, Interrupted, Ok as Ended, Stream,
};
use std::test::Fail;

const COUNTS: &str =
    "MODULE L; IMPORT Out; VAR i: INTEGER; BEGIN WHILE i < 3 DO Out.Int(i, 2); i := i + 1 END END L.";

#[test]
fn a_loop_whole_and_in_slices(rt: HostRuntime) -> Result<(), Fail> {
    let whole = [
        ("m", 0, Busy),
        ("m", 0, Input(1, COUNTS)),
        ("m", 0, Stream(" 0 1 2")),
        ("m", 0, Ended(1)),
        ("m", 0, Idle),
    ];
    assert_shows(&rt, &[Cell(0, "m", COUNTS)], &whole)?;
    assert_shows(&rt, &[Cell(0, "m", COUNTS), Run(6)], &whole)?;
    let [busy, input, _, ok, idle] = whole;
    let (first, rest) = (("m", 0, Stream(" 0")), ("m", 0, Stream(" 1 2")));
    let parts = [busy, input, first, rest, ok, idle];
    assert_shows(&rt, &[Cell(0, "m", COUNTS), Run(3)], &parts)?;
    let (second, third) = (("m", 0, Stream(" 1")), ("m", 0, Stream(" 2")));
    let parts = [busy, input, first, second, third, ok, idle];
    let slices = [
        Cell(0, "m", COUNTS),
        Run(2),
        Run(0),
        Run(1),
        Run(1),
        Run(1),
        Run(1),
    ];
    assert_shows(&rt, &slices, &parts)
}

const DIVIDES: &str =
    "MODULE D; IMPORT Out; VAR x: INTEGER; BEGIN Out.Int(5, 0); x := 1 DIV x END D.";

const BY_ZERO: &str = "trap 2 in D, line 1";

const ASTRAY: &str =
    "MODULE F; VAR a: ARRAY 3 OF INTEGER; i: INTEGER; BEGIN i := 3; a[i] := 1 END F.";

/// An error aborts what waits, from any seat, and nothing that comes later. One that stops nothing aborts nothing. A silent
/// cell shows its reply alone and is not counted.
#[test]
fn errors(rt: HostRuntime) -> Result<(), Fail> {
    assert_shows(
        &rt,
        &[
            Cell(1, "m1", DIVIDES),
            Cell(2, "m2", ""),
            Run(1000),
            Cell(2, "m3", ""),
        ],
        &[
            ("m1", 1, Busy),
            ("m1", 1, Input(1, DIVIDES)),
            ("m1", 1, Stream("5")),
            ("m1", 1, Failed(1, "Trap", BY_ZERO)),
            ("m1", 1, Idle),
            ("m2", 2, Busy),
            ("m2", 2, Aborted),
            ("m2", 2, Idle),
            ("m3", 2, Busy),
            ("m3", 2, Input(2, "")),
            ("m3", 2, Ended(2)),
            ("m3", 2, Idle),
        ],
    )?;
    assert_shows(
        &rt,
        &[
            CellWith(0, "m1", ASTRAY, ",\"stop_on_error\":false"),
            Cell(0, "m2", ""),
        ],
        &[
            ("m1", 0, Busy),
            ("m1", 0, Input(1, ASTRAY)),
            ("m1", 0, Failed(1, "Trap", "trap 1 in F, line 1")),
            ("m1", 0, Idle),
            ("m2", 0, Busy),
            ("m2", 0, Input(2, "")),
            ("m2", 0, Ended(2)),
            ("m2", 0, Idle),
        ],
    )?;
    assert_shows(
        &rt,
        &[
            CellWith(0, "m1", DIVIDES, ",\"silent\":true"),
            Run(1000),
            Cell(0, "m2", ""),
        ],
        &[
            ("m1", 0, Busy),
            ("m1", 0, Refused(0, "Trap", BY_ZERO)),
            ("m1", 0, Idle),
            ("m2", 0, Busy),
            ("m2", 0, Input(1, "")),
            ("m2", 0, Ended(1)),
            ("m2", 0, Idle),
        ],
    )
}

/// It counts without end, and shows how far it came.
const ENDLESS: &str =
    "MODULE G; IMPORT Out; VAR x: INTEGER; PROCEDURE Show*; BEGIN Out.Int(x, 0) END Show; BEGIN WHILE TRUE DO INC(x) END END G.";

#[test]
fn an_interrupt(rt: HostRuntime) -> Result<(), Fail> {
    assert_shows(
        &rt,
        &[
            Cell(0, "m1", ENDLESS),
            Run(1000),
            Interrupt("i1"),
            Cell(0, "m2", "G.Show"),
        ],
        &[
            ("m1", 0, Busy),
            ("m1", 0, Input(1, ENDLESS)),
            ("i1", 0, Busy),
            ("i1", 0, Interrupted),
            ("i1", 0, Idle),
            ("m1", 0, Failed(1, "Interrupted", "")),
            ("m1", 0, Idle),
            ("m2", 0, Busy),
            ("m2", 0, Input(2, "G.Show")),
            ("m2", 0, Stream("1000")),
            ("m2", 0, Ended(2)),
            ("m2", 0, Idle),
        ],
    )
}

const ASKS: &str =
    "MODULE H; IMPORT In, Out; VAR a, b: INTEGER; BEGIN In.Int(a); In.Int(b); Out.Int(a + b, 0); Out.Ln END H.";

#[test]
fn an_interrupt_of_a_cell_that_asks(rt: HostRuntime) -> Result<(), Fail> {
    assert_shows(
        &rt,
        &[
            Cell(0, "m1", ASKS),
            Run(1000),
            Interrupt("i1"),
            Line(0, "1 2"),
            Interrupt("i2"),
        ],
        &[
            ("m1", 0, Busy),
            ("m1", 0, Input(1, ASKS)),
            ("m1", 0, Asks),
            ("i1", 0, Busy),
            ("i1", 0, Interrupted),
            ("i1", 0, Idle),
            ("m1", 0, Failed(1, "Interrupted", "")),
            ("m1", 0, Idle),
            ("i2", 0, Busy),
            ("i2", 0, Interrupted),
            ("i2", 0, Idle),
        ],
    )
}
