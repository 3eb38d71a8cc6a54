//! In and Out, and lines that are asked for.

use crate::replays::{assert_leaves_work, assert_session, assert_shows, ok};
use crate::sent::Sent::{Cell, CellWith, Leave, Line, Run};
use crate::shown::Shown::{Asks, Busy, Idle, Input, Ok as Ended, Stream};
use std::test::Fail;

const SUMS: &str =
    "MODULE H; IMPORT In, Out; VAR a, b: INTEGER; BEGIN In.Int(a); In.Int(b); Out.Int(a + b, 0); Out.Ln END H.";

#[test]
fn numbers_of_one_line(rt: HostRuntime) -> Result<(), Fail> {
    let begun = [("m", 0, Busy), ("m", 0, Input(1, SUMS)), ("m", 0, Asks)];
    assert_leaves_work(&rt, &[Cell(0, "m", SUMS), Run(1000)], &begun)?;
    let [busy, input, asks] = begun;
    assert_shows(
        &rt,
        &[Cell(0, "m", SUMS), Run(1000), Line(0, "12 34")],
        &[
            busy,
            input,
            asks,
            ("m", 0, Stream("46\\n")),
            ("m", 0, Ended(1)),
            ("m", 0, Idle),
        ],
    )?;
    assert_shows(
        &rt,
        &[Cell(0, "m", SUMS), Run(1000), Leave(0)],
        &[
            busy,
            input,
            asks,
            ("m", 0, Stream("0\\n")),
            ("m", 0, Ended(1)),
            ("m", 0, Idle),
        ],
    )
}

/// A line that was asked for in slices of one turn: the call, the line, the second call, and the two that write.
#[test]
fn a_line_in_small_slices(rt: HostRuntime) -> Result<(), Fail> {
    let begun = [("m", 0, Busy), ("m", 0, Input(1, SUMS)), ("m", 0, Asks)];
    let [busy, input, asks] = begun;
    let ended = [("m", 0, Ended(1)), ("m", 0, Idle)];
    let [ok, idle] = ended;
    let (cell, line) = (Cell(0, "m", SUMS), Line(0, "12 34"));
    let ones = [
        cell,
        Run(1),
        Run(1),
        Run(1),
        line,
        Run(1),
        Run(1),
        Run(1),
        Run(1),
    ];
    let (sum, end) = (("m", 0, Stream("46")), ("m", 0, Stream("\\n")));
    assert_shows(&rt, &ones, &[busy, input, asks, sum, end, ok, idle])?;
    let threes = [cell, Run(3), line, Run(3)];
    let all = ("m", 0, Stream("46\\n"));
    assert_shows(&rt, &threes, &[busy, input, asks, all, ok, idle])
}

const KEEPS: &str =
    "MODULE J; IMPORT In, Out; VAR x: INTEGER; BEGIN x := 7; In.Int(x); IF ~In.Done THEN Out.Int(x, 0) END END J.";

#[test]
fn no_line_to_be_had(rt: HostRuntime) -> Result<(), Fail> {
    let wanted = [
        ("m", 0, Busy),
        ("m", 0, Input(1, KEEPS)),
        ("m", 0, Stream("7")),
        ("m", 0, Ended(1)),
        ("m", 0, Idle),
    ];
    let forbidden = [CellWith(0, "m", KEEPS, ",\"allow_stdin\":false")];
    assert_shows(&rt, &forbidden, &wanted)?;
    assert_shows(&rt, &[Cell(0, "m", KEEPS), Leave(0)], &wanted)
}

const READS: &str =
    "MODULE I; IMPORT In, Out; VAR n, s: ARRAY 8 OF CHAR; c: CHAR; BEGIN In.Name(n); In.String(s); In.Char(c); Out.String(n); Out.Char(\\\"/\\\"); Out.String(s); Out.Char(\\\"/\\\"); Out.Int(ORD(c), 0) END I.";

#[test]
fn a_name_a_string_and_a_character(rt: HostRuntime) -> Result<(), Fail> {
    assert_shows(
        &rt,
        &[Cell(0, "m", READS), Run(1000), Line(0, "ab \\\"c d\\\" x")],
        &[
            ("m", 0, Busy),
            ("m", 0, Input(1, READS)),
            ("m", 0, Asks),
            ("m", 0, Stream("ab/c d/32")),
            ("m", 0, Ended(1)),
            ("m", 0, Idle),
        ],
    )
}

const TOO_LARGE: &str =
    "MODULE I; IMPORT In, Out; VAR x: INTEGER; c: CHAR; BEGIN x := 5; c := \\\"a\\\"; In.Int(x); IF ~In.Done THEN Out.Int(x, 0) END; In.Char(c); Out.Char(c); In.Open; In.Char(c); Out.Char(c) END I.";

#[test]
fn a_number_out_of_range(rt: HostRuntime) -> Result<(), Fail> {
    assert_shows(
        &rt,
        &[
            Cell(0, "m", TOO_LARGE),
            Run(1000),
            Line(0, "99999999999"),
            Run(1000),
            Line(0, "z"),
        ],
        &[
            ("m", 0, Busy),
            ("m", 0, Input(1, TOO_LARGE)),
            ("m", 0, Asks),
            ("m", 0, Stream("5a")),
            ("m", 0, Asks),
            ("m", 0, Stream("z")),
            ("m", 0, Ended(1)),
            ("m", 0, Idle),
        ],
    )
}

#[test]
fn a_width_past_the_limit(rt: HostRuntime) -> Result<(), Fail> {
    let mut wide = String::from_utf8(Vec::from_elem(rt.alloc(), b' ', 1023)?).or(Err("text"))?;
    wide.push('5')?;
    assert_session(
        &rt,
        &[ok(
            "MODULE A; IMPORT Out; BEGIN Out.Int(5, 2000) END A.",
            wide.as_str(),
        )],
    )
}
