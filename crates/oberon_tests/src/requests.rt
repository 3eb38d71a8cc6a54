//! Requests that run nothing, and shutdowns.

use crate::replays::assert_shows;
use crate::sent::Sent::{Cell, Query, Run, Shutdown};
use crate::shown::Shown::{Aborted, Busy, Failed, Idle, Input, Ok as Ended, Reply, Shut};
use std::test::Fail;

const HISTORY: &str = "{\"history\":[],\"status\":\"ok\"}";

/// A request's type without its ending, its content, and that of its reply.
const QUERIES: [(&str, &str, &str); 11] = [
    (
        "is_complete",
        "{\"code\":\"MODULE A; BEGIN\"}",
        "{\"indent\":\"\",\"status\":\"incomplete\"}",
    ),
    (
        "is_complete",
        "{\"code\":\"MODULE A; (* END A.\"}",
        "{\"indent\":\"\",\"status\":\"incomplete\"}",
    ),
    (
        "is_complete",
        "{\"code\":\"MODULE A; END A.\"}",
        "{\"status\":\"complete\"}",
    ),
    (
        "is_complete",
        "{\"code\":\"\"}",
        "{\"status\":\"complete\"}",
    ),
    (
        "is_complete",
        "{\"code\":\"MODULE 1\"}",
        "{\"status\":\"invalid\"}",
    ),
    (
        "is_complete",
        "{\"code\":\"MODULE A; END B.\"}",
        "{\"status\":\"invalid\"}",
    ),
    (
        "kernel_info",
        "{}",
        "{\"banner\":\"Oberon-07\",\"implementation\":\"jupyter_oberon\",\"implementation_version\":\"1.0.0\",\"language_info\":{\"file_extension\":\".Mod\",\"mimetype\":\"text/x-oberon\",\"name\":\"oberon\",\"version\":\"07\"},\"protocol_version\":\"5.4\",\"status\":\"ok\"}",
    ),
    (
        "complete",
        "{\"code\":\"Out.\",\"cursor_pos\":4}",
        "{\"cursor_end\":4,\"cursor_start\":4,\"matches\":[],\"metadata\":{},\"status\":\"ok\"}",
    ),
    (
        "inspect",
        "{\"code\":\"Out\",\"cursor_pos\":1,\"detail_level\":0}",
        "{\"data\":{},\"found\":false,\"metadata\":{},\"status\":\"ok\"}",
    ),
    ("history", "{}", HISTORY),
    ("comm_info", "{}", "{\"comms\":{},\"status\":\"ok\"}"),
];

/// Seat 7 asks.
#[test]
fn requests_that_run_nothing(rt: HostRuntime) -> Result<(), Fail> {
    for (kind, content, reply) in QUERIES {
        assert_shows(
            &rt,
            &[Query(7, "q", kind, content)],
            &[("q", 7, Busy), ("q", 7, Reply(kind, reply)), ("q", 7, Idle)],
        )?;
    }
    Ok(())
}

/// An error aborts the cells that wait. Another request is answered all the same, in the order in which it was taken.
#[test]
fn a_request_between_cells(rt: HostRuntime) -> Result<(), Fail> {
    let wrong = "MODULE A; BEGIN x := 1 END A.";
    assert_shows(
        &rt,
        &[
            Cell(0, "m1", wrong),
            Query(3, "q", "history", "{}"),
            Cell(0, "m2", ""),
            Run(1),
        ],
        &[
            ("m1", 0, Busy),
            ("m1", 0, Input(1, wrong)),
            (
                "m1",
                0,
                Failed(1, "CompileError", "compile error 10 at 1:17"),
            ),
            ("m1", 0, Idle),
            ("q", 3, Busy),
            ("q", 3, Reply("history", HISTORY)),
            ("q", 3, Idle),
            ("m2", 0, Busy),
            ("m2", 0, Aborted),
            ("m2", 0, Idle),
        ],
    )
}

/// It counts without end, and shows how far it came.
const ENDLESS: &str =
    "MODULE G; IMPORT Out; VAR x: INTEGER; PROCEDURE Show*; BEGIN Out.Int(x, 0) END Show; BEGIN WHILE TRUE DO INC(x) END END G.";

/// A kernel that begins anew, and one that ends and takes nothing more.
#[test]
fn shutdowns(rt: HostRuntime) -> Result<(), Fail> {
    assert_shows(
        &rt,
        &[
            Cell(0, "m1", ENDLESS),
            Cell(0, "m2", ""),
            Run(10),
            Shutdown("s1", true),
            Cell(0, "m3", ""),
            Run(10),
            Cell(0, "m4", "G.Show"),
        ],
        &[
            ("m1", 0, Busy),
            ("m1", 0, Input(1, ENDLESS)),
            ("m1", 0, Failed(1, "Restarted", "")),
            ("m1", 0, Idle),
            ("m2", 0, Busy),
            ("m2", 0, Aborted),
            ("m2", 0, Idle),
            ("s1", 0, Busy),
            ("s1", 0, Shut(true)),
            ("s1", 0, Idle),
            ("m3", 0, Busy),
            ("m3", 0, Input(1, "")),
            ("m3", 0, Ended(1)),
            ("m3", 0, Idle),
            ("m4", 0, Busy),
            ("m4", 0, Input(2, "G.Show")),
            ("m4", 0, Failed(2, "LinkError", "link error 30: G")),
            ("m4", 0, Idle),
        ],
    )?;
    assert_shows(
        &rt,
        &[Shutdown("s1", false), Cell(0, "m1", "")],
        &[("s1", 0, Busy), ("s1", 0, Shut(false)), ("s1", 0, Idle)],
    )
}
