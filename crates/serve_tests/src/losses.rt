//! Connections that are lost.

use crate::client::NOTHING;
use crate::rows::{
    ASKED_C, BUSY_A, BUSY_C, BUSY_D, CELL, IDLE_A, IDLE_C, IDLE_D, INFO, INFO_A, INPUT_C, INPUT_D,
    ITS_ID, KERNEL, OK_D, SCREEN, SHOWS_2, SHOWS_4,
};
use crate::steps::{Step, play};
use std::test::Fail;

const LOST_SCREEN: &[Step] = &[
    KERNEL,
    ITS_ID,
    SCREEN,
    Step::Sends(0, "a", INFO, "{}"),
    Step::Sees(0, &[BUSY_A, INFO_A, IDLE_A]),
    SCREEN,
    Step::Sends(1, "a", INFO, "{}"),
    Step::Sees(1, &[BUSY_A, INFO_A, IDLE_A]),
    Step::Sees(0, &[BUSY_A, IDLE_A]),
    Step::Sends(0, "c", CELL, r#"{"code":"4?2"}"#),
    Step::Sees(0, &[BUSY_C, INPUT_C, SHOWS_4, ASKED_C]),
    Step::Leaves(0),
    Step::Sees(1, &[BUSY_C, INPUT_C, SHOWS_4, SHOWS_2, IDLE_C]),
    Step::Waits(
        "GET /api/kernels/@",
        "HTTP/1.1 200 OK\r\n*{\"connections\":1,\"execution_state\":\"idle\",",
    ),
    SCREEN,
    Step::Sends(2, "d", CELL, r#"{"code":"$"}"#),
    Step::Sees(2, &[BUSY_D, INPUT_D, SHOWS_2, OK_D, IDLE_D]),
    Step::Sees(1, &[BUSY_D, INPUT_D, SHOWS_2, IDLE_D]),
];

/// The version, as it is answered.
const VERSION: &str = "HTTP/1.1 200 OK\r\n*{\"version\":\"1.0.0\"}";

const CUT_HEADS: &[Step] = &[
    Step::Begins("GET /api HTTP/1.1\r\nHost: a\r\n\r\n"),
    Step::Ends(0, "", VERSION),
    Step::Begins(""),
    Step::Begins("G"),
    Step::Begins("GET /api HTT"),
    Step::Begins("GET /api HTTP/1.1\r\nHost: a\r\n\r"),
    Step::Begins("POST /api/kernels HTTP/1.1\r\nContent-Length: 2\r\n\r\n{"),
    Step::Begins("GET /api HTTP/1.1\r\nHo"),
    Step::Begins("POST /api/kernels HTTP/1.1\r\nContent-Length: 2\r\n\r\n{"),
    Step::Asks("GET /api", "", VERSION),
    Step::Ends(1, "", NOTHING),
    Step::Ends(2, "", NOTHING),
    Step::Ends(3, "", NOTHING),
    Step::Ends(4, "", NOTHING),
    Step::Ends(5, "", NOTHING),
    Step::Asks("GET /api/kernels", "", "HTTP/1.1 200 OK\r\n*\r\n\r\n[]"),
    Step::Ends(6, "st: a\r\n\r\n", VERSION),
    Step::Ends(7, "}", "HTTP/1.1 201 Created\r\n"),
];

/// A connection is lost while its cell asks for a line. So there is no line, the cell goes on, and another screen sees it. A new
/// screen works.
#[test]
fn a_screen_is_lost_while_its_cell_asks(rt: HostRuntime) -> Result<(), Fail> {
    play(rt, rt.alloc(), LOST_SCREEN)
}

/// Requests that come byte by byte. One that is cut is not answered, and others are in the meantime and after it.
#[test]
fn heads_that_are_cut(rt: HostRuntime) -> Result<(), Fail> {
    play(rt, rt.alloc(), CUT_HEADS)
}
