//! Kernels and screens.

use crate::rows::{
    BUSY_A, BUSY_C, BUSY_D, CELL, IDLE_A, IDLE_C, IDLE_D, INFO, INFO_A, INPUT_C, INPUT_D, ITS_ID,
    KERNEL, OK_C, OK_D, SCREEN, SHOWS_4, SHOWS_42,
};
use crate::steps::{Step, play};
use std::test::Fail;

const TWO_SCREENS: &[Step] = &[
    KERNEL,
    ITS_ID,
    SCREEN,
    Step::Sends(0, "a", INFO, "{}"),
    Step::Sees(0, &[BUSY_A, INFO_A, IDLE_A]),
    SCREEN,
    Step::Sends(1, "a", INFO, "{}"),
    Step::Sees(1, &[BUSY_A, INFO_A, IDLE_A]),
    Step::Sees(0, &[BUSY_A, IDLE_A]),
    Step::Sends(0, "c", CELL, r#"{"code":"42\n"}"#),
    Step::Sees(0, &[BUSY_C, INPUT_C, SHOWS_42, OK_C, IDLE_C]),
    Step::Sees(1, &[BUSY_C, INPUT_C, SHOWS_42, IDLE_C]),
];

/// How the cell `c` ends, whose text is `!`, and how a cell `d` ends that came with it.
const TRAP_C: &str =
    r#""ename":"Trap","evalue":"trap 2 in , line 1"*"msg_type":"error"*"parent_header":{*"msg_id":"c""#;

const TRAP_REPLY_C: &str =
    r#""execution_count":1,"status":"error"*"msg_type":"execute_reply"*"parent_header":{*"msg_id":"c""#;

const ABORTED: &str =
    r#""channel":"shell","content":{"status":"aborted"}*"msg_type":"execute_reply"*"parent_header":{*"msg_id":"d""#;

const BURST: &[Step] = &[
    KERNEL,
    ITS_ID,
    SCREEN,
    Step::Sends(0, "a", INFO, "{}"),
    Step::Sees(0, &[BUSY_A, INFO_A, IDLE_A]),
    Step::Bursts(
        0,
        &[
            ("c", r#"{"code":"!"}"#),
            ("d", r#"{"code":"4"}"#),
            ("d", r#"{"code":"4"}"#),
        ],
    ),
    Step::Sees(0, &[BUSY_C, INPUT_C, TRAP_C, TRAP_REPLY_C, IDLE_C]),
    Step::Sees(0, &[BUSY_D, ABORTED, IDLE_D, BUSY_D, ABORTED, IDLE_D]),
    Step::Sends(0, "d", CELL, r#"{"code":"4"}"#),
    Step::Sees(0, &[BUSY_D, INPUT_D, SHOWS_4, OK_D, IDLE_D]),
];

const HASTY_SCREEN: &[Step] = &[
    KERNEL,
    ITS_ID,
    SCREEN,
    Step::Sends(0, "a", INFO, "{}"),
    Step::Sees(0, &[BUSY_A, INFO_A, IDLE_A]),
    SCREEN,
    Step::Sends(1, "c", CELL, r#"{"code":"4"}"#),
    Step::Leaves(1),
    Step::Sees(0, &[BUSY_C, INPUT_C, SHOWS_4, IDLE_C]),
];

const EIGHT_SCREENS: &[Step] = &[
    KERNEL,
    ITS_ID,
    SCREEN,
    SCREEN,
    SCREEN,
    SCREEN,
    SCREEN,
    SCREEN,
    SCREEN,
    Step::Asks(
        "GET /api/kernels/@",
        "",
        "HTTP/1.1 200 OK\r\n*{\"connections\":7,",
    ),
    Step::Opens("HTTP/1.1 503 Service Unavailable\r\n"),
    Step::Leaves(6),
    Step::Waits(
        "GET /api/kernels/@",
        "HTTP/1.1 200 OK\r\n*{\"connections\":6,",
    ),
    SCREEN,
];

const SEVENTEEN_KERNELS: &[Step] = &[
    KERNEL,
    KERNEL,
    KERNEL,
    KERNEL,
    KERNEL,
    KERNEL,
    KERNEL,
    KERNEL,
    KERNEL,
    KERNEL,
    KERNEL,
    KERNEL,
    KERNEL,
    KERNEL,
    KERNEL,
    KERNEL,
    Step::Asks(
        "POST /api/kernels",
        "",
        "HTTP/1.1 503 Service Unavailable\r\n",
    ),
];

/// A cell of one screen is shown on another, but for its reply.
#[test]
fn two_screens(rt: HostRuntime) -> Result<(), Fail> {
    play(rt, rt.alloc(), TWO_SCREENS)
}

/// Cells that came in one piece with a cell that fails are aborted, and a later one runs.
#[test]
fn burst(rt: HostRuntime) -> Result<(), Fail> {
    play(rt, rt.alloc(), BURST)
}

/// A screen sends a cell and is gone at once: the cell runs, and another screen sees it.
#[test]
fn hasty_screen(rt: HostRuntime) -> Result<(), Fail> {
    play(rt, rt.alloc(), HASTY_SCREEN)
}

/// Seven screens have a seat, and the eighth finds none until one of the others is gone.
#[test]
fn eighth_screen(rt: HostRuntime) -> Result<(), Fail> {
    play(rt, rt.alloc(), EIGHT_SCREENS)
}

/// Sixteen kernels are made, and the seventeenth is refused.
#[test]
fn seventeenth_kernel(rt: HostRuntime) -> Result<(), Fail> {
    play(rt, rt.alloc(), SEVENTEEN_KERNELS)
}
