//! Interrupt, restart and shutdown by REST. No text of the small language loops, so the cell that is stopped asks for a line, which
//! nobody gives.

use crate::client::{GONE, NOTHING};
use crate::rows::{
    ASKED_C, ASKED_D, BUSY_C, BUSY_D, CELL, IDLE_C, IDLE_D, INPUT_C, INPUT_D, ITS_ID, KERNEL, OK_C,
    OK_D, SCREEN, SHOWS_4, SHOWS_ZERO,
};
use crate::steps::{Step, play};
use std::test::Fail;

/// Of an interrupt, which nobody but the server is answered.
const BUSY_INTERRUPT: &str =
    r#""content":{"execution_state":"busy"}*"parent_header":{*"msg_type":"interrupt_request""#;

const IDLE_INTERRUPT: &str =
    r#""content":{"execution_state":"idle"}*"parent_header":{*"msg_type":"interrupt_request""#;

/// Of a shutdown, with a restart or without.
const BUSY_SHUTDOWN: &str =
    r#""content":{"execution_state":"busy"}*"parent_header":{*"msg_type":"shutdown_request""#;

const IDLE_SHUTDOWN: &str =
    r#""content":{"execution_state":"idle"}*"parent_header":{*"msg_type":"shutdown_request""#;

/// How the cell `c` ends that is interrupted.
const INTERRUPTED_C: &str =
    r#""content":{"ename":"Interrupted","evalue":"","traceback":["Interrupted"]}*"msg_type":"error"*"parent_header":{*"msg_id":"c""#;

const INTERRUPTED_REPLY_C: &str =
    r#""channel":"shell","content":{"ename":"Interrupted","evalue":"","execution_count":1,"status":"error","traceback":["Interrupted"]}*"msg_type":"execute_reply"*"parent_header":{*"msg_id":"c""#;

/// How a cell ends whose kernel is restarted or shut down.
const RESTARTED_C: &str =
    r#""content":{"ename":"Restarted","evalue":"","traceback":["Restarted"]}*"msg_type":"error"*"parent_header":{*"msg_id":"c""#;

const RESTARTED_REPLY_C: &str =
    r#""channel":"shell","content":{"ename":"Restarted","evalue":"","execution_count":1,"status":"error","traceback":["Restarted"]}*"msg_type":"execute_reply"*"parent_header":{*"msg_id":"c""#;

const RESTARTED_D: &str =
    r#""content":{"ename":"Restarted","evalue":"","traceback":["Restarted"]}*"msg_type":"error"*"parent_header":{*"msg_id":"d""#;

const RESTARTED_REPLY_D: &str =
    r#""channel":"shell","content":{"ename":"Restarted","evalue":"","execution_count":2,"status":"error","traceback":["Restarted"]}*"msg_type":"execute_reply"*"parent_header":{*"msg_id":"d""#;

/// What came before the interrupt is kept, and the next cell runs.
const INTERRUPT: &[Step] = &[
    KERNEL,
    ITS_ID,
    SCREEN,
    Step::Sends(0, "c", CELL, r#"{"code":"4?2"}"#),
    Step::Sees(0, &[BUSY_C, INPUT_C, SHOWS_4, ASKED_C]),
    Step::Asks(
        "POST /api/kernels/@/interrupt",
        "",
        "HTTP/1.1 204 No Content\r\n",
    ),
    Step::Sees(
        0,
        &[
            BUSY_INTERRUPT,
            IDLE_INTERRUPT,
            INTERRUPTED_C,
            INTERRUPTED_REPLY_C,
            IDLE_C,
        ],
    ),
    Step::Sends(0, "d", CELL, r#"{"code":"$"}"#),
    Step::Sees(0, &[BUSY_D, INPUT_D, SHOWS_4, OK_D, IDLE_D]),
];

/// The first restart comes where no cell runs, the second where one asks.
const RESTART: &[Step] = &[
    KERNEL,
    ITS_ID,
    SCREEN,
    Step::Sends(0, "c", CELL, r#"{"code":"4"}"#),
    Step::Sees(0, &[BUSY_C, INPUT_C, SHOWS_4, OK_C, IDLE_C]),
    Step::Asks(
        "POST /api/kernels/@/restart",
        "",
        "HTTP/1.1 200 OK\r\n*\"name\":\"oberon\"}",
    ),
    Step::Sees(0, &[BUSY_SHUTDOWN, IDLE_SHUTDOWN]),
    Step::Sends(0, "c", CELL, r#"{"code":"$"}"#),
    Step::Sees(0, &[BUSY_C, INPUT_C, SHOWS_ZERO, OK_C, IDLE_C]),
    Step::Sends(0, "d", CELL, r#"{"code":"4?2"}"#),
    Step::Sees(0, &[BUSY_D, INPUT_D, SHOWS_4, ASKED_D]),
    Step::Asks(
        "POST /api/kernels/@/restart",
        "",
        "HTTP/1.1 200 OK\r\n*\"name\":\"oberon\"}",
    ),
    Step::Sees(
        0,
        &[
            RESTARTED_D,
            RESTARTED_REPLY_D,
            IDLE_D,
            BUSY_SHUTDOWN,
            IDLE_SHUTDOWN,
        ],
    ),
    Step::Sends(0, "c", CELL, r#"{"code":"$"}"#),
    Step::Sees(0, &[BUSY_C, INPUT_C, SHOWS_ZERO, OK_C, IDLE_C]),
];

/// The cell ends, the shutdown is shown, and then the connection is closed, which a Close frame tells.
const SHUTDOWN: &[Step] = &[
    KERNEL,
    ITS_ID,
    SCREEN,
    Step::Sends(0, "c", CELL, r#"{"code":"4?2"}"#),
    Step::Sees(0, &[BUSY_C, INPUT_C, SHOWS_4, ASKED_C]),
    Step::Asks("DELETE /api/kernels/@", "", "HTTP/1.1 204 No Content\r\n"),
    Step::Sees(
        0,
        &[
            RESTARTED_C,
            RESTARTED_REPLY_C,
            IDLE_C,
            BUSY_SHUTDOWN,
            IDLE_SHUTDOWN,
            GONE,
            NOTHING,
        ],
    ),
    Step::Asks("GET /api/kernels/@", "", "HTTP/1.1 404 Not Found\r\n"),
    Step::Asks("GET /api/kernels", "", "HTTP/1.1 200 OK\r\n*\r\n\r\n[]"),
    Step::Opens("HTTP/1.1 404 Not Found\r\n"),
];

/// A cell that runs is interrupted.
#[test]
fn interrupted_by_rest(rt: HostRuntime) -> Result<(), Fail> {
    play(rt, rt.alloc(), INTERRUPT)
}

/// After a restart the count and the session begin anew, and the channel stays.
#[test]
fn restarted_by_rest(rt: HostRuntime) -> Result<(), Fail> {
    play(rt, rt.alloc(), RESTART)
}

/// A kernel that is deleted closes its channels.
#[test]
fn shut_down_by_rest(rt: HostRuntime) -> Result<(), Fail> {
    play(rt, rt.alloc(), SHUTDOWN)
}
