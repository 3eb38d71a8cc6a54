//! Files: an empty root, and a notebook that is saved while its cells run.

use crate::client::GONE;
use crate::rows::{
    BUSY_C, BUSY_D, CELL, IDLE_C, IDLE_D, INPUT_C, INPUT_D, OK_C, OK_D, SCREEN, SHOWS_42,
};
use crate::steps::{Step, play, play_to_end};
use std::test::Fail;

const BOOK: &str =
    r#"{"content":{"cells":[{"cell_type":"code","execution_count":null,"id":"c1","metadata":{},"outputs":[],"source":"42\n"}],"metadata":{},"nbformat":4,"nbformat_minor":5},"type":"notebook"}"#;

/// The same cell with another source, the count of a run and no outputs, after a text.
const EDITED: &str =
    r#"{"content":{"cells":[{"cell_type":"markdown","id":"m1","metadata":{},"source":"a text"},{"cell_type":"code","execution_count":7,"id":"c1","metadata":{},"outputs":[],"source":"4"}],"metadata":{},"nbformat":4,"nbformat_minor":5},"type":"notebook"}"#;

const FIRST_RUN: &str =
    r#""execution_count":1,"id":"c1","metadata":{},"outputs":[{"name":"stdout","output_type":"stream","text":["42\n"]}],"source":["42\n"]"#;

const SECOND_RUN: &str =
    r#""execution_count":2,"id":"c1","metadata":{},"outputs":[{"name":"stdout","output_type":"stream","text":["42\n"]}],"source":["42\n"]"#;

const EDITED_RUN: &str =
    r#""execution_count":2,"id":"c1","metadata":{},"outputs":[{"name":"stdout","output_type":"stream","text":["42\n"]}],"source":["4"]"#;

const SAVES: &[Step] = &[
    Step::Asks(
        "PUT /api/contents/a.ipynb",
        BOOK,
        "HTTP/1.1 201 Created\r\n",
    ),
    Step::Asks(
        "POST /api/sessions",
        r#"{"path":"a.ipynb","type":"notebook"}"#,
        "HTTP/1.1 201 Created\r\n",
    ),
    Step::Notes("\"kernel\":{"),
    SCREEN,
    Step::Sends(0, "c", CELL, r#"{"code":"42\n"}"#),
    Step::Sees(0, &[BUSY_C, INPUT_C, SHOWS_42, OK_C, IDLE_C]),
    Step::Asks("GET /api/contents/a.ipynb", "", FIRST_RUN),
    Step::Asks("GET /api/sessions", "", "HTTP/1.1 200 OK\r\n"),
    Step::Notes("\r\n\r\n[{"),
    Step::Asks(
        "PATCH /api/sessions/@",
        r#"{"path":"b.ipynb"}"#,
        "HTTP/1.1 200 OK\r\n",
    ),
    Step::Sends(0, "d", CELL, r#"{"code":"42\n"}"#),
    Step::Sees(0, &[BUSY_D, INPUT_D, SHOWS_42, OK_D, IDLE_D]),
    Step::Asks("GET /api/contents/b.ipynb", "", SECOND_RUN),
    Step::Asks("GET /api/contents/a.ipynb", "", FIRST_RUN),
    Step::Asks("PUT /api/contents/b.ipynb", EDITED, "HTTP/1.1 200 OK\r\n"),
    Step::Asks("GET /api/contents/b.ipynb", "", EDITED_RUN),
];

/// A notebook of a session, whose kernel is noted.
const PUT_BOOK: Step = Step::Asks(
    "PUT /api/contents/a.ipynb",
    BOOK,
    "HTTP/1.1 201 Created\r\n",
);

const SESSION: Step = Step::Asks(
    "POST /api/sessions",
    r#"{"path":"a.ipynb","type":"notebook"}"#,
    "HTTP/1.1 201 Created\r\n",
);

const RUN: Step = Step::Sends(0, "c", CELL, r#"{"code":"42\n"}"#);

const SHOWN: Step = Step::Sees(0, &[BUSY_C, INPUT_C, SHOWS_42, OK_C, IDLE_C]);

const SAVED: Step = Step::Asks("GET /api/contents/a.ipynb", "", FIRST_RUN);

const ENDS_AT_ONCE: &[Step] = &[
    PUT_BOOK,
    SESSION,
    Step::Notes("\"kernel\":{"),
    SCREEN,
    RUN,
    SHOWN,
    Step::Asks("DELETE /api/kernels/@", "", "HTTP/1.1 204 No Content\r\n"),
    SAVED,
    Step::Asks("GET /api/kernels", "", "HTTP/1.1 200 OK\r\n*\r\n\r\n[]"),
    SESSION,
];

/// Of the shutdown `e`.
const BUSY_E: &str = r#""content":{"execution_state":"busy"}*"parent_header":{*"msg_id":"e""#;

const REPLY_E: &str = r#""msg_type":"shutdown_reply"*"parent_header":{*"msg_id":"e""#;

const IDLE_E: &str = r#""content":{"execution_state":"idle"}*"parent_header":{*"msg_id":"e""#;

const SHUT_DOWN: &[Step] = &[
    PUT_BOOK,
    SESSION,
    Step::Notes("\"kernel\":{"),
    SCREEN,
    RUN,
    SHOWN,
    Step::Sends(0, "e", "shutdown_request", r#"{"restart":false}"#),
    Step::Sees(0, &[BUSY_E, REPLY_E, IDLE_E]),
    SAVED,
    Step::Asks("GET /api/sessions", "", "HTTP/1.1 200 OK\r\n*\r\n\r\n[]"),
];

const DELETED: &[Step] = &[
    PUT_BOOK,
    SESSION,
    Step::Notes("\"kernel\":{"),
    SCREEN,
    Step::Asks(
        "DELETE /api/contents/a.ipynb",
        "",
        "HTTP/1.1 204 No Content\r\n",
    ),
    RUN,
    SHOWN,
    Step::Asks("DELETE /api/kernels/@", "", "HTTP/1.1 204 No Content\r\n"),
    Step::Asks(
        "GET /api/contents/a.ipynb",
        "",
        "HTTP/1.1 404 Not Found\r\n",
    ),
];

/// A request to stop, directly after the idle of a cell.
const STOPS: &[Step] = &[
    PUT_BOOK,
    SESSION,
    Step::Notes("\"kernel\":{"),
    SCREEN,
    RUN,
    SHOWN,
    Step::Asks("POST /api/shutdown", "", "HTTP/1.1 200 OK\r\n*\r\n\r\n{}"),
    Step::Sees(0, &[BUSY_STOP, IDLE_STOP, GONE]),
];

/// Of the shutdown that the server asks a kernel for.
const BUSY_STOP: &str =
    r#""content":{"execution_state":"busy"}*"parent_header":{*"msg_type":"shutdown_request""#;

const IDLE_STOP: &str =
    r#""content":{"execution_state":"idle"}*"parent_header":{*"msg_type":"shutdown_request""#;

/// The cell's run in the notebook's file.
const LEFT: &str =
    r#""execution_count": 1,*"id": "c1",*"name": "stdout",*"output_type": "stream",*"42\n""#;

const EMPTY_ROOT: &[Step] = &[Step::Asks(
    "GET /api/contents",
    "",
    "HTTP/1.1 200 OK\r\nContent-Type: application/json\r\n*{\"content\":[],\"created\":\"*Z\",\"format\":\"json\",\"last_modified\":\"*Z\",\"mimetype\":null,\"name\":\"\",\"path\":\"\",\"type\":\"directory\",\"writable\":true}",
)];

/// A cell's outputs are in the file once it has run. The file goes where the session goes, and a notebook that is put
/// keeps what was recorded.
#[test]
fn a_notebook_is_saved(rt: HostRuntime) -> Result<(), Fail> {
    play(rt, rt.alloc(), SAVES)
}

/// What a cell showed is in the file once its session is deleted, or shut down by a screen.
#[test]
fn a_session_ends_at_once(rt: HostRuntime) -> Result<(), Fail> {
    play(rt, rt.alloc(), ENDS_AT_ONCE)
}

#[test]
fn a_session_is_shut_down(rt: HostRuntime) -> Result<(), Fail> {
    play(rt, rt.alloc(), SHUT_DOWN)
}

/// A notebook that is deleted while its session goes on does not come back.
#[test]
fn a_deleted_notebook_stays_away(rt: HostRuntime) -> Result<(), Fail> {
    play(rt, rt.alloc(), DELETED)
}

/// A server that is told to stop saves what a cell showed, closes the channels and comes to its end.
#[test]
fn a_server_is_stopped(rt: HostRuntime) -> Result<(), Fail> {
    play_to_end(rt, rt.alloc(), STOPS, "a.ipynb", LEFT)
}

/// A root with no files has an empty list.
#[test]
fn an_empty_root(rt: HostRuntime) -> Result<(), Fail> {
    play(rt, rt.alloc(), EMPTY_ROOT)
}
