//! The server's version, kernelspecs and kernels.

use crate::plays::assert_play;
use std::test::Fail;

const PATHS_AND_METHODS: &str = r#"> GET /api
200 OK {"version":"1.0.0"}
> GET /api/kernelspecs
200 OK {"default":"oberon","kernelspecs":{"oberon":{"name":"oberon","resources":{},"spec":{"argv":[],"display_name":"Oberon-07","env":{},"interrupt_mode":"message","language":"oberon","metadata":{}}}}}
> GET /api/?x=1
404 Not Found
> GET /api?x=1
200 OK {"version":"1.0.0"}
> GET /
the page
> GET /?x=1
the page
> GET //
404 Not Found
> GET http://127.0.0.1/api
404 Not Found
> GET /favicon.ico
404 Not Found
> GET /%61pi
404 Not Found
> GET /api/kernelspecs/oberon
404 Not Found
> GET /api/kernels/
404 Not Found
> GET /api/kernels/x/y
404 Not Found
> GET /api/sessions/x/y
404 Not Found
> GET /api/shutdown/
404 Not Found
> GET /api/x
404 Not Found
-- The method comes before the kernel, the session and the body.
> POST /
405 Method Not Allowed
> HEAD /
405 Method Not Allowed
> POST /api
405 Method Not Allowed
> GET /api/shutdown
405 Method Not Allowed
> PUT /api/shutdown {
405 Method Not Allowed
> DELETE /api/shutdown
405 Method Not Allowed
> DELETE /api/kernelspecs
405 Method Not Allowed
> PUT /api/kernels {
405 Method Not Allowed
> PATCH /api/kernels/x {
405 Method Not Allowed
> HEAD /api/kernels/x
405 Method Not Allowed
> GET /api/kernels/x/interrupt
405 Method Not Allowed
> DELETE /api/kernels/x/restart
405 Method Not Allowed
> POST /api/kernels/x/channels
405 Method Not Allowed
> PUT /api/sessions {
405 Method Not Allowed
> POST /api/sessions/x {
405 Method Not Allowed
> HEAD /api/contents/x//y
405 Method Not Allowed
"#;

/// An unknown path is 404, a known one with another method 405.
#[test]
fn paths_and_methods(rt: HostRuntime) -> Result<(), Fail> {
    assert_play(&rt, PATHS_AND_METHODS)
}

const KERNELS_ARE_MADE_TOLD_AND_ENDED: &str = r#"> GET /api/kernels
200 OK []
> POST /api/kernels
201 Created at /api/kernels/00000000-0000-4001-a222-222222222222 {"connections":0,"execution_state":"idle","id":"00000000-0000-4001-a222-222222222222","last_activity":"2001-09-09T01:46:40.123456Z","name":"oberon"}
* begin 00000000-0000-4001-a222-222222222222
! a day goes by
> POST /api/kernels {"name":"oberon","other":[1]}
201 Created at /api/kernels/00000000-0000-4002-a222-222222222222 {"connections":0,"execution_state":"idle","id":"00000000-0000-4002-a222-222222222222","last_activity":"2001-09-10T01:46:40.123456Z","name":"oberon"}
* begin 00000000-0000-4002-a222-222222222222
> GET /api/kernels
200 OK [{"connections":0,"execution_state":"idle","id":"00000000-0000-4001-a222-222222222222","last_activity":"2001-09-09T01:46:40.123456Z","name":"oberon"},{"connections":0,"execution_state":"idle","id":"00000000-0000-4002-a222-222222222222","last_activity":"2001-09-10T01:46:40.123456Z","name":"oberon"}]
> GET /api/kernels/00000000-0000-4002-a222-222222222222
200 OK {"connections":0,"execution_state":"idle","id":"00000000-0000-4002-a222-222222222222","last_activity":"2001-09-10T01:46:40.123456Z","name":"oberon"}
> POST /api/kernels/00000000-0000-4001-a222-222222222222/interrupt
204 No Content
* interrupt 00000000-0000-4001-a222-222222222222
> POST /api/kernels/00000000-0000-4001-a222-222222222222/restart
200 OK {"connections":0,"execution_state":"idle","id":"00000000-0000-4001-a222-222222222222","last_activity":"2001-09-09T01:46:40.123456Z","name":"oberon"}
* restart 00000000-0000-4001-a222-222222222222
> GET /api/kernels/00000000-0000-4001-a222-222222222222/channels
channels of 00000000-0000-4001-a222-222222222222
> DELETE /api/kernels/00000000-0000-4001-a222-222222222222
204 No Content
* shutdown 00000000-0000-4001-a222-222222222222
> GET /api/kernels
200 OK [{"connections":0,"execution_state":"idle","id":"00000000-0000-4002-a222-222222222222","last_activity":"2001-09-10T01:46:40.123456Z","name":"oberon"}]
-- The kernel is gone.
> GET /api/kernels/00000000-0000-4001-a222-222222222222
404 Not Found
> DELETE /api/kernels/00000000-0000-4001-a222-222222222222
404 Not Found
> POST /api/kernels/00000000-0000-4001-a222-222222222222/interrupt
404 Not Found
> POST /api/kernels/00000000-0000-4001-a222-222222222222/restart
404 Not Found
> GET /api/kernels/00000000-0000-4001-a222-222222222222/channels
404 Not Found
"#;

/// Each route of kernels.
#[test]
fn kernels_are_made_told_and_ended(rt: HostRuntime) -> Result<(), Fail> {
    assert_play(&rt, KERNELS_ARE_MADE_TOLD_AND_ENDED)
}

const THE_SERVER_IS_TO_STOP: &str = r#"> POST /api/kernels
201 Created at /api/kernels/00000000-0000-4001-a222-222222222222 {"connections":0,"execution_state":"idle","id":"00000000-0000-4001-a222-222222222222","last_activity":"2001-09-09T01:46:40.123456Z","name":"oberon"}
* begin 00000000-0000-4001-a222-222222222222
-- The body is not read.
> POST /api/shutdown {
the server stops
-- The kernels end once that is answered, and not by it.
> GET /api/kernels
200 OK [{"connections":0,"execution_state":"idle","id":"00000000-0000-4001-a222-222222222222","last_activity":"2001-09-09T01:46:40.123456Z","name":"oberon"}]
"#;

#[test]
fn the_server_is_to_stop(rt: HostRuntime) -> Result<(), Fail> {
    assert_play(&rt, THE_SERVER_IS_TO_STOP)
}

const BODIES_OF_NEW_KERNELS: &str = r#"> POST /api/kernels {"name":"python"}
400 Bad Request
> POST /api/kernels {"name":1}
400 Bad Request
> POST /api/kernels {"name":""}
400 Bad Request
> POST /api/kernels {
400 Bad Request
> POST /api/kernels {"n":1.5}
400 Bad Request
> POST /api/kernels {"name":"oberon"} x
400 Bad Request
-- A null field counts as missing.
> POST /api/kernels {"name":null}
201 Created at /api/kernels/00000000-0000-4007-a222-222222222222 {"connections":0,"execution_state":"idle","id":"00000000-0000-4007-a222-222222222222","last_activity":"2001-09-09T01:46:40.123456Z","name":"oberon"}
* begin 00000000-0000-4007-a222-222222222222
-- A body is judged by the routes that read one.
> POST /api/kernels/00000000-0000-4007-a222-222222222222/interrupt {
204 No Content
* interrupt 00000000-0000-4007-a222-222222222222
"#;

/// A body is empty or an object of JSON whose numbers are whole, and its name is oberon where there is one.
#[test]
fn bodies_of_new_kernels(rt: HostRuntime) -> Result<(), Fail> {
    assert_play(&rt, BODIES_OF_NEW_KERNELS)
}

const BODIES_THAT_ARE_NO_OBJECTS: &str = r#"> POST /api/kernels []
400 Bad Request
> POST /api/kernels [{"name":"oberon"}]
400 Bad Request
> POST /api/kernels "oberon"
400 Bad Request
> POST /api/kernels null
400 Bad Request
> POST /api/kernels 1
400 Bad Request
> POST /api/kernels true
400 Bad Request
> POST /api/sessions []
400 Bad Request
> POST /api/contents []
400 Bad Request
> POST /api/contents null
400 Bad Request
> PUT /api/contents/a "x"
400 Bad Request
> PATCH /api/contents/a []
400 Bad Request
> POST /api/sessions {"path":"a","type":"file"}
201 Created {"id":"00000000-0000-400a-8444-444444444444","kernel":{"connections":0,"execution_state":"idle","id":"00000000-0000-400a-a222-222222222222","last_activity":"2001-09-09T01:46:40.123456Z","name":"oberon"},"name":"","path":"a","type":"file"}
* begin 00000000-0000-400a-a222-222222222222
> PATCH /api/sessions/00000000-0000-400a-8444-444444444444 []
400 Bad Request
> PATCH /api/sessions/00000000-0000-400a-8444-444444444444 null
400 Bad Request
-- A route that reads no body judges none.
> POST /api/kernels/00000000-0000-400a-a222-222222222222/interrupt []
204 No Content
* interrupt 00000000-0000-400a-a222-222222222222
"#;

/// JSON that is no object is 400 on each route that reads a body.
#[test]
fn bodies_that_are_no_objects(rt: HostRuntime) -> Result<(), Fail> {
    assert_play(&rt, BODIES_THAT_ARE_NO_OBJECTS)
}

const FULL_INBOXES: &str = r#"> POST /api/sessions {"path":"a","type":"file"}
201 Created {"id":"00000000-0000-4001-8444-444444444444","kernel":{"connections":0,"execution_state":"idle","id":"00000000-0000-4001-a222-222222222222","last_activity":"2001-09-09T01:46:40.123456Z","name":"oberon"},"name":"","path":"a","type":"file"}
* begin 00000000-0000-4001-a222-222222222222
! the inboxes are full
> POST /api/kernels/00000000-0000-4001-a222-222222222222/interrupt
503 Service Unavailable
> POST /api/kernels/00000000-0000-4001-a222-222222222222/restart
503 Service Unavailable
> DELETE /api/kernels/00000000-0000-4001-a222-222222222222
503 Service Unavailable
> DELETE /api/sessions/00000000-0000-4001-8444-444444444444
503 Service Unavailable
-- A kernel that is missing has no inbox.
> DELETE /api/kernels/x
404 Not Found
> POST /api/kernels/x/interrupt
404 Not Found
> POST /api/kernels/x/restart
404 Not Found
> DELETE /api/sessions/x
404 Not Found
> GET /api/sessions
200 OK [{"id":"00000000-0000-4001-8444-444444444444","kernel":{"connections":0,"execution_state":"idle","id":"00000000-0000-4001-a222-222222222222","last_activity":"2001-09-09T01:46:40.123456Z","name":"oberon"},"name":"","path":"a","type":"file"}]
> GET /api/kernels/00000000-0000-4001-a222-222222222222
200 OK {"connections":0,"execution_state":"idle","id":"00000000-0000-4001-a222-222222222222","last_activity":"2001-09-09T01:46:40.123456Z","name":"oberon"}
! the inboxes have room
-- A kernel goes with its session.
> DELETE /api/kernels/00000000-0000-4001-a222-222222222222
204 No Content
* shutdown 00000000-0000-4001-a222-222222222222
> GET /api/sessions
200 OK []
> GET /api/sessions/00000000-0000-4001-8444-444444444444
404 Not Found
"#;

/// Where an inbox is full nothing has changed.
#[test]
fn full_inboxes(rt: HostRuntime) -> Result<(), Fail> {
    assert_play(&rt, FULL_INBOXES)
}

const SEVENTEEN_KERNELS: &str = r#"! sixteen kernels are made
> POST /api/kernels
503 Service Unavailable
> POST /api/kernels {"name":"python"}
400 Bad Request
> POST /api/kernels {
400 Bad Request
> DELETE /api/kernels/00000000-0000-4010-a222-222222222222
204 No Content
* shutdown 00000000-0000-4010-a222-222222222222
> POST /api/kernels
201 Created at /api/kernels/00000000-0000-4014-a222-222222222222 {"connections":0,"execution_state":"idle","id":"00000000-0000-4014-a222-222222222222","last_activity":"2001-09-09T01:46:40.123456Z","name":"oberon"}
* begin 00000000-0000-4014-a222-222222222222
> POST /api/kernels
503 Service Unavailable
"#;

/// The body comes before the number of kernels.
#[test]
fn seventeen_kernels(rt: HostRuntime) -> Result<(), Fail> {
    assert_play(&rt, SEVENTEEN_KERNELS)
}
