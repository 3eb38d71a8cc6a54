//! Sessions.

use crate::plays::assert_play;
use std::test::Fail;

const SESSIONS_ARE_MADE_CHANGED_AND_ENDED: &str = r#"> GET /api/sessions
200 OK []
> POST /api/sessions {"path":"n.ipynb","type":"notebook"}
201 Created {"id":"00000000-0000-4001-8444-444444444444","kernel":{"connections":0,"execution_state":"idle","id":"00000000-0000-4001-a222-222222222222","last_activity":"2001-09-09T01:46:40.123456Z","name":"oberon"},"name":"","path":"n.ipynb","type":"notebook"}
* begin 00000000-0000-4001-a222-222222222222
> GET /api/sessions/00000000-0000-4001-8444-444444444444
200 OK {"id":"00000000-0000-4001-8444-444444444444","kernel":{"connections":0,"execution_state":"idle","id":"00000000-0000-4001-a222-222222222222","last_activity":"2001-09-09T01:46:40.123456Z","name":"oberon"},"name":"","path":"n.ipynb","type":"notebook"}
-- A kernel that is there, without a session.
> POST /api/kernels
201 Created at /api/kernels/00000000-0000-4002-a222-222222222222 {"connections":0,"execution_state":"idle","id":"00000000-0000-4002-a222-222222222222","last_activity":"2001-09-09T01:46:40.123456Z","name":"oberon"}
* begin 00000000-0000-4002-a222-222222222222
> POST /api/sessions {"path":"d/a.txt","type":"file","name":"t","kernel":{"id":"00000000-0000-4002-a222-222222222222","name":"oberon"}}
201 Created {"id":"00000000-0000-4003-8444-444444444444","kernel":{"connections":0,"execution_state":"idle","id":"00000000-0000-4002-a222-222222222222","last_activity":"2001-09-09T01:46:40.123456Z","name":"oberon"},"name":"t","path":"d/a.txt","type":"file"}
> GET /api/sessions
200 OK [{"id":"00000000-0000-4001-8444-444444444444","kernel":{"connections":0,"execution_state":"idle","id":"00000000-0000-4001-a222-222222222222","last_activity":"2001-09-09T01:46:40.123456Z","name":"oberon"},"name":"","path":"n.ipynb","type":"notebook"},{"id":"00000000-0000-4003-8444-444444444444","kernel":{"connections":0,"execution_state":"idle","id":"00000000-0000-4002-a222-222222222222","last_activity":"2001-09-09T01:46:40.123456Z","name":"oberon"},"name":"t","path":"d/a.txt","type":"file"}]
> PATCH /api/sessions/00000000-0000-4001-8444-444444444444 {"path":"m.ipynb","name":"z","type":"book"}
200 OK {"id":"00000000-0000-4001-8444-444444444444","kernel":{"connections":0,"execution_state":"idle","id":"00000000-0000-4001-a222-222222222222","last_activity":"2001-09-09T01:46:40.123456Z","name":"oberon"},"name":"z","path":"m.ipynb","type":"book"}
-- Its own path stays its own; a null field counts as missing.
> PATCH /api/sessions/00000000-0000-4001-8444-444444444444 {"path":"m.ipynb","name":null,"type":"notebook","kernel":null}
200 OK {"id":"00000000-0000-4001-8444-444444444444","kernel":{"connections":0,"execution_state":"idle","id":"00000000-0000-4001-a222-222222222222","last_activity":"2001-09-09T01:46:40.123456Z","name":"oberon"},"name":"z","path":"m.ipynb","type":"notebook"}
> PATCH /api/sessions/00000000-0000-4001-8444-444444444444 {}
200 OK {"id":"00000000-0000-4001-8444-444444444444","kernel":{"connections":0,"execution_state":"idle","id":"00000000-0000-4001-a222-222222222222","last_activity":"2001-09-09T01:46:40.123456Z","name":"oberon"},"name":"z","path":"m.ipynb","type":"notebook"}
> GET /api/sessions/00000000-0000-4001-8444-444444444444
200 OK {"id":"00000000-0000-4001-8444-444444444444","kernel":{"connections":0,"execution_state":"idle","id":"00000000-0000-4001-a222-222222222222","last_activity":"2001-09-09T01:46:40.123456Z","name":"oberon"},"name":"z","path":"m.ipynb","type":"notebook"}
> DELETE /api/sessions/00000000-0000-4001-8444-444444444444
204 No Content
* shutdown 00000000-0000-4001-a222-222222222222
> GET /api/kernels/00000000-0000-4001-a222-222222222222
404 Not Found
> GET /api/sessions/00000000-0000-4001-8444-444444444444
404 Not Found
> DELETE /api/sessions/00000000-0000-4001-8444-444444444444
404 Not Found
> GET /api/sessions
200 OK [{"id":"00000000-0000-4003-8444-444444444444","kernel":{"connections":0,"execution_state":"idle","id":"00000000-0000-4002-a222-222222222222","last_activity":"2001-09-09T01:46:40.123456Z","name":"oberon"},"name":"t","path":"d/a.txt","type":"file"}]
"#;

/// Each route of sessions.
#[test]
fn sessions_are_made_changed_and_ended(rt: HostRuntime) -> Result<(), Fail> {
    assert_play(&rt, SESSIONS_ARE_MADE_CHANGED_AND_ENDED)
}

const BODIES_OF_SESSIONS: &str = r#"> POST /api/sessions
400 Bad Request
> POST /api/sessions {
400 Bad Request
> POST /api/sessions {"type":"file"}
400 Bad Request
> POST /api/sessions {"path":"a"}
400 Bad Request
> POST /api/sessions {"path":null,"type":"file"}
400 Bad Request
> POST /api/sessions {"path":["a"],"type":"file"}
400 Bad Request
> POST /api/sessions {"path":"a","type":1}
400 Bad Request
> POST /api/sessions {"path":"a","type":"file","name":[]}
400 Bad Request
> POST /api/sessions {"path":"a","type":"file","kernel":"oberon"}
400 Bad Request
> POST /api/sessions {"path":"a","type":"file","kernel":{"name":"python"}}
400 Bad Request
> POST /api/sessions {"path":"a","type":"file","kernel":{"id":7}}
400 Bad Request
> POST /api/sessions {"path":"a//b","type":"file"}
400 Bad Request
> POST /api/sessions {"path":"../b","type":"file"}
400 Bad Request
> POST /api/sessions {"path":"a\\b","type":"file"}
400 Bad Request
> POST /api/sessions {"path":"/a","type":"file"}
400 Bad Request
-- A null kernel, and null fields of a kernel, count as missing.
> POST /api/sessions {"path":"b","type":"file","name":null,"kernel":null}
201 Created {"id":"00000000-0000-4010-8444-444444444444","kernel":{"connections":0,"execution_state":"idle","id":"00000000-0000-4010-a222-222222222222","last_activity":"2001-09-09T01:46:40.123456Z","name":"oberon"},"name":"","path":"b","type":"file"}
* begin 00000000-0000-4010-a222-222222222222
> POST /api/sessions {"path":"c","type":"file","kernel":{"id":null,"name":null}}
201 Created {"id":"00000000-0000-4011-8444-444444444444","kernel":{"connections":0,"execution_state":"idle","id":"00000000-0000-4011-a222-222222222222","last_activity":"2001-09-09T01:46:40.123456Z","name":"oberon"},"name":"","path":"c","type":"file"}
* begin 00000000-0000-4011-a222-222222222222
-- A session keeps its kernel.
> PATCH /api/sessions/00000000-0000-4011-8444-444444444444 {"kernel":{}}
400 Bad Request
> PATCH /api/sessions/00000000-0000-4011-8444-444444444444 {"kernel":{"id":"00000000-0000-4011-a222-222222222222"}}
400 Bad Request
> PATCH /api/sessions/00000000-0000-4011-8444-444444444444 {"path":3}
400 Bad Request
> PATCH /api/sessions/00000000-0000-4011-8444-444444444444 {"path":"a//b"}
400 Bad Request
> PATCH /api/sessions/00000000-0000-4011-8444-444444444444 [
400 Bad Request
> PATCH /api/sessions/00000000-0000-4011-8444-444444444444 {"path":"b"}
409 Conflict
> PATCH /api/sessions/00000000-0000-4011-8444-444444444444 {"path":"b","name":{}}
400 Bad Request
> PATCH /api/sessions/x {}
404 Not Found
> GET /api/sessions/00000000-0000-4011-8444-444444444444
200 OK {"id":"00000000-0000-4011-8444-444444444444","kernel":{"connections":0,"execution_state":"idle","id":"00000000-0000-4011-a222-222222222222","last_activity":"2001-09-09T01:46:40.123456Z","name":"oberon"},"name":"","path":"c","type":"file"}
"#;

/// Fields of another kind, or missing where they are needed, and bad paths.
#[test]
fn bodies_of_sessions(rt: HostRuntime) -> Result<(), Fail> {
    assert_play(&rt, BODIES_OF_SESSIONS)
}

const REFUSALS_OF_NEW_SESSIONS_IN_ORDER: &str =
    r#"> PUT /api/contents/bad.txt {"content":"no notebook","format":"text","type":"file"}
201 Created {"content":null,"created":"2001-09-09T01:46:40.123456Z","format":null,"last_modified":"2001-09-09T01:46:40.123456Z","mimetype":null,"name":"bad.txt","path":"bad.txt","type":"file","writable":true}
> PATCH /api/contents/bad.txt {"path":"bad.ipynb"}
200 OK {"content":null,"created":"2001-09-09T01:46:40.123456Z","format":null,"last_modified":"2001-09-09T01:46:40.123456Z","mimetype":null,"name":"bad.ipynb","path":"bad.ipynb","type":"notebook","writable":true}
> POST /api/sessions {"path":"a","type":"file"}
201 Created {"id":"00000000-0000-4001-8444-444444444444","kernel":{"connections":0,"execution_state":"idle","id":"00000000-0000-4001-a222-222222222222","last_activity":"2001-09-09T01:46:40.123456Z","name":"oberon"},"name":"","path":"a","type":"file"}
* begin 00000000-0000-4001-a222-222222222222
> POST /api/sessions {"path":"n.ipynb","type":"notebook"}
201 Created {"id":"00000000-0000-4002-8444-444444444444","kernel":{"connections":0,"execution_state":"idle","id":"00000000-0000-4002-a222-222222222222","last_activity":"2001-09-09T01:46:40.123456Z","name":"oberon"},"name":"","path":"n.ipynb","type":"notebook"}
* begin 00000000-0000-4002-a222-222222222222
> PUT /api/contents/worse.txt {"content":"x","format":"text","type":"file"}
201 Created {"content":null,"created":"2001-09-09T01:46:40.123456Z","format":null,"last_modified":"2001-09-09T01:46:40.123456Z","mimetype":null,"name":"worse.txt","path":"worse.txt","type":"file","writable":true}
> PATCH /api/contents/worse.txt {"path":"n.ipynb"}
200 OK {"content":null,"created":"2001-09-09T01:46:40.123456Z","format":null,"last_modified":"2001-09-09T01:46:40.123456Z","mimetype":null,"name":"n.ipynb","path":"n.ipynb","type":"notebook","writable":true}
-- A bad field, before each of the others.
> POST /api/sessions {"path":"a","type":1}
400 Bad Request
> POST /api/sessions {"path":"b","type":1,"kernel":{"id":"x"}}
400 Bad Request
> POST /api/sessions {"path":"b","type":1,"kernel":{"id":"00000000-0000-4001-a222-222222222222"}}
400 Bad Request
-- A session at the path, before each of the others: an unknown kernel, one with another session, and a notebook that is none now.
> POST /api/sessions {"path":"a","type":"x","name":"y","kernel":{"id":"x"}}
201 Created {"id":"00000000-0000-4001-8444-444444444444","kernel":{"connections":0,"execution_state":"idle","id":"00000000-0000-4001-a222-222222222222","last_activity":"2001-09-09T01:46:40.123456Z","name":"oberon"},"name":"","path":"a","type":"file"}
> POST /api/sessions {"path":"a","type":"x","kernel":{"id":"00000000-0000-4002-a222-222222222222"}}
201 Created {"id":"00000000-0000-4001-8444-444444444444","kernel":{"connections":0,"execution_state":"idle","id":"00000000-0000-4001-a222-222222222222","last_activity":"2001-09-09T01:46:40.123456Z","name":"oberon"},"name":"","path":"a","type":"file"}
> POST /api/sessions {"path":"n.ipynb","type":"x"}
201 Created {"id":"00000000-0000-4002-8444-444444444444","kernel":{"connections":0,"execution_state":"idle","id":"00000000-0000-4002-a222-222222222222","last_activity":"2001-09-09T01:46:40.123456Z","name":"oberon"},"name":"","path":"n.ipynb","type":"notebook"}
-- An unknown kernel, and one with another session, before a notebook that can't be read.
> POST /api/sessions {"path":"bad.ipynb","type":"notebook","kernel":{"id":"x"}}
404 Not Found
> POST /api/sessions {"path":"bad.ipynb","type":"notebook","kernel":{"id":"00000000-0000-4001-a222-222222222222"}}
409 Conflict
> POST /api/sessions {"path":"bad.ipynb","type":"notebook"}
400 Bad Request
> POST /api/sessions {"path":"b","type":"file","kernel":{"id":"x"}}
404 Not Found
> POST /api/sessions {"path":"b","type":"file","kernel":{"id":"00000000-0000-4001-a222-222222222222"}}
409 Conflict
-- The number of kernels comes last, where one would be made.
! sixteen kernels are made
> POST /api/sessions {"path":"b","type":1}
400 Bad Request
> POST /api/sessions {"path":"a","type":"file"}
201 Created {"id":"00000000-0000-4001-8444-444444444444","kernel":{"connections":0,"execution_state":"idle","id":"00000000-0000-4001-a222-222222222222","last_activity":"2001-09-09T01:46:40.123456Z","name":"oberon"},"name":"","path":"a","type":"file"}
> POST /api/sessions {"path":"b","type":"file","kernel":{"id":"x"}}
404 Not Found
> POST /api/sessions {"path":"b","type":"file","kernel":{"id":"00000000-0000-4001-a222-222222222222"}}
409 Conflict
> POST /api/sessions {"path":"bad.ipynb","type":"notebook"}
400 Bad Request
> POST /api/sessions {"path":"b","type":"file"}
503 Service Unavailable
> POST /api/sessions {"path":"none.ipynb","type":"notebook"}
503 Service Unavailable
"#;

/// The body's fields, then the path's session, an unknown kernel, a kernel with another session, the notebook, and the number of kernels.
#[test]
fn refusals_of_new_sessions_in_order(rt: HostRuntime) -> Result<(), Fail> {
    assert_play(&rt, REFUSALS_OF_NEW_SESSIONS_IN_ORDER)
}

const A_SESSION_OF_A_KERNEL_THAT_IS_THERE: &str = r#"! sixteen kernels are made
> POST /api/sessions {"path":"b","type":"file"}
503 Service Unavailable
> POST /api/sessions {"path":"b","type":"file","kernel":{"id":"00000000-0000-4003-a222-222222222222"}}
201 Created {"id":"00000000-0000-4012-8444-444444444444","kernel":{"connections":0,"execution_state":"idle","id":"00000000-0000-4003-a222-222222222222","last_activity":"2001-09-09T01:46:40.123456Z","name":"oberon"},"name":"","path":"b","type":"file"}
> DELETE /api/sessions/00000000-0000-4012-8444-444444444444
204 No Content
* shutdown 00000000-0000-4003-a222-222222222222
> POST /api/sessions {"path":"b","type":"file"}
201 Created {"id":"00000000-0000-4013-8444-444444444444","kernel":{"connections":0,"execution_state":"idle","id":"00000000-0000-4013-a222-222222222222","last_activity":"2001-09-09T01:46:40.123456Z","name":"oberon"},"name":"","path":"b","type":"file"}
* begin 00000000-0000-4013-a222-222222222222
"#;

/// It needs no place for one more kernel.
#[test]
fn a_session_of_a_kernel_that_is_there(rt: HostRuntime) -> Result<(), Fail> {
    assert_play(&rt, A_SESSION_OF_A_KERNEL_THAT_IS_THERE)
}
