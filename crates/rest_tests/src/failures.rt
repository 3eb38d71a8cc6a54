//! Failing shelves, and kernels that can't be made.

use crate::plays::assert_play;
use std::test::Fail;

const A_SHELF_THAT_FAILS_AT_EACH_CALL: &str = r#"> PUT /api/contents/d {"type":"directory"}
201 Created {"content":null,"created":"2001-09-09T01:46:40.123456Z","format":null,"last_modified":"2001-09-09T01:46:40.123456Z","mimetype":null,"name":"d","path":"d","type":"directory","writable":true}
> PUT /api/contents/d/a {"content":"x","format":"text","type":"file"}
201 Created {"content":null,"created":"2001-09-09T01:46:40.123456Z","format":null,"last_modified":"2001-09-09T01:46:40.123456Z","mimetype":null,"name":"a","path":"d/a","type":"file","writable":true}
> PUT /api/contents/d/b {"type":"directory"}
201 Created {"content":null,"created":"2001-09-09T01:46:40.123456Z","format":null,"last_modified":"2001-09-09T01:46:40.123456Z","mimetype":null,"name":"b","path":"d/b","type":"directory","writable":true}
> PUT /api/contents/n.ipynb {"content":"{\"cells\":[],\"metadata\":{},\"nbformat\":4,\"nbformat_minor\":5}","format":"text","type":"file"}
201 Created {"content":null,"created":"2001-09-09T01:46:40.123456Z","format":null,"last_modified":"2001-09-09T01:46:40.123456Z","mimetype":null,"name":"n.ipynb","path":"n.ipynb","type":"notebook","writable":true}
! a day goes by
~ GET /api/contents/d
500 Internal Server Error
200 OK {"content":[{"content":null,"created":"2001-09-09T01:46:40.123456Z","format":null,"last_modified":"2001-09-09T01:46:40.123456Z","mimetype":null,"name":"a","path":"d/a","type":"file","writable":true},{"content":null,"created":"2001-09-09T01:46:40.123456Z","format":null,"last_modified":"2001-09-09T01:46:40.123456Z","mimetype":null,"name":"b","path":"d/b","type":"directory","writable":true}],"created":"2001-09-09T01:46:40.123456Z","format":"json","last_modified":"2001-09-09T01:46:40.123456Z","mimetype":null,"name":"d","path":"d","type":"directory","writable":true}
~ GET /api/contents/d/a
500 Internal Server Error
200 OK {"content":"x","created":"2001-09-09T01:46:40.123456Z","format":"text","last_modified":"2001-09-09T01:46:40.123456Z","mimetype":"text/plain","name":"a","path":"d/a","type":"file","writable":true}
~ GET /api/contents/n.ipynb?content=0
500 Internal Server Error
200 OK {"content":null,"created":"2001-09-09T01:46:40.123456Z","format":null,"last_modified":"2001-09-09T01:46:40.123456Z","mimetype":null,"name":"n.ipynb","path":"n.ipynb","type":"notebook","writable":true}
-- The new file is new until a put succeeds.
~ PUT /api/contents/d/c {"content":"x","format":"text","type":"file"}
500 Internal Server Error
201 Created {"content":null,"created":"2001-09-10T01:46:40.123456Z","format":null,"last_modified":"2001-09-10T01:46:40.123456Z","mimetype":null,"name":"c","path":"d/c","type":"file","writable":true}
~ PUT /api/contents/d/c {"content":"z","format":"text","type":"file"}
500 Internal Server Error
200 OK {"content":null,"created":"2001-09-10T01:46:40.123456Z","format":null,"last_modified":"2001-09-10T01:46:40.123456Z","mimetype":null,"name":"c","path":"d/c","type":"file","writable":true}
? d/c
"z"
~ POST /api/contents {"type":"directory"}
500 Internal Server Error
201 Created {"content":null,"created":"2001-09-10T01:46:40.123456Z","format":null,"last_modified":"2001-09-10T01:46:40.123456Z","mimetype":null,"name":"Untitled Folder","path":"Untitled Folder","type":"directory","writable":true}
~ PATCH /api/contents/d {"path":"e"}
500 Internal Server Error
200 OK {"content":null,"created":"2001-09-09T01:46:40.123456Z","format":null,"last_modified":"2001-09-09T01:46:40.123456Z","mimetype":null,"name":"e","path":"e","type":"directory","writable":true}
> GET /api/contents/d
404 Not Found
? e/a
"x"
~ DELETE /api/contents/e/a
500 Internal Server Error
204 No Content
> GET /api/contents/e/a
404 Not Found
~ POST /api/sessions {"path":"n.ipynb","type":"notebook"}
500 Internal Server Error
201 Created {"id":"00000000-0000-4002-8444-444444444444","kernel":{"connections":0,"execution_state":"idle","id":"00000000-0000-4002-a222-222222222222","last_activity":"2001-09-10T01:46:40.123456Z","name":"oberon"},"name":"","path":"n.ipynb","type":"notebook"}
* begin 00000000-0000-4002-a222-222222222222
-- What is refused before the shelf is asked.
~ PUT /api/contents/d {
400 Bad Request
~ PUT /api/contents/a//b {"type":"file","format":"text","content":""}
400 Bad Request
~ POST /api/contents {"type":"link"}
400 Bad Request
~ PATCH /api/contents/e {"path":"//"}
400 Bad Request
~ DELETE /api/contents/a//b
400 Bad Request
~ GET /api/contents/a//b
400 Bad Request
"#;

/// Where the device fails it is 500, and nothing has changed.
#[test]
fn a_shelf_that_fails_at_each_call(rt: HostRuntime) -> Result<(), Fail> {
    assert_play(&rt, A_SHELF_THAT_FAILS_AT_EACH_CALL)
}

const KERNELS_THAT_CANNOT_BE_MADE: &str = r#"! no kernel can be made
> POST /api/kernels
500 Internal Server Error
> POST /api/sessions {"path":"a","type":"file"}
500 Internal Server Error
> GET /api/kernels
200 OK []
> GET /api/sessions
200 OK []
-- What is refused before.
> POST /api/kernels {"name":"x"}
400 Bad Request
> POST /api/sessions {"path":"a","type":1}
400 Bad Request
! kernels can be made
> POST /api/kernels
201 Created at /api/kernels/00000000-0000-4005-a222-222222222222 {"connections":0,"execution_state":"idle","id":"00000000-0000-4005-a222-222222222222","last_activity":"2001-09-09T01:46:40.123456Z","name":"oberon"}
* begin 00000000-0000-4005-a222-222222222222
> POST /api/sessions {"path":"a","type":"file"}
201 Created {"id":"00000000-0000-4006-8444-444444444444","kernel":{"connections":0,"execution_state":"idle","id":"00000000-0000-4006-a222-222222222222","last_activity":"2001-09-09T01:46:40.123456Z","name":"oberon"},"name":"","path":"a","type":"file"}
* begin 00000000-0000-4006-a222-222222222222
! no kernel can be made
> POST /api/sessions {"path":"a","type":"file"}
201 Created {"id":"00000000-0000-4006-8444-444444444444","kernel":{"connections":0,"execution_state":"idle","id":"00000000-0000-4006-a222-222222222222","last_activity":"2001-09-09T01:46:40.123456Z","name":"oberon"},"name":"","path":"a","type":"file"}
> POST /api/sessions {"path":"b","type":"file","kernel":{"id":"00000000-0000-4005-a222-222222222222"}}
201 Created {"id":"00000000-0000-4008-8444-444444444444","kernel":{"connections":0,"execution_state":"idle","id":"00000000-0000-4005-a222-222222222222","last_activity":"2001-09-09T01:46:40.123456Z","name":"oberon"},"name":"","path":"b","type":"file"}
"#;

/// Where there is no memory for a kernel it is 500, and nothing has changed.
#[test]
fn kernels_that_cannot_be_made(rt: HostRuntime) -> Result<(), Fail> {
    assert_play(&rt, KERNELS_THAT_CANNOT_BE_MADE)
}
