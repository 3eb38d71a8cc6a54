//! Files, folders and notebooks.

use crate::plays::assert_play;
use std::test::Fail;

const FILES_AND_FOLDERS: &str = r#"-- The root is there from the start.
> GET /api/contents
200 OK {"content":[],"created":"1970-01-01T00:00:00.000000Z","format":"json","last_modified":"1970-01-01T00:00:00.000000Z","mimetype":null,"name":"","path":"","type":"directory","writable":true}
> GET /api/contents/
200 OK {"content":[],"created":"1970-01-01T00:00:00.000000Z","format":"json","last_modified":"1970-01-01T00:00:00.000000Z","mimetype":null,"name":"","path":"","type":"directory","writable":true}
> PUT /api/contents/a%20b.bin {"type":"file","format":"base64","content":"AP8="}
201 Created {"content":null,"created":"2001-09-09T01:46:40.123456Z","format":null,"last_modified":"2001-09-09T01:46:40.123456Z","mimetype":null,"name":"a b.bin","path":"a b.bin","type":"file","writable":true}
? a b.bin
[0, 255]
! a day goes by
> PUT /api/contents/a%20b.bin {"type":"file","format":"base64","content":"AP\r\n8=\n"}
200 OK {"content":null,"created":"2001-09-10T01:46:40.123456Z","format":null,"last_modified":"2001-09-10T01:46:40.123456Z","mimetype":null,"name":"a b.bin","path":"a b.bin","type":"file","writable":true}
? a b.bin
[0, 255]
> GET /api/contents/a%20b.bin/
200 OK {"content":"AP8=","created":"2001-09-10T01:46:40.123456Z","format":"base64","last_modified":"2001-09-10T01:46:40.123456Z","mimetype":"application/octet-stream","name":"a b.bin","path":"a b.bin","type":"file","writable":true}
> PUT /api/contents/d {"type":"directory"}
201 Created {"content":null,"created":"2001-09-10T01:46:40.123456Z","format":null,"last_modified":"2001-09-10T01:46:40.123456Z","mimetype":null,"name":"d","path":"d","type":"directory","writable":true}
> PUT /api/contents/d/b.txt {"content":"x\ny","format":"text","type":"file"}
201 Created {"content":null,"created":"2001-09-10T01:46:40.123456Z","format":null,"last_modified":"2001-09-10T01:46:40.123456Z","mimetype":null,"name":"b.txt","path":"d/b.txt","type":"file","writable":true}
? d/b.txt
"x\ny"
> PUT /api/contents/d/a {"type":"directory"}
201 Created {"content":null,"created":"2001-09-10T01:46:40.123456Z","format":null,"last_modified":"2001-09-10T01:46:40.123456Z","mimetype":null,"name":"a","path":"d/a","type":"directory","writable":true}
> PUT /api/contents/d/c.ipynb {"content":"{\"cells\": [], \"metadata\": {}, \"nbformat\": 4, \"nbformat_minor\": 5}","format":"text","type":"file"}
201 Created {"content":null,"created":"2001-09-10T01:46:40.123456Z","format":null,"last_modified":"2001-09-10T01:46:40.123456Z","mimetype":null,"name":"c.ipynb","path":"d/c.ipynb","type":"notebook","writable":true}
> GET /api/contents/d
200 OK {"content":[{"content":null,"created":"2001-09-10T01:46:40.123456Z","format":null,"last_modified":"2001-09-10T01:46:40.123456Z","mimetype":null,"name":"a","path":"d/a","type":"directory","writable":true},{"content":null,"created":"2001-09-10T01:46:40.123456Z","format":null,"last_modified":"2001-09-10T01:46:40.123456Z","mimetype":null,"name":"b.txt","path":"d/b.txt","type":"file","writable":true},{"content":null,"created":"2001-09-10T01:46:40.123456Z","format":null,"last_modified":"2001-09-10T01:46:40.123456Z","mimetype":null,"name":"c.ipynb","path":"d/c.ipynb","type":"notebook","writable":true}],"created":"2001-09-10T01:46:40.123456Z","format":"json","last_modified":"2001-09-10T01:46:40.123456Z","mimetype":null,"name":"d","path":"d","type":"directory","writable":true}
> GET /api/contents/d/?content=0&type=directory
200 OK {"content":null,"created":"2001-09-10T01:46:40.123456Z","format":null,"last_modified":"2001-09-10T01:46:40.123456Z","mimetype":null,"name":"d","path":"d","type":"directory","writable":true}
> GET /api/contents/d/b.txt?type=file&content=1
200 OK {"content":"x\ny","created":"2001-09-10T01:46:40.123456Z","format":"text","last_modified":"2001-09-10T01:46:40.123456Z","mimetype":"text/plain","name":"b.txt","path":"d/b.txt","type":"file","writable":true}
> GET /api/contents/d/b.txt?content=0
200 OK {"content":null,"created":"2001-09-10T01:46:40.123456Z","format":null,"last_modified":"2001-09-10T01:46:40.123456Z","mimetype":null,"name":"b.txt","path":"d/b.txt","type":"file","writable":true}
-- The type of a path that is there is one.
> GET /api/contents/d/b.txt?type=directory
400 Bad Request
> GET /api/contents/d?type=file
400 Bad Request
> GET /api/contents/d/c.ipynb?type=file
400 Bad Request
> GET /api/contents/no?type=file
404 Not Found
> GET /api/contents/d/b.txt/x
404 Not Found
-- What is taken away is gone; a folder has to be empty.
> DELETE /api/contents/d
400 Bad Request
> DELETE /api/contents/d/a
204 No Content
> GET /api/contents/d/a
404 Not Found
> DELETE /api/contents/d/a
404 Not Found
> DELETE /api/contents/d/b.txt
204 No Content
? d/b.txt
no file
> DELETE /api/contents/
400 Bad Request
> DELETE /api/contents
400 Bad Request
"#;

/// Files of bytes and of text; a folder shows what stands in it in byte order, without contents.
#[test]
fn files_and_folders(rt: HostRuntime) -> Result<(), Fail> {
    assert_play(&rt, FILES_AND_FOLDERS)
}

const NOTEBOOKS: &str =
    r#"> PUT /api/contents/n.ipynb {"content":{"cells":[{"cell_type":"markdown","id":"a","metadata":{},"source":"x"}],"metadata":{},"nbformat":4,"nbformat_minor":5},"type":"notebook"}
201 Created {"content":null,"created":"2001-09-09T01:46:40.123456Z","format":null,"last_modified":"2001-09-09T01:46:40.123456Z","mimetype":null,"name":"n.ipynb","path":"n.ipynb","type":"notebook","writable":true}
? n.ipynb
"{\n  \"cells\": [\n    {\n      \"cell_type\": \"markdown\",\n      \"id\": \"a\",\n      \"metadata\": {},\n      \"source\": [\n        \"x\"\n      ]\n    }\n  ],\n  \"metadata\": {},\n  \"nbformat\": 4,\n  \"nbformat_minor\": 5\n}\n"
-- One identifier twice, another version, no content, and what is no notebook.
> PUT /api/contents/n.ipynb {"content":{"cells":[{"cell_type":"markdown","id":"a","metadata":{},"source":"x"},{"cell_type":"markdown","id":"a","metadata":{},"source":"x"}],"metadata":{},"nbformat":4,"nbformat_minor":5},"type":"notebook"}
400 Bad Request
> PUT /api/contents/n.ipynb {"content":{"cells":[],"metadata":{},"nbformat":4,"nbformat_minor":6},"type":"notebook"}
400 Bad Request
> PUT /api/contents/n.ipynb {"content":{"cells":[],"metadata":{},"nbformat":3,"nbformat_minor":5},"type":"notebook"}
400 Bad Request
> PUT /api/contents/n.ipynb {"type":"notebook"}
400 Bad Request
> PUT /api/contents/n.ipynb {"type":"notebook","content":null}
400 Bad Request
> PUT /api/contents/n.ipynb {"type":"notebook","content":[]}
400 Bad Request
-- A number that is not whole, in the notebook or beside it, though the content is read as it stands in the body.
> PUT /api/contents/n.ipynb {"content":{"cells":[],"metadata":{"x":[1.5]},"nbformat":4,"nbformat_minor":5},"type":"notebook"}
400 Bad Request
> PUT /api/contents/n.ipynb {"content":{"cells":[],"metadata":{},"nbformat":4,"nbformat_minor":5},"type":"notebook","x":-0}
400 Bad Request
> PUT /api/contents/n.ipynb {"content":"x","format":"text","type":"file"}
400 Bad Request
> PUT /api/contents/n.ipynb {"content":"eA==","format":"base64","type":"file"}
400 Bad Request
-- A notebook goes nowhere else.
> PUT /api/contents/n.txt {"content":{"cells":[],"metadata":{},"nbformat":4,"nbformat_minor":5},"type":"notebook"}
400 Bad Request
? n.ipynb
"{\n  \"cells\": [\n    {\n      \"cell_type\": \"markdown\",\n      \"id\": \"a\",\n      \"metadata\": {},\n      \"source\": [\n        \"x\"\n      ]\n    }\n  ],\n  \"metadata\": {},\n  \"nbformat\": 4,\n  \"nbformat_minor\": 5\n}\n"
? n.txt
no file
> GET /api/contents/n.ipynb?type=notebook
200 OK {"content":{"cells":[{"cell_type":"markdown","id":"a","metadata":{},"source":["x"]}],"metadata":{},"nbformat":4,"nbformat_minor":5},"created":"2001-09-09T01:46:40.123456Z","format":"json","last_modified":"2001-09-09T01:46:40.123456Z","mimetype":null,"name":"n.ipynb","path":"n.ipynb","type":"notebook","writable":true}
-- A file that is put there is read as a notebook.
> PUT /api/contents/n.ipynb {"content":"{\"cells\":[],\"metadata\":{},\"nbformat\":4,\"nbformat_minor\":5}","format":"text","type":"file"}
200 OK {"content":null,"created":"2001-09-09T01:46:40.123456Z","format":null,"last_modified":"2001-09-09T01:46:40.123456Z","mimetype":null,"name":"n.ipynb","path":"n.ipynb","type":"notebook","writable":true}
? n.ipynb
"{\n  \"cells\": [],\n  \"metadata\": {},\n  \"nbformat\": 4,\n  \"nbformat_minor\": 5\n}\n"
-- A file that came there by its name and is no notebook.
> PUT /api/contents/m.txt {"content":"x","format":"text","type":"file"}
201 Created {"content":null,"created":"2001-09-09T01:46:40.123456Z","format":null,"last_modified":"2001-09-09T01:46:40.123456Z","mimetype":null,"name":"m.txt","path":"m.txt","type":"file","writable":true}
> PATCH /api/contents/m.txt {"path":"m.ipynb"}
200 OK {"content":null,"created":"2001-09-09T01:46:40.123456Z","format":null,"last_modified":"2001-09-09T01:46:40.123456Z","mimetype":null,"name":"m.ipynb","path":"m.ipynb","type":"notebook","writable":true}
> GET /api/contents/m.ipynb
400 Bad Request
-- A notebook of 4.4 that came there by its name is shown as one of 4.5, and stays what it was until it is put.
> PUT /api/contents/o.txt {"content":"{\"cells\":[{\"cell_type\":\"raw\",\"metadata\":{},\"source\":\"a\"},{\"cell_type\":\"raw\",\"id\":\"run-1\",\"metadata\":{},\"source\":\"b\"},{\"cell_type\":\"raw\",\"metadata\":{},\"source\":\"c\"}],\"metadata\":{},\"nbformat\":4,\"nbformat_minor\":4}","format":"text","type":"file"}
201 Created {"content":null,"created":"2001-09-09T01:46:40.123456Z","format":null,"last_modified":"2001-09-09T01:46:40.123456Z","mimetype":null,"name":"o.txt","path":"o.txt","type":"file","writable":true}
> PATCH /api/contents/o.txt {"path":"o.ipynb"}
200 OK {"content":null,"created":"2001-09-09T01:46:40.123456Z","format":null,"last_modified":"2001-09-09T01:46:40.123456Z","mimetype":null,"name":"o.ipynb","path":"o.ipynb","type":"notebook","writable":true}
> GET /api/contents/o.ipynb
200 OK {"content":{"cells":[{"cell_type":"raw","id":"run-2","metadata":{},"source":["a"]},{"cell_type":"raw","id":"run-1","metadata":{},"source":["b"]},{"cell_type":"raw","id":"run-3","metadata":{},"source":["c"]}],"metadata":{},"nbformat":4,"nbformat_minor":5},"created":"2001-09-09T01:46:40.123456Z","format":"json","last_modified":"2001-09-09T01:46:40.123456Z","mimetype":null,"name":"o.ipynb","path":"o.ipynb","type":"notebook","writable":true}
? o.ipynb
"{\"cells\":[{\"cell_type\":\"raw\",\"metadata\":{},\"source\":\"a\"},{\"cell_type\":\"raw\",\"id\":\"run-1\",\"metadata\":{},\"source\":\"b\"},{\"cell_type\":\"raw\",\"metadata\":{},\"source\":\"c\"}],\"metadata\":{},\"nbformat\":4,\"nbformat_minor\":4}"
> PUT /api/contents/o.ipynb {"content":{"cells":[{"cell_type":"raw","metadata":{},"source":"a"},{"cell_type":"raw","id":"run-1","metadata":{},"source":"b"},{"cell_type":"raw","metadata":{},"source":"c"}],"metadata":{},"nbformat":4,"nbformat_minor":4},"type":"notebook"}
200 OK {"content":null,"created":"2001-09-09T01:46:40.123456Z","format":null,"last_modified":"2001-09-09T01:46:40.123456Z","mimetype":null,"name":"o.ipynb","path":"o.ipynb","type":"notebook","writable":true}
? o.ipynb
"{\n  \"cells\": [\n    {\n      \"cell_type\": \"raw\",\n      \"id\": \"run-2\",\n      \"metadata\": {},\n      \"source\": [\n        \"a\"\n      ]\n    },\n    {\n      \"cell_type\": \"raw\",\n      \"id\": \"run-1\",\n      \"metadata\": {},\n      \"source\": [\n        \"b\"\n      ]\n    },\n    {\n      \"cell_type\": \"raw\",\n      \"id\": \"run-3\",\n      \"metadata\": {},\n      \"source\": [\n        \"c\"\n      ]\n    }\n  ],\n  \"metadata\": {},\n  \"nbformat\": 4,\n  \"nbformat_minor\": 5\n}\n"
"#;

/// What is put at a notebook's path is a notebook, and is stored as the one text of it.
#[test]
fn notebooks(rt: HostRuntime) -> Result<(), Fail> {
    assert_play(&rt, NOTEBOOKS)
}

const REFUSALS_OF_A_PUT_IN_ORDER: &str = r#"> PUT /api/contents/d {"type":"directory"}
201 Created {"content":null,"created":"2001-09-09T01:46:40.123456Z","format":null,"last_modified":"2001-09-09T01:46:40.123456Z","mimetype":null,"name":"d","path":"d","type":"directory","writable":true}
> PUT /api/contents/a
400 Bad Request
> PUT /api/contents/a []
400 Bad Request
> PUT /api/contents/a {
400 Bad Request
> PUT /api/contents/a {"type":"link"}
400 Bad Request
> PUT /api/contents/a {"type":null}
400 Bad Request
> PUT /api/contents/a {"type":"file","content":""}
400 Bad Request
> PUT /api/contents/a {"type":"file","format":"text"}
400 Bad Request
> PUT /api/contents/a {"type":"file","format":"json","content":""}
400 Bad Request
> PUT /api/contents/a {"type":"file","format":"text","content":{}}
400 Bad Request
> PUT /api/contents/a {"type":"file","format":"base64","content":"A"}
400 Bad Request
> PUT /api/contents/a {"type":"file","format":"base64","content":"AP8"}
400 Bad Request
-- What the shelf refuses: a folder that is missing, and what is in the way.
> PUT /api/contents/x/y {"type":"file","format":"text","content":""}
404 Not Found
> PUT /api/contents/x/y {"type":"directory"}
404 Not Found
> PUT /api/contents/d {"type":"file","format":"text","content":""}
409 Conflict
> PUT /api/contents/d {"type":"directory"}
409 Conflict
> PUT /api/contents/ {"type":"directory"}
400 Bad Request
> PUT /api/contents/ {"type":"file","format":"text","content":""}
400 Bad Request
-- A bad body, a bad path, and a notebook elsewhere, where the shelf would refuse too.
> PUT /api/contents/x/y {"type":"file"}
400 Bad Request
> PUT /api/contents/x/../y {"type":"file","format":"text","content":""}
400 Bad Request
> PUT /api/contents/x/y.txt {"content":{"cells":[],"metadata":{},"nbformat":4,"nbformat_minor":5},"type":"notebook"}
400 Bad Request
> PUT /api/contents/d {"content":{"cells":[],"metadata":{},"nbformat":4,"nbformat_minor":5},"type":"notebook"}
400 Bad Request
> PUT /api/contents/x/y.ipynb {"type":"file","format":"text","content":""}
400 Bad Request
> GET /api/contents
200 OK {"content":[{"content":null,"created":"2001-09-09T01:46:40.123456Z","format":null,"last_modified":"2001-09-09T01:46:40.123456Z","mimetype":null,"name":"d","path":"d","type":"directory","writable":true}],"created":"1970-01-01T00:00:00.000000Z","format":"json","last_modified":"1970-01-01T00:00:00.000000Z","mimetype":null,"name":"","path":"","type":"directory","writable":true}
"#;

/// The body's fields, then the path, a notebook elsewhere, and what the shelf refuses.
#[test]
fn refusals_of_a_put_in_order(rt: HostRuntime) -> Result<(), Fail> {
    assert_play(&rt, REFUSALS_OF_A_PUT_IN_ORDER)
}

const DATES_OF_PUTS: &str =
    r#"> PUT /api/contents/a.txt {"content":"1","format":"text","last_modified":"x","type":"file"}
201 Created {"content":null,"created":"2001-09-09T01:46:40.123456Z","format":null,"last_modified":"2001-09-09T01:46:40.123456Z","mimetype":null,"name":"a.txt","path":"a.txt","type":"file","writable":true}
-- That of another put, and of none.
> PUT /api/contents/a.txt {"content":"2","format":"text","last_modified":"x","type":"file"}
409 Conflict
> PUT /api/contents/a.txt {"content":"2","format":"text","last_modified":"","type":"file"}
409 Conflict
> PUT /api/contents/a.txt {"content":"2","format":"text","last_modified":"1970-01-01T00:00:00.000000Z","type":"file"}
409 Conflict
? a.txt
"1"
! a day goes by
> PUT /api/contents/a.txt {"content":"2","format":"text","last_modified":"2001-09-09T01:46:40.123456Z","type":"file"}
200 OK {"content":null,"created":"2001-09-10T01:46:40.123456Z","format":null,"last_modified":"2001-09-10T01:46:40.123456Z","mimetype":null,"name":"a.txt","path":"a.txt","type":"file","writable":true}
> PUT /api/contents/a.txt {"content":"3","format":"text","last_modified":"2001-09-09T01:46:40.123456Z","type":"file"}
409 Conflict
> PUT /api/contents/a.txt {"content":"3","format":"text","last_modified":"2001-09-10T01:46:40.123456Z","type":"file"}
200 OK {"content":null,"created":"2001-09-10T01:46:40.123456Z","format":null,"last_modified":"2001-09-10T01:46:40.123456Z","mimetype":null,"name":"a.txt","path":"a.txt","type":"file","writable":true}
-- A null field counts as missing; a field of another kind is a bad one.
> PUT /api/contents/a.txt {"content":"4","format":"text","last_modified":null,"type":"file"}
200 OK {"content":null,"created":"2001-09-10T01:46:40.123456Z","format":null,"last_modified":"2001-09-10T01:46:40.123456Z","mimetype":null,"name":"a.txt","path":"a.txt","type":"file","writable":true}
> PUT /api/contents/a.txt {"content":"5","format":"text","last_modified":1,"type":"file"}
400 Bad Request
> PUT /api/contents/a.txt {"content":"5","format":"text","last_modified":{},"type":"file"}
400 Bad Request
? a.txt
"4"
-- Where nothing is there, nothing is asked.
> PUT /api/contents/n.ipynb {"content":{"cells":[],"metadata":{},"nbformat":4,"nbformat_minor":5},"last_modified":1,"type":"notebook"}
400 Bad Request
> PUT /api/contents/n.ipynb {"content":{"cells":[],"metadata":{},"nbformat":4,"nbformat_minor":5},"last_modified":"x","type":"notebook"}
201 Created {"content":null,"created":"2001-09-10T01:46:40.123456Z","format":null,"last_modified":"2001-09-10T01:46:40.123456Z","mimetype":null,"name":"n.ipynb","path":"n.ipynb","type":"notebook","writable":true}
> PUT /api/contents/n.ipynb {"content":{"cells":[],"metadata":{},"nbformat":4,"nbformat_minor":5},"last_modified":"x","type":"notebook"}
409 Conflict
-- A file of the start has its date; the path comes before the date, and the date before what the shelf refuses.
> PUT /api/contents/ {"last_modified":"x","type":"directory"}
409 Conflict
> PUT /api/contents/ {"last_modified":"1970-01-01T00:00:00.000000Z","type":"directory"}
400 Bad Request
> PUT /api/contents/x/../a.txt {"content":"5","format":"text","last_modified":"x","type":"file"}
400 Bad Request
> PUT /api/contents/x/y {"content":"5","format":"text","last_modified":"x","type":"file"}
404 Not Found
"#;

/// A put over what was last put at another date than the request says changes nothing.
#[test]
fn dates_of_puts(rt: HostRuntime) -> Result<(), Fail> {
    assert_play(&rt, DATES_OF_PUTS)
}

const BAD_PATHS: &str = r#"> PUT /api/contents/a%2Fb {"type":"file","format":"text","content":""}
400 Bad Request
> PUT /api/contents/a%2fb {"type":"file","format":"text","content":""}
400 Bad Request
> PUT /api/contents/a//b {"type":"file","format":"text","content":""}
400 Bad Request
> PUT /api/contents/. {"type":"file","format":"text","content":""}
400 Bad Request
> PUT /api/contents/.. {"type":"file","format":"text","content":""}
400 Bad Request
> PUT /api/contents/x/../y {"type":"file","format":"text","content":""}
400 Bad Request
> PUT /api/contents/%2e%2E/y {"type":"file","format":"text","content":""}
400 Bad Request
> PUT /api/contents/a/./b {"type":"file","format":"text","content":""}
400 Bad Request
> PUT /api/contents/%ff {"type":"file","format":"text","content":""}
400 Bad Request
> PUT /api/contents/%5C {"type":"file","format":"text","content":""}
400 Bad Request
> PUT /api/contents/%1F {"type":"file","format":"text","content":""}
400 Bad Request
> PUT /api/contents/%00 {"type":"file","format":"text","content":""}
400 Bad Request
> PUT /api/contents/a// {"type":"file","format":"text","content":""}
400 Bad Request
> PUT /api/contents/s/s/s/s/s/s/s/s/s/s/s/s/s/s/s/s/s {"type":"file","format":"text","content":""}
400 Bad Request
> PUT /api/contents/xxxxxxxxxxxxxxxxxxxxxxxxxxxxxxxxxxxxxxxxxxxxxxxxxxxxxxxxxxxxxxxxxxxxxxxxxxxxxxxxxxxxxxxxxxxxxxxxxxxxxxxxxxxxxxxxxxxxxxxxxxxxxxxxxxxxxxxxxxxxxxxxxxxxxxxxxxxxxxxxxxxxxxxxxxxxxxxxxxxxxxxxxxxxxxxxxxxxxxxxxxxxxxxxxxxxxxxxxxxxxxxxxxxxxxxxxxxxxxxxxxxxxxxxxxxxxxxx {"type":"file","format":"text","content":""}
400 Bad Request
> GET /api/contents/a%2Fb
400 Bad Request
> DELETE /api/contents/a%2Fb
400 Bad Request
> POST /api/contents/a%2Fb
400 Bad Request
> PATCH /api/contents/a%2Fb {"path":"c"}
400 Bad Request
> GET /api/contents//
400 Bad Request
-- Sixteen segments are a path, to which nothing leads; other signs are allowed.
> PUT /api/contents/s/s/s/s/s/s/s/s/s/s/s/s/s/s/s/s {"type":"file","format":"text","content":""}
404 Not Found
> PUT /api/contents/%C3%A4%20%3F...%25 {"type":"file","format":"text","content":""}
201 Created {"content":null,"created":"2001-09-09T01:46:40.123456Z","format":null,"last_modified":"2001-09-09T01:46:40.123456Z","mimetype":null,"name":"ä ?...%","path":"ä ?...%","type":"file","writable":true}
"#;

/// A segment that is empty, a point or two, no UTF-8, or holds a slash, a backslash or a low character; more than 16 segments; a segment of 256 bytes.
#[test]
fn bad_paths(rt: HostRuntime) -> Result<(), Fail> {
    assert_play(&rt, BAD_PATHS)
}

const NEW_THINGS: &str = r#"> POST /api/contents {"type":"notebook"}
201 Created {"content":null,"created":"2001-09-09T01:46:40.123456Z","format":null,"last_modified":"2001-09-09T01:46:40.123456Z","mimetype":null,"name":"Untitled.ipynb","path":"Untitled.ipynb","type":"notebook","writable":true}
? Untitled.ipynb
"{\n  \"cells\": [],\n  \"metadata\": {},\n  \"nbformat\": 4,\n  \"nbformat_minor\": 5\n}\n"
> POST /api/contents/ {"type":"notebook","ext":".Mod"}
201 Created {"content":null,"created":"2001-09-09T01:46:40.123456Z","format":null,"last_modified":"2001-09-09T01:46:40.123456Z","mimetype":null,"name":"Untitled1.ipynb","path":"Untitled1.ipynb","type":"notebook","writable":true}
> POST /api/contents
201 Created {"content":null,"created":"2001-09-09T01:46:40.123456Z","format":null,"last_modified":"2001-09-09T01:46:40.123456Z","mimetype":null,"name":"untitled","path":"untitled","type":"file","writable":true}
? untitled
""
> POST /api/contents {"ext":".Mod"}
201 Created {"content":null,"created":"2001-09-09T01:46:40.123456Z","format":null,"last_modified":"2001-09-09T01:46:40.123456Z","mimetype":null,"name":"untitled.Mod","path":"untitled.Mod","type":"file","writable":true}
> POST /api/contents {"type":"file","ext":".Mod"}
201 Created {"content":null,"created":"2001-09-09T01:46:40.123456Z","format":null,"last_modified":"2001-09-09T01:46:40.123456Z","mimetype":null,"name":"untitled1.Mod","path":"untitled1.Mod","type":"file","writable":true}
> POST /api/contents {"type":"directory"}
201 Created {"content":null,"created":"2001-09-09T01:46:40.123456Z","format":null,"last_modified":"2001-09-09T01:46:40.123456Z","mimetype":null,"name":"Untitled Folder","path":"Untitled Folder","type":"directory","writable":true}
> POST /api/contents {"type":"directory"}
201 Created {"content":null,"created":"2001-09-09T01:46:40.123456Z","format":null,"last_modified":"2001-09-09T01:46:40.123456Z","mimetype":null,"name":"Untitled Folder 1","path":"Untitled Folder 1","type":"directory","writable":true}
> POST /api/contents/Untitled%20Folder {"type":"notebook"}
201 Created {"content":null,"created":"2001-09-09T01:46:40.123456Z","format":null,"last_modified":"2001-09-09T01:46:40.123456Z","mimetype":null,"name":"Untitled.ipynb","path":"Untitled Folder/Untitled.ipynb","type":"notebook","writable":true}
-- A name that is free again.
> DELETE /api/contents/Untitled.ipynb
204 No Content
> POST /api/contents {"type":"notebook"}
201 Created {"content":null,"created":"2001-09-09T01:46:40.123456Z","format":null,"last_modified":"2001-09-09T01:46:40.123456Z","mimetype":null,"name":"Untitled.ipynb","path":"Untitled.ipynb","type":"notebook","writable":true}
> POST /api/contents {"type":"notebook"}
201 Created {"content":null,"created":"2001-09-09T01:46:40.123456Z","format":null,"last_modified":"2001-09-09T01:46:40.123456Z","mimetype":null,"name":"Untitled2.ipynb","path":"Untitled2.ipynb","type":"notebook","writable":true}
-- What the body says comes before the folder.
> POST /api/contents/no {"copy_from":"untitled"}
400 Bad Request
> POST /api/contents/no {"type":"link"}
400 Bad Request
> POST /api/contents/no {"type":7}
400 Bad Request
> POST /api/contents/no {"ext":[]}
400 Bad Request
> POST /api/contents/no {"ext":"/x"}
400 Bad Request
> POST /api/contents/no {
400 Bad Request
> POST /api/contents/no//x
400 Bad Request
> POST /api/contents/no
404 Not Found
> POST /api/contents/untitled
404 Not Found
"#;

/// A new thing gets the first name that is free.
#[test]
fn new_things(rt: HostRuntime) -> Result<(), Fail> {
    assert_play(&rt, NEW_THINGS)
}

const NEW_THINGS_BESIDE_SESSIONS: &str = r#"-- A session whose file is not there yet, in the root.
> POST /api/sessions {"path":"Untitled.ipynb","type":"notebook"}
201 Created {"id":"00000000-0000-4001-8444-444444444444","kernel":{"connections":0,"execution_state":"idle","id":"00000000-0000-4001-a222-222222222222","last_activity":"2001-09-09T01:46:40.123456Z","name":"oberon"},"name":"","path":"Untitled.ipynb","type":"notebook"}
* begin 00000000-0000-4001-a222-222222222222
> POST /api/contents {"type":"notebook"}
201 Created {"content":null,"created":"2001-09-09T01:46:40.123456Z","format":null,"last_modified":"2001-09-09T01:46:40.123456Z","mimetype":null,"name":"Untitled1.ipynb","path":"Untitled1.ipynb","type":"notebook","writable":true}
? Untitled.ipynb
no file
-- In a folder: a session takes a name in its own folder alone, and another below it takes none.
> PUT /api/contents/d {"type":"directory"}
201 Created {"content":null,"created":"2001-09-09T01:46:40.123456Z","format":null,"last_modified":"2001-09-09T01:46:40.123456Z","mimetype":null,"name":"d","path":"d","type":"directory","writable":true}
> POST /api/sessions {"path":"d/untitled.txt","type":"file"}
201 Created {"id":"00000000-0000-4003-8444-444444444444","kernel":{"connections":0,"execution_state":"idle","id":"00000000-0000-4003-a222-222222222222","last_activity":"2001-09-09T01:46:40.123456Z","name":"oberon"},"name":"","path":"d/untitled.txt","type":"file"}
* begin 00000000-0000-4003-a222-222222222222
> POST /api/sessions {"path":"d/Untitled Folder/a","type":"file"}
201 Created {"id":"00000000-0000-4004-8444-444444444444","kernel":{"connections":0,"execution_state":"idle","id":"00000000-0000-4004-a222-222222222222","last_activity":"2001-09-09T01:46:40.123456Z","name":"oberon"},"name":"","path":"d/Untitled Folder/a","type":"file"}
* begin 00000000-0000-4004-a222-222222222222
> POST /api/contents {"ext":".txt"}
201 Created {"content":null,"created":"2001-09-09T01:46:40.123456Z","format":null,"last_modified":"2001-09-09T01:46:40.123456Z","mimetype":null,"name":"untitled.txt","path":"untitled.txt","type":"file","writable":true}
> POST /api/contents/d {"ext":".txt"}
201 Created {"content":null,"created":"2001-09-09T01:46:40.123456Z","format":null,"last_modified":"2001-09-09T01:46:40.123456Z","mimetype":null,"name":"untitled1.txt","path":"d/untitled1.txt","type":"file","writable":true}
> POST /api/contents/d {"type":"directory"}
201 Created {"content":null,"created":"2001-09-09T01:46:40.123456Z","format":null,"last_modified":"2001-09-09T01:46:40.123456Z","mimetype":null,"name":"Untitled Folder","path":"d/Untitled Folder","type":"directory","writable":true}
-- The names of files and of sessions together.
> POST /api/sessions {"path":"d/untitled2.txt","type":"file"}
201 Created {"id":"00000000-0000-4008-8444-444444444444","kernel":{"connections":0,"execution_state":"idle","id":"00000000-0000-4008-a222-222222222222","last_activity":"2001-09-09T01:46:40.123456Z","name":"oberon"},"name":"","path":"d/untitled2.txt","type":"file"}
* begin 00000000-0000-4008-a222-222222222222
> POST /api/contents/d {"ext":".txt"}
201 Created {"content":null,"created":"2001-09-09T01:46:40.123456Z","format":null,"last_modified":"2001-09-09T01:46:40.123456Z","mimetype":null,"name":"untitled3.txt","path":"d/untitled3.txt","type":"file","writable":true}
-- A name is free again once its session has gone, or has gone elsewhere.
> DELETE /api/sessions/00000000-0000-4003-8444-444444444444
204 No Content
* shutdown 00000000-0000-4003-a222-222222222222
> POST /api/contents/d {"ext":".txt"}
201 Created {"content":null,"created":"2001-09-09T01:46:40.123456Z","format":null,"last_modified":"2001-09-09T01:46:40.123456Z","mimetype":null,"name":"untitled.txt","path":"d/untitled.txt","type":"file","writable":true}
> PATCH /api/sessions/00000000-0000-4008-8444-444444444444 {"path":"d/b"}
200 OK {"id":"00000000-0000-4008-8444-444444444444","kernel":{"connections":0,"execution_state":"idle","id":"00000000-0000-4008-a222-222222222222","last_activity":"2001-09-09T01:46:40.123456Z","name":"oberon"},"name":"","path":"d/b","type":"file"}
> POST /api/contents/d {"ext":".txt"}
201 Created {"content":null,"created":"2001-09-09T01:46:40.123456Z","format":null,"last_modified":"2001-09-09T01:46:40.123456Z","mimetype":null,"name":"untitled2.txt","path":"d/untitled2.txt","type":"file","writable":true}
"#;

/// A new thing takes the path of no session, whose file may not be there yet.
#[test]
fn new_things_beside_sessions(rt: HostRuntime) -> Result<(), Fail> {
    assert_play(&rt, NEW_THINGS_BESIDE_SESSIONS)
}

const OTHER_PATHS: &str = r#"> PUT /api/contents/d {"type":"directory"}
201 Created {"content":null,"created":"2001-09-09T01:46:40.123456Z","format":null,"last_modified":"2001-09-09T01:46:40.123456Z","mimetype":null,"name":"d","path":"d","type":"directory","writable":true}
> PUT /api/contents/d/a {"content":"x","format":"text","type":"file"}
201 Created {"content":null,"created":"2001-09-09T01:46:40.123456Z","format":null,"last_modified":"2001-09-09T01:46:40.123456Z","mimetype":null,"name":"a","path":"d/a","type":"file","writable":true}
> PUT /api/contents/b {"content":"y","format":"text","type":"file"}
201 Created {"content":null,"created":"2001-09-09T01:46:40.123456Z","format":null,"last_modified":"2001-09-09T01:46:40.123456Z","mimetype":null,"name":"b","path":"b","type":"file","writable":true}
> POST /api/sessions {"path":"d/a","type":"file"}
201 Created {"id":"00000000-0000-4001-8444-444444444444","kernel":{"connections":0,"execution_state":"idle","id":"00000000-0000-4001-a222-222222222222","last_activity":"2001-09-09T01:46:40.123456Z","name":"oberon"},"name":"","path":"d/a","type":"file"}
* begin 00000000-0000-4001-a222-222222222222
> POST /api/sessions {"path":"e/c","type":"file"}
201 Created {"id":"00000000-0000-4002-8444-444444444444","kernel":{"connections":0,"execution_state":"idle","id":"00000000-0000-4002-a222-222222222222","last_activity":"2001-09-09T01:46:40.123456Z","name":"oberon"},"name":"","path":"e/c","type":"file"}
* begin 00000000-0000-4002-a222-222222222222
> POST /api/sessions {"path":"da","type":"file"}
201 Created {"id":"00000000-0000-4003-8444-444444444444","kernel":{"connections":0,"execution_state":"idle","id":"00000000-0000-4003-a222-222222222222","last_activity":"2001-09-09T01:46:40.123456Z","name":"oberon"},"name":"","path":"da","type":"file"}
* begin 00000000-0000-4003-a222-222222222222
! a day goes by
> PATCH /api/contents/d {"path":"f"}
200 OK {"content":null,"created":"2001-09-09T01:46:40.123456Z","format":null,"last_modified":"2001-09-09T01:46:40.123456Z","mimetype":null,"name":"f","path":"f","type":"directory","writable":true}
> GET /api/sessions
200 OK [{"id":"00000000-0000-4001-8444-444444444444","kernel":{"connections":0,"execution_state":"idle","id":"00000000-0000-4001-a222-222222222222","last_activity":"2001-09-09T01:46:40.123456Z","name":"oberon"},"name":"","path":"f/a","type":"file"},{"id":"00000000-0000-4002-8444-444444444444","kernel":{"connections":0,"execution_state":"idle","id":"00000000-0000-4002-a222-222222222222","last_activity":"2001-09-09T01:46:40.123456Z","name":"oberon"},"name":"","path":"e/c","type":"file"},{"id":"00000000-0000-4003-8444-444444444444","kernel":{"connections":0,"execution_state":"idle","id":"00000000-0000-4003-a222-222222222222","last_activity":"2001-09-09T01:46:40.123456Z","name":"oberon"},"name":"","path":"da","type":"file"}]
> GET /api/contents/f/a
200 OK {"content":"x","created":"2001-09-09T01:46:40.123456Z","format":"text","last_modified":"2001-09-09T01:46:40.123456Z","mimetype":"text/plain","name":"a","path":"f/a","type":"file","writable":true}
> GET /api/contents/d
404 Not Found
> GET /api/contents/d/a
404 Not Found
-- The body, the two paths, then a session that would get another's path, by the names alone, and then what the shelf refuses.
> PATCH /api/contents/f/a
400 Bad Request
> PATCH /api/contents/f/a {"path":7}
400 Bad Request
> PATCH /api/contents/f/a {"path":null}
400 Bad Request
> PATCH /api/contents/f/a {"path":"x//y"}
400 Bad Request
> PATCH /api/contents/f//a {"path":"e/c"}
400 Bad Request
> PATCH /api/contents/no {"path":"x//y"}
400 Bad Request
> PATCH /api/contents/no//no {"path":"g"}
400 Bad Request
> PATCH /api/contents/f/a {"path":"e/c"}
409 Conflict
> PATCH /api/contents/e/c {"path":"f/a"}
409 Conflict
> PATCH /api/contents/da {"path":"f/a"}
409 Conflict
> PATCH /api/contents/f/a {"path":"e/d"}
404 Not Found
> PATCH /api/contents/no {"path":"b"}
404 Not Found
> PATCH /api/contents/f/a {"path":"b"}
409 Conflict
> PATCH /api/contents/b {"path":"f"}
409 Conflict
> PATCH /api/contents/f {"path":"f/g"}
400 Bad Request
> PATCH /api/contents {"path":"g"}
400 Bad Request
> PATCH /api/contents/b {"path":""}
400 Bad Request
-- Nothing of that changed anything.
> GET /api/contents
200 OK {"content":[{"content":null,"created":"2001-09-09T01:46:40.123456Z","format":null,"last_modified":"2001-09-09T01:46:40.123456Z","mimetype":null,"name":"b","path":"b","type":"file","writable":true},{"content":null,"created":"2001-09-09T01:46:40.123456Z","format":null,"last_modified":"2001-09-09T01:46:40.123456Z","mimetype":null,"name":"f","path":"f","type":"directory","writable":true}],"created":"1970-01-01T00:00:00.000000Z","format":"json","last_modified":"1970-01-01T00:00:00.000000Z","mimetype":null,"name":"","path":"","type":"directory","writable":true}
> GET /api/sessions/00000000-0000-4001-8444-444444444444
200 OK {"id":"00000000-0000-4001-8444-444444444444","kernel":{"connections":0,"execution_state":"idle","id":"00000000-0000-4001-a222-222222222222","last_activity":"2001-09-09T01:46:40.123456Z","name":"oberon"},"name":"","path":"f/a","type":"file"}
? f/a
"x"
"#;

/// A thing goes to another path, with what stands below it, its sessions and its date.
#[test]
fn other_paths(rt: HostRuntime) -> Result<(), Fail> {
    assert_play(&rt, OTHER_PATHS)
}

const DATES_OF_FILES_THAT_MOVE: &str = r#"> PUT /api/contents/d {"type":"directory"}
201 Created {"content":null,"created":"2001-09-09T01:46:40.123456Z","format":null,"last_modified":"2001-09-09T01:46:40.123456Z","mimetype":null,"name":"d","path":"d","type":"directory","writable":true}
> PUT /api/contents/d/a {"content":"x","format":"text","type":"file"}
201 Created {"content":null,"created":"2001-09-09T01:46:40.123456Z","format":null,"last_modified":"2001-09-09T01:46:40.123456Z","mimetype":null,"name":"a","path":"d/a","type":"file","writable":true}
> PUT /api/contents/d/b {"content":"x","format":"text","type":"file"}
201 Created {"content":null,"created":"2001-09-09T01:46:40.123456Z","format":null,"last_modified":"2001-09-09T01:46:40.123456Z","mimetype":null,"name":"b","path":"d/b","type":"file","writable":true}
> PUT /api/contents/da {"content":"x","format":"text","type":"file"}
201 Created {"content":null,"created":"2001-09-09T01:46:40.123456Z","format":null,"last_modified":"2001-09-09T01:46:40.123456Z","mimetype":null,"name":"da","path":"da","type":"file","writable":true}
> PUT /api/contents/g {"content":"x","format":"text","type":"file"}
201 Created {"content":null,"created":"2001-09-09T01:46:40.123456Z","format":null,"last_modified":"2001-09-09T01:46:40.123456Z","mimetype":null,"name":"g","path":"g","type":"file","writable":true}
-- Of two puts the later one counts.
! a day goes by
> PUT /api/contents/d/b {"content":"y","format":"text","type":"file"}
200 OK {"content":null,"created":"2001-09-10T01:46:40.123456Z","format":null,"last_modified":"2001-09-10T01:46:40.123456Z","mimetype":null,"name":"b","path":"d/b","type":"file","writable":true}
> GET /api/contents/d/a?content=0
200 OK {"content":null,"created":"2001-09-09T01:46:40.123456Z","format":null,"last_modified":"2001-09-09T01:46:40.123456Z","mimetype":null,"name":"a","path":"d/a","type":"file","writable":true}
-- What stands below a folder goes with it, and nothing beside it does.
> PATCH /api/contents/d {"path":"e"}
200 OK {"content":null,"created":"2001-09-09T01:46:40.123456Z","format":null,"last_modified":"2001-09-09T01:46:40.123456Z","mimetype":null,"name":"e","path":"e","type":"directory","writable":true}
> GET /api/contents/e/a?content=0
200 OK {"content":null,"created":"2001-09-09T01:46:40.123456Z","format":null,"last_modified":"2001-09-09T01:46:40.123456Z","mimetype":null,"name":"a","path":"e/a","type":"file","writable":true}
> GET /api/contents/e/b?content=0
200 OK {"content":null,"created":"2001-09-10T01:46:40.123456Z","format":null,"last_modified":"2001-09-10T01:46:40.123456Z","mimetype":null,"name":"b","path":"e/b","type":"file","writable":true}
> GET /api/contents/da?content=0
200 OK {"content":null,"created":"2001-09-09T01:46:40.123456Z","format":null,"last_modified":"2001-09-09T01:46:40.123456Z","mimetype":null,"name":"da","path":"da","type":"file","writable":true}
-- At the old path nothing is left: what comes there has the date of the start.
! somebody else makes d
> GET /api/contents/d?content=0
200 OK {"content":null,"created":"1970-01-01T00:00:00.000000Z","format":null,"last_modified":"1970-01-01T00:00:00.000000Z","mimetype":null,"name":"d","path":"d","type":"directory","writable":true}
! somebody else writes d/a
> GET /api/contents/d/a?content=0
200 OK {"content":null,"created":"1970-01-01T00:00:00.000000Z","format":null,"last_modified":"1970-01-01T00:00:00.000000Z","mimetype":null,"name":"a","path":"d/a","type":"file","writable":true}
-- It has none that could go with it.
> PATCH /api/contents/d/a {"path":"d/c"}
200 OK {"content":null,"created":"1970-01-01T00:00:00.000000Z","format":null,"last_modified":"1970-01-01T00:00:00.000000Z","mimetype":null,"name":"c","path":"d/c","type":"file","writable":true}
-- The date of what was deleted is gone.
> DELETE /api/contents/e/b
204 No Content
! somebody else writes e/b
> GET /api/contents/e/b?content=0
200 OK {"content":null,"created":"1970-01-01T00:00:00.000000Z","format":null,"last_modified":"1970-01-01T00:00:00.000000Z","mimetype":null,"name":"b","path":"e/b","type":"file","writable":true}
> GET /api/contents/e/a?content=0
200 OK {"content":null,"created":"2001-09-09T01:46:40.123456Z","format":null,"last_modified":"2001-09-09T01:46:40.123456Z","mimetype":null,"name":"a","path":"e/a","type":"file","writable":true}
-- So is that of what stood at the new path.
! somebody else removes g
> PATCH /api/contents/e/b {"path":"g"}
200 OK {"content":null,"created":"1970-01-01T00:00:00.000000Z","format":null,"last_modified":"1970-01-01T00:00:00.000000Z","mimetype":null,"name":"g","path":"g","type":"file","writable":true}
> GET /api/contents/g?content=0
200 OK {"content":null,"created":"1970-01-01T00:00:00.000000Z","format":null,"last_modified":"1970-01-01T00:00:00.000000Z","mimetype":null,"name":"g","path":"g","type":"file","writable":true}
"#;

/// A date goes with its file, and goes away with it.
#[test]
fn dates_of_files_that_move(rt: HostRuntime) -> Result<(), Fail> {
    assert_play(&rt, DATES_OF_FILES_THAT_MOVE)
}

const LARGE_FILES: &str = r#"> PUT /api/contents/b.txt {"content":"x","format":"text","type":"file"}
201 Created {"content":null,"created":"2001-09-09T01:46:40.123456Z","format":null,"last_modified":"2001-09-09T01:46:40.123456Z","mimetype":null,"name":"b.txt","path":"b.txt","type":"file","writable":true}
! the files have 67108864 bytes
> GET /api/contents/b.txt
200 OK {"content":"x","created":"2001-09-09T01:46:40.123456Z","format":"text","last_modified":"2001-09-09T01:46:40.123456Z","mimetype":"text/plain","name":"b.txt","path":"b.txt","type":"file","writable":true}
! the files have 67108865 bytes
> GET /api/contents/b.txt
400 Bad Request
> GET /api/contents/b.txt?content=0
200 OK {"content":null,"created":"2001-09-09T01:46:40.123456Z","format":null,"last_modified":"2001-09-09T01:46:40.123456Z","mimetype":null,"name":"b.txt","path":"b.txt","type":"file","writable":true}
> GET /api/contents
200 OK {"content":[{"content":null,"created":"2001-09-09T01:46:40.123456Z","format":null,"last_modified":"2001-09-09T01:46:40.123456Z","mimetype":null,"name":"b.txt","path":"b.txt","type":"file","writable":true}],"created":"1970-01-01T00:00:00.000000Z","format":"json","last_modified":"1970-01-01T00:00:00.000000Z","mimetype":null,"name":"","path":"","type":"directory","writable":true}
> PUT /api/contents/b.txt {"content":"y","format":"text","type":"file"}
200 OK {"content":null,"created":"2001-09-09T01:46:40.123456Z","format":null,"last_modified":"2001-09-09T01:46:40.123456Z","mimetype":null,"name":"b.txt","path":"b.txt","type":"file","writable":true}
"#;

/// A file of more than 67,108,864 bytes is listed and put over, and its content is not shown.
#[test]
fn large_files(rt: HostRuntime) -> Result<(), Fail> {
    assert_play(&rt, LARGE_FILES)
}
