//! Whole answers, to the byte.

use crate::plays::{answer, start};
use std::process::Abort;
use std::test::Fail;

/// The first answer of a server is just this.
fn assert_answers<R: AllocGlobal + Abort>(rt: &R, request: &str, wanted: &str) -> Result<(), Fail> {
    let mut server = start(rt.alloc())?;
    let text = answer(rt, rt.alloc(), &mut server, request)?;
    assert_eq!(rt; text.as_str(), wanted);
    Ok(())
}

#[test]
fn a_kernel_that_is_not_there(rt: HostRuntime) -> Result<(), Fail> {
    let request = "GET /api/kernels/x HTTP/1.1\r\nHost: a\r\n\r\n";
    let wanted =
        "HTTP/1.1 404 Not Found\r\nContent-Type: application/json\r\nContent-Length: 37\r\nConnection: close\r\n\r\n{\"message\":\"Not Found\",\"reason\":null}";
    assert_answers(&rt, request, wanted)
}

const FORBIDDEN: &str =
    "HTTP/1.1 403 Forbidden\r\nContent-Type: application/json\r\nContent-Length: 37\r\nConnection: close\r\n\r\n{\"message\":\"Forbidden\",\"reason\":null}";

/// Whatever it asks for: the page, a channel, a path that is unknown.
#[test]
fn requests_of_a_foreign_page(rt: HostRuntime) -> Result<(), Fail> {
    let requests = [
        "GET / HTTP/1.1\r\nHost: evil.example:8888\r\n\r\n",
        "GET /api/kernels/x/channels HTTP/1.1\r\nHost: 127.0.0.1:8888\r\nOrigin: http://evil.example\r\n\r\n",
        "GET /x HTTP/1.1\r\nHost: 127.0.0.1:8888\r\nOrigin: null\r\n\r\n",
        "POST /api/contents HTTP/1.1\r\nHost: 127.0.0.1:8888\r\nOrigin: http://evil.example\r\n\r\n",
        "DELETE / HTTP/1.1\r\nHost: 127.0.0.1:8888\r\nOrigin: http://127.0.0.1\r\n\r\n",
    ];
    for request in requests {
        assert_answers(&rt, request, FORBIDDEN)?;
    }
    Ok(())
}

#[test]
fn the_version(rt: HostRuntime) -> Result<(), Fail> {
    let request = "GET /api HTTP/1.1\r\nHost: a\r\n\r\n";
    let wanted =
        "HTTP/1.1 200 OK\r\nContent-Type: application/json\r\nContent-Length: 19\r\nConnection: close\r\n\r\n{\"version\":\"1.0.0\"}";
    assert_answers(&rt, request, wanted)
}

/// A body without Content-Length is none.
#[test]
fn a_new_kernel(rt: HostRuntime) -> Result<(), Fail> {
    let request = "POST /api/kernels HTTP/1.1\r\n\r\n";
    let wanted =
        "HTTP/1.1 201 Created\r\nContent-Type: application/json\r\nLocation: /api/kernels/00000000-0000-4001-a222-222222222222\r\nContent-Length: 148\r\nConnection: close\r\n\r\n{\"connections\":0,\"execution_state\":\"idle\",\"id\":\"00000000-0000-4001-a222-222222222222\",\"last_activity\":\"2001-09-09T01:46:40.123456Z\",\"name\":\"oberon\"}";
    assert_answers(&rt, request, wanted)
}
