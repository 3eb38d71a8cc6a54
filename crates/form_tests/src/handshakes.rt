//! Handshakes of WebSockets.

use js_http::{HttpRefusal, Response, read_request};
use js_ws::{accept_value, handshake};
use std::alloc::Global;
use std::process::Abort;
use std::test::Fail;

#[test]
fn the_example_of_the_standard(rt: HostRuntime) -> Result<(), Fail> {
    let value = accept_value(rt.alloc(), "dGhlIHNhbXBsZSBub25jZQ==")?;
    assert_eq!(rt; value.as_str(), "s3pPLMBiTxaQ9kYGzzhZRbK+xOo=");
    Ok(())
}

/// The answer to a request with this head: the accept value, or nothing where the request is bad.
fn answer_to<R: Abort>(rt: &R, alloc: Global, head: &str) -> Option<String> {
    let mut bytes = head.as_bytes();
    let Ok(request) = read_request(alloc, &mut bytes) else {
        panic!(rt; "the head is one of a request");
    };
    match handshake(alloc, &request) {
        Ok(
            Response::SwitchingProtocols {
                accept,
                protocol: None,
            },
        ) => Some(accept.into_string()),
        Ok(_) => panic!(rt; "the answer switches protocols"),
        Err(HttpRefusal::BadRequest) => None,
        Err(_) => panic!(rt; "there is memory"),
    }
}

#[test]
fn requests_that_open_a_channel(rt: HostRuntime) -> Result<(), Fail> {
    let alloc = rt.alloc();
    let asked =
        "GET /api HTTP/1.1\r\nUpgrade: websocket\r\nConnection: Upgrade\r\nSec-WebSocket-Version: 13\r\nSec-WebSocket-Key: dGhlIHNhbXBsZSBub25jZQ==\r\n\r\n";
    let listed =
        "GET /api HTTP/1.1\r\nUpgrade: WebSocket\r\nConnection: keep-alive, Upgrade\r\nSec-WebSocket-Version: 13\r\nSec-WebSocket-Key: dGhlIHNhbXBsZSBub25jZQ==\r\n\r\n";
    for head in [asked, listed] {
        let Some(value) = answer_to(&rt, alloc, head) else {
            panic!(rt; "{head}");
        };
        assert_eq!(rt; value.as_str(), "s3pPLMBiTxaQ9kYGzzhZRbK+xOo=");
    }
    Ok(())
}

#[test]
fn requests_that_open_none(rt: HostRuntime) -> Result<(), Fail> {
    let alloc = rt.alloc();
    let heads = [
        "POST /api HTTP/1.1\r\nContent-Length: 0\r\nUpgrade: websocket\r\nConnection: Upgrade\r\nSec-WebSocket-Version: 13\r\nSec-WebSocket-Key: dGhlIHNhbXBsZSBub25jZQ==\r\n\r\n",
        "GET /api HTTP/1.1\r\nConnection: Upgrade\r\nSec-WebSocket-Version: 13\r\nSec-WebSocket-Key: dGhlIHNhbXBsZSBub25jZQ==\r\n\r\n",
        "GET /api HTTP/1.1\r\nUpgrade: websocket\r\nConnection: close\r\nSec-WebSocket-Version: 13\r\nSec-WebSocket-Key: dGhlIHNhbXBsZSBub25jZQ==\r\n\r\n",
        "GET /api HTTP/1.1\r\nUpgrade: websocket\r\nConnection: Upgrade\r\nSec-WebSocket-Version: 8\r\nSec-WebSocket-Key: dGhlIHNhbXBsZSBub25jZQ==\r\n\r\n",
        "GET /api HTTP/1.1\r\nUpgrade: websocket\r\nConnection: Upgrade\r\nSec-WebSocket-Key: dGhlIHNhbXBsZSBub25jZQ==\r\n\r\n",
        "GET /api HTTP/1.1\r\nUpgrade: websocket\r\nConnection: Upgrade\r\nSec-WebSocket-Version: 13\r\nSec-WebSocket-Key: dGhlIHNhbXBsZQ==\r\n\r\n",
        "GET /api HTTP/1.1\r\nUpgrade: websocket\r\nConnection: Upgrade\r\nSec-WebSocket-Version: 13\r\n\r\n",
    ];
    for head in heads {
        assert!(rt; answer_to(&rt, alloc, head).is_none());
    }
    Ok(())
}
