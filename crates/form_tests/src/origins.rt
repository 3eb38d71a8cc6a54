//! Whose requests are answered: heads as browsers, gateways and programs send them, and those of foreign pages.

use js_http::{is_own, read_request};
use std::alloc::Global;
use std::process::Abort;
use std::test::Fail;

/// Whether a request with these header lines is answered.
fn is_answered<R: Abort>(rt: &R, alloc: Global, lines: &str) -> Result<bool, Fail> {
    let head = format!(in alloc; "GET /api HTTP/1.1\r\n{lines}\r\n")?;
    let mut bytes = head.as_str().as_bytes();
    match read_request(alloc, &mut bytes) {
        Ok(request) => Ok(is_own(&request.headers)),
        Err(_) => panic!(rt; "no request: {lines}"),
    }
}

#[test]
fn requests_of_this_machine(rt: HostRuntime) -> Result<(), Fail> {
    let answered = [
        // The page in a browser, and a name that somebody gave this machine.
        "Host: 127.0.0.1:8888\r\nConnection: keep-alive\r\nAccept: */*\r\nReferer: http://127.0.0.1:8888/\r\n",
        "Host: 127.0.0.1:8888\r\nOrigin: http://127.0.0.1:8888\r\nContent-Type: text/plain;charset=UTF-8\r\n",
        "Host: localhost:8888\r\nUpgrade: websocket\r\nConnection: Upgrade\r\nOrigin: http://localhost:8888\r\n",
        "Host: oberon.localhost:8888\r\nOrigin: http://oberon.localhost:8888\r\n",
        "Host: teacher-pc:8888\r\nOrigin: http://teacher-pc:8888\r\n",
        "Host: [::1]:8888\r\nOrigin: http://[::1]:8888\r\n",
        "Host: 127.0.0.1\r\nOrigin: http://127.0.0.1\r\n",
        // A gateway's, curl's, and those of python and node.
        "Accept-Encoding: identity\r\nHost: 127.0.0.1:8888\r\nUser-Agent: Tornado/6.2\r\nAuthorization: token \r\n",
        "Upgrade: websocket\r\nHost: 127.0.0.1:8888\r\nOrigin: http://127.0.0.1:8888\r\nSec-WebSocket-Version: 13\r\n",
        "Host: 127.0.0.1:8888\r\nUser-Agent: curl/7.88.1\r\nAccept: */*\r\n",
        "Host: localhost:8888\r\nUser-Agent: python-requests/2.28.1\r\nConnection: keep-alive\r\n",
        "host: localhost:8888\r\nconnection: keep-alive\r\nsec-fetch-mode: cors\r\nuser-agent: node\r\n",
        // Any case, any address of this machine, and a Host that is short, empty or absent.
        "Host: LocalHost:8888\r\n",
        "hOsT: a.LOCALHOST\r\n",
        "Host: 127.255.0.9:1\r\n",
        "Host: a\r\n",
        "Host:\r\n",
        "Host: a\r\nHost: a\r\n",
        "",
    ];
    for lines in answered {
        assert!(rt; is_answered(&rt, rt.alloc(), lines)?, "{lines}");
    }
    Ok(())
}

#[test]
fn requests_of_others(rt: HostRuntime) -> Result<(), Fail> {
    let refused = [
        // A page of another site, another port or another scheme, and one that has no origin to tell.
        "Host: 127.0.0.1:8888\r\nOrigin: http://evil.example\r\n",
        "Host: 127.0.0.1:8888\r\nOrigin: http://127.0.0.1:8889\r\n",
        "Host: 127.0.0.1:8888\r\nOrigin: http://127.0.0.1\r\n",
        "Host: 127.0.0.1:8888\r\nOrigin: https://127.0.0.1:8888\r\n",
        "Host: 127.0.0.1:8888\r\nOrigin: http://localhost:8888\r\n",
        "Host: 127.0.0.1:8888\r\nOrigin: http://127.0.0.1:88888\r\n",
        "Host: 127.0.0.1:8888\r\nOrigin: null\r\n",
        "Host: 127.0.0.1:8888\r\nOrigin:\r\n",
        "Host: 127.0.0.1:8888\r\nOrigin: http://127.0.0.1:8888\r\norigin: http://evil.example\r\n",
        "Origin: http://127.0.0.1:8888\r\n",
        // A name that somebody leads to this machine, also with the Origin that then goes with it.
        "Host: evil.example:8888\r\n",
        "Host: evil.example:8888\r\nOrigin: http://evil.example:8888\r\n",
        "Host: 127.0.0.1.evil.example\r\n",
        "Host: localhost.evil.example\r\n",
        "Host: evillocalhost.\r\n",
        "Host: localhost.\r\n",
        "Host: 127.0.0.256\r\n",
        "Host: 127.0.0\r\n",
        "Host: 127.0.0.0.1\r\n",
        "Host: 126.0.0.1\r\n",
        "Host: 192.168.1.2:8888\r\n",
        "Host: [::2]:8888\r\n",
        "Host: [2001:db8::1]\r\n",
        "Host: [::1]evil.example\r\n",
        "Host: localhost:8888.evil.example\r\n",
        "Host: a@localhost\r\n",
        "Host: 127.0.0.1\r\nHost: evil.example\r\n",
        "Host: a\r\nHost: b\r\n",
    ];
    for lines in refused {
        assert!(rt; !is_answered(&rt, rt.alloc(), lines)?, "{lines}");
    }
    Ok(())
}
