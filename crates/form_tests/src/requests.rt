//! Requests of HTTP, read and refused.

use js_http::{
    Bytes, ErrorStatus, HttpRefusal, MAX_BODY_LEN, MAX_HEAD_LEN, Method, Response, Served, Stream,
    Text, path_segments, query_value, read_request, serve_one, write_response,
};
use std::alloc::Global;
use std::io;
use std::io::{ErrorKind, Read, Write};
use std::process::Abort;
use std::test::Fail;

/// Gives at most `step` bytes a read, and fails at read number `fault`, counted from 1.
#[derive(Drop)]
struct PieceReader<'a> {
    rest: &'a [u8],
    step: usize,
    reads: u64,
    fault: u64,
}

fn reader_of(bytes: &[u8], step: usize) -> PieceReader<'_> {
    PieceReader {
        rest: bytes,
        step,
        reads: 0,
        fault: 0,
    }
}

impl Read for PieceReader<'_> {
    fn read(&mut self, buf: &mut [u8]) -> io::Result<usize> {
        self.reads = self.reads.wrapping_add(1);
        if self.reads == self.fault {
            return Err(ErrorKind::Interrupted.into());
        }
        let count = self.rest.len().min(buf.len()).min(self.step);
        buf[..count].copy_from_slice(&self.rest[..count]);
        self.rest = &self.rest[count..];
        Ok(count)
    }
}

/// Takes at most `step` bytes a write, and fails at write number `fault`, counted from 1.
#[derive(Drop)]
struct Limited {
    written: Vec<u8>,
    step: usize,
    writes: u64,
    fault: u64,
}

fn writer_of(alloc: Global, step: usize, fault: u64) -> Limited {
    Limited {
        written: Vec::new(alloc),
        step,
        writes: 0,
        fault,
    }
}

impl Write for Limited {
    fn write(&mut self, buf: &[u8]) -> io::Result<usize> {
        self.writes = self.writes.wrapping_add(1);
        if self.writes == self.fault {
            return Err(ErrorKind::ConnectionReset.into());
        }
        let count = buf.len().min(self.step);
        self.written.extend_from_slice(&buf[..count])?;
        Ok(count)
    }

    fn flush(&mut self) -> io::Result<()> {
        Ok(())
    }
}

const PUT: &[u8] =
    b"\r\nPUT /api/contents/a%20b.bin?x=1&y HTTP/1.1\r\nHost: a\r\ncontent-LENGTH:  5 \r\n\r\nhello, and more";

fn refusal_of(alloc: Global, bytes: &[u8], step: usize) -> Option<HttpRefusal> {
    read_request(alloc, &mut reader_of(bytes, step)).err()
}

#[test]
fn a_request_in_pieces_of_any_size(rt: HostRuntime) -> Result<(), Fail> {
    for step in 1..100 {
        let request = read_request(rt.alloc(), &mut reader_of(PUT, step))?;
        assert_eq!(rt; request.method, Method::Put);
        assert_eq!(rt; request.target.as_str(), "/api/contents/a%20b.bin?x=1&y");
        assert_eq!(rt; request.path(), "/api/contents/a%20b.bin");
        assert_eq!(rt; request.query(), "x=1&y");
        assert_eq!(rt; request.headers.as_slice().len(), 2);
        assert_eq!(rt;
            request.headers.get(b"Content-Length"),
            Some(b"5".as_slice())
        );
        assert_eq!(rt; request.headers.get(b"cookie"), None);
        assert_eq!(rt; request.body.as_slice(), b"hello".as_slice());
    }
    Ok(())
}

#[test]
fn a_fault_before_a_request_is_whole(rt: HostRuntime) -> Result<(), Fail> {
    for fault in 1..200 {
        let mut stream = Stream {
            reader: PieceReader {
                rest: PUT,
                step: 1,
                reads: 0,
                fault,
            },
            writer: writer_of(rt.alloc(), 4, 0),
        };
        let mut was_called = false;
        let served = serve_one(rt.alloc(), &mut stream, |_request| {
            was_called = true;
            Response::NoContent
        })?;
        let Stream { reader: _, writer } = stream;
        let whole = PUT.len() as u64 - 10;
        assert_eq!(rt; was_called, fault > whole);
        assert_eq!(rt; writer.written.is_empty(), fault <= whole);
        if fault <= whole {
            assert_eq!(rt; served, Served::Unanswered(HttpRefusal::Ended));
        } else {
            assert_eq!(rt; served, Served::Answered);
        }
    }
    Ok(())
}

#[test]
fn a_stream_that_ends_before_a_request_is_whole(rt: HostRuntime) -> Result<(), Fail> {
    for end in 0..PUT.len() - 10 {
        assert_eq!(rt;
            refusal_of(rt.alloc(), &PUT[..end], 3),
            Some(HttpRefusal::Ended)
        );
    }
    assert_eq!(rt; refusal_of(rt.alloc(), &PUT[..PUT.len() - 10], 3), None);
    Ok(())
}

/// A head of that length, which has one long header line.
fn head_of_len(alloc: Global, len: usize) -> Result<Vec<u8>, Fail> {
    let mut head = Vec::from_slice(alloc, b"GET / HTTP/1.1\r\nx: ")?;
    for _ in 0..len.saturating_sub(23) {
        head.push(b'a')?;
    }
    head.extend_from_slice(b"\r\n\r\n")?;
    Ok(head)
}

#[test]
fn heads_up_to_the_limit(rt: HostRuntime) -> Result<(), Fail> {
    let head = head_of_len(rt.alloc(), MAX_HEAD_LEN)?;
    assert_eq!(rt; head.len(), 16_384);
    assert_eq!(rt; refusal_of(rt.alloc(), &head, 16_384), None);
    assert_eq!(rt; refusal_of(rt.alloc(), &head, 1), None);
    let head = head_of_len(rt.alloc(), MAX_HEAD_LEN + 1)?;
    assert_eq!(rt;
        refusal_of(rt.alloc(), &head, 16_384),
        Some(HttpRefusal::HeaderFieldsTooLarge)
    );
    assert_eq!(rt;
        refusal_of(rt.alloc(), &head, 1),
        Some(HttpRefusal::HeaderFieldsTooLarge)
    );
    Ok(())
}

fn head_of_lines(alloc: Global, lines: u32) -> Result<Vec<u8>, Fail> {
    let mut head = Vec::from_slice(alloc, b"GET / HTTP/1.0\n")?;
    for _ in 0..lines {
        head.extend_from_slice(b"a:b\n")?;
    }
    head.extend_from_slice(b"\n")?;
    Ok(head)
}

#[test]
fn header_lines_up_to_the_limit(rt: HostRuntime) -> Result<(), Fail> {
    for step in 1..9 {
        let head = head_of_lines(rt.alloc(), 64)?;
        assert_eq!(rt; refusal_of(rt.alloc(), &head, step), None);
        let head = head_of_lines(rt.alloc(), 65)?;
        assert_eq!(rt;
            refusal_of(rt.alloc(), &head, step),
            Some(HttpRefusal::HeaderFieldsTooLarge)
        );
    }
    Ok(())
}

#[test]
fn refusals(rt: HostRuntime) -> Result<(), Fail> {
    let table: [(&str, HttpRefusal); 12] = [
        ("GET\r\n\r\n", HttpRefusal::BadRequest),
        ("GET / HTTP/2.0\r\n\r\n", HttpRefusal::BadRequest),
        ("GET / HTTP/1.1\r\na b: c\r\n\r\n", HttpRefusal::BadRequest),
        (
            "GET / HTTP/1.1\r\nContent-Length: x\r\n\r\n",
            HttpRefusal::BadRequest,
        ),
        (
            "GET / HTTP/1.1\r\nContent-Length:\r\n\r\n",
            HttpRefusal::BadRequest,
        ),
        (
            "GET / HTTP/1.1\r\nContent-Length: +1\r\n\r\nx",
            HttpRefusal::BadRequest,
        ),
        (
            "GET / HTTP/1.1\r\nContent-Length: 1\r\nContent-Length: 2\r\n\r\nxy",
            HttpRefusal::BadRequest,
        ),
        (
            "GET / HTTP/1.1\r\nTransfer-Encoding: chunked\r\nContent-Length: 16777217\r\n\r\n",
            HttpRefusal::NotImplemented,
        ),
        (
            "PUT / HTTP/1.1\r\nTransfer-Encoding: chunked\r\n\r\n",
            HttpRefusal::NotImplemented,
        ),
        ("PUT / HTTP/1.1\r\n\r\n", HttpRefusal::LengthRequired),
        ("PATCH / HTTP/1.1\r\n\r\n", HttpRefusal::LengthRequired),
        (
            "POST / HTTP/1.1\r\nContent-Length: 16777217\r\n\r\n",
            HttpRefusal::ContentTooLarge,
        ),
    ];
    for step in 1..50 {
        for (text, refusal) in &table {
            assert_eq!(rt;
                refusal_of(rt.alloc(), text.as_bytes(), step),
                Some(*refusal),
                "{text:?}"
            );
        }
    }
    let same = "GET / HTTP/1.1\r\nContent-Length: 2\r\nContent-Length: 2\r\n\r\nxy";
    assert_eq!(rt; refusal_of(rt.alloc(), same.as_bytes(), 1), None);
    let huge = "PUT / HTTP/1.1\r\nContent-Length: 99999999999999999999999\r\n\r\n";
    assert_eq!(rt;
        refusal_of(rt.alloc(), huge.as_bytes(), 1),
        Some(HttpRefusal::ContentTooLarge)
    );
    Ok(())
}

/// What is written of the response by a writer that fails at that write, and whether all was.
fn written(alloc: Global, response: &Response, step: usize, fault: u64) -> (Vec<u8>, bool) {
    let mut writer = writer_of(alloc, step, fault);
    let is_ok = write_response(&mut writer, response).is_ok();
    (writer.written, is_ok)
}

/// A writer that fails has taken a beginning of the response. One that takes it whole is asked once.
fn expect_cuts(rt: &impl Abort, alloc: Global, response: &Response, text: &str) {
    for fault in 1..200 {
        let (bytes, is_ok) = written(alloc, response, 1, fault);
        assert!(rt; text.as_bytes().starts_with(&bytes));
        assert_eq!(rt; is_ok, bytes.len() == text.len());
    }
    let (bytes, is_ok) = written(alloc, response, 1000, 2);
    assert!(rt; is_ok);
    assert_eq!(rt; bytes.as_slice(), text.as_bytes());
}

#[test]
fn responses_and_their_beginnings(rt: HostRuntime) -> Result<(), Fail> {
    let version = Bytes::from(Vec::from_slice(rt.alloc(), b"{\"version\":\"1.0.0\"}")?);
    expect_cuts(
        &rt,
        rt.alloc(),
        &Response::Success(version),
        "HTTP/1.1 200 OK\r\nContent-Type: application/json\r\nContent-Length: 19\r\nConnection: close\r\n\r\n{\"version\":\"1.0.0\"}",
    );
    let location = Text::from(String::from_str(rt.alloc(), "/api/kernels/x")?);
    let content = Bytes::from(Vec::from_slice(rt.alloc(), b"{}")?);
    expect_cuts(
        &rt,
        rt.alloc(),
        &Response::Created(Some(location), content),
        "HTTP/1.1 201 Created\r\nContent-Type: application/json\r\nLocation: /api/kernels/x\r\nContent-Length: 2\r\nConnection: close\r\n\r\n{}",
    );
    expect_cuts(
        &rt,
        rt.alloc(),
        &Response::NoContent,
        "HTTP/1.1 204 No Content\r\nConnection: close\r\n\r\n",
    );
    let accept = Text::from(String::from_str(rt.alloc(), "s3pPLMBiTxaQ9kYGzzhZRbK+xOo=")?);
    expect_cuts(
        &rt,
        rt.alloc(),
        &Response::SwitchingProtocols {
            accept,
            protocol: None,
        },
        "HTTP/1.1 101 Switching Protocols\r\nUpgrade: websocket\r\nConnection: Upgrade\r\nSec-WebSocket-Accept: s3pPLMBiTxaQ9kYGzzhZRbK+xOo=\r\n\r\n",
    );
    expect_cuts(
        &rt,
        rt.alloc(),
        &Response::Refused(ErrorStatus::NotFound),
        "HTTP/1.1 404 Not Found\r\nContent-Type: application/json\r\nContent-Length: 37\r\nConnection: close\r\n\r\n{\"message\":\"Not Found\",\"reason\":null}",
    );
    Ok(())
}

/// The page is no JSON, and its length is that of its bytes.
#[test]
fn a_page_and_its_beginning(rt: HostRuntime) -> Result<(), Fail> {
    let text =
        "HTTP/1.1 200 OK\r\nContent-Type: text/html\r\nContent-Length: 14\r\nConnection: close\r\n\r\n<p>\u{e9}, \u{2026}</p>";
    let mut writer = writer_of(rt.alloc(), 1000, 0);
    let page = String::from_str(rt.alloc(), "<p>\u{e9}, \u{2026}</p>")?;
    write_response(&mut writer, &Response::Page(Text::from(page)))?;
    assert_eq!(rt; writer.written.as_slice(), text.as_bytes());
    let mut writer = writer_of(rt.alloc(), 7, 4);
    let page = Text::from(String::from_str(rt.alloc(), "<p>")?);
    assert!(rt; write_response(&mut writer, &Response::Page(page)).is_err());
    assert_eq!(rt;
        writer.written.as_slice(),
        b"HTTP/1.1 200 OK\r\nCont".as_slice()
    );
    Ok(())
}

#[test]
fn a_refused_request_is_not_asked_about(rt: HostRuntime) -> Result<(), Fail> {
    let mut stream = Stream {
        reader: reader_of(b"PUT / HTTP/1.1\r\n\r\n", 4),
        writer: writer_of(rt.alloc(), 4, 0),
    };
    let mut was_called = false;
    let served = serve_one(rt.alloc(), &mut stream, |_request| {
        was_called = true;
        Response::NoContent
    })?;
    assert_eq!(rt; served, Served::Unanswered(HttpRefusal::LengthRequired));
    assert!(rt; !was_called);
    let Stream { reader: _, writer } = stream;
    let text =
        "HTTP/1.1 411 Length Required\r\nContent-Type: application/json\r\nContent-Length: 43\r\nConnection: close\r\n\r\n{\"message\":\"Length Required\",\"reason\":null}";
    assert_eq!(rt; writer.written.as_slice(), text.as_bytes());
    Ok(())
}

/// What is written to a client whose bytes come in pieces of that length, and whose request is answered by 204.
fn written_to(alloc: Global, bytes: &[u8], step: usize) -> io::Result<Vec<u8>> {
    let mut stream = Stream {
        reader: reader_of(bytes, step),
        writer: writer_of(alloc, 1000, 0),
    };
    let _ = serve_one(alloc, &mut stream, |_request| Response::NoContent)?;
    let Stream { reader: _, writer } = stream;
    Ok(writer.written)
}

#[test]
fn a_client_that_waits_is_told_that_its_body_may_come(rt: HostRuntime) -> Result<(), Fail> {
    let answer = "HTTP/1.1 204 No Content\r\nConnection: close\r\n\r\n";
    let waits = "PUT / HTTP/1.1\r\nExpect: 100-Continue\r\nContent-Length: 4\r\n\r\nbody";
    let older = "PUT / HTTP/1.0\r\nExpect: 100-continue\r\nContent-Length: 4\r\n\r\nbody";
    let refused = "PUT / HTTP/1.1\r\nExpect: 100-continue\r\n\r\nbody";
    let mut told = String::from_str(rt.alloc(), "HTTP/1.1 100 Continue\r\n\r\n")?;
    told.push_str(answer)?;
    let first = waits.len() - 4;
    assert_eq!(rt;
        written_to(rt.alloc(), waits.as_bytes(), first)?.as_slice(),
        told.as_bytes()
    );
    assert_eq!(rt;
        written_to(rt.alloc(), waits.as_bytes(), 1000)?.as_slice(),
        answer.as_bytes()
    );
    assert_eq!(rt;
        written_to(rt.alloc(), older.as_bytes(), first)?.as_slice(),
        answer.as_bytes()
    );
    let text = written_to(rt.alloc(), refused.as_bytes(), 20)?;
    assert!(rt; text.starts_with(b"HTTP/1.1 411"));
    Ok(())
}

/// What is written to such a client, one byte a write, where the write of that number fails, and whether it was served.
fn cut_at(alloc: Global, bytes: &[u8], step: usize, fault: u64) -> (Vec<u8>, bool) {
    let mut stream = Stream {
        reader: reader_of(bytes, step),
        writer: writer_of(alloc, 1, fault),
    };
    let served = serve_one(alloc, &mut stream, |_request| Response::NoContent);
    let is_served = served.is_ok();
    let Stream { reader: _, writer } = stream;
    (writer.written, is_served)
}

/// Where a write fails, what was written before it is a beginning of all that is due: that the body may come, and the answer.
#[test]
fn each_write_to_a_client_fails(rt: HostRuntime) -> Result<(), Fail> {
    let waits = "PUT / HTTP/1.1\r\nExpect: 100-continue\r\nContent-Length: 4\r\n\r\nbody";
    let all = "HTTP/1.1 100 Continue\r\n\r\nHTTP/1.1 204 No Content\r\nConnection: close\r\n\r\n";
    let first = waits.len() - 4;
    for before in 0..100_usize {
        let (written, is_served) = cut_at(rt.alloc(), waits.as_bytes(), first, before as u64 + 1);
        assert!(rt; all.as_bytes().starts_with(&written), "{before}");
        assert_eq!(rt; written.len(), before.min(all.len()));
        assert_eq!(rt; is_served, before >= all.len());
    }
    Ok(())
}

#[test]
fn a_body_of_the_longest_length(rt: HostRuntime) -> Result<(), Fail> {
    let mut bytes = Vec::from_slice(
        rt.alloc(),
        b"POST / HTTP/1.1\r\nContent-Length: 16777216\r\n\r\n",
    )?;
    let head = bytes.len();
    bytes.resize(head.saturating_add(MAX_BODY_LEN as usize), b'x')?;
    let request = read_request(rt.alloc(), &mut reader_of(&bytes, 65_536))?;
    assert_eq!(rt; request.body.as_slice().len(), 16_777_216);
    assert_eq!(rt; request.body.into_vec().pop(), Some(b'x'));
    bytes.pop();
    assert_eq!(rt;
        refusal_of(rt.alloc(), &bytes, 65_536),
        Some(HttpRefusal::Ended)
    );
    Ok(())
}

#[test]
fn segments_and_fields(rt: HostRuntime) -> Result<(), Fail> {
    let segments = path_segments(rt.alloc(), "/api/contents/a%20b.bin%2F%ff/")?;
    let expected: [&[u8]; 5] = [b"", b"api", b"contents", b"a b.bin/\xff", b""];
    assert_eq!(rt; segments.as_slice().len(), 5);
    for (segment, bytes) in segments.as_slice().iter().zip(expected) {
        assert_eq!(rt; segment.as_slice(), bytes);
    }
    let query = "content=1&type=file&name=a+b%20c&content=0";
    let content = query_value(rt.alloc(), query, "content")?;
    assert_eq!(rt;
        content.map(Text::into_string),
        Some(String::from_str(rt.alloc(), "0")?)
    );
    let name = query_value(rt.alloc(), query, "name")?;
    assert_eq!(rt;
        name.map(Text::into_string),
        Some(String::from_str(rt.alloc(), "a b c")?)
    );
    assert!(rt; query_value(rt.alloc(), query, "format")?.is_none());
    Ok(())
}

/// A slash that is escaped stays inside its segment, and two slashes have an empty one between them: who joins
/// segments to a path has to refuse both.
#[test]
fn a_segment_may_hold_a_slash_or_nothing(rt: HostRuntime) -> Result<(), Fail> {
    let segments = path_segments(rt.alloc(), "/a%2Fb//..")?;
    let expected: [&[u8]; 4] = [b"", b"a/b", b"", b".."];
    assert_eq!(rt; segments.as_slice().len(), 4);
    for (segment, bytes) in segments.as_slice().iter().zip(expected) {
        assert_eq!(rt; segment.as_slice(), bytes);
    }
    Ok(())
}
