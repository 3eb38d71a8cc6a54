//! Responses to a writer.
ghost use Rattle.std.specs.Prelude.{◌≡◌, ◌+◌, ◌<◌, ◌≤◌, ◌++◌, ℕ, List, [], Some, None, IsOk, OnOk, length, codes};
ghost use Rattle.std.specs.Io.KnownBytes.{Appends};
ghost use Rattle.std.specs.List.{flat_map};
ghost use Rattle.js_http.specs.Writing.{WritesFront};
ghost use Rattle.js_http.specs.Responses.{location_line, lines_text, content_text, page_text, switch_text, response_text};

use crate::Response;
use arrayvec::ArrayVec;
use itoa::Buffer;
use std::io;
use std::io::{ErrorKind, Write};

/// How many bytes are gathered for one write.
const ROOM: usize = 4_096;

/// Writes all the bytes, or stops at the first fault.
pub(crate) fn write_bytes<W: Write>(writer: &mut W, bytes: &[u8]) -> io::Result<()>
    ensures { WritesFront (W.contents writer.old) (W.contents writer.new) bytes.now result }
{
    let mut rest = bytes;
    'rest: while !rest.is_empty() {
        let count = writer.write(rest)?;
        if count == 0 {
            return Err(ErrorKind::WriteZero.into());
        }
        rest = &rest[count..];
    }
    Ok(())
}

/// Adds a part to what is gathered for one write. Where there is no room for it, what was gathered is written first, and a part
/// that is longer than the room is written at once.
fn add_part<W: Write>(
    writer: &mut W,
    gathered: &mut ArrayVec<u8, ROOM>,
    part: &[u8],
) -> io::Result<()>
    ensures bytes { (gone : List ℕ) × (rest : List ℕ) × Appends (W.contents writer.old) (W.contents writer.new) gone
        × (gathered.old.items ++ part.now ≡ gone ++ rest) × OnOk result (rest ≡ gathered.new.items) }
    ensures fits { length gathered.old.items + length part.now ≤ 4096 →
        IsOk result × (writer.new ≡ writer.old) × (gathered.new.items ≡ gathered.old.items ++ part.now) }
{
    if gathered.try_extend_from_slice(part).is_ok() {
        return Ok(());
    }
    write_bytes(writer, gathered.as_slice())?;
    gathered.clear();
    if gathered.try_extend_from_slice(part).is_ok() {
        return Ok(());
    }
    write_bytes(writer, part)
}

/// Writes the parts one after the other, as many at once as there is room for.
fn write_parts<W: Write>(writer: &mut W, parts: &[&[u8]]) -> io::Result<()>
    ensures { WritesFront (W.contents writer.old) (W.contents writer.new) (flat_map (λ part. part.now) parts.now) result }
{
    let mut gathered = ArrayVec::new();
    for part in parts {
        add_part(writer, &mut gathered, part)?;
    }
    write_bytes(writer, gathered.as_slice())
}

/// Writes a response whose content is of that type and has `len` bytes, in digits.
fn write_lines<'t, W: Write>(
    writer: &mut W,
    status_line: &'t str,
    kind: &'t str,
    len: &'t str,
    body: &'t [u8],
) -> io::Result<()>
    ensures { WritesFront (W.contents writer.old) (W.contents writer.new)
        (lines_text status_line.now kind.now [] len.now body.now) result }
{
    write_parts(
        writer,
        &[
            status_line.as_bytes(),
            b"\r\nContent-Type: ",
            kind.as_bytes(),
            b"\r\nContent-Length: ",
            len.as_bytes(),
            b"\r\nConnection: close\r\n\r\n",
            body,
        ],
    )
}

/// The same for JSON, with a line that says where a new thing is.
fn write_located_lines<'t, W: Write>(
    writer: &mut W,
    status_line: &'t str,
    location: &'t str,
    len: &'t str,
    body: &'t [u8],
) -> io::Result<()>
    ensures { WritesFront (W.contents writer.old) (W.contents writer.new)
        (lines_text status_line.now (codes "application/json") (location_line (Some location.now)) len.now body.now) result }
{
    write_parts(
        writer,
        &[
            status_line.as_bytes(),
            b"\r\nContent-Type: application/json\r\nLocation: ",
            location.as_bytes(),
            b"\r\nContent-Length: ",
            len.as_bytes(),
            b"\r\nConnection: close\r\n\r\n",
            body,
        ],
    )
}

fn write_content<W: Write>(writer: &mut W, status_line: &str, body: &[u8]) -> io::Result<()>
    ensures { WritesFront (W.contents writer.old) (W.contents writer.new)
        (content_text status_line.now None body.now) result }
{
    let mut buffer = Buffer::new();
    let len = buffer.format(body.len());
    write_lines(writer, status_line, "application/json", len, body)
}

fn write_located<W: Write>(
    writer: &mut W,
    status_line: &str,
    location: &str,
    body: &[u8],
) -> io::Result<()>
    ensures { WritesFront (W.contents writer.old) (W.contents writer.new)
        (content_text status_line.now (Some location.now) body.now) result }
{
    let mut buffer = Buffer::new();
    let len = buffer.format(body.len());
    write_located_lines(writer, status_line, location, len, body)
}

fn write_switch<W: Write>(writer: &mut W, accept: &str) -> io::Result<()>
    ensures { WritesFront (W.contents writer.old) (W.contents writer.new) (switch_text accept.now None) result }
{
    write_parts(
        writer,
        &[
            b"HTTP/1.1 101 Switching Protocols\r\nUpgrade: websocket\r\nConnection: Upgrade\r\nSec-WebSocket-Accept: ",
            accept.as_bytes(),
            b"\r\n\r\n",
        ],
    )
}

/// The same with the line of a protocol that is chosen.
fn write_protocol_switch<W: Write>(writer: &mut W, accept: &str, protocol: &str) -> io::Result<()>
    ensures { WritesFront (W.contents writer.old) (W.contents writer.new) (switch_text accept.now (Some protocol.now)) result }
{
    write_parts(
        writer,
        &[
            b"HTTP/1.1 101 Switching Protocols\r\nUpgrade: websocket\r\nConnection: Upgrade\r\nSec-WebSocket-Accept: ",
            accept.as_bytes(),
            b"\r\nSec-WebSocket-Protocol: ",
            protocol.as_bytes(),
            b"\r\n\r\n",
        ],
    )
}

/// Writes the response whose content is a page for a browser.
fn write_page<W: Write>(writer: &mut W, page: &str) -> io::Result<()>
    ensures { WritesFront (W.contents writer.old) (W.contents writer.new) (page_text page.now) result }
{
    let mut buffer = Buffer::new();
    let len = buffer.format(page.len());
    write_lines(writer, "HTTP/1.1 200 OK", "text/html", len, page.as_bytes())
}

/// Writes the bytes of a response, and takes no memory. Where a write fails, is interrupted or takes nothing, that is
/// the answer, and what was written is a beginning of them.
#[tactic(auto, unfolding(crate::specs::Responses::response_text))]
pub fn write_response<W: Write>(writer: &mut W, response: &Response) -> io::Result<()>
    ensures { WritesFront (W.contents writer.old) (W.contents writer.new) (response_text response.now) result }
{
    match response {
        Response::Success(body) => write_content(writer, "HTTP/1.1 200 OK", body.as_slice()),
        Response::Created(None, body) => {
            write_content(writer, "HTTP/1.1 201 Created", body.as_slice())
        }
        Response::Created(Some(location), body) => write_located(
            writer,
            "HTTP/1.1 201 Created",
            location.as_str(),
            body.as_slice(),
        ),
        Response::NoContent => write_bytes(
            writer,
            b"HTTP/1.1 204 No Content\r\nConnection: close\r\n\r\n",
        ),
        Response::SwitchingProtocols {
            accept,
            protocol: None,
        } => write_switch(writer, accept.as_str()),
        Response::SwitchingProtocols {
            accept,
            protocol: Some(name),
        } => write_protocol_switch(writer, accept.as_str(), name.as_str()),
        Response::Refused(status) => {
            write_content(writer, status.line(), status.content().as_bytes())
        }
        Response::Page(page) => write_page(writer, page.as_str()),
    }
}
