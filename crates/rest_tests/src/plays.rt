//! Plays: what a server is asked, and what it answers.
//!
//! A line of a play that begins with one of these signs does something; a line of another kind is an answer.
//! - `> METHOD TARGET BODY` is a request, whose body may be missing. Its answer follows, and the notes that the kernels took.
//! - `~ METHOD TARGET BODY` is a request that is asked again and again, where the shelf fails at its first call, at its second,
//!   and so on, until a failure comes after the last. Of equal answers one after another the first follows.
//! - `? PATH` shows the file at a path.
//! - `! EVENT` is an event.
//! - `-- ` begins a remark.

use crate::notes::Notes;
use js_http::{Response, read_request, write_response};
use js_rest::Manager;
use js_shelf::{Bytes, Item, Shelf};
use js_tables::{Answer, Given, Update, date_text};
use json_form::Text;
use std::alloc::Global;
use std::process::Abort;
use std::test::Fail;
use test_shelf::FailingShelf;

/// 9 September 2001, and a day later, in microseconds since 1970.
const TODAY: u64 = 1_000_000_000_123_456;

const TOMORROW: u64 = 1_000_086_400_123_456;

/// A server, with the shelf that it serves. It started at the beginning of 1970. The kernel and the session that its nth POST
/// makes have `400n` in their identifiers.
#[derive(Drop)]
pub(crate) struct Server {
    pub(crate) manager: Manager<Notes>,
    pub(crate) shelf: FailingShelf,
    posts: u64,
    is_tomorrow: bool,
}

/// A server over a shelf with nothing below its root.
pub(crate) fn start(alloc: Global) -> Result<Server, Fail> {
    let shelf = FailingShelf::new(alloc)?;
    let date = date_text(alloc, 0)?;
    let manager = Manager::new(alloc, date, Notes::new(alloc))?;
    Ok(Server {
        manager,
        shelf,
        posts: 0,
        is_tomorrow: false,
    })
}

/// The bytes of a response, which are text.
fn written(alloc: Global, response: &Response) -> Result<String, Fail> {
    let mut bytes = Vec::new(alloc);
    write_response(&mut bytes, response)?;
    Ok(String::from_utf8(bytes)?)
}

/// A kernel has ended, and its recorder was told all that it showed.
fn ended(alloc: Global, server: &mut Server, id: Text) -> Result<String, Fail> {
    server.manager.tables.make_room()?;
    server.manager.tables.update(Update::DropKernel(id));
    written(alloc, &Response::NoContent)
}

/// What the text of a request is answered: the text of a response, or whose channels are to be opened.
pub(crate) fn answer<R: Abort>(
    rt: &R,
    alloc: Global,
    server: &mut Server,
    text: &str,
) -> Result<String, Fail> {
    let mut bytes = text.as_bytes();
    let Ok(request) = read_request(alloc, &mut bytes) else {
        panic!(rt; "no request: {text}");
    };
    if text.starts_with("POST") {
        server.posts = server.posts.saturating_add(1);
    }
    let moment = if server.is_tomorrow { TOMORROW } else { TODAY };
    let (high, low) = (0x2222222222222222, 0x4444444444444444);
    let given = Given::new(alloc, moment, server.posts, high, server.posts, low)?;
    match server
        .manager
        .answer(alloc, &mut server.shelf, &given, &request)
    {
        Answer::Channels(id) => Ok(format!(in alloc; "channels of {}", id.as_str())?),
        Answer::Ends(id) => ended(alloc, server, id),
        Answer::Reply(response) => written(alloc, &response),
        Answer::Page => Ok(String::from_str(alloc, "the page")?),
        Answer::Stops => Ok(String::from_str(alloc, "the server stops")?),
    }
}

/// The text of the request that a line asks for.
fn request_of(alloc: Global, asked: &str) -> Result<String, Fail> {
    let (method, rest) = asked.split_once(' ').ok_or("a request has a method")?;
    let (target, body) = match rest.split_once(' ') {
        Some(parts) => parts,
        None => (rest, ""),
    };
    Ok(format!(in alloc;
        "{method} {target} HTTP/1.1\r\nContent-Length: {}\r\n\r\n{body}",
        body.len()
    )?)
}

/// What a play shows of an answer: its status, its location if it has one, and its body unless it is a refusal's.
fn shortened(alloc: Global, answer: &str) -> Result<String, Fail> {
    let Some((head, body)) = answer.split_once("\r\n\r\n") else {
        return Ok(format!(in alloc; "{answer}\n")?);
    };
    let mut lines = head.lines();
    let status = lines.next().ok_or("a response has a status line")?;
    let mut text = String::from_str(alloc, status.strip_prefix("HTTP/1.1 ").unwrap_or(status))?;
    for line in lines {
        if let Some(location) = line.strip_prefix("Location: ") {
            text.push_str(" at ")?;
            text.push_str(location)?;
        }
    }
    if !body.is_empty() && !body.starts_with("{\"message\":") {
        text.push_str(" ")?;
        text.push_str(body)?;
    }
    text.push('\n')?;
    Ok(text)
}

/// The answer to a line's request, and the notes of the kernels.
pub(crate) fn asked<R: Abort>(
    rt: &R,
    alloc: Global,
    server: &mut Server,
    line: &str,
) -> Result<String, Fail> {
    let request = request_of(alloc, line)?;
    let whole = answer(rt, alloc, server, request.as_str())?;
    let mut text = shortened(alloc, whole.as_str())?;
    text.push_str(server.manager.running.take().as_str())?;
    Ok(text)
}

/// The answers to a line's request, where each call of the shelf fails in turn.
fn asked_again<R: Abort>(
    rt: &R,
    alloc: Global,
    server: &mut Server,
    line: &str,
) -> Result<String, Fail> {
    let mut text = String::new(alloc);
    let mut last = String::new(alloc);
    let posts = server.posts;
    for fault in 1..100 {
        let before = server.shelf.failures();
        server.posts = posts;
        server.shelf.fail_at(fault);
        let next = asked(rt, alloc, server, line)?;
        if next.as_str() != last.as_str() {
            text.push_str(next.as_str())?;
        }
        last = next;
        if server.shelf.failures() == before {
            server.shelf.fail_at(0);
            return Ok(text);
        }
    }
    panic!(rt; "{line}: no end of failures")
}

/// The file at a path: its text, or its bytes where they are none.
fn file_at(alloc: Global, server: &mut Server, path: &str) -> Result<String, Fail> {
    let Ok(Item::File(bytes)) = server.shelf.get(path) else {
        return Ok(String::from_str(alloc, "no file\n")?);
    };
    match std::str::from_utf8(bytes.as_slice()) {
        Ok(text) => Ok(format!(in alloc; "{text:?}\n")?),
        Err(_) => Ok(format!(in alloc; "{:?}\n", bytes.as_slice())?),
    }
}

/// Sixteen kernels are there, at least.
fn crowd<R: Abort>(rt: &R, alloc: Global, server: &mut Server) -> Result<(), Fail> {
    for _ in 0..16 {
        asked(rt, alloc, server, "POST /api/kernels")?;
    }
    Ok(())
}

/// Somebody else makes a folder, writes an empty file, or removes either.
fn somebody_else<R: Abort>(
    rt: &R,
    alloc: Global,
    server: &mut Server,
    deed: &str,
) -> Result<(), Fail> {
    let (verb, path) = deed
        .split_once(' ')
        .ok_or("somebody does something to a path")?;
    let done = match verb {
        "makes" => server.shelf.put(path, Item::Folder),
        "writes" => server
            .shelf
            .put(path, Item::File(Bytes::from(Vec::new(alloc)))),
        "removes" => server.shelf.delete(path),
        _ => panic!(rt; "nobody else {verb}"),
    };
    assert!(rt; done.is_ok());
    Ok(())
}

/// An event of that name.
fn happen<R: Abort>(rt: &R, alloc: Global, server: &mut Server, event: &str) -> Result<(), Fail> {
    if let Some(deed) = event.strip_prefix("somebody else ") {
        return somebody_else(rt, alloc, server, deed);
    }
    match event {
        "a day goes by" => server.is_tomorrow = true,
        "the files have 67108864 bytes" => server.shelf.say_len(67_108_864),
        "the files have 67108865 bytes" => server.shelf.say_len(67_108_865),
        "the inboxes are full" => server.manager.running.is_full = true,
        "the inboxes have room" => server.manager.running.is_full = false,
        "no kernel can be made" => server.manager.running.is_barren = true,
        "kernels can be made" => server.manager.running.is_barren = false,
        "sixteen kernels are made" => crowd(rt, alloc, server)?,
        _ => panic!(rt; "no event: {event}"),
    }
    Ok(())
}

/// What follows a line, if the line does something.
fn step<R: Abort>(
    rt: &R,
    alloc: Global,
    server: &mut Server,
    line: &str,
) -> Result<Option<String>, Fail> {
    if let Some(request) = line.strip_prefix("> ") {
        return Ok(Some(asked(rt, alloc, server, request)?));
    }
    if let Some(request) = line.strip_prefix("~ ") {
        return Ok(Some(asked_again(rt, alloc, server, request)?));
    }
    if let Some(path) = line.strip_prefix("? ") {
        return Ok(Some(file_at(alloc, server, path)?));
    }
    if let Some(event) = line.strip_prefix("! ") {
        happen(rt, alloc, server, event)?;
        return Ok(Some(String::new(alloc)));
    }
    if line.is_empty() || line.starts_with("-- ") {
        return Ok(Some(String::new(alloc)));
    }
    Ok(None)
}

/// The play as it comes out: each line that does something, and what follows it.
fn played<R: Abort>(rt: &R, alloc: Global, play: &str) -> Result<String, Fail> {
    let mut server = start(alloc)?;
    let mut text = String::new(alloc);
    for line in play.lines() {
        if let Some(answer) = step(rt, alloc, &mut server, line)? {
            text.push_str(line)?;
            text.push('\n')?;
            text.push_str(answer.as_str())?;
        }
    }
    Ok(text)
}

/// A play on a server of its own comes out as it is written.
pub(crate) fn assert_play<R: AllocGlobal + Abort>(rt: &R, play: &str) -> Result<(), Fail> {
    let text = played(rt, rt.alloc(), play)?;
    for (line, wanted) in text.lines().zip(play.lines()) {
        assert_eq!(rt; line, wanted, "the play came out as\n{text}");
    }
    assert_eq!(rt; text.as_str(), play);
    Ok(())
}
