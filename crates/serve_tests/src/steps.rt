//! Tests as rows of steps.

use crate::client::{NOTHING, add_frame, connect, drip, head, message, rest};
use crate::crew::{Manner, begin};
use crate::rows::CELL;
use js_shelf::{Item, Shelf};
use std::alloc::{AllocError, Global};
use std::io::{ErrorKind, Write};
use std::net::{Net, Shutdown, SocketAddr, TcpListener, TcpStream};
use std::random::RandomSource;
use std::sync::Wait;
use std::test::Fail;
use std::thread::Threads;
use std::time::{Clock, Duration, Instant};
use std::{io, thread};

/// How often a step that waits is tried, and how many milliseconds pass between two tries.
const TRIES: u32 = 400;

const PAUSE: u64 = 25;

/// How many bytes of a request's body are sent at once, and how many letters a long identifier has.
const PART: usize = 60_000;

/// What a client does, and what must come of it. A text is like another that has its parts, which `*` divides, in their order.
/// In what is sent the first `@` stands for the identifier that was noted last.
pub enum Step {
    /// A request of this line and this body has an answer like this.
    Asks(&'static str, &'static str, &'static str),
    /// A request of this line has an answer like this, now or within ten seconds.
    Waits(&'static str, &'static str),
    /// The first identifier after this mark in the last answer is noted.
    Notes(&'static str),
    /// The channels of the kernel that was noted are asked for, and the answer is like this. Where it switches, it is a new
    /// screen. Screens and other connections that are kept count from 0.
    Opens(&'static str),
    /// A screen sends a message of this identifier, type and content on the shell channel, or a shutdown on the control channel.
    Sends(usize, &'static str, &'static str, &'static str),
    /// A screen sends cells of these identifiers and contents, in one piece.
    Bursts(usize, &'static [(&'static str, &'static str)]),
    /// The next messages of a screen are like these.
    Sees(usize, &'static [&'static str]),
    /// A screen is gone.
    Leaves(usize),
    /// A new connection sends this, byte by byte.
    Begins(&'static str),
    /// A connection sends this, byte by byte, and then no more. What came of it is like this.
    Ends(usize, &'static str, &'static str),
    /// A connection sends this, byte by byte and slowly, as long as anybody takes it. What came of it is like this.
    Drips(usize, &'static str, &'static str),
    /// A new connection sends this and then so many parts of 60,000 bytes, and what came of it is like this.
    Pours(&'static str, usize, &'static str),
    /// A screen sends so many cells whose identifiers have 60,000 letters one after the other, and reads all that comes of them.
    Floods(usize, usize),
}

/// What a client has.
#[derive(Drop)]
struct Client {
    alloc: Global,
    id: String,
    answer: String,
    kept: Vec<Option<TcpStream>>,
}

/// Whether a text has these parts in their order.
fn is_like(text: &str, parts: &str) -> bool {
    let mut rest = text;
    for part in parts.split('*') {
        match rest.split_once(part) {
            Some((_, after)) => rest = after,
            None => return false,
        }
    }
    true
}

/// A text that is not like another.
fn unlike(text: String, parts: &str) -> Option<String> {
    if is_like(text.as_str(), parts) {
        None
    } else {
        Some(text)
    }
}

/// A text with an identifier in place of its first `@`.
fn filled(alloc: Global, text: &str, id: &str) -> Result<String, AllocError> {
    match text.split_once('@') {
        Some((before, after)) => format!(in alloc; "{before}{id}{after}"),
        None => String::from_str(alloc, text),
    }
}

/// The first identifier after a mark.
fn id_after<'t>(text: &'t str, mark: &str) -> Option<&'t str> {
    let (_, rest) = text.split_once(mark)?;
    let (_, rest) = rest.split_once("\"id\":\"")?;
    let (id, _) = rest.split_once('"')?;
    Some(id)
}

impl Client {
    fn new(alloc: Global) -> Client {
        Client {
            alloc,
            id: String::new(alloc),
            answer: String::new(alloc),
            kept: Vec::new(alloc),
        }
    }

    /// A connection that is kept.
    fn stream(&mut self, place: usize) -> io::Result<&mut TcpStream> {
        match self.kept.get_mut(place) {
            Some(Some(stream)) => Ok(stream),
            _ => Err(ErrorKind::NotFound.into()),
        }
    }

    /// Lets a connection go.
    fn take(&mut self, place: usize) -> io::Result<TcpStream> {
        let Some(kept) = self.kept.get_mut(place) else {
            return Err(ErrorKind::NotFound.into());
        };
        match kept.take() {
            Some(stream) => Ok(stream),
            None => Err(ErrorKind::NotFound.into()),
        }
    }

    /// The answer to a request.
    fn ask(&mut self, stream: TcpStream, line: &str, body: &str) -> io::Result<()> {
        let mut stream = stream;
        let line = filled(self.alloc, line, self.id.as_str())?;
        let len = body.len();
        let request = format!(in self.alloc;
            "{line} HTTP/1.1\r\nContent-Length: {len}\r\n\r\n{body}"
        )?;
        stream.write_all(request.as_bytes())?;
        self.answer = rest(self.alloc, &mut stream)?;
        Ok(())
    }

    /// Asks for the channels of the kernel that was noted.
    fn open(&mut self, stream: TcpStream, parts: &str) -> io::Result<Option<String>> {
        let mut stream = stream;
        let id = self.id.as_str();
        let request = format!(in self.alloc;
            "GET /api/kernels/{id}/channels HTTP/1.1\r\nUpgrade: websocket\r\nConnection: Upgrade\r\nSec-WebSocket-Version: 13\r\nSec-WebSocket-Key: dGhlIHNhbXBsZSBub25jZQ==\r\n\r\n"
        )?;
        stream.write_all(request.as_bytes())?;
        let head = head(self.alloc, &mut stream)?;
        if head.as_str().starts_with("HTTP/1.1 101") {
            self.kept.push(Some(stream))?;
        }
        Ok(unlike(head, parts))
    }

    fn note(&mut self, mark: &str) -> io::Result<()> {
        match id_after(self.answer.as_str(), mark) {
            Some(id) => {
                self.id = String::from_str(self.alloc, id)?;
                Ok(())
            }
            None => Err(ErrorKind::InvalidData.into()),
        }
    }

    /// Adds the frame of a message.
    fn add(&self, frames: &mut Vec<u8>, id: &str, kind: &str, content: &str) -> io::Result<()> {
        let channel = if kind == "shutdown_request" {
            "control"
        } else {
            "shell"
        };
        let text = format!(in self.alloc;
            "{{\"channel\":\"{channel}\",\"content\":{content},\"header\":{{\"msg_id\":\"{id}\",\"msg_type\":\"{kind}\",\"session\":\"s\"}},\"metadata\":{{\"cellId\":\"c1\"}},\"parent_header\":{{}}}}"
        )?;
        add_frame(frames, text.as_str())
    }

    fn tell(&mut self, place: usize, id: &str, kind: &str, content: &str) -> io::Result<()> {
        let mut frames = Vec::new(self.alloc);
        self.add(&mut frames, id, kind, content)?;
        self.stream(place)?.write_all(frames.as_slice())
    }

    fn burst(&mut self, place: usize, cells: &[(&str, &str)]) -> io::Result<()> {
        let mut frames = Vec::new(self.alloc);
        for (id, content) in cells {
            self.add(&mut frames, id, CELL, content)?;
        }
        self.stream(place)?.write_all(frames.as_slice())
    }

    /// Reads messages that must be like these. The answer is the first that is not.
    fn see(&mut self, place: usize, wanted: &[&str]) -> io::Result<Option<String>> {
        let alloc = self.alloc;
        let stream = self.stream(place)?;
        for parts in wanted {
            let text = message(alloc, stream)?;
            if !is_like(text.as_str(), parts) {
                return Ok(Some(text));
            }
        }
        Ok(None)
    }

    fn end(&mut self, place: usize, text: &str, parts: &str) -> io::Result<Option<String>> {
        let mut stream = self.take(place)?;
        drip(&mut stream, text)?;
        stream.shutdown(Shutdown::Write)?;
        Ok(unlike(rest(self.alloc, &mut stream)?, parts))
    }

    fn begin(&mut self, stream: TcpStream, text: &str) -> io::Result<()> {
        let mut stream = stream;
        drip(&mut stream, text)?;
        self.kept.push(Some(stream))?;
        Ok(())
    }

    /// What comes of a request that is sent with pauses.
    fn drip<R: Clock>(
        &mut self,
        rt: &R,
        place: usize,
        text: &str,
        parts: &str,
    ) -> io::Result<Option<String>> {
        let mut stream = self.take(place)?;
        for byte in text.bytes() {
            if stream.write_all(&[byte]).is_err() {
                break;
            }
            thread::sleep(rt, Duration::from_millis(PAUSE));
        }
        match rest(self.alloc, &mut stream) {
            Ok(text) => Ok(unlike(text, parts)),
            Err(_) => Ok(unlike(String::from_str(self.alloc, NOTHING)?, parts)),
        }
    }

    /// What comes of a head and a long body.
    fn pour(
        &self,
        stream: TcpStream,
        head: &str,
        count: usize,
        parts: &str,
    ) -> io::Result<Option<String>> {
        let mut stream = stream;
        stream.write_all(head.as_bytes())?;
        for _ in 0..count {
            stream.write_all(&[b' '; PART])?;
        }
        Ok(unlike(rest(self.alloc, &mut stream)?, parts))
    }

    /// Sends cells whose identifier is long, and reads until the kernel is idle after each.
    fn flood(&mut self, place: usize, count: usize) -> io::Result<()> {
        let letters = vec![in self.alloc; b'f'; PART]?;
        let Ok(id) = String::from_utf8(letters) else {
            return Err(ErrorKind::InvalidData.into());
        };
        for _ in 0..count {
            self.tell(place, id.as_str(), CELL, "{\"code\":\"4\"}")?;
            for _ in 0..10 {
                let text = message(self.alloc, self.stream(place)?)?;
                if is_like(text.as_str(), "\"execution_state\":\"idle\"") {
                    break;
                }
            }
        }
        Ok(())
    }

    /// The last answer, where it is not like this.
    fn unlike(&self, parts: &str) -> io::Result<Option<String>> {
        let text = String::from_str(self.alloc, self.answer.as_str())?;
        Ok(unlike(text, parts))
    }

    /// A step over a new connection. The answer is what was found in place of what must come.
    fn meet(&mut self, step: &Step, stream: TcpStream) -> io::Result<Option<String>> {
        match step {
            Step::Asks(line, body, parts) => {
                self.ask(stream, line, body)?;
                self.unlike(parts)
            }
            Step::Waits(line, parts) => {
                self.ask(stream, line, "")?;
                self.unlike(parts)
            }
            Step::Opens(parts) => self.open(stream, parts),
            Step::Begins(text) => {
                self.begin(stream, text)?;
                Ok(None)
            }
            Step::Pours(head, count, parts) => self.pour(stream, head, *count, parts),
            _ => Ok(None),
        }
    }

    /// A step over what is kept. The answer is what was found in place of what must come.
    fn go_on<R: Clock>(&mut self, rt: &R, step: &Step) -> io::Result<Option<String>> {
        match step {
            Step::Notes(mark) => self.note(mark)?,
            Step::Sends(place, id, kind, content) => self.tell(*place, id, kind, content)?,
            Step::Bursts(place, cells) => self.burst(*place, cells)?,
            Step::Leaves(place) => drop(self.take(*place)?),
            Step::Sees(place, wanted) => return self.see(*place, wanted),
            Step::Ends(place, text, parts) => return self.end(*place, text, parts),
            Step::Drips(place, text, parts) => return self.drip(rt, *place, text, parts),
            Step::Floods(place, count) => self.flood(*place, *count)?,
            _ => {}
        }
        Ok(None)
    }
}

/// Does a step once.
fn make<R>(
    rt: &R,
    address: SocketAddr,
    client: &mut Client,
    step: &Step,
) -> io::Result<Option<String>>
where
    R: Net<Stream = TcpStream> + Clock,
{
    match step {
        Step::Asks(..) | Step::Waits(..) | Step::Opens(..) | Step::Begins(..) | Step::Pours(..) =>
            client.meet(step, connect(rt, address)?),
        _ => client.go_on(rt, step),
    }
}

/// Does a step, until what must come has come or its time is over.
fn make_in_time<R>(
    rt: &R,
    address: SocketAddr,
    client: &mut Client,
    step: &Step,
) -> io::Result<Option<String>>
where
    R: Net<Stream = TcpStream> + Clock,
{
    let tries = if matches!(step, Step::Waits(..)) {
        TRIES
    } else {
        1
    };
    let mut found = None;
    for _ in 0..tries {
        found = make(rt, address, client, step)?;
        if found.is_none() {
            break;
        }
        thread::sleep(rt, Duration::from_millis(PAUSE));
    }
    Ok(found)
}

/// Does the steps of a client of a new server.
pub fn play<R>(rt: R, alloc: Global, steps: &[Step]) -> Result<(), Fail>
where
    R: Threads + Wait + Clock + RandomSource + Net<Listener = TcpListener, Stream = TcpStream>,
    R: Copy + Drop + Send + 'static,
{
    play_in(rt, alloc, Manner::usual(), steps)
}

/// Does the steps of a client of a new server that is run like this.
pub fn play_in<R>(rt: R, alloc: Global, manner: Manner, steps: &[Step]) -> Result<(), Fail>
where
    R: Threads + Wait + Clock + RandomSource + Net<Listener = TcpListener, Stream = TcpStream>,
    R: Copy + Drop + Send + 'static,
{
    let server = begin(rt, alloc, manner)?;
    drop(go(&rt, alloc, server.address, steps)?);
    Ok(())
}

/// Does the steps of a client of a new server, of which the last has it stop. While the client keeps its connections, the server's
/// call must return within so many milliseconds.
pub fn play_to_a_stop<R>(rt: R, alloc: Global, steps: &[Step], limit: u64) -> Result<(), Fail>
where
    R: Threads + Wait + Clock + RandomSource + Net<Listener = TcpListener, Stream = TcpStream>,
    R: Copy + Drop + Send + 'static,
{
    let server = begin(rt, alloc, Manner::usual())?;
    let client = go(&rt, alloc, server.address, steps)?;
    let begun = Instant::now(&rt)?;
    let files = server.thread.join(&rt);
    let passed = begun.elapsed(&rt)?;
    drop(client);
    if files.is_none() {
        return Err(Fail::new("no server"));
    }
    if passed > Duration::from_millis(limit) {
        return Err(Fail::new(format_args!("it took {passed:?}")));
    }
    Ok(())
}

/// Does the steps of a client of a new server, waits until its call returns, and looks at a file that it leaves.
pub fn play_to_end<R>(
    rt: R,
    alloc: Global,
    steps: &[Step],
    path: &str,
    parts: &str,
) -> Result<(), Fail>
where
    R: Threads + Wait + Clock + RandomSource + Net<Listener = TcpListener, Stream = TcpStream>,
    R: Copy + Drop + Send + 'static,
{
    let server = begin(rt, alloc, Manner::usual())?;
    drop(go(&rt, alloc, server.address, steps)?);
    let Some(mut shelf) = server.thread.join(&rt) else {
        return Err(Fail::new("no server"));
    };
    let Ok(Item::File(bytes)) = shelf.get(path) else {
        return Err(Fail::new("no file"));
    };
    match str::from_utf8(bytes.as_slice()) {
        Ok(text) if is_like(text, parts) => Ok(()),
        Ok(text) => Err(Fail::new(format_args!("the file: {text}"))),
        Err(_) => Err(Fail::new("no text")),
    }
}

/// Does the steps of a client of the server at an address. The answer is the client, with the connections that it keeps.
fn go<R>(rt: &R, alloc: Global, address: SocketAddr, steps: &[Step]) -> Result<Client, Fail>
where
    R: Net<Stream = TcpStream> + Clock,
{
    let mut client = Client::new(alloc);
    for (place, step) in steps.iter().enumerate() {
        match make_in_time(rt, address, &mut client, step) {
            Ok(None) => {}
            Ok(Some(found)) => return Err(Fail::new(format_args!("step {place}: {found}"))),
            Err(error) => return Err(Fail::new(format_args!("step {place}: {error:?}"))),
        }
    }
    Ok(client)
}
