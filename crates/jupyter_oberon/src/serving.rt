//! The program as a server.

use js_call::Limits;
use js_drive::{Parser, drive_kernel, parse};
use js_files::FileShelf;
use js_paced::Selector;
use js_page::page;
use js_serve::{Desk, Job, close_desk, work};
use ob_language::Oberon;
use std::alloc::Global;
use std::io::Write;
use std::net::{Net, TcpListener, TcpStream};
use std::random::RandomSource;
use std::rt::Files;
use std::sync::Wait;
use std::thread::Threads;
use std::time::Clock;
use std::{fs, io, thread};

/// The stack of each thread. A cell is read some hundred calls deep.
const STACK: usize = 8 * 1024 * 1024;

/// Starts a thread that parses cells for a kernel. It says whether there is one.
fn start_parser<R>(rt: R, alloc: Global, parser: Parser<Oberon>) -> bool
where
    R: Threads + Wait + Clock + Copy + Drop + Send + 'static,
{
    thread::Builder::new()
        .stack_size(STACK)
        .spawn(&rt, move || parse::<Oberon, R>(&rt, alloc, parser))
        .is_ok()
}

/// Starts the parsers of a kernel. It says whether all have a thread.
fn start_parsers<R>(rt: R, alloc: Global, parsers: Vec<Parser<Oberon>>) -> bool
where
    R: Threads + Wait + Clock + Copy + Drop + Send + 'static,
{
    for parser in parsers {
        if !start_parser(rt, alloc, parser) {
            return false;
        }
    }
    true
}

/// Does a job. A kernel's parsers have threads before it is driven.
fn do_job<R>(rt: R, alloc: Global, job: Job<Oberon>)
where
    R: Threads + Wait + Clock + Copy + Drop + Send + 'static,
{
    let Some((parsers, kernel)) = work::<Oberon, R>(&rt, alloc, Limits::usual(), job, page()) else {
        return;
    };
    let parses = start_parsers(rt, alloc, parsers);
    drive_kernel::<Oberon, R>(&rt, kernel, parses);
}

/// Starts a thread that does a job. It says whether there is one.
fn start<R>(rt: R, alloc: Global, job: Job<Oberon>) -> bool
where
    R: Threads + Wait + Clock + Copy + Drop + Send + 'static,
{
    thread::Builder::new()
        .stack_size(STACK)
        .spawn(&rt, move || do_job(rt, alloc, job))
        .is_ok()
}

/// Whether there is a folder at a path of the system.
fn is_folder<R: Files>(rt: &R, path: &str) -> bool {
    match fs::metadata(rt, path) {
        Ok(metadata) => metadata.is_dir(),
        Err(_) => false,
    }
}

/// The port that a text of one to five decimal digits names, from 1 to 65535.
pub(crate) fn read_port(text: &str) -> Option<u16> {
    if text.is_empty() || text.len() > 5 || !text.bytes().all(|byte| byte.is_ascii_digit()) {
        return None;
    }
    match text.parse::<u16>() {
        Ok(0) => None,
        Ok(port) => Some(port),
        Err(_) => None,
    }
}

/// Why the program does not serve.
#[derive(Clone, Copy, PartialEq, Eq, Debug)]
pub(crate) enum Unserved {
    Memory,
    Device,
}

/// Binds a port of 127.0.0.1.
fn listen<R>(rt: &R, alloc: Global, port: u16) -> io::Result<TcpListener>
where
    R: Net<Listener = TcpListener, Stream = TcpStream>,
{
    let address = format!(in alloc; "127.0.0.1:{port}")?;
    TcpListener::bind(rt, address.as_str())
}

/// Says that connections are accepted.
fn announce<W: Write>(output: &mut W, port: u16) -> io::Result<()> {
    write!(output, "listening on 127.0.0.1:{port}\n")?;
    output.flush()
}

/// Serves the folder of the system at `root` on a port of 127.0.0.1, until the server was told to stop, and has.
///
/// # Errors
/// Where it can't serve.
pub(crate) fn serve_folder<R, W>(
    rt: R,
    alloc: Global,
    output: &mut W,
    port: u16,
    root: &str,
) -> Result<(), Unserved>
where
    R: Threads
        + Wait
        + Clock
        + RandomSource
        + Files<File = fs::File>
        + AllocGlobal
        + Net<Listener = TcpListener, Stream = TcpStream>
        + Copy
        + Drop
        + Send
        + 'static,
    W: Write,
{
    if !is_folder(&rt, root) {
        return Err(Unserved::Device);
    }
    let Ok(shelf) = FileShelf::new(rt, root) else {
        return Err(Unserved::Memory);
    };
    let Ok(listener) = listen(&rt, alloc, port) else {
        return Err(Unserved::Device);
    };
    let Some(mut desk) = Desk::<Oberon, _, _>::new(rt, alloc, listener, shelf) else {
        return Err(Unserved::Memory);
    };
    // The first job is that of the acceptor.
    let accepts = match desk.next() {
        Some(job) => start(rt, alloc, job),
        None => false,
    };
    if !accepts {
        drop(close_desk(desk));
        return Err(Unserved::Memory);
    }
    if announce(output, port).is_err() {
        drop(close_desk(desk));
        return Err(Unserved::Device);
    }
    for _ in rt.forever() {
        if desk.lacks_selector() {
            desk.give_selector(Selector::new(&rt).ok());
        }
        if let Some(job) = desk.next() {
            let _ = start(rt, alloc, job);
        }
        if desk.has_stopped() {
            drop(close_desk(desk));
            return Ok(());
        }
    }
    unreachable!()
}
