//! The server over the small language.

use js_call::Limits;
use js_drive::{Parser, drive_kernel, parse};
use js_serve::{Desk, Job, close_desk, work};
use js_shelf::MemoryShelf;
use std::alloc::Global;
use std::io::ErrorKind;
use std::net::{Net, SocketAddr, TcpListener, TcpStream};
use std::random::RandomSource;
use std::sync::Wait;
use std::thread::{JoinHandle, Threads};
use std::time::Clock;
use std::{io, thread};
use test_language::TestLanguage;

/// How a server is run.
#[derive(Clone, Copy)]
pub struct Manner {
    pub limits: Limits,
    /// Whether threads for parsers can be started.
    pub parses: bool,
}

impl Manner {
    /// As the program runs it, with parsers.
    pub const fn usual() -> Manner {
        Manner {
            limits: Limits::usual(),
            parses: true,
        }
    }
}

/// Starts a thread that parses cells for a kernel. It says whether there is one.
fn start_parser<R>(rt: R, alloc: Global, parser: Parser<TestLanguage>) -> bool
where
    R: Threads + Wait + Clock + Copy + Drop + Send + 'static,
{
    thread::spawn(&rt, move || parse::<TestLanguage, R>(&rt, alloc, parser)).is_ok()
}

/// Starts the parsers of a kernel. It says whether all have a thread.
fn start_parsers<R>(rt: R, alloc: Global, parsers: Vec<Parser<TestLanguage>>) -> bool
where
    R: Threads + Wait + Clock + Copy + Drop + Send + 'static,
{
    for parser in parsers {
        if !start_parser(rt, alloc, parser) {
            return false;
        }
    }
    true
}

/// Does a job. A kernel's parsers have threads before it is driven.
fn do_job<R>(rt: R, alloc: Global, limits: Limits, parses: bool, job: Job<TestLanguage>)
where
    R: Threads + Wait + Clock + Copy + Drop + Send + 'static,
{
    let Some((parsers, kernel)) = work::<TestLanguage, R>(&rt, alloc, limits, job, "a page") else {
        return;
    };
    let parses = parses && start_parsers(rt, alloc, parsers);
    drive_kernel::<TestLanguage, R>(&rt, kernel, parses);
}

/// Starts a thread that does a job. It says whether there is one.
fn start<R>(rt: R, alloc: Global, manner: Manner, job: Job<TestLanguage>) -> bool
where
    R: Threads + Wait + Clock + Copy + Drop + Send + 'static,
{
    let Manner { limits, parses } = manner;
    thread::spawn(&rt, move || do_job(rt, alloc, limits, parses, job)).is_ok()
}

/// Serves the connections of a listener, with no files at first, until the server has stopped. The answer are the files that
/// it leaves. There are none where it could not begin.
fn serve<R>(rt: R, alloc: Global, manner: Manner, listener: TcpListener) -> Option<MemoryShelf>
where
    R: Threads + Wait + Clock + RandomSource + Copy + Drop + Send + 'static,
{
    let shelf = MemoryShelf::new(alloc).ok()?;
    let mut desk = Desk::<TestLanguage, R, MemoryShelf>::new(rt, alloc, listener, shelf)?;
    for _ in rt.forever() {
        if let Some(job) = desk.next() {
            let _ = start(rt, alloc, manner, job);
        }
        if desk.has_stopped() {
            break;
        }
    }
    Some(close_desk(desk))
}

/// A server that runs in a thread of its own.
#[derive(Drop)]
pub struct Server {
    pub address: SocketAddr,
    pub thread: JoinHandle<Option<MemoryShelf>>,
}

/// Starts a server on a port of 127.0.0.1 that is free.
pub fn begin<R>(rt: R, alloc: Global, manner: Manner) -> io::Result<Server>
where
    R: Threads + Wait + Clock + RandomSource + Net<Listener = TcpListener, Stream = TcpStream>,
    R: Copy + Drop + Send + 'static,
{
    let listener = TcpListener::bind(&rt, "127.0.0.1:0")?;
    let address = listener.local_addr()?;
    match thread::spawn(&rt, move || serve(rt, alloc, manner, listener)) {
        Ok(thread) => Ok(Server { address, thread }),
        Err(_) => Err(ErrorKind::OutOfMemory.into()),
    }
}
