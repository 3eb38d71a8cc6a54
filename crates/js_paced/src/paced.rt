//! A stream whose reads wait as long as its traffic allows.

ghost use Rattle.std.specs.Prelude.{◌≡◌, ◌<◌, ◌≤◌, ◌/◌, if◌then◌else◌, max, min, true, false};
ghost use Rattle.std.specs.Io.{ReadsAtMost};

use crate::calls::{limit_writes, read_once, write_once};
use crate::owner::Owner;
use crate::rest::Rest;
use std::io::{ErrorKind, Read, Write};
use std::net::{Shutdown, TcpStream};
use std::time::{Clock, Duration};
use std::{io, thread};

/// For how many microseconds of waiting the reads are short ones, after something was read or written or the stream was called.
const FRESH: u64 = 50_000;

/// How many microseconds the shortest of the short reads waits, and the longest.
const SHORTEST: u64 = 50;

const LONGEST: u64 = 2_000;

/// A short read waits this part of what was waited before it.
const PART: u64 = 32;

/// How many milliseconds a long read rests at most.
const LONGEST_REST: u64 = 2_000;

/// How many milliseconds a long read waits where the stream has no rest.
const LONG_WAIT: u64 = 20;

/// A stream whose reads end by a time limit.
///
/// A short read asks for what is there, and sleeps where that is nothing: for 50 microseconds at first, and longer the longer
/// nothing was read or written, up to 2 milliseconds. The first after one that gave something does not sleep, so that its owner
/// soon knows that nothing else has come. A long read rests for as long as nothing was read or written before it, up to 2 seconds, and
/// ends at once where something comes or the stream is called; where the stream has no rest, it waits 20 milliseconds. Reads are
/// short while the owner is busy, and for some 50 milliseconds after something was read or written or the stream was called. A read
/// that a signal interrupts has come to its time limit.
///
/// A write fails where the other side takes nothing for a time, which is half a second once the owner is over. From then on the stream
/// is shut down, and it drops what is written: its reads give what had come before, and then its end.
#[derive(Drop)]
pub struct Paced<'s, R: Drop, O> {
    rt: R,
    stream: &'s TcpStream,
    owner: &'s O,
    rest: Option<Rest>,
    /// For how many milliseconds the other side may take nothing of a write.
    patience: u64,
    /// Whether calls of the stream answer at once.
    at_once: bool,
    /// How many microseconds reads have waited since something was read or written or the stream was called.
    waited: u64,
    /// Whether the last read gave something.
    gave: bool,
    /// Whether a write has failed.
    failed: bool,
}

impl<'s, R: Clock + Drop, O: Owner> Paced<'s, R, O> {
    /// A stream on which something was just read, whose it is, how it rests, and for how many milliseconds the other side may take
    /// nothing of a write.
    pub fn new(
        rt: R,
        stream: &'s TcpStream,
        owner: &'s O,
        rest: Option<Rest>,
        patience: u64,
    ) -> Paced<'s, R, O> {
        let _ = stream.set_read_timeout(Some(Duration::from_millis(LONG_WAIT)));
        let _ = limit_writes(stream, patience);
        Paced {
            rt,
            stream,
            owner,
            rest,
            patience,
            at_once: false,
            waited: 0,
            gave: false,
            failed: false,
        }
    }

    /// Has the stream's calls answer at once, or wait.
    fn answer_at_once(&mut self, at_once: bool) -> io::Result<()> {
        if self.at_once != at_once {
            self.stream.set_nonblocking(at_once)?;
            self.at_once = at_once;
        }
        Ok(())
    }

    /// Notes whether the stream was called: then something is soon to be written.
    fn heed(&mut self) {
        if let Some(rest) = &self.rest {
            if rest.was_called() {
                self.waited = 0;
            }
        }
    }

    /// Waits until something comes, or the stream is called. It says whether it can.
    fn rest(&mut self) -> bool {
        let Some(rest) = &mut self.rest else {
            return false;
        };
        let wait = rest_for(self.waited);
        match rest.wait(wait) {
            Ok(called) => {
                self.waited = if called {
                    0
                } else {
                    self.waited.saturating_add(wait * 1_000)
                };
                true
            }
            Err(_) => {
                self.rest = None;
                false
            }
        }
    }

    /// Reads what is there. Where that is nothing, it rests, and reads what has come then.
    fn read_long(&mut self, buf: &mut [u8]) -> io::Result<usize>
        ensures { ReadsAtMost result buf.new }
    {
        self.answer_at_once(true)?;
        let read = read_once(self.stream, buf);
        if !is_empty(&read) {
            self.note(&read, 0);
            return read;
        }
        if self.rest() {
            let read = read_once(self.stream, buf);
            self.note(&read, 0);
            return read;
        }
        self.read_limited(buf)
    }

    /// Reads what comes within a time limit of the system's.
    fn read_limited(&mut self, buf: &mut [u8]) -> io::Result<usize>
        ensures { ReadsAtMost result buf.new }
    {
        self.answer_at_once(false)?;
        let read = read_once(self.stream, buf);
        self.note(&read, LONG_WAIT * 1_000);
        read
    }

    fn read_short(&mut self, buf: &mut [u8]) -> io::Result<usize>
        ensures { ReadsAtMost result buf.new }
    {
        self.answer_at_once(true)?;
        let read = read_once(self.stream, buf);
        let wait = short_wait(self.gave, self.waited);
        if is_empty(&read) && wait > 0 {
            thread::sleep(&self.rt, Duration::from_micros(wait));
        }
        self.note(&read, wait);
        read
    }

    /// Notes what a read gave that waited `wait` microseconds where it gave nothing.
    fn note(&mut self, read: &io::Result<usize>, wait: u64) {
        self.gave = !is_empty(read);
        self.waited = if self.gave {
            0
        } else {
            self.waited.saturating_add(wait)
        };
    }
}

/// Whether a read may be a long one, where `waited` microseconds were waited.
fn may_rest(busy: bool, waited: u64) -> bool
    ensures yes { result ≡ true → (busy ≡ false) × (50000 ≤ waited) }
    ensures no { result ≡ false → busy ≡ false → waited < 50000 }
{
    !busy && waited >= FRESH
}

/// How many milliseconds a long read rests at most, where `waited` microseconds were waited before it.
fn rest_for(waited: u64) -> u64
    ensures { result ≡ min 2000 (waited / 1000) }
{
    (waited / 1_000).min(LONGEST_REST)
}

/// How many microseconds a short read waits, where `waited` were waited before it, and whether the read before it gave something.
fn short_wait(gave: bool, waited: u64) -> u64
    ensures { result ≡ (if gave then 0 else min 2000 (max 50 (waited / 32))) }
{
    if gave {
        0
    } else {
        (waited / PART).max(SHORTEST).min(LONGEST)
    }
}

/// Whether a read ended by its time limit.
fn is_empty(read: &io::Result<usize>) -> bool {
    match read {
        Ok(_) => false,
        Err(error) => error.kind() == ErrorKind::WouldBlock,
    }
}

impl<R: Clock + Drop, O: Owner> Read for Paced<'_, R, O> {
    fn read(&mut self, buf: &mut [u8]) -> io::Result<usize> {
        self.heed();
        let read = if may_rest(self.owner.is_busy(), self.waited) {
            self.read_long(buf)
        } else {
            self.read_short(buf)
        };
        if read.is_ok() {
            self.owner.came();
        }
        read
    }
}

impl<R: Clock + Drop, O: Owner> Write for Paced<'_, R, O> {
    fn write(&mut self, buf: &[u8]) -> io::Result<usize> {
        if self.failed {
            return Ok(buf.len());
        }
        self.answer_at_once(false)?;
        self.waited = 0;
        match write_once(self.stream, self.owner, self.patience, buf) {
            Ok(count) => Ok(count),
            Err(_) => {
                self.failed = true;
                let _ = self.stream.shutdown(Shutdown::Both);
                Ok(buf.len())
            }
        }
    }

    fn flush(&mut self) -> io::Result<()> {
        Ok(())
    }
}
