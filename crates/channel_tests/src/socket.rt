//! A stream in memory.

use std::cell::Cell;
use std::io;
use std::io::{ErrorKind, Read, Write};

/// What a stream gives after its bytes.
#[derive(Clone, Copy)]
pub(crate) enum End {
    /// Its time limit comes, again and again.
    Waits,
    /// It has ended.
    Ends,
    /// Its time limit comes until an input request was written to it. From then on it has ended.
    EndsAtInput,
    /// Its time limit comes, again and again, and it takes no bytes.
    TakesNothing,
}

/// A stream that gives so many bytes, then says once that its time limit came, and then gives the others. What is written is
/// gone.
#[derive(Drop)]
pub(crate) struct Socket<'s> {
    rest: &'s [u8],
    before: usize,
    end: End,
}

impl Socket<'_> {
    /// A stream of these bytes, which all come at once.
    pub(crate) fn new(bytes: &[u8], end: End) -> Socket<'_> {
        Socket {
            rest: bytes,
            before: usize::MAX,
            end,
        }
    }

    /// The same, but its time limit comes after so many bytes.
    pub(crate) fn cut(bytes: &[u8], before: usize) -> Socket<'_> {
        Socket {
            rest: bytes,
            before,
            end: End::Waits,
        }
    }
}

impl Read for Socket<'_> {
    fn read(&mut self, buf: &mut [u8]) -> io::Result<usize> {
        let count = self.rest.len().min(buf.len()).min(self.before);
        if count == 0 {
            if self.rest.is_empty() && matches!(self.end, End::Ends) {
                return Ok(0);
            }
            self.before = usize::MAX;
            return Err(ErrorKind::WouldBlock.into());
        }
        buf[..count].copy_from_slice(&self.rest[..count]);
        self.rest = &self.rest[count..];
        self.before -= count;
        Ok(count)
    }
}

impl Write for Socket<'_> {
    fn write(&mut self, buf: &[u8]) -> io::Result<usize> {
        if matches!(self.end, End::TakesNothing) {
            return Err(ErrorKind::BrokenPipe.into());
        }
        let asks = buf
            .windows(13)
            .any(|part| part == b"input_request".as_slice());
        if asks && matches!(self.end, End::EndsAtInput) {
            self.end = End::Ends;
        }
        Ok(buf.len())
    }

    fn flush(&mut self) -> io::Result<()> {
        Ok(())
    }
}

/// A stream of which one read or write fails.
#[derive(Drop)]
pub(crate) struct Failing<'s> {
    socket: Socket<'s>,
    fault: Fault,
    has_failed: &'s Cell<bool>,
}

/// What fails: the read or the write of this number, counted down from 1 to 0.
#[derive(Clone, Copy)]
pub(crate) enum Fault {
    Read(u32),
    Write(u32),
}

impl<'s> Failing<'s> {
    /// `has_failed` says whether it has failed.
    pub(crate) fn new(socket: Socket<'s>, fault: Fault, has_failed: &'s Cell<bool>) -> Failing<'s> {
        Failing {
            socket,
            fault,
            has_failed,
        }
    }
}

/// Counts a call. It fails where it is the one that is to fail.
fn count(left: &mut u32, has_failed: &Cell<bool>, kind: ErrorKind) -> io::Result<()> {
    match *left {
        0 => Ok(()),
        1 => {
            *left = 0;
            has_failed.set(true);
            Err(kind.into())
        }
        more => {
            *left = more - 1;
            Ok(())
        }
    }
}

impl Read for Failing<'_> {
    fn read(&mut self, buf: &mut [u8]) -> io::Result<usize> {
        if let Fault::Read(left) = &mut self.fault {
            count(left, self.has_failed, ErrorKind::ConnectionReset)?;
        }
        self.socket.read(buf)
    }
}

impl Write for Failing<'_> {
    fn write(&mut self, buf: &[u8]) -> io::Result<usize> {
        if let Fault::Write(left) = &mut self.fault {
            count(left, self.has_failed, ErrorKind::BrokenPipe)?;
        }
        self.socket.write(buf)
    }

    fn flush(&mut self) -> io::Result<()> {
        Ok(())
    }
}

/// A stream whose written bytes are compared with others.
#[derive(Drop)]
pub(crate) struct Compared<'s> {
    socket: Socket<'s>,
    wanted: &'s [u8],
    left: &'s Cell<usize>,
}

impl<'s> Compared<'s> {
    /// `left` says how many of the wanted bytes were not yet written; after another byte it is `usize::MAX`.
    pub(crate) fn new(socket: Socket<'s>, wanted: &'s [u8], left: &'s Cell<usize>) -> Compared<'s> {
        Compared {
            socket,
            wanted,
            left,
        }
    }
}

impl Read for Compared<'_> {
    fn read(&mut self, buf: &mut [u8]) -> io::Result<usize> {
        self.socket.read(buf)
    }
}

impl Write for Compared<'_> {
    fn write(&mut self, buf: &[u8]) -> io::Result<usize> {
        match self.wanted.strip_prefix(buf) {
            Some(rest) => {
                self.wanted = rest;
                self.left.set(rest.len());
            }
            None => self.left.set(usize::MAX),
        }
        Ok(buf.len())
    }

    fn flush(&mut self) -> io::Result<()> {
        Ok(())
    }
}
