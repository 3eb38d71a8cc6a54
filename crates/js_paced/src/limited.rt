//! A stream whose reads end by a deadline, and the end of an answer that came before its request was read.
ghost use Rattle.std.specs.Prelude.{◌≡◌, ◌+◌, ◌<◌, ◌≤◌, IfNone, IfSome};
ghost use Rattle.std.specs.Duration.{as_nanos};

use crate::calls::{limit_writes, read_once, write_once};
use crate::owner::Owner;
use std::io;
use std::io::{ErrorKind, Read, Write};
use std::net::{Shutdown, TcpStream};
use std::time::{Clock, Duration, Instant};

/// How often a read is made that gives nothing before its deadline.
const TRIES: u32 = 1_000;

/// How many bytes of a rest are read at once, and how often: 64 MiB at most.
const ROOM: usize = 16_384;

const READS: u32 = 4_096;

/// Who owns the stream of one request: its writes have their whole time.
struct Request;

impl Owner for Request {
    fn is_busy(&self) -> bool {
        false
    }

    fn is_over(&self) -> bool {
        false
    }

    fn came(&self) {}
}

/// A stream whose reads all end by one deadline, however many bytes come before it, and each of whose writes is a fault where
/// the other side takes nothing for a time.
#[derive(Drop)]
pub struct Limited<'s, R: Drop> {
    rt: R,
    stream: &'s TcpStream,
    begun: Instant,
    limit: Duration,
    /// For how many milliseconds the other side may take nothing of a write.
    patience: u64,
}

impl<'s, R: Clock + Drop> Limited<'s, R> {
    /// A stream whose reads end `reads` milliseconds from now, and whose writes wait `writes`.
    ///
    /// # Errors
    /// Where the system has no clock, or takes no limit.
    pub fn new(
        rt: R,
        stream: &'s TcpStream,
        reads: u64,
        writes: u64,
    ) -> io::Result<Limited<'s, R>> {
        limit_writes(stream, writes)?;
        let begun = Instant::now(&rt)?;
        Ok(Limited {
            rt,
            stream,
            begun,
            limit: Duration::from_millis(reads),
            patience: writes,
        })
    }

    /// Has the next read wait until the deadline, unless that has passed.
    fn wait_for_rest(&self) -> io::Result<()> {
        let passed = self.begun.elapsed(&self.rt)?;
        let Some(rest) = rest_of(self.limit, passed) else {
            return Err(ErrorKind::TimedOut.into());
        };
        self.stream.set_read_timeout(Some(rest))
    }
}

/// What is left of a limit when so much of it has passed. There is nothing where it has passed.
fn rest_of(limit: Duration, passed: Duration) -> Option<Duration>
    ensures some { IfSome result (λ rest. (0 < as_nanos rest) × (as_nanos rest + as_nanos passed ≡ as_nanos limit)) }
    ensures none { IfNone result (as_nanos limit ≤ as_nanos passed) }
{
    match limit.checked_sub(passed) {
        Some(rest) if !rest.is_zero() => Some(rest),
        _ => None,
    }
}

impl<R: Clock + Drop> Read for Limited<'_, R> {
    fn read(&mut self, buf: &mut [u8]) -> io::Result<usize> {
        for _ in 0..TRIES {
            self.wait_for_rest()?;
            match read_once(self.stream, buf) {
                Ok(count) => return Ok(count),
                Err(error) => if error.kind() != ErrorKind::WouldBlock {
                    return Err(error);
                },
            }
        }
        Err(ErrorKind::TimedOut.into())
    }
}

impl<R: Clock + Drop> Write for Limited<'_, R> {
    fn write(&mut self, buf: &[u8]) -> io::Result<usize> {
        write_once(self.stream, &Request, self.patience, buf)
    }

    fn flush(&mut self) -> io::Result<()> {
        Ok(())
    }
}

/// Ends what is written to a stream, and then reads and drops what the other side still sends, until it ends, `limit`
/// milliseconds have passed or 64 MiB came. Where a stream is closed before all was read, the system takes back what the other
/// side has not read yet.
pub fn end_of_answer<R: Clock + Drop>(rt: R, stream: &TcpStream, limit: u64) {
    if stream.shutdown(Shutdown::Write).is_err() || stream.set_nonblocking(false).is_err() {
        return;
    }
    let Ok(mut rest) = Limited::new(rt, stream, limit, limit) else {
        return;
    };
    let mut room = [0; ROOM];
    for _ in 0..READS {
        match rest.read(&mut room) {
            Ok(count) if count > 0 => {}
            _ => return,
        }
    }
}
