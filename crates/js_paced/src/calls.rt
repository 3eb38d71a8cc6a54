//! Calls of a stream that a signal may interrupt. On Linux each call with a time limit is, where the process was stopped.
ghost use Rattle.std.specs.Prelude.{◌≡◌, ◌≢◌, ◌+◌, ◌*◌, ◌<◌, ◌≤◌, ◌⊎◌, if◌then◌else◌, max, min, true, Ok, IfOk, IfErr, IfSome, IfNone, IsErrAnd};
ghost use Rattle.std.specs.Io.{ReadsAtMost, WritesAtMost};
ghost use Rattle.std.specs.IoError.{error_kind};
ghost use Rattle.std.specs.declared.io.ErrorKind.TheVariants.{Interrupted, WouldBlock};

use crate::owner::Owner;
use std::io;
use std::io::{ErrorKind, Read, Write};
use std::net::TcpStream;
use std::time::Duration;

/// How often a call is made that is interrupted again and again.
const TRIES: u64 = 1_000;

/// How many milliseconds a system's write waits at most. One that takes something and then waits to its limit says only what it took,
/// so what it waited is not seen: that time at most.
const PART: u64 = 100;

/// How many such parts a write waits at most once its owner is over: half a second.
const LAST_PARTS: u64 = 5;

/// Reads once.
pub(crate) fn read_once(stream: &TcpStream, buf: &mut [u8]) -> io::Result<usize>
    ensures { ReadsAtMost result buf.new }
{
    let mut reader = stream;
    calmed(reader.read(buf))
}

/// What a read comes to: where it was interrupted nothing came, as where its time limit ended it.
fn calmed(read: io::Result<usize>) -> io::Result<usize>
    ensures count { IfOk result (λ n. read ≡ Ok n) }
    ensures limit { IfErr read (λ e. error_kind e ≡ Interrupted → IsErrAnd result (λ f. error_kind f ≡ WouldBlock)) }
    ensures never { IfErr result (λ e. error_kind e ≢ Interrupted) }
{
    match read {
        Ok(count) => Ok(count),
        Err(error) => if error.kind() == ErrorKind::Interrupted {
            Err(ErrorKind::WouldBlock.into())
        } else {
            Err(error)
        },
    }
}

/// How many milliseconds a system's write waits, where the other side may take nothing for `limit`.
fn part_of(limit: u64) -> u64
    ensures { result ≡ max 1 (min 100 limit) }
{
    limit.min(PART).max(1)
}

/// How many parts of 100 milliseconds that is.
fn parts_of(limit: u64) -> u64
    ensures long_enough { limit ≤ 100 * result }
    ensures no_longer { 100 * result < limit + 100 }
{
    limit.div_ceil(PART)
}

/// For how many more parts a write may wait with nothing taken.
#[derive(Clone, Copy)]
struct Patience {
    /// In all.
    parts: u64,
    /// Of those at whose end its owner is over.
    last: u64,
}

impl Patience {
    /// That of a write that begins.
    fn new(limit: u64) -> Patience
        ensures parts { (limit ≤ 100 * result.parts) × (100 * result.parts < limit + 100) }
        ensures last { result.last ≡ 5 }
    {
        Patience {
            parts: parts_of(limit),
            last: LAST_PARTS,
        }
    }

    /// What is left of it after a part in which nothing was taken, at whose end the owner was over or was not. Where there is nothing,
    /// the write is given up.
    fn after(self, over: bool) -> Option<Patience>
        ensures parts { IfSome result (λ left. (0 < left.parts) × (left.parts + 1 ≡ self.parts)) }
        ensures last { IfSome result (λ left. (0 < left.last) × (left.last + (if over then 1 else 0) ≡ self.last)) }
        ensures spent { IfNone result ((self.parts ≤ 1) ⊎ (self.last ≤ (if over then 1 else 0))) }
    {
        let parts = self.parts.checked_sub(1)?;
        let last = self.last.checked_sub(u64::from(over))?;
        if parts == 0 || last == 0 {
            return None;
        }
        Some(Patience { parts, last })
    }
}

/// Has each of the system's writes wait 100 milliseconds at most, and no longer than `limit`.
///
/// # Errors
/// Where the system takes no limit.
pub(crate) fn limit_writes(stream: &TcpStream, limit: u64) -> io::Result<()> {
    stream.set_write_timeout(Some(Duration::from_millis(part_of(limit))))
}

/// Writes once. A write that is interrupted goes on, and so does one of which nothing was taken, until the other side has taken
/// nothing for `limit` milliseconds, or for half a second since the owner was over.
pub(crate) fn write_once<O: Owner>(
    stream: &TcpStream,
    owner: &O,
    limit: u64,
    buf: &[u8],
) -> io::Result<usize>
    ensures { WritesAtMost result buf.now }
{
    let mut writer = stream;
    let mut patience = Patience::new(limit);
    for _ in 0..patience.parts.saturating_add(TRIES) {
        match writer.write(buf) {
            Ok(count) => return Ok(count),
            Err(error) => match error.kind() {
                ErrorKind::Interrupted => {}
                ErrorKind::WouldBlock => match patience.after(owner.is_over()) {
                    Some(left) => patience = left,
                    None => return Err(error),
                },
                _ => return Err(error),
            },
        }
    }
    Err(ErrorKind::Interrupted.into())
}
