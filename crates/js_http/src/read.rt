//! Reads from a stream, counted.
ghost use Rattle.std.specs.Prelude.{◌≡◌, ◌+◌, ◌-◌, ◌<◌, ◌≤◌, ◌++◌, ℕ, List, [], length, vec_len, OnOk, MatchResult};
ghost use Rattle.std.specs.Io.KnownBytes.{Consumes};
ghost use Rattle.js_http.specs.Reading.{ReadsSome, HasHead, HasBody, LacksBody};
ghost use Rattle.js_http.specs.Requests.{Refuses};

use crate::HttpRefusal;
use crate::head::{Head, MAX_HEAD_LEN, parse_head};
use crate::watch::Watch;
use std::alloc::Global;
use std::io::Read;

/// How many reads that give bytes one request takes at most: no more than it has bytes.
pub const MAX_READS: u32 = 16_793_600;

/// How many bytes are asked for in one read at most.
pub(crate) const READ_LEN: usize = 16_384;

/// Reads once, and adds what came to `bytes`, which then has at most `most` bytes. `room` is overwritten.
fn read_some<R: Read>(
    reader: &mut R,
    room: &mut [u8],
    bytes: &mut Vec<u8>,
    most: usize,
    reads: &mut u32,
) -> Result<(), HttpRefusal>
    requires room { vec_len bytes.old < most }
    requires within_limit { reads.old < MAX_READS }
    ensures bytes { (received : List ℕ)
        × Consumes (R.remaining reader.old) (R.remaining reader.new) received
        × ReadsSome bytes.old.items bytes.new.items (most - vec_len bytes.old) received result }
    ensures counted { reads.new ≤ reads.old + 1 }
{
    let asked = (most - bytes.len()).min(room.len());
    match reader.read(&mut room[..asked]) {
        Ok(count) if count > 0 => {
            bytes.extend_from_slice(&room[..count])?;
            *reads += 1;
            Ok(())
        }
        _ => Err(HttpRefusal::Ended),
    }
}

/// The head that stands there where nothing more is read, or why there is none.
fn last_head(alloc: Global, bytes: Vec<u8>) -> Result<(Head, Vec<u8>), HttpRefusal>
    requires { vec_len bytes ≤ 16384 }
    ensures { MatchResult result (λ found. HasHead bytes.items found.0 found.1.items) (Refuses bytes.items) }
{
    match parse_head(alloc, &bytes)? {
        Some(head) => Ok((head, bytes)),
        None => {
            if bytes.len() >= MAX_HEAD_LEN {
                Err(HttpRefusal::HeaderFieldsTooLarge)
            } else {
                Err(HttpRefusal::Ended)
            }
        }
    }
}

/// Reads until a head is whole. Beside it stands all that received.
pub(crate) fn read_head<R: Read>(
    alloc: Global,
    reader: &mut R,
    room: &mut [u8],
    reads: &mut u32,
) -> Result<(Head, Vec<u8>), HttpRefusal>
    requires { reads.old ≡ 0 }
    ensures taken { (taken : List ℕ)
        × Consumes (R.remaining reader.old) (R.remaining reader.new) taken
        × (length taken ≤ 16384) × MatchResult result (λ found. HasHead taken found.0 found.1.items) (Refuses taken) }
    ensures counted { OnOk result (reads.new ≤ 16384) }
{
    let mut bytes = Vec::new(alloc);
    let mut watch = Watch::new();
    'head: while bytes.len() < MAX_HEAD_LEN {
        let held = bytes.len();
        match read_some(reader, room, &mut bytes, MAX_HEAD_LEN, reads) {
            Ok(()) => watch.note(&bytes[held..]),
            Err(HttpRefusal::Ended) => return last_head(alloc, bytes),
            Err(_) => return Err(HttpRefusal::Memory),
        }
        if watch.is_due(bytes.len()) {
            if let Some(head) = parse_head(alloc, &bytes)? {
                return Ok((head, bytes));
            }
        }
    }
    last_head(alloc, bytes)
}

/// Reads until `len` bytes of body are there, of which `start` received with the head. Its memory grows as they come.
pub(crate) fn read_body<R: Read>(
    alloc: Global,
    reader: &mut R,
    room: &mut [u8],
    start: &[u8],
    len: usize,
    reads: &mut u32,
) -> Result<Vec<u8>, HttpRefusal>
    requires small { len ≤ 16777216 }
    requires counted { reads.old ≤ 16384 }
    ensures received { (received : List ℕ)
        × Consumes (R.remaining reader.old) (R.remaining reader.new) received
        × (length received ≤ len) × MatchResult result (λ body. HasBody start.now received len body.items) (LacksBody start.now received len) }
{
    let mut body = Vec::new(alloc);
    body.extend_from_slice(&start[..start.len().min(len)])?;
    'body: while body.len() < len {
        read_some(reader, room, &mut body, len, reads)?;
    }
    Ok(body)
}
