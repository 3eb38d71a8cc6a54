//! Readers and writers that give and take a little at a time, and fail when they are told to.

use jk_language::Language;
use jk_replay::{End, ReplayFault, replay_lines};
use std::alloc::Global;
use std::io;
use std::io::{ErrorKind, Read, Write};

/// Gives at most `step` bytes a read, and fails at read number `fault`, counted from 1.
#[derive(Drop)]
pub struct Trickle<'a> {
    pub rest: &'a [u8],
    pub step: usize,
    pub reads: u64,
    pub fault: u64,
}

impl Read for Trickle<'_> {
    fn read(&mut self, buf: &mut [u8]) -> io::Result<usize> {
        self.reads = self.reads.wrapping_add(1);
        if self.reads == self.fault {
            return Err(ErrorKind::ConnectionReset.into());
        }
        let count = self.rest.len().min(buf.len()).min(self.step);
        buf[..count].copy_from_slice(&self.rest[..count]);
        self.rest = &self.rest[count..];
        Ok(count)
    }
}

/// Takes at most 7 bytes a write, and fails at write number `fault`, counted from 1.
#[derive(Drop)]
pub struct Limited {
    pub written: Vec<u8>,
    pub writes: u64,
    pub fault: u64,
}

impl Write for Limited {
    fn write(&mut self, buf: &[u8]) -> io::Result<usize> {
        self.writes = self.writes.wrapping_add(1);
        if self.writes == self.fault {
            return Err(ErrorKind::ConnectionReset.into());
        }
        let count = buf.len().min(7);
        self.written.extend_from_slice(&buf[..count])?;
        Ok(count)
    }

    fn flush(&mut self) -> io::Result<()> {
        Ok(())
    }
}

impl Limited {
    /// A writer that holds nothing.
    pub fn new(alloc: Global, fault: u64) -> Limited {
        Limited {
            written: Vec::new(alloc),
            writes: 0,
            fault,
        }
    }
}

/// How a replay of an input ends, with what it writes. Reads and writes fail as told, 0 for never.
pub fn played<L: Language>(
    alloc: Global,
    input: &[u8],
    step: usize,
    read_fault: u64,
    write_fault: u64,
) -> (Result<End, ReplayFault>, Vec<u8>) {
    let mut reader = Trickle {
        rest: input,
        step,
        reads: 0,
        fault: read_fault,
    };
    let mut writer = Limited::new(alloc, write_fault);
    let end = replay_lines::<L, _, _>(alloc, &mut reader, &mut writer);
    (end, writer.written)
}
