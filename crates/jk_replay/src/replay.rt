//! A replay from its first line to its end.

ghost use Rattle.std.specs.Prelude.{◌≡◌, ◌-◌, ◌+◌, ◌≤◌, ℕ, List, [], length, OnOk};
ghost use Rattle.std.specs.Io.KnownBytes.{Consumes, Appends};
ghost use Rattle.jk_replay.specs.Playing.{LinePlayed, SlicePlayed, SlicesPlayed, of_input};
ghost use Rattle.jk_replay.specs.Replays.{Replays, EndIs};
ghost use Rattle.jk_replay.specs.Writing.{WritesFront};
ghost use Rattle.jk_replay.specs.declared.replay.ReplayFault.TheVariants as fault_as;

use crate::input::{Input, InputFault, Line};
use crate::replaying::Replay;
use crate::step::read_step;
use jk_core::{Kernel, Work};
use jk_language::Language;
use json_form::{Bad, Fault};
use std::alloc::{AllocError, Global};
use std::io;
use std::io::{ErrorKind, Read, Write};

/// How a replay ended.
#[derive(Clone, Copy, Debug, PartialEq, Eq)]
pub enum End {
    /// No cell runs, and no request waits.
    Rest,
    /// A cell runs, or a request waits.
    WorkLeft,
}

/// Which device failed.
#[derive(Clone, Copy, Debug, PartialEq, Eq)]
pub enum Side {
    /// Reading failed, or the input is too long.
    Input,
    /// Writing failed.
    Output,
}

/// Why a replay stopped.
#[derive(Clone, Copy, Debug, PartialEq, Eq)]
pub enum ReplayFault {
    /// The line of this number, from 1, is refused. The lines before it took effect.
    Line(u64, Fault),
    Memory,
    /// Where the input failed all is written that was shown, and where the output failed a beginning of it.
    Device(Side),
}

impl From<AllocError> for ReplayFault {
    ghost from_gives = { λ _ e. e ≡ fault_as.Memory };

    fn from(_e: AllocError) -> ReplayFault {
        ReplayFault::Memory
    }
}

impl From<InputFault> for ReplayFault {
    ghost from_gives = { λ fault e. e ≡ of_input fault };

    fn from(fault: InputFault) -> ReplayFault {
        match fault {
            InputFault::Device => ReplayFault::Device(Side::Input),
            InputFault::Memory => ReplayFault::Memory,
        }
    }
}

/// How many slices are worked after the last line, and how many turns each has.
const LAST_SLICES: u32 = 1000;

const LAST_TURNS: u64 = 1000;

/// Writes all the bytes, or stops at the first fault.
fn write_bytes<W: Write>(writer: &mut W, bytes: &[u8]) -> io::Result<()>
    ensures { WritesFront (W.contents writer.old) (W.contents writer.new) bytes.now result }
{
    let mut rest = bytes;
    'rest: while !rest.is_empty() {
        let count = writer.write(rest)?;
        if count == 0 {
            return Err(ErrorKind::WriteZero.into());
        }
        rest = &rest[count..];
    }
    Ok(())
}

/// Reads a line, and writes what it shows.
fn play_line<L: Language, W: Write>(
    alloc: Global,
    replay: &mut Replay<Kernel<L>>,
    number: u64,
    line: &[u8],
    writer: &mut W,
) -> Result<(), ReplayFault>
    ensures { (front : List ℕ) × Appends (W.contents writer.old) (W.contents writer.new) front
        × LinePlayed L.spoken line.now number replay.old replay.new front result }
{
    if line.is_empty() {
        return Ok(());
    }
    let step = match read_step(alloc, line) {
        Ok(step) => step,
        Err(Bad::Fault(fault)) => return Err(ReplayFault::Line(number, fault)),
        Err(Bad::Memory) => return Err(ReplayFault::Memory),
    };
    let step = match replay.admitted(step) {
        Ok(step) => step,
        Err(fault) => return Err(ReplayFault::Line(number, fault)),
    };
    let lines = replay.step(alloc, step)?;
    if write_bytes(writer, lines.as_bytes()).is_err() {
        return Err(ReplayFault::Device(Side::Output));
    }
    Ok(())
}

/// Works a slice after the last line, and writes what it shows. The answer is what it came to.
fn play_slice<L: Language, W: Write>(
    alloc: Global,
    replay: &mut Replay<Kernel<L>>,
    writer: &mut W,
) -> Result<Work, ReplayFault>
    ensures { (front : List ℕ) × Appends (W.contents writer.old) (W.contents writer.new) front
        × SlicePlayed L.spoken replay.old replay.new front result }
{
    let (answer, lines) = replay.slice(alloc, LAST_TURNS)?;
    if write_bytes(writer, lines.as_bytes()).is_err() {
        return Err(ReplayFault::Device(Side::Output));
    }
    Ok(answer)
}

/// Whether a kernel rests.
fn end_of<L: Language>(kernel: &Kernel<L>) -> End
    ensures { EndIs result kernel.now }
{
    if kernel.is_at_rest() {
        End::Rest
    } else {
        End::WorkLeft
    }
}

/// Works slices until the kernel rests or asks, at most `LAST_SLICES`.
fn finish<L: Language, W: Write>(
    alloc: Global,
    replay: &mut Replay<Kernel<L>>,
    writer: &mut W,
) -> Result<End, ReplayFault>
    ensures { (front : List ℕ) × Appends (W.contents writer.old) (W.contents writer.new) front
        × SlicesPlayed L.spoken replay.old front result }
{
    let mut slices = 0;
    'slices: while slices < LAST_SLICES {
        if play_slice(alloc, replay, writer)? != Work::Ran {
            return Ok(end_of(&replay.kernel));
        }
        slices += 1;
    }
    Ok(end_of(&replay.kernel))
}

/// Replays lines on a kernel of its own, on one thread.
///
/// A line is a message (of the Jupyter protocol, with a field `seat` from 0 to 7, default 0), which its seat sends and
/// the kernel takes; or `{"run":N}`, a slice of N turns; or `{"leave":S}`, by which a seat that has joined leaves. A seat
/// joins with its first line, and anew with the first after it left. An empty line is skipped. After each line
/// its entries are written, each as a line of compact JSON with the keys `channel`, `content`, `msg_type`, `parent` (the
/// identifier of the message that it is for) and `to` (`"all"` or a seat). Behind the last line slices of 1,000
/// turns are worked until the kernel rests or asks for a line, at most 1,000 of them.
///
/// It takes at most 67,108,865 bytes, the last one only to find that the input is too long. What it writes is what
/// `Replays` says for what it read: the entries of a legal log that go to all or to a seat, and where writing fails a
/// beginning of them.
///
/// # Errors
///
/// `Line` where a line is refused, `Memory` where memory is wanting, `Device` where a device failed or the input is too
/// long. What the lines before show is written then, but for a failing writer.
pub fn replay_lines<L: Language, R: Read, W: Write>(
    alloc: Global,
    reader: &mut R,
    writer: &mut W,
) -> Result<End, ReplayFault>
    ensures { (input written : List ℕ) × Consumes (R.remaining reader.old) (R.remaining reader.new) input × (length input ≤ 67108865)
        × Appends (W.contents writer.old) (W.contents writer.new) written
        × Replays L.spoken input (R.remaining reader.new) written result }
{
    let mut input = Input::new(alloc);
    let mut replay: Replay<Kernel<L>> = Replay::new(alloc)?;
    let mut number: u64 = 0;
    'lines: loop {
        let taken = input.next_line(alloc, reader)?;
        number += 1;
        match taken {
            Line::Ended(line) => play_line(alloc, &mut replay, number, line.as_slice(), writer)?,
            Line::Last(line) => {
                play_line(alloc, &mut replay, number, line.as_slice(), writer)?;
                return finish(alloc, &mut replay, writer);
            }
            Line::Long => return Err(ReplayFault::Line(number, Fault::TooLong)),
        }
    }
}
