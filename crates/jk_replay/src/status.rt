//! How the program ends: its status, and what it tells on its standard error.

ghost use Rattle.std.specs.Prelude.{◌≡◌, ◌≤◌, ℕ, List, Result, length, OnOk};
ghost use Rattle.std.specs.Io.KnownBytes.{Consumes, Appends};
ghost use Rattle.jk_replay.specs.declared.replay.End.{End};
ghost use Rattle.jk_replay.specs.declared.replay.ReplayFault.{ReplayFault};
ghost use Rattle.jk_replay.specs.Replays.{Replays};
ghost use Rattle.jk_replay.specs.Statuses as spec;

use crate::replay::{End, ReplayFault, replay_lines};
use jk_language::Language;
use jp_msg::number_of;
use std::alloc::Global;
use std::io;
use std::io::{Read, Write};

/// The status where a device failed.
const DEVICE_FAILED: u8 = 4;

/// The status by how a replay ended.
fn status_of(ended: Result<End, ReplayFault>) -> u8
    ensures { result ≡ spec.status_of ended }
{
    match ended {
        Ok(End::Rest) => 0,
        Err(ReplayFault::Line(_, _)) => 1,
        Err(ReplayFault::Memory) => 2,
        Ok(End::WorkLeft) => 3,
        Err(ReplayFault::Device(_)) => DEVICE_FAILED,
    }
}

/// Tells how a replay ended. Nothing is told where the kernel rests.
fn tell<E: Write>(ended: Result<End, ReplayFault>, errors: &mut E) -> io::Result<()>
    ensures { OnOk result (Appends (E.contents errors.old) (E.contents errors.new) (spec.told_of ended)) }
{
    match ended {
        Ok(End::Rest) => Ok(()),
        Ok(End::WorkLeft) => errors.write_all(b"work left\n"),
        Err(ReplayFault::Line(number, fault)) => {
            let bad = number_of(fault);
            write!(errors, "line {number}: bad {bad}\n")
        }
        Err(ReplayFault::Memory) => errors.write_all(b"out of memory\n"),
        Err(ReplayFault::Device(_)) => errors.write_all(b"device failed\n"),
    }
}

/// Tells how a replay ended, and answers the program's status: 0 where the kernel rests, 1 where a line was refused, 2
/// for lack of memory, 3 where work is left, 4 where a device failed. It is 4 too where telling fails.
pub fn ended_status<E: Write>(ended: Result<End, ReplayFault>, errors: &mut E) -> u8
    ensures { spec.Tells (E.contents errors.old) (E.contents errors.new) (spec.told_of ended) (spec.status_of ended) result }
{
    match tell(ended, errors) {
        Ok(()) => status_of(ended),
        Err(_) => DEVICE_FAILED,
    }
}

/// Tells how the program is to be called, and answers the status of wrong arguments, 1; or 4 where telling fails.
pub fn usage_status<E: Write>(errors: &mut E) -> u8
    ensures { spec.Tells (E.contents errors.old) (E.contents errors.new) spec.usage 1 result }
{
    match errors.write_all(b"usage: jupyter_oberon replay | serve PORT ROOT\n") {
        Ok(()) => 1,
        Err(_) => DEVICE_FAILED,
    }
}

/// Replays lines, as [`replay_lines`] does, tells on the error writer what is wrong, and answers the program's status.
pub fn replay_status<L: Language, R: Read, W: Write, E: Write>(
    alloc: Global,
    reader: &mut R,
    writer: &mut W,
    errors: &mut E,
) -> u8
    ensures { (input written : List ℕ) × (ended : Result End ReplayFault)
        × Consumes (R.remaining reader.old) (R.remaining reader.new) input × (length input ≤ 67108865)
        × Appends (W.contents writer.old) (W.contents writer.new) written
        × Replays L.spoken input (R.remaining reader.new) written ended
        × spec.Tells (E.contents errors.old) (E.contents errors.new) (spec.told_of ended) (spec.status_of ended) result }
{
    let ended = replay_lines::<L, R, W>(alloc, reader, writer);
    ended_status(ended, errors)
}
