//! Lines from a reader.

ghost use Rattle.std.specs.Prelude.{◌≡◌, ◌+◌, ◌<◌, ◌≤◌, ◌++◌, ◌∷◌, ℕ, List, [], length, drop, take, OnOk, OnErr, IfOk, MatchOption, MatchResult};
ghost use Rattle.jk_replay.specs.Lines.{IsOneLine, TakesLine};
ghost use Rattle.jk_replay.specs.Held.{Comes, Refills, LeavesOver};
ghost use Rattle.jk_replay.specs.declared.input.InputFault.TheVariants.{Memory};

use std::alloc::{AllocError, Global};
use std::io::Read;
use std::marker::Model;

/// How many bytes of input there may be.
const MAX_INPUT: usize = 67_108_864;

/// How many bytes a line may have.
pub(crate) const MAX_LINE: usize = 1_048_576;

/// How many bytes one read asks for.
const PIECE: usize = 16_384;

/// The next line of input.
#[derive(Drop)]
pub enum Line {
    /// A line with a line end after it.
    Ended(Vec<u8>),
    /// What stands after the last line end.
    Last(Vec<u8>),
    /// A line that has more bytes than a line may have.
    Long,
}

/// Why no line comes.
#[derive(Clone, Copy, Debug, PartialEq, Eq)]
pub enum InputFault {
    /// The reader failed, or the input is too long.
    Device,
    Memory,
}

impl From<AllocError> for InputFault {
    ghost from_gives = { λ _ e. e ≡ Memory };

    fn from(_e: AllocError) -> InputFault {
        InputFault::Memory
    }
}

/// What was read and not handed out yet, and how many bytes were read in all.
#[derive(Drop)]
pub struct Input {
    bytes: Vec<u8>,
    start: usize,
    taken: usize,
}

impl Model for Input {
    ghost use Rattle.std.specs.Prelude.{◌≤◌, length, drop};
    ghost use Rattle.jk_replay.specs.Held.{InputState, most_input};

    ghost Value = { InputState };

    ghost view = { λ i. record { held = drop i.start i.bytes.items; taken = i.taken } };

    ghost invariant = { λ i. record { start : i.start ≤ length i.bytes.items; taken : i.taken ≤ most_input } };
}

/// How many bytes stand before the first line end.
fn line_length(bytes: &[u8]) -> usize
    ensures within { result ≤ length bytes.now }
    ensures line { IsOneLine (take result bytes.now) }
    ensures end { result < length bytes.now → drop result bytes.now ≡ 10 ∷ drop (result + 1) bytes.now }
{
    let mut count = 0;
    for byte in bytes {
        if *byte == b'\n' {
            return count;
        }
        count += 1;
    }
    count
}

impl Input {
    /// Nothing read.
    pub fn new(alloc: Global) -> Input
        ensures { result ≡ record { held = []; taken = 0 } }
    {
        Input {
            bytes: Vec::new(alloc),
            start: 0,
            taken: 0,
        }
    }

    /// A line that is held with its line end.
    fn held_line(&mut self, alloc: Global) -> Result<Option<Vec<u8>>, AllocError>
        ensures taken { self.new.taken ≡ self.old.taken }
        ensures found { IfOk result (λ found. MatchOption found
            ((self.new ≡ self.old) × IsOneLine self.old.held)
            (λ line. (self.old.held ≡ line.items ++ 10 ∷ self.new.held) × IsOneLine line.items)) }
        ensures err { OnErr result (self.new ≡ self.old) }
    {
        let held = &self.bytes[self.start..];
        let count = line_length(held);
        if count == held.len() {
            return Ok(None);
        }
        let line = Vec::from_slice(alloc, &held[..count])?;
        self.start += count + 1;
        Ok(Some(line))
    }

    /// Lets go of what was handed out.
    fn compact(&mut self, alloc: Global) -> Result<(), AllocError>
        ensures { self.new ≡ self.old }
    {
        if self.start > 0 {
            let rest = Vec::from_slice(alloc, &self.bytes[self.start..])?;
            self.bytes = rest;
            self.start = 0;
        }
        Ok(())
    }

    /// Holds more bytes after those that are held.
    #[tactic(auto, using(crate::proofs::InputLemmas::held_more))]
    fn keep(&mut self, alloc: Global, piece: &[u8]) -> Result<(), AllocError>
        ensures taken { self.new.taken ≡ self.old.taken }
        ensures held { OnOk result (self.new.held ≡ self.old.held ++ piece.now) }
    {
        self.compact(alloc)?;
        self.bytes.extend_from_slice(piece)?;
        Ok(())
    }

    /// Reads once. The answer is whether something came, and else the input is at its end.
    fn refill<R: Read>(&mut self, alloc: Global, reader: &mut R) -> Result<bool, InputFault>
        ensures { (came : List ℕ)
            × Comes (R.remaining reader.old) (R.remaining reader.new) self.old self.new came
            × Refills (R.remaining reader.new) self.old self.new came result }
    {
        if self.taken > MAX_INPUT {
            return Err(InputFault::Device);
        }
        let mut piece = [0u8; PIECE];
        let room = (MAX_INPUT - self.taken).min(piece.len()).max(1);
        match reader.read(&mut piece[..room]) {
            Err(_) => Err(InputFault::Device),
            Ok(0) => Ok(false),
            Ok(count) => {
                self.taken += count;
                if self.taken > MAX_INPUT {
                    return Err(InputFault::Device);
                }
                self.keep(alloc, &piece[..count])?;
                Ok(true)
            }
        }
    }

    /// The next line.
    ///
    /// # Errors
    ///
    /// `Device` where reading fails or the input is too long, `Memory`. What was read counts all the same.
    pub fn next_line<R: Read>(&mut self, alloc: Global, reader: &mut R) -> Result<Line, InputFault>
        ensures { (came : List ℕ)
            × Comes (R.remaining reader.old) (R.remaining reader.new) self.old self.new came
            × MatchResult result
            (λ line. TakesLine (self.old.held ++ came) line self.new.held (R.remaining reader.new))
            (λ fault. LeavesOver fault self.new.taken (self.old.held ++ came)) }
    {
        'pieces: loop {
            if let Some(line) = self.held_line(alloc)? {
                return Ok(Line::Ended(line));
            }
            if self.bytes.len() - self.start > MAX_LINE {
                return Ok(Line::Long);
            }
            if !self.refill(alloc, reader)? {
                let line = Vec::from_slice(alloc, &self.bytes[self.start..])?;
                return Ok(Line::Last(line));
            }
        }
    }
}
