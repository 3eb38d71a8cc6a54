//! The machine of the tests' language.

ghost use Rattle.std.specs.Prelude.{◌≡◌, ◌+◌, ◌<◌, ◌^◌, IsTrue, ◌↔◌, length, true, false, None, IsOk, OnOk, OnErr, option_copied, slice_index, string_bytes};
ghost use Rattle.jk_language.specs.MachineState.{here};
ghost use Rattle.jk_language.specs.Runs.{HasTurned, unshown, output_taken, line_given};
ghost use Rattle.std.specs.Vec.{vec_len, vec_capacity};
ghost use Rattle.test_meaning.specs.Texts.{is_silent, shown_by, first_of};
ghost use Rattle.test_language.specs.Standing.{IsStanding};

use jk_language::{Name, Trap, Turned};
use std::alloc::{AllocError, Global};
use std::mem;
use test_meaning::{Text, begins_with};

/// A cell that runs.
#[derive(Drop)]
pub struct Machine {
    alloc: Global,
    start: u8,
    text: Text,
    lines: Vec<Option<Text>>,
    session: u8,
    turns: usize,
    asks: bool,
    over: bool,
    output: String,
    ghost stands: { IsStanding start text lines.items session turns asks (string_bytes output) },
    ghost room: { asks ≡ true → vec_len lines < vec_capacity lines },
}

impl Machine {
    ghost use Rattle.test_language.specs.States.{machine_state, IsNew, IsEnding};

    /// A machine before the first turn.
    pub fn new(alloc: Global, session: u8, text: Text) -> Machine
        ensures { IsNew session text (machine_state result) }
    {
        Machine {
            alloc,
            start: session,
            text,
            lines: Vec::new(alloc),
            session,
            turns: 0,
            asks: false,
            over: false,
            output: String::new(alloc),
        }
    }

    fn is_at_end(&self) -> bool
        ensures { IsTrue result ↔ (self.now.turns ≡ length self.now.text) }
    {
        self.turns == self.text.as_slice().len()
    }

    /// How the cell ends.
    fn ending(&self) -> Turned
        ensures { IsEnding self.now.text result }
    {
        if begins_with(self.text.as_slice(), b'!') {
            let module = Name::from_vec(Vec::new(self.alloc));
            return Turned::Trapped(Trap {
                number: 2,
                module,
                line: 1,
            });
        }
        Turned::Ended
    }

    /// Takes the turn of the next byte.
    fn step(&mut self) -> Result<(), AllocError>
        requires on { self.old.asks ≡ false }
        requires more { self.old.turns < length self.old.text }
        ensures ok { OnOk result (machine_state self.new ≡ record (machine_state self.old) { turns = self.old.turns + 1; asks = self.new.asks }) }
        ensures err { OnErr result (machine_state self.new ≡ machine_state self.old) }
        ensures wants { OnErr result (is_silent (slice_index self.old.text self.old.turns) ≡ false) }
    {
        let byte = self.text.as_slice()[self.turns];
        if byte == b'?' {
            self.lines.reserve(1)?;
            self.asks = true;
            self.turns += 1;
            return Ok(());
        }
        if is_silent(byte) {
            self.turns += 1;
            return Ok(());
        }
        let shown = shown_by(self.session, byte);
        self.output.push(char::from(shown))?;
        self.session = shown;
        self.turns += 1;
        Ok(())
    }

    /// Goes on by at most `most` turns.
    pub fn turns(&mut self, most: u64) -> Turned
        requires { self.old.over ≡ false }
        ensures { HasTurned (machine_state self.old) most result (machine_state self.new) }
    {
        if self.asks {
            return Turned::NeedsLine;
        }
        for given in 0..most {
            if self.is_at_end() {
                self.over = true;
                return self.ending();
            }
            match self.step() {
                Err(_) => return Turned::NoMemory,
                Ok(()) => {
                    if self.asks {
                        return Turned::NeedsLine;
                    }
                }
            }
        }
        if self.is_at_end() {
            self.over = true;
            return self.ending();
        }
        Turned::Stopped
    }

    /// Gives the line that was asked for.
    pub fn give_line(&mut self, line: Option<&str>) -> Result<(), AllocError>
        requires { self.old.asks ≡ true }
        ensures ok { OnOk result (machine_state self.new ≡ line_given (option_copied line.entry) (machine_state self.old)) }
        ensures err { OnErr result (machine_state self.new ≡ machine_state self.old) }
        ensures none { option_copied line.entry ≡ None → IsOk result }
    {
        match line {
            Some(line) => {
                let kept = Text::from_slice(self.alloc, line.as_bytes())?;
                self.keep_line(Some(kept));
            }
            None => self.keep_line(None),
        }
        Ok(())
    }

    fn keep_line(&mut self, line: Option<Text>)
        requires { self.old.asks ≡ true }
        ensures { machine_state self.new ≡ line_given line (machine_state self.old) }
    {
        let session = first_of(&line);
        match self.lines.push(line) {
            Ok(()) => {
                self.session = session;
                self.asks = false;
            }
            // Room was made when the line was asked for.
            Err(_) => unreachable!(),
        }
    }

    /// The turns so far.
    pub fn used(&self) -> u64
        ensures { result ≡ self.now.turns }
    {
        self.turns as u64
    }

    /// The output since it was taken last.
    pub fn take_output(&mut self) -> String
        ensures output { string_bytes result ≡ unshown (machine_state self.old) }
        ensures after { machine_state self.new ≡ output_taken (machine_state self.old) }
    {
        mem::replace(&mut self.output, String::new(self.alloc))
    }

    /// What the cell leaves to the next.
    pub fn finish(self) -> u8
        ensures { result ≡ (here (machine_state self)).session }
    {
        self.session
    }
}

/// Whether a byte shows nothing.
fn is_silent(byte: u8) -> bool
    ensures { result ≡ is_silent byte }
{
    byte == b'.' || byte == b'!' || byte == b'@'
}

/// What a byte shows, and the session keeps.
fn shown_by(session: u8, byte: u8) -> u8
    ensures { result ≡ shown_by session byte }
{
    if byte == b'$' { session } else { byte }
}

/// What the session keeps of a line.
fn first_of(line: &Option<Text>) -> u8
    ensures { result ≡ first_of line.now }
{
    match line {
        Some(text) => text.as_slice().first().copied().unwrap_or(0),
        None => 0,
    }
}
