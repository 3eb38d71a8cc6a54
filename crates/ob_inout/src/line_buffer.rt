//! The buffer of In.

use crate::answer::Answer;
use crate::front::{Run, integer, name, run_length, string};
use crate::line::append_line;
use std::alloc::{AllocError, Global};
use std::marker::Model;

/// The lines that In has been given and not yet used up, and In's variable `Done`.
///
/// Contracts see it as the `input` that the definition of In speaks of, and the `word` that was read last.
#[derive(Drop)]
pub struct LineBuffer {
    line: Vec<u8>,
    at: usize,
    done: bool,
    word_start: usize,
    word_end: usize,
}

impl Model for LineBuffer {
    ghost use Rattle.std.specs.Prelude.{◌-◌, ◌≤◌, take, drop, vec_len};
    ghost use Rattle.ob_inout.specs.Buffer.{Buffer};

    ghost Value = { Buffer };

    ghost view = { λ b. record {
      input = record { done = b.done; left = drop b.at b.line.items };
      word = take (b.word_end - b.word_start) (drop b.word_start b.line.items);
    } };

    ghost invariant = { λ b. (b.at ≤ vec_len b.line) × (b.word_start ≤ b.word_end) × (b.word_end ≤ vec_len b.line) };
}

impl LineBuffer {
    ghost use Rattle.std.specs.Prelude.{◌≡◌, ◌≤◌, ◌+◌, [], Some, length, take, drop, OnOk, OnErr};
    ghost use Rattle.ob_inout.specs.Reading as spec;
    ghost use Rattle.ob_inout.specs.Buffer.{fresh, failed, skipped, is_some_left, advanced, with_word, IsAnswer};

    /// An empty buffer, with `Done` TRUE, as at the start of a cell. It takes no memory.
    pub fn new(alloc: Global) -> LineBuffer
        ensures { result ≡ fresh }
    {
        LineBuffer {
            line: Vec::new(alloc),
            at: 0,
            done: true,
            word_start: 0,
            word_end: 0,
        }
    }

    /// In.Done.
    pub fn is_done(&self) -> bool
        ensures { result ≡ self.now.input.done }
    {
        self.done
    }

    /// The characters of the last string or name that was read, until the next line or `reopen`.
    pub fn word(&self) -> &[u8]
        ensures { result.now ≡ self.now.word }
    {
        &self.line[self.word_start..self.word_end]
    }

    /// In.Open: the buffer is empty and `Done` is TRUE.
    pub fn reopen(&mut self)
        ensures { self.new ≡ fresh }
    {
        self.line.clear();
        self.at = 0;
        self.done = true;
        self.word_start = 0;
        self.word_end = 0;
    }

    /// A line, which stands after what is left. It is the only call that takes memory, and after its refusal the
    /// buffer is unchanged.
    pub fn push_line(&mut self, text: &str) -> Result<(), AllocError>
        ensures ok { OnOk result (self.new ≡ record { input = spec.given (Some text.now) self.old.input; word = [] }) }
        ensures err { OnErr result (self.new ≡ self.old) }
    {
        self.line.reserve(text.len() + 1)?;
        if self.at == self.line.len() {
            self.line.clear();
            self.at = 0;
        }
        self.word_start = 0;
        self.word_end = 0;
        append_line(&mut self.line, text)
    }

    /// There is no line: the read that asked for it fails, and `Done` is FALSE.
    pub fn no_line(&mut self)
        ensures { self.new ≡ failed self.old }
    {
        self.done = false;
    }

    /// The characters that are left.
    fn left(&self) -> &[u8]
        ensures { result.now ≡ self.now.input.left }
    {
        &self.line[self.at..]
    }

    /// Uses up the blanks, and says whether anything is left then.
    fn skip_blanks(&mut self) -> bool
        ensures skipped { self.new ≡ skipped self.old }
        ensures some { result ≡ is_some_left self.new }
    {
        let blanks = run_length(Run::Blanks, self.left());
        self.at += blanks;
        self.at < self.line.len()
    }

    /// Uses up that many characters.
    fn advance(&mut self, used: usize)
        requires { used ≤ length self.old.input.left }
        ensures { self.new ≡ advanced used self.old }
    {
        self.at += used;
    }

    /// Uses up that many characters, of which `count` behind the first `start` are the word.
    fn take_word(&mut self, start: usize, count: usize, used: usize)
        requires inside { start + count ≤ used }
        requires within { used ≤ length self.old.input.left }
        ensures { self.new ≡ with_word (take count (drop start self.old.input.left)) (advanced used self.old) }
    {
        self.word_start = self.at + start;
        self.word_end = self.word_start + count;
        self.at += used;
    }

    /// In.Char: the next character. The line's end is one, 0AX.
    #[tactic(auto, unfolding(crate::specs::Reading::read_char))]
    pub fn read_char(&mut self) -> Answer<u8>
        ensures answer { result ≡ (spec.read_char [] self.old.input).answer }
        ensures after { self.new ≡ record { input = (spec.read_char [] self.old.input).input; word = self.old.word } }
    {
        if !self.is_done() {
            return Answer::Failed;
        }
        let left = self.left();
        if left.is_empty() {
            return Answer::NeedsLine;
        }
        let c = left[0];
        self.advance(1);
        Answer::Value(c)
    }

    /// In.Int: blanks, and a number in decimal, with `-` or not.
    #[tactic(auto, unfolding(crate::specs::Reading::read_int))]
    pub fn read_int(&mut self) -> Answer<i32>
        ensures answer { result ≡ (spec.read_int [] self.old.input).answer }
        ensures after { self.new ≡ record { input = (spec.read_int [] self.old.input).input; word = self.old.word } }
    {
        if !self.is_done() {
            return Answer::Failed;
        }
        if !self.skip_blanks() {
            return Answer::NeedsLine;
        }
        let Some(front) = integer(self.left()) else {
            self.no_line();
            return Answer::Failed;
        };
        self.advance(front.used);
        Answer::Value(front.value)
    }

    /// In.String, where the variable has `size` elements: blanks, and characters between quotes, fewer than
    /// `size`. They are then the buffer's `word`.
    #[tactic(auto, unfolding(crate::specs::Reading::read_string))]
    pub fn read_string(&mut self, size: usize) -> Answer<()>
        ensures answer { IsAnswer (spec.read_string size [] self.old.input).answer result self.old.word self.new.word }
        ensures after { self.new.input ≡ (spec.read_string size [] self.old.input).input }
    {
        if !self.is_done() {
            return Answer::Failed;
        }
        if !self.skip_blanks() {
            return Answer::NeedsLine;
        }
        let Some(front) = string(size, self.left()) else {
            self.no_line();
            return Answer::Failed;
        };
        self.take_word(1, front.value, front.used);
        Answer::Value(())
    }

    /// In.Name, where the variable has `size` elements: blanks, and the characters up to the next blank, fewer
    /// than `size`. They are then the buffer's `word`.
    #[tactic(auto, unfolding(crate::specs::Reading::read_name))]
    pub fn read_name(&mut self, size: usize) -> Answer<()>
        ensures answer { IsAnswer (spec.read_name size [] self.old.input).answer result self.old.word self.new.word }
        ensures after { self.new.input ≡ (spec.read_name size [] self.old.input).input }
    {
        if !self.is_done() {
            return Answer::Failed;
        }
        if !self.skip_blanks() {
            return Answer::NeedsLine;
        }
        let Some(front) = name(size, self.left()) else {
            self.no_line();
            return Answer::Failed;
        };
        self.take_word(0, front.value, front.used);
        Answer::Value(())
    }
}
