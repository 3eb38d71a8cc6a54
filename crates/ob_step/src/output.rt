//! What a machine writes, which is limited.

ghost use Rattle.std.specs.Prelude.{◌≡◌, ◌+◌, ◌≤◌, length, string_bytes, map, OnOk, OnErr};
ghost use Rattle.ob_inout.specs.Writing.{char_text, int_text, line_end, string_text};
ghost use Rattle.ob_mean.specs.Texts as texts;
ghost use Rattle.ob_step.specs.Written.{emptied, in_all, longer, most_output, nothing};

use crate::texts::{text_size, write_text};
use ob_inout::{put_char, put_int, put_line_end};
use std::alloc::{AllocError, Global};
use std::marker::Model;
use std::mem;

/// How many bytes a machine writes in all at most. A text that would make it more is refused as memory is.
pub const MOST_OUTPUT: usize = 16_777_216;

/// What a machine wrote since its output was taken last. It knows how many bytes were taken before.
#[derive(Drop)]
pub struct Output {
    text: String,
    taken: usize,
    // The last number, in use again for each.
    number: String,
}

impl Model for Output {
    ghost use Rattle.std.specs.Prelude.{◌+◌, ◌≤◌, length, string_bytes};
    ghost use Rattle.ob_step.specs.Written.{Written, most_output};

    ghost Value = { Written };

    ghost view = { λ o. record { bytes = string_bytes o.text; taken = o.taken } };

    ghost invariant = { λ o. o.taken + length (string_bytes o.text) ≤ most_output };
}

/// Whether `more` bytes more may be written.
fn allow(written: usize, more: usize) -> Result<(), AllocError>
    requires { written ≤ most_output }
    ensures { OnOk result (written + more ≤ most_output) }
{
    if more > MOST_OUTPUT - written {
        return Err(AllocError);
    }
    Ok(())
}

impl Output {
    /// Nothing yet. It takes no memory.
    pub fn new(alloc: Global) -> Output
        ensures { result ≡ nothing }
    {
        Output {
            text: String::new(alloc),
            taken: 0,
            number: String::new(alloc),
        }
    }

    /// How many bytes were written in all.
    pub fn in_all(&self) -> usize
        ensures value { result ≡ in_all self.now }
        ensures most { result ≤ most_output }
    {
        self.taken + self.text.len()
    }

    /// What was written since the output was taken last. It takes no memory.
    pub fn take(&mut self) -> String
        ensures bytes { string_bytes result ≡ self.old.bytes }
        ensures rest { self.new ≡ emptied self.old }
    {
        let alloc = *self.text.allocator();
        self.taken += self.text.len();
        mem::replace(&mut self.text, String::new(alloc))
    }

    /// Out.Char. Where memory or the limit refuses it nothing is written.
    #[tactic(auto, unfolding(ob_inout::specs::Writing::char_text))]
    pub fn put_char(&mut self, character: u8) -> Result<(), AllocError>
        ensures ok { OnOk result (self.new ≡ longer self.old (char_text character)) }
        ensures err { OnErr result (self.new ≡ self.old) }
    {
        allow(self.in_all(), char::from(character).len_utf8())?;
        put_char(&mut self.text, character)
    }

    /// Out.String, of a row of cells. Where memory or the limit refuses it nothing is written.
    pub fn put_row(&mut self, row: &[i32]) -> Result<(), AllocError>
        ensures ok { OnOk result (self.new ≡ longer self.old (string_text (map texts.character row.now))) }
        ensures err { OnErr result (self.new ≡ self.old) }
    {
        let size = text_size(row);
        allow(self.in_all(), size)?;
        write_text(&mut self.text, row, size)
    }

    /// Out.Int. Where memory or the limit refuses it nothing is written.
    pub fn put_int(&mut self, value: i32, width: i32) -> Result<(), AllocError>
        ensures ok { OnOk result (self.new ≡ longer self.old (int_text value width)) }
        ensures err { OnErr result (self.new ≡ self.old) }
    {
        self.number.clear();
        put_int(&mut self.number, value, width)?;
        allow(self.in_all(), self.number.len())?;
        self.text.push_str(self.number.as_str())
    }

    /// Out.Ln. Where memory or the limit refuses it nothing is written.
    pub fn put_line_end(&mut self) -> Result<(), AllocError>
        ensures ok { OnOk result (self.new ≡ longer self.old line_end) }
        ensures err { OnErr result (self.new ≡ self.old) }
    {
        allow(self.in_all(), 1)?;
        put_line_end(&mut self.text)
    }
}
