//! A line on its way into the buffer.

ghost use Rattle.std.specs.Prelude.{◌≡◌, ◌≤◌, ◌+◌, ◌++◌, length, map, IsOk};
ghost use Rattle.std.specs.Str.{chars};
ghost use Rattle.std.specs.Vec.{vec_len, vec_capacity};
ghost use Rattle.ob_inout.specs.Reading as spec;

use std::alloc::AllocError;

/// A character as a CHAR: `?` past U+00FF.
fn char_of(c: char) -> u8
    ensures { result ≡ spec.char_of c }
{
    u8::try_from(c).unwrap_or(b'?')
}

/// Appends a text's characters and the end of the line, for which there is room.
#[tactic(auto, unfolding(crate::specs::Reading::line_of))]
pub(crate) fn append_line(line: &mut Vec<u8>, text: &str) -> Result<(), AllocError>
    requires room { vec_len line.old + length text.now + 1 ≤ vec_capacity line.old }
    ensures ok { IsOk result }
    ensures items { line.new.items ≡ line.old.items ++ spec.line_of text.now }
{
    append_chars(line, text)?;
    line.push(b'\n')?;
    Ok(())
}

fn append_chars(line: &mut Vec<u8>, text: &str) -> Result<(), AllocError>
    requires room { vec_len line.old + length text.now ≤ vec_capacity line.old }
    ensures ok { IsOk result }
    ensures items { line.new.items ≡ line.old.items ++ map spec.char_of (chars text.now) }
    ensures len { vec_len line.new ≤ vec_len line.old + length text.now }
    ensures capacity { vec_capacity line.old ≤ vec_capacity line.new }
{
    for c in text.chars() {
        line.push(char_of(c))?;
    }
    Ok(())
}
