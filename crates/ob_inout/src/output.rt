//! Writers of Out.

ghost use Rattle.std.specs.Prelude.{◌≡◌, ◌+◌, ◌≤◌, ◌++◌, length, replicate, string_bytes, IsOk, OnErr, OnOk};
ghost use Rattle.std.specs.String.{string_capacity, string_len};
ghost use Rattle.ob_inout.specs.Writing as spec;

use itoa::Buffer;
use std::alloc::AllocError;

/// The widest field of a number, in characters.
const WIDEST: i32 = 1024;

/// Writes blanks up to `width` characters (at most 1,024) and then the number in decimal, as `Out.Int`.
/// Where memory runs out the output is unchanged.
#[tactic(auto, unfolding(crate::specs::Writing::int_text))]
pub fn put_int(output: &mut String, value: i32, width: i32) -> Result<(), AllocError>
    ensures ok { OnOk result (string_bytes output.new ≡ string_bytes output.old ++ spec.int_text value width) }
    ensures err { OnErr result (string_bytes output.new ≡ string_bytes output.old) }
{
    let mut digits = Buffer::new();
    let number = digits.format(value);
    let blanks = field_width(width).saturating_sub(number.len());
    output.reserve(blanks + number.len())?;
    put_blanks(output, blanks)?;
    output.push_str(number)
}

/// Writes the character of that number (a CHAR, 0 to 255), as `Out.Char`: two bytes from 128 on.
/// Where memory runs out the output is unchanged.
#[tactic(auto, unfolding(crate::specs::Writing::char_text))]
pub fn put_char(output: &mut String, character: u8) -> Result<(), AllocError>
    ensures ok { OnOk result (string_bytes output.new ≡ string_bytes output.old ++ spec.char_text character) }
    ensures err { OnErr result (string_bytes output.new ≡ string_bytes output.old) }
{
    output.push(char::from(character))
}

/// Writes the characters (of CHAR) before the first 0X, or all of them where there is none, as `Out.String`.
/// Where memory runs out the output is unchanged.
#[tactic(auto, unfolding(crate::specs::Writing::char_text))]
pub fn put_string(output: &mut String, characters: &[u8]) -> Result<(), AllocError>
    ensures ok { OnOk result (string_bytes output.new ≡ string_bytes output.old ++ spec.string_text characters.now) }
    ensures err { OnErr result (string_bytes output.new ≡ string_bytes output.old) }
{
    output.reserve(string_size(characters))?;
    for &ch in characters {
        if ch == 0 {
            break;
        }
        output.push(char::from(ch))?;
    }
    Ok(())
}

/// Writes the end of a line, as `Out.Ln`. Where memory runs out the output is unchanged.
pub fn put_line_end(output: &mut String) -> Result<(), AllocError>
    ensures ok { OnOk result (string_bytes output.new ≡ string_bytes output.old ++ spec.line_end) }
    ensures err { OnErr result (string_bytes output.new ≡ string_bytes output.old) }
{
    output.push('\n')
}

/// How many bytes `put_string` writes.
#[tactic(auto, unfolding(crate::specs::Writing::char_text))]
fn string_size(characters: &[u8]) -> usize
    ensures { result ≡ length (spec.string_text characters.now) }
{
    let mut size = 0;
    for &c in characters {
        if c == 0 {
            break;
        }
        size += char::from(c).len_utf8();
    }
    size
}

/// The width that counts: none below 0, and at most the widest.
fn field_width(width: i32) -> usize
    ensures { result ≡ spec.field_width width }
{
    width.clamp(0, WIDEST) as usize
}

/// Writes that many blanks into the room that there is.
fn put_blanks(output: &mut String, count: usize) -> Result<(), AllocError>
    requires room { string_len output.old + count ≤ string_capacity output.old }
    ensures ok { IsOk result }
    ensures bytes { string_bytes output.new ≡ string_bytes output.old ++ replicate count 32 }
    ensures len { string_len output.new ≡ string_len output.old + count }
    ensures capacity { string_capacity output.old ≤ string_capacity output.new }
{
    for _ in 0..count {
        output.push(' ')?;
    }
    Ok(())
}
