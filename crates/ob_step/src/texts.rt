//! Instructions on texts.

ghost use Rattle.std.specs.Prelude.{◌≡◌, ◌+◌, ◌<◌, ◌≤◌, ◌^◌, ◌++◌, Some, map, length, string_bytes, OnOk, OnErr};
ghost use Rattle.std.specs.Str.{bytes_eq};
ghost use Rattle.ob_inout.specs.Writing.{string_text};
ghost use Rattle.ob_mean.specs.Texts as texts;
ghost use Rattle.ob_mean.specs.Arithmetic as spec;
ghost use Rattle.ob_code.specs.Machine.{within, elements as elements_of, object as object_of, perform};
ghost use Rattle.ob_code.specs.Places.{top_of, under_top, IsTextIn};
ghost use Rattle.ob_code.specs.declared.instr.Instr.TheVariants as instr;
ghost use Rattle.ob_step.specs.States.{config_of};
ghost use Rattle.ob_step.specs.Needs.{HasOne, HasTwo, SpanIsThere};
ghost use Rattle.ob_step.specs.Rows.{character_in, text_in};
ghost use Rattle.ob_step.specs.Steps.{Performed};

use crate::cells::{character, put_text};
use crate::objects::{elements, object, place_in};
use crate::operands::{replace_two, take_one, top, top_two};
use crate::state::{State, Step};
use ob_base::Text;
use ob_code::instr::{LinkedModule, Span};
use ob_mean::{Relation, TrapKind, holds, truth};
use std::alloc::AllocError;

/// A string for an array of characters, which has to be longer.
pub fn store_text(
    code: &[LinkedModule],
    state: &mut State,
    span: Span,
    text: &Text,
    line: usize,
) -> Step
    requires one { HasOne state.old }
    requires span { SpanIsThere code.now (config_of state.old) span }
    requires cells { IsTextIn code.now (config_of state.old) span (top_of (config_of state.old).stack) }
    requires place { state.old.at.place + 1 < 2 ^ 64 }
    ensures { Performed (perform code.now (instr.StoreText span text.now line) (config_of state.old)) state.old state.new result }
{
    let k = top(state);
    let n = elements(state, span.length);
    let a = place_in(object(code, state, span.root), k, n);
    let text = text.as_slice();
    if text.len() >= n {
        return Step::MeetsTrap(TrapKind::TextLength, line);
    }
    put_text(&mut state.cells, a, n, text);
    take_one(state);
    Step::MeetsStatement
}

/// The character of this number in a row, or 0X after its end.
fn character_at(row: &[i32], i: usize) -> u8
    ensures { result ≡ character_in row.now i }
{
    if i < row.len() { character(row[i]) } else { 0 }
}

/// Whether two texts are the same, and whether the first is before the second.
fn compare(first: &[i32], second: &[i32]) -> (bool, bool)
    ensures equal { result.0 ≡ bytes_eq (text_in first.now) (text_in second.now) }
    ensures less { result.1 ≡ texts.is_before (text_in first.now) (text_in second.now) }
{
    for i in 0..first.len() {
        let a = character_at(first, i);
        let b = character_at(second, i);
        if a != b || a == 0 {
            return (a == b, a < b);
        }
    }
    let b = character_at(second, first.len());
    (b == 0, b > 0)
}

/// Where the cells of a text begin, and how many there are.
fn text_place(code: &[LinkedModule], state: &State, span: Span, k: i32) -> (usize, usize)
    requires span { SpanIsThere code.now (config_of state.now) span }
    requires cells { IsTextIn code.now (config_of state.now) span k }
    ensures begins { within (object_of code.now (config_of state.now) span.root) k (elements_of (config_of state.now) span.length) ≡ Some result.0 }
    ensures count { result.1 ≡ elements_of (config_of state.now) span.length }
    ensures there { result.0 + result.1 ≤ length state.now.cells.items }
{
    let n = elements(state, span.length);
    (place_in(object(code, state, span.root), k, n), n)
}

/// Whether a relation holds of two texts.
pub fn relate_texts(
    code: &[LinkedModule],
    state: &mut State,
    relation: Relation,
    first: Span,
    second: Span,
) -> Step
    requires two { HasTwo state.old }
    requires first { SpanIsThere code.now (config_of state.old) first }
    requires second { SpanIsThere code.now (config_of state.old) second }
    requires first_cells { IsTextIn code.now (config_of state.old) first (under_top (config_of state.old).stack) }
    requires second_cells { IsTextIn code.now (config_of state.old) second (top_of (config_of state.old).stack) }
    requires place { state.old.at.place + 1 < 2 ^ 64 }
    ensures { Performed (perform code.now (instr.RelateTexts relation first second) (config_of state.old)) state.old state.new result }
{
    let (k, j) = top_two(state);
    let (a, n) = text_place(code, state, first, k);
    let (b, m) = text_place(code, state, second, j);
    let (equal, less) = compare(&state.cells[a..a + n], &state.cells[b..b + m]);
    replace_two(state, truth(holds(relation, equal, less)));
    Step::Moved
}

/// How many bytes a text has that is written.
#[tactic(auto, unfolding(ob_inout::specs::Writing::char_text))]
pub fn text_size(row: &[i32]) -> usize
    ensures { result ≡ length (string_text (map texts.character row.now)) }
{
    let mut size = 0;
    for i in 0..row.len() {
        let c = character_at(row, i);
        if c == 0 {
            break;
        }
        size += char::from(c).len_utf8();
    }
    size
}

/// Writes the text of a row, which has `size` bytes. Where memory runs out the output is unchanged.
#[tactic(auto, unfolding(ob_inout::specs::Writing::char_text))]
pub fn write_text(output: &mut String, row: &[i32], size: usize) -> Result<(), AllocError>
    requires { size ≡ length (string_text (map texts.character row.now)) }
    ensures ok { OnOk result (string_bytes output.new ≡ string_bytes output.old ++ string_text (map texts.character row.now)) }
    ensures err { OnErr result (string_bytes output.new ≡ string_bytes output.old) }
{
    output.reserve(size)?;
    for i in 0..row.len() {
        let c = character_at(row, i);
        if c == 0 {
            break;
        }
        output.push(char::from(c))?;
    }
    Ok(())
}
