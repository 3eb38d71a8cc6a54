//! What In reads, and the lines that it asks for.

ghost use Rattle.std.specs.Prelude.{◌≡◌, option_map, IfOk, OnOk};
ghost use Rattle.ob_inout.specs.Reading as lines;
ghost use Rattle.ob_mean.specs.declared.outcome.TurnKind.TheVariants as kind;
ghost use Rattle.ob_mean.specs.declared.statement.Reader.TheVariants as readers;
ghost use Rattle.ob_mean.specs.Values as values;
ghost use Rattle.ob_mean.specs.Runs.{Goes, done, turn, and_then, with_input};
ghost use Rattle.ob_mean.specs.Input as spec;
ghost use Rattle.ob_reference_store.specs.Kept.{place_of, value_in};
ghost use Rattle.ob_reference_store.specs.Reads.{Finds, GivesLine};
ghost use Rattle.ob_reference_store.specs.States.{Follows, line_in, supply_in, world_in};

use crate::state::{GivenLine, State, take_turn};
use crate::stop::{NoAnswer, Stop};
use crate::value::Value;
use crate::variable::{count_at, store_at};
use crate::zero::{cell, character_cell, text_row};
use ob_inout::{Answer, LineBuffer};
use ob_mean::{Outcome, Reader, TurnKind};
use std::alloc::Global;

/// In.Open.
pub fn reopen(state: &mut State) -> Result<(), Stop>
    ensures { Follows (λ _. done) result state.new (turn kind.Input (supply_in state.old) (world_in state.old) (λ n. Goes done n (with_input (world_in state.old) lines.opened))) }
{
    take_turn(state, TurnKind::Input)?;
    state.input.reopen();
    Ok(())
}

/// A character.
fn find_char(state: &mut State) -> Answer<Value>
    ensures { (now : values.Value) → Finds (spec.finds readers.Char now) result state.old state.new }
{
    match state.input.read_char() {
        Answer::Value(c) => Answer::Value(character_cell(c)),
        Answer::Failed => Answer::Failed,
        Answer::NeedsLine => Answer::NeedsLine,
    }
}

/// A number.
fn find_int(state: &mut State) -> Answer<Value>
    ensures { (now : values.Value) → Finds (spec.finds readers.Int now) result state.old state.new }
{
    match state.input.read_int() {
        Answer::Value(number) => Answer::Value(cell(number)),
        Answer::Failed => Answer::Failed,
        Answer::NeedsLine => Answer::NeedsLine,
    }
}

/// A string for an array of `size` elements.
fn find_string(alloc: Global, state: &mut State, size: usize) -> Result<Answer<Value>, NoAnswer>
    ensures { (now : values.Value) → values.count now ≡ size → IfOk result (λ a. Finds (spec.finds readers.String now) a state.old state.new) }
{
    match state.input.read_string(size) {
        Answer::Value(()) => Ok(Answer::Value(text_row(alloc, size, state.input.word())?)),
        Answer::Failed => Ok(Answer::Failed),
        Answer::NeedsLine => Ok(Answer::NeedsLine),
    }
}

/// A name for an array of `size` elements.
fn find_name(alloc: Global, state: &mut State, size: usize) -> Result<Answer<Value>, NoAnswer>
    ensures { (now : values.Value) → values.count now ≡ size → IfOk result (λ a. Finds (spec.finds readers.Name now) a state.old state.new) }
{
    match state.input.read_name(size) {
        Answer::Value(()) => Ok(Answer::Value(text_row(alloc, size, state.input.word())?)),
        Answer::Failed => Ok(Answer::Failed),
        Answer::NeedsLine => Ok(Answer::NeedsLine),
    }
}

/// What a reader finds in the buffer, for a variable of `size` elements.
fn find(
    alloc: Global,
    state: &mut State,
    reader: Reader,
    size: usize,
) -> Result<Answer<Value>, NoAnswer>
    ensures { (now : values.Value) → values.count now ≡ size → IfOk result (λ a. Finds (spec.finds reader now) a state.old state.new) }
{
    match reader {
        Reader::Char => Ok(find_char(state)),
        Reader::Int => Ok(find_int(state)),
        Reader::String => find_string(alloc, state, size),
        Reader::Name => find_name(alloc, state, size),
    }
}

/// Puts a line into the buffer, or that there is none.
fn put_line(input: &mut LineBuffer, line: &GivenLine) -> Result<(), NoAnswer>
    ensures { OnOk result (input.new.input ≡ lines.given (line_in line.now) input.old.input) }
{
    match line {
        GivenLine::Text(text) => input.push_line(text.as_str())?,
        GivenLine::Nothing => input.no_line(),
    }
    Ok(())
}

/// Uses up the next line: whether one was given.
fn give_line(state: &mut State) -> Result<bool, NoAnswer>
    ensures { IfOk result (λ given. GivesLine given state.old state.new) }
{
    match state.lines.as_slice().get(state.used) {
        None => Ok(false),
        Some(line) => {
            put_line(&mut state.input, line)?;
            state.used += 1;
            Ok(true)
        }
    }
}

/// What a reader reads, for a variable of `size` elements: it asks for lines.
fn read(
    alloc: Global,
    state: &mut State,
    reader: Reader,
    size: usize,
) -> Result<Option<Value>, Stop>
    ensures { (now : values.Value) → values.count now ≡ size → Follows (option_map value_in) result state.new (spec.reading (spec.finds reader now) (supply_in state.old).turns (supply_in state.old).lines (world_in state.old)) }
{
    match find(alloc, state, reader, size)? {
        Answer::Value(found) => Ok(Some(found)),
        Answer::Failed => Ok(None),
        Answer::NeedsLine => {
            take_turn(state, TurnKind::LineAsked)?;
            if give_line(state)? {
                read(alloc, state, reader, size)
            } else {
                Err(Stop::Stands(Outcome::NeedsLine))
            }
        }
    }
}

/// What was read into its variable; a failed read leaves it.
fn keep_read(state: &mut State, path: &[usize], found: Option<Value>)
    ensures world { world_in state.new ≡ spec.kept (world_in state.old) (place_of path.now) (option_map value_in found) }
    ensures supply { supply_in state.new ≡ supply_in state.old }
{
    match found {
        Some(value) => store_at(state, path, value),
        None => {}
    }
}

/// A reader, which is a turn, and its variable.
pub fn read_into(
    alloc: Global,
    state: &mut State,
    reader: Reader,
    path: &[usize],
) -> Result<(), Stop>
    ensures { Follows (λ _. done) result state.new (turn kind.Input (supply_in state.old) (world_in state.old) (λ n.
        and_then (spec.reading (spec.finds reader (values.get (world_in state.old).store (place_of path.now))) n.turns n.lines (world_in state.old)) (λ v n1 w1. Goes done n1 (spec.kept w1 (place_of path.now) v)))) }
{
    take_turn(state, TurnKind::Input)?;
    let size = count_at(&state.store, path)?;
    let found = read(alloc, state, reader, size)?;
    keep_read(state, path, found);
    Ok(())
}
