//! What Out writes. Each call is a turn.

ghost use Rattle.std.specs.Prelude.{◌≡◌, OnOk};
ghost use Rattle.ob_inout.specs.Writing.{char_text, int_text, line_end, string_text};
ghost use Rattle.ob_mean.specs.declared.outcome.TurnKind.TheVariants as kind;
ghost use Rattle.ob_mean.specs.Runs.{Goes, done, turn, write};
ghost use Rattle.ob_mean.specs.Texts as texts;
ghost use Rattle.ob_mean.specs.Values.{get};
ghost use Rattle.ob_reference_store.specs.Kept.{place_of};
ghost use Rattle.ob_reference_store.specs.States.{Follows, supply_in, world_in};

use crate::row::character;
use crate::state::{State, take_turn};
use crate::stop::{NoAnswer, Stop};
use crate::variable::characters_at;
use ob_inout::{put_char, put_int, put_line_end, put_string};
use ob_mean::TurnKind;
use std::alloc::Global;

fn put_number_char(state: &mut State, number: i32) -> Result<(), NoAnswer>
    ensures world { OnOk result (world_in state.new ≡ write (world_in state.old) (char_text (texts.character number))) }
    ensures supply { OnOk result (supply_in state.new ≡ supply_in state.old) }
{
    put_char(&mut state.written, character(number))?;
    Ok(())
}

fn put_number(state: &mut State, number: i32, width: i32) -> Result<(), NoAnswer>
    ensures world { OnOk result (world_in state.new ≡ write (world_in state.old) (int_text number width)) }
    ensures supply { OnOk result (supply_in state.new ≡ supply_in state.old) }
{
    put_int(&mut state.written, number, width)?;
    Ok(())
}

fn put_text(alloc: Global, state: &mut State, path: &[usize]) -> Result<(), NoAnswer>
    ensures world { OnOk result (world_in state.new ≡ write (world_in state.old) (string_text (texts.characters (get (world_in state.old).store (place_of path.now))))) }
    ensures supply { OnOk result (supply_in state.new ≡ supply_in state.old) }
{
    let characters = characters_at(alloc, &state.store, path)?;
    put_string(&mut state.written, &characters)?;
    Ok(())
}

fn put_end(state: &mut State) -> Result<(), NoAnswer>
    ensures world { OnOk result (world_in state.new ≡ write (world_in state.old) line_end) }
    ensures supply { OnOk result (supply_in state.new ≡ supply_in state.old) }
{
    put_line_end(&mut state.written)?;
    Ok(())
}

/// Out.Open.
pub fn write_nothing(state: &mut State) -> Result<(), Stop>
    ensures { Follows (λ _. done) result state.new (turn kind.Output (supply_in state.old) (world_in state.old) (λ n. Goes done n (world_in state.old))) }
{
    take_turn(state, TurnKind::Output)?;
    Ok(())
}

/// The character of a number.
pub fn write_char(state: &mut State, number: i32) -> Result<(), Stop>
    ensures { Follows (λ _. done) result state.new (turn kind.Output (supply_in state.old) (world_in state.old) (λ n. Goes done n (write (world_in state.old) (char_text (texts.character number))))) }
{
    take_turn(state, TurnKind::Output)?;
    Ok(put_number_char(state, number)?)
}

/// A number in a field.
pub fn write_int(state: &mut State, number: i32, width: i32) -> Result<(), Stop>
    ensures { Follows (λ _. done) result state.new (turn kind.Output (supply_in state.old) (world_in state.old) (λ n. Goes done n (write (world_in state.old) (int_text number width)))) }
{
    take_turn(state, TurnKind::Output)?;
    Ok(put_number(state, number, width)?)
}

/// The text at a place.
pub fn write_text(alloc: Global, state: &mut State, path: &[usize]) -> Result<(), Stop>
    ensures { Follows (λ _. done) result state.new (turn kind.Output (supply_in state.old) (world_in state.old) (λ n. Goes done n (write (world_in state.old) (string_text (texts.characters (get (world_in state.old).store (place_of path.now))))))) }
{
    take_turn(state, TurnKind::Output)?;
    Ok(put_text(alloc, state, path)?)
}

/// The end of a line.
pub fn write_end(state: &mut State) -> Result<(), Stop>
    ensures { Follows (λ _. done) result state.new (turn kind.Output (supply_in state.old) (world_in state.old) (λ n. Goes done n (write (world_in state.old) line_end))) }
{
    take_turn(state, TurnKind::Output)?;
    Ok(put_end(state)?)
}
