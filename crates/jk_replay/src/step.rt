//! What a line asks for.

ghost use Rattle.std.specs.Prelude.{◌≡◌, ◌<◌, ◌≤◌, length, Err};
ghost use Rattle.std.specs.Str.{IsUtf8};
ghost use Rattle.json_form.specs.Forms.{Gives};
ghost use Rattle.json_form.specs.declared.fault.Fault.TheVariants.{NotJson, TooLong};
ghost use Rattle.jk_replay.specs.Lines.{max_line};
ghost use Rattle.jk_replay.specs.Steps as spec;

use crate::input::MAX_LINE;
use jp_msg::{Message, message_of_value, read_value};
use json_form::{Bad, Fault, Json, Whole, needed_whole, optional_whole, part};
use std::alloc::Global;

/// What a line may ask for.
#[derive(Drop)]
pub enum Step {
    /// The seat, and what it sends.
    Message(u8, Message),
    /// A slice of as many turns.
    Run(u64),
    /// The seat that leaves.
    Leave(u8),
}

/// How many turns a slice may have.
const MAX_TURNS: u64 = 1_000_000;

/// The last seat.
const LAST_SEAT: u64 = 7;

/// A number from 0 to a greatest one.
fn number_to(most: u64, number: Whole) -> Result<u64, Fault>
    ensures { result ≡ spec.number_to most number }
{
    let number = number.number();
    if number < 0 {
        return Err(Fault::WrongKind);
    }
    if number > most as i128 {
        return Err(Fault::WrongKind);
    }
    Ok(number as u64)
}

/// What a value asks for.
#[tactic(auto, unfolding(crate::specs::Steps::step_of, crate::specs::Steps::turns_of, crate::specs::Steps::leaving_of))]
fn step_of(alloc: Global, json: &Json) -> Result<Step, Bad>
    ensures { Gives result (spec.step_of json.now) }
{
    let run = part(json.value(), "run");
    if run.is_some() {
        let turns = number_to(MAX_TURNS, needed_whole(run)?)?;
        return Ok(Step::Run(turns));
    }
    let leave = part(json.value(), "leave");
    if leave.is_some() {
        let seat = number_to(LAST_SEAT, needed_whole(leave)?)?;
        return Ok(Step::Leave(seat as u8));
    }
    message_step(alloc, json)
}

#[tactic(auto, unfolding(crate::specs::Steps::message_step))]
fn message_step(alloc: Global, json: &Json) -> Result<Step, Bad>
    ensures { Gives result (spec.message_step json.now) }
{
    let message = message_of_value(alloc, json)?;
    let seat = optional_whole(part(json.value(), "seat"), Whole::ZERO)?;
    let seat = number_to(LAST_SEAT, seat)?;
    Ok(Step::Message(seat as u8, message))
}

#[tactic(auto, unfolding(crate::specs::Steps::step_at))]
fn step_at(alloc: Global, text: &str) -> Result<Step, Bad>
    ensures { Gives result (spec.step_at text.now) }
{
    let json = read_value(alloc, text)?;
    step_of(alloc, &json)
}

/// What a line asks for, or its first fault: too long, no JSON (as is what is no UTF-8), a number that isn't whole,
/// and then the fields.
pub fn read_step(alloc: Global, line: &[u8]) -> Result<Step, Bad>
    ensures long { max_line < length line.now → Gives result (Err TooLong) }
    ensures text { length line.now ≤ max_line → IsUtf8 line.now → Gives result (spec.step_at line.now) }
    ensures other { length line.now ≤ max_line → ¬ (IsUtf8 line.now) → Gives result (Err NotJson) }
{
    if line.len() > MAX_LINE {
        return Err(Bad::Fault(Fault::TooLong));
    }
    match std::str::from_utf8(line) {
        Ok(text) => step_at(alloc, text),
        Err(_) => Err(Bad::Fault(Fault::NotJson)),
    }
}
