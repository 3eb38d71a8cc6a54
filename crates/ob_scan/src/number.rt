//! Numbers: integers, and characters by their number.

ghost use Rattle.std.specs.Prelude.{◌≡◌, ◌≤◌, ◌<◌, ◌+◌, ◌*◌, ◌^◌, length, drop, MatchOption};
ghost use Rattle.std.specs.List.{list_all};
ghost use Rattle.std.specs.Char.{is_ascii_digit};
ghost use Rattle.ob_scan.specs.Exactly.{Exactly};
ghost use Rattle.ob_scan.specs.Tokens as tokens;
ghost use Rattle.ob_scan.specs.Tokens.{Number, NumberEnds, value_of, base_of};
ghost use Rattle.ob_scan.specs.declared.class.Suffix.TheVariants as suffixes;

use crate::class::{Alphabet, Suffix, run_length, suffix_of};
use crate::found::{Found, text_apart};
use crate::gap::{behind, front};
use crate::place::Place;
use crate::token::Kind;
use crate::word::refused;
use ob_base::{Code, Refused};
use std::alloc::Global;

fn digit_of(c: u8) -> u64
    ensures value { result ≡ tokens.digit_of c }
    ensures small { result < 256 }
{
    let digit = if c.is_ascii_digit() {
        c.saturating_sub(48)
    } else {
        c.saturating_sub(55)
    };
    digit as u64
}

fn raised(hexadecimal: bool, total: u64, digit: u64) -> u64
    requires total { total < 2 ^ 32 }
    requires digit { digit < 256 }
    ensures { result ≡ base_of hexadecimal * total + digit }
{
    if hexadecimal {
        16 * total + digit
    } else {
        10 * total + digit
    }
}

/// The value of digits, if it is below 2^32.
fn value(hexadecimal: bool, run: &[u8]) -> Option<u32>
    ensures { MatchOption result (2 ^ 32 ≤ value_of (base_of hexadecimal) run.now) (λ v. v ≡ value_of (base_of hexadecimal) run.now) }
{
    let mut total = 0u64;
    for c in run {
        total = raised(hexadecimal, total, digit_of(*c));
        if total >= 0x1_0000_0000 {
            return None;
        }
    }
    Some(total as u32)
}

fn all_decimal(run: &[u8]) -> bool
    ensures { result ≡ list_all is_ascii_digit run.now }
{
    run.iter().all(|c| c.is_ascii_digit())
}

fn one_period(text: &[u8]) -> bool
    ensures { result ≡ tokens.one_period text.now }
{
    match text {
        [c, d, ..] => *c == b'.' && *d != b'.',
        [c] => *c == b'.',
        [] => false,
    }
}

fn wrapped(value: u32) -> i32
    ensures { result ≡ tokens.wrapped value }
{
    if value < 0x8000_0000 {
        value as i32
    } else {
        (value as i64 - 0x1_0000_0000) as i32
    }
}

pub(crate) fn behind_one(text: &[u8]) -> &[u8]
    ensures { result.now ≡ drop 1 text.now }
{
    match text {
        [_, rest @ ..] => rest,
        [] => text,
    }
}

fn decimal<'a>(place: Place, run: &[u8], middle: &'a [u8]) -> Result<Found<'a>, Refused>
    ensures { Exactly (NumberEnds suffixes.Plain run.now middle.now) result }
{
    if one_period(middle) {
        return Err(refused(Code::Number, place));
    }
    if !all_decimal(run) {
        return Err(refused(Code::Number, place));
    }
    let Some(number) = value(false, run) else {
        return Err(refused(Code::Number, place));
    };
    if number >= 0x8000_0000 {
        return Err(refused(Code::Number, place));
    }
    Ok(Found {
        kind: Kind::Integer(number as i32),
        rest: middle,
    })
}

fn hexadecimal<'a>(place: Place, run: &[u8], middle: &'a [u8]) -> Result<Found<'a>, Refused>
    ensures { Exactly (NumberEnds suffixes.Hexadecimal run.now middle.now) result }
{
    let rest = behind_one(middle);
    if one_period(rest) {
        return Err(refused(Code::Number, place));
    }
    let Some(number) = value(true, run) else {
        return Err(refused(Code::Number, place));
    };
    Ok(Found {
        kind: Kind::Integer(wrapped(number)),
        rest,
    })
}

fn character<'a>(
    alloc: Global,
    place: Place,
    run: &[u8],
    middle: &'a [u8],
) -> Result<Found<'a>, Refused>
    ensures { Exactly (NumberEnds suffixes.Character run.now middle.now) result }
{
    let rest = behind_one(middle);
    if one_period(rest) {
        return Err(refused(Code::Number, place));
    }
    let Some(number) = value(true, run) else {
        return Err(refused(Code::Number, place));
    };
    if number > 255 {
        return Err(refused(Code::Number, place));
    }
    let chars = text_apart(alloc, &[number as u8])?;
    Ok(Found {
        kind: Kind::Text(chars),
        rest,
    })
}

pub(crate) fn number<'a>(alloc: Global, place: Place, text: &'a [u8]) -> Result<Found<'a>, Refused>
    ensures { Exactly (Number text.now) result }
{
    let length = run_length(Alphabet::Number, text);
    let run = front(text, length);
    let middle = behind(text, length);
    match suffix_of(middle) {
        Suffix::Plain => decimal(place, run, middle),
        Suffix::Hexadecimal => hexadecimal(place, run, middle),
        Suffix::Character => character(alloc, place, run, middle),
    }
}
