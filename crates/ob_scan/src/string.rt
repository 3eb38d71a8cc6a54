//! Strings.

ghost use Rattle.std.specs.Prelude.{◌≡◌, ◌≤◌, ◌<◌, length, MatchOption, IfSome, Some, None};
ghost use Rattle.ob_scan.specs.Exactly.{Exactly};
ghost use Rattle.ob_scan.specs.Tokens as tokens;
ghost use Rattle.ob_scan.specs.Tokens.{StringOf};

use crate::found::{Found, shared_apart};
use crate::number::behind_one;
use crate::place::Place;
use crate::token::Kind;
use crate::word::refused;
use ob_base::{Code, Refused};
use std::alloc::Global;

fn is_plain(c: u8) -> bool
    ensures { result ≡ tokens.is_plain c }
{
    if c == b'"' || c == b'\n' || c == b'\r' {
        false
    } else {
        c > 0 && c < 128
    }
}

/// A character of two bytes, the first of which is `c`, and the text after it.
fn wide_char(c: u8, text: &[u8]) -> Option<(u8, &[u8])>
    ensures value { MatchOption result (tokens.wide_char c text.now ≡ None) (λ p. tokens.wide_char c text.now ≡ Some (p.0, p.1.now)) }
    ensures shorter { IfSome result (λ p. length p.1.now ≤ length text.now) }
{
    let [d, rest @ ..] = text else {
        return None;
    };
    if !(*d >= 128 && *d < 192) {
        return None;
    }
    if c == 194 {
        Some((*d, rest))
    } else if c == 195 {
        Some((*d + 64, rest))
    } else {
        None
    }
}

/// The character at the front, if it may stand in a string, and the text after it.
fn next_char(text: &[u8]) -> Option<(u8, &[u8])>
    ensures value { MatchOption result (tokens.next_char text.now ≡ None) (λ p. tokens.next_char text.now ≡ Some (p.0, p.1.now)) }
    ensures shorter { IfSome result (λ p. length p.1.now < length text.now) }
{
    let [c, rest @ ..] = text else {
        return None;
    };
    if is_plain(*c) {
        return Some((*c, rest));
    }
    wide_char(*c, rest)
}

fn begins_quote(text: &[u8]) -> bool
    ensures { result ≡ tokens.begins_quote text.now }
{
    match text {
        [c, ..] => *c == b'"',
        [] => false,
    }
}

pub(crate) fn string<'a>(alloc: Global, place: Place, text: &'a [u8]) -> Result<Found<'a>, Refused>
    ensures { Exactly (StringOf text.now) result }
{
    let mut chars = Vec::new(alloc);
    let mut rest = behind_one(text);
    while let Some((c, after)) = next_char(rest) {
        chars.push(c)?;
        rest = after;
    }
    if begins_quote(rest) {
        let chars = shared_apart(alloc, chars)?;
        let behind = behind_one(rest);
        return Ok(Found {
            kind: Kind::Text(chars),
            rest: behind,
        });
    }
    Err(refused(Code::String, place))
}
