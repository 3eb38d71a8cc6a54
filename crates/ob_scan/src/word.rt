//! Reserved words and names.

ghost use Rattle.std.specs.Prelude.{◌≡◌};
ghost use Rattle.ob_scan.specs.Exactly.{Exactly, IsFault};
ghost use Rattle.ob_scan.specs.Tokens.{Word};

use crate::class::{Alphabet, run_length};
use crate::found::{Found, text_apart};
use crate::gap::{behind, front};
use crate::place::Place;
use crate::spelling::symbol_of;
use crate::token::Kind;
use ob_base::{Code, Fault, Refused};
use std::alloc::Global;

/// A fault of the token at this place.
pub(crate) fn refused(code: Code, place: Place) -> Refused
    ensures { IsFault code result }
{
    Refused::Fault(Fault {
        code,
        line: place.line as usize,
        column: place.column as usize,
        at_end: code == Code::Comment,
    })
}

pub(crate) fn word<'a>(alloc: Global, place: Place, text: &'a [u8]) -> Result<Found<'a>, Refused>
    ensures { Exactly (Word text.now) result }
{
    let length = run_length(Alphabet::Word, text);
    let run = front(text, length);
    let rest = behind(text, length);
    if let Some(symbol) = symbol_of(run) {
        return Ok(Found {
            kind: Kind::Symbol(symbol),
            rest,
        });
    }
    if length > 64 {
        return Err(refused(Code::Number, place));
    }
    let name = text_apart(alloc, run)?;
    Ok(Found {
        kind: Kind::Ident(name),
        rest,
    })
}
