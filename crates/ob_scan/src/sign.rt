//! Signs.

ghost use Rattle.std.specs.Prelude.{◌≡◌, ◌≤◌, false, length, IfSome};
ghost use Rattle.ob_scan.specs.Exactly.{Exactly};
ghost use Rattle.ob_scan.specs.Spelling as spelling;
ghost use Rattle.ob_scan.specs.Tokens.{Sign, begins_letter};

use crate::found::Found;
use crate::gap::{behind, front};
use crate::place::Place;
use crate::spelling::symbol_of;
use crate::token::{Kind, Symbol};
use crate::word::refused;
use ob_base::{Code, Refused};

fn front_symbol(count: usize, text: &[u8]) -> Option<Symbol>
    ensures value { result ≡ spelling.front_symbol count text.now }
    ensures within { IfSome result (λ _. count ≤ length text.now) }
{
    if count <= text.len() {
        symbol_of(front(text, count))
    } else {
        None
    }
}

pub(crate) fn sign<'a>(place: Place, text: &'a [u8]) -> Result<Found<'a>, Refused>
    requires { begins_letter text.now ≡ false }
    ensures { Exactly (Sign text.now) result }
{
    if let Some(symbol) = front_symbol(2, text) {
        let rest = behind(text, 2);
        return Ok(Found {
            kind: Kind::Symbol(symbol),
            rest,
        });
    }
    if let Some(symbol) = front_symbol(1, text) {
        let rest = behind(text, 1);
        return Ok(Found {
            kind: Kind::Symbol(symbol),
            rest,
        });
    }
    Err(refused(Code::Character, place))
}
