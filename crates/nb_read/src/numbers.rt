//! Whole numbers of JSON.

ghost use Rattle.std.specs.Prelude.{◌≡◌, ◌<◌, ◌==◌, length, slice_index, option_map, true, false, IsTrue, Some, IfSome};
ghost use Rattle.serde_json.specs.Find.{as_integer};
ghost use Rattle.serde_json.specs.Read.{number_of, number_from};
ghost use Rattle.serde_json.specs.View.{number_view};
ghost use Rattle.nb_read.specs.Lent.{num_of, whole_number};

use fast_float::Numeral;
use json_form::Whole;
use serde_json::{Number, Value};

/// The number that a text is, where it is whole: an integer of 64 bits.
pub(crate) fn whole_in(text: &str) -> Option<Number>
    ensures { option_map number_view result ≡ whole_number (number_of text.now) }
{
    let bytes = text.as_bytes();
    if has_minus(bytes) {
        negative(&Numeral::scan(&bytes[1..]))
    } else {
        positive(&Numeral::scan(bytes))
    }
}

fn has_minus(bytes: &[u8]) -> bool
    ensures value { result ≡ (slice_index bytes.now 0 == 45) }
    ensures len { IsTrue result → 0 < length bytes.now }
{
    !bytes.is_empty() && bytes[0] == b'-'
}

#[tactic(auto, using(crate::proofs::WholeNumbers::not_whole))]
fn positive(numeral: &Numeral<'_>) -> Option<Number>
    ensures { option_map number_view result ≡ whole_number (number_from false numeral.now) }
{
    match numeral.to_u64() {
        Some(number) => Some(Number::from(number)),
        None => None,
    }
}

#[tactic(auto, using(crate::proofs::WholeNumbers::not_whole))]
fn negative(numeral: &Numeral<'_>) -> Option<Number>
    ensures { option_map number_view result ≡ whole_number (number_from true numeral.now) }
{
    if let Some(number) = numeral.to_i64(true) {
        if number < 0 {
            return Some(Number::from(number));
        }
    }
    None
}

/// The same as a number of its own.
#[tactic(auto, using(crate::proofs::WholeNumbers::num_is))]
pub(crate) fn integer_in(text: &str) -> Option<Whole>
    ensures { IfSome result (λ n. as_integer (num_of text.now) ≡ Some n) }
{
    match whole_in(text) {
        Some(number) => Whole::of(&Value::Number(number)),
        None => None,
    }
}
