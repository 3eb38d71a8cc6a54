//! A whole number.

ghost use Rattle.std.specs.Prelude.{◌≡◌, pos, option_and_then};
ghost use Rattle.serde_json.specs.Data.{number};
ghost use Rattle.serde_json.specs.Find.{as_number, as_integer, of_integer};
ghost use Rattle.serde_json.specs.View.{view as data_of};

use serde_json::{Number, Value};
use std::marker::Model;

/// A number from -2^63 to 2^64 - 1.
#[derive(Clone, Copy)]
pub struct Whole {
    number: i128,
}

impl Model for Whole {
    ghost use Rattle.std.specs.Prelude.{ℤ, pos, negsuc, ◌≤ℤ◌, ◌<ℤ◌, ◌^◌, ◌-◌};

    ghost Value = { ℤ };

    ghost view = { λ w. w.number };

    ghost invariant = { λ w. (negsuc (2 ^ 63 - 1) ≤ℤ w.number) × (w.number <ℤ pos (2 ^ 64)) };

    ghost inverse = { λ z. record { number = z } };
}

impl Whole {
    pub const ZERO: Whole = Whole { number: 0 };

    /// The number that a value is.
    #[tactic(auto, using(crate::proofs::WholeParts::as_integer_negative, crate::proofs::WholeParts::as_integer_positive))]
    pub fn of(value: &Value) -> Option<Whole>
        ensures { result ≡ option_and_then as_integer (as_number (data_of value.now)) }
    {
        let number = value.as_number()?;
        if let Some(positive) = number.as_u64() {
            return Some(Whole {
                number: positive as i128,
            });
        }
        let negative = number.as_i64()?;
        Some(Whole {
            number: negative as i128,
        })
    }

    /// A number that is not negative.
    pub fn from_u64(number: u64) -> Whole
        ensures { result ≡ pos number }
    {
        Whole {
            number: number as i128,
        }
    }

    /// The number.
    pub fn number(self) -> i128
        ensures { result ≡ self }
    {
        self.number
    }

    /// The number as JSON.
    pub fn value(self) -> Value
        ensures { data_of result ≡ number (of_integer self) }
    {
        Value::Number(Number::from_i128(self.number).unwrap())
    }
}
