//! The version of a notebook.

ghost use Rattle.std.specs.Prelude.{◌≡◌, true, pos, codes};
ghost use Rattle.json_form.specs.Forms.{Has, whole_of};
ghost use Rattle.nb_read.specs.Lent.{data_view};

use crate::fields::field;
use crate::numbers::integer_in;
use json::Value;

/// Whether a notebook is one of 4.5.
pub(crate) fn is_current(value: &Value<'_>) -> bool
    ensures major { result ≡ true → Has whole_of (codes "nbformat") (data_view value.now) (pos 4) }
    ensures minor { result ≡ true → Has whole_of (codes "nbformat_minor") (data_view value.now) (pos 5) }
{
    has_number(value, "nbformat", 4) && has_number(value, "nbformat_minor", 5)
}

fn has_number(value: &Value<'_>, key: &str, wanted: i128) -> bool
    ensures { result ≡ true → Has whole_of key.now (data_view value.now) wanted }
{
    match field(value, key) {
        Some(found) => is_number(found, wanted),
        None => false,
    }
}

fn is_number(value: &Value<'_>, wanted: i128) -> bool
    ensures { result ≡ true → whole_of (data_view value.now) ≡ Some wanted }
{
    match value {
        Value::Number(text) => match integer_in(text) {
            Some(number) => number.number() == wanted,
            None => false,
        },
        _ => false,
    }
}
