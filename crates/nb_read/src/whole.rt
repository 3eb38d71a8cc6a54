//! Whether each number of a value is whole.

ghost use Rattle.std.specs.Prelude.{◌≡◌};
ghost use Rattle.json.specs.Value.{value_view, items_view, members_view};
ghost use Rattle.nb_read.specs.Lent as spec;

use crate::numbers::whole_in;
use json::Value;

#[cycle(whole)]
pub(crate) fn is_whole(value: &Value<'_>) -> bool
    ensures { result ≡ spec.is_whole (value_view value.now) }
{
    match value {
        Value::Number(text) => whole_in(text).is_some(),
        Value::Array(items) => are_whole(items),
        Value::Object(members) => have_whole(members),
        Value::Null => true,
        Value::Bool(_) => true,
        Value::String(_) => true,
    }
}

#[cycle(whole)]
fn are_whole(items: &Vec<Value<'_>>) -> bool
    ensures { result ≡ spec.are_whole (items_view items.now.items) }
{
    for item in items {
        if !is_whole(item) {
            return false;
        }
    }
    true
}

#[cycle(whole)]
fn have_whole(members: &Vec<(&str, Value<'_>)>) -> bool
    ensures { result ≡ spec.have_whole (members_view members.now.items) }
{
    for member in members {
        if !is_whole(&member.1) {
            return false;
        }
    }
    true
}
