//! Taking a field out of an object, so that the rest of it can go.

ghost use Rattle.std.specs.Prelude.{◌≡◌, false, option_map, IfSome, IfOk};
ghost use Rattle.json_form.specs.Forms.{seen, needed};
ghost use Rattle.serde_json.specs.Find.{get, as_array};
ghost use Rattle.serde_json.specs.View.{view, items_view};
ghost use Rattle.serde_json.specs.Written.{has_float, items_have_float};

use json_form::Fault;
use serde_json::Value;

/// A list that an object has.
pub(crate) fn taken_list(value: Value, key: &str) -> Result<Vec<Value>, Fault>
    requires { has_float (view value) ≡ false }
    ensures form { seen (λ v. items_view v.items) result ≡ needed as_array (get key.now (view value)) }
    ensures whole { IfOk result (λ v. items_have_float (items_view v.items) ≡ false) }
{
    match taken_field(value, key) {
        None => Err(Fault::Missing),
        Some(Value::Array(items)) => Ok(items),
        Some(_) => Err(Fault::WrongKind),
    }
}

/// A field that an object has.
pub fn taken_field(value: Value, key: &str) -> Option<Value>
    requires { has_float (view value) ≡ false }
    ensures found { option_map view result ≡ get key.now (view value) }
    ensures whole { IfSome result (λ v. has_float (view v) ≡ false) }
{
    match value {
        Value::Object(mut members) => members.remove(key),
        _ => None,
    }
}
