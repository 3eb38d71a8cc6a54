//! The fields of an object. A field that is missing has a default, or is a fault.

ghost use Rattle.std.specs.Prelude.{◌≡◌, false, is_some, IfOk};
ghost use Rattle.json_form.specs.Forms.{seen, Gives, text_at, text_or, boolean_or, whole_or, object_at, object_or_empty, no_items_at, no_items_of};
ghost use Rattle.serde_json.specs.Written.{has_float};
ghost use Rattle.serde_json.specs.View.{view};

use crate::fault::{Bad, Fault};
use crate::kept::Json;
use crate::number::Whole;
use crate::parts::{
    needed_object, needed_text, optional_boolean, optional_text, optional_whole, part,
};
use serde_json::Value;
use std::alloc::Global;

/// A text.
#[tactic(auto, unfolding(crate::specs::Forms::text_at))]
pub fn text_field<'v>(value: &'v Value, key: &str) -> Result<&'v str, Fault>
    ensures { seen (λ s. s.now) result ≡ text_at key.now (view value.now) }
{
    needed_text(value.get(key))
}

/// A text, or the default.
#[tactic(auto, unfolding(crate::specs::Forms::text_or))]
pub fn text_field_or<'v>(value: &'v Value, key: &str, default: &'v str) -> Result<&'v str, Fault>
    ensures { seen (λ s. s.now) result ≡ text_or default.now key.now (view value.now) }
{
    optional_text(value.get(key), default)
}

/// A truth value, or the default.
#[tactic(auto, unfolding(crate::specs::Forms::boolean_or))]
pub fn boolean_field_or(value: &Value, key: &str, default: bool) -> Result<bool, Fault>
    ensures { result ≡ boolean_or default key.now (view value.now) }
{
    optional_boolean(value.get(key), default)
}

/// A whole number, or the default.
#[tactic(auto, unfolding(crate::specs::Forms::whole_or))]
pub fn whole_field_or(value: &Value, key: &str, default: Whole) -> Result<Whole, Fault>
    ensures { result ≡ whole_or default key.now (view value.now) }
{
    optional_whole(value.get(key), default)
}

/// An object.
#[tactic(auto, unfolding(crate::specs::Forms::object_at))]
pub fn object_field<'v>(value: &'v Value, key: &str) -> Result<&'v Value, Fault>
    requires { has_float (view value.now) ≡ false }
    ensures form { seen (λ v. view v.now) result ≡ object_at key.now (view value.now) }
    ensures whole { IfOk result (λ v. has_float (view v.now) ≡ false) }
{
    needed_object(part(value, key))
}

/// An object that is kept as it is, or `{}`.
#[tactic(auto, unfolding(crate::specs::Forms::object_or_empty))]
pub fn object_field_or_empty(alloc: Global, value: &Value, key: &str) -> Result<Json, Bad>
    requires { has_float (view value.now) ≡ false }
    ensures { Gives result (object_or_empty key.now (view value.now)) }
{
    match part(value, key) {
        None => Ok(Json::empty(alloc)),
        Some(field) => {
            if !field.is_object() {
                return Err(Bad::Fault(Fault::WrongKind));
            }
            Ok(Json::keep(field)?)
        }
    }
}

/// Nothing, or an empty list.
#[tactic(auto, unfolding(crate::specs::Forms::no_items_at))]
pub fn no_items_field(value: &Value, key: &str) -> Result<(), Fault>
    ensures { result ≡ no_items_at key.now (view value.now) }
{
    match value.get(key) {
        None => Ok(()),
        Some(field) => if is_empty_list(field) {
            Ok(())
        } else {
            Err(Fault::WrongKind)
        },
    }
}

#[tactic(auto, using(crate::proofs::WholeParts::is_some_if_no_items))]
fn is_empty_list(value: &Value) -> bool
    ensures { result ≡ is_some (no_items_of (view value.now)) }
{
    match value {
        Value::Array(items) => items.as_slice().is_empty(),
        _ => false,
    }
}
