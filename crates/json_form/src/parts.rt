//! Parts of an object: fields that may be missing, and what they hold.

ghost use Rattle.std.specs.Prelude.{◌≡◌, false, option_map, IfSome, IfOk};
ghost use Rattle.json_form.specs.Forms.{seen, needed, optional, given, data_in, whole_of, object_of};
ghost use Rattle.serde_json.specs.Written.{has_float};
ghost use Rattle.serde_json.specs.Find.{get, as_str, as_bool};
ghost use Rattle.serde_json.specs.View.{view};

use crate::fault::Fault;
use crate::number::Whole;
use serde_json::Value;

/// A field, if it is there.
pub fn part<'v>(value: &'v Value, key: &str) -> Option<&'v Value>
    requires { has_float (view value.now) ≡ false }
    ensures found { data_in result ≡ get key.now (view value.now) }
    ensures whole { IfSome result (λ v. has_float (view v.now) ≡ false) }
{
    value.get(key)
}

/// A field that is there and not `null`.
#[tactic(auto, using(crate::proofs::Present::present_null, crate::proofs::Present::present_other), unfolding(crate::specs::Forms::given))]
pub fn given_part<'v>(value: &'v Value, key: &str) -> Option<&'v Value>
    requires { has_float (view value.now) ≡ false }
    ensures found { data_in result ≡ given key.now (view value.now) }
    ensures whole { IfSome result (λ v. has_float (view v.now) ≡ false) }
{
    match part(value, key) {
        None => None,
        Some(field) => if field.is_null() { None } else { Some(field) },
    }
}

/// A text that has to be there.
pub fn needed_text(field: Option<&Value>) -> Result<&str, Fault>
    ensures { seen (λ s. s.now) result ≡ needed as_str (data_in field.entry) }
{
    match field {
        None => Err(Fault::Missing),
        Some(value) => value.as_str().ok_or(Fault::WrongKind),
    }
}

/// A text, or the default.
pub fn optional_text<'v>(field: Option<&'v Value>, default: &'v str) -> Result<&'v str, Fault>
    ensures { seen (λ s. s.now) result ≡ optional default.now as_str (data_in field.entry) }
{
    match field {
        None => Ok(default),
        Some(_) => needed_text(field),
    }
}

/// A truth value, or the default.
pub fn optional_boolean(field: Option<&Value>, default: bool) -> Result<bool, Fault>
    ensures { result ≡ optional default as_bool (data_in field.entry) }
{
    match field {
        None => Ok(default),
        Some(value) => value.as_bool().ok_or(Fault::WrongKind),
    }
}

/// A whole number that has to be there.
pub fn needed_whole(field: Option<&Value>) -> Result<Whole, Fault>
    ensures { result ≡ needed whole_of (data_in field.entry) }
{
    match field {
        None => Err(Fault::Missing),
        Some(value) => Whole::of(value).ok_or(Fault::WrongKind),
    }
}

/// A whole number, or the default.
pub fn optional_whole(field: Option<&Value>, default: Whole) -> Result<Whole, Fault>
    ensures { result ≡ optional default whole_of (data_in field.entry) }
{
    match field {
        None => Ok(default),
        Some(_) => needed_whole(field),
    }
}

/// An object that has to be there.
pub fn needed_object(field: Option<&Value>) -> Result<&Value, Fault>
    requires { IfSome field (λ v. has_float (view v.now) ≡ false) }
    ensures form { seen (λ v. view v.now) result ≡ needed object_of (data_in field.entry) }
    ensures whole { IfOk result (λ v. has_float (view v.now) ≡ false) }
{
    match field {
        None => Err(Fault::Missing),
        Some(value) => if value.is_object() {
            Ok(value)
        } else {
            Err(Fault::WrongKind)
        },
    }
}
