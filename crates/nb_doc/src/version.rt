//! The version of a notebook.

ghost use Rattle.std.specs.Prelude.{◌≡◌};
ghost use Rattle.serde_json.specs.View.{view};
ghost use Rattle.nb_doc.specs.Reading.{number_at, age_by, age_by_minor, minor_key, age_of};

use crate::draft::Age;
use crate::fault::NbFault;
use json_form::Whole;
use serde_json::Value;

/// Whether the cells of a notebook of 4.0 to 4.5 have ids.
#[tactic(auto, unfolding(crate::specs::Reading::age_of))]
pub(crate) fn read_version(value: &Value) -> Result<Age, NbFault>
    ensures { result ≡ age_of (view value.now) }
{
    match number(value, "nbformat") {
        None => Err(NbFault::OtherVersion),
        Some(major) => age_with(value, major),
    }
}

fn age_with(value: &Value, major: Whole) -> Result<Age, NbFault>
    ensures { result ≡ age_by (Some major) (number_at minor_key (view value.now)) }
{
    match number(value, "nbformat_minor") {
        None => Err(NbFault::OtherVersion),
        Some(minor) => age(major, minor),
    }
}

#[tactic(auto, unfolding(crate::specs::Reading::number_at))]
fn number(value: &Value, key: &str) -> Option<Whole>
    ensures { result ≡ number_at key.now (view value.now) }
{
    Whole::of(value.get(key)?)
}

fn age(major: Whole, minor: Whole) -> Result<Age, NbFault>
    ensures { result ≡ age_by (Some major) (Some minor) }
{
    if major.number() == 4 {
        age_of_minor(minor.number())
    } else {
        Err(NbFault::OtherVersion)
    }
}

fn age_of_minor(minor: i128) -> Result<Age, NbFault>
    ensures { result ≡ age_by_minor minor }
{
    if minor < 0 || minor > 5 {
        Err(NbFault::OtherVersion)
    } else if minor == 5 {
        Ok(Age::Current)
    } else {
        Ok(Age::Older)
    }
}
