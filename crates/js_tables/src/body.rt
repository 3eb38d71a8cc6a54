//! The bodies of requests.
ghost use Rattle.std.specs.Prelude.{◌≡◌, ◌≤◌, IfOk};
ghost use Rattle.serde_json.specs.Data.{depth};
ghost use Rattle.serde_json.specs.Read.{max_depth};
ghost use Rattle.js_tables.specs.Bodies as spec;
ghost use Rattle.js_tables.specs.Plans.{Gives};

use crate::refusal::Refusal;
use js_http::ErrorStatus;
use json_form::{Json, Text, given_part, needed_object, needed_text, optional_text};
use std::alloc::Global;

#[tactic(auto, using(crate::proofs::Giving::gives_ok, crate::proofs::Giving::gives_err))]
fn read_text(alloc: Global, text: &str) -> Result<Json, Refusal>
    ensures exact { Gives result (spec.text_json text.now) }
    ensures shallow { IfOk result (λ json. depth json ≤ max_depth) }
{
    match Json::read(alloc, text) {
        Ok(json) => Ok(json),
        Err(bad) => Err(Refusal::from(bad)),
    }
}

/// An object, and no other value.
fn only_object(json: Json) -> Result<Json, Refusal>
    requires { depth json ≤ max_depth }
    ensures exact { Gives result (spec.only_object json) }
    ensures shallow { IfOk result (λ object. depth object ≤ max_depth) }
{
    match needed_object(Some(json.value())) {
        Ok(_) => Ok(json),
        Err(fault) => Err(Refusal::from(fault)),
    }
}

fn read_object(alloc: Global, text: &str) -> Result<Json, Refusal>
    ensures exact { Gives result (spec.text_body text.now) }
    ensures shallow { IfOk result (λ json. depth json ≤ max_depth) }
{
    only_object(read_text(alloc, text)?)
}

/// The JSON of a body, which is `{}` where the body is empty. What is no JSON, or no object, is a bad request.
#[tactic(auto, using(crate::proofs::Giving::is_text, crate::proofs::Giving::is_no_text, crate::proofs::Depths::object_shallow))]
pub fn read_body(alloc: Global, bytes: &[u8]) -> Result<Json, Refusal>
    ensures exact { Gives result (spec.body_of bytes.now) }
    // It nests no deeper than JSON is read.
    ensures shallow { IfOk result (λ json. depth json ≤ max_depth) }
{
    if bytes.is_empty() {
        return Ok(Json::empty(alloc));
    }
    match std::str::from_utf8(bytes) {
        Ok(text) => read_object(alloc, text),
        Err(_) => Err(Refusal::Status(ErrorStatus::BadRequest)),
    }
}

/// A text that has to be there.
pub fn text_in(alloc: Global, body: &Json, key: &str) -> Result<Text, Refusal>
    ensures { Gives result (spec.text_in key.now body.now) }
{
    let text = needed_text(given_part(body.value(), key))?;
    Ok(Text::from_str(alloc, text)?)
}

/// A text, or the default where it is missing.
pub fn optional_text_in(
    alloc: Global,
    body: &Json,
    key: &str,
    default: &str,
) -> Result<Text, Refusal>
    ensures { Gives result (spec.optional_text_in key.now default.now body.now) }
{
    let text = optional_text(given_part(body.value(), key), default)?;
    Ok(Text::from_str(alloc, text)?)
}

/// A text, if one is given.
pub fn given_text_in(alloc: Global, body: &Json, key: &str) -> Result<Option<Text>, Refusal>
    ensures { Gives result (spec.given_text_in key.now body.now) }
{
    let field = given_part(body.value(), key);
    if field.is_none() {
        return Ok(None);
    }
    let text = needed_text(field)?;
    Ok(Some(Text::from_str(alloc, text)?))
}

/// Refuses the name of another kernel than oberon.
pub fn named_or_oberon(name: &str) -> Result<(), Refusal>
    ensures { Gives result (spec.is_oberon name.now) }
{
    if name != "oberon" {
        return Err(Refusal::Status(ErrorStatus::BadRequest));
    }
    Ok(())
}

/// Refuses a body that names another kernel than oberon.
pub fn check_kernel_name(body: &Json) -> Result<(), Refusal>
    ensures { Gives result (spec.name_checked body.now) }
{
    named_or_oberon(optional_text(given_part(body.value(), "name"), "oberon")?)
}
