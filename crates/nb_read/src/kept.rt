//! Values that are kept as they were read, with texts of their own.

ghost use Rattle.std.specs.Prelude.{◌≡◌, false, map, IfOk};
ghost use Rattle.serde_json.specs.Data.{no_members};
ghost use Rattle.serde_json.specs.View.{view, items_view, members_view};
ghost use Rattle.serde_json.specs.Written.{has_float, items_have_float, members_have_float};
ghost use Rattle.nb_read.specs.Lent.{data_view, members_data};

use crate::numbers::whole_in;
use crate::unread::Unread;
use json::Value;
use json_form::Json;
use serde_json::{Map, Value as Owned};
use std::alloc::Global;

/// A value whose numbers are whole.
pub(crate) fn keep(alloc: Global, value: &Value<'_>) -> Result<Json, Unread>
    ensures { IfOk result (λ j. j ≡ data_view value.now) }
{
    let owned = owned(alloc, value)?;
    Ok(Json::of_whole(owned))
}

#[cycle(owned)]
#[tactic(auto, using(crate::proofs::WholeNumbers::num_is, crate::proofs::WholeNumbers::not_float, crate::proofs::Keeping::array_is))]
fn owned(alloc: Global, value: &Value<'_>) -> Result<Owned, Unread>
    ensures form { IfOk result (λ v. view v ≡ data_view value.now) }
    ensures whole { IfOk result (λ v. has_float (view v) ≡ false) }
{
    match value {
        Value::Null => Ok(Owned::Null),
        Value::Bool(b) => Ok(Owned::Bool(*b)),
        Value::Number(text) => match whole_in(text) {
            Some(number) => Ok(Owned::Number(number)),
            None => Err(Unread::Other),
        },
        Value::String(text) => Ok(Owned::String(String::from_str(alloc, text)?)),
        Value::Array(items) => Ok(Owned::Array(owned_items(alloc, items)?)),
        Value::Object(members) => Ok(Owned::Object(owned_members(alloc, members)?)),
    }
}

#[cycle(owned)]
fn owned_items(alloc: Global, items: &Vec<Value<'_>>) -> Result<Vec<Owned>, Unread>
    ensures form { IfOk result (λ v. map view v.items ≡ map data_view items.now.items) }
    ensures whole { IfOk result (λ v. items_have_float (items_view v.items) ≡ false) }
{
    let mut found = Vec::new(alloc);
    for item in items {
        let item = owned(alloc, item)?;
        found.push(item)?;
    }
    Ok(found)
}

#[cycle(owned)]
fn owned_members(
    alloc: Global,
    members: &Vec<(&str, Value<'_>)>,
) -> Result<Map<String, Owned>, Unread>
    ensures form { IfOk result (λ m. members_view m.entries ≡ members_data members.now.items no_members) }
    ensures whole { IfOk result (λ m. members_have_float (members_view m.entries) ≡ false) }
{
    let mut found = Map::new(alloc);
    for member in members {
        let key = String::from_str(alloc, member.0)?;
        let value = owned(alloc, &member.1)?;
        drop(found.insert(key, value)?);
    }
    Ok(found)
}
