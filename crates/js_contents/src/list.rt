//! What stands in a folder.
ghost use Rattle.std.specs.Prelude.{◌≡◌, false, IfOk, IfSome};
ghost use Rattle.serde_json.specs.View.{view};
ghost use Rattle.serde_json.specs.Written.{has_float};
ghost use Rattle.js_shelf.specs.Shelves.{Tells};
ghost use Rattle.js_tables.specs.Tables.{rows};
ghost use Rattle.js_contents.specs.Lists as spec;

use crate::kind::about_now;
use crate::look::has_folder;
use crate::place::below;
use crate::read::bare_value;
use js_shelf::{Name, Shelf};
use js_tables::Tables;
use nb_doc::Row;
use serde_json::Value;
use std::alloc::Global;

/// What stands under a name in a folder, without its content; none where the device or memory failed.
fn object<S: Shelf>(
    alloc: Global,
    tables: &Tables,
    shelf: &mut S,
    folder: &str,
    name: &str,
) -> Option<Value>
    ensures object { Tells (S.contents shelf.old) (S.contents shelf.new) (spec.ShowsObject (rows tables.now) folder.now name.now result) }
    ensures whole { IfSome result (λ v. has_float (view v) ≡ false) }
{
    let Ok(place) = below(alloc, folder, name) else {
        return None;
    };
    let is_folder = has_folder(shelf, place.path.as_str())?;
    let Ok(about) = about_now(alloc, tables, place, is_folder) else {
        return None;
    };
    match bare_value(alloc, &about) {
        Ok(value) => Some(value),
        Err(_) => None,
    }
}

/// What stands in a folder under these names, without contents; none where the device or memory failed.
pub(crate) fn objects<S: Shelf>(
    alloc: Global,
    tables: &Tables,
    shelf: &mut S,
    folder: &str,
    names: &[Name],
) -> Option<Row>
    ensures { Tells (S.contents shelf.old) (S.contents shelf.new) (spec.ShowsObjects (rows tables.now) folder.now names.now result) }
{
    let mut row = Row::empty(alloc);
    for name in names {
        let value = object(alloc, tables, shelf, folder, name.as_str())?;
        if row.push(value).is_err() {
            return None;
        }
    }
    Some(row)
}
