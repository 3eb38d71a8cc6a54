//! What is said of what stands at a path.
ghost use Rattle.std.specs.Prelude.{◌≡◌, IfOk};
ghost use Rattle.js_tables.specs.Tables.{rows};
ghost use Rattle.js_contents.specs.Kinds as spec;

use crate::place::Place;
use js_tables::{About, Kind, Tables};
use json_form::Text;
use std::alloc::{AllocError, Global};

/// Whether a file of that name is a notebook.
pub fn is_notebook_name(name: &str) -> bool
    ensures { result ≡ spec.is_notebook_name name.now }
{
    name.as_bytes().ends_with(b".ipynb".as_slice())
}

/// The kind of a thing, by whether it is a folder and by its name.
pub(crate) fn kind_for(is_folder: bool, name: &str) -> Kind
    ensures { result ≡ spec.kind_for is_folder name.now }
{
    if is_folder {
        Kind::Directory
    } else if is_notebook_name(name) {
        Kind::Notebook
    } else {
        Kind::File
    }
}

/// What is said of a thing at a place, which was last put as the tables say.
pub(crate) fn about_now(
    alloc: Global,
    tables: &Tables,
    place: Place,
    is_folder: bool,
) -> Result<About, AllocError>
    ensures { IfOk result (λ about. about ≡ spec.about (rows tables.now) place is_folder) }
{
    let date = Text::from_str(alloc, tables.date_of(place.path.as_str()))?;
    Ok(about_at(place, is_folder, date))
}

/// What is said of a thing at a place, with a date.
pub fn about_at(place: Place, is_folder: bool, date: Text) -> About
    ensures { result ≡ spec.about_at place is_folder date }
{
    About {
        kind: kind_for(is_folder, place.name.as_str()),
        path: place.path,
        name: place.name,
        date,
    }
}
