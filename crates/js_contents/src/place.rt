//! The path that a request on contents is about.
ghost use Rattle.std.specs.Prelude.{◌≡◌, [], IfOk};
ghost use Rattle.std.specs.List.{list_any};
ghost use Rattle.std.specs.Option.{option_copied};
ghost use Rattle.js_shelf.specs.Paths.{is_slash};
ghost use Rattle.js_contents.specs.Places as spec;
ghost use Rattle.js_tables.specs.Plans.{Gives};

use js_http::{Bytes, ErrorStatus};
use js_shelf::is_path;
use js_tables::Refusal;
use json_form::Text;
use std::alloc::{AllocError, Global};

/// A path, and the name of what stands there.
#[derive(Drop)]
pub struct Place {
    pub path: Text,
    pub name: Text,
}

fn has_slash(bytes: &[u8]) -> bool
    ensures { result ≡ list_any is_slash bytes.now }
{
    bytes.iter().any(|&byte| byte == b'/')
}

/// The text of a segment that was sent, if it is text, not empty and without a slash.
#[tactic(auto, using(js_tables::proofs::Giving::is_text, js_tables::proofs::Giving::is_no_text))]
fn part_text(part: &[u8]) -> Option<&str>
    ensures { option_copied result ≡ spec.part_text part.now }
{
    let Ok(text) = std::str::from_utf8(part) else {
        return None;
    };
    if part.is_empty() {
        return None;
    }
    if has_slash(part) {
        return None;
    }
    Some(text)
}

/// The segments with a slash between two, and the last of them.
fn joined(alloc: Global, parts: &[Bytes]) -> Result<Place, Refusal>
    ensures { Gives result (spec.joined spec.root parts.now) }
{
    let mut path = String::new(alloc);
    let mut name = Text::from_str(alloc, "")?;
    for part in parts {
        let Some(text) = part_text(part.as_slice()) else {
            return Err(Refusal::Status(ErrorStatus::BadRequest));
        };
        if !path.is_empty() {
            path.push_str("/")?;
        }
        path.push_str(text)?;
        name = Text::from_str(alloc, text)?;
    }
    Ok(Place {
        path: Text::from_string(path),
        name,
    })
}

/// The segments without an empty one at their end.
fn trimmed(parts: &[Bytes]) -> &[Bytes]
    ensures { result.now ≡ spec.trimmed parts.now }
{
    if parts.is_empty() {
        return parts;
    }
    let last = parts.len() - 1;
    if parts[last].as_slice().is_empty() {
        &parts[..last]
    } else {
        parts
    }
}

/// What follows `/api/contents`.
fn below_contents(segments: &[Bytes]) -> &[Bytes]
    ensures { result.now ≡ spec.below_contents segments.now }
{
    if segments.len() < 3 {
        &[]
    } else {
        &segments[3..]
    }
}

/// The place that a request is about.
pub fn place_of(alloc: Global, segments: &[Bytes]) -> Result<Place, Refusal>
    ensures { Gives result (spec.place_of segments.now) }
{
    if_path(joined(alloc, trimmed(below_contents(segments)))?)
}

/// The place, where its path is one; else the refusal.
pub fn if_path(place: Place) -> Result<Place, Refusal>
    ensures { Gives result (spec.if_path place) }
{
    if !is_path(place.path.as_str()) {
        return Err(Refusal::Status(ErrorStatus::BadRequest));
    }
    Ok(place)
}

/// What stands in a folder under a name.
pub fn below(alloc: Global, folder: &str, name: &str) -> Result<Place, AllocError>
    ensures { IfOk result (λ place. place ≡ spec.child folder.now name.now) }
{
    let mut path = String::from_str(alloc, folder)?;
    if !path.is_empty() {
        path.push_str("/")?;
    }
    path.push_str(name)?;
    Ok(Place {
        path: Text::from_string(path),
        name: Text::from_str(alloc, name)?,
    })
}

/// What follows the last slash of a path, or all of it.
pub fn name_of(path: &str) -> &str
    ensures { result.now ≡ spec.name_of path.now }
{
    match path.rfind('/') {
        Some(slash) => &path[slash + 1..],
        None => path,
    }
}

/// The place of a path that a body names.
pub fn named_place(alloc: Global, path: Text) -> Result<Place, Refusal>
    ensures { Gives result (spec.named_place path) }
{
    let name = Text::from_str(alloc, name_of(path.as_str()))?;
    if_path(Place { path, name })
}
