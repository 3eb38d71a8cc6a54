//! The parts of a request target: the segments of its path and the fields of its query.
ghost use Rattle.std.specs.Prelude.{◌≡◌, ◌==◌, IfOk, string_bytes};
ghost use Rattle.std.specs.Option.{option_copied, option_map};
ghost use Rattle.std.specs.Str.{bytes_eq};
ghost use Rattle.percent_encoding.specs.Percent.{percent_decode as percent_decoded};
ghost use Rattle.js_http.specs.Targets as spec;

use crate::places::byte_place;
use crate::{Bytes, Text};
use percent_encoding::percent_decode;
use std::alloc::{AllocError, Global};
use std::marker::Model;

/// The segments of a path, in order, with their escapes read.
#[derive(Debug, Drop)]
pub struct Segments {
    items: Vec<Bytes>,
}

impl Model for Segments {
    ghost use Rattle.std.specs.Prelude.{List, ℕ};

    ghost Value = { List (List ℕ) };

    ghost view = { λ s. s.items.items };
}

impl Segments {
    /// The segments.
    pub fn as_slice(&self) -> &[Bytes]
        ensures { result.now ≡ self.now }
    {
        self.items.as_slice()
    }
}

/// The bytes that a segment stands for.
fn decoded(alloc: Global, segment: &[u8]) -> Result<Bytes, AllocError>
    ensures { IfOk result (λ bytes. bytes ≡ percent_decoded segment.now) }
{
    let mut bytes = Vec::new(alloc);
    percent_decode(segment).append_to(&mut bytes)?;
    Ok(Bytes::from(bytes))
}

/// The pieces of a path between its slashes, each with its escapes read: `/a%20b/c` has an empty one, `a b` and `c`.
/// They are bytes, and may be no UTF-8. Lack of memory is the only error.
pub fn path_segments(alloc: Global, path: &str) -> Result<Segments, AllocError>
    ensures { IfOk result (λ segments. segments ≡ spec.segments_of path.now) }
{
    let mut items = Vec::new(alloc);
    let mut rest = path.as_bytes();
    'segments: loop {
        let (segment, behind) = rest.split_at(byte_place(rest, b'/'));
        items.push(decoded(alloc, segment)?)?;
        if behind.is_empty() {
            return Ok(Segments { items });
        }
        rest = &behind[1..];
    }
}

/// The value that a query gives to a name, or `None` where no field has the name. Of several fields of one name the
/// last counts; a `+` is a blank, and what is no UTF-8 becomes U+FFFD. Lack of memory is the only error.
pub fn query_value(alloc: Global, query: &str, name: &str) -> Result<Option<Text>, AllocError>
    ensures { IfOk result (λ value. value ≡ spec.query_value query.now name.now) }
{
    let mut found = None;
    for pair in form_urlencoded::parse(alloc, query.as_bytes()) {
        let (field, value) = pair?;
        if field.as_str() == name {
            found = Some(Text::from(value.into_owned(alloc)?));
        }
    }
    Ok(found)
}
