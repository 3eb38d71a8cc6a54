//! What is often asked of a record type.

ghost use Rattle.std.specs.Prelude.{◌≡◌, IfOk};
ghost use Rattle.ob_types.specs.Forms as spec;

use crate::declarable::{are_plain, are_words};
use crate::firsts::ends_of;
use crate::form::{Facts, Field};
use crate::places::places_of;
use crate::size::{fields_levels, fields_size};
use crate::spelling::spelling_of;
use crate::structure::RecordName;
use std::alloc::{AllocError, Global};

/// What is known of a record of this name with these fields, found from what is known of their types. Or lack of memory.
pub(crate) fn facts_of(
    alloc: Global,
    name: &RecordName,
    fields: &[Field],
) -> Result<Facts, AllocError>
    ensures { IfOk result (λ facts. spec.AreFacts facts name.now fields.now) }
{
    let spelling = spelling_of(alloc, name, fields)?;
    let ends = ends_of(alloc, fields)?;
    Ok(Facts {
        cells: fields_size(fields).max(1),
        levels: fields_levels(fields).saturating_add(1),
        plain: are_words(name) && are_plain(fields),
        spelling,
        ends,
        places: places_of(alloc, fields)?,
    })
}
