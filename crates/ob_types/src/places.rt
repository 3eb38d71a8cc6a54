//! Where a field stands among the fields of a record.

ghost use Rattle.std.specs.Prelude.{◌≡◌, IfOk, IfSome};
ghost use Rattle.ob_types.specs.Forms as spec;
ghost use Rattle.ob_types.specs.declared.structure.RecordType.{out-RecordType};

use crate::form::{Field, RecordType};
use ob_base::Text;
use std::alloc::{AllocError, Global};
use std::collections::HashMap;

/// A record of fewer fields has no map: they are looked through.
const MANY: usize = 16;

/// The first place of each name, from the last field on, so that an earlier one takes the place of a later one.
fn map_of(alloc: Global, fields: &[Field]) -> Result<HashMap<Vec<u8>, usize>, AllocError>
    ensures { IfOk result (λ p. spec.IsIndexFrom 0 p fields.now) }
{
    let mut places = HashMap::new(alloc);
    let mut i = fields.len();
    while i > 0 {
        i -= 1;
        let key = Vec::from_slice(alloc, fields[i].name().as_slice())?;
        places.insert(key, i)?;
    }
    Ok(places)
}

/// The same where there are many fields. Or lack of memory.
pub(crate) fn places_of(
    alloc: Global,
    fields: &[Field],
) -> Result<Option<HashMap<Vec<u8>, usize>>, AllocError>
    ensures { IfOk result (λ o. IfSome o (λ p. spec.IsIndexFrom 0 p fields.now)) }
{
    if fields.len() < MANY {
        return Ok(None);
    }
    let places = map_of(alloc, fields)?;
    Ok(Some(places))
}

/// The first place of a name, found by looking through the fields.
fn place_in(fields: &[Field], name: &Text) -> Option<usize>
    ensures { result ≡ spec.place_from 0 fields.now name.now }
{
    for i in 0..fields.len() {
        if fields[i].name().same(name) {
            return Some(i);
        }
    }
    None
}

impl RecordType {
    /// The first place of a name among the fields.
    pub fn place_of(&self, name: &Text) -> Option<usize>
        ensures { result ≡ spec.place_from 0 (out-RecordType self.now).fields name.now }
    {
        match &self.facts.places {
            Some(places) => match places.get(name.as_slice()) {
                Some(place) => Some(*place),
                None => None,
            },
            None => place_in(self.fields(), name),
        }
    }
}
