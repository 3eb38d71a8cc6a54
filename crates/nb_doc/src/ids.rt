//! Which ids stand in a notebook, and whether they may.

ghost use Rattle.std.specs.Prelude.{◌≡◌, true, Ok, Err, IfOk, IfErr};
ghost use Rattle.std.specs.List.{list_all};
ghost use Rattle.nb_doc.specs.Ids.{is_id_byte, is_allowed, are_distinct, standing, IsSetOf};
ghost use Rattle.nb_doc.specs.Reading.{ids_of, IsRepeated};
ghost use Rattle.nb_doc.specs.Steps.{Refuses};

use crate::draft::Draft;
use crate::fault::{NbBad, NbFault};
use crate::names::Names;
use std::alloc::Global;

/// Whether a text may be a cell's id: 1 to 64 of letters, digits, `-` and `_`.
#[tactic(auto, unfolding(crate::specs::Ids::is_allowed))]
pub fn is_allowed_id(id: &str) -> bool
    ensures { result ≡ is_allowed id.now }
{
    !id.is_empty() && id.len() <= 64 && are_id_bytes(id.as_bytes())
}

fn are_id_bytes(bytes: &[u8]) -> bool
    ensures { result ≡ list_all is_id_byte bytes.now }
{
    for &byte in bytes {
        if !(byte.is_ascii_alphanumeric() || byte == b'-' || byte == b'_') {
            return false;
        }
    }
    true
}

/// The ids that stand in a notebook: each is allowed (`BadId`), and then none stands twice (`RepeatedId`).
#[tactic(auto, unfolding(crate::specs::Reading::ids_of))]
pub(crate) fn read_ids(alloc: Global, drafts: &[Draft]) -> Result<Names, NbBad>
    ensures ok { IfOk result (λ _. ids_of drafts.now ≡ Ok tt) }
    ensures names { IfOk result (λ names. IsSetOf names (standing drafts.now)) }
    ensures err { IfErr result (λ e. Refuses e (ids_of drafts.now)) }
{
    if !are_allowed(drafts) {
        return Err(NbBad::Fault(NbFault::BadId));
    }
    distinct_ids(alloc, drafts)
}

fn are_allowed(drafts: &[Draft]) -> bool
    ensures { result ≡ list_all is_allowed (standing drafts.now) }
{
    for draft in drafts {
        if let Some(id) = &draft.id {
            if !is_allowed_id(id.as_str()) {
                return false;
            }
        }
    }
    true
}

fn distinct_ids(alloc: Global, drafts: &[Draft]) -> Result<Names, NbBad>
    ensures distinct { IfOk result (λ _. are_distinct (standing drafts.now) ≡ true) }
    ensures names { IfOk result (λ names. IsSetOf names (standing drafts.now)) }
    ensures err { IfErr result (λ e. IsRepeated e (are_distinct (standing drafts.now))) }
{
    let mut names = Names::empty(alloc);
    for draft in drafts {
        let Some(id) = &draft.id else {
            continue;
        };
        if !names.add(alloc, id.as_str())? {
            return Err(NbBad::Fault(NbFault::RepeatedId));
        }
    }
    Ok(names)
}
