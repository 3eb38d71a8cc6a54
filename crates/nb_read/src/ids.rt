//! The ids of cells.

ghost use Rattle.std.specs.Prelude.{◌≡◌, true, IfOk};
ghost use Rattle.std.specs.List.{list_all};
ghost use Rattle.nb_doc.specs.Documents.{ids};
ghost use Rattle.nb_doc.specs.Ids.{is_allowed, are_distinct};

use nb_doc::{Cell, Names, is_allowed_id};
use std::alloc::{AllocError, Global};

/// Whether each id is allowed.
pub(crate) fn are_allowed(cells: &[Cell]) -> bool
    ensures { result ≡ list_all is_allowed (ids cells.now) }
{
    for cell in cells {
        if !is_allowed_id(cell.id.as_str()) {
            return false;
        }
    }
    true
}

/// Whether no id stands twice.
pub(crate) fn are_distinct_ids(alloc: Global, cells: &[Cell]) -> Result<bool, AllocError>
    ensures { IfOk result (λ b. b ≡ true → are_distinct (ids cells.now) ≡ true) }
{
    let mut names = Names::empty(alloc);
    for cell in cells {
        if !names.add(alloc, cell.id.as_str())? {
            return Ok(false);
        }
    }
    Ok(true)
}
