//! Giving ids to the cells that have none.

ghost use Rattle.std.specs.Prelude.{◌≡◌, ℕ, ◌+◌, ◌^◌, ◌≤◌, ◌<◌, true, List, length, IfOk};
ghost use Rattle.nb_doc.specs.Documents.{ids};
ghost use Rattle.nb_doc.specs.Ids.{standing, name_of, id_in, taken_after, cell_with, raise, least_free, are_distinct, IsSetOf};
ghost use Rattle.nb_doc.specs.Names.{IsNamer};

use crate::draft::Draft;
use crate::listed::Listed;
use crate::names::Names;
use crate::notebook::Cell;
use json_form::Text;
use std::alloc::{AllocError, Global};

/// The names that are still to be met, and the last number that was looked at.
#[derive(Drop)]
struct Namer {
    taken: Names,
    last: u128,
}

/// The cells of a notebook of 4.5: each that has no id gets `run-` and the least number from 1 that none of `ids`
/// is and no earlier cell got.
#[tactic(auto, unfolding(crate::specs::Ids::raise))]
pub(crate) fn raise_cells(
    alloc: Global,
    drafts: Listed<Draft>,
    ids: Names,
) -> Result<Listed<Cell>, AllocError>
    requires { IsSetOf ids (standing drafts) }
    ensures cells { IfOk result (λ cells. cells ≡ raise drafts) }
    ensures few { IfOk result (λ cells. length cells < 2 ^ 64) }
{
    // So that clauses know that there are fewer than 2^64.
    let _known = ids.len();
    let mut namer = Namer {
        taken: ids,
        last: 0,
    };
    let mut cells = Vec::with_capacity(alloc, drafts.as_slice().len())?;
    for draft in drafts.into_vec() {
        let (now, cell) = raise_cell(alloc, namer, draft)?;
        namer = now;
        cells.push(cell)?;
    }
    let _count = cells.len();
    Ok(Listed::new(cells))
}

fn raise_cell(alloc: Global, namer: Namer, draft: Draft) -> Result<(Namer, Cell), AllocError>
    requires { namer.last + length namer.taken < 2 ^ 65 }
    ensures cell { IfOk result (λ r. (taken : List (List ℕ)) → IsNamer taken namer
        → r.1 ≡ cell_with draft (id_in taken draft.id)) }
    ensures namer { IfOk result (λ r. (taken : List (List ℕ)) → IsNamer taken namer
        → IsNamer (taken_after taken draft.id) r.0) }
    ensures bound { IfOk result
        (λ r. r.0.last + length r.0.taken ≤ namer.last + length namer.taken + 1) }
{
    let Draft {
        id,
        metadata,
        source,
        content,
    } = draft;
    let (namer, id) = id_for(alloc, namer, id)?;
    let cell = Cell {
        id,
        metadata,
        source,
        content,
    };
    Ok((namer, cell))
}

/// The id that stands there, or the next name that is free.
fn id_for(alloc: Global, namer: Namer, id: Option<Text>) -> Result<(Namer, Text), AllocError>
    requires { namer.last + length namer.taken < 2 ^ 65 }
    ensures id { IfOk result (λ r. (taken : List (List ℕ)) → IsNamer taken namer → r.1 ≡ id_in taken id) }
    ensures namer { IfOk result (λ r. (taken : List (List ℕ)) → IsNamer taken namer
        → IsNamer (taken_after taken id) r.0) }
    ensures bound { IfOk result
        (λ r. r.0.last + length r.0.taken ≤ namer.last + length namer.taken + 1) }
{
    match id {
        Some(id) => Ok((namer, id)),
        None => next_name(alloc, namer),
    }
}

fn next_name(alloc: Global, namer: Namer) -> Result<(Namer, Text), AllocError>
    requires { namer.last + length namer.taken < 2 ^ 65 }
    ensures id { IfOk result (λ r. (taken : List (List ℕ)) → IsNamer taken namer → r.1 ≡ id_in taken None) }
    ensures namer { IfOk result (λ r. (taken : List (List ℕ)) → IsNamer taken namer
        → IsNamer (taken_after taken None) r.0) }
    ensures bound { IfOk result
        (λ r. r.0.last + length r.0.taken ≤ namer.last + length namer.taken + 1) }
{
    let Namer {
        mut taken,
        mut last,
    } = namer;
    loop {
        last += 1;
        let name = numbered(alloc, last)?;
        if !taken.remove(name.as_str()) {
            return Ok((Namer { taken, last }, name));
        }
    }
}

#[tactic(auto, unfolding(crate::specs::Ids::name_of))]
fn numbered(alloc: Global, number: u128) -> Result<Text, AllocError>
    ensures { IfOk result (λ t. t ≡ name_of number) }
{
    Ok(Text::from_string(format!(in alloc; "run-{number}")?))
}

/// `run-` and the least number from 1 with which it is the id of no cell.
pub fn free_name(alloc: Global, cells: &[Cell]) -> Result<Text, AllocError>
    requires { are_distinct (ids cells.now) ≡ true }
    ensures { IfOk result (λ t. t ≡ name_of (least_free (ids cells.now))) }
{
    let taken = ids_of(alloc, cells)?;
    // So that clauses know that there are fewer than 2^64.
    let _known = taken.len();
    let (_namer, name) = next_name(alloc, Namer { taken, last: 0 })?;
    Ok(name)
}

fn ids_of(alloc: Global, cells: &[Cell]) -> Result<Names, AllocError>
    requires { are_distinct (ids cells.now) ≡ true }
    ensures { IfOk result (λ names. IsSetOf names (ids cells.now)) }
{
    let mut names = Names::empty(alloc);
    for cell in cells {
        names.add(alloc, cell.id.as_str())?;
    }
    Ok(names)
}
