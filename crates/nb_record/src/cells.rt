//! The cells of a notebook that is recorded.

ghost use Rattle.std.specs.Prelude.{◌≡◌, ◌<◌, ◌^◌, true, [], length, slice_get, slice_set, IfOk, OnOk, OnErr};
ghost use Rattle.nb_doc.specs.declared.notebook.Cell.{Cell};
ghost use Rattle.nb_doc.specs.declared.notebook.Content.TheVariants.{Code as CodeContent};
ghost use Rattle.nb_doc.specs.Documents.{ids};
ghost use Rattle.nb_doc.specs.Ids.{are_distinct, is_among};
ghost use Rattle.nb_record.specs.Book.{has_code, is_code_at, new_id, run_in, run_of, with_run, kept_run, no_run as empty_run};
ghost use Rattle.nb_record.specs.Steps.{started_run, begun_cell, fresh_cell, add_output, wrote_cell, put_cell, IsFound};

use json_form::{Json, Text, Whole};
use nb_doc::{Cell, Content, Execution, Listed, Output, free_name, is_allowed_id};
use std::alloc::{AllocError, Global};

/// Where the code cell of that id stands.
pub(crate) fn code_place(cells: &[Cell], id: &str) -> Option<usize>
    ensures { IsFound cells.now id.now result }
{
    for (place, cell) in cells.iter().enumerate() {
        if is_code_cell(cell, id) {
            return Some(place);
        }
    }
    None
}

fn is_code_cell(cell: &Cell, id: &str) -> bool
    ensures { result ≡ is_code_at id.now cell.now }
{
    id == cell.id.as_str() && matches!(cell.content, Content::Code(_))
}

fn has_id(cells: &[Cell], id: &str) -> bool
    ensures { result ≡ is_among (ids cells.now) id.now }
{
    for cell in cells {
        if id == cell.id.as_str() {
            return true;
        }
    }
    false
}

/// The id of a cell that is appended: the one wished for where it is allowed and free, else a name.
pub(crate) fn id_for(alloc: Global, cells: &[Cell], wish: Option<Text>) -> Result<Text, AllocError>
    requires { are_distinct (ids cells.now) ≡ true }
    ensures id { IfOk result (λ id. id ≡ new_id cells.now wish) }
    ensures few { length cells.now < 2 ^ 64 }
{
    let _count = cells.len();
    match wish {
        None => free_name(alloc, cells),
        Some(id) => {
            if is_allowed_id(id.as_str()) && !has_id(cells, id.as_str()) {
                Ok(id)
            } else {
                free_name(alloc, cells)
            }
        }
    }
}

/// A cell that begins and has no id yet.
pub(crate) fn fresh(alloc: Global, id: Text, source: Text, count: u64) -> Cell
    ensures { result ≡ fresh_cell id source count }
{
    Cell {
        id,
        metadata: Json::empty(alloc),
        source,
        content: started(alloc, count),
    }
}

fn started(alloc: Global, count: u64) -> Content
    ensures { result ≡ CodeContent (started_run count) }
{
    Content::Code(Execution {
        execution_count: Some(Whole::from_u64(count)),
        outputs: Listed::empty(alloc),
    })
}

/// A cell that takes the place of another until that one is back.
fn blank(alloc: Global) -> Cell {
    Cell {
        id: Text::from_string(String::new(alloc)),
        metadata: Json::empty(alloc),
        source: Text::from_string(String::new(alloc)),
        content: Content::Raw { attachments: None },
    }
}

/// A code cell begins.
pub(crate) fn begin_at(
    alloc: Global,
    cells: &mut Listed<Cell>,
    place: usize,
    source: Text,
    count: u64,
)
    requires { place < length cells.old }
    ensures { (c : Cell) → slice_get cells.old place ≡ Some c
        → cells.new ≡ slice_set cells.old place (begun_cell source count c) }
{
    let Cell {
        id,
        metadata,
        source: _,
        content: _,
    } = cells.replace(place, blank(alloc));
    let cell = Cell {
        id,
        metadata,
        source,
        content: started(alloc, count),
    };
    let _blank = cells.replace(place, cell);
}

/// A cell writes. Where there is no memory for it, nothing has changed.
pub(crate) fn write_at(
    alloc: Global,
    cells: &mut Listed<Cell>,
    place: usize,
    output: Output,
) -> Result<(), AllocError>
    requires { place < length cells.old }
    ensures ok { OnOk result ((c : Cell) → slice_get cells.old place ≡ Some c
        → cells.new ≡ slice_set cells.old place (wrote_cell output c)) }
    ensures err { OnErr result (cells.new ≡ cells.old) }
{
    let cell = cells.replace(place, blank(alloc));
    let (cell, wrote) = written(cell, output);
    let _blank = cells.replace(place, cell);
    wrote
}

fn written(cell: Cell, output: Output) -> (Cell, Result<(), AllocError>)
    ensures ok { OnOk result.1 (result.0 ≡ wrote_cell output cell) }
    ensures err { OnErr result.1 (result.0 ≡ cell) }
{
    let Cell {
        id,
        metadata,
        source,
        content,
    } = cell;
    let (content, wrote) = appended(content, output);
    let cell = Cell {
        id,
        metadata,
        source,
        content,
    };
    (cell, wrote)
}

fn appended(content: Content, output: Output) -> (Content, Result<(), AllocError>)
    ensures ok { OnOk result.1 (result.0 ≡ add_output output content) }
    ensures err { OnErr result.1 (result.0 ≡ content) }
{
    match content {
        Content::Code(execution) => {
            let Execution {
                execution_count,
                mut outputs,
            } = execution;
            let wrote = match outputs.push(output) {
                Ok(()) => Ok(()),
                Err(_) => Err(AllocError),
            };
            let execution = Execution {
                execution_count,
                outputs,
            };
            (Content::Code(execution), wrote)
        }
        other => (other, Ok(())),
    }
}
