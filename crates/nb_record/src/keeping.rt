//! What is kept of the cells of a notebook that is recorded, where another is put.

ghost use Rattle.std.specs.Prelude.{◌≡◌, ◌&&◌, ℕ, List, map, IfOk};
ghost use Rattle.nb_doc.specs.Ids.{is_among};
ghost use Rattle.nb_record.specs.Book.{has_code, is_id, run_in, run_of, with_run, kept_run, no_run as empty_run};
ghost use Rattle.nb_record.specs.State.{running_in};
ghost use Rattle.nb_record.specs.Steps.{put_cell};

use crate::pages::Pages;
use nb_doc::{Cell, Content, Execution, Listed, Names};
use std::alloc::{AllocError, Global};

/// The executed code cells that are code cells of a notebook that is put, too.
pub(crate) fn still_executed(
    alloc: Global,
    executed: &Names,
    cells: &[Cell],
) -> Result<Names, AllocError>
    ensures { IfOk result (λ still. (id : List ℕ)
        → is_among still id ≡ (has_code cells.now id && is_among executed.now id)) }
{
    let mut still = Names::empty(alloc);
    for cell in cells {
        let id = cell.id.as_str();
        if matches!(cell.content, Content::Code(_)) && executed.contains(id) {
            still.add(alloc, id)?;
        }
    }
    Ok(still)
}

/// The cells of a notebook that is put over pages, where those of these ids keep what their runs left.
pub(crate) fn kept_cells(
    alloc: Global,
    still: &Names,
    before: &Pages,
    cells: Listed<Cell>,
) -> Result<Listed<Cell>, AllocError>
    ensures { IfOk result (λ kept. kept ≡ map (put_cell still.now (running_in before.now) before.now.notebook.cells) cells) }
{
    let mut kept = Vec::with_capacity(alloc, cells.as_slice().len())?;
    for cell in cells.into_vec() {
        let put = kept_cell(alloc, still, before, cell)?;
        kept.push(put)?;
    }
    Ok(Listed::new(kept))
}

fn kept_cell(alloc: Global, still: &Names, before: &Pages, cell: Cell) -> Result<Cell, AllocError>
    ensures { IfOk result (λ c. c ≡ put_cell still.now (running_in before.now) before.now.notebook.cells cell) }
{
    let Cell {
        id,
        metadata,
        source,
        content,
    } = cell;
    let content = if still.contains(id.as_str()) {
        kept_content(alloc, before, id.as_str(), content)?
    } else {
        content
    };
    Ok(Cell {
        id,
        metadata,
        source,
        content,
    })
}

fn kept_content(
    alloc: Global,
    before: &Pages,
    id: &str,
    content: Content,
) -> Result<Content, AllocError>
    ensures { IfOk result (λ c. c ≡ with_run (kept_run (is_id id.now (running_in before.now)) (run_of content)
        (run_in before.now.notebook.cells id.now)) content) }
{
    match content {
        Content::Code(execution) => {
            let run = if before.runs(id) || execution.execution_count.is_some() {
                run_at(alloc, before.notebook.cells.as_slice(), id)?
            } else {
                no_run(alloc)
            };
            Ok(Content::Code(run))
        }
        other => Ok(other),
    }
}

fn no_run(alloc: Global) -> Execution
    ensures { result ≡ empty_run }
{
    Execution {
        execution_count: None,
        outputs: Listed::empty(alloc),
    }
}

/// What the run of the code cell of that id left.
fn run_at(alloc: Global, cells: &[Cell], id: &str) -> Result<Execution, AllocError>
    ensures { IfOk result (λ e. e ≡ run_in cells.now id.now) }
{
    for cell in cells {
        if let Content::Code(execution) = &cell.content {
            if id == cell.id.as_str() {
                return execution.copy(alloc);
            }
        }
    }
    Ok(no_run(alloc))
}
