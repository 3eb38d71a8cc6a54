//! The code cells of a notebook.

ghost use Rattle.std.specs.Prelude.{◌≡◌, IfOk};
ghost use Rattle.nb_run.specs.Runs.{code_cells};
ghost use Rattle.nb_record.specs.Book.{is_code as is_code_of};

use json_form::Text;
use nb_doc::{Cell, Content};
use std::alloc::{AllocError, Global};

/// A code cell: its id, and its source.
#[derive(Drop)]
pub(crate) struct Code {
    pub id: Text,
    pub source: Text,
}

fn is_code(content: &Content) -> bool
    ensures { result ≡ is_code_of content.now }
{
    match content {
        Content::Code(_) => true,
        Content::Markdown { .. } | Content::Raw { .. } => false,
    }
}

fn code_of(cell: &Cell) -> Result<Code, AllocError>
    ensures { IfOk result (λ c. c ≡ record { id = cell.now.id; source = cell.now.source }) }
{
    Ok(Code {
        id: cell.id.copy()?,
        source: cell.source.copy()?,
    })
}

/// The code cells among these, in their order.
pub(crate) fn codes_of(alloc: Global, cells: &[Cell]) -> Result<Vec<Code>, AllocError>
    ensures { IfOk result (λ codes. codes.items ≡ code_cells cells.now) }
{
    let mut codes = Vec::new(alloc);
    let mut place = 0;
    'cells: while place < cells.len() {
        let cell = &cells[place];
        if is_code(&cell.content) {
            codes.push(code_of(cell)?)?;
        }
        place += 1;
    }
    Ok(codes)
}
