//! Making notebooks, cells and outputs.

ghost use Rattle.std.specs.Prelude.{◌≡◌, IfOk};
ghost use Rattle.nb_doc.specs.declared.notebook.Output.TheVariants.{Stream as StreamOutput};
ghost use Rattle.nb_doc.specs.Building.{empty_notebook, code_cell, error_output};

use crate::listed::Listed;
use crate::notebook::{Cell, Content, Execution, Notebook, Output};
use json_form::{Json, Text, Whole};
use std::alloc::{AllocError, Global};

impl Notebook {
    /// No cells, and no metadata.
    pub fn empty(alloc: Global) -> Notebook
        ensures { result ≡ empty_notebook }
    {
        Notebook {
            cells: Listed::empty(alloc),
            metadata: Json::empty(alloc),
        }
    }
}

impl Cell {
    /// A code cell with no metadata and no outputs.
    pub fn code(
        alloc: Global,
        id: &str,
        source: &str,
        execution_count: Option<Whole>,
    ) -> Result<Cell, AllocError>
        ensures { IfOk result (λ c. c ≡ code_cell id.now source.now execution_count) }
    {
        Ok(Cell {
            id: Text::from_str(alloc, id)?,
            metadata: Json::empty(alloc),
            source: Text::from_str(alloc, source)?,
            content: Content::Code(Execution {
                execution_count,
                outputs: Listed::empty(alloc),
            }),
        })
    }
}

impl Output {
    /// What was written to a stream.
    pub fn stream(alloc: Global, name: &str, text: &str) -> Result<Output, AllocError>
        ensures { IfOk result (λ o. o ≡ StreamOutput name.now text.now) }
    {
        Ok(Output::Stream {
            name: Text::from_str(alloc, name)?,
            text: Text::from_str(alloc, text)?,
        })
    }

    /// An error whose traceback is one line.
    pub fn error(alloc: Global, ename: &str, evalue: &str, line: &str) -> Result<Output, AllocError>
        ensures { IfOk result (λ o. o ≡ error_output ename.now evalue.now line.now) }
    {
        let mut traceback = Listed::empty(alloc);
        traceback.push(Text::from_str(alloc, line)?)?;
        Ok(Output::Error {
            ename: Text::from_str(alloc, ename)?,
            evalue: Text::from_str(alloc, evalue)?,
            traceback,
        })
    }
}
