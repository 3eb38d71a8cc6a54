//! What a notebook holds ("The Jupyter notebook format", nbformat 4.5).

use crate::listed::Listed;
use json_form::{Json, Text, Whole};

/// A notebook of version 4.5.
#[derive(Drop)]
pub struct Notebook {
    pub cells: Listed<Cell>,
    /// An object.
    pub metadata: Json,
}

/// A cell.
#[derive(Drop)]
pub struct Cell {
    /// 1 to 64 of letters, digits, `-` and `_`, another for each cell.
    pub id: Text,
    /// An object.
    pub metadata: Json,
    pub source: Text,
    pub content: Content,
}

/// What a cell is, and what only such a cell has. Attachments are an object.
#[derive(Drop)]
pub enum Content {
    Code(Execution),
    Markdown { attachments: Option<Json> },
    Raw { attachments: Option<Json> },
}

/// What a cell's last run left.
#[derive(Drop)]
pub struct Execution {
    /// The count that it ran with; none where it has not run.
    pub execution_count: Option<Whole>,
    pub outputs: Listed<Output>,
}

/// What a cell gave as it ran.
#[derive(Drop)]
pub enum Output {
    /// What was written to a stream, as `stdout`.
    Stream {
        name: Text,
        text: Text,
    },
    Error {
        ename: Text,
        evalue: Text,
        traceback: Listed<Text>,
    },
    /// Data that was shown or is a result: the whole output, an object whose `output_type` is `display_data` or
    /// `execute_result`, as it was read.
    Kept(Json),
}
