//! A notebook whose cells may have no id.

use crate::listed::Listed;
use crate::notebook::Content;
use json_form::{Json, Text};

/// Whether each cell has an id.
#[derive(Clone, Copy, Debug, PartialEq, Eq)]
pub(crate) enum Age {
    /// Version 4.5: each has one.
    Current,
    /// Versions 4.0 to 4.4: a cell may have none.
    Older,
}

#[derive(Drop)]
pub(crate) struct Draft {
    pub(crate) id: Option<Text>,
    pub(crate) metadata: Json,
    pub(crate) source: Text,
    pub(crate) content: Content,
}

#[derive(Drop)]
pub(crate) struct Drafts {
    pub(crate) cells: Listed<Draft>,
    pub(crate) metadata: Json,
}
