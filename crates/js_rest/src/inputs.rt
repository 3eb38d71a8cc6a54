//! What the step of a request is judged by.

use js_http::Request;
use js_tables::{Given, Tables};
use std::alloc::Global;

/// What the step of a request is judged by, beside the files: the tables, what is given with the request, and the request itself.
/// What is made for it is made by this allocator.
#[derive(Clone, Copy)]
pub(crate) struct Inputs<'a> {
    pub(crate) alloc: Global,
    pub(crate) tables: &'a Tables,
    pub(crate) given: &'a Given,
    pub(crate) request: &'a Request,
}
