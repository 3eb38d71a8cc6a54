//! The page that a browser gets: a notebook, as one text of HTML.
#![tactic(auto)]

mod text;

pub use text::{PAGE, page};
