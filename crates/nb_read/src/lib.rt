//! Notebooks read from their texts with no JSON value in between that owns its texts.
#![tactic(auto)]

mod cells;
mod fields;
mod ids;
mod kept;
mod numbers;
mod outputs;
mod puts;
mod reading;
mod unread;
mod version;
mod whole;

pub use puts::{BookPut, read_book_put};
pub use reading::read_notebook;
pub use unread::Unread;
