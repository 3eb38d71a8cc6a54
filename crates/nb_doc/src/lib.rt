//! Notebook documents ("The Jupyter notebook format", nbformat 4.5): read from texts of 4.0 to 4.5, and written.
#![tactic(auto)]

mod building;
mod cell_ids;
mod copying;
mod draft;
mod fault;
mod fields;
mod ids;
mod lines;
mod listed;
mod names;
mod notebook;
mod output_fields;
mod output_row;
mod reading;
mod row;
mod taken;
mod version;
mod writing;

pub use cell_ids::free_name;
pub use fault::{NbBad, NbFault, number_of};
pub use ids::is_allowed_id;
pub use listed::Listed;
pub use names::Names;
pub use notebook::{Cell, Content, Execution, Notebook, Output};
pub use reading::{notebook_of_value, read_notebook};
pub use row::Row;
pub use taken::taken_field;
pub use writing::{notebook_value, write_notebook};
