//! The plans of requests on contents (Jupyter Server REST API), over a shelf of files and folders. A function here
//! reads the shelf and changes nothing.
#![tactic(auto)]

mod kind;
mod list;
mod look;
mod notebook;
mod place;
mod put;
mod read;
mod shown;
mod store;

pub use kind::{about_at, is_notebook_name};
pub use look::{has_folder, names_in};
pub use notebook::{First, notebook_for};
pub use place::{Place, below, if_path, named_place, place_of};
pub use put::{PutBody, Putting, Ready, fitted, read_put};
pub use read::{Aim, Seen, bare_value, opening_plan, planned, read_aim};
pub use store::{put_plan, remove_plan, storing};
