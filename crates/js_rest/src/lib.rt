//! The routes of the server (Jupyter Server REST API): a request is answered over the tables, the kernels that run and a
//! shelf of files.
#![tactic(auto)]

mod answer;
mod contents;
mod inputs;
mod kernels;
mod opening;
mod parts;
mod route;
mod running;
mod sessions;
mod untold;

pub use answer::Manager;
pub use kernels::MAX_KERNELS;
pub use opening::{Asked, Fields};
pub use parts::{Outcome, Prepared, ReadRequest, finish, parts_law, prepare};
pub use route::{Route, routes_law};
pub use running::Running;
pub use untold::Untold;
