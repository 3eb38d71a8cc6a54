//! What the image of a session is made of: the cells that its variables begin with, the code of its modules one after the other,
//! what is known of them, and where each module's cells lie.
#![tactic(auto)]

mod copies;
mod known;
mod laying;
mod linked_laws;
mod module_cells;
mod opening;
mod store_laws;

pub use copies::copy_face;
pub use known::KnownFaces;
pub use laying::{lay, put_at};
pub use linked_laws::{
    agrees_law, commands_form_law, commands_law, loaded_runs_law, loads_law, may_run_law,
    stays_agreeing_law,
};
pub use module_cells::bounds;
pub use opening::{loaded_cells, push_opening};
pub use store_laws::{
    counts_cells_law, found_again_law, keeps_cells_law, loads_cells_law, may_begin_law,
};
