//! From a checked module to checked code: what is known of a module by its interface, and the code of a module over what is
//! known of its imports.
#![tactic(auto)]

mod face;
mod imports;
mod laws;
mod module;

pub use face::face_of;
pub use imports::faces_of;
pub use laws::{checked_law, load_law};
pub use module::compile;
