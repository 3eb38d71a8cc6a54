//! Types as their values have them, and as a running program tells record types apart.
#![tactic(auto)]

mod kept;
mod kinds;
mod made;
mod shapes;

pub use kinds::{Kinds, levels_to};
pub use made::Made;
pub use shapes::{parameters_of, shape_of};
