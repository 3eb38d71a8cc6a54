//! Who waits at the desk: for kernels that are ending, and to be looked at again once one has ended.
#![tactic(auto)]

mod asker;
mod askers;
mod ending;
mod held;
mod kept;
pub mod laws;

pub use asker::{Asker, Cause};
pub use askers::Askers;
pub use ending::{Endings, is_over};
pub use held::Held;
pub use kept::Ender;
