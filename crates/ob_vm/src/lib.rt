//! The machine: it runs stack code in slices of turns.
#![tactic(auto)]

mod calls;
mod held;
mod image;
mod kept;
mod machine;
mod passing;
mod paying;
mod places;
mod quick;
mod run;

pub use image::Image;
pub use machine::{Machine, Room};
pub use ob_step::output::MOST_OUTPUT;
pub use run::Turned;
