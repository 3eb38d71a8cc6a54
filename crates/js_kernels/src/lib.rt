//! The kernels that run, as the server has them: the server's ends of each.
#![tactic(auto)]

mod found;
mod kernels;
mod laws;
mod recording;
mod watch;

pub use found::Found;
pub use kernels::{Kernels, Unlent, Unopened};
pub use laws::server_law;
pub use recording::Scribe;
