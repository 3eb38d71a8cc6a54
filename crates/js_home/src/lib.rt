//! The server's ends of one kernel's inbox: seat 0, and the seven places that it lends to connections.
#![tactic(auto)]

mod free;
mod home;
mod place;
mod refused;

pub use free::Free;
pub use home::Home;
pub use place::Place;
pub use refused::NoPlace;
