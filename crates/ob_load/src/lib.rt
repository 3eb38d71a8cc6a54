//! The modules of a session in code, and the machine that runs a module's body or commands over them in slices. It is what the
//! definitions of sessions say.
#![tactic(auto)]

mod body;
mod commands;
mod given;
mod loading;
mod machine;
mod session;
mod task;
mod trap;

pub use machine::Machine;
pub use session::Session;
pub use task::Task;
