//! What a kernel keeps of the modules that are loaded, without their variables: interfaces, typed trees and imports, found by
//! name, and what links. It is what the definitions of sessions say of a session's modules.
#![tactic(auto)]

mod command;
mod exchange;
mod laws;
mod linking;
mod looking;
mod module;
mod modules;
mod reaching;
mod table;

pub use command::{Command, CommandName, LinkFault, Looked, Ready};
pub use laws::{exchange_law, imports_run_law, load_law, reaching_law};
pub use module::{KeyedImport, SessionModule};
pub use modules::Modules;
