//! What is seen at a place of a text: blocks, scopes, loaded modules, predeclared names; what a broken rule is.
#![tactic(auto)]

pub mod block;
pub mod imports;
pub mod names;
pub mod predeclared;
pub mod rejected;
pub mod rule;
pub mod scope;
pub mod site;
pub mod stack;
pub mod texts;

pub use block::{Block, Declared, Entry, Standing};
pub use imports::{Imports, LoadedModule};
pub use scope::{Scope, is_writable};
pub use site::Site;
pub use stack::Stack;
