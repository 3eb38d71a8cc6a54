//! The types of Oberon-07, and the interfaces of modules.
#![tactic(auto)]

mod alike;
mod compatible;
mod copies;
mod declarable;
mod exports;
mod facts;
mod firsts;
mod form;
mod interface_writing;
mod key;
mod keyed;
mod known;
mod laws;
mod numbered;
mod parts;
mod places;
mod size;
mod spelling;
mod structure;
mod type_writing;

pub use compatible::{assignable, base_of, extends, same, string_assignable};
pub use declarable::is_declarable;
pub use exports::{Constant, Exported, Formal, FormalKind, Object, Signature};
pub use form::{Field, Form, ObType, RecordType};
pub use key::Key;
pub use keyed::{Interface, interface_text};
pub use laws::same_type_law;
pub use size::{MAX_CELLS, MAX_LEVELS, is_admitted, levels, zero_size};
pub use structure::{Basic, RecordName};
pub use type_writing::put_type;
