//! Types as contracts see them: written out, so that an alias is the type that it stands for.

use ob_base::{Items, Shared, SharedItems, Text};

/// A basic type.
#[derive(Clone, Copy, Debug, PartialEq, Eq)]
pub enum Basic {
    Integer,
    Boolean,
    Char,
    Byte,
}

/// A type.
#[cycle(structure)]
#[derive(Drop)]
pub enum ObType {
    Basic(Basic),
    /// How many elements, and their type.
    Array(u32, Shared<ObType>),
    /// An open array of a type, which a formal parameter alone may have.
    Open(Shared<ObType>),
    Record(RecordType),
}

/// A record type: its name together with its structure.
#[cycle(structure)]
#[derive(Drop)]
pub struct RecordType {
    pub name: Shared<RecordName>,
    /// In the order of their declaration.
    pub fields: SharedItems<Field>,
}

/// A field of a record.
#[cycle(structure)]
#[derive(Drop)]
pub struct Field {
    pub name: Text,
    /// Whether it is seen in other modules.
    pub exported: bool,
    pub of: ObType,
}

/// What names a record type: where it is declared, and which of the records of that declaration it is.
#[derive(Debug, Drop)]
pub struct RecordName {
    /// The module that declares it.
    pub module_name: Text,
    /// The procedures round the declaration, the outermost first.
    pub enclosing: Items<Text>,
    /// The declared name, of a list of names the first.
    pub declared: Text,
    /// How many words RECORD stand before it in that declaration.
    pub before: u32,
}
