//! What a module shows to others.

use crate::form::ObType;
use crate::structure::Basic;
use ob_base::{Items, Text};

/// The value of a constant.
#[derive(Debug, Drop)]
pub enum Constant {
    Integer(i32),
    Boolean(bool),
    /// A character, as CHR gives it.
    Char(u8),
    /// The characters of a string. One that is given by its number (`0DX`) is a string too.
    Text(Text),
}

/// How an actual parameter is passed.
#[derive(Clone, Copy, Debug, PartialEq, Eq)]
pub enum FormalKind {
    Value,
    /// VAR: the formal is the actual variable.
    Variable,
}

/// A formal parameter. Its name is seen in its procedure alone.
#[derive(Drop)]
pub struct Formal {
    pub kind: FormalKind,
    pub of: ObType,
}

/// The parameters of a procedure, and the type of its result, if it is a function.
#[derive(Drop)]
pub struct Signature {
    pub formals: Items<Formal>,
    pub result: Option<Basic>,
}

/// What an exported name stands for.
#[derive(Drop)]
pub enum Object {
    Constant(Constant),
    TypeName(ObType),
    Variable(ObType),
    Procedure(Signature),
}

/// An exported name.
#[derive(Drop)]
pub struct Exported {
    pub name: Text,
    pub object: Object,
}
