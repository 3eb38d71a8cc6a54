//! Typed modules and procedures.

use crate::expression::TypedExpr;
use crate::measured::Shape;
use crate::statement::TypedStatement;
use ob_base::{Items, Text};

/// A formal parameter.
#[derive(Drop)]
pub enum Parameter {
    /// A value of basic type, which is the parameter's own.
    Value,
    /// VAR, or a structured value: it names a variable of this shape.
    Place(Shape),
    /// An open array: it names an array with elements of this shape.
    Open(Shape),
    /// VAR, of record type: it names a record of this shape, which may be the base part of a record of an extension.
    Extended(Shape),
}

/// A procedure. It has its parameters' variables first, and then its own.
#[derive(Drop)]
pub struct TypedProcedure {
    pub parameters: Items<Parameter>,
    pub variables: Items<Shape>,
    pub body: Items<TypedStatement>,
    /// What stands after RETURN.
    pub result: Option<TypedExpr>,
}

/// A variable of a module.
#[derive(Drop)]
pub enum ModuleVariable {
    /// One that is declared, and begins as zero.
    Declared(Shape),
    /// A string that is passed or compared, and its number of elements: more than it has characters, the rest of them 0X. Nothing
    /// assigns to it.
    Text(Text, u32),
}

/// A module.
#[derive(Drop)]
pub struct TypedModule {
    pub name: Text,
    /// The exported ones first, in order of declaration, then the other declared ones, and then strings.
    pub variables: Items<ModuleVariable>,
    /// All procedures, those in others too.
    pub procedures: Items<TypedProcedure>,
    /// The numbers of the exported procedures, in order of declaration.
    pub exported: Items<usize>,
    pub body: Items<TypedStatement>,
}

/// A module that is loaded. Its number is its place among the loaded ones.
#[derive(Drop)]
pub struct Loaded {
    pub tree: TypedModule,
    /// The number of each module that it imports, in the order of its imports. In and Out are none of them.
    pub imports: Items<usize>,
}
