//! Typed expressions.

use crate::kind::{RecordKind, TypeName};
use crate::operator::{Operator, Relation, UnaryOperator};
use ob_base::{Boxed, Items, SharedItems};

/// A variable as a whole, by its number.
#[derive(Clone, Copy, PartialEq, Eq, Debug)]
pub enum Variable {
    /// A variable of this module.
    OfModule(usize),
    /// The import's number, and a variable of that module.
    OfImport(usize, usize),
    /// A parameter that holds a value, or another variable of the running procedure. Its parameters come first.
    OfProcedure(usize),
    /// What a parameter of the running procedure names.
    ByParameter(usize),
}

/// A procedure that is called.
#[derive(Clone, Copy, PartialEq, Eq, Debug)]
pub enum Callee {
    /// A procedure of this module, by its number.
    OfModule(usize),
    /// The import's number, and the procedure's place among those that this module exports.
    OfImport(usize, usize),
}

/// An expression of basic type. A truth value is 1 or 0, and a character its number.
///
/// A line is the one that a trap names: of the operator, of the called name's first token, or of the first token of the
/// value that has to fit.
#[cycle(expressions)]
#[derive(Drop)]
pub enum TypedExpr {
    Constant(i32),
    /// The value of a variable.
    Read(Designator),
    /// In.Done.
    InputDone,
    Unary(UnaryOperator, usize, Boxed<TypedExpr>),
    /// A first operand, and operators with their second operands, from left to right.
    Chain(Boxed<TypedExpr>, Items<Operation>),
    /// `&`: whether each holds.
    Every(Items<TypedExpr>),
    /// OR: whether one of them holds.
    Either(Items<TypedExpr>),
    /// A relation of two texts: of arrays of CHAR.
    Texts(Relation, Designator, Designator),
    /// LEN of an array.
    Length(Designator),
    /// A function, its line, and what is passed.
    Function(Callee, usize, Items<Argument>),
    /// IS: whether what a VAR parameter names is of this record type, or of one that extends it. The name of the type comes
    /// first, then that of its base, and so on.
    Test(Designator, SharedItems<TypeName>),
}

/// An operator, its line, and its second operand.
#[cycle(expressions)]
#[derive(Drop)]
pub struct Operation {
    pub operator: Operator,
    pub line: usize,
    pub operand: TypedExpr,
}

/// A variable, or a part of one.
#[cycle(expressions)]
#[derive(Drop)]
pub enum Designator {
    Whole(Variable),
    /// An element of an array: the array, the line of the index's first token, and the index.
    Element(Boxed<Designator>, usize, Boxed<TypedExpr>),
    /// A field of a record, by its number there. The base of an extension is its first field.
    Field(Boxed<Designator>, usize),
    /// A guard: what a VAR parameter names, taken as a record of this type, which has the type that it is declared with after
    /// so many bases. The line is the one that the trap names.
    Guarded(Boxed<Designator>, usize, Boxed<RecordKind>, usize),
}

/// What is passed to a parameter.
#[cycle(expressions)]
#[derive(Drop)]
pub enum Argument {
    /// A value of basic type.
    Value(TypedExpr),
    /// What a VAR or structured parameter names.
    Place(Designator),
    /// What an open array parameter names.
    Open(Designator),
    /// What a VAR parameter of record type names: the base part, as many bases down as the number says, of a record of this type,
    /// which is told with it.
    Typed(Designator, RecordKind, usize),
    /// The same of what such a parameter of the running procedure names: the type that was told with that is told again.
    Again(Designator, usize),
}
