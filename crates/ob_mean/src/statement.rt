//! Typed statements.

use crate::expression::{Argument, Callee, Designator, TypedExpr, Variable};
use ob_base::{Boxed, Items, Text};

/// INC or DEC.
#[derive(Clone, Copy, PartialEq, Eq, Debug)]
pub enum Adjustment {
    Increase,
    Decrease,
}

/// A procedure of In that reads.
#[derive(Clone, Copy, PartialEq, Eq, Debug)]
pub enum Reader {
    Char,
    Int,
    String,
    Name,
}

/// A call of In.
#[derive(Drop)]
pub enum InputCall {
    Open,
    /// A reader, and the variable that it sets.
    Read(Reader, Designator),
}

/// A call of Out.
#[derive(Drop)]
pub enum OutputCall {
    Open,
    Char(TypedExpr),
    String(Designator),
    /// A number and a width.
    Int(Boxed<TypedExpr>, Boxed<TypedExpr>),
    Ln,
}

/// A statement that has no other in it.
#[derive(Drop)]
pub enum Action {
    /// A value of basic type.
    Assign(Designator, TypedExpr),
    /// A structured value: what stands at the second becomes the value of the first.
    Copy(Designator, Designator),
    /// A string, for an array of CHAR, and the line of the string.
    AssignText(Designator, usize, Text),
    Adjust(Adjustment, Designator, TypedExpr),
    /// ASSERT, the line of its name, and what must hold.
    Assert(usize, TypedExpr),
    /// A procedure, the line of its name, and what is passed.
    Call(Callee, usize, Items<Argument>),
    Input(InputCall),
    Output(OutputCall),
}

/// Labels from the first to the last.
#[derive(Clone, Copy, PartialEq, Eq, Debug)]
pub struct LabelRange {
    pub first: i32,
    pub last: i32,
}

/// What stands between FOR and DO. The step is not 0.
#[derive(Drop)]
pub struct ForHead {
    pub variable: Variable,
    pub first: TypedExpr,
    pub last: TypedExpr,
    pub step: i32,
}

/// A typed statement. What few statements have stands apart, so that the others take little room.
#[cycle(statements)]
#[derive(Drop)]
pub enum TypedStatement {
    Simple(Action),
    /// The branches, and what stands after ELSE.
    If(Items<Branch>, Items<TypedStatement>),
    /// The line of the word CASE, what is looked up, and the arms.
    Case(usize, TypedExpr, Items<CaseArm>),
    While(Items<Branch>),
    /// The body, and what ends the loop.
    Repeat(Items<TypedStatement>, TypedExpr),
    For(Boxed<ForHead>, Items<TypedStatement>),
}

/// Statements under a guard.
#[cycle(statements)]
#[derive(Drop)]
pub struct Branch {
    pub guard: TypedExpr,
    pub body: Items<TypedStatement>,
}

/// Statements under labels.
#[cycle(statements)]
#[derive(Drop)]
pub struct CaseArm {
    pub labels: Items<LabelRange>,
    pub body: Items<TypedStatement>,
}
