//! Syntax trees of Oberon-07, a struct or an enum for each production of the grammar of
//! Wirth, The Programming Language Oberon.
//!
//! A list that the grammar lets be absent is empty where it is. A span is kept for each token that a
//! message may have to name: identifiers, literals, operators and the words noted below.

use ob_base::{Boxed, Items, Text};
use ob_scan::Span;

/// The sign before a term.
#[derive(Clone, Copy, Debug, PartialEq, Eq)]
pub enum Sign {
    Plus,
    Minus,
}

/// A relation between two sums. IS is apart.
#[derive(Clone, Copy, Debug, PartialEq, Eq)]
pub enum Relation {
    Equal,
    NotEqual,
    Less,
    LessEqual,
    Greater,
    GreaterEqual,
}

/// An operator between terms.
#[derive(Clone, Copy, Debug, PartialEq, Eq)]
pub enum AddOperator {
    Plus,
    Minus,
    Or,
}

/// An operator between factors.
#[derive(Clone, Copy, Debug, PartialEq, Eq)]
pub enum MulOperator {
    Times,
    Div,
    Mod,
    And,
}

/// A name and where it stands.
#[derive(Debug, Drop)]
pub struct Ident {
    pub name: Text,
    pub span: Span,
}

/// A name that is declared, and where its export mark stands, if it has one.
#[derive(Debug, Drop)]
pub struct IdentDef {
    pub name: Ident,
    pub mark: Option<Span>,
}

/// A name, or a name of a module and a name in it.
#[derive(Debug, Drop)]
pub struct Qualident {
    pub first: Ident,
    pub second: Option<Ident>,
}

/// Two simple expressions with a relation between them, one with IS and a type, or one alone.
#[cycle(expression)]
#[derive(Drop)]
pub struct Expr {
    pub left: Simple,
    /// Apart, since few expressions have it.
    pub right: Option<Boxed<Related>>,
}

/// What stands to the right of the first sum.
#[cycle(expression)]
#[derive(Drop)]
pub enum Related {
    /// A relation and what stands to its right.
    By(Relation, Span, Simple),
    /// The word IS, and the name of a type.
    Is(Span, Qualident),
}

/// Terms, added from left to right. The sign applies to the first.
#[cycle(expression)]
#[derive(Drop)]
pub struct Simple {
    pub sign: Option<(Sign, Span)>,
    pub first: Term,
    pub others: Items<AddedTerm>,
}

/// An operator and the term after it.
#[cycle(expression)]
#[derive(Drop)]
pub struct AddedTerm {
    pub operator: AddOperator,
    pub span: Span,
    pub term: Term,
}

/// Factors, multiplied from left to right.
#[cycle(expression)]
#[derive(Drop)]
pub struct Term {
    pub first: Factor,
    pub others: Items<NextFactor>,
}

/// An operator and the factor after it.
#[cycle(expression)]
#[derive(Drop)]
pub struct NextFactor {
    pub operator: MulOperator,
    pub span: Span,
    pub factor: Factor,
}

/// A factor.
#[cycle(expression)]
#[derive(Drop)]
pub enum Factor {
    Integer(i32, Span),
    /// A string, or a character given by its number.
    Text(Text, Span),
    /// TRUE or FALSE.
    Truth(bool, Span),
    Value(Designator),
    /// A call, with its actual parameters.
    Call(Boxed<Designator>, Items<Expr>),
    /// The opening parenthesis, and what stands in the pair.
    Parens(Span, Boxed<Expr>),
    /// The sign `~`, and what it negates.
    Not(Span, Boxed<Factor>),
}

/// A name and what selects a part of it. Whether `a.b` is a field or a name of a module is left open.
#[cycle(expression)]
#[derive(Drop)]
pub struct Designator {
    pub name: Ident,
    pub selectors: Items<Selector>,
}

/// What selects a part of a designator.
#[cycle(expression)]
#[derive(Drop)]
pub enum Selector {
    Field(Ident),
    /// One index or more: `a[i, j]` is one selector.
    Index(Items<Expr>),
    /// The name of a type in parentheses.
    Guard(Qualident),
}

/// A statement.
#[cycle(statement)]
#[derive(Drop)]
pub enum Statement {
    Empty,
    Assign(Designator, Boxed<Expr>),
    /// A procedure, with its actual parameters where parentheses stand.
    Call(Designator, Option<Items<Expr>>),
    /// The first branch, the others, and what stands after ELSE (absent: no statement).
    If(Branch, Items<Branch>, Items<Statement>),
    /// The word CASE, what is looked up, and the cases.
    Case(Span, Boxed<Expr>, Items<Case>),
    /// The first branch and the others.
    While(Branch, Items<Branch>),
    Repeat(Items<Statement>, Boxed<Expr>),
    For(ForHead, Items<Statement>),
}

/// Statements under a guard.
#[cycle(statement)]
#[derive(Drop)]
pub struct Branch {
    pub guard: Boxed<Expr>,
    pub body: Items<Statement>,
}

/// Statements under labels. An empty case has neither.
#[cycle(statement)]
#[derive(Drop)]
pub struct Case {
    pub labels: Items<LabelRange>,
    pub body: Items<Statement>,
}

/// What stands between FOR and DO.
#[derive(Drop)]
pub struct ForHead {
    pub variable: Ident,
    pub first: Boxed<Expr>,
    pub last: Boxed<Expr>,
    /// What stands after BY.
    pub step: Option<Boxed<Expr>>,
}

/// A label, or all from one to another.
#[derive(Debug, Drop)]
pub struct LabelRange {
    pub first: Label,
    pub last: Option<Label>,
}

/// A label of a CASE, or an end of a range of them.
#[derive(Debug, Drop)]
pub enum Label {
    Integer(i32, Span),
    Text(Text, Span),
    Name(Qualident),
}

/// A type, as it is written out.
#[cycle(structure)]
#[derive(Drop)]
pub enum TypeExpr {
    Named(Qualident),
    /// The word ARRAY, one length or more, and the type of the elements.
    Array(Span, Items<Expr>, Boxed<TypeExpr>),
    /// The word RECORD, the type that it extends, and the fields.
    Record(Span, Option<Qualident>, Items<TypedNames>),
}

/// Names that are declared with one type: variables, or fields of a record.
#[cycle(structure)]
#[derive(Drop)]
pub struct TypedNames {
    pub names: Items<IdentDef>,
    pub of: Boxed<TypeExpr>,
}

/// The type of a formal parameter.
#[cycle(formal)]
#[derive(Drop)]
pub enum FormalType {
    Named(Qualident),
    /// The word ARRAY of an open array, and the type of its elements.
    Open(Span, Boxed<FormalType>),
}

/// Formal parameters of one type.
#[derive(Drop)]
pub struct FormalSection {
    /// The word VAR, where they are variables of the caller.
    pub by_reference: Option<Span>,
    pub names: Items<Ident>,
    pub of: Boxed<FormalType>,
}

/// What stands in and after the parentheses of a procedure's heading.
#[derive(Drop)]
pub struct Formals {
    pub sections: Items<FormalSection>,
    pub result: Option<Qualident>,
}

/// A constant that is declared.
#[derive(Drop)]
pub struct ConstDeclaration {
    pub name: IdentDef,
    pub value: Boxed<Expr>,
}

/// A type that is declared.
#[derive(Drop)]
pub struct TypeDeclaration {
    pub name: IdentDef,
    pub of: Boxed<TypeExpr>,
}

/// The declarations of a module or a procedure.
#[cycle(declaration)]
#[derive(Drop)]
pub struct Declarations {
    pub constants: Items<ConstDeclaration>,
    pub types: Items<TypeDeclaration>,
    pub variables: Items<TypedNames>,
    pub procedures: Items<Procedure>,
}

/// A procedure that is declared.
#[cycle(declaration)]
#[derive(Drop)]
pub struct Procedure {
    pub name: IdentDef,
    /// Absent where no parentheses stand.
    pub formals: Option<Boxed<Formals>>,
    pub declarations: Boxed<Declarations>,
    /// What stands after BEGIN (absent: no statement).
    pub body: Items<Statement>,
    pub returned: Option<Returned>,
}

/// The word RETURN and the value after it.
#[derive(Drop)]
pub struct Returned {
    pub span: Span,
    pub value: Boxed<Expr>,
}

/// A module's name, or the name that it has here and, after `:=`, its own.
#[derive(Debug, Drop)]
pub struct Import {
    pub name: Ident,
    pub module_name: Option<Ident>,
}

/// A module.
#[derive(Drop)]
pub struct Module {
    pub name: Ident,
    pub imports: Items<Import>,
    pub declarations: Boxed<Declarations>,
    /// What stands after BEGIN (absent: no statement).
    pub body: Items<Statement>,
}

/// A procedure of a module, to be called.
#[derive(Debug, Drop)]
pub struct Command {
    pub module_name: Ident,
    pub procedure: Ident,
}

/// What a cell holds: a module, or any number of commands.
#[derive(Drop)]
pub enum Cell {
    Module(Module),
    Commands(Items<Command>),
}
