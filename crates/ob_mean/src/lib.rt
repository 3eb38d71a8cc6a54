//! Typed trees, and what they mean.
#![tactic(auto)]

pub mod arithmetic;
pub mod expression;
pub mod face;
pub mod kind;
pub mod measured;
pub mod module;
pub mod operator;
pub mod outcome;
mod shape;
pub mod statement;

pub use arithmetic::{apply, apply_one, holds, texts_relate, truth};
pub use expression::{Argument, Callee, Designator, Operation, TypedExpr, Variable};
pub use face::{Face, Heading};
pub use kind::{RecordKind, TypeName, extends};
pub use measured::{Fields, Shape, ShapeForm};
pub use module::{Loaded, ModuleVariable, Parameter, TypedModule, TypedProcedure};
pub use operator::{Operator, Relation, UnaryOperator};
pub use outcome::{Outcome, TrapKind, TurnKind};
pub use statement::{
    Action, Adjustment, Branch, CaseArm, ForHead, InputCall, LabelRange, OutputCall, Reader,
    TypedStatement,
};
