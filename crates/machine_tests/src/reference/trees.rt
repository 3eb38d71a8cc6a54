//! Trees made by hand. A builder takes what other builders gave, so that a tree is one expression.

use ob_base::{Boxed, Items, Text};
use ob_mean::{
    Action, Adjustment, Argument, Branch, Callee, CaseArm, Designator, ForHead, InputCall,
    LabelRange, Loaded, ModuleVariable, Operation, Operator, OutputCall, Parameter, Reader, Shape,
    TypedExpr, TypedModule, TypedProcedure, TypedStatement, UnaryOperator, Variable,
};
use std::alloc::{AllocError, Global};

/// A list with one more item.
pub(crate) fn with<T: Drop>(
    list: Result<Items<T>, AllocError>,
    item: Result<T, AllocError>,
) -> Result<Items<T>, AllocError> {
    let mut list = list?;
    list.push(item?)?;
    Ok(list)
}

/// An empty list.
pub(crate) fn none<T>(alloc: Global) -> Result<Items<T>, AllocError> {
    Ok(Items::new(alloc))
}

/// A list of one item.
pub(crate) fn one<T: Drop>(
    alloc: Global,
    item: Result<T, AllocError>,
) -> Result<Items<T>, AllocError> {
    with(Ok(Items::new(alloc)), item)
}

/// A list of two items.
pub(crate) fn two<T: Drop>(
    alloc: Global,
    first: Result<T, AllocError>,
    second: Result<T, AllocError>,
) -> Result<Items<T>, AllocError> {
    with(one(alloc, first), second)
}

// ---- places

/// A variable of the module.
pub(crate) fn global(x: usize) -> Result<Designator, AllocError> {
    Ok(Designator::Whole(Variable::OfModule(x)))
}

/// A variable of an imported module.
pub(crate) fn imported(import: usize, x: usize) -> Result<Designator, AllocError> {
    Ok(Designator::Whole(Variable::OfImport(import, x)))
}

/// A variable of the procedure.
pub(crate) fn local(x: usize) -> Result<Designator, AllocError> {
    Ok(Designator::Whole(Variable::OfProcedure(x)))
}

/// What a parameter of the procedure names.
pub(crate) fn by_parameter(x: usize) -> Result<Designator, AllocError> {
    Ok(Designator::Whole(Variable::ByParameter(x)))
}

/// An element of an array.
pub(crate) fn element(
    alloc: Global,
    array: Result<Designator, AllocError>,
    line: usize,
    index: Result<TypedExpr, AllocError>,
) -> Result<Designator, AllocError> {
    let array = Boxed::new(alloc, array?)?;
    let index = Boxed::new(alloc, index?)?;
    Ok(Designator::Element(array, line, index))
}

/// A field of a record.
pub(crate) fn field(
    alloc: Global,
    record: Result<Designator, AllocError>,
    number: usize,
) -> Result<Designator, AllocError> {
    Ok(Designator::Field(Boxed::new(alloc, record?)?, number))
}

// ---- expressions

/// A number, a truth value or a character.
pub(crate) fn constant(number: i32) -> Result<TypedExpr, AllocError> {
    Ok(TypedExpr::Constant(number))
}

/// The value of a variable.
pub(crate) fn read(d: Result<Designator, AllocError>) -> Result<TypedExpr, AllocError> {
    Ok(TypedExpr::Read(d?))
}

/// In.Done.
pub(crate) fn done() -> Result<TypedExpr, AllocError> {
    Ok(TypedExpr::InputDone)
}

/// LEN.
pub(crate) fn length(d: Result<Designator, AllocError>) -> Result<TypedExpr, AllocError> {
    Ok(TypedExpr::Length(d?))
}

/// An operator of one value.
pub(crate) fn unary(
    alloc: Global,
    operator: UnaryOperator,
    line: usize,
    e: Result<TypedExpr, AllocError>,
) -> Result<TypedExpr, AllocError> {
    Ok(TypedExpr::Unary(operator, line, Boxed::new(alloc, e?)?))
}

/// An operator and its second operand.
fn operation(
    operator: Operator,
    line: usize,
    operand: Result<TypedExpr, AllocError>,
) -> Result<Operation, AllocError> {
    Ok(Operation {
        operator,
        line,
        operand: operand?,
    })
}

/// An operator of two values.
pub(crate) fn binary(
    alloc: Global,
    first: Result<TypedExpr, AllocError>,
    operator: Operator,
    line: usize,
    second: Result<TypedExpr, AllocError>,
) -> Result<TypedExpr, AllocError> {
    let first = Boxed::new(alloc, first?)?;
    let others = one(alloc, operation(operator, line, second))?;
    Ok(TypedExpr::Chain(first, others))
}

/// A function's value.
pub(crate) fn function(
    callee: Callee,
    line: usize,
    arguments: Result<Items<Argument>, AllocError>,
) -> Result<TypedExpr, AllocError> {
    Ok(TypedExpr::Function(callee, line, arguments?))
}

/// A value that is passed.
pub(crate) fn by_value(e: Result<TypedExpr, AllocError>) -> Result<Argument, AllocError> {
    Ok(Argument::Value(e?))
}

/// A variable that is passed.
pub(crate) fn by_place(d: Result<Designator, AllocError>) -> Result<Argument, AllocError> {
    Ok(Argument::Place(d?))
}

/// An array that is passed to an open one.
pub(crate) fn open(d: Result<Designator, AllocError>) -> Result<Argument, AllocError> {
    Ok(Argument::Open(d?))
}

// ---- statements

fn simple(action: Result<Action, AllocError>) -> Result<TypedStatement, AllocError> {
    Ok(TypedStatement::Simple(action?))
}

fn assignment(
    d: Result<Designator, AllocError>,
    e: Result<TypedExpr, AllocError>,
) -> Result<Action, AllocError> {
    Ok(Action::Assign(d?, e?))
}

/// A value for a variable of basic type.
pub(crate) fn assign(
    d: Result<Designator, AllocError>,
    e: Result<TypedExpr, AllocError>,
) -> Result<TypedStatement, AllocError> {
    simple(assignment(d, e))
}

/// A string for an array.
pub(crate) fn assign_text(
    alloc: Global,
    d: Result<Designator, AllocError>,
    line: usize,
    text: &str,
) -> Result<TypedStatement, AllocError> {
    let text = Text::from_slice(alloc, text.as_bytes())?;
    simple(Ok(Action::AssignText(d?, line, text)))
}

/// A structured value for a variable.
pub(crate) fn copy(
    d: Result<Designator, AllocError>,
    from: Result<Designator, AllocError>,
) -> Result<TypedStatement, AllocError> {
    simple(copying(d, from))
}

fn copying(
    d: Result<Designator, AllocError>,
    from: Result<Designator, AllocError>,
) -> Result<Action, AllocError> {
    Ok(Action::Copy(d?, from?))
}

/// INC by a number.
pub(crate) fn increase(
    d: Result<Designator, AllocError>,
    e: Result<TypedExpr, AllocError>,
) -> Result<TypedStatement, AllocError> {
    simple(adjustment(d, e))
}

fn adjustment(
    d: Result<Designator, AllocError>,
    e: Result<TypedExpr, AllocError>,
) -> Result<Action, AllocError> {
    Ok(Action::Adjust(Adjustment::Increase, d?, e?))
}

/// ASSERT.
pub(crate) fn assertion(
    line: usize,
    e: Result<TypedExpr, AllocError>,
) -> Result<TypedStatement, AllocError> {
    simple(Ok(Action::Assert(line, e?)))
}

/// A call of a procedure.
pub(crate) fn call(
    callee: Callee,
    line: usize,
    arguments: Result<Items<Argument>, AllocError>,
) -> Result<TypedStatement, AllocError> {
    simple(Ok(Action::Call(callee, line, arguments?)))
}

/// A reader of In.
pub(crate) fn input(
    reader: Reader,
    d: Result<Designator, AllocError>,
) -> Result<TypedStatement, AllocError> {
    simple(Ok(Action::Input(InputCall::Read(reader, d?))))
}

/// Out.Int(e, width).
pub(crate) fn out_int(
    alloc: Global,
    e: Result<TypedExpr, AllocError>,
    width: i32,
) -> Result<TypedStatement, AllocError> {
    let value = Boxed::new(alloc, e?)?;
    let width = Boxed::new(alloc, TypedExpr::Constant(width))?;
    simple(Ok(Action::Output(OutputCall::Int(value, width))))
}

/// Out.Char of a constant.
pub(crate) fn out_char(c: i32) -> Result<TypedStatement, AllocError> {
    simple(Ok(Action::Output(OutputCall::Char(TypedExpr::Constant(c)))))
}

/// Out.String(d).
pub(crate) fn out_text(d: Result<Designator, AllocError>) -> Result<TypedStatement, AllocError> {
    simple(Ok(Action::Output(OutputCall::String(d?))))
}

/// Out.Ln.
pub(crate) fn out_end() -> Result<TypedStatement, AllocError> {
    simple(Ok(Action::Output(OutputCall::Ln)))
}

/// Statements under a guard.
pub(crate) fn branch(
    guard: Result<TypedExpr, AllocError>,
    body: Result<Items<TypedStatement>, AllocError>,
) -> Result<Branch, AllocError> {
    Ok(Branch {
        guard: guard?,
        body: body?,
    })
}

/// IF with one branch, and what stands after ELSE.
pub(crate) fn choice(
    alloc: Global,
    first: Result<Branch, AllocError>,
    rest: Result<Items<TypedStatement>, AllocError>,
) -> Result<TypedStatement, AllocError> {
    Ok(TypedStatement::If(one(alloc, first)?, rest?))
}

/// WHILE.
pub(crate) fn repetition(
    branches: Result<Items<Branch>, AllocError>,
) -> Result<TypedStatement, AllocError> {
    Ok(TypedStatement::While(branches?))
}

/// REPEAT.
pub(crate) fn until(
    body: Result<Items<TypedStatement>, AllocError>,
    e: Result<TypedExpr, AllocError>,
) -> Result<TypedStatement, AllocError> {
    Ok(TypedStatement::Repeat(body?, e?))
}

/// FOR over a variable of the module.
pub(crate) fn count(
    alloc: Global,
    x: usize,
    first: i32,
    last: i32,
    step: i32,
    body: Result<Items<TypedStatement>, AllocError>,
) -> Result<TypedStatement, AllocError> {
    let head = ForHead {
        variable: Variable::OfModule(x),
        first: TypedExpr::Constant(first),
        last: TypedExpr::Constant(last),
        step,
    };
    let head = Boxed::new(alloc, head)?;
    Ok(TypedStatement::For(head, body?))
}

/// Statements under one range of labels.
pub(crate) fn arm(
    alloc: Global,
    first: i32,
    last: i32,
    body: Result<Items<TypedStatement>, AllocError>,
) -> Result<CaseArm, AllocError> {
    Ok(CaseArm {
        labels: one(alloc, Ok(LabelRange { first, last }))?,
        body: body?,
    })
}

/// CASE.
pub(crate) fn case(
    line: usize,
    e: Result<TypedExpr, AllocError>,
    arms: Result<Items<CaseArm>, AllocError>,
) -> Result<TypedStatement, AllocError> {
    Ok(TypedStatement::Case(line, e?, arms?))
}

// ---- modules

/// A proper procedure without variables of its own.
pub(crate) fn procedure(
    alloc: Global,
    parameters: Result<Items<Parameter>, AllocError>,
    body: Result<Items<TypedStatement>, AllocError>,
) -> Result<TypedProcedure, AllocError> {
    Ok(TypedProcedure {
        parameters: parameters?,
        variables: Items::new(alloc),
        body: body?,
        result: None,
    })
}

/// What a procedure has but its result.
#[derive(Drop)]
struct Head {
    parameters: Items<Parameter>,
    variables: Items<Shape>,
    body: Items<TypedStatement>,
}

fn head_of(
    parameters: Result<Items<Parameter>, AllocError>,
    variables: Result<Items<Shape>, AllocError>,
    body: Result<Items<TypedStatement>, AllocError>,
) -> Result<Head, AllocError> {
    Ok(Head {
        parameters: parameters?,
        variables: variables?,
        body: body?,
    })
}

fn returning(head: Head, returned: TypedExpr) -> TypedProcedure {
    TypedProcedure {
        parameters: head.parameters,
        variables: head.variables,
        body: head.body,
        result: Some(returned),
    }
}

/// A function procedure.
pub(crate) fn function_procedure(
    parameters: Result<Items<Parameter>, AllocError>,
    variables: Result<Items<Shape>, AllocError>,
    body: Result<Items<TypedStatement>, AllocError>,
    returned: Result<TypedExpr, AllocError>,
) -> Result<TypedProcedure, AllocError> {
    let head = head_of(parameters, variables, body)?;
    Ok(returning(head, returned?))
}

/// A variable of basic type.
pub(crate) fn basic() -> Result<ModuleVariable, AllocError> {
    Ok(ModuleVariable::Declared(Shape::basic()))
}

/// An array of values of basic type.
pub(crate) fn array(alloc: Global, length: u32) -> Result<ModuleVariable, AllocError> {
    Ok(ModuleVariable::Declared(row(alloc, length)?))
}

/// An array of so many values of basic type.
fn row(alloc: Global, length: u32) -> Result<Shape, AllocError> {
    Shape::array(alloc, length, Shape::basic())
}

/// A record of a value of basic type and of an array of so many.
pub(crate) fn record(alloc: Global, length: u32) -> Result<ModuleVariable, AllocError> {
    let fields = two(alloc, Ok(Shape::basic()), row(alloc, length))?;
    Ok(ModuleVariable::Declared(Shape::record(alloc, fields)?))
}

/// A string, with 0X after it.
pub(crate) fn text(alloc: Global, text: &str, length: u32) -> Result<ModuleVariable, AllocError> {
    let text = Text::from_slice(alloc, text.as_bytes())?;
    Ok(ModuleVariable::Text(text, length))
}

/// The numbers below this one.
fn numbers(alloc: Global, end: usize) -> Result<Items<usize>, AllocError> {
    let mut all = Items::new(alloc);
    for number in 0..end {
        all.push(number)?;
    }
    Ok(all)
}

fn tree_of(
    alloc: Global,
    variables: Result<Items<ModuleVariable>, AllocError>,
    procedures: Items<TypedProcedure>,
    body: Result<Items<TypedStatement>, AllocError>,
) -> Result<TypedModule, AllocError> {
    let exported = numbers(alloc, procedures.len())?;
    Ok(TypedModule {
        name: Text::from_vec(Vec::new(alloc)),
        variables: variables?,
        procedures,
        exported,
        body: body?,
    })
}

/// A module that exports all its procedures and imports the modules of these numbers.
pub(crate) fn importing(
    alloc: Global,
    imports: Result<Items<usize>, AllocError>,
    variables: Result<Items<ModuleVariable>, AllocError>,
    procedures: Result<Items<TypedProcedure>, AllocError>,
    body: Result<Items<TypedStatement>, AllocError>,
) -> Result<Loaded, AllocError> {
    let tree = tree_of(alloc, variables, procedures?, body)?;
    Ok(Loaded {
        tree,
        imports: imports?,
    })
}

/// A module that exports all its procedures and imports none.
pub(crate) fn unit(
    alloc: Global,
    variables: Result<Items<ModuleVariable>, AllocError>,
    procedures: Result<Items<TypedProcedure>, AllocError>,
    body: Result<Items<TypedStatement>, AllocError>,
) -> Result<Loaded, AllocError> {
    importing(alloc, none(alloc), variables, procedures, body)
}
