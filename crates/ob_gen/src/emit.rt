//! The code of expressions, of places and of what is passed.
//!
//! `&` and OR each have a function of their own beside their definition: one skips where a side is FALSE and the other where it
//! is TRUE, and what stands at the end is not the same. Operands are numbered from the operands and names that stand below them,
//! so each function takes both numbers.

ghost use Rattle.std.specs.Prelude.{◌≡◌, ◌+◌, ◌≤◌, [], ◌∷◌, ◌++◌, vec_len, IfOk, OnOk};
ghost use Rattle.ob_mean.specs.WellFormed.{object_of};
ghost use Rattle.ob_gen.specs.Code as spec;
ghost use Rattle.ob_gen.specs.Emitted as emitted;
ghost use Rattle.ob_gen.specs.Known.{names_in, object_seen, IsPlaced};

use crate::jumps::{close, lead_to_end, make_room, put};
use crate::known::{
    Known, Object, base_of, element_cells, element_of, field_of, length_of, name_number,
    object_cells, part_before, root_of, variable_object,
};
use ob_base::Boxed;
use ob_code::instr::{Instr, Line, Root, Span};
use ob_code::made;
use ob_mean::{Argument, Designator, Operation, TrapKind, TypedExpr};
use std::alloc::{AllocError, Global};

/// The variable that a designator begins with, and what the designator names.
#[derive(Clone, Copy)]
pub struct Found<'a> {
    pub root: Root,
    pub object: Object<'a>,
}

/// How many operands and how many names lie there once all is passed.
#[derive(Clone, Copy)]
pub struct Passed {
    pub operands: usize,
    pub names: usize,
}

/// An array of characters that was found.
pub fn span_of(found: Found) -> Span
    ensures root { result.root ≡ found.entry.root }
    ensures length { result.length ≡ spec.length_in (object_seen found.entry.object) found.entry.root }
{
    Span {
        root: found.root,
        length: length_of(found.object, found.root),
    }
}

/// The code of an expression, before which `operands` operands and `names` pending names lie there. Each of them was left there by an
/// instruction of this code, so their numbers need no other bound.
#[cycle(expressions)]
pub fn emit_expr<'a>(
    alloc: Global,
    code: &mut Vec<Line>,
    known: &Known<'a>,
    operands: usize,
    names: usize,
    e: &'a TypedExpr,
) -> Result<(), AllocError>
    requires placed { IsPlaced known.now }
    requires operands_low { operands ≤ vec_len code.old }
    requires names_low { names ≤ vec_len code.old }
    ensures code { OnOk result (code.new.items ≡ code.old.items ++ spec.expr_code (names_in known.now) operands names e.now) }
    ensures grows { OnOk result (vec_len code.old + 1 ≤ vec_len code.new) }
{
    match e {
        TypedExpr::Constant(v) => put(code, operands, names, Instr::Push(*v)),
        TypedExpr::Read(d) => emit_read(alloc, code, known, operands, names, d),
        TypedExpr::InputDone => put(code, operands, names, Instr::PushDone),
        TypedExpr::Unary(operator, line, operand) => {
            emit_expr(alloc, code, known, operands, names, operand.get())?;
            put(code, operands + 1, names, Instr::Unary(*operator, *line))
        }
        TypedExpr::Chain(first, others) => {
            emit_expr(alloc, code, known, operands, names, first.get())?;
            emit_operations(alloc, code, known, operands, names, others.as_slice())
        }
        TypedExpr::Every(all) => emit_every(alloc, code, known, operands, names, all.as_slice()),
        TypedExpr::Either(all) => {
            emit_either(alloc, code, known, operands, names, all.as_slice())
        }
        TypedExpr::Texts(relation, first, second) => {
            let one = emit_offset(alloc, code, known, operands, names, first)?;
            let other = emit_offset(alloc, code, known, operands + 1, names, second)?;
            let instr = made::relate_texts(alloc, *relation, span_of(one), span_of(other))?;
            put(code, operands + 2, names, instr)
        }
        TypedExpr::Length(d) => {
            let found = emit_offset(alloc, code, known, operands, names, d)?;
            let length = length_of(found.object, found.root);
            put(code, operands + 1, names, Instr::TakeLength(length))
        }
        TypedExpr::Function(callee, line, arguments) => {
            let passed = emit_arguments(alloc, code, known, operands, names, arguments.as_slice())?;
            put(
                code,
                passed.operands,
                passed.names,
                Instr::Invoke(*callee, *line),
            )
        }
        TypedExpr::Test(d, types) => {
            let found = emit_offset(alloc, code, known, operands, names, d)?;
            let types = types.another()?;
            let instr = Instr::Test(name_number(found.root), types);
            put(code, operands + 1, names, instr)
        }
    }
}

/// The value of a variable, or of a part of one.
#[cycle(expressions)]
fn emit_read<'a>(
    alloc: Global,
    code: &mut Vec<Line>,
    known: &Known<'a>,
    operands: usize,
    names: usize,
    d: &'a Designator,
) -> Result<(), AllocError>
    requires placed { IsPlaced known.now }
    requires operands_low { operands ≤ vec_len code.old }
    requires names_low { names ≤ vec_len code.old }
    ensures code { OnOk result (code.new.items ≡ code.old.items ++ spec.read_code (names_in known.now) operands names d.now (spec.offset_code (names_in known.now) operands names d.now)) }
    ensures grows { OnOk result (vec_len code.old + 1 ≤ vec_len code.new) }
{
    match d {
        Designator::Whole(variable) => {
            put(
                code,
                operands,
                names,
                Instr::Load(root_of(known, *variable)),
            )
        }
        Designator::Element(_, _, _) => {
            let found = emit_offset(alloc, code, known, operands, names, d)?;
            put(code, operands + 1, names, Instr::LoadAt(found.root))
        }
        Designator::Field(_, _) => {
            let found = emit_offset(alloc, code, known, operands, names, d)?;
            put(code, operands + 1, names, Instr::LoadAt(found.root))
        }
        Designator::Guarded(_, _, _, _) => {
            let found = emit_offset(alloc, code, known, operands, names, d)?;
            put(code, operands + 1, names, Instr::LoadAt(found.root))
        }
    }
}

/// So many cells on, if they are any.
fn put_added(
    code: &mut Vec<Line>,
    operands: usize,
    names: usize,
    cells: usize,
) -> Result<(), AllocError>
    ensures code { OnOk result (code.new.items ≡ code.old.items ++ spec.added_code operands names cells) }
    ensures grows { OnOk result (vec_len code.old ≤ vec_len code.new) }
{
    if cells == 0 {
        return Ok(());
    }
    put(code, operands, names, Instr::AddOffset(cells))
}

/// To a field so many cells on in a record, at the number of whose first cell the code has come.
fn put_field(
    code: &mut Vec<Line>,
    operands: usize,
    names: usize,
    record: &Designator,
    cells: usize,
) -> Result<(), AllocError>
    ensures code { OnOk result (code.new.items ≡ code.old.items ++ spec.field_code operands names record.now cells) }
    ensures grows { OnOk result (vec_len code.old ≤ vec_len code.new) }
{
    match record {
        Designator::Whole(_) => put(code, operands, names, Instr::AddOffset(cells)),
        Designator::Element(_, _, _) => put_added(code, operands, names, cells),
        Designator::Field(_, _) => put_added(code, operands, names, cells),
        Designator::Guarded(_, _, _, _) => put_added(code, operands, names, cells),
    }
}

/// The code of a designator, which leaves the number of its first cell in the variable that it begins with.
#[cycle(expressions)]
pub fn emit_offset<'a>(
    alloc: Global,
    code: &mut Vec<Line>,
    known: &Known<'a>,
    operands: usize,
    names: usize,
    d: &'a Designator,
) -> Result<Found<'a>, AllocError>
    requires placed { IsPlaced known.now }
    requires operands_low { operands ≤ vec_len code.old }
    requires names_low { names ≤ vec_len code.old }
    ensures code { IfOk result (λ f. code.new.items ≡ code.old.items ++ spec.offset_code (names_in known.now) operands names d.now) }
    ensures grows { IfOk result (λ f. vec_len code.old + 1 ≤ vec_len code.new) }
    ensures root { IfOk result (λ f. f.root ≡ spec.root_in (names_in known.now) d.now) }
    ensures object { IfOk result (λ f. object_seen f.object ≡ object_of (names_in known.now) d.now) }
{
    match d {
        Designator::Whole(variable) => {
            put(code, operands, names, Instr::Push(0))?;
            Ok(Found {
                root: root_of(known, *variable),
                object: variable_object(known, *variable),
            })
        }
        Designator::Element(array, line, index) => {
            let found = emit_offset(alloc, code, known, operands, names, array.get())?;
            emit_expr(alloc, code, known, operands + 1, names, index.get())?;
            let length = length_of(found.object, found.root);
            let cells = element_cells(found.object);
            put(
                code,
                operands + 2,
                names,
                Instr::Index(length, cells, *line),
            )?;
            Ok(Found {
                root: found.root,
                object: element_of(found.object),
            })
        }
        Designator::Field(record, number) => {
            let record = record.get();
            let found = emit_offset(alloc, code, known, operands, names, record)?;
            let before = part_before(found.object, *number)?;
            put_field(code, operands + 1, names, record, before)?;
            Ok(Found {
                root: found.root,
                object: field_of(found.object, *number),
            })
        }
        Designator::Guarded(record, line, kind, _) => {
            let kind = kind.get();
            let found = emit_offset(alloc, code, known, operands, names, record.get())?;
            let types = kind.names.another()?;
            let name = name_number(found.root);
            let instr = Instr::Guard(name, types, TrapKind::Guard, *line);
            put(code, operands + 1, names, instr)?;
            Ok(Found {
                root: found.root,
                object: Object::Of(&kind.shape),
            })
        }
    }
}

/// Operators and their second operands.
#[cycle(expressions)]
fn emit_operations<'a>(
    alloc: Global,
    code: &mut Vec<Line>,
    known: &Known<'a>,
    operands: usize,
    names: usize,
    operations: &'a [Operation],
) -> Result<(), AllocError>
    requires placed { IsPlaced known.now }
    requires operands_low { operands + 1 ≤ vec_len code.old }
    requires names_low { names ≤ vec_len code.old }
    ensures code { OnOk result (code.new.items ≡ code.old.items ++ emitted.operations_list (names_in known.now) operands names operations.now) }
    ensures grows { OnOk result (vec_len code.old ≤ vec_len code.new) }
{
    make_room(code, operations.len())?;
    for operation in operations {
        emit_expr(alloc, code, known, operands + 1, names, &operation.operand)?;
        put(
            code,
            operands + 2,
            names,
            Instr::Operate(operation.operator, operation.line),
        )?;
    }
    Ok(())
}

/// `&`.
#[cycle(expressions)]
fn emit_every<'a>(
    alloc: Global,
    code: &mut Vec<Line>,
    known: &Known<'a>,
    operands: usize,
    names: usize,
    all: &'a [TypedExpr],
) -> Result<(), AllocError>
    requires placed { IsPlaced known.now }
    requires operands_low { operands ≤ vec_len code.old }
    requires names_low { names ≤ vec_len code.old }
    ensures code { OnOk result (code.new.items ≡ code.old.items ++ emitted.every_list (names_in known.now) operands names all.now) }
    ensures grows { OnOk result (vec_len code.old + 1 ≤ vec_len code.new) }
{
    let mut ends = Vec::new(alloc);
    for e in all {
        emit_expr(alloc, code, known, operands, names, e)?;
        ends.push(code.len())?;
        put(code, operands + 1, names, Instr::SkipIfZero(0))?;
    }
    put(code, operands, names, Instr::Push(1))?;
    close(code, operands, names, &ends)
}

/// OR.
#[cycle(expressions)]
fn emit_either<'a>(
    alloc: Global,
    code: &mut Vec<Line>,
    known: &Known<'a>,
    operands: usize,
    names: usize,
    all: &'a [TypedExpr],
) -> Result<(), AllocError>
    requires placed { IsPlaced known.now }
    requires operands_low { operands ≤ vec_len code.old }
    requires names_low { names ≤ vec_len code.old }
    ensures code { OnOk result (code.new.items ≡ code.old.items ++ emitted.either_list (names_in known.now) operands names all.now) }
    ensures grows { OnOk result (vec_len code.old + 1 ≤ vec_len code.new) }
{
    let mut ends = Vec::new(alloc);
    for e in all {
        emit_side(alloc, code, known, operands, names, e)?;
        ends.push(code.len())?;
        put(code, operands + 1, names, Instr::Skip(0))?;
    }
    put(code, operands, names, Instr::Push(0))?;
    lead_to_end(code, operands + 1, names, &ends);
    Ok(())
}

/// A side of OR, and TRUE where it holds.
#[cycle(expressions)]
fn emit_side<'a>(
    alloc: Global,
    code: &mut Vec<Line>,
    known: &Known<'a>,
    operands: usize,
    names: usize,
    e: &'a TypedExpr,
) -> Result<(), AllocError>
    requires placed { IsPlaced known.now }
    requires operands_low { operands ≤ vec_len code.old }
    requires names_low { names ≤ vec_len code.old }
    ensures code { OnOk result (code.new.items ≡ code.old.items ++ emitted.side (names_in known.now) operands names e.now) }
    ensures grows { OnOk result (vec_len code.old + 1 ≤ vec_len code.new) }
{
    emit_expr(alloc, code, known, operands, names, e)?;
    put(code, operands + 1, names, Instr::SkipIfZero(2))?;
    put(code, operands, names, Instr::Push(1))
}

/// A value, or a name for a place.
#[cycle(expressions)]
fn emit_argument<'a>(
    alloc: Global,
    code: &mut Vec<Line>,
    known: &Known<'a>,
    operands: usize,
    names: usize,
    argument: &'a Argument,
) -> Result<Passed, AllocError>
    requires placed { IsPlaced known.now }
    requires operands_low { operands ≤ vec_len code.old }
    requires names_low { names ≤ vec_len code.old }
    ensures code { IfOk result (λ p. code.new.items ≡ code.old.items ++ spec.argument_code (names_in known.now) operands names argument.now) }
    ensures grows { IfOk result (λ p. vec_len code.old + 1 ≤ vec_len code.new) }
    ensures operands { IfOk result (λ p. p.operands ≡ operands + spec.value_one argument.now) }
    ensures names { IfOk result (λ p. p.names ≡ names + spec.name_one argument.now) }
{
    match argument {
        Argument::Value(e) => {
            emit_expr(alloc, code, known, operands, names, e)?;
            Ok(Passed {
                operands: operands + 1,
                names,
            })
        }
        Argument::Place(d) => {
            let found = emit_offset(alloc, code, known, operands, names, d)?;
            let cells = object_cells(found.object);
            let root = Boxed::new(alloc, found.root)?;
            put_name(code, operands, names, Instr::NamePlace(root, cells))
        }
        Argument::Open(d) => {
            let found = emit_offset(alloc, code, known, operands, names, d)?;
            let length = length_of(found.object, found.root);
            let cells = element_cells(found.object);
            let root = Boxed::new(alloc, found.root)?;
            let instr = Instr::NameArray(root, length, cells);
            put_name(code, operands, names, instr)
        }
        Argument::Typed(d, kind, levels) => {
            let found = emit_offset(alloc, code, known, operands, names, d)?;
            let types = kind.names.another()?;
            let cells = object_cells(base_of(found.object, *levels));
            let root = Boxed::new(alloc, found.root)?;
            let instr = Instr::NameRecord(root, types, cells);
            put_name(code, operands, names, instr)
        }
        Argument::Again(d, levels) => {
            let found = emit_offset(alloc, code, known, operands, names, d)?;
            let cells = object_cells(base_of(found.object, *levels));
            let name = name_number(found.root);
            put_name(code, operands, names, Instr::NameAgain(name, cells))
        }
    }
}

/// A name for the place whose number lies there.
fn put_name(
    code: &mut Vec<Line>,
    operands: usize,
    names: usize,
    instr: Instr,
) -> Result<Passed, AllocError>
    requires operands_low { operands + 1 ≤ vec_len code.old }
    requires names_low { names + 1 ≤ vec_len code.old }
    ensures code { IfOk result (λ p. code.new.items ≡ code.old.items ++ spec.line (operands + 1) names instr ∷ []) }
    ensures grows { IfOk result (λ p. vec_len code.new ≡ vec_len code.old + 1) }
    ensures operands { IfOk result (λ p. p.operands ≡ operands) }
    ensures names { IfOk result (λ p. p.names ≡ names + 1) }
{
    put(code, operands + 1, names, instr)?;
    Ok(Passed {
        operands,
        names: names + 1,
    })
}

/// The code of what is passed.
#[cycle(expressions)]
pub fn emit_arguments<'a>(
    alloc: Global,
    code: &mut Vec<Line>,
    known: &Known<'a>,
    operands: usize,
    names: usize,
    arguments: &'a [Argument],
) -> Result<Passed, AllocError>
    requires placed { IsPlaced known.now }
    requires operands_low { operands ≤ vec_len code.old }
    requires names_low { names ≤ vec_len code.old }
    ensures code { IfOk result (λ p. code.new.items ≡ code.old.items ++ spec.passed_code (names_in known.now) operands names arguments.now) }
    ensures grows { IfOk result (λ p. vec_len code.old ≤ vec_len code.new) }
    ensures operands { IfOk result (λ p. p.operands ≡ operands + spec.list_values arguments.now) }
    ensures names { IfOk result (λ p. p.names ≡ names + spec.list_names arguments.now) }
{
    let mut passed = Passed { operands, names };
    for argument in arguments {
        passed = emit_argument(alloc, code, known, passed.operands, passed.names, argument)?;
    }
    Ok(passed)
}
