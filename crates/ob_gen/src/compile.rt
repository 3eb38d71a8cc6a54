//! The code of a module.

ghost use Rattle.std.specs.Prelude.{◌≡◌, ◌+◌, ◌++◌, map, IfOk, OnOk};
ghost use Rattle.ob_mean.specs.Values.{append, size};
ghost use Rattle.ob_mean.specs.Shapes.{opening_row, opening_value, zeros};
ghost use Rattle.ob_gen.specs.Code as spec;
ghost use Rattle.ob_gen.specs.Correct.{name_kind, name_kinds, IsCodeOf};
ghost use Rattle.ob_gen.specs.Generated.{entry_for, most_names, most_operands, AreOfFaces, HasRoom, IsOfFace};
ghost use Rattle.ob_gen.specs.Known.{face_sizes, names_in, IsPlaced};
ghost use Rattle.ob_table.specs.Tables.{row_sizes};

use crate::emit::emit_expr;
use crate::known::Known;
use crate::statement::emit_statements;
use ob_base::Items;
use ob_code::instr::{Entries, Entry, Line, NameKind, Procedure};
use ob_mean::{Face, ModuleVariable, Parameter, Shape, TypedExpr, TypedStatement};
use ob_table::Table;
use std::alloc::{AllocError, Global};

// ---- where variables are

#[tactic(auto, using(crate::proofs::emitting::Generated::text_size))]
fn variable_cells(variable: &ModuleVariable) -> usize
    ensures { result ≡ size (opening_value variable.now) }
{
    match variable {
        ModuleVariable::Declared(shape) => shape.cells(),
        ModuleVariable::Text(_, length) => *length as usize,
    }
}

/// The sizes of a module's own variables, in cells.
pub fn variable_table(alloc: Global, variables: &[ModuleVariable]) -> Result<Table, AllocError>
    ensures { IfOk result (λ t. t ≡ row_sizes (opening_row variables.now)) }
{
    let mut table = Table::new(alloc);
    for variable in variables {
        table.push(variable_cells(variable))?;
    }
    Ok(table)
}

fn face_table(alloc: Global, face: &Face) -> Result<Table, AllocError>
    ensures { IfOk result (λ t. t ≡ face_sizes face.now) }
{
    let mut table = Table::new(alloc);
    let shapes = face.variables.as_slice();
    for shape in shapes {
        table.push(shape.cells())?;
    }
    Ok(table)
}

/// The sizes of the variables that each imported module exports.
pub fn face_tables(alloc: Global, faces: &[Face]) -> Result<Vec<Table>, AllocError>
    ensures { IfOk result (λ v. v.items ≡ map face_sizes faces.now) }
{
    let mut tables = Vec::new(alloc);
    for face in faces {
        tables.push(face_table(alloc, face)?)?;
    }
    Ok(tables)
}

fn parameter_cells(parameter: &Parameter) -> usize
    ensures { result ≡ size (spec.parameter_value parameter.now) }
{
    match parameter {
        Parameter::Value => 1,
        Parameter::Place(_) => 0,
        Parameter::Open(_) => 0,
        Parameter::Extended(_) => 0,
    }
}

fn parameter_names(parameter: &Parameter) -> usize
    ensures { result ≡ spec.named_one parameter.now }
{
    match parameter {
        Parameter::Value => 0,
        Parameter::Place(_) => 1,
        Parameter::Open(_) => 1,
        Parameter::Extended(_) => 1,
    }
}

/// The sizes of what a procedure's cells have: its parameters, and then its own variables.
pub fn own_table(
    alloc: Global,
    parameters: &[Parameter],
    own: &[Shape],
) -> Result<Table, AllocError>
    ensures { IfOk result (λ t. t ≡ row_sizes (append (spec.parameter_row parameters.now) (zeros own.now))) }
{
    let mut table = Table::new(alloc);
    for parameter in parameters {
        table.push(parameter_cells(parameter))?;
    }
    for shape in own {
        table.push(shape.cells())?;
    }
    Ok(table)
}

/// How many names each parameter makes: none where a value is passed, else one.
pub fn name_table(alloc: Global, parameters: &[Parameter]) -> Result<Table, AllocError>
    ensures { IfOk result (λ t. t ≡ map spec.named_one parameters.now) }
{
    let mut table = Table::new(alloc);
    for parameter in parameters {
        table.push(parameter_names(parameter))?;
    }
    Ok(table)
}

// ---- what calls take and leave

/// One more parameter, which makes a name or none.
fn add_kind(kinds: &mut Items<NameKind>, parameter: &Parameter) -> Result<(), AllocError>
    ensures { OnOk result (kinds.new ≡ kinds.old ++ name_kind parameter.now) }
{
    match parameter {
        Parameter::Value => Ok(()),
        Parameter::Place(shape) => kinds.push(NameKind::Cells(shape.cells())),
        Parameter::Open(shape) => kinds.push(NameKind::ArrayOf(shape.cells())),
        Parameter::Extended(shape) => kinds.push(NameKind::RecordOf(shape.cells())),
    }
}

/// What the parameters' names stand for.
fn name_kinds(alloc: Global, parameters: &[Parameter]) -> Result<Items<NameKind>, AllocError>
    ensures { IfOk result (λ kinds. kinds ≡ name_kinds parameters.now) }
{
    let mut kinds = Items::new(alloc);
    for parameter in parameters {
        add_kind(&mut kinds, parameter)?;
    }
    Ok(kinds)
}

fn entry_of(alloc: Global, parameters: &[Parameter], is_function: bool) -> Result<Entry, AllocError>
    ensures { IfOk result (λ entry. entry ≡ entry_for parameters.now is_function) }
{
    let mut operands = 0;
    let mut names = 0;
    for parameter in parameters {
        operands += parameter_cells(parameter);
        names += parameter_names(parameter);
    }
    let kinds = name_kinds(alloc, parameters)?;
    Ok(Entry {
        operands,
        names,
        kinds,
        is_function,
    })
}

fn entries_of(alloc: Global, face: &Face) -> Result<Entries, AllocError>
    ensures { IfOk result (IsOfFace face.now) }
{
    let variables = face_table(alloc, face)?;
    let mut exported = Vec::new(alloc);
    let headings = face.procedures.as_slice();
    for heading in headings {
        let parameters = heading.parameters.as_slice();
        exported.push(entry_of(alloc, parameters, heading.is_function)?)?;
    }
    Ok(Entries {
        cells: variables.cells(),
        exported,
    })
}

/// What is known of the cells and exported procedures of each imported module.
pub fn all_entries(alloc: Global, faces: &[Face]) -> Result<Vec<Entries>, AllocError>
    ensures { IfOk result (λ v. AreOfFaces faces.now v.items) }
{
    let mut imports = Vec::new(alloc);
    for face in faces {
        imports.push(entries_of(alloc, face)?)?;
    }
    Ok(imports)
}

// ---- procedures

/// How many operands and names there is room for.
#[derive(Clone, Copy)]
struct Room {
    operands: usize,
    names: usize,
}

/// Room for one more than lie before any line.
fn room_of(lines: &[Line]) -> Result<Room, AllocError>
    ensures { IfOk result (λ r. (r.operands ≡ most_operands lines.now + 1) × (r.names ≡ most_names lines.now + 1)) }
{
    let mut operands = 0usize;
    let mut names = 0usize;
    for line in lines {
        operands = operands.max(line.operands);
        names = names.max(line.names);
    }
    match (operands.checked_add(1), names.checked_add(1)) {
        (Some(operands), Some(names)) => Ok(Room { operands, names }),
        _ => Err(AllocError),
    }
}

/// The value that a procedure gives, if it gives one.
fn emit_result<'a>(
    alloc: Global,
    code: &mut Vec<Line>,
    known: &Known<'a>,
    value: &'a Option<TypedExpr>,
) -> Result<(), AllocError>
    requires { IsPlaced known.now }
    ensures { OnOk result (code.new.items ≡ code.old.items ++ spec.result_code (names_in known.now) value.now) }
{
    match value {
        Some(e) => emit_expr(alloc, code, known, 0, 0, e),
        None => Ok(()),
    }
}

/// The code of a procedure, or of a body.
pub fn emit_procedure<'a>(
    alloc: Global,
    known: &Known<'a>,
    body: &'a [TypedStatement],
    value: &'a Option<TypedExpr>,
) -> Result<Procedure, AllocError>
    requires { IsPlaced known.now }
    ensures code { IfOk result (IsCodeOf (names_in known.now) body.now value.now) }
    ensures room { IfOk result HasRoom }
{
    let mut lines = Vec::new(alloc);
    emit_statements(alloc, &mut lines, known, body)?;
    emit_result(alloc, &mut lines, known, value)?;
    let room = room_of(&lines)?;
    Ok(Procedure {
        entry: entry_of(alloc, known.parameters, value.is_some())?,
        cells: known.own_table.cells(),
        operand_room: room.operands,
        name_room: room.names,
        lines,
    })
}
