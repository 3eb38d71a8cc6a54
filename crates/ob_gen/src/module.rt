//! The code of a module.

ghost use Rattle.std.specs.Prelude.{◌≡◌, map, IfOk};
ghost use Rattle.ob_mean.specs.Shapes.{opening_row};
ghost use Rattle.ob_mean.specs.WellFormed.{IsWellFormed, names_in};
ghost use Rattle.ob_gen.specs.Correct.{IsCodeOf};
ghost use Rattle.ob_gen.specs.Generated.{HasRoom, IsGenerated};
ghost use Rattle.ob_gen.specs.Known.{face_sizes};
ghost use Rattle.ob_table.specs.Tables.{row_sizes};

use crate::compile::{
    all_entries, emit_procedure, face_tables, name_table, own_table, variable_table,
};
use crate::known::Known;
use ob_code::checked::Checked;
use ob_code::instr::{CodeModule, Procedure};
use ob_mean::{Face, Parameter, Shape, TypedExpr, TypedModule, TypedStatement};
use ob_table::Table;
use std::alloc::{AllocError, Global};

/// What a procedure, or a body, has of its own.
#[derive(Clone, Copy)]
struct Part<'a> {
    parameters: &'a [Parameter],
    own: &'a [Shape],
    body: &'a [TypedStatement],
    value: &'a Option<TypedExpr>,
}

fn part_code(
    alloc: Global,
    faces: &[Face],
    face_tables: &[Table],
    variable_table: &Table,
    tree: &TypedModule,
    part: Part,
) -> Result<Procedure, AllocError>
    requires faces_placed { face_tables.now ≡ map face_sizes faces.now }
    requires variables_placed { variable_table.now ≡ row_sizes (opening_row tree.now.variables) }
    ensures code { IfOk result (IsCodeOf (record { faces = faces.now; variables = tree.now.variables; procedures = tree.now.procedures; parameters = part.entry.parameters.now; own = part.entry.own.now }) part.entry.body.now part.entry.value.now) }
    ensures room { IfOk result HasRoom }
{
    let own_table = own_table(alloc, part.parameters, part.own)?;
    let name_table = name_table(alloc, part.parameters)?;
    let known = Known {
        faces,
        face_tables,
        variables: tree.variables.as_slice(),
        variable_table,
        procedures: tree.procedures.as_slice(),
        parameters: part.parameters,
        own: part.own,
        own_table: &own_table,
        name_table: &name_table,
    };
    emit_procedure(alloc, &known, &*part.body, &*part.value)
}

/// The code of a module, over what is known of the modules that it imports. Its procedures are the code of the tree's, and
/// the last is that of its body. Wherever such modules are linked, their bodies do what the trees mean.
///
/// # Errors
///
/// Lack of memory; and where something has 2^64 cells or more, for which there is no room either.
#[tactic(auto, using(crate::proofs::machine::Told::generated_measured))]
pub fn generate(alloc: Global, faces: &[Face], tree: &TypedModule) -> Result<Checked, AllocError>
    requires { IsWellFormed faces.now tree.now }
    ensures { IfOk result (IsGenerated faces.now tree.now) }
{
    let code = module_code(alloc, faces, tree)?;
    Ok(Checked::new(code))
}

/// The code of a module, whether it is well formed or not: `generate` says of a well-formed one that it is valid, and any
/// other code is to be validated before it is linked.
///
/// # Errors
///
/// Those of `generate`.
pub fn module_code(
    alloc: Global,
    faces: &[Face],
    tree: &TypedModule,
) -> Result<CodeModule, AllocError>
    ensures { IfOk result (IsGenerated faces.now tree.now) }
{
    let faces_at = face_tables(alloc, faces)?;
    let variables_at = variable_table(alloc, tree.variables.as_slice())?;
    let mut procedures = Vec::new(alloc);
    let trees = tree.procedures.as_slice();
    for procedure in trees {
        let part = Part {
            parameters: procedure.parameters.as_slice(),
            own: procedure.variables.as_slice(),
            body: procedure.body.as_slice(),
            value: &procedure.result,
        };
        procedures.push(part_code(alloc, faces, &faces_at, &variables_at, tree, part)?)?;
    }
    let body = body_code(alloc, faces, &faces_at, &variables_at, tree)?;
    procedures.push(body)?;
    let imports = all_entries(alloc, faces)?;
    let exported = Vec::from_slice(alloc, tree.exported.as_slice())?;
    Ok(CodeModule {
        cells: variables_at.cells(),
        procedures,
        exported,
        imports,
    })
}

fn body_code(
    alloc: Global,
    faces: &[Face],
    face_tables: &[Table],
    variable_table: &Table,
    tree: &TypedModule,
) -> Result<Procedure, AllocError>
    requires faces_placed { face_tables.now ≡ map face_sizes faces.now }
    requires variables_placed { variable_table.now ≡ row_sizes (opening_row tree.now.variables) }
    ensures code { IfOk result (IsCodeOf (names_in faces.now tree.now) tree.now.body None) }
    ensures room { IfOk result HasRoom }
{
    let parameters: Vec<Parameter> = Vec::new(alloc);
    let own: Vec<Shape> = Vec::new(alloc);
    let value = None;
    let part = Part {
        parameters: parameters.as_slice(),
        own: own.as_slice(),
        body: tree.body.as_slice(),
        value: &value,
    };
    part_code(alloc, faces, face_tables, variable_table, tree, part)
}
