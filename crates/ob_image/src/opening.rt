//! The cells of variables before anything is assigned to them.

ghost use Rattle.std.specs.Prelude.{◌≡◌, ℕ, ℤ, ◌<◌, ◌≤◌, [], ◌∷◌, ◌++◌, OnOk, IfOk, length, take, drop, slice_index_or};
ghost use Rattle.ob_mean.specs.Shapes.{zero_of, opening_value, opening_row};
ghost use Rattle.ob_mean.specs.Values.{image};
ghost use Rattle.ob_code.specs.Machine.{text_cells};

use ob_mean::{ModuleVariable, Shape};
use std::alloc::{AllocError, Global};

/// A variable of this shape.
fn push_zeros(cells: &mut Vec<i32>, shape: &Shape) -> Result<(), AllocError>
    ensures { OnOk result (cells.new.items ≡ cells.old.items ++ image (zero_of shape.now)) }
{
    for _cell in 0..shape.cells() {
        push_cell(cells, 0)?;
    }
    Ok(())
}

fn push_cell(cells: &mut Vec<i32>, number: i32) -> Result<(), AllocError>
    ensures { OnOk result (cells.new.items ≡ cells.old.items ++ number ∷ []) }
{
    cells.push(number)?;
    Ok(())
}

/// The character of this number in a text, or 0X after its end.
#[tactic(auto, using(crate::proofs::Begins::text_character, crate::proofs::Begins::text_zero))]
fn text_cell(text: &[u8], number: usize) -> i32
    ensures { (n : ℕ) (z : ℤ) → number < n → slice_index_or (text_cells n text.now) number z ≡ result }
{
    if number < text.len() {
        i32::from(text[number])
    } else {
        0
    }
}

/// A text in `count` cells.
fn push_text(cells: &mut Vec<i32>, text: &[u8], count: u32) -> Result<(), AllocError>
    ensures { OnOk result (cells.new.items ≡ cells.old.items ++ text_cells count text.now) }
{
    for number in 0..count as usize {
        push_cell(cells, text_cell(text, number))?;
    }
    Ok(())
}

#[tactic(auto, using(crate::proofs::Begins::text_image))]
fn push_variable(cells: &mut Vec<i32>, variable: &ModuleVariable) -> Result<(), AllocError>
    ensures { OnOk result (cells.new.items ≡ cells.old.items ++ image (opening_value variable.now)) }
{
    match variable {
        ModuleVariable::Declared(shape) => push_zeros(cells, shape),
        ModuleVariable::Text(text, length) => push_text(cells, text.as_slice(), *length),
    }
}

/// Puts the cells that a module's variables begin with after others: 0 in each, and the characters of strings.
///
/// # Errors
///
/// Out of memory; some of them may then stand after the others.
#[tactic(auto, using(crate::proofs::Begins::opening_image))]
pub fn push_opening(cells: &mut Vec<i32>, variables: &[ModuleVariable]) -> Result<(), AllocError>
    ensures { OnOk result (cells.new.items ≡ cells.old.items ++ image (opening_row variables.now)) }
{
    for variable in variables {
        push_variable(cells, variable)?;
    }
    Ok(())
}

/// The cells of a session once a module is loaded whose own were those between two numbers: its variables begin anew, and all
/// other cells are as they were.
///
/// # Errors
///
/// Out of memory.
pub fn loaded_cells(
    alloc: Global,
    old: &[i32],
    from: usize,
    behind: usize,
    variables: &[ModuleVariable],
) -> Result<Vec<i32>, AllocError>
    requires order { from ≤ behind }
    requires there { behind ≤ length old.now }
    ensures { IfOk result (λ v. v.items ≡ take from old.now ++ (image (opening_row variables.now) ++ drop behind old.now)) }
{
    let mut cells = Vec::from_slice(alloc, &old[..from])?;
    push_opening(&mut cells, variables)?;
    cells.extend_from_slice(&old[behind..])?;
    Ok(cells)
}
