//! Where the cells of a module lie.

ghost use Rattle.std.specs.Prelude.{◌≡◌, List, take};
ghost use Rattle.ob_code.specs.Linked.{all_cells, AreLaid};
ghost use Rattle.ob_image.specs.Compiled.{Known, AreCompiledFrom};
ghost use Rattle.ob_image.specs.Bounds.{AreBounds};
ghost use Rattle.ob_session.specs.Session.{Module};

use ob_code::instr::LinkedModule;

/// As many cells as the modules have before the one of this number, where they lie one after the other.
#[tactic(auto, using(crate::proofs::Counted::cells_before, crate::proofs::Counted::cells_beyond))]
fn first_cell(code: &[LinkedModule], cells: usize, number: usize) -> usize
    requires { cells ≡ all_cells code.now }
    ensures { AreLaid 0 code.now → result ≡ all_cells (take number code.now) }
{
    if number < code.len() {
        return code[number].cells;
    }
    cells
}

/// The first cell of the module of this number and the first after its own, whatever the modules are of which this is the code,
/// with as many cells in all. Where there is no such module, both are the number of all cells.
#[tactic(auto, using(crate::proofs::Counted::bounds_beyond))]
pub fn bounds(code: &[LinkedModule], cells: usize, number: usize) -> (usize, usize)
    requires { cells ≡ all_cells code.now }
    ensures { (modules : List Module) (known : List Known) → AreCompiledFrom modules modules known code.now 0 → AreBounds modules number result.0 result.1 }
{
    if number < code.len() {
        return (
            first_cell(code, cells, number),
            first_cell(code, cells, number + 1),
        );
    }
    (cells, cells)
}
