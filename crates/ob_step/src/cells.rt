//! The row of cells.

ghost use Rattle.std.specs.Prelude.{◌≡◌, ℕ, ℤ, ◌+◌, ◌<◌, ◌≤◌, ◌∷◌, ◌++◌, length, take, drop, slice_index_or};
ghost use Rattle.ob_mean.specs.Texts as texts;
ghost use Rattle.ob_code.specs.Machine.{text_cells};

/// Another number in a cell.
pub fn set_cell(cells: &mut Vec<i32>, a: usize, v: i32)
    requires { a < length cells.old.items }
    ensures { cells.new.items ≡ take a cells.old.items ++ (v ∷ drop (a + 1) cells.old.items) }
{
    cells[a] = v;
}

/// What stands from cell b on stands from cell a on too, as many cells as n.
pub fn copy_cells(cells: &mut Vec<i32>, a: usize, b: usize, n: usize)
    requires to { a + n ≤ length cells.old.items }
    requires from { b + n ≤ length cells.old.items }
    ensures { cells.new.items ≡ take a cells.old.items ++ (take n (drop b cells.old.items) ++ drop (a + n) cells.old.items) }
{
    cells.copy_within(b..b + n, a);
}

/// The character of this number in a text, or 0X after its end.
#[tactic(auto, using(crate::proofs::Rows::text_cell, crate::proofs::Rows::text_zero))]
fn text_cell(text: &[u8], i: usize) -> i32
    ensures { (n : ℕ) (z : ℤ) → i < n → slice_index_or (text_cells n text.now) i z ≡ result }
{
    if i < text.len() {
        i32::from(text[i])
    } else {
        0
    }
}

/// A text stands from cell a on, in as many cells as n, with 0X after it.
pub fn put_text(cells: &mut Vec<i32>, a: usize, n: usize, text: &[u8])
    requires { a + n ≤ length cells.old.items }
    ensures { cells.new.items ≡ take a cells.old.items ++ (text_cells n text.now ++ drop (a + length (text_cells n text.now)) cells.old.items) }
{
    for i in 0..n {
        cells[a + i] = text_cell(text, i);
    }
}

/// The character of a number from 0 to 255; any other number is 0X.
pub fn character(z: i32) -> u8
    ensures { result ≡ texts.character z }
{
    if z >= 0 && z < 256 { z as u8 } else { 0 }
}
