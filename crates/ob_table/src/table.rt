//! Where variables are among others.

ghost use Rattle.std.specs.Prelude.{◌≡◌, ◌+◌, [], ◌∷◌, ◌++◌, IfOk, OnOk};
ghost use Rattle.ob_table.specs.Tables.{cells_in, extent_in};

use ob_code::instr::Extent;
use std::alloc::{AllocError, Global};
use std::marker::Model;

/// Both together. There is no room for 2^64 cells.
fn total(first: usize, second: usize) -> Result<usize, AllocError>
    ensures { IfOk result (λ n. n ≡ first + second) }
{
    match first.checked_add(second) {
        Some(n) => Ok(n),
        None => Err(AllocError),
    }
}

/// Things after one another, each of which has so many cells.
#[derive(Drop)]
pub struct Table {
    extents: Vec<Extent>,
    cells: usize,
}

impl Model for Table {
    ghost use Rattle.std.specs.Prelude.{ℕ, List};
    ghost use Rattle.ob_table.specs.Tables.{sizes_of, AreBehind};

    ghost Value = { List ℕ };

    ghost view = { λ t. sizes_of t.extents.items };

    ghost invariant = { λ t. AreBehind t.extents.items t.cells };
}

impl Table {
    /// A table of nothing.
    pub fn new(alloc: Global) -> Table
        ensures { result ≡ [] }
    {
        Table {
            extents: Vec::new(alloc),
            cells: 0,
        }
    }

    /// One more, after the others.
    pub fn push(&mut self, cells: usize) -> Result<(), AllocError>
        ensures { OnOk result (self.new ≡ self.old ++ cells ∷ []) }
    {
        let all = total(self.cells, cells)?;
        self.extents.push(Extent {
            from: self.cells,
            cells,
        })?;
        self.cells = all;
        Ok(())
    }

    /// How many cells there are in all.
    pub fn cells(&self) -> usize
        ensures { result ≡ cells_in self.now }
    {
        self.cells
    }

    /// Where the thing of this number is. One that isn't there has no cells, after all others.
    pub fn extent(&self, number: usize) -> Extent
        ensures { result ≡ extent_in 0 self.now number }
    {
        if number < self.extents.len() {
            self.extents[number]
        } else {
            Extent {
                from: self.cells,
                cells: 0,
            }
        }
    }
}
