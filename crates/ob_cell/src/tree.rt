//! The tree of a cell's text.

ghost use Rattle.std.specs.Prelude.{◌≡◌, ℕ, List};
ghost use Rattle.ob_cell.specs.Oberon.{IsTreeOf};

use ob_tree::tree::Cell;
use std::marker::Model;

/// A tree that is some text's. Contracts see the tree.
#[derive(Drop)]
pub struct Tree {
    cell: Cell,
}

impl Model for Tree {
    ghost use Rattle.std.specs.Prelude.{ℕ, List};
    ghost use Rattle.ob_tree.specs.contracts.tree.Cell as tree;
    ghost use Rattle.ob_tree.specs.declared.tree.Cell.{Cell};
    ghost use Rattle.ob_cell.specs.Oberon.{IsTreeOf};

    ghost Value = { Cell };

    ghost coded = { tree.the_row.coded };

    ghost view = { λ t. t.cell };

    ghost invariant = { λ t. (text : List ℕ) × IsTreeOf text t.cell };
}

impl Tree {
    /// The tree of a text.
    pub(crate) fn of(cell: Cell) -> Tree
        requires { (text : List ℕ) × IsTreeOf text cell }
        ensures { result ≡ cell }
    {
        Tree { cell }
    }

    /// The tree, which is some text's.
    pub fn cell(&self) -> &Cell
        ensures value { result.now ≡ self.now }
        ensures read { (text : List ℕ) × IsTreeOf text result.now }
    {
        &self.cell
    }
}
