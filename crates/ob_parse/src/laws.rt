//! Laws of the definitions.

ghost use Rattle.std.specs.Prelude.{◌≡◌, ◌↔◌, ℕ, List, Some};
ghost use Rattle.ob_scan.specs.declared.token.Token.{Token};
ghost use Rattle.ob_tree.specs.declared.tree.Cell.{Cell};
ghost use Rattle.ob_parse.specs.Grammar.{Derives};
ghost use Rattle.ob_parse.specs.CellText.{IsCellOf};
ghost use Rattle.ob_parse.specs.TreeOf.{tree_of, cell_of};

/// The function `tree_of` finds a tree exactly where it is the tree of the tokens. So a list of tokens has at most one
/// tree, whether there is memory for it or not.
pub fn tree_function_law()
    ensures { (tokens : List Token) (c : Cell) → (tree_of tokens ≡ Some c) ↔ Derives tokens c }
{}

/// The function `cell_of` finds a tree exactly where it is the tree of the text. So a text has at most one tree.
pub fn cell_function_law()
    ensures { (text : List ℕ) (c : Cell) → (cell_of text ≡ Some c) ↔ IsCellOf text c }
{}
