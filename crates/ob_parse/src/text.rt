//! The tree of a text.

ghost use Rattle.std.specs.Prelude.{◌≡◌, IfOk, Result};
ghost use Rattle.ob_parse.specs.Grammar.{AnswersTree};
ghost use Rattle.ob_parse.specs.CellText.{IsCellOf, FaultsBreak, SameCode};

use crate::cell::parse;
use ob_base::{Fault, Refused};
use ob_scan::scan;
use ob_tree::tree::Cell;
use std::alloc::Global;

/// A refusal at the end of the text is placed just after the last character.
fn placed(refused: Refused, text: &str) -> Refused
    ensures { SameCode refused result }
{
    match refused {
        Refused::Fault(fault) => Refused::Fault(placed_fault(fault, text)),
        Refused::Memory => Refused::Memory,
    }
}

fn placed_fault(fault: Fault, text: &str) -> Fault
    ensures { result.code ≡ fault.code }
{
    if !fault.at_end {
        return fault;
    }
    let mut line: usize = 1;
    let mut column: usize = 1;
    for character in text.chars() {
        if character == '\n' {
            line = line.saturating_add(1);
            column = 1;
        } else {
            column = column.saturating_add(1);
        }
    }
    Fault {
        code: fault.code,
        line,
        column,
        at_end: true,
    }
}

/// The tree of a cell's text, by the grammar of Oberon-07 (Wirth, The Programming Language Oberon): a module, or
/// commands. Refuses with a code of `scan` (1 to 4) where the text has no tokens, with one of `parse` (5 to 7) where it
/// has tokens and no tree, and with `Memory`.
pub fn parse_text(alloc: Global, text: &str) -> Result<Cell, Refused>
    // What is answered is the tree of the text's tokens.
    ensures found { IfOk result (λ c. IsCellOf text.now c) }
    // Where there is a tree it is answered, unless memory runs out.
    ensures only { (c : Cell) → IsCellOf text.now c → AnswersTree c result }
    // A fault of 1 to 4 comes only where there are no tokens, one of 5 to 7 only where they have no tree.
    ensures faults { FaultsBreak text.now result }
{
    let tokens = scan(alloc, text)?;
    match parse(alloc, tokens.as_slice()) {
        Ok(cell) => Ok(cell),
        Err(refused) => Err(placed(refused, text)),
    }
}
