//! Reading the text of a cell.

ghost use Rattle.std.specs.Prelude.{◌≡◌, IfOk, IfErr};
ghost use Rattle.jk_language.specs.Spoken.{IsRefusal};
ghost use Rattle.jk_language.specs.Unread.{IsUnread};
ghost use Rattle.ob_session.specs.Session.{Session};
ghost use Rattle.ob_cell.specs.Codes.{code_number};
ghost use Rattle.ob_cell.specs.Oberon.{spoken_oberon, IsTreeOf};

use crate::tree::Tree;
use jk_language::{Fault, Refused};
use ob_base::Code;
use ob_parse::parse_text;
use std::alloc::Global;

/// The number of a code.
fn number_of(code: Code) -> u8
    ensures { result ≡ code_number code }
{
    code as u8
}

/// A fault, with its code's number.
pub(crate) fn numbered(fault: ob_base::Fault) -> Fault
    ensures { result.number ≡ code_number fault.code }
{
    Fault {
        number: number_of(fault.code),
        line: fault.line,
        column: fault.column,
        at_end: fault.at_end,
    }
}

/// The tree of a cell's text: a module, or commands.
///
/// # Errors
///
/// A fault of 1 to 4 where the text has no tokens, and one of 5 to 7 where they have no tree: it has these in every session,
/// and a text with a tree has none of them.
/// And out of memory.
pub fn parse(alloc: Global, text: &str) -> Result<Tree, Refused>
    ensures found { IfOk result (λ tree. IsTreeOf text.now tree) }
    ensures faults { IfErr result (λ refused. (session : Session) → IsRefusal spoken_oberon session text.now refused) }
    ensures unread { IfErr result (λ refused. IsUnread spoken_oberon text.now refused) }
{
    match parse_text(alloc, text) {
        Ok(cell) => Ok(Tree::of(cell)),
        Err(ob_base::Refused::Fault(fault)) => Err(Refused::Fault(numbered(fault))),
        Err(ob_base::Refused::Memory) => Err(Refused::Memory),
    }
}
