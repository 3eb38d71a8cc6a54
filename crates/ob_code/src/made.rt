//! Instructions with parts that stand apart.

ghost use Rattle.std.specs.Prelude.{◌≡◌, IfOk};
ghost use Rattle.ob_code.specs.declared.instr.Instr.TheVariants as instr;

use crate::instr::{Instr, Root, Span};
use ob_base::{Boxed, Text};
use ob_mean::Relation;
use std::alloc::{AllocError, Global};

/// `Copy`, or lack of memory.
pub fn copy(alloc: Global, target: Root, source: Root, cells: usize) -> Result<Instr, AllocError>
    ensures { IfOk result (λ i. i ≡ instr.Copy target source cells) }
{
    let target = Boxed::new(alloc, target)?;
    let source = Boxed::new(alloc, source)?;
    Ok(Instr::Copy(target, source, cells))
}

/// `StoreText`, or lack of memory.
pub fn store_text(alloc: Global, span: Span, text: Text, line: usize) -> Result<Instr, AllocError>
    ensures { IfOk result (λ i. i ≡ instr.StoreText span text line) }
{
    let text = Boxed::new(alloc, text)?;
    let span = Boxed::new(alloc, span)?;
    Ok(Instr::StoreText(span, text, line))
}

/// `RelateTexts`, or lack of memory.
pub fn relate_texts(
    alloc: Global,
    relation: Relation,
    first: Span,
    second: Span,
) -> Result<Instr, AllocError>
    ensures { IfOk result (λ i. i ≡ instr.RelateTexts relation first second) }
{
    let first = Boxed::new(alloc, first)?;
    let second = Boxed::new(alloc, second)?;
    Ok(Instr::RelateTexts(relation, first, second))
}
