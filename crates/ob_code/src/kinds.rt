//! Kinds of operands, and of names.

use crate::instr::NameKind;
use ob_base::Items;

/// What is known of an operand.
#[derive(Clone, Copy, PartialEq, Eq, Debug)]
pub enum Kind {
    /// Nothing.
    Number,
    /// It is from 0 on, and at most so much: the number of a cell in any object that has more cells.
    UpTo(usize),
    /// The number of a name that stands for an array, the cells of an element, and so much: it is from 0 on, and at most so
    /// much after where the array's last element begins.
    Inside(usize, usize, usize),
    /// The number of a name that stands for a record of at least so many cells, and so much: it is from 0 on, and at most so
    /// much.
    Guarded(usize, usize, usize),
    /// No run comes here: it is the number of an element of an array that has none.
    Absent,
}

/// What is known before a line: of each operand, the top first, and of each name that was made for a call, the newest last.
#[derive(Drop)]
pub struct Known {
    pub operands: Items<Kind>,
    pub names: Items<NameKind>,
}
