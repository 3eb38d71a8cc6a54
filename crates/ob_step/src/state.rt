//! What a machine has between two instructions.

use crate::output::Output;
use ob_code::instr::{Frame, Name};
use ob_inout::LineBuffer;
use ob_mean::TrapKind;

/// Where it stands, its operands, what its calls' parameters stand for, its callers, the cells of all variables, what it
/// wrote, and what In has of its lines. The last operand, name and caller lie on top.
#[derive(Drop)]
pub struct State {
    pub at: Frame,
    pub stack: Vec<i32>,
    pub names: Vec<Name>,
    pub frames: Vec<Frame>,
    pub cells: Vec<i32>,
    pub written: Output,
    pub input: LineBuffer,
}

/// What one instruction led to: it moved, and perhaps to where a statement begins, or it meets what it leaves to others.
#[derive(Clone, Copy, PartialEq, Eq, Debug)]
pub enum Step {
    Moved,
    MeetsStatement,
    MeetsTurn,
    MeetsLine,
    MeetsEnd,
    MeetsTrap(TrapKind, usize),
}
