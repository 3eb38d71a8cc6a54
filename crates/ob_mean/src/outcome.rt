//! Why a run stands.

/// Why the language cuts a run off.
#[derive(Clone, Copy, PartialEq, Eq, Debug)]
pub enum TrapKind {
    /// 1: an index outside its array.
    Index,
    /// 2: DIV or MOD by a number that isn't above 0.
    Divisor,
    /// 3: a CASE without the label.
    Label,
    /// 4: ASSERT of what doesn't hold.
    Assertion,
    /// 5: CHR of a number outside 0 to 255.
    Character,
    /// 6: a shift by a count outside 0 to 31.
    ShiftCount,
    /// 7: a string that is too long for its array.
    TextLength,
    /// 8: more calls would be open than may be.
    CallDepth,
    /// 9: a number outside 0 to 255 for a BYTE.
    Byte,
    /// 10: a guard of a record that is of no such type.
    Guard,
}

/// What a turn is for.
#[derive(Clone, Copy, PartialEq, Eq, Debug)]
pub enum TurnKind {
    /// An entry of a loop's body.
    BodyEntry,
    /// A call of a procedure: by a statement, in an expression, or as a command.
    ProcedureCall,
    /// A call of In.
    Input,
    /// A call of Out.
    Output,
    /// A line that In asks for.
    LineAsked,
}

/// Why a run stands.
#[derive(Clone, Copy, PartialEq, Eq, Debug)]
pub enum Outcome {
    /// It is over.
    Ended,
    /// A trap, in the module of this number and in this line of its text.
    Trapped(TrapKind, usize, usize),
    /// No turn is left for what comes next, which would be this.
    Stopped(TurnKind),
    /// It asked for a line, and none was given yet.
    NeedsLine,
}
