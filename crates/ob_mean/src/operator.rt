//! Operators and relations.

/// A relation of two values.
#[derive(Clone, Copy, PartialEq, Eq, Debug)]
pub enum Relation {
    Equal,
    NotEqual,
    Less,
    LessEqual,
    Greater,
    GreaterEqual,
}

/// An operator, or a predeclared function, of two numbers.
#[derive(Clone, Copy, PartialEq, Eq, Debug)]
pub enum Operator {
    Plus,
    Minus,
    Times,
    /// DIV.
    Quotient,
    /// MOD.
    Remainder,
    /// LSL.
    ShiftLeft,
    /// ASR.
    ShiftRight,
    /// ROR.
    Rotate,
    /// TRUE where it holds, else FALSE.
    Compare(Relation),
}

/// An operator, or a predeclared function, of one value.
#[derive(Clone, Copy, PartialEq, Eq, Debug)]
pub enum UnaryOperator {
    /// The sign `-` before a term.
    Negative,
    /// `~`.
    Not,
    /// ABS.
    Absolute,
    /// ODD.
    Odd,
    /// ORD: the number of a character, or of a truth value.
    Ordinal,
    /// CHR: the character of a number, where there is one.
    Character,
    /// A number that is assigned to a BYTE, passed or returned as one, where it is one.
    Byte,
}
