//! What a cell comes to.

use crate::name::Name;

/// What is wrong with a text: a number, which the language chooses, and where. Lines and columns begin at 1.
#[derive(Clone, Copy, Debug, PartialEq, Eq)]
pub struct Fault {
    pub number: u8,
    pub line: usize,
    pub column: usize,
    /// Whether more text could mend it.
    pub at_end: bool,
}

/// Why a text was not read.
#[derive(Debug, Drop)]
pub enum Refused {
    Fault(Fault),
    Memory,
}

/// Where a cell was cut off by the language: why, in which module, and in which line of its text.
#[derive(Debug, Drop)]
pub struct Trap {
    pub number: u8,
    pub module: Name,
    pub line: usize,
}

/// Why a cell doesn't link.
#[derive(Debug, Drop)]
pub enum LinkFault {
    /// 30: no module of this name is loaded.
    NotLoaded(Name),
    /// 31: the module has no such command.
    NoCommand(Name, Name),
    /// 32: a module that is reached through imports is not loaded with the key that was recorded for it.
    OtherKey(Name),
}

/// Why a cell doesn't run.
#[derive(Debug, Drop)]
pub enum Refusal {
    /// Its text breaks a rule of the language.
    Compile(Fault),
    Link(LinkFault),
}

/// What a cell has come to.
#[derive(Debug, Drop)]
pub enum Outcome {
    Ended,
    Trapped(Trap),
    /// No turn is left for what comes next. That is told to want memory or not.
    Stopped(bool),
    /// A line was asked for that was not given.
    NeedsLine,
    /// The text breaks a rule of the language.
    Unreadable,
    /// A module that the cell imports, or a command of it, does not link.
    Unlinked(LinkFault),
}

/// How a slice ended.
#[derive(Debug, Drop)]
pub enum Turned {
    Ended,
    Trapped(Trap),
    /// All turns are used up.
    Stopped,
    /// A line was asked for.
    NeedsLine,
    /// Memory was refused before the next turn.
    NoMemory,
}
