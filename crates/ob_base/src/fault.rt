//! Why a text is refused.

ghost use Rattle.std.specs.Prelude.{◌≡◌};
ghost use Rattle.ob_base.specs.declared.fault.Refused.TheVariants.{Memory};

use std::alloc::{AllocError, AllocFailed};

/// What is wrong, by its number.
#[derive(Clone, Copy, Debug, PartialEq, Eq)]
pub enum Code {
    /// A character that begins no token.
    Character = 1,
    /// A comment that is open at the end.
    Comment = 2,
    /// A string that isn't closed, or holds a character past U+00FF.
    String = 3,
    /// A number of no form or out of range, or an identifier that is too long.
    Number = 4,
    /// A token that can't stand here, or the end of the text.
    Token = 5,
    /// Constructs nest too deep.
    Nesting = 6,
    /// The name after END is another.
    EndName = 7,
    /// A name that nothing declares, or that can't be seen here.
    UnknownName = 10,
    /// A name that is declared twice in one block, or a module named In, Out or SYSTEM.
    DeclaredTwice = 11,
    /// Types that don't fit.
    Types = 12,
    /// What is to be written is read-only or no variable.
    ReadOnly = 13,
    /// Actual parameters that don't fit the formal ones, or a result that is missing or superfluous.
    Parameters = 14,
    /// No constant, or one that would trap.
    NotConstant = 15,
    /// An import of a module that isn't loaded.
    NotLoaded = 16,
    /// An import that is or reaches the module itself.
    ImportsItself = 17,
    /// A name that its module doesn't export.
    NotExported = 18,
    /// A label that stands twice, or an empty range of labels.
    Label = 19,
    /// A size that no value can have.
    Size = 20,
    /// What this language leaves out.
    LeftOut = 21,
}

/// What is wrong with a text, and where. Lines and columns begin at 1.
#[derive(Clone, Copy, Debug, PartialEq, Eq)]
pub struct Fault {
    pub code: Code,
    pub line: usize,
    pub column: usize,
    /// Whether more text could mend it.
    pub at_end: bool,
}

/// Why something was not read or checked: a fault of the text, or lack of memory.
#[derive(Debug, Drop)]
pub enum Refused {
    Fault(Fault),
    Memory,
}

impl From<AllocError> for Refused {
    ghost from_gives = { λ _ e. e ≡ Memory };

    fn from(_e: AllocError) -> Refused {
        Refused::Memory
    }
}

impl<T: Drop> From<AllocFailed<T>> for Refused {
    ghost from_gives = { λ _ e. e ≡ Memory };

    fn from(_e: AllocFailed<T>) -> Refused {
        Refused::Memory
    }
}
