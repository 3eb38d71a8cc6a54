//! The static rules, by their codes.

ghost use Rattle.std.specs.Prelude.{◌≡◌};
ghost use Rattle.ob_check_scope.specs.RuleCodes.{code_of};

use ob_base::Code;

/// What is wrong where a static rule is broken. Each is a code from 10 to 21.
#[derive(Clone, Copy, Debug, PartialEq, Eq)]
pub enum RuleCode {
    /// A name that nothing declares, or that can't be seen here.
    UnknownName,
    /// A name that is declared twice in one block, or a module named In, Out or SYSTEM.
    DeclaredTwice,
    /// Types that don't fit.
    Types,
    /// What is to be written is read-only or no variable.
    ReadOnly,
    /// Actual parameters that don't fit the formal ones, or a result that is missing or superfluous.
    Parameters,
    /// No constant, or one that would trap.
    NotConstant,
    /// An import of a module that isn't loaded.
    NotLoaded,
    /// An import that is or reaches the module itself.
    ImportsItself,
    /// A name that its module doesn't export.
    NotExported,
    /// A label that stands twice, or an empty range of labels.
    Label,
    /// A size that no value can have.
    Size,
    /// What this language leaves out.
    LeftOut,
}

impl RuleCode {
    /// The code, among those of all that can be wrong with a text.
    pub fn code(self) -> Code
        ensures { result ≡ code_of self }
    {
        match self {
            RuleCode::UnknownName => Code::UnknownName,
            RuleCode::DeclaredTwice => Code::DeclaredTwice,
            RuleCode::Types => Code::Types,
            RuleCode::ReadOnly => Code::ReadOnly,
            RuleCode::Parameters => Code::Parameters,
            RuleCode::NotConstant => Code::NotConstant,
            RuleCode::NotLoaded => Code::NotLoaded,
            RuleCode::ImportsItself => Code::ImportsItself,
            RuleCode::NotExported => Code::NotExported,
            RuleCode::Label => Code::Label,
            RuleCode::Size => Code::Size,
            RuleCode::LeftOut => Code::LeftOut,
        }
    }
}
