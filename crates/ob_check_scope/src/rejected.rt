//! Rules that are broken.

ghost use Rattle.std.specs.Prelude.{◌≡◌, suc, OnErr, IfErr, IfOk};
ghost use Rattle.ob_check_scope.specs.declared.rejected.Rejected.TheVariants.{Memory};
ghost use Rattle.ob_check_scope.specs.declared.rule.RuleCode.TheVariants as code;
ghost use Rattle.ob_check_scope.specs.Rule.{IsBroken};
ghost use Rattle.ob_check_scope.specs.Told as spec;

use crate::rule::RuleCode;
use ob_base::{Fault, Refused};
use ob_scan::Span;
use std::alloc::{AllocError, AllocFailed};

/// A static rule that is broken, and the first character of a token there. Lines and columns begin at 1.
#[derive(Clone, Copy, Debug, PartialEq, Eq)]
pub struct BrokenRule {
    pub code: RuleCode,
    pub line: usize,
    pub column: usize,
}

/// Why there is no typed tree.
#[derive(Debug, Drop)]
pub enum Rejected {
    Rule(BrokenRule),
    Memory,
}

impl From<AllocError> for Rejected {
    ghost from_gives = { λ _ e. e ≡ Memory };

    fn from(_e: AllocError) -> Rejected {
        Rejected::Memory
    }
}

impl<T: Drop> From<AllocFailed<T>> for Rejected {
    ghost from_gives = { λ _ e. e ≡ Memory };

    fn from(_e: AllocFailed<T>) -> Rejected {
        Rejected::Memory
    }
}

impl From<Rejected> for Refused {
    ghost from_gives = { λ rejected e. e ≡ spec.told rejected };

    fn from(rejected: Rejected) -> Refused {
        told(rejected)
    }
}

/// What is told of it: the fault of the broken rule's code, at the same place.
pub fn told(rejected: Rejected) -> Refused
    ensures { result ≡ spec.told rejected }
{
    match rejected {
        Rejected::Rule(broken) => Refused::Fault(Fault {
            code: broken.code.code(),
            line: broken.line,
            column: broken.column,
            at_end: false,
        }),
        Rejected::Memory => Refused::Memory,
    }
}

/// A rule that is broken at a token.
pub fn broken(code: RuleCode, span: Span) -> BrokenRule
    ensures { result.code ≡ code }
{
    BrokenRule {
        code,
        line: span.line as usize,
        column: span.column as usize,
    }
}

/// One construct more, which opens at this token.
pub fn open(levels: u32, span: Span) -> Result<u32, Rejected>
    ensures opened { IfOk result (λ inside. levels ≡ suc inside) }
    ensures full { OnErr result (levels ≡ 0) }
    ensures code { IfErr result (λ e. IsBroken code.Size e) }
{
    if levels == 0 {
        return Err(Rejected::Rule(broken(RuleCode::Size, span)));
    }
    Ok(levels - 1)
}
