//! Jumps, and where the language cuts a run off.

ghost use Rattle.std.specs.Prelude.{◌≡◌, ◌+◌, ◌<◌, ◌^◌, true};
ghost use Rattle.ob_code.specs.Machine.{perform};
ghost use Rattle.ob_code.specs.declared.instr.Instr.TheVariants as instr;
ghost use Rattle.ob_step.specs.States.{config_of};
ghost use Rattle.ob_step.specs.Needs.{HasOne};
ghost use Rattle.ob_step.specs.Steps.{Performed, IsTurn};

use crate::operands::{pop_operand, take_one, top};
use crate::state::{State, Step};
use ob_code::instr::LinkedModule;
use ob_mean::TrapKind;

/// A jump over n instructions.
pub fn skip(code: &[LinkedModule], state: &mut State, n: usize) -> Step
    requires place { state.old.at.place + 1 + n < 2 ^ 64 }
    ensures { Performed (perform code.now (instr.Skip n) (config_of state.old)) state.old state.new result }
{
    state.at.place += 1 + n;
    Step::MeetsStatement
}

/// A jump where the number on top is 0; it comes off.
pub fn skip_if_zero(code: &[LinkedModule], state: &mut State, n: usize) -> Step
    requires one { HasOne state.old }
    requires place { state.old.at.place + 1 + n < 2 ^ 64 }
    ensures { Performed (perform code.now (instr.SkipIfZero n) (config_of state.old)) state.old state.new result }
{
    if top(state) == 0 {
        pop_operand(&mut state.stack);
        state.at.place += 1 + n;
    } else {
        take_one(state);
    }
    Step::MeetsStatement
}

/// Where the number on top is from the first to the last.
pub fn skip_if_within(
    code: &[LinkedModule],
    state: &mut State,
    low: i32,
    high: i32,
    n: usize,
) -> Step
    requires one { HasOne state.old }
    requires place { state.old.at.place + 1 + n < 2 ^ 64 }
    ensures { Performed (perform code.now (instr.SkipIfWithin low high n) (config_of state.old)) state.old state.new result }
{
    let v = top(state);
    if low <= v && v <= high {
        state.at.place += 1 + n;
    } else {
        state.at.place += 1;
    }
    Step::Moved
}

/// The guard of a loop: its body is entered in a turn.
pub fn enter_back(code: &[LinkedModule], state: &mut State, n: usize) -> Step
    requires one { HasOne state.old }
    requires place { state.old.at.place + 1 < 2 ^ 64 }
    ensures { Performed (perform code.now (instr.EnterBack n) (config_of state.old)) state.old state.new result }
{
    if top(state) != 0 {
        return Step::MeetsTurn;
    }
    take_one(state);
    Step::MeetsStatement
}

/// Whether the guard of a loop lets its body be entered.
#[inline(always)]
pub fn enters(code: &[LinkedModule], state: &State, n: usize) -> bool
    requires one { HasOne state.now }
    ensures { result ≡ true → IsTurn (perform code.now (instr.EnterBack n) (config_of state.now)) }
{
    top(state) != 0
}

/// ASSERT: a trap where the number on top is 0; it comes off.
pub fn assert(code: &[LinkedModule], state: &mut State, line: usize) -> Step
    requires one { HasOne state.old }
    requires place { state.old.at.place + 1 < 2 ^ 64 }
    ensures { Performed (perform code.now (instr.Assert line) (config_of state.old)) state.old state.new result }
{
    if top(state) == 0 {
        return Step::MeetsTrap(TrapKind::Assertion, line);
    }
    take_one(state);
    Step::MeetsStatement
}
