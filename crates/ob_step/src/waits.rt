//! What stands before a turn: whether it is one.

ghost use Rattle.std.specs.Prelude.{◌≡◌, ◌+◌, ◌<◌, ◌^◌, true};
ghost use Rattle.ob_code.specs.Machine.{perform};
ghost use Rattle.ob_code.specs.Places.{top_of, IsTextIn};
ghost use Rattle.ob_code.specs.declared.instr.Instr.TheVariants as instr;
ghost use Rattle.ob_step.specs.States.{config_of};
ghost use Rattle.ob_step.specs.Needs.{IsCallable, HasOne, HasTwo};
ghost use Rattle.ob_step.specs.Steps.{Performed, IsTurn};

use crate::operands::{top, top_two};
use crate::state::{State, Step};
use ob_code::instr::{LinkedModule, Span};
use ob_mean::{Callee, TrapKind};

/// How many calls may be open.
pub const MAX_DEPTH: usize = 1000;

/// A call, unless too many are open.
pub fn invoke(code: &[LinkedModule], state: &mut State, callee: Callee, line: usize) -> Step
    requires callable { IsCallable code.now state.old callee }
    ensures { Performed (perform code.now (instr.Invoke callee line) (config_of state.old)) state.old state.new result }
{
    if state.frames.len() < MAX_DEPTH {
        Step::MeetsTurn
    } else {
        Step::MeetsTrap(TrapKind::CallDepth, line)
    }
}

/// Whether a call is a turn: not too many are open.
#[inline(always)]
pub fn may_call(code: &[LinkedModule], state: &State, callee: Callee, line: usize) -> bool
    requires callable { IsCallable code.now state.now callee }
    ensures { result ≡ true → IsTurn (perform code.now (instr.Invoke callee line) (config_of state.now)) }
{
    state.frames.len() < MAX_DEPTH
}

/// Out.Char.
pub fn put_char(code: &[LinkedModule], state: &mut State) -> Step
    requires one { HasOne state.old }
    ensures { Performed (perform code.now instr.PutChar (config_of state.old)) state.old state.new result }
{
    let _character = top(state);
    Step::MeetsTurn
}

/// Out.String.
pub fn put_text(code: &[LinkedModule], state: &mut State, span: Span) -> Step
    requires one { HasOne state.old }
    requires cells { IsTextIn code.now (config_of state.old) span (top_of (config_of state.old).stack) }
    ensures { Performed (perform code.now (instr.PutText span) (config_of state.old)) state.old state.new result }
{
    let _number = top(state);
    Step::MeetsTurn
}

/// Out.Int.
pub fn put_int(code: &[LinkedModule], state: &mut State) -> Step
    requires two { HasTwo state.old }
    ensures { Performed (perform code.now instr.PutInt (config_of state.old)) state.old state.new result }
{
    let _number_and_width = top_two(state);
    Step::MeetsTurn
}
