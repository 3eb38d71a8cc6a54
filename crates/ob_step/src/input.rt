//! Readers of In. Each is a function of its own, since its clause names the one target that it reads, which settles how the
//! buffer is read: a function for two of them would take which of them it is, and its clause would be read by cases.

ghost use Rattle.std.specs.Prelude.{◌≡◌, ◌+◌, ◌<◌, ◌^◌, reverse, drop};
ghost use Rattle.ob_code.specs.Machine.{perform, go};
ghost use Rattle.ob_code.specs.Places.{top_of, AreIn, IsTextIn, IsTargetIn};
ghost use Rattle.ob_code.specs.declared.instr.Instr.TheVariants as instr;
ghost use Rattle.ob_code.specs.declared.instr.Target.TheVariants as target;
ghost use Rattle.ob_step.specs.States.{config_of, memory_of, Stays};
ghost use Rattle.ob_step.specs.Needs.{HasOne, RootIsThere, SpanIsThere, TargetIsThere};
ghost use Rattle.ob_step.specs.Steps.{Performed};

use crate::cells::{put_text, set_cell};
use crate::objects::{elements, object, place_in};
use crate::operands::{pass, pop_operand, top};
use crate::state::{State, Step};
use ob_code::instr::{LinkedModule, Root, Span, Target};
use ob_inout::Answer;

/// Behind the places that ask for a line.
fn leave(state: &mut State)
    requires one { HasOne state.old }
    requires place { state.old.at.place + 3 < 2 ^ 64 }
    ensures config { config_of state.new ≡ go (config_of state.old) (state.old.at.place + 3) (drop 1 (reverse state.old.stack.items)) (memory_of state.old) }
    ensures stays { Stays state.old state.new }
{
    pop_operand(&mut state.stack);
    state.at.place += 3;
}

fn read_char(code: &[LinkedModule], state: &mut State, root: Root) -> Step
    requires one { HasOne state.old }
    requires root { RootIsThere code.now (config_of state.old) root }
    requires cells { AreIn code.now (config_of state.old) root (top_of (config_of state.old).stack) 1 }
    requires place { state.old.at.place + 3 < 2 ^ 64 }
    ensures { Performed (perform code.now (instr.Read (target.Char root)) (config_of state.old)) state.old state.new result }
{
    let k = top(state);
    let a = place_in(object(code, state, root), k, 1);
    match state.input.read_char() {
        Answer::Value(c) => {
            set_cell(&mut state.cells, a, i32::from(c));
            leave(state);
        }
        Answer::Failed => leave(state),
        Answer::NeedsLine => pass(state),
    }
    Step::Moved
}

fn read_int(code: &[LinkedModule], state: &mut State, root: Root) -> Step
    requires one { HasOne state.old }
    requires root { RootIsThere code.now (config_of state.old) root }
    requires cells { AreIn code.now (config_of state.old) root (top_of (config_of state.old).stack) 1 }
    requires place { state.old.at.place + 3 < 2 ^ 64 }
    ensures { Performed (perform code.now (instr.Read (target.Int root)) (config_of state.old)) state.old state.new result }
{
    let k = top(state);
    let a = place_in(object(code, state, root), k, 1);
    match state.input.read_int() {
        Answer::Value(v) => {
            set_cell(&mut state.cells, a, v);
            leave(state);
        }
        Answer::Failed => leave(state),
        Answer::NeedsLine => pass(state),
    }
    Step::Moved
}

#[tactic(auto, using(ob_code::proofs::machine::Rows::text_cells_length))]
fn read_string(code: &[LinkedModule], state: &mut State, span: Span) -> Step
    requires one { HasOne state.old }
    requires span { SpanIsThere code.now (config_of state.old) span }
    requires cells { IsTextIn code.now (config_of state.old) span (top_of (config_of state.old).stack) }
    requires place { state.old.at.place + 3 < 2 ^ 64 }
    ensures { Performed (perform code.now (instr.Read (target.String span)) (config_of state.old)) state.old state.new result }
{
    let k = top(state);
    let n = elements(state, span.length);
    let a = place_in(object(code, state, span.root), k, n);
    match state.input.read_string(n) {
        Answer::Value(()) => {
            put_text(&mut state.cells, a, n, state.input.word());
            leave(state);
        }
        Answer::Failed => leave(state),
        Answer::NeedsLine => pass(state),
    }
    Step::Moved
}

#[tactic(auto, using(ob_code::proofs::machine::Rows::text_cells_length))]
fn read_name(code: &[LinkedModule], state: &mut State, span: Span) -> Step
    requires one { HasOne state.old }
    requires span { SpanIsThere code.now (config_of state.old) span }
    requires cells { IsTextIn code.now (config_of state.old) span (top_of (config_of state.old).stack) }
    requires place { state.old.at.place + 3 < 2 ^ 64 }
    ensures { Performed (perform code.now (instr.Read (target.Name span)) (config_of state.old)) state.old state.new result }
{
    let k = top(state);
    let n = elements(state, span.length);
    let a = place_in(object(code, state, span.root), k, n);
    match state.input.read_name(n) {
        Answer::Value(()) => {
            put_text(&mut state.cells, a, n, state.input.word());
            leave(state);
        }
        Answer::Failed => leave(state),
        Answer::NeedsLine => pass(state),
    }
    Step::Moved
}

/// What stands in the buffer for a variable; where nothing does, the next place asks for a line.
pub fn read(code: &[LinkedModule], state: &mut State, target: Target) -> Step
    requires one { HasOne state.old }
    requires target { TargetIsThere code.now (config_of state.old) target }
    requires cells { IsTargetIn code.now (config_of state.old) target (top_of (config_of state.old).stack) }
    requires place { state.old.at.place + 3 < 2 ^ 64 }
    ensures { Performed (perform code.now (instr.Read target) (config_of state.old)) state.old state.new result }
{
    match target {
        Target::Char(root) => read_char(code, state, root),
        Target::Int(root) => read_int(code, state, root),
        Target::String(span) => read_string(code, state, span),
        Target::Name(span) => read_name(code, state, span),
    }
}
