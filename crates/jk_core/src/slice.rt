//! Slices of a cell that runs.

ghost use Rattle.std.specs.Prelude.{false, IsTrue, ◌&&◌, ◌≡◌, ℕ, ◌+◌, ◌-◌, ◌<◌, ◌≤◌, ◌^◌, Some, None, if◌then◌else◌, length, IfSome, IfNone, OnOk, OnErr};
ghost use Rattle.jk_log.specs.Log.{count as count_of, left, running, Running};
ghost use Rattle.jk_core.specs.Steps.{closed, flushed, failing, limit as limit_of, noted, GoesOn};
ghost use Rattle.jk_core.specs.Kept.{Stands};
ghost use Rattle.jk_core.specs.Needed.{RunsAt};
ghost use Rattle.jk_core.specs.Slices.{IsAtWork, HasCome, HasStuck, may_ask as may_ask_of, work_of, place_of};
ghost use Rattle.jk_language.specs.MachineState.{here};
ghost use Rattle.jk_language.specs.Runs.{HasTurned};

use crate::desk::{Active, Desk, Place, Wants};
use crate::kernel::Work;
use crate::script::Script;
use crate::taking::fail;
use jk_language::{Language, Turned};
use jk_log::{Cause, Ending, Kind, Written};

/// Runs a cell for at most `turns` turns, flushes it, and closes the slice by its answer.
pub(crate) fn go_on<L: Language>(
    script: &mut Script<L::Tree>,
    desk: &mut Desk<L::Session, L::Machine>,
    mut active: Active<L::Machine>,
    turns: u64,
) -> Work
    requires room { 2 + length script.old.state.waits ≤ script.old.room }
    requires counted { desk.old.count ≡ count_of script.old.state.log }
    requires runs { IsAtWork L.spoken L.state script.old.state script.old.state (limit_of turns script.old.state) active }
    requires used { (L.state active.machine).turns ≡ script.old.state.ran }
    ensures goes { (r : Running) × (running script.old.state.log ≡ Some r) × GoesOn L.spoken turns r script.old.state result script.new.state }
    ensures stands { Stands L.spoken L.state script.new.state desk.new }
{
    let used = L::used(&active.machine);
    let limit = used + turns.min(u64::MAX - used);
    let answer = advance::<L>(script, &mut active, limit);
    let turns = L::used(&active.machine);
    let text = Written::from_string(L::take_output(&mut active.machine));
    let Some(answer) = answer else {
        script.note(active.at, Kind::Flush { turns, text });
        active.read = false;
        desk.place = Place::Running(active);
        return Work::NoMemory;
    };
    flush(script, &answer, &active, turns, text);
    active.read = false;
    close::<L>(script, desk, active, answer, turns)
}

/// Runs a cell to `limit` turns in all. Where it lacks a line, that is marked, and it goes on without one; where that
/// finds no room in the log, it stands there and there is no answer.
fn advance<L: Language>(
    script: &mut Script<L::Tree>,
    active: &mut Active<L::Machine>,
    limit: u64,
) -> Option<Turned>
    requires room { 2 + length script.old.state.waits ≤ script.old.room }
    requires runs { IsAtWork L.spoken L.state script.old.state script.old.state limit active.old }
    ensures came { IfSome result (λ answer. HasCome L.spoken L.state script.old.state script.new.state limit answer active.new) }
    ensures asks { result ≡ Some Turned.NeedsLine → IsTrue (may_ask_of active.new script.new.state.log) }
    ensures stuck { IfNone result (HasStuck L.spoken L.state script.old.state script.new.state limit active.new) }
    ensures room { 2 + length script.new.state.waits ≤ script.new.room }
{
    let mut answer = turn_to::<L>(&mut active.machine, limit);
    while let Turned::NeedsLine = &answer {
        if may_ask(script, active) {
            break;
        }
        let more = 3 + script.waiting_len();
        if script.reserve(more).is_err() {
            return None;
        }
        script.note(active.at, Kind::Line { text: None });
        let _ = L::give_line(&mut active.machine, None);
        active.wants = Wants::Nothing;
        active.read = true;
        answer = turn_to::<L>(&mut active.machine, limit);
    }
    Some(answer)
}

/// Runs a machine to `limit` turns in all.
fn turn_to<L: Language>(machine: &mut L::Machine, limit: u64) -> Turned
    requires on { (L.state machine.old).over ≡ false }
    requires within { (L.state machine.old).turns ≤ limit }
    ensures { HasTurned (L.state machine.old) (limit - (L.state machine.old).turns) result (L.state machine.new) }
{
    let most = limit - L::used(machine);
    L::turns(machine, most)
}

/// Whether a cell may ask its seat for a line.
fn may_ask<T: Drop, M>(script: &Script<T>, active: &Active<M>) -> bool
    ensures { result ≡ may_ask_of active.now script.now.state.log }
{
    active.allows && !script.has_left(active.seat, active.at)
}

/// Flushes what a slice wrote. Where it wrote nothing and read no line, and the cell goes on, nothing is marked.
fn flush<T: Drop, M>(
    script: &mut Script<T>,
    answer: &Turned,
    active: &Active<M>,
    turns: u64,
    text: Written,
)
    requires room { 0 < script.old.room }
    requires runs { RunsAt active.now.at script.old.state.log }
    ensures state { script.new.state ≡ flushed answer.now active.now.read active.now.at turns text script.old.state }
    ensures room { script.old.room ≤ script.new.room + 1 }
{
    let at = active.at;
    match answer {
        Turned::Stopped => {
            if text.as_str().is_empty() && !active.read {
                script.go_on(turns);
            } else {
                script.note(at, Kind::Flush { turns, text });
            }
        }
        Turned::Ended | Turned::Trapped(_) | Turned::NeedsLine | Turned::NoMemory => {
            script.note(at, Kind::Flush { turns, text });
        }
    }
}

/// Closes a slice that was flushed. The cell runs on, asks for a line, or has ended, which is marked.
fn close<L: Language>(
    script: &mut Script<L::Tree>,
    desk: &mut Desk<L::Session, L::Machine>,
    mut active: Active<L::Machine>,
    answer: Turned,
    turns: u64,
) -> Work
    requires room { 1 + length script.old.state.waits ≤ script.old.room }
    requires runs { RunsAt active.at script.old.state.log }
    ensures work { result ≡ work_of answer }
    ensures state { script.new.state ≡ closed answer active.at active.stops turns desk.old.count script.old.state }
    ensures place { desk.new.place ≡ place_of answer (here (L.state active.machine)).session active }
    ensures count { desk.new.count ≡ desk.old.count }
{
    let count = desk.count;
    match answer {
        Turned::Stopped => desk.place = Place::Running(active),
        Turned::NeedsLine => {
            script.note(active.at, Kind::Ask);
            active.wants = Wants::Asked;
            desk.place = Place::Running(active);
            return Work::NeedsLine;
        }
        Turned::Ended => {
            let ending = Ending::Completed;
            end::<L>(script, desk, active, Kind::End { ending, count }, false);
        }
        Turned::Trapped(trap) => {
            let ending = Ending::Trapped(trap);
            end::<L>(script, desk, active, Kind::End { ending, count }, true);
        }
        Turned::NoMemory => {
            let cause = Cause::Memory;
            let kind = Kind::Stop {
                turns,
                cause,
                count,
            };
            end::<L>(script, desk, active, kind, true);
        }
    }
    Work::Ran
}

/// Marks the end of a cell, which leaves its session.
fn end<L: Language>(
    script: &mut Script<L::Tree>,
    desk: &mut Desk<L::Session, L::Machine>,
    active: Active<L::Machine>,
    kind: Kind,
    failed: bool,
)
    requires room { 1 + length script.old.state.waits ≤ script.old.room }
    requires runs { RunsAt active.at script.old.state.log }
    ensures state { script.new.state ≡ failing (failed && active.stops) (noted active.at kind script.old.state) }
    ensures place { desk.new.place ≡ Place.Resting (here (L.state active.machine)).session }
    ensures count { desk.new.count ≡ desk.old.count }
{
    let Active {
        at,
        stops,
        machine,
        ..
    } = active;
    script.note(at, kind);
    fail(script, failed && stops);
    desk.place = Place::Resting(L::finish(machine));
}
