//! One slice: the cell that runs goes on, or what waits first begins.

ghost use Rattle.std.specs.Prelude.{◌≡◌, ℕ, ◌≤◌, false, length, Some, None, ◌⊎◌, OnOk, OnErr};
ghost use Rattle.jk_log.specs.Log.{count as count_of, running};
ghost use Rattle.jk_core.specs.Steps.{Works, answering};
ghost use Rattle.jk_core.specs.Kept.{IsKept, RunsBy, Stands, first_is_read as first_is_read_of, is_asking, is_read as is_read_of};
ghost use Rattle.jk_core.specs.Slices.{IsAtWork};

use crate::desk::{Active, Desk, Place, Wants, take_place};
use crate::kernel::Work;
use crate::script::{Script, Task};
use crate::slice::go_on;
use crate::start::{answer_queries, start};
use jk_language::Language;
use jk_log::input_sent;
use std::alloc::AllocError;

/// Goes on with the cell that runs, or with what waits first.
pub(crate) fn work_on<L: Language>(
    script: &mut Script<L::Tree>,
    desk: &mut Desk<L::Session, L::Machine>,
    turns: u64,
) -> Work
    requires stands { Stands L.spoken L.state script.old.state desk.old }
    requires kept { IsKept L.spoken script.old.state }
    ensures works { Works L.spoken turns script.old.state result script.new.state }
    ensures stands { Stands L.spoken L.state script.new.state desk.new }
{
    match take_place::<L>(desk) {
        Place::Running(active) => resume::<L>(script, desk, active, turns),
        Place::Resting(session) => {
            if first_is_read(script) {
                return start::<L>(script, desk, session, turns);
            }
            desk.place = Place::Resting(session);
            answer::<L>(script, turns)
        }
    }
}

/// Whether the first cell that waits has its result.
fn first_is_read<T: Drop>(script: &Script<T>) -> bool
    ensures { result ≡ first_is_read_of script.now.state.waits }
{
    match script.first_cell() {
        Some(first) => is_read(&first.task),
        None => false,
    }
}

/// Whether what waits is a cell that has its result.
fn is_read<T>(task: &Task<T>) -> bool
    ensures { result ≡ is_read_of task.now }
{
    match task {
        Task::Cell(result) => result.is_some(),
        Task::Query(_) => false,
    }
}

/// Answers the queries that wait before the first cell, which has no result.
fn answer<L: Language>(script: &mut Script<L::Tree>, turns: u64) -> Work
    requires idle { running script.old.state.log ≡ None }
    requires unread { first_is_read_of script.old.state.waits ≡ false }
    ensures works { Works L.spoken turns script.old.state result script.new.state }
    ensures quiet { (script.new.state ≡ script.old.state) ⊎ (script.new.state ≡ answering script.old.state.waits script.old.state) }
{
    // A slice that begins nothing takes no turn; the clause speaks of how many it might have taken.
    let _ = turns;
    let Some(first) = script.first() else {
        return Work::Rest;
    };
    if let Task::Cell(_) = &first.task {
        return Work::NeedsParse;
    }
    let more = script.waiting_len();
    if script.reserve(more).is_err() {
        return Work::NoMemory;
    }
    answer_queries(script);
    Work::Ran
}

/// Goes on with the cell that runs, unless it waits for the line that it asked for.
fn resume<L: Language>(
    script: &mut Script<L::Tree>,
    desk: &mut Desk<L::Session, L::Machine>,
    mut active: Active<L::Machine>,
    turns: u64,
) -> Work
    requires counted { desk.old.count ≡ count_of script.old.state.log }
    requires runs { RunsBy L.spoken L.state script.old.state active }
    ensures works { Works L.spoken turns script.old.state result script.new.state }
    ensures stands { Stands L.spoken L.state script.new.state desk.new }
{
    if awaits(script, &active) {
        desk.place = Place::Running(active);
        return Work::NeedsLine;
    }
    let more = 2 + script.waiting_len();
    if script.reserve(more).is_err() {
        desk.place = Place::Running(active);
        return Work::NoMemory;
    }
    if give_unread::<L>(script, &mut active).is_err() {
        desk.place = Place::Running(active);
        return Work::NoMemory;
    }
    go_on::<L>(script, desk, active, turns)
}

/// Whether a cell waits for the line that it asked for.
fn awaits<T: Drop, M>(script: &Script<T>, active: &Active<M>) -> bool
    ensures { result ≡ is_asking active.now script.now.state.log }
{
    matches!(&active.wants, Wants::Asked) && !script.has_left(active.seat, active.at)
}

/// Gives the machine the line that it was not given yet.
///
/// # Errors
///
/// Lack of memory, and then nothing has changed.
fn give_unread<L: Language>(
    script: &Script<L::Tree>,
    active: &mut Active<L::Machine>,
) -> Result<(), AllocError>
    requires runs { RunsBy L.spoken L.state script.now.state active.old }
    requires waits { is_asking active.old script.now.state.log ≡ false }
    ensures ok { OnOk result ((n : ℕ) → script.now.state.ran ≤ n → IsAtWork L.spoken L.state script.now.state script.now.state n active.new) }
    ensures used { OnOk result ((L.state active.new.machine).turns ≡ script.now.state.ran) }
    ensures err { OnErr result (RunsBy L.spoken L.state script.now.state active.new) }
{
    // The clauses speak of its log.
    let _ = script;
    match &active.wants {
        Wants::Nothing | Wants::Asked => Ok(()),
        Wants::Given(arrival) => {
            let Some(text) = input_sent(&arrival.what) else {
                unreachable!()
            };
            L::give_line(&mut active.machine, Some(text.as_str()))?;
            active.wants = Wants::Nothing;
            Ok(())
        }
    }
}
