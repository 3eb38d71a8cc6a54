//! Beginning what waits first.

ghost use Rattle.std.specs.Prelude.{◌≡◌, ◌≢◌, ℕ, ◌+◌, ◌≤◌, List, length, true, IfOk, IfErr, Some, None, ◌⊎◌, option_copied};
ghost use Rattle.jk_log.specs.Log.{count as count_of, session as session_of, next_count as next_count_of, arrival_at, execute_at, running};
ghost use Rattle.jk_log.specs.Results.{IsResult};
ghost use Rattle.jk_core.specs.Steps.{answering, stops_at as stops_at_of, allows_at as allows_at_of, broken, BeginsAt, IsBrokenAt};
ghost use Rattle.jp_msg.specs.declared.message.Execute.{Execute as ExecuteOf};
ghost use Rattle.jk_core.specs.Kept.{IsKept, Stands, Opens, StartsOr, first_is_read};
ghost use Rattle.jk_language.specs.Beginning.{IsFresh};

use crate::desk::{Active, Desk, Place, Wants};
use crate::kernel::Work;
use crate::script::{Script, Task};
use crate::slice::go_on;
use crate::taking::fail;
use jk_language::{Begun, Language, Refusal};
use jk_log::{Arrival, Ending, Kind, Parsed, Written, execute_sent};
use jp_msg::Execute;
use std::alloc::Global;

/// The execute request that arrived at a place.
fn execute_of<'a, T: Drop>(
    script: &Script<T>,
    at: usize,
    request: &'a Arrival,
) -> Option<&'a Execute>
    requires { arrival_at at script.now.state.log ≡ Some request.now }
    ensures { option_copied result ≡ execute_at at script.now.state.log }
{
    // The clauses say which request it is by these two.
    let _ = script;
    let _ = at;
    execute_sent(&request.what)
}

/// The count with which the request at a place begins.
fn next_count<T: Drop>(script: &Script<T>, at: usize, request: &Arrival, count: u64) -> u64
    requires there { arrival_at at script.now.state.log ≡ Some request.now }
    requires counted { count ≡ count_of script.now.state.log }
    requires few { count ≤ length script.now.state.log }
    ensures { result ≡ next_count_of at script.now.state.log }
{
    let places = script.next_place();
    prove!(count <= places as u64);
    match execute_of(script, at, request) {
        Some(execute) if execute.store_history && !execute.silent => count + 1,
        _ => count,
    }
}

/// Whether an error of the request at a place aborts what waits.
fn stops_at<T: Drop>(script: &Script<T>, at: usize, request: &Arrival) -> bool
    requires { arrival_at at script.now.state.log ≡ Some request.now }
    ensures { result ≡ stops_at_of at script.now.state.log }
{
    match execute_of(script, at, request) {
        Some(execute) => execute.stop_on_error,
        None => false,
    }
}

/// Whether the request at a place allows input.
fn allows_at<T: Drop>(script: &Script<T>, at: usize, request: &Arrival) -> bool
    requires { arrival_at at script.now.state.log ≡ Some request.now }
    ensures { result ≡ allows_at_of at script.now.state.log }
{
    match execute_of(script, at, request) {
        Some(execute) => execute.allow_stdin,
        None => false,
    }
}

/// What comes of the first request that waits. `begin` of the language makes the machine, `open` asks it to, and `begin` here
/// shows it.
#[derive(Drop)]
pub(crate) enum Opening<S, M> {
    /// Its parse found no memory.
    Refused(S),
    /// Its text is refused by compiling, or its commands do not link.
    Broken(S, Refusal),
    Runs(M),
}

/// What comes of a request with this result. Where memory is refused, the session is handed back.
fn open<L: Language>(
    alloc: Global,
    session: L::Session,
    outcome: &Parsed<L::Tree>,
) -> Result<Opening<L::Session, L::Machine>, L::Session>
    ensures opened { IfOk result (λ o. (text : List ℕ) → IsResult L.spoken text outcome.now → Opens L.spoken L.state session text outcome.now o) }
    ensures back { IfErr result (λ back. back ≡ session) }
{
    match outcome {
        Parsed::Memory => Ok(Opening::Refused(session)),
        Parsed::Fault(fault) => Ok(Opening::Broken(session, Refusal::Compile(*fault))),
        Parsed::Tree(tree) => match L::begin(alloc, session, tree) {
            Ok(Begun::Runs(machine)) => Ok(Opening::Runs(machine)),
            Ok(Begun::Refused(session, refusal)) => Ok(Opening::Broken(session, refusal)),
            Err((session, _)) => Err(session),
        },
    }
}

/// Answers the queries that wait before the first cell, and begins or refuses that cell, which has its result.
pub(crate) fn start<L: Language>(
    script: &mut Script<L::Tree>,
    desk: &mut Desk<L::Session, L::Machine>,
    session: L::Session,
    turns: u64,
) -> Work
    requires counted { desk.old.count ≡ count_of script.old.state.log }
    requires session { session ≡ session_of L.spoken script.old.state.log }
    requires idle { running script.old.state.log ≡ None }
    requires kept { IsKept L.spoken script.old.state }
    requires read { first_is_read script.old.state.waits ≡ true }
    ensures starts { StartsOr L.spoken turns script.old.state result script.new.state }
    ensures stands { Stands L.spoken L.state script.new.state desk.new }
{
    let more = 3 + script.waiting_len();
    if script.reserve(more).is_err() {
        desk.place = Place::Resting(session);
        return Work::NoMemory;
    }
    let Some(first) = script.first_cell() else {
        unreachable!()
    };
    let Task::Cell(result) = &first.task else {
        unreachable!()
    };
    let Some(outcome) = result else {
        unreachable!()
    };
    let at = first.at;
    let opening = match open::<L>(desk.alloc, session, outcome) {
        Ok(opening) => opening,
        Err(session) => {
            desk.place = Place::Resting(session);
            return Work::NoMemory;
        }
    };
    answer_queries(script);
    let Some(popped) = script.pop_waiting() else {
        unreachable!()
    };
    let request = popped.into_arrival();
    match opening {
        Opening::Refused(session) => {
            let count = desk.count;
            script.note_of(at, Kind::Refuse { count }, request);
            desk.place = Place::Resting(session);
            Work::Ran
        }
        Opening::Broken(session, refusal) => {
            end_broken::<L>(script, desk, at, request, session, refusal);
            Work::Ran
        }
        Opening::Runs(machine) => begin::<L>(script, desk, at, request, machine, turns),
    }
}

/// Answers the queries that wait before the first cell.
pub(crate) fn answer_queries<T: Drop>(script: &mut Script<T>)
    requires { length script.old.state.waits ≤ script.old.room }
    ensures state { script.new.state ≡ answering script.old.state.waits script.old.state }
    ensures room { script.old.room + length script.new.state.waits ≤ script.new.room + length script.old.state.waits }
{
    while let Some(first) = script.first() {
        let Task::Query(status) = &first.task else {
            return;
        };
        let (at, status) = (first.at, *status);
        let Some(popped) = script.pop_waiting() else {
            unreachable!()
        };
        script.note_of(at, Kind::Answer { status }, popped.into_arrival());
    }
}

/// Begins a cell.
fn begin<L: Language>(
    script: &mut Script<L::Tree>,
    desk: &mut Desk<L::Session, L::Machine>,
    at: usize,
    request: Arrival,
    machine: L::Machine,
    turns: u64,
) -> Work
    requires room { 3 + length script.old.state.waits ≤ script.old.room }
    requires counted { desk.old.count ≡ count_of script.old.state.log }
    requires few { count_of script.old.state.log ≤ length script.old.state.log }
    requires there { arrival_at at script.old.state.log ≡ Some request }
    requires begins { (e : ExecuteOf) × (execute_at at script.old.state.log ≡ Some e) × IsFresh L.spoken (session_of L.spoken script.old.state.log) e.code (L.state machine) }
    ensures begins { BeginsAt L.spoken turns at script.old.state result script.new.state }
    ensures stands { Stands L.spoken L.state script.new.state desk.new }
{
    let active = Active {
        at,
        seat: request.seat,
        stops: stops_at(script, at, &request),
        allows: allows_at(script, at, &request),
        wants: Wants::Nothing,
        read: false,
        machine,
    };
    let count = next_count(script, at, &request, desk.count);
    desk.count = count;
    script.note_of(at, Kind::Begin { count }, request);
    go_on::<L>(script, desk, active, turns)
}

/// Begins and ends a cell that does not run.
fn end_broken<L: Language>(
    script: &mut Script<L::Tree>,
    desk: &mut Desk<L::Session, L::Machine>,
    at: usize,
    request: Arrival,
    session: L::Session,
    refusal: Refusal,
)
    requires room { 3 + length script.old.state.waits ≤ script.old.room }
    requires counted { desk.old.count ≡ count_of script.old.state.log }
    requires few { count_of script.old.state.log ≤ length script.old.state.log }
    requires session { session ≡ session_of L.spoken script.old.state.log }
    requires there { arrival_at at script.old.state.log ≡ Some request }
    requires breaks { IsBrokenAt L.spoken at refusal script.old.state.log }
    ensures ended { script.new.state ≡ broken at refusal script.old.state }
    ensures stands { Stands L.spoken L.state script.new.state desk.new }
{
    let stops = stops_at(script, at, &request);
    let count = next_count(script, at, &request, desk.count);
    desk.count = count;
    script.note_of(at, Kind::Begin { count }, request);
    let text = Written::from_string(String::new(desk.alloc));
    script.note(at, Kind::Flush { turns: 0, text });
    let ending = Ending::Refused(refusal);
    script.note(at, Kind::End { ending, count });
    fail(script, stops);
    desk.place = Place::Resting(session);
}
