//! Taking what arrives, and the marks that stand directly after it.

ghost use Rattle.std.specs.Prelude.{◌≡◌, ℕ, ◌+◌, ◌<◌, ◌≤◌, List, Some, is_some, length, OnOk, IfOk, IfErr, IfSome};
ghost use Rattle.jk_log.specs.Asked.{input_in};
ghost use Rattle.jk_log.specs.Log.{arrival_at, asker, running};
ghost use Rattle.jk_core.specs.Steps.{Takes, aborting, failing, interrupted, shut, stopped, stops_with};
ghost use Rattle.jk_core.specs.Kept.{IsKept, IsLineBy, IsLineFor, Stands, StandsFor, CanStop, line_to, lined_up, marked_as};

use crate::desk::{Active, Desk, Place, Wants, take_place};
use crate::script::{Popped, Script, closing_kind};
use jk_language::Language;
use jk_log::{Arrival, Cause, Kind, Sort, Written, input_sent, sort_of, status_of};
use json_form::Text;
use std::alloc::{AllocError, AllocFailed};

/// Takes an arrival, and marks it where it is answered at once. Once the kernel has ended, the arrival is dropped.
pub(crate) fn take_in<L: Language>(
    script: &mut Script<L::Tree>,
    desk: &mut Desk<L::Session, L::Machine>,
    arrival: Arrival,
) -> Result<(), AllocFailed<Arrival>>
    requires stands { Stands L.spoken L.state script.old.state desk.old }
    requires kept { IsKept L.spoken script.old.state }
    ensures ok { OnOk result (Takes L.spoken arrival script.old.state script.new.state) }
    ensures err { IfErr result (λ back. (back.value ≡ arrival) × (script.new.state ≡ script.old.state)) }
    ensures stands { Stands L.spoken L.state script.new.state desk.new }
{
    if script.ended() {
        return Ok(());
    }
    let more = 5 + script.waiting_len();
    if script.reserve(more).is_err() {
        return Err(AllocFailed { value: arrival });
    }
    let Ok(line) = line_for::<L>(script, desk, &arrival) else {
        return Err(AllocFailed { value: arrival });
    };
    let Ok(status) = status_of::<L>(desk.alloc, &arrival.what) else {
        return Err(AllocFailed { value: arrival });
    };
    let place = script.next_place();
    let sort = sort_of(&arrival.what);
    let back = script.take(arrival, status)?;
    let Some(arrival) = back else {
        return Ok(());
    };
    mark_taken::<L>(script, desk, sort, place, line, arrival);
    Ok(())
}

/// Makes the marks of an arrival, which stands at this place and gives the cell that runs this line.
fn mark_taken<L: Language>(
    script: &mut Script<L::Tree>,
    desk: &mut Desk<L::Session, L::Machine>,
    sort: Sort,
    place: usize,
    line: Option<Text>,
    arrival: Arrival,
)
    requires room { 3 + length script.old.state.waits ≤ script.old.room }
    requires stands { StandsFor L.spoken L.state sort script.old.state desk.old }
    requires line { IsLineBy sort script.old.state.log arrival line }
    requires there { arrival_at place script.old.state.log ≡ Some arrival }
    ensures marked { script.new.state ≡ marked_as sort place line script.old.state }
    ensures stands { Stands L.spoken L.state script.new.state desk.new }
{
    match sort {
        Sort::Join => script.note_of(place, Kind::Join, arrival),
        Sort::Leave => script.note_of(place, Kind::Leave, arrival),
        Sort::KernelInfo => script.note_of(place, Kind::KernelInfo, arrival),
        Sort::Interrupt => {
            script.note_of(place, Kind::Interrupt, arrival);
            interrupt::<L>(script, desk);
        }
        Sort::Shutdown { restart } => shut_down::<L>(script, desk, place, restart, arrival),
        Sort::Input => give::<L>(script, desk, line, arrival),
        Sort::Execute | Sort::Query | Sort::Other => {}
    }
}

/// The line that arrives for the cell that runs, where it asks that seat.
fn line_for<L: Language>(
    script: &Script<L::Tree>,
    desk: &Desk<L::Session, L::Machine>,
    arrival: &Arrival,
) -> Result<Option<Text>, AllocError>
    requires { Stands L.spoken L.state script.now.state desk.now }
    ensures { IfOk result (λ line. line ≡ line_to (input_in arrival.now.what) (asker arrival.now.seat script.now.state.log)) }
{
    match input_sent(&arrival.what) {
        Some(text) if asks::<L>(script, desk, arrival.seat) => Ok(Some(text.copy()?)),
        _ => Ok(None),
    }
}

/// Whether a cell asks this seat for a line.
fn asks<L: Language>(
    script: &Script<L::Tree>,
    desk: &Desk<L::Session, L::Machine>,
    seat: u8,
) -> bool
    requires { Stands L.spoken L.state script.now.state desk.now }
    ensures { result ≡ is_some (asker seat script.now.state.log) }
{
    match &desk.place {
        Place::Resting(_) => false,
        Place::Running(active) => {
            active.seat == seat
                && matches!(&active.wants, Wants::Asked)
                && !script.has_left(active.seat, active.at)
        }
    }
}

/// Gives a line that arrived to the cell that asks for one.
fn give<L: Language>(
    script: &mut Script<L::Tree>,
    desk: &mut Desk<L::Session, L::Machine>,
    line: Option<Text>,
    arrival: Arrival,
)
    requires room { 0 < script.old.room }
    requires stands { Stands L.spoken L.state script.old.state desk.old }
    requires line { IsLineFor script.old.state.log arrival line }
    ensures given { script.new.state ≡ lined_up line (running script.old.state.log) script.old.state }
    ensures stands { Stands L.spoken L.state script.new.state desk.new }
{
    let Some(text) = line else {
        return;
    };
    match take_place::<L>(desk) {
        Place::Resting(session) => desk.place = Place::Resting(session),
        Place::Running(mut active) => {
            let text = Some(text);
            script.note(active.at, Kind::Line { text });
            active.wants = Wants::Given(arrival);
            active.read = true;
            desk.place = Place::Running(active);
        }
    }
}

/// Aborts or answers each request that waits, if the cell that failed stops on errors.
pub(crate) fn fail<T: Drop>(script: &mut Script<T>, stops: bool)
    requires { length script.old.state.waits ≤ script.old.room }
    ensures { script.new.state ≡ failing stops script.old.state }
{
    if stops {
        abort_waiting(script);
    }
}

/// Aborts or answers each request that waits.
fn abort_waiting<T: Drop>(script: &mut Script<T>)
    requires { length script.old.state.waits ≤ script.old.room }
    ensures state { script.new.state ≡ aborting script.old.state.waits script.old.state }
    ensures room { script.old.room ≤ script.new.room + length script.old.state.waits }
{
    while let Some(popped) = script.pop_waiting() {
        let Popped { waiting, arrival } = popped;
        script.note_of(waiting.at, closing_kind(&waiting.task), arrival);
    }
}

/// Stops the cell that runs because it was interrupted.
fn interrupt<L: Language>(script: &mut Script<L::Tree>, desk: &mut Desk<L::Session, L::Machine>)
    requires room { 2 + length script.old.state.waits ≤ script.old.room }
    requires stands { CanStop L.spoken L.state script.old.state desk.old }
    ensures interrupted { script.new.state ≡ interrupted (running script.old.state.log) script.old.state }
    ensures stands { Stands L.spoken L.state script.new.state desk.new }
{
    let stops = stop::<L>(script, desk, Cause::Interrupted);
    fail(script, stops);
}

/// Stops the cell that runs, aborts or answers what waits, and starts anew or ends.
fn shut_down<L: Language>(
    script: &mut Script<L::Tree>,
    desk: &mut Desk<L::Session, L::Machine>,
    place: usize,
    restart: bool,
    arrival: Arrival,
)
    requires room { 3 + length script.old.state.waits ≤ script.old.room }
    requires stands { CanStop L.spoken L.state script.old.state desk.old }
    requires there { arrival_at place script.old.state.log ≡ Some arrival }
    ensures shut { script.new.state ≡ shut place restart (running script.old.state.log) script.old.state }
    ensures stands { Stands L.spoken L.state script.new.state desk.new }
{
    let _ = stop::<L>(script, desk, Cause::Restarted);
    abort_waiting(script);
    script.note_of(place, Kind::Restart { restart }, arrival);
    desk.count = 0;
    desk.place = Place::Resting(L::opening(desk.alloc));
}

/// Stops the cell that runs, where it stands. Answers whether its error aborts what waits.
fn stop<L: Language>(
    script: &mut Script<L::Tree>,
    desk: &mut Desk<L::Session, L::Machine>,
    cause: Cause,
) -> bool
    requires room { 2 ≤ script.old.room }
    requires stands { CanStop L.spoken L.state script.old.state desk.old }
    ensures stops { result ≡ stops_with (running script.old.state.log) }
    ensures stopped { script.new.state ≡ stopped cause (running script.old.state.log) script.old.state }
    ensures waits { script.new.state.waits ≡ script.old.state.waits }
    ensures room { script.old.room ≤ script.new.room + 2 }
    ensures stands { Stands L.spoken L.state script.new.state desk.new }
{
    match take_place::<L>(desk) {
        Place::Resting(session) => {
            desk.place = Place::Resting(session);
            false
        }
        Place::Running(active) => {
            let Active {
                at,
                stops,
                machine,
                ..
            } = active;
            let text = Written::from_string(String::new(desk.alloc));
            let turns = L::used(&machine);
            script.note(at, Kind::Flush { turns, text });
            let count = desk.count;
            script.note(
                at,
                Kind::Stop {
                    turns,
                    cause,
                    count,
                },
            );
            desk.place = Place::Resting(L::finish(machine));
            stops
        }
    }
}
