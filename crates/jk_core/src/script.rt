//! What was taken and marked, and what waits.

ghost use Rattle.std.specs.Prelude.{◌≡◌, ◌&&◌, ◌||◌, is_some, nat_lt, ℕ, ◌+◌, ◌^◌, ◌<◌, ◌≤◌, [], ◌∷◌, ◌++◌, List, drop, find, take, length, slice_get, if◌then◌else◌, IsTrue, IfSome, IfNone, OnOk, OnErr, IfOk, IfErr, option_copied, None, Some};
ghost use Rattle.std.specs.VecDeque.{deque_capacity, deque_len};
ghost use Rattle.jk_core.specs.Steps.{closing, noted, took, waits_with, with_waits, with_ran, ran_after, without, GivesJob, Hands, CanKeep, first_after as first_after_of};
ghost use Rattle.jk_core.specs.Kept.{AllWait, IsKept};
ghost use Rattle.jk_core.specs.State.{Ascends, PassedBy, WaitingOf, first_of, fresh, is_cell as is_cell_of};
ghost use Rattle.jk_core.specs.Needed.{AllThere, ArrivalOf, IsFor, RunsAt, handed_back, mark_in, tasked};
ghost use Rattle.jk_log.specs.Asked.{sort_as};
ghost use Rattle.jk_log.specs.Log.{arrival_at, arrival_in, ended as ended_of, ends as ends_of, left, option_with};
ghost use Rattle.jk_log.specs.Pending.{joined};

use crate::kernel::Used;
use crate::pending::Pending;
use jk_language::Language;
use jk_log::{
    Arrival, Entry, Item, Job, Kind, Leaves, Mark, Parsed, ParsedCell, Sort, execute_sent, sort_of,
};
use jp_msg::Completeness;
use json_form::Text;
use past::Past;
use std::alloc::{AllocError, AllocFailed, Global};
use std::collections::VecDeque;
use std::marker::Model;

/// One less than the number of items that a log may have.
const LAST_PLACE: usize = 9_223_372_036_854_775_807;

/// What is to be done for a request that waits.
#[derive(Drop)]
pub(crate) enum Task<T> {
    /// Its cell is begun, once its text was read.
    Cell(Option<Parsed<T>>),
    /// It is answered; `is_complete` with a status.
    Query(Option<Completeness>),
}

/// A shell request that is taken and not yet marked.
#[derive(Drop)]
pub(crate) struct Waiting<T> {
    pub at: usize,
    pub number: u64,
    pub task: Task<T>,
}

/// A request that waited, and what arrived.
#[derive(Drop)]
pub(crate) struct Popped<T> {
    pub waiting: Waiting<T>,
    pub arrival: Arrival,
}

impl<T: Drop> Popped<T> {
    /// What arrived.
    pub fn into_arrival(self) -> Arrival
        ensures { result ≡ self.arrival }
    {
        let Popped {
            waiting: _,
            arrival,
        } = self;
        arrival
    }
}

/// What was taken and marked, and what waits. Of the log itself nothing is kept but what is still needed.
#[derive(Drop)]
pub(crate) struct Script<T> {
    /// The log, as clauses see it.
    past: Past<Item>,
    /// How many items it has.
    places: usize,
    /// How many more marks there is room for.
    room: usize,
    pending: Pending,
    waiting: VecDeque<Waiting<T>>,
    /// The arrivals of the requests that wait.
    requests: VecDeque<Arrival>,
    given: u64,
    /// How many of the requests that wait `next_job` has passed.
    passed: usize,
    taken: u64,
    /// Whether the kernel was shut down, and not to start again.
    ended: bool,
    /// The turns of the cell that runs.
    ran: u64,
    leaves: Leaves,
}

impl<T> Model for Script<T> {
    ghost use Rattle.std.specs.Prelude.{◌≡◌, ◌+◌, ◌^◌, ◌≤◌, ◌<◌, ℕ, Some, length, slice_get};
    ghost use Rattle.jk_log.specs.Log.{Running, arrivals, running, ended as ended_of};
    ghost use Rattle.jk_core.specs.State.{Ascends, PassedBy, ScriptState, state_of};
    ghost use Rattle.jk_core.specs.Needed.{AllThere, HasRequest};
    ghost use Rattle.jk_log.specs.Leaving.{last_leave};
    ghost use Rattle.std.specs.Coded.{codes};
    ghost use Rattle.json_form.specs.contracts.kept.Json as json;

    ghost Value = { ScriptState T };

    ghost coded = { Prim.hlevel (codes, json.the_row.coded, T.code) };

    ghost view = { λ s. record {
      state = state_of s.past.items s.pending.entries s.waiting.items s.given s.ran;
      room = s.room;
    } };

    ghost invariant = { λ s. record {
      places : s.places ≡ length s.past.items;
      small : s.places + s.room < 2 ^ 63;
      room : s.room ≤ s.pending.room;
      there : AllThere s.past.items s.waiting.items s.requests.items;
      cell : (r : Running) → running s.past.items ≡ Some r → HasRequest s.pending.cell r.at s.past.items;
      taken : s.taken ≡ arrivals s.past.items;
      order : Ascends 0 s.taken s.waiting.items;
      passed : PassedBy s.given s.passed s.waiting.items;
      ended : s.ended ≡ ended_of s.past.items;
      left : (seat : ℕ) → seat < 256 → slice_get s.leaves seat ≡ Some (last_leave seat s.past.items);
    } };
}

impl<T: Drop> Script<T> {
    /// The script of a kernel to which nothing has come.
    pub fn new(alloc: Global) -> Script<T>
        ensures { result.state ≡ fresh }
    {
        Script {
            past: Past::new(),
            places: 0,
            room: 0,
            pending: Pending::new(alloc),
            waiting: VecDeque::new(alloc),
            requests: VecDeque::new(alloc),
            given: 0,
            passed: 0,
            taken: 0,
            ended: false,
            ran: 0,
            leaves: Leaves::none(),
        }
    }

    /// Makes room for `more` more marks.
    pub fn reserve(&mut self, more: usize) -> Result<(), AllocError>
        ensures state { self.new.state ≡ self.old.state }
        ensures kept { self.old.room ≤ self.new.room }
        ensures room { OnOk result (more ≤ self.new.room) }
    {
        if more > LAST_PLACE - self.places {
            return Err(AllocError);
        }
        self.pending.reserve(more)?;
        self.room = self.room.max(more);
        Ok(())
    }

    /// Marks the request of the cell that runs, which stands at this place of the log.
    pub fn note(&mut self, at: usize, kind: Kind)
        requires room { 0 < self.old.room }
        requires runs { RunsAt at self.old.state.log }
        ensures state { self.new.state ≡ noted at kind self.old.state }
        ensures room { self.old.room ≤ self.new.room + 1 }
    {
        self.add(at, kind, None);
    }

    /// Marks this arrival, which stands at this place of the log.
    pub fn note_of(&mut self, at: usize, kind: Kind, arrival: Arrival)
        requires room { 0 < self.old.room }
        requires there { arrival_at at self.old.state.log ≡ Some arrival }
        ensures state { self.new.state ≡ noted at kind self.old.state }
        ensures room { self.old.room ≤ self.new.room + 1 }
    {
        self.add(at, kind, Some(arrival));
    }

    /// Adds a mark of this arrival, or of the cell that runs.
    fn add(&mut self, at: usize, kind: Kind, arrival: Option<Arrival>)
        requires room { 0 < self.old.room }
        requires there { IsFor at self.old.state.log arrival }
        ensures state { self.new.state ≡ noted at kind self.old.state }
        ensures room { self.old.room ≤ self.new.room + 1 }
    {
        self.ran = ran_by(&kind, self.ran);
        self.ended = ended_by(&kind, self.ended);
        let item = Item::Marked(Mark { at, kind });
        self.past = self.past.and(&item);
        self.places += 1;
        self.room -= 1;
        let Some(mark) = into_mark(item) else {
            unreachable!()
        };
        self.pending.push(mark.kind, arrival);
    }

    /// The cell that runs has gone on to `turns` turns in all.
    pub fn go_on(&mut self, turns: u64)
        ensures state { self.new.state ≡ with_ran turns self.old.state }
        ensures room { self.new.room ≡ self.old.room }
    {
        self.ran = turns;
    }

    /// Takes an arrival, for which there is room, and hands it back unless it waits. The status is that of a query,
    /// if it is one.
    pub fn take(
        &mut self,
        arrival: Arrival,
        status: Option<Completeness>,
    ) -> Result<Option<Arrival>, AllocFailed<Arrival>>
        requires { 0 < self.old.room }
        ensures ok { OnOk result (self.new.state ≡ took status arrival self.old.state) }
        ensures back { IfOk result (λ back. back ≡ handed_back (sort_as arrival.what) arrival) }
        ensures room { self.old.room ≤ self.new.room + 1 }
        ensures err { IfErr result (λ back. (back.value ≡ arrival) × (self.new.state ≡ self.old.state)) }
    {
        let (at, number) = (self.places, self.taken + 1);
        let Some(task) = task_for(sort_of(&arrival.what), status) else {
            let item = Item::Took(arrival);
            self.past = self.past.and(&item);
            self.taken = number;
            self.places += 1;
            self.room -= 1;
            let Some(arrival) = into_arrival(item) else {
                unreachable!()
            };
            self.leaves.take(&arrival, at);
            return Ok(Some(arrival));
        };
        if make_room(&mut self.waiting, &mut self.requests).is_err() {
            return Err(AllocFailed { value: arrival });
        }
        let item = Item::Took(arrival);
        self.past = self.past.and(&item);
        self.taken = number;
        self.places += 1;
        self.room -= 1;
        let Some(arrival) = into_arrival(item) else {
            unreachable!()
        };
        let request = Waiting { at, number, task };
        hold(&mut self.waiting, &mut self.requests, request, arrival);
        Ok(None)
    }

    /// How many requests wait.
    pub fn waiting_len(&self) -> usize
        ensures count { result ≡ length self.now.state.waits }
        ensures small { result < 2 ^ 63 }
    {
        self.waiting.len()
    }

    /// The place of the next item.
    pub fn next_place(&self) -> usize
        ensures place { result ≡ length self.now.state.log }
        ensures small { result < 2 ^ 63 }
    {
        self.places
    }

    /// Whether the kernel was shut down, and not to start again.
    pub fn ended(&self) -> bool
        ensures { result ≡ ended_of self.now.state.log }
    {
        self.ended
    }

    /// The first request that waits.
    pub fn first(&self) -> Option<&Waiting<T>>
        ensures { option_copied result ≡ first_of self.now.state.waits }
    {
        self.waiting.front()
    }

    /// The first cell that waits.
    pub fn first_cell(&self) -> Option<&Waiting<T>>
        ensures { option_copied result ≡ find (λ w. is_cell_of w.task) self.now.state.waits }
    {
        self.waiting.iter().find(|w| is_cell(&w.task))
    }

    /// Takes the first request that waits off the others.
    pub fn pop_waiting(&mut self) -> Option<Popped<T>>
        ensures first { option_with (λ p. p.waiting) result ≡ first_of self.old.state.waits }
        ensures there { IfSome result (λ p. arrival_at p.waiting.at self.new.state.log ≡ Some p.arrival) }
        ensures rest { self.new.state ≡ with_waits (drop 1 self.old.state.waits) self.old.state }
        ensures room { self.new.room ≡ self.old.room }
    {
        let Some(waiting) = self.waiting.pop_front() else {
            return None;
        };
        let Some(arrival) = self.requests.pop_front() else {
            unreachable!()
        };
        self.passed = self.passed.saturating_sub(1);
        Some(Popped { waiting, arrival })
    }

    /// Whether a seat has left since a place of the log.
    pub fn has_left(&self, seat: u8, at: usize) -> bool
        ensures { result ≡ left seat at self.now.state.log }
    {
        at < self.leaves.last(seat)
    }

    /// The entries of the first `most` pending marks, which pend no more.
    pub fn take_pending(&mut self, most: usize) -> Result<Vec<Entry>, AllocError>
        ensures entries { IfOk result (λ entries. entries.items ≡ joined (take most self.old.state.pending)) }
        ensures ok { OnOk result (self.new.state ≡ without most self.old.state) }
        ensures err { OnErr result (self.new.state ≡ self.old.state) }
    {
        self.pending.take(most)
    }

    /// How many marks are pending.
    pub fn pending_marks(&self) -> usize
        ensures { result ≡ length self.now.state.pending }
    {
        self.pending.len()
    }

    /// The job of the next cell that waits and was not given.
    pub fn next_job<L: Language<Tree = T>>(&mut self) -> Result<Option<Job>, AllocError>
        requires { AllWait L.spoken self.old.state.log self.old.state.waits }
        ensures ok { IfOk result (λ job. GivesJob self.old.state job self.new.state) }
        ensures err { OnErr result (self.new.state ≡ self.old.state) }
    {
        let place = next_cell(&self.waiting, self.given, self.passed);
        self.passed = place;
        if place == self.waiting.len() {
            return Ok(None);
        }
        let number = self.waiting[place].number;
        match execute_sent(&self.requests[place].what) {
            None => unreachable!(),
            Some(execute) => {
                let text = execute.code.value().copy()?;
                self.given = number;
                Ok(Some(Job { number, text }))
            }
        }
    }

    /// Keeps a result where a request can keep it.
    pub fn keep<L: Language<Tree = T>>(&mut self, cell: ParsedCell<L>) -> Used<ParsedCell<L>>
        ensures { Hands cell self.old.state result self.new.state }
    {
        let place = place_for(
            &self.past,
            &self.waiting,
            &self.requests,
            cell.job(),
            cell.text(),
        );
        match place {
            None => Used::Stranger(cell),
            Some(place) => {
                let (_, _, outcome) = cell.into_parts();
                self.waiting[place].task = Task::Cell(Some(outcome));
                Used::Kept
            }
        }
    }
}

/// The mark that is an item.
fn into_mark(item: Item) -> Option<Mark>
    ensures { result ≡ mark_in item }
{
    match item {
        Item::Marked(mark) => Some(mark),
        Item::Took(_) => None,
    }
}

/// The arrival that is an item.
fn into_arrival(item: Item) -> Option<Arrival>
    ensures { result ≡ arrival_in item }
{
    match item {
        Item::Took(arrival) => Some(arrival),
        Item::Marked(_) => None,
    }
}

/// The turns of the cell that runs, after a mark.
fn ran_by(kind: &Kind, ran: u64) -> u64
    ensures { result ≡ ran_after kind.now ran }
{
    match kind {
        Kind::Begin { .. } => 0,
        Kind::Flush { turns, text: _ } => *turns,
        Kind::Join
        | Kind::Leave
        | Kind::Ask
        | Kind::Line { .. }
        | Kind::End { .. }
        | Kind::Stop { .. }
        | Kind::Refuse { .. }
        | Kind::Abort
        | Kind::Answer { .. }
        | Kind::Interrupt
        | Kind::KernelInfo
        | Kind::Restart { .. } => ran,
    }
}

/// Whether the kernel has ended after a mark: it was shut down, and not to start again.
fn ended_by(kind: &Kind, ended: bool) -> bool
    ensures { result ≡ (ends_of kind.now || ended) }
{
    match kind {
        Kind::Restart { restart } => !*restart || ended,
        Kind::Join
        | Kind::Leave
        | Kind::Begin { .. }
        | Kind::Flush { .. }
        | Kind::Ask
        | Kind::Line { .. }
        | Kind::End { .. }
        | Kind::Stop { .. }
        | Kind::Refuse { .. }
        | Kind::Abort
        | Kind::Answer { .. }
        | Kind::Interrupt
        | Kind::KernelInfo => ended,
    }
}

/// What is to be done for a request that is to wait. The status is that of a query.
fn task_for<T>(sort: Sort, status: Option<Completeness>) -> Option<Task<T>>
    ensures waits { (at number : ℕ) → waits_with status sort at number ≡ tasked result at number }
    ensures back { (a : ArrivalOf) → handed_back sort a ≡ (if is_some result then None else Some a) }
{
    match sort {
        Sort::Execute => Some(Task::Cell(None)),
        Sort::Query => Some(Task::Query(status)),
        Sort::Join
        | Sort::Leave
        | Sort::Input
        | Sort::Interrupt
        | Sort::KernelInfo
        | Sort::Shutdown { .. }
        | Sort::Other => None,
    }
}

/// Makes room for one more request that waits.
fn make_room<T>(
    waiting: &mut VecDeque<Waiting<T>>,
    requests: &mut VecDeque<Arrival>,
) -> Result<(), AllocError>
    ensures waiting { waiting.new.items ≡ waiting.old.items }
    ensures requests { requests.new.items ≡ requests.old.items }
    ensures room { OnOk result ((deque_len waiting.new < deque_capacity waiting.new) × (deque_len requests.new < deque_capacity requests.new)) }
{
    waiting.reserve(1)?;
    requests.reserve(1)
}

/// Adds a request that waits, for which there is room, and what arrived.
fn hold<T: Drop>(
    waiting: &mut VecDeque<Waiting<T>>,
    requests: &mut VecDeque<Arrival>,
    request: Waiting<T>,
    arrival: Arrival,
)
    requires waiting { deque_len waiting.old < deque_capacity waiting.old }
    requires requests { deque_len requests.old < deque_capacity requests.old }
    ensures waiting { waiting.new.items ≡ waiting.old.items ++ request ∷ [] }
    ensures requests { requests.new.items ≡ requests.old.items ++ arrival ∷ [] }
{
    let room = waiting.len() < waiting.capacity() && requests.len() < requests.capacity();
    prove!(room);
    let _ = waiting.push_back(request);
    let _ = requests.push_back(arrival);
}

/// Whether what waits is a cell.
fn is_cell<T>(task: &Task<T>) -> bool
    ensures { result ≡ is_cell_of task.now }
{
    match task {
        Task::Cell(_) => true,
        Task::Query(_) => false,
    }
}

/// The mark of a request that waits and is not begun any more: a cell is aborted, a query is answered.
pub(crate) fn closing_kind<T>(task: &Task<T>) -> Kind
    ensures { result ≡ closing task.now }
{
    match task {
        Task::Cell(_) => Kind::Abort,
        Task::Query(status) => Kind::Answer { status: *status },
    }
}

/// The place of the first cell whose number is past those given, or how many requests wait. All before `from` are
/// known to be none.
fn next_cell<T>(waiting: &VecDeque<Waiting<T>>, given: u64, from: usize) -> usize
    requires { PassedBy given from waiting.now.items }
    ensures passed { PassedBy given result waiting.now.items }
    ensures found { slice_get waiting.now.items result ≡ first_after_of given waiting.now.items }
{
    let mut place = from;
    while place < waiting.len() {
        if is_due(&waiting[place], given) {
            return place;
        }
        place += 1;
    }
    place
}

/// Whether what waits is a cell that is still to be given.
fn is_due<T>(waiting: &Waiting<T>, given: u64) -> bool
    ensures { result ≡ (is_cell_of waiting.now.task && nat_lt given waiting.now.number) }
{
    is_cell(&waiting.task) && given < waiting.number
}

/// The place after the requests up to a number, found by halves.
fn place_after<T>(waiting: &VecDeque<Waiting<T>>, number: u64) -> usize
    requires { (high : ℕ) × Ascends 0 high waiting.now.items }
    ensures before { (i : ℕ) (w : WaitingOf T) → slice_get waiting.now.items i ≡ Some w → i < result → w.number ≤ number }
    ensures after { (i : ℕ) (w : WaitingOf T) → slice_get waiting.now.items i ≡ Some w → result ≤ i → number < w.number }
    ensures within { result ≤ length waiting.now.items }
{
    waiting.partition_point(|w| w.number <= number)
}

/// Whether a request can keep the result of this job and text.
fn can_keep<T>(
    past: &Past<Item>,
    waiting: &Waiting<T>,
    request: &Arrival,
    job: u64,
    text: &Text,
) -> bool
    requires { arrival_at waiting.now.at past.now.items ≡ Some request.now }
    ensures yes { IsTrue result → CanKeep past.now.items job text.now waiting.now }
    ensures no { CanKeep past.now.items job text.now waiting.now → IsTrue result }
{
    let _ = past;
    if waiting.number != job || !matches!(&waiting.task, Task::Cell(None)) {
        return false;
    }
    match execute_sent(&request.what) {
        Some(execute) => execute.code.value().as_str() == text.as_str(),
        None => false,
    }
}

/// The place of a request that can keep the result of this job and text.
fn place_for<T>(
    past: &Past<Item>,
    waiting: &VecDeque<Waiting<T>>,
    requests: &VecDeque<Arrival>,
    job: u64,
    text: &Text,
) -> Option<usize>
    requires ascends { (high : ℕ) × Ascends 0 high waiting.now.items }
    requires there { AllThere past.now.items waiting.now.items requests.now.items }
    ensures found { IfSome result (λ i. (w : WaitingOf T) × (slice_get waiting.now.items i ≡ Some w) × CanKeep past.now.items job text.now w) }
    ensures none { IfNone result ((i : ℕ) (w : WaitingOf T) → slice_get waiting.now.items i ≡ Some w → CanKeep past.now.items job text.now w → ⊥) }
{
    let after = place_after(waiting, job);
    if after == 0 {
        return None;
    }
    let place = after - 1;
    if can_keep(past, &waiting[place], &requests[place], job, text) {
        Some(place)
    } else {
        None
    }
}

/// Keeps a result where a request can keep it.
pub(crate) fn keep<L: Language>(
    script: &mut Script<L::Tree>,
    cell: ParsedCell<L>,
) -> Used<ParsedCell<L>>
    requires { IsKept L.spoken script.old.state }
    ensures hands { Hands cell script.old.state result script.new.state }
    ensures kept { IsKept L.spoken script.new.state }
{
    let _ = cell.outcome();
    script.keep(cell)
}
