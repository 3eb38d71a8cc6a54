//! The marks that are not handed on yet.

ghost use Rattle.std.specs.Prelude.{◌≡◌, ◌++◌, ◌∷◌, [], ◌+◌, ◌≤◌, ◌<◌, None, length, take, drop, option_copied, OnOk, OnErr, IfOk};
ghost use Rattle.std.specs.VecDeque.{deque_capacity, deque_len};
ghost use Rattle.jk_log.specs.Pending.{joined};
ghost use Rattle.jk_core.specs.Pended.{arrival_of, begins as begins_of, cell_after, entries_for, last_cell, shown_by};

use jk_log::{Arrival, Entry, Kind, add_entries};
use std::alloc::{AllocError, Global};
use std::collections::VecDeque;
use std::marker::Model;

/// A mark that is not handed on yet.
#[derive(Drop)]
pub(crate) struct Pended {
    kind: Kind,
    /// What it is for, unless that is the cell that was begun last before it.
    arrival: Option<Arrival>,
}

/// The marks that are not handed on yet, oldest first.
#[derive(Drop)]
pub(crate) struct Pending {
    /// The request of the cell that was begun last by the marks handed on.
    cell: Option<Arrival>,
    marks: VecDeque<Pended>,
}

impl Model for Pending {
    ghost use Rattle.std.specs.Prelude.{◌-◌};
    ghost use Rattle.std.specs.VecDeque.{deque_capacity, deque_len};
    ghost use Rattle.jk_core.specs.Pended.{PendingState, last_cell, shown_by};
    ghost use Rattle.std.specs.Coded.{codes};
    ghost use Rattle.json_form.specs.contracts.kept.Json as json;

    ghost Value = { PendingState };

    ghost coded = { Prim.hlevel (codes, json.the_row.coded) };

    ghost view = { λ p. record {
      entries = shown_by p.cell p.marks.items;
      cell = last_cell p.cell p.marks.items;
      room = deque_capacity p.marks - deque_len p.marks;
    } };
}

impl Pending {
    /// No mark.
    pub fn new(alloc: Global) -> Pending
        ensures entries { result.entries ≡ [] }
        ensures cell { result.cell ≡ None }
    {
        Pending {
            cell: None,
            marks: VecDeque::new(alloc),
        }
    }

    /// Makes room for `more` more marks.
    pub fn reserve(&mut self, more: usize) -> Result<(), AllocError>
        ensures entries { self.new.entries ≡ self.old.entries }
        ensures cell { self.new.cell ≡ self.old.cell }
        ensures kept { self.old.room ≤ self.new.room }
        ensures room { OnOk result (more ≤ self.new.room) }
    {
        self.marks.reserve(more)
    }

    /// Adds a mark for this arrival, or for the cell that was begun last.
    pub fn push(&mut self, kind: Kind, arrival: Option<Arrival>)
        requires { 0 < self.old.room }
        ensures entries { self.new.entries ≡ self.old.entries ++ entries_for kind (arrival_of self.old.cell arrival) ∷ [] }
        ensures cell { self.new.cell ≡ cell_after kind arrival self.old.cell }
        ensures room { self.old.room ≤ self.new.room + 1 }
    {
        add(&mut self.marks, Pended { kind, arrival });
    }

    /// How many marks there are.
    pub fn len(&self) -> usize
        ensures { result ≡ length self.now.entries }
    {
        self.marks.len()
    }

    /// The entries of the first `most` marks, which leave. Where memory is refused none leaves.
    pub fn take(&mut self, most: usize) -> Result<Vec<Entry>, AllocError>
        ensures entries { IfOk result (λ entries. entries.items ≡ joined (take most self.old.entries)) }
        ensures ok { OnOk result (self.new.entries ≡ drop most self.old.entries) }
        ensures err { OnErr result (self.new.entries ≡ self.old.entries) }
        ensures cell { self.new.cell ≡ self.old.cell }
        ensures room { self.old.room ≤ self.new.room }
    {
        let alloc = *self.marks.allocator();
        let entries = first_entries(alloc, &self.cell, &self.marks, most)?;
        drop_first(&mut self.cell, &mut self.marks, most);
        Ok(entries)
    }
}

/// Adds a mark, for which there is room.
fn add(marks: &mut VecDeque<Pended>, pended: Pended)
    requires { deque_len marks.old < deque_capacity marks.old }
    ensures items { marks.new.items ≡ marks.old.items ++ pended ∷ [] }
    ensures length { deque_len marks.new ≡ deque_len marks.old + 1 }
    ensures capacity { deque_capacity marks.old ≤ deque_capacity marks.new }
{
    let room = marks.len() < marks.capacity();
    prove!(room);
    let _ = marks.push_back(pended);
}

/// Whether a cell begins with this mark.
fn begins(kind: &Kind) -> bool
    ensures { result ≡ begins_of kind.now }
{
    match kind {
        Kind::Begin { .. } => true,
        Kind::Join
        | Kind::Leave
        | Kind::Flush { .. }
        | Kind::Ask
        | Kind::Line { .. }
        | Kind::End { .. }
        | Kind::Stop { .. }
        | Kind::Refuse { .. }
        | Kind::Abort
        | Kind::Answer { .. }
        | Kind::Interrupt
        | Kind::KernelInfo
        | Kind::Restart { .. } => false,
    }
}

/// The entries of the first `most` marks, after a cell with this request.
fn first_entries(
    alloc: Global,
    cell: &Option<Arrival>,
    marks: &VecDeque<Pended>,
    most: usize,
) -> Result<Vec<Entry>, AllocError>
    ensures { IfOk result (λ entries. entries.items ≡ joined (take most (shown_by cell.now marks.now.items))) }
{
    let mut entries = Vec::new(alloc);
    let mut last = cell.as_ref();
    let count = most.min(marks.len());
    for i in 0..count {
        let pended = &marks[i];
        let arrival = request_of(pended, last);
        add_for(&mut entries, &pended.kind, arrival)?;
        if begins(&pended.kind) {
            last = arrival;
        }
    }
    Ok(entries)
}

/// What a mark is for, after a cell with this request.
fn request_of<'a>(pended: &'a Pended, last: Option<&'a Arrival>) -> Option<&'a Arrival>
    ensures { option_copied result ≡ arrival_of (option_copied last.entry) pended.now.arrival }
{
    match &pended.arrival {
        Some(own) => Some(own),
        None => last,
    }
}

/// Adds the entries of a mark for this arrival.
fn add_for(
    entries: &mut Vec<Entry>,
    kind: &Kind,
    arrival: Option<&Arrival>,
) -> Result<(), AllocError>
    ensures { OnOk result (entries.new.items ≡ entries.old.items ++ entries_for kind.now (option_copied arrival.entry)) }
{
    match arrival {
        Some(arrival) => add_entries(entries, kind, arrival),
        None => Ok(()),
    }
}

/// Drops the first `most` marks, and keeps the request of the cell that was begun last by them.
fn drop_first(cell: &mut Option<Arrival>, marks: &mut VecDeque<Pended>, most: usize)
    ensures shown { shown_by cell.new marks.new.items ≡ drop most (shown_by cell.old marks.old.items) }
    ensures last { last_cell cell.new marks.new.items ≡ last_cell cell.old marks.old.items }
    ensures fewer { deque_len marks.new ≤ deque_len marks.old }
    ensures capacity { deque_capacity marks.new ≡ deque_capacity marks.old }
{
    let count = most.min(marks.len());
    for _ in 0..count {
        let Some(pended) = marks.pop_front() else {
            unreachable!()
        };
        pass(cell, pended);
    }
}

/// A mark is handed on: where a cell begins with it, its request is kept.
fn pass(cell: &mut Option<Arrival>, pended: Pended)
    ensures { cell.new ≡ cell_after pended.kind pended.arrival cell.old }
{
    let Pended { kind, arrival } = pended;
    if begins(&kind) {
        if let Some(request) = arrival {
            *cell = Some(request);
        }
    }
}
