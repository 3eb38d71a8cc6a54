//! When a channel wakes its kernel.
ghost use Rattle.std.specs.Prelude.{◌≡◌, ◌<◌, ◌≤◌, ◌⊎◌, true, false};

use js_drive::Wakes;
use js_paced::Owner;
use js_ws::Turn;
use std::cell::Cell;
use std::sync::Wait;

/// How many messages are submitted before the kernel is woken for them, at most. The inbox has room for no more.
const MOST: u64 = 256;

/// What a channel and its stream tell each other, and what is to be told to its kernel. What has come is submitted whole before
/// the kernel is woken for it, so that its first cell begins when the last one that had come is known.
#[derive(Drop)]
pub(crate) struct Signals<'w> {
    wakes: &'w Wakes,
    place: u8,
    /// Whether the kernel is busy.
    busy: Cell<bool>,
    /// Whether something was read or submitted for which the kernel was not woken yet.
    due: Cell<bool>,
    /// How many messages were taken since it was woken.
    taken: Cell<u64>,
}

impl<'w> Signals<'w> {
    /// Those of the channel at a place. Its join is to be submitted.
    pub(crate) fn new(wakes: &'w Wakes, place: u8) -> Signals<'w> {
        let signals = Signals {
            wakes,
            place,
            busy: Cell::new(false),
            due: Cell::new(false),
            taken: Cell::new(0),
        };
        signals.came();
        signals
    }

    /// Notes what a turn came to, whether the kernel is busy after it, and whether an arrival waits for room in the inbox. Where all
    /// that has come is submitted, the kernel is woken. The driver of a busy kernel is so too where something was sent, since it may wait
    /// for the slowest channel.
    pub(crate) fn note<R: Wait>(&self, rt: &R, turn: Turn, busy: bool, waits: bool) {
        let (heard, open, sent) = match turn {
            Turn::Open(sent) => (true, true, sent),
            Turn::Quiet(sent) => (false, true, sent),
            Turn::Closed(sent) => (true, false, sent),
        };
        if heard {
            self.came();
            self.taken.set(self.taken.get().saturating_add(1));
        }
        self.busy.set(busy);
        if is_whole(heard && open, waits, self.taken.get()) {
            self.wake(rt);
        }
        if busy && sent > 0 {
            self.wakes.driver.ring();
        }
    }

    /// Wakes the kernel where that is due, and its other channels.
    pub(crate) fn wake<R: Wait>(&self, rt: &R) {
        self.taken.set(0);
        if self.due.replace(false) {
            self.wakes.channels.end_reading();
            self.wakes.wake_all(rt, self.place);
        }
    }
}

/// Whether all was submitted that has come, or as much as may be before the kernel is woken: the last turn heard nothing or ended the
/// channel, or the inbox is full, or 256 messages were taken.
fn is_whole(heard: bool, waits: bool, taken: u64) -> bool
    ensures yes { result ≡ true → (heard ≡ false) ⊎ ((waits ≡ true) ⊎ (256 ≤ taken)) }
    ensures no { result ≡ false → (heard ≡ true) × ((waits ≡ false) × (taken < 256)) }
{
    !heard || waits || taken >= MOST
}

impl Owner for Signals<'_> {
    fn is_busy(&self) -> bool {
        self.busy.get()
    }

    fn is_over(&self) -> bool {
        self.wakes.channels.have_ended()
    }

    fn came(&self) {
        if !self.due.replace(true) {
            self.wakes.channels.begin_reading();
        }
    }
}
