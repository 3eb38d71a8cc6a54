//! What the channels of one kernel share.
ghost use Rattle.std.specs.Prelude.{◌≡◌, ◌≢◌, true, false};

use js_paced::Waking;
use std::alloc::{AllocError, Global};
use std::sync::atomic::{AtomicBool, AtomicU64, Ordering};
use std::sync::{Arc, Mutex, Wait};

/// How many channels a kernel has at most.
const PLACES: usize = 7;

/// The channels of one kernel: what wakes those that rest, how many of them have read something that is not submitted yet, and
/// whether the kernel has ended.
#[derive(Drop)]
pub struct Neighbours {
    rows: Arc<Mutex<Vec<Neighbour>>, Global>,
    reading: Arc<AtomicU64, Global>,
    ended: Arc<AtomicBool, Global>,
}

/// The place of a channel, and what wakes it.
#[derive(Drop)]
pub(crate) struct Neighbour {
    place: u8,
    waking: Waking,
}

impl Neighbours {
    /// No channel is there yet.
    pub(crate) fn new(alloc: Global) -> Result<Neighbours, AllocError> {
        let rows = Vec::with_capacity(alloc, PLACES)?;
        Ok(Neighbours {
            rows: Arc::new(alloc, Mutex::new(rows))?,
            reading: Arc::new(alloc, AtomicU64::new(0))?,
            ended: Arc::new(alloc, AtomicBool::new(false))?,
        })
    }

    /// The same channels, for another thread.
    pub(crate) fn another(&self) -> Result<Neighbours, AllocError> {
        Ok(Neighbours {
            rows: Arc::try_clone(&self.rows)?,
            reading: Arc::try_clone(&self.reading)?,
            ended: Arc::try_clone(&self.ended)?,
        })
    }

    /// Adds the channel at a place, which others wake from now on. It says whether there was memory.
    pub fn enter<R: Wait>(&self, rt: &R, place: u8, waking: Waking) -> bool {
        let mut rows = self.rows.lock(rt);
        rows.push(Neighbour { place, waking }).is_ok()
    }

    /// Removes the channel at a place.
    pub fn leave<R: Wait>(&self, rt: &R, place: u8) {
        let mut rows = self.rows.lock(rt);
        rows.retain(|row| row.place != place);
    }

    /// Wakes the channels at all places but one.
    pub(crate) fn wake<R: Wait>(&self, rt: &R, but: u8) {
        let rows = self.rows.lock(rt);
        for row in rows.as_slice() {
            if is_woken(row.place, but) {
                row.waking.wake();
            }
        }
    }

    /// A channel has read something.
    pub fn begin_reading(&self) {
        self.reading.fetch_add(1, Ordering::SeqCst);
    }

    /// A channel has submitted all that it has read.
    pub fn end_reading(&self) {
        self.reading.fetch_sub(1, Ordering::SeqCst);
    }

    /// Whether a channel has read something that is not submitted yet.
    pub(crate) fn are_reading(&self) -> bool {
        self.reading.load(Ordering::SeqCst) > 0
    }

    /// The kernel has ended: it shows nothing more.
    pub(crate) fn end(&self) {
        self.ended.store(true, Ordering::SeqCst);
    }

    /// Whether the kernel has ended.
    pub fn have_ended(&self) -> bool {
        self.ended.load(Ordering::SeqCst)
    }
}

/// Whether the channel at a place is woken by the one at that other.
fn is_woken(place: u8, other: u8) -> bool
    ensures yes { result ≡ true → place ≢ other }
    ensures no { result ≡ false → place ≡ other }
{
    place != other
}
