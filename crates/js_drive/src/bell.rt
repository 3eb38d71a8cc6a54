//! The rests of threads that look for something to do, and the bells that end them.
ghost use Rattle.std.specs.Prelude.{◌≡◌, ◌+◌, ◌<◌, ◌≤◌, true, false};

use crate::wakes::{SERVER, Wakes};
use jk_run::Following;
use std::alloc::{AllocError, Global};
use std::cell::Cell;
use std::io;
use std::sync::{Arc, Wait};
use std::thread::Parker;
use std::time::{Clock, Duration};

/// How many microseconds a sleep of a driver has at most that was busy just now.
const SHORT: u64 = 100;

/// For how many microseconds a driver sleeps at least between two times that it wakes its parsers.
const BETWEEN: u64 = 1_000;

/// How many microseconds the sleep of a thread has that has found nothing to do for long. It rests for longer then, since its
/// bell is rung where there is something.
const LONG: u64 = 30_000;

const REST: u64 = 1_000_000;

/// A driver waits for channels that have read something in parts of this many microseconds, `PARTS` of them at most.
const PART: u64 = 200;

const PARTS: u64 = 100;

/// How many microseconds pass at least between two times that a driver wakes its channels. One that was woken looks for something new
/// for longer than that.
const AGAIN: u64 = 20_000;

/// A bell. One thread rests by it, and others ring it.
#[derive(Drop)]
pub struct Bell {
    parker: Arc<Parker, Global>,
}

impl Bell {
    pub(crate) fn new(alloc: Global) -> Result<Bell, AllocError> {
        Ok(Bell {
            parker: Arc::new(alloc, Parker::new())?,
        })
    }

    /// The same bell, for another thread.
    pub(crate) fn another(&self) -> Result<Bell, AllocError> {
        Ok(Bell {
            parker: Arc::try_clone(&self.parker)?,
        })
    }

    /// Ends the rest of the thread that rests by it, or its next one.
    pub fn ring(&self) {
        self.parker.unpark();
    }

    /// Rests until it is rung, `longest` at most.
    fn rest<R: Wait>(&self, rt: &R, longest: Duration) {
        self.parker.park_timeout(rt, longest);
    }

    /// Sleeps until it is rung, where a thread asks for a sleep of `micros` microseconds.
    fn sleep<R: Wait>(&self, rt: &R, micros: u64) {
        self.rest(rt, Duration::from_micros(rest_for(micros)));
    }
}

/// How many microseconds a thread rests at most that asks for a sleep of `micros`.
fn rest_for(micros: u64) -> u64
    ensures short { micros < 30000 → result ≡ micros }
    ensures long { 30000 ≤ micros → result ≡ 1000000 }
{
    if micros < LONG { micros } else { REST }
}

/// The microseconds of a sleep.
fn micros_of(duration: Duration) -> u64 {
    u64::try_from(duration.as_micros()).unwrap_or(u64::MAX)
}

/// The handle of a thread whose sleeps end where its bell is rung.
#[derive(Drop)]
pub(crate) struct Belled<'b, R> {
    pub(crate) rt: &'b R,
    pub(crate) bell: &'b Bell,
}

impl<R: Wait> Wait for Belled<'_, R> {}

impl<R: Wait + Clock> Clock for Belled<'_, R> {
    fn monotonic(&self) -> io::Result<Duration> {
        self.rt.monotonic()
    }

    fn since_1970(&self) -> io::Result<Duration> {
        self.rt.since_1970()
    }

    fn sleep(&self, duration: Duration) {
        self.bell.sleep(self.rt, micros_of(duration));
    }
}

/// The handle of a driver. Its sleeps end where its bell is rung, and not while a channel has read something that is not submitted
/// yet. A driver that has just done something sleeps shortly; before such a sleep it rings the bells of its parsers, which may have
/// been given a job. Its channels are woken where it has shown something, since they may have gone to rest in a long round.
#[derive(Drop)]
pub(crate) struct Driving<'b, R> {
    pub(crate) rt: &'b R,
    pub(crate) wakes: &'b Wakes,
    pub(crate) parsers: &'b [Bell],
    /// How many microseconds it has slept since it rang.
    pub(crate) slept: Cell<u64>,
    /// When it woke its channels last, in microseconds of the clock.
    pub(crate) woke: Cell<u64>,
}

impl<R> Driving<'_, R> {
    /// Rings the bells of all parsers.
    pub(crate) fn ring_parsers(&self) {
        for bell in self.parsers {
            bell.ring();
        }
    }

    /// Rings the bells of the parsers where that is due before a sleep of `sleep` microseconds.
    fn ring_before(&self, sleep: u64) {
        let slept = self.slept.get();
        if is_due(slept, sleep) {
            self.ring_parsers();
            self.slept.set(0);
        } else {
            self.slept.set(slept.saturating_add(sleep));
        }
    }
}

/// Whether a driver wakes its parsers before a sleep, where `slept` microseconds were slept since it did.
fn is_due(slept: u64, sleep: u64) -> bool
    ensures due { result ≡ true → (sleep ≤ 100) × (1000 ≤ slept) }
    ensures late { result ≡ false → sleep ≤ 100 → slept + 1 ≤ 1000 }
{
    sleep <= SHORT && slept >= BETWEEN
}

impl<R: Wait> Driving<'_, R> {
    /// Waits while a channel has read something that is not submitted yet, for some 20 milliseconds at most.
    fn wait_for_channels(&self) {
        for _ in 0..PARTS {
            if !self.wakes.channels.are_reading() {
                return;
            }
            self.wakes.driver.rest(self.rt, Duration::from_micros(PART));
        }
    }
}

/// Whether a driver wakes its channels at the microsecond `now` that woke them last at `woke`.
fn is_again(woke: u64, now: u64) -> bool
    ensures again { result ≡ true → woke + 20000 ≤ now }
    ensures soon { result ≡ false → now < woke + 20000 }
{
    now.saturating_sub(woke) >= AGAIN
}

impl<R: Wait + Clock> Following for Driving<'_, R> {
    fn shown(&self) {
        let Ok(now) = self.rt.monotonic() else {
            self.wakes.channels.wake(self.rt, SERVER);
            return;
        };
        let now = micros_of(now);
        if is_again(self.woke.get(), now) {
            self.woke.set(now);
            self.wakes.channels.wake(self.rt, SERVER);
        }
    }
}

impl<R: Wait> Wait for Driving<'_, R> {}

impl<R: Wait + Clock> Clock for Driving<'_, R> {
    fn monotonic(&self) -> io::Result<Duration> {
        self.rt.monotonic()
    }

    fn since_1970(&self) -> io::Result<Duration> {
        self.rt.since_1970()
    }

    fn sleep(&self, duration: Duration) {
        let micros = micros_of(duration);
        self.ring_before(micros);
        self.wakes.driver.sleep(self.rt, micros);
        self.wait_for_channels();
    }
}
