//! The kernels that are ending, and who waits for their ends.
ghost use Rattle.std.specs.Prelude.{◌≡◌, ◌==◌, ◌<◌, ◌≤◌, [], length, true, false, OnOk, OnErr, None, Some, IfSome, IfNone};
ghost use Rattle.js_desk.specs.Endings as spec;

use json_form::Text;
use std::alloc::{AllocError, Global};
use std::marker::Model;
use std::mem;
use std::time::{Clock, Duration, Instant};

/// After how many seconds those who wait for a kernel's end are answered, whether it has ended or not.
const PATIENCE: u64 = 5;

/// A kernel that was told to shut down, or was shut down, and whose recorder was not told all that it shows.
#[derive(Drop)]
pub struct Ending<W: Drop> {
    /// Its identifier.
    kernel: Text,
    /// When somebody began to wait for it.
    begun: Option<Instant>,
    /// Who waits for its end.
    waiters: Vec<W>,
}

impl<W: Drop> Model for Ending<W> {
    ghost use Rattle.js_desk.specs.Rows.{Row};

    ghost Value = { Row W };

    ghost view = { λ e. record { kernel = e.kernel; waiters = e.waiters.items } };
}

/// The kernels that are ending, in the order in which they began to.
#[derive(Drop)]
pub struct Endings<W: Drop> {
    rows: Vec<Ending<W>>,
}

impl<W: Drop> Model for Endings<W> {
    ghost use Rattle.std.specs.Prelude.{List};
    ghost use Rattle.js_desk.specs.Rows.{Row};

    ghost Value = { List (Row W) };

    ghost view = { λ e. e.rows.items };
}

impl<W: Drop> Endings<W> {
    /// No kernel is ending.
    pub fn new(alloc: Global) -> Endings<W>
        ensures { result ≡ [] }
    {
        Endings {
            rows: Vec::new(alloc),
        }
    }

    /// Whether no kernel is ending.
    pub fn is_empty(&self) -> bool
        ensures { result ≡ (length self.now == 0) }
    {
        self.rows.is_empty()
    }

    /// How many kernels are ending.
    pub fn len(&self) -> usize
        ensures { result ≡ length self.now }
    {
        self.rows.len()
    }

    /// The kernel in a row.
    pub fn kernel(&self, place: usize) -> Option<&Text> {
        match self.rows.get(place) {
            Some(row) => Some(&row.kernel),
            None => None,
        }
    }

    /// Whether a kernel is ending.
    pub fn has(&self, kernel: &str) -> bool
        ensures { result ≡ spec.has kernel.now self.now }
    {
        self.rows
            .iter()
            .any(|ending| ending.kernel.as_str() == kernel)
    }

    fn add(&mut self, alloc: Global, kernel: Text) -> Result<(), AllocError>
        ensures ok { OnOk result (spec.Begins kernel self.old self.new) }
        ensures err { OnErr result (self.new ≡ self.old) }
    {
        self.rows.reserve(1)?;
        self.rows.push_reserved(Ending {
            kernel,
            begun: None,
            waiters: Vec::new(alloc),
        });
        Ok(())
    }

    /// A kernel ends, and nobody waits for it yet. One that is ending already stays as it is.
    ///
    /// # Errors
    /// Where there is no memory. Nothing has changed.
    pub fn begin(&mut self, alloc: Global, kernel: &str) -> Result<(), AllocError>
        ensures there { spec.has kernel.now self.old ≡ true → self.new ≡ self.old }
        ensures new { spec.has kernel.now self.old ≡ false
            → OnOk result (spec.Begins kernel.now self.old self.new) }
        ensures err { OnErr result (self.new ≡ self.old) }
    {
        if self.has(kernel) {
            return Ok(());
        }
        let kernel = Text::from_str(alloc, kernel)?;
        self.add(alloc, kernel)
    }

    fn place_of(&self, kernel: &str) -> Option<usize>
        ensures { IfSome result (λ place. spec.IsAt kernel.now place self.now) }
    {
        self.rows
            .iter()
            .position(|ending| ending.kernel.as_str() == kernel)
    }

    /// One more waits for the end of a kernel that is ending, from now on. Where the kernel is not ending, or there is no memory, it
    /// comes back, and nothing has changed.
    pub fn join(&mut self, kernel: &str, waiter: W, now: Option<Instant>) -> Option<W>
        ensures joins { result ≡ None → spec.Joins kernel.now waiter self.old self.new }
        ensures back { IfSome result (λ back. (back ≡ waiter) × (self.new ≡ self.old)) }
    {
        let Some(place) = self.place_of(kernel) else {
            return Some(waiter);
        };
        self.join_at(place, waiter, now)
    }

    fn join_at(&mut self, place: usize, waiter: W, now: Option<Instant>) -> Option<W>
        requires { place < length self.old }
        ensures joins { result ≡ None → spec.JoinsAt place waiter self.old self.new }
        ensures back { IfSome result (λ back. (back ≡ waiter) × (self.new ≡ self.old)) }
    {
        self.rows[place].add(waiter, now)
    }

    /// Those who wait for the kernel in a row are given back, in the order in which they came, and wait no more. The kernel is ending
    /// still. There is no answer where there is no such row.
    pub fn let_go(&mut self, alloc: Global, place: usize) -> Option<Vec<W>>
        ensures some { IfSome result (λ waiters. spec.LetsGo place waiters.items self.old self.new) }
        ensures none { result ≡ None → (length self.old ≤ place) × (self.new ≡ self.old) }
    {
        if place >= self.rows.len() {
            return None;
        }
        Some(mem::replace(&mut self.rows[place].waiters, Vec::new(alloc)))
    }

    /// The kernel in a row has ended: the row goes, and those who wait for it are given back. There is no answer where there is no
    /// such row.
    pub fn end(&mut self, place: usize) -> Option<Vec<W>>
        ensures some { IfSome result (λ waiters. spec.Ends place waiters.items self.old self.new) }
        ensures none { result ≡ None → (length self.old ≤ place) × (self.new ≡ self.old) }
    {
        if place >= self.rows.len() {
            return None;
        }
        let Ending {
            kernel: _,
            begun: _,
            waiters,
        } = self.rows.remove(place);
        Some(waiters)
    }

    /// Whether those who wait for the kernel in a row have waited for five seconds. Where the clock can't be read, they have.
    pub fn is_late<R: Clock>(&self, rt: &R, place: usize) -> bool {
        match self.rows.get(place) {
            Some(row) => is_over(rt, row.begun),
            None => false,
        }
    }
}

impl<W: Drop> Ending<W> {
    /// One more waits, from now on where nobody did before. Where there is no memory, it comes back.
    fn add(&mut self, waiter: W, now: Option<Instant>) -> Option<W>
        ensures joins { result ≡ None → spec.HasOneMore waiter self.old self.new }
        ensures back { IfSome result (λ back. (back ≡ waiter) × (self.new ≡ self.old)) }
    {
        if self.waiters.reserve(1).is_err() {
            return Some(waiter);
        }
        if self.waiters.is_empty() {
            self.begun = now;
        }
        self.waiters.push_reserved(waiter);
        None
    }
}

/// Whether whoever began to wait at a moment has waited for five seconds. Where the clock can't be read, they have.
pub fn is_over<R: Clock>(rt: &R, begun: Option<Instant>) -> bool {
    let Some(begun) = begun else {
        return true;
    };
    match begun.elapsed(rt) {
        Ok(passed) => passed >= Duration::from_secs(PATIENCE),
        Err(_) => true,
    }
}
