//! Kernels that end: who waits for that, and the rows that go.
ghost use Rattle.std.specs.Prelude.{◌≡◌, ℕ, false, List, IfSome};
ghost use Rattle.js_http.specs.declared.method.Method.TheVariants.{Delete};
ghost use Rattle.js_call.specs.Asking.{asks, WantsEnd};
ghost use Rattle.js_serve.specs.Ends.{MayGo};
ghost use Rattle.js_tables.specs.Tables.{rows};
ghost use Rattle.js_kernels.specs.Readings.{IsRead};
ghost use Rattle.js_serve.specs.declared.desk.ends.Delay.TheVariants.{Join};

use super::Desk;
use crate::concern::{Concern, id_in, is_within};
use crate::pulse::QUICK;
use jk_language::Language;
use js_http::{ErrorStatus, Method};
use js_rest::ReadRequest;
use js_shelf::Shelf;
use js_tables::{Kernel, Update, find_by_session, find_kernel};
use json_form::Text;
use std::random::RandomSource;
use std::sync::Wait;
use std::time::{Clock, Instant};

/// How often the follower of a kernel that is ending is read between two other calls, at most.
const FEW_READS: u32 = 64;

/// Whether a request has to wait for a kernel that is ending.
#[derive(Drop)]
pub(super) enum Delay {
    No,
    /// As one that ends that kernel.
    Join(Text),
    /// Until it has ended.
    Hold,
}

impl<L, R, S> Desk<L, R, S>
where
    L: Language,
    R: Wait + Clock + RandomSource + Copy + Drop,
    S: Shelf + Drop,
{
    /// Ends the kernels whose recorders were told all that they show, and whose saves were tried then. Those who have waited long
    /// enough for another are answered.
    pub(super) fn end_ended(&mut self, date: &Text) {
        for place in (0..self.clients.endings().len()).rev() {
            let Some(kernel) = self.ending_at(place) else {
                continue;
            };
            self.catch_up(kernel.as_str(), date, FEW_READS);
            if self.manager.running.is_read(kernel.as_str()) {
                self.end_at(place, kernel);
            } else if self.clients.endings().is_late(&self.rt, place) {
                self.clients.let_go(&self.rt, self.alloc, place);
            }
        }
    }

    /// The kernel that is ending in a row.
    fn ending_at(&self, place: usize) -> Option<Text> {
        self.clients.endings().kernel(place)?.copy().ok()
    }

    /// The kernel that is ending in a row goes, with its recorder, and those who wait for that are answered. All that it shows was
    /// told to that recorder, and then its save was tried, or none was due; or nothing is read for it.
    fn end_at(&mut self, place: usize, kernel: Text)
        requires { IsRead kernel self.old.manager.running }
    {
        self.manager.running.end_reading(kernel.as_str());
        if !self.drop_row(kernel) {
            return;
        }
        self.clients.end(&self.rt, place);
        self.clients.look_again();
        self.manager.running.follow();
        self.manager.running.drop_left();
    }

    /// The kernel of that identifier was told to shut down. The reply waits until its recorder was told all that it shows.
    pub(super) fn end_later(&mut self, id: &str)
        requires { IfSome self.old.clients.turn WantsEnd }
    {
        let _ = self.clients.begin_end(self.alloc, id);
        let now = Instant::now(&self.rt).ok();
        if !self.clients.join(id, now) {
            self.refuse(ErrorStatus::InternalServerError);
        }
        self.ring(QUICK);
    }

    /// Whether a request has to wait for a kernel that is ending. Only a DELETE waits as one that ends it.
    pub(super) fn turn_of(&self, method: Method, concern: &Concern) -> Delay
        ensures { (id : List ℕ) → result ≡ Join id → method ≡ Delete }
    {
        if self.clients.endings().is_empty() {
            return Delay::No;
        }
        let kernels = &self.manager.tables.kernels;
        match concern {
            Concern::Other => Delay::No,
            Concern::Kernel(segments) => self.turn_at(
                method,
                find_kernel(kernels, id_in(segments)),
            ),
            Concern::Session(segments) => {
                self.turn_at(method, find_by_session(kernels, id_in(segments)))
            }
            Concern::File(path) => {
                if self.is_ending_within(path.as_str()) {
                    Delay::Hold
                } else {
                    Delay::No
                }
            }
            Concern::Paths => Delay::Hold,
        }
    }

    fn turn_at(&self, method: Method, kernel: Option<&Kernel>) -> Delay
        ensures { (id : List ℕ) → result ≡ Join id → method ≡ Delete }
    {
        let Some(kernel) = kernel else {
            return Delay::No;
        };
        if !self.clients.endings().has(kernel.id.as_str()) {
            return Delay::No;
        }
        let Ok(id) = kernel.id.copy() else {
            return Delay::Hold;
        };
        match method {
            Method::Delete => Delay::Join(id),
            _ => Delay::Hold,
        }
    }

    /// Whether a kernel is ending whose session's path is this or below it.
    fn is_ending_within(&self, path: &str) -> bool {
        for kernel in &self.manager.tables.kernels {
            if self.is_ending_at(kernel, path) {
                return true;
            }
        }
        false
    }

    /// Whether a kernel is ending, and the path of its session is this or below it.
    fn is_ending_at(&self, kernel: &Kernel, path: &str) -> bool {
        match &kernel.session {
            Some(session) => {
                self.clients.endings().has(kernel.id.as_str())
                    && is_within(session.path.as_str(), path)
            }
            None => false,
        }
    }

    /// Lets a request wait for a kernel that is ending.
    pub(super) fn hold(&mut self, request: ReadRequest)
        requires { IfSome self.old.clients.turn (asks request) }
    {
        if !self.clients.hold(request) {
            self.refuse(ErrorStatus::InternalServerError);
        }
    }

    /// Notes in the tables what the kernels have published. A kernel that was shut down is gone.
    pub(super) fn look(&mut self, date: &Text)
        ensures { self.new.clients.turn ≡ self.old.clients.turn }
    {
        self.note_all(date);
        self.drop_ended();
        self.manager.running.drop_left();
    }

    fn note_all(&mut self, date: &Text)
        ensures { self.new.clients ≡ self.old.clients }
    {
        self.manager.running.follow();
        for place in 0..self.manager.tables.kernels.len() {
            if let Some(row) = self.manager.tables.kernels.get_mut(place) {
                self.manager.running.note(row, date);
            }
        }
    }

    /// Drops the rows of the kernels that were shut down or are gone. One with a recorder stays until that was told all that it shows.
    fn drop_ended(&mut self)
        ensures { self.new.clients.turn ≡ self.old.clients.turn }
    {
        for place in (0..self.manager.tables.kernels.len()).rev() {
            if let Some(id) = self.ended_at(place) {
                self.drop_or_end(id);
            }
        }
    }

    /// Drops the row of a kernel that was shut down or is gone, or begins to end it where it has a recorder.
    fn drop_or_end(&mut self, id: Text)
        ensures { self.new.clients.turn ≡ self.old.clients.turn }
    {
        if !self.is_recorded(id.as_str()) {
            let _ = self.drop_row(id);
            return;
        }
        if self.clients.begin_end(self.alloc, id.as_str()).is_ok() {
            self.ring(QUICK);
        }
    }

    /// Whether something is still read for the recorder of a kernel.
    pub(super) fn is_recorded(&self, id: &str) -> bool
        ensures { result ≡ false → MayGo id.now (rows self.now.manager.tables) self.now.manager.running }
    {
        self.manager.tables.has_recorder(id) && self.manager.running.is_there(id)
    }

    /// The identifier of the kernel in a row that was shut down or is gone, and is not ending already.
    fn ended_at(&self, place: usize) -> Option<Text> {
        let id = self.manager.tables.kernels.get(place)?.id.copy().ok()?;
        if self.clients.endings().has(id.as_str()) || !self.manager.running.has_ended(id.as_str()) {
            return None;
        }
        Some(id)
    }

    /// Drops the row of a kernel, and its recorder. It says whether there was memory for that.
    pub(super) fn drop_row(&mut self, id: Text) -> bool
        requires { MayGo id (rows self.old.manager.tables) self.old.manager.running }
        ensures { self.new.clients ≡ self.old.clients }
    {
        if self.manager.tables.make_room().is_err() {
            return false;
        }
        self.manager.tables.update(Update::DropKernel(id));
        true
    }
}
