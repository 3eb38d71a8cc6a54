//! What kernels show, read for their recorders.
ghost use Rattle.std.specs.Prelude.{◌≡◌};

use super::Desk;
use crate::concern::is_within;
use crate::job::Job;
use crate::pulse::Round;
use crossbeam_channel::unbounded;
use jk_language::Language;
use js_call::date_now;
use js_kernels::Found;
use js_shelf::Shelf;
use json_form::Text;
use std::alloc::Global;
use std::random::RandomSource;
use std::sync::Wait;
use std::time::Clock;

/// How often a kernel's follower is read before a request on its notebook is answered, at most: 262,144 entries.
const READS: u32 = 4_096;

/// How many calls are taken between two recorders, at most.
const CALLS: u32 = 64;

impl<L, R, S> Desk<L, R, S>
where
    L: Language,
    R: Wait + Clock + RandomSource + Copy + Drop,
    S: Shelf + Drop,
{
    /// Lets the recorder of a kernel follow what the kernel has shown, by one read, and tries its save where that is due. It says
    /// what was found.
    fn follow_once(&mut self, kernel: &str, date: &Text, saves: bool) -> Found
        ensures { self.new.clients ≡ self.old.clients }
    {
        self.manager.running.record(
            kernel,
            &mut self.manager.tables,
            &mut self.shelf,
            date,
            saves,
        )
    }

    /// Lets the recorder of a kernel follow all that the kernel has shown, by `reads` reads at most, and tries its save where that is
    /// due.
    pub(super) fn catch_up(&mut self, kernel: &str, date: &Text, reads: u32)
        ensures { self.new.clients ≡ self.old.clients }
    {
        for _ in 0..reads {
            if self.follow_once(kernel, date, true) != Found::More {
                return;
            }
        }
    }

    /// Lets the recorders follow whose notebooks are at a path or below it.
    pub(super) fn catch_up_at(&mut self, path: &str, date: &Text)
        ensures { self.new.clients ≡ self.old.clients }
    {
        for place in 0..self.manager.tables.kernels.len() {
            if let Some(id) = self.kernel_within(place, path) {
                self.catch_up(id.as_str(), date, READS);
            }
        }
    }

    /// The kernel in a row, where the path of its session is this or below it.
    fn kernel_within(&self, place: usize, path: &str) -> Option<Text> {
        let kernel = self.manager.tables.kernels.get(place)?;
        let session = kernel.session.as_ref()?;
        if !is_within(session.path.as_str(), path) {
            return None;
        }
        kernel.id.copy().ok()
    }

    /// Reads what kernels have published, and begins to let each recorder read on, unless that is under way.
    pub(super) fn beat(&mut self) {
        self.beats = true;
        self.manager.running.follow();
        if self.round.is_none() {
            let found = if self.manager.tables.kernels.is_empty() {
                Found::NoKernel
            } else {
                Found::Nothing
            };
            self.round = Some(Round::new(self.rhythm.is_time_to_save(), found));
        }
    }

    /// Takes a call that has come, or else lets the next recorder read on. So a call waits for the save of one recorder, and not
    /// for those of all.
    pub(super) fn go_on(&mut self, round: Round) -> Option<Job<L>> {
        if round.calls < CALLS {
            if let Ok(call) = self.calls.try_recv(&self.rt) {
                self.round = Some(round.after_call());
                return self.take(call);
            }
        }
        match date_now(&self.rt, self.alloc) {
            Some(date) => self.follow_next(round, &date),
            None => self.pause_after(Found::Nothing),
        }
        None
    }

    /// One read for the next recorder. After the last one, ends what has ended.
    fn follow_next(&mut self, round: Round, date: &Text) {
        if round.place >= self.manager.tables.recordings.len() {
            self.end_ended(date);
            let found = self.or_ending(round.found);
            self.pause_after(found);
            return;
        }
        let found = match self.recorded_kernel(round.place) {
            Some(kernel) => self.follow_once(kernel.as_str(), date, round.saves),
            None => Found::Nothing,
        };
        self.round = Some(round.after(found));
    }

    /// What was found, or that a kernel is ending where that is more urgent.
    fn or_ending(&self, found: Found) -> Found {
        if self.clients.endings().is_empty() {
            found
        } else {
            found.or(Found::Ending)
        }
    }

    /// Says when the next call is due.
    fn pause_after(&mut self, found: Found) {
        let pause = self.rhythm.next(found);
        self.ring(pause);
    }

    /// One read for each recorder. Ends what has ended.
    pub(super) fn follow_all(&mut self, date: &Text) {
        let saves = self.rhythm.is_time_to_save();
        for place in 0..self.manager.tables.recordings.len() {
            if let Some(kernel) = self.recorded_kernel(place) {
                self.follow_once(kernel.as_str(), date, saves);
            }
        }
        self.end_ended(date);
    }

    /// Says how long the thread that calls for recorders pauses. Where it is not there, it is started.
    pub(super) fn ring(&mut self, pause: u64)
        ensures { self.new.clients ≡ self.old.clients }
    {
        if let Some(pauses) = &self.pauses {
            if pauses.send(&self.rt, pause).is_ok() {
                return;
            }
        }
        self.pauses = None;
        self.beats = false;
        let _ = self.add_pulse(pause);
    }

    /// Adds the job of the thread that calls for recorders. `None` where memory is refused: then there is no such thread, and the
    /// next request with something to record tries again.
    fn add_pulse(&mut self, pause: u64) -> Option<()>
        ensures { self.new.clients ≡ self.old.clients }
    {
        let calls = self.sender.clone().ok()?;
        let (sender, receiver) = unbounded::<u64, Global>(self.alloc).ok()?;
        sender.send(&self.rt, pause).ok()?;
        self.jobs.push(Job::Pulse(calls, receiver)).ok()?;
        self.pauses = Some(sender);
        Some(())
    }

    /// Begins to read for each recorder that is new, after what was shown before, and ends that for those that are gone.
    pub(super) fn start_recorders(&mut self)
        ensures { self.new.clients ≡ self.old.clients }
    {
        self.manager.running.end_readings(&self.manager.tables);
        let mut begun = false;
        for place in 0..self.manager.tables.recordings.len() {
            if let Some(kernel) = self.recorded_kernel(place) {
                begun = self.manager.running.begin_reading(kernel.as_str()) || begun;
            }
        }
        if begun || (!self.manager.tables.recordings.is_empty() && !self.beats) {
            self.ring(0);
        }
    }

    /// The identifier of the kernel of a recorder.
    fn recorded_kernel(&self, place: usize) -> Option<Text> {
        let recording = self.manager.tables.recordings.get(place)?;
        recording.kernel.copy().ok()
    }
}
