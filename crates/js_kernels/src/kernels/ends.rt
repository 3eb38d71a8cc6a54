//! The server's ends of one kernel.
ghost use Rattle.std.specs.Prelude.{◌≡◌, IfOk, MatchBool, Some, None, true};
ghost use Rattle.jk_log.specs.Asked.{sort_as};
ghost use Rattle.js_kernels.specs.Told as commands;
ghost use Rattle.js_kernels.specs.Boards.{AreOn, AreOn-prop};

use super::Unlent;
use crate::recording::Scribe;
use crate::watch::Watch;
use crossbeam_channel::Sender;
use jk_board::Follower;
use jk_language::Language;
use jk_log::What;
use js_drive::{Opened, Place, Returned, SERVER, Wakes};
use js_home::{Home, NoPlace};
use js_rest::Untold;
use js_tables::Kernel as Row;
use json_form::Text;
use std::alloc::Global;
use std::sync::Wait;

/// How many places a home has.
const PLACES: usize = 7;

/// The server's ends of one kernel. Who follows there follows the board of the kernel that takes from the home's inbox.
#[derive(Drop)]
pub(crate) struct Ends<L: Language> {
    /// Seat 0 and the places, once the kernel's thread has handed them out.
    pub(super) home: Option<Home<L>>,
    /// What wakes the kernel and its channels.
    wakes: Option<Wakes>,
    watch: Option<Watch<L>>,
    /// Whether the watch found something since the table of kernels was told.
    found: bool,
    /// The follower that a recorder of the session begins with. Once there is one, it is in `scribe`.
    recorder: Option<Follower<L>>,
    /// What is read for the recorder of the session, once there is one.
    pub(super) scribe: Option<Scribe<L>>,
    /// Where they go back once nobody follows the kernel any more.
    returned: Sender<Returned<L>>,
    ghost own: { AreOn home watch recorder scribe } by { AreOn-prop home watch recorder scribe },
}

/// What is answered to a command that was sent, or for which the inbox had no room.
fn outcome(sent: bool) -> Result<(), Untold>
    ensures { result ≡ commands.outcome sent }
{
    if sent { Ok(()) } else { Err(Untold::Full) }
}

/// Takes back all places that have come back.
fn take_all_back<L: Language, R: Wait>(rt: &R, home: Home<L>) -> Home<L>
    ensures { result.zero ≡ home.zero }
{
    let mut home = home;
    for _ in 0..PLACES {
        if !home.take_back(rt) {
            return home;
        }
    }
    home
}

impl<L: Language> Ends<L> {
    ghost use Rattle.std.specs.Prelude.{IsTrue, ◌↔◌};
    ghost use Rattle.js_kernels.specs.Hosting as spec;
    ghost use Rattle.js_kernels.specs.Readings.{BeginsReading, IsDone};

    /// Nothing came of the kernel yet.
    pub(super) fn new(returned: Sender<Returned<L>>) -> Ends<L>
        ensures { (result.home ≡ None) × (result.scribe ≡ None) }
    {
        Ends {
            home: None,
            wakes: None,
            watch: None,
            found: false,
            recorder: None,
            scribe: None,
            returned,
        }
    }

    /// Takes the ends that the kernel's thread handed out.
    pub(super) fn take(&mut self, opened: Opened<L>)
        ensures { (self.new.home ≡ Some opened.home) × (self.new.scribe ≡ None) }
    {
        let Opened {
            home,
            wakes,
            watch,
            recorder,
        } = opened;
        self.home = Some(home);
        self.wakes = Some(wakes);
        let (watch, _) = watch.pass();
        self.watch = Some(Watch::new(watch));
        self.recorder = Some(recorder);
        self.scribe = None;
    }

    /// Wakes the kernel and its channels.
    pub(super) fn wake<R: Wait>(&self, rt: &R) {
        if let Some(wakes) = &self.wakes {
            wakes.wake_all(rt, SERVER);
        }
    }

    /// Sends a message from seat 0.
    ///
    /// # Errors
    /// Where the inbox was full at one moment of the call, and where there is no home yet. Nothing was sent.
    pub(super) fn tell<R: Wait>(&mut self, rt: &R, what: What) -> Result<(), Untold>
        ensures told { spec.TellsHome (sort_as what) result (spec.home_of self.old) (spec.home_of self.new) }
        ensures scribe { self.new.scribe ≡ self.old.scribe }
    {
        let Some(home) = self.home.take() else {
            return Err(Untold::Memory);
        };
        let (home, sent) = home.tell(rt, what);
        self.home = Some(home);
        self.wake(rt);
        outcome(sent.is_ok())
    }

    /// Reads what the kernel has published.
    pub(super) fn read_on(&mut self, alloc: Global)
        ensures { (self.new.home ≡ self.old.home) × (self.new.scribe ≡ self.old.scribe) }
    {
        let Some(watch) = self.watch.take() else {
            return;
        };
        let (watch, found) = watch.read(alloc);
        self.found = self.found || found;
        self.watch = Some(watch);
    }

    /// Takes back the places that have come back.
    pub(super) fn collect<R: Wait>(&mut self, rt: &R)
        ensures home { spec.home_of self.new ≡ spec.home_of self.old }
        ensures scribe { self.new.scribe ≡ self.old.scribe }
    {
        let Some(home) = self.home.take() else {
            return;
        };
        self.home = Some(take_all_back(rt, home));
    }

    /// Reads what the kernel has published, and takes back the places that have come back.
    pub(super) fn follow<R: Wait>(&mut self, rt: &R, alloc: Global)
        ensures home { spec.home_of self.new ≡ spec.home_of self.old }
        ensures scribe { self.new.scribe ≡ self.old.scribe }
    {
        self.read_on(alloc);
        self.collect(rt);
    }

    /// Whether the kernel was shut down, not to start again.
    pub(super) fn has_ended(&self) -> bool {
        match &self.watch {
            Some(watch) => watch.ended,
            None => false,
        }
    }

    /// How many places are lent.
    pub(super) fn lent(&self) -> usize {
        match &self.home {
            Some(home) => home.lent(),
            None => 0,
        }
    }

    /// Whether the kernel was shut down, no place of it is lent, and nothing is read for a recorder.
    pub(super) fn is_left(&self) -> bool
        ensures { result ≡ true → self.now.scribe ≡ None }
    {
        self.has_ended() && self.lent() == 0 && self.scribe.is_none()
    }

    /// Whether nothing is read for a recorder; or that was told all that the kernel will ever show, and then its save was tried, or
    /// none was due.
    pub(super) fn is_read(&self) -> bool
        ensures { IsTrue result ↔ IsDone (spec.reading_of self.now) }
    {
        match &self.scribe {
            Some(scribe) => scribe.is_over(),
            None => true,
        }
    }

    /// Begins to read for a recorder, after what was shown before it was there. It says whether it began now; where there is no
    /// memory, it begins later. A reading that is under way stays.
    pub(super) fn begin_reading(&mut self, alloc: Global) -> bool
        ensures home { self.new.home ≡ self.old.home }
        ensures reading { MatchBool result (BeginsReading (spec.reading_of self.old) (spec.reading_of self.new)) (self.new.scribe ≡ self.old.scribe) }
    {
        if self.scribe.is_some() {
            return false;
        }
        let Some(follower) = self.recorder.take() else {
            return false;
        };
        let (follower, passed) = follower.pass();
        if passed.is_err() {
            self.recorder = Some(follower);
            return false;
        }
        self.scribe = Some(Scribe::new(alloc, follower));
        true
    }

    /// Reads for a recorder no more. The follower rests, so that the kernel does not wait for it.
    pub(super) fn end_reading(&mut self)
        ensures { (self.new.home ≡ self.old.home) × (self.new.scribe ≡ None) }
    {
        if let Some(scribe) = self.scribe.take() {
            scribe.follower.rest();
        }
    }

    /// Lends a place.
    ///
    /// # Errors
    /// Where the kernel has ended, where no place is free, and where memory is refused.
    pub(super) fn lend<R: Wait>(&mut self, rt: &R, alloc: Global) -> Result<Place<L>, Unlent>
        ensures same { spec.home_of self.new ≡ spec.home_of self.old }
        ensures scribe { self.new.scribe ≡ self.old.scribe }
        ensures place { IfOk result (spec.IsPlaceOf (spec.home_of self.old)) }
    {
        if self.has_ended() {
            return Err(Unlent::Ended);
        }
        let Some(wakes) = &self.wakes else {
            return Err(Unlent::Full);
        };
        let Ok(wakes) = wakes.another() else {
            return Err(Unlent::Memory);
        };
        let Some(mut home) = self.home.take() else {
            return Err(Unlent::Full);
        };
        let lent = home.lend(rt, alloc);
        self.home = Some(home);
        match lent {
            Ok(lent) => Ok(Place { lent, wakes }),
            Err(NoPlace::Lent) => Err(Unlent::Full),
            Err(NoPlace::Memory) => Err(Unlent::Memory),
        }
    }

    /// Gives the ends back to the kernel's thread, where no place is lent.
    pub(super) fn give_back<R: Wait>(self, rt: &R) {
        let Ends {
            home,
            wakes: _,
            watch,
            found: _,
            recorder,
            scribe: _,
            returned,
        } = self;
        let Some(home) = home else {
            return;
        };
        let watch = match watch {
            Some(watch) => Some(watch.follower),
            None => None,
        };
        if home.lent() == 0 {
            let _ = returned.send(
                rt,
                Returned {
                    home,
                    watch,
                    recorder,
                },
            );
        }
    }

    /// Tells the kernel's row in the table what was found.
    pub(super) fn note(&mut self, row: &mut Row, date: &Text)
        ensures { (self.new.home ≡ self.old.home) × (self.new.scribe ≡ self.old.scribe) }
    {
        row.connections = self.lent() as u64;
        if let Some(watch) = &self.watch {
            row.state = watch.state;
        }
        if self.found {
            if let Ok(date) = date.copy() {
                row.last_activity = date;
                self.found = false;
            }
        }
    }
}
