//! The kernels that run, as the desk holds them.
ghost use Rattle.std.specs.Prelude.{◌≡◌, [], IfOk, MatchBool, true, position};
ghost use Rattle.std.specs.Str.{bytes_eq};

use crate::found::Found;
use crossbeam_channel::{Receiver, bounded};
use jk_language::Language;
use js_drive::{Opened, Opening, Place};
use js_rest::{Running, Untold};
use js_shelf::Shelf;
use js_tables::{Command, Kernel as Row, Tables};
use json_form::Text;
use std::alloc::{AllocError, Global};
use std::marker::Model;
use std::sync::Wait;

mod commands;
mod ends;
mod hosted;

use commands::message_of;
use ends::Ends;
use hosted::Hosted;

/// A kernel that is to be made, and where its ends will come.
#[derive(Drop)]
pub struct Unopened<L: Language> {
    pub opening: Opening<L>,
    pub opened: Receiver<Opened<L>>,
}

/// Why no place at a kernel is lent.
#[derive(Clone, Copy)]
pub enum Unlent {
    /// The kernel was shut down, or is not there.
    Ended,
    /// All places are lent, or the kernel's thread has not handed them out yet.
    Full,
    /// Memory is refused.
    Memory,
}

/// The kernels that run. Contracts see of each its identifier, what seat 0 has told it, and what is read for its recorder. A list of
/// events led to them from no kernels; `server_law` says what that means for each.
#[derive(Drop)]
pub struct Kernels<R: Drop, L: Language> {
    rt: R,
    alloc: Global,
    hosted: Vec<Hosted<L>>,
    unopened: Option<Unopened<L>>,
}

impl<R: Drop, L: Language> Model for Kernels<R, L> {
    ghost use Rattle.std.specs.Prelude.{List};
    ghost use Rattle.js_kernels.specs.Told.{KernelState};

    ghost Value = { List KernelState };

    ghost use Rattle.std.specs.Coded.{codes};
    ghost use Rattle.json_form.specs.contracts.kept.Json as json;

    ghost coded = { Prim.hlevel (codes, json.the_row.coded) };

    ghost use Rattle.js_kernels.specs.Hosting.{states_of};

    ghost view = { λ kernels. states_of kernels.hosted.items };

    ghost use Rattle.js_kernels.specs.Events.{IsReached};

    ghost invariant = { λ kernels. IsReached L L.Session L.Tree L.Machine (states_of kernels.hosted.items) };
}

/// The place of the first kernel of that identifier.
fn place_of<L: Language>(hosted: &[Hosted<L>], id: &str) -> Option<usize>
    ensures { result ≡ position (λ k. bytes_eq k.id id.now) hosted.now }
{
    hosted.iter().position(|known| known.id.as_str() == id)
}

impl<R: Wait + Drop, L: Language> Running for Kernels<R, L> {
    ghost use Rattle.js_kernels.specs.Told.{Begins, Tells};

    ghost begins = { Begins };

    ghost tells = { Tells };

    fn begin(&mut self, id: &str) -> Result<(), AllocError> {
        let id = Text::from_str(self.alloc, id)?;
        self.hosted.reserve(1)?;
        let (sender, receiver) = bounded(self.alloc, 1)?;
        let (back, returned) = bounded(self.alloc, 1)?;
        let ends = Ends::new(back);
        self.hosted.push_reserved(Hosted { id, ends });
        self.unopened = Some(Unopened {
            opening: Opening {
                opened: sender,
                returned,
            },
            opened: receiver,
        });
        Ok(())
    }

    fn tell(&mut self, id: &str, command: Command) -> Result<(), Untold> {
        let Some(what) = message_of(self.alloc, command) else {
            return Err(Untold::Memory);
        };
        let Some(place) = place_of(self.hosted.as_slice(), id) else {
            return Err(Untold::Memory);
        };
        self.hosted[place].ends.tell(&self.rt, what)
    }
}

impl<R: Wait + Drop, L: Language> Kernels<R, L> {
    ghost use Rattle.js_kernels.specs.Hosting as spec;
    ghost use Rattle.std.specs.Prelude.{◌⊎◌, ◌↔◌, ℕ, Err, IsTrue, is_some, map};
    ghost use Rattle.js_kernels.specs.Readings.{BeginsReading, ChangesReading, EndsHaveCome, EndsReading, HaveGone, IsRead, LastHasGone, ReadsOn, if_recorded};
    ghost use Rattle.js_kernels.specs.Recording.{RecordsAt};
    ghost use Rattle.js_kernels.specs.Told.{place_in};
    ghost use Rattle.js_kernels.specs.declared.kernels.Unlent.TheVariants.{Ended};
    ghost use Rattle.js_tables.specs.Tables.{rows};

    /// No kernels.
    pub fn new(rt: R, alloc: Global) -> Kernels<R, L>
        ensures { result ≡ [] }
    {
        Kernels {
            rt,
            alloc,
            hosted: Vec::new(alloc),
            unopened: None,
        }
    }

    /// Whether no kernel is there.
    pub fn is_empty(&self) -> bool {
        self.hosted.is_empty()
    }

    /// The kernel that was made last, where its thread was not given out yet.
    pub fn take_unopened(&mut self) -> Option<Unopened<L>>
        ensures { self.new ≡ self.old }
    {
        self.unopened.take()
    }

    /// Takes the ends of the kernel that was made last, where none of it have come yet.
    pub fn take_ends(&mut self, opened: Opened<L>)
        ensures { EndsHaveCome (spec.state_of opened.home) self.old self.new }
    {
        let count = self.hosted.len();
        if count == 0 {
            return;
        }
        if self.hosted[count - 1].ends.home.is_some() {
            return;
        }
        self.hosted[count - 1].ends.take(opened);
    }

    /// Lets go of the kernel that was made last, where its ends have not come yet.
    pub fn drop_last(&mut self)
        ensures { LastHasGone self.old self.new }
    {
        let count = self.hosted.len();
        if count == 0 {
            return;
        }
        if self.hosted[count - 1].ends.home.is_some() {
            return;
        }
        let _ = self.hosted.pop();
    }

    /// Reads what each kernel has published, and takes back the places that have come back.
    pub fn follow(&mut self)
        ensures { self.new ≡ self.old }
    {
        for place in 0..self.hosted.len() {
            self.hosted[place].ends.follow(&self.rt, self.alloc);
        }
    }

    /// Lends a place at a kernel.
    ///
    /// # Errors
    /// Where the kernel has ended or is not there, where no place is free, and where memory is refused.
    pub fn take_place(&mut self, id: &str) -> Result<Place<L>, Unlent>
        ensures same { self.new ≡ self.old }
        ensures place { IfOk result (spec.IsPlaceAt id.now self.old) }
        ensures gone { place_in id.now self.old ≡ None → result ≡ Err Ended }
    {
        let Some(place) = place_of(self.hosted.as_slice(), id) else {
            return Err(Unlent::Ended);
        };
        self.hosted[place].ends.lend(&self.rt, self.alloc)
    }

    /// Begins to read for the recorder of a kernel, after what was shown before it was there. It says whether it began now.
    pub fn begin_reading(&mut self, id: &str) -> bool
        ensures { MatchBool result (ChangesReading BeginsReading id.now self.old self.new) (self.new ≡ self.old) }
    {
        match place_of(self.hosted.as_slice(), id) {
            Some(place) => self.hosted[place].ends.begin_reading(self.alloc),
            None => false,
        }
    }

    /// Lets the recorder of a kernel follow what the kernel has shown, by one read, and tries its save where that is due. It says
    /// what was found.
    pub fn record<S: Shelf>(
        &mut self,
        id: &str,
        tables: &mut Tables,
        shelf: &mut S,
        date: &Text,
        saves: bool,
    ) -> Found
        ensures reads { (self.new ≡ self.old) ⊎ ChangesReading ReadsOn id.now self.old self.new }
        ensures records { RecordsAt L L.Session L.Tree L.Machine (S.contents shelf.old) (S.contents shelf.new) (S.faults shelf.old) (S.faults shelf.new) id.now date.now self.old self.new (rows tables.old) (rows tables.new) }
    {
        let Some(place) = place_of(self.hosted.as_slice(), id) else {
            return Found::Nothing;
        };
        self.hosted[place].record(self.alloc, tables, shelf, date, saves)
    }

    /// Whether the recorder of a kernel was told all that the kernel will ever show, and then its save was tried, or none was due;
    /// or nothing is read for it.
    pub fn is_read(&self, id: &str) -> bool
        ensures { IsTrue result ↔ IsRead id.now self.now }
    {
        match place_of(self.hosted.as_slice(), id) {
            Some(place) => self.hosted[place].ends.is_read(),
            None => true,
        }
    }

    /// Whether a kernel is there.
    pub fn is_there(&self, id: &str) -> bool
        ensures { result ≡ is_some (place_in id.now self.now) }
    {
        place_of(self.hosted.as_slice(), id).is_some()
    }

    /// Reads for the recorder of a kernel no more, where that was told all that the kernel will ever show, and then its save was tried,
    /// or none was due; or where nothing is read for it.
    pub fn end_reading(&mut self, id: &str)
        requires { IsRead id.now self.old }
        ensures there { (place : ℕ) → place_in id.now self.old ≡ Some place → ChangesReading EndsReading id.now self.old self.new }
        ensures gone { place_in id.now self.old ≡ None → self.new ≡ self.old }
        ensures read { IsRead id.now self.new }
    {
        if let Some(place) = place_of(self.hosted.as_slice(), id) {
            self.hosted[place].ends.end_reading();
        }
    }

    /// Reads no more for the recorders that are gone.
    pub fn end_readings(&mut self, tables: &Tables)
        ensures { self.new ≡ map (if_recorded (rows tables.now)) self.old }
    {
        for place in 0..self.hosted.len() {
            self.hosted[place].end_unrecorded(tables);
        }
    }

    /// Whether a kernel was shut down, not to start again, or is gone.
    pub fn has_ended(&self, id: &str) -> bool {
        match place_of(self.hosted.as_slice(), id) {
            Some(place) => self.hosted[place].ends.has_ended(),
            None => true,
        }
    }

    /// Tells a kernel's row in the table what was found of it.
    pub fn note(&mut self, row: &mut Row, date: &Text)
        ensures { self.new ≡ self.old }
    {
        if let Some(place) = place_of(self.hosted.as_slice(), row.id.as_str()) {
            self.hosted[place].ends.note(row, date);
        }
    }

    /// Lets go of each kernel that was shut down and that nobody follows any more.
    pub fn drop_left(&mut self)
        ensures { HaveGone self.old self.new }
    {
        for place in (0..self.hosted.len()).rev() {
            self.drop_one(place);
        }
    }

    /// Lets go of a kernel where it was shut down and nobody follows it any more.
    fn drop_one(&mut self, place: usize)
        ensures { HaveGone self.old self.new }
    {
        if place < self.hosted.len() && self.hosted[place].ends.is_left() {
            let known = self.hosted.remove(place);
            known.ends.give_back(&self.rt);
        }
    }
}
