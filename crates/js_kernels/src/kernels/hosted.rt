//! A kernel that runs, and how its recorder follows it.
ghost use Rattle.std.specs.Prelude.{◌≡◌};

use super::ends::Ends;
use crate::found::Found;
use jk_language::Language;
use js_follow::is_due;
use js_shelf::Shelf;
use js_tables::Tables;
use json_form::Text;
use std::alloc::Global;

/// A kernel that runs: its identifier, and the server's ends of it.
#[derive(Drop)]
pub(crate) struct Hosted<L: Language> {
    pub(super) id: Text,
    pub(super) ends: Ends<L>,
}

impl<L: Language> Hosted<L> {
    ghost use Rattle.js_kernels.specs.Hosting.{kernel_of};
    ghost use Rattle.js_kernels.specs.Readings.{if_recorded};
    ghost use Rattle.js_kernels.specs.Recording.{Records};
    ghost use Rattle.js_tables.specs.Tables.{rows};

    /// Lets the recorder of the kernel follow what the kernel has shown, by one read, and tries its save where that is due. It says
    /// what was found.
    pub(super) fn record<S: Shelf>(
        &mut self,
        alloc: Global,
        tables: &mut Tables,
        shelf: &mut S,
        date: &Text,
        saves: bool,
    ) -> Found
        ensures same { (self.new.id ≡ self.old.id) × (self.new.ends.home ≡ self.old.ends.home) }
        ensures records { Records (S.contents shelf.old) (S.contents shelf.new) (S.faults shelf.old) (S.faults shelf.new) self.old.id date.now self.old.ends.scribe self.new.ends.scribe (rows tables.old) (rows tables.new) }
    {
        let Some(scribe) = self.ends.scribe.take() else {
            return Found::Nothing;
        };
        let scribe = scribe.read(alloc);
        let found = scribe.found();
        let due = is_due(tables, self.id.as_str());
        if !scribe.holds() && !(saves && due) {
            self.ends.scribe = Some(scribe.waits(due));
            return found;
        }
        let scribe = scribe.tell(alloc, tables, shelf, date, self.id.as_str());
        self.ends.scribe = Some(scribe);
        found
    }

    /// Reads no more for the recorder where that is gone.
    pub(super) fn end_unrecorded(&mut self, tables: &Tables)
        ensures { kernel_of self.new ≡ if_recorded (rows tables.now) (kernel_of self.old) }
    {
        if tables.has_recorder(self.id.as_str()) {
            return;
        }
        self.ends.end_reading();
    }
}
