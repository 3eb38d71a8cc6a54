//! The recorder: a notebook that follows what a kernel shows.

ghost use Rattle.std.specs.Prelude.{◌≡◌, ◌≤◌, [], Ok, OnOk, OnErr, take, length};
ghost use Rattle.serde_json.specs.Data.{depth};
ghost use Rattle.serde_json.specs.Read.{max_depth};
ghost use Rattle.js_shelf.specs.Shelves.{Tells, HasCause};
ghost use Rattle.nb_doc.specs.Building.{empty_notebook};
ghost use Rattle.nb_doc.specs.Documents.{IsDocument, joined_notebook};
ghost use Rattle.nb_doc.specs.Reading.{notebook_at};
ghost use Rattle.nb_doc.specs.Writing.{notebook_form, notebook_text};
ghost use Rattle.nb_record.specs.Book.{Shown, Put};
ghost use Rattle.nb_record.specs.State.{StandsAt, IsTold, AreTold, Saves};

use crate::event::{Event, event_in};
use crate::pages::{Pages, take};
use jk_log::Entry;
use js_shelf::{Bytes, Item as ShelfItem, Shelf, ShelfRefusal};
use json_form::Text;
use nb_doc::{Names, Notebook, write_notebook};
use std::alloc::{AllocError, Global};
use std::marker::Model;

/// Keeps the notebook of what a kernel shows, for the file at a path.
#[derive(Drop)]
pub struct Recorder {
    alloc: Global,
    path: Text,
    pages: Pages,
}

impl Model for Recorder {
    ghost use Rattle.std.specs.Coded.{codes};
    ghost use Rattle.json_form.specs.contracts.kept.Json as json;
    ghost use Rattle.nb_record.specs.Readable.{IsReadable};
    ghost use Rattle.nb_record.specs.State.{RecorderState};

    ghost Value = { RecorderState };

    ghost coded = { Prim.hlevel (codes, json.the_row.coded) };

    ghost view = { λ r. record { path = r.path; pages = r.pages } };

    ghost invariant = { λ r. IsReadable r.pages.notebook };
}

impl Recorder {
    /// It begins with no cells and no metadata.
    pub fn empty(alloc: Global, path: Text) -> Recorder
        ensures path { result.path ≡ path }
        ensures stands { StandsAt result.pages empty_notebook [] }
    {
        Recorder::new(alloc, path, Notebook::empty(alloc))
    }

    /// It begins with a notebook that is a document of 4.5 and nests no deeper than JSON is read, as one that was
    /// read does.
    pub fn new(alloc: Global, path: Text, notebook: Notebook) -> Recorder
        requires document { IsDocument notebook }
        requires shallow { depth (notebook_form notebook) ≤ max_depth }
        ensures path { result.path ≡ path }
        ensures stands { StandsAt result.pages notebook [] }
    {
        let pages = Pages {
            notebook,
            executed: Names::empty(alloc),
            current: None,
            lasts: false,
        };
        Recorder { alloc, path, pages }
    }

    /// The path of its file.
    pub fn path(&self) -> &Text
        ensures { result.now ≡ self.now.path }
    {
        &self.path
    }

    /// The path of its file has changed.
    pub fn moved(&mut self, path: Text)
        ensures { self.new ≡ record self.old { path = path } }
    {
        self.path = path;
    }

    /// An entry was shown. Where there is no memory for it, nothing has changed.
    pub fn entry(&mut self, entry: &Entry) -> Result<(), AllocError>
        ensures ok { OnOk result (IsTold (Shown entry.now) self.old.pages self.new.pages) }
        ensures err { OnErr result (self.new ≡ self.old) }
        ensures path { self.new.path ≡ self.old.path }
    {
        let event = event_in(self.alloc, entry)?;
        take(self.alloc, &mut self.pages, event)
    }

    /// Entries were shown. It is told the first of them, as many as there is memory for, and answers how many.
    pub fn entries(&mut self, entries: &[Entry]) -> usize
        ensures told { AreTold (take result entries.now) self.old.pages self.new.pages }
        ensures within { result ≤ length entries.now }
        ensures path { self.new.path ≡ self.old.path }
    {
        for (count, entry) in entries.iter().enumerate() {
            if self.entry(entry).is_err() {
                return count;
            }
        }
        entries.len()
    }

    /// A notebook was put: a document of 4.5 that nests no deeper than JSON is read, as one that was read is. Where
    /// there is no memory for it, nothing has changed.
    pub fn put(&mut self, notebook: Notebook) -> Result<(), AllocError>
        requires document { IsDocument notebook }
        requires shallow { depth (notebook_form notebook) ≤ max_depth }
        ensures ok { OnOk result (IsTold (Put notebook) self.old.pages self.new.pages) }
        ensures err { OnErr result (self.new ≡ self.old) }
        ensures path { self.new.path ≡ self.old.path }
    {
        take(self.alloc, &mut self.pages, Event::Puts(notebook))
    }

    /// The notebook of all that it was told.
    pub fn notebook(&self) -> &Notebook
        ensures value { result.now ≡ self.now.pages.notebook }
        ensures document { IsDocument result.now }
        ensures shallow { depth (notebook_form result.now) ≤ max_depth }
    {
        &self.pages.notebook
    }

    /// Puts the text of its notebook on the shelf, as the file at its path. Refused as that put is, and with `Memory`
    /// where there is none for the text; then nothing has changed on the shelf. The recorder is the same after any
    /// refusal, so a later call saves what this one would have.
    ///
    /// What is saved reads back: it is this notebook, with neighbouring streams joined.
    pub fn save<S: Shelf>(&self, shelf: &mut S) -> Result<(), ShelfRefusal>
        ensures answer { Tells (S.contents shelf.old) (S.contents shelf.new) (Saves self.now result) }
        ensures cause { HasCause (S.faults shelf.old) (S.faults shelf.new) result }
        ensures reads_back { OnOk result (notebook_at (notebook_text self.now.pages.notebook)
            ≡ Ok (joined_notebook self.now.pages.notebook)) }
    {
        let text = write_notebook(self.alloc, &self.pages.notebook)?;
        shelf.put(self.path.as_str(), ShelfItem::File(Bytes::from(text)))
    }
}
