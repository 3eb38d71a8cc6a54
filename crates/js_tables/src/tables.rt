//! What the server knows of its kernels, sessions and files, as plain data.
ghost use Rattle.std.specs.Prelude.{◌≡◌, ℕ, ◌<◌, List, Some, None, string_bytes, vec_len, vec_capacity, filter, not, OnOk};
ghost use Rattle.std.specs.HashMap.{get_by_text, spare};
ghost use Rattle.std.specs.Str.{bytes_eq};
ghost use Rattle.std.specs.Option.{option_copied};
ghost use Rattle.js_tables.specs.Tables as spec;
ghost use Rattle.js_tables.specs.Plans as plans;

use crate::plan::Update;
use crate::sessions::find_by_path;
use js_shelf::Bytes;
use json_form::Text;
use nb_record::Recorder;
use std::alloc::{AllocError, Global};
use std::collections::HashMap;

/// What the last status that was found says of a kernel.
#[derive(Clone, Copy, Debug, PartialEq, Eq)]
pub enum State {
    Busy,
    Idle,
}

/// A session: a document that a kernel belongs to.
pub struct Session {
    pub id: Text,
    pub path: Text,
    pub name: Text,
    pub kind: Text,
}

// Written out, so that a proof of a caller has one step for it.
impl Drop for Session {
    fn drop(self) {
        let Session {
            id: _,
            path: _,
            name: _,
            kind: _,
        } = self;
    }
}

/// A kernel, with its session if it has one.
pub struct Kernel {
    pub id: Text,
    /// The date of the call that made it or found its last entries.
    pub last_activity: Text,
    pub state: State,
    pub connections: u64,
    pub session: Option<Session>,
}

impl Drop for Kernel {
    fn drop(self) {
        let Kernel {
            id: _,
            last_activity: _,
            state: _,
            connections: _,
            session: _,
        } = self;
    }
}

/// The recorder of a kernel's session.
pub struct Recording {
    pub kernel: Text,
    pub recorder: Recorder,
    /// Whether it has to be saved: a stored cell has ended, or a notebook was put, since it was saved last.
    pub due: bool,
    /// What its file held when the recorder last read it or saved there; none where nothing stood there.
    pub known: Option<Bytes>,
    /// What it tried to save since then, where the device failed. The file may hold that.
    pub tried: Option<Bytes>,
}

impl Drop for Recording {
    fn drop(self) {
        let Recording {
            kernel: _,
            recorder: _,
            due: _,
            known: _,
            tried: _,
        } = self;
    }
}

/// The tables. Kernels stand in the order in which they were made. A file without a date of its own has that of the
/// server's start.
#[derive(Drop)]
pub struct Tables {
    pub start: Text,
    pub kernels: Vec<Kernel>,
    /// The date of the last put of the file at each path.
    pub dates: HashMap<String, Text>,
    pub recordings: Vec<Recording>,
}

/// The kernel of that identifier.
pub fn find_kernel<'k>(kernels: &'k [Kernel], id: &[u8]) -> Option<&'k Kernel>
    ensures { option_copied result ≡ spec.find_kernel id.now kernels.now }
{
    kernels
        .iter()
        .find(|kernel| kernel.id.as_str().as_bytes() == id)
}

fn remove_kernels(kernels: &mut Vec<Kernel>, id: &Text)
    ensures { kernels.new.items ≡ filter (λ k. not (bytes_eq k.id id.now)) kernels.old.items }
{
    kernels.retain(|kernel| kernel.id.as_str() != id.as_str());
}

fn remove_recordings(recordings: &mut Vec<Recording>, kernel: &Text)
    ensures { recordings.new.items ≡ filter (λ c. not (bytes_eq c.kernel kernel.now)) recordings.old.items }
{
    recordings.retain(|recording| recording.kernel.as_str() != kernel.as_str());
}

/// Room for one more date.
fn reserve_date(dates: &mut HashMap<String, Text>) -> Result<(), AllocError>
    ensures same { (path : List ℕ) → get_by_text dates.new path ≡ get_by_text dates.old path }
    ensures room { OnOk result (0 < spare dates.new) }
{
    dates.reserve(1)
}

fn remove_date(dates: &mut HashMap<String, Text>, path: &str)
    ensures { (other : List ℕ) → get_by_text dates.new other ≡ spec.with_date path.now None (get_by_text dates.old) other }
{
    dates.remove(path);
}

/// Sets the date of a path. It takes no memory.
fn put_date(dates: &mut HashMap<String, Text>, path: String, date: Text)
    requires { 0 < spare dates.old }
    ensures { (other : List ℕ) → get_by_text dates.new other ≡ spec.with_date (string_bytes path) (Some date) (get_by_text dates.old) other }
{
    let _ = dates.insert(path, date);
}

fn add_recording(recordings: &mut Vec<Recording>, recording: Option<Recording>)
    requires { vec_len recordings.old < vec_capacity recordings.old }
    ensures { recordings.new.items ≡ spec.with_recording recording recordings.old.items }
{
    if let Some(recording) = recording {
        recordings.push_reserved(recording);
    }
}

impl Tables {
    /// No kernel and no file, at the date of the server's start.
    pub fn new(alloc: Global, start: Text) -> Tables
        ensures { spec.rows result ≡ spec.no_rows start }
    {
        Tables {
            start,
            kernels: Vec::new(alloc),
            dates: HashMap::new(alloc),
            recordings: Vec::new(alloc),
        }
    }

    /// The date of the last put of the file at a path, or else of the server's start.
    pub fn date_of(&self, path: &str) -> &str
        ensures { result.now ≡ spec.date_at path.now (spec.rows self.now) }
    {
        match self.dates.get(path) {
            Some(date) => date.as_str(),
            None => self.start.as_str(),
        }
    }

    /// Whether a kernel has a recorder.
    pub fn has_recorder(&self, kernel: &str) -> bool
        ensures { result ≡ spec.has_recorder kernel.now (spec.rows self.now) }
    {
        self.recordings
            .iter()
            .any(|recording| recording.kernel.as_str() == kernel)
    }

    /// Room for one more row in each table.
    ///
    /// # Errors
    /// Where there is no memory. The rows are as they were.
    #[tactic(auto, using(crate::proofs::Rows::rows_same))]
    pub fn make_room(&mut self) -> Result<(), AllocError>
        ensures same { spec.rows self.new ≡ spec.rows self.old }
        ensures room { OnOk result (spec.HasRoom self.new) }
    {
        self.kernels.reserve(1)?;
        self.recordings.reserve(1)?;
        reserve_date(&mut self.dates)
    }

    // What follows takes no memory.

    fn drop_kernel(&mut self, id: &Text)
        ensures { spec.rows self.new ≡ spec.drop_kernel id.now (spec.rows self.old) }
    {
        remove_kernels(&mut self.kernels, id);
        remove_recordings(&mut self.recordings, id);
    }

    #[tactic(auto, using(crate::proofs::Rows::rows_same))]
    fn drop_file(&mut self, path: &Text)
        ensures { spec.rows self.new ≡ spec.drop_file path.now (spec.rows self.old) }
    {
        if let Some(kernel) = find_by_path(&self.kernels, path.as_str()) {
            remove_recordings(&mut self.recordings, &kernel.id);
        }
        remove_date(&mut self.dates, path.as_str());
    }

    #[tactic(auto, using(crate::proofs::Rows::rows_same))]
    fn set_date(&mut self, path: Text, date: Text)
        requires { spec.HasRoom self.old }
        ensures { spec.rows self.new ≡ spec.set_date path date (spec.rows self.old) }
    {
        put_date(&mut self.dates, path.into_string(), date);
    }

    /// Makes a change, for which there is room. It takes no memory.
    pub fn update(&mut self, update: Update)
        requires { spec.HasRoom self.old }
        ensures { spec.rows self.new ≡ plans.updated update (spec.rows self.old) }
    {
        match update {
            Update::Same => (),
            Update::AddKernel(kernel, recording) => {
                self.kernels.push_reserved(kernel);
                add_recording(&mut self.recordings, recording);
            }
            Update::DropKernel(id) => self.drop_kernel(&id),
            Update::SetKernels(kernels, recording) => {
                self.kernels = kernels.into_vec();
                add_recording(&mut self.recordings, recording);
            }
            Update::SetDate(path, date) => self.set_date(path, date),
            Update::DropFile(path) => self.drop_file(&path),
            Update::Move(kernels, dates) => {
                self.kernels = kernels.into_vec();
                self.dates = dates;
            }
        }
    }
}
