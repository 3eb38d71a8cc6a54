//! A notebook that is recorded, and what there is to know of its cells.

ghost use Rattle.std.specs.Prelude.{◌≡◌, true, false, Some, slice_get, OnOk, OnErr};
ghost use Rattle.nb_doc.specs.declared.notebook.Cell.{Cell};
ghost use Rattle.nb_record.specs.declared.event.Event.TheVariants.{Begins, Writes, Puts};
ghost use Rattle.nb_record.specs.Book.{is_code_at, is_there};
ghost use Rattle.nb_record.specs.Readable.{IsReadableOutput, IsReadable};
ghost use Rattle.nb_record.specs.State.{IsReadableEvent, Follows};

use crate::cells::{begin_at, code_place, fresh, id_for, write_at};
use crate::event::Event;
use crate::keeping::{kept_cells, still_executed};
use json_form::Text;
use nb_doc::{Names, Notebook, Output};
use std::alloc::{AllocError, Global};

/// The notebook, the ids of the code cells that were executed since the recorder began, the id of the cell that the
/// request which began last was begun for, if it is stored, and whether that request has not ended.
#[derive(Drop)]
pub struct Pages {
    pub(crate) notebook: Notebook,
    pub(crate) executed: Names,
    pub(crate) current: Option<Text>,
    pub(crate) lasts: bool,
}

impl Pages {
    ghost use Rattle.nb_record.specs.Book.{is_id};
    ghost use Rattle.nb_record.specs.State.{running_in};

    /// Whether the cell of that id runs.
    pub(crate) fn runs(&self, id: &str) -> bool
        ensures { result ≡ is_id id.now (running_in self.now) }
    {
        match &self.current {
            None => false,
            Some(current) => self.lasts && id == current.as_str(),
        }
    }
}

/// An event happens. Where there is no memory for it, nothing has changed.
pub(crate) fn take(alloc: Global, pages: &mut Pages, event: Event) -> Result<(), AllocError>
    requires readable { IsReadable pages.old.notebook }
    requires event { IsReadableEvent event }
    ensures ok { OnOk result (Follows event pages.old pages.new) }
    ensures err { OnErr result (pages.new ≡ pages.old) }
    ensures readable { IsReadable pages.new.notebook }
{
    match event {
        Event::Begins {
            wish,
            source,
            count,
        } => begin(alloc, pages, wish, source, count),
        Event::Passes => {
            pages.current = None;
            pages.lasts = true;
            Ok(())
        }
        Event::Writes(output) => write(alloc, pages, output),
        Event::Ends => {
            pages.lasts = false;
            Ok(())
        }
        Event::Puts(notebook) => put(alloc, pages, notebook),
        Event::Nothing => Ok(()),
    }
}

fn begin(
    alloc: Global,
    pages: &mut Pages,
    wish: Option<Text>,
    source: Text,
    count: u64,
) -> Result<(), AllocError>
    requires { IsReadable pages.old.notebook }
    ensures ok { OnOk result (Follows (Begins wish source count) pages.old pages.new) }
    ensures err { OnErr result (pages.new ≡ pages.old) }
    ensures readable { IsReadable pages.new.notebook }
{
    match wish {
        None => append(alloc, pages, None, source, count),
        Some(id) => match code_place(pages.notebook.cells.as_slice(), id.as_str()) {
            None => append(alloc, pages, Some(id), source, count),
            Some(place) => restart(alloc, pages, place, id, source, count),
        },
    }
}

/// The code cell at a place begins.
fn restart(
    alloc: Global,
    pages: &mut Pages,
    place: usize,
    id: Text,
    source: Text,
    count: u64,
) -> Result<(), AllocError>
    requires there { (c : Cell) × (slice_get pages.old.notebook.cells place ≡ Some c) × (is_code_at id c ≡ true) }
    requires readable { IsReadable pages.old.notebook }
    ensures ok { OnOk result (Follows (Begins (Some id) source count) pages.old pages.new) }
    ensures err { OnErr result (pages.new ≡ pages.old) }
    ensures readable { IsReadable pages.new.notebook }
{
    pages.executed.add(alloc, id.as_str())?;
    begin_at(alloc, &mut pages.notebook.cells, place, source, count);
    pages.current = Some(id);
    pages.lasts = true;
    Ok(())
}

/// A cell that is appended begins.
fn append(
    alloc: Global,
    pages: &mut Pages,
    wish: Option<Text>,
    source: Text,
    count: u64,
) -> Result<(), AllocError>
    requires gone { is_there pages.old.notebook.cells wish ≡ false }
    requires readable { IsReadable pages.old.notebook }
    ensures ok { OnOk result (Follows (Begins wish source count) pages.old pages.new) }
    ensures err { OnErr result (pages.new ≡ pages.old) }
    ensures readable { IsReadable pages.new.notebook }
{
    let id = id_for(alloc, pages.notebook.cells.as_slice(), wish)?;
    let cell = fresh(alloc, id.copy()?, source, count);
    pages.notebook.cells.push(cell)?;
    if let Err(error) = pages.executed.add(alloc, id.as_str()) {
        let _cell = pages.notebook.cells.pop();
        return Err(error);
    }
    pages.current = Some(id);
    pages.lasts = true;
    Ok(())
}

/// The cell that began last writes.
fn write(alloc: Global, pages: &mut Pages, output: Output) -> Result<(), AllocError>
    requires readable { IsReadable pages.old.notebook }
    requires output { IsReadableOutput output }
    ensures ok { OnOk result (Follows (Writes output) pages.old pages.new) }
    ensures err { OnErr result (pages.new ≡ pages.old) }
    ensures readable { IsReadable pages.new.notebook }
{
    let Some(id) = &pages.current else {
        return Ok(());
    };
    match code_place(pages.notebook.cells.as_slice(), id.as_str()) {
        None => Ok(()),
        Some(place) => write_at(alloc, &mut pages.notebook.cells, place, output),
    }
}

/// A notebook is put.
fn put(alloc: Global, pages: &mut Pages, notebook: Notebook) -> Result<(), AllocError>
    requires readable { IsReadable pages.old.notebook }
    requires new { IsReadable notebook }
    ensures ok { OnOk result (Follows (Puts notebook) pages.old pages.new) }
    ensures err { OnErr result (pages.new ≡ pages.old) }
    ensures readable { IsReadable pages.new.notebook }
{
    let still = still_executed(alloc, &pages.executed, notebook.cells.as_slice())?;
    let Notebook { cells, metadata } = notebook;
    let cells = kept_cells(alloc, &still, pages, cells)?;
    pages.notebook = Notebook { cells, metadata };
    pages.executed = still;
    Ok(())
}
