//! A notebook's run, and its save.

ghost use Rattle.std.specs.Prelude.{◌≡◌, ◌≤◌, ◌&&◌, List, [], Ok, IfOk};
ghost use Rattle.serde_json.specs.Data.{depth};
ghost use Rattle.serde_json.specs.Read.{max_depth};
ghost use Rattle.jk_log.specs.declared.arrival.Arrival.{Arrival};
ghost use Rattle.jk_log.specs.declared.entry.Entry.{Entry};
ghost use Rattle.jk_core.specs.State.{fresh};
ghost use Rattle.js_shelf.specs.Shelves.{Tells as ShelfTells};
ghost use Rattle.nb_doc.specs.Documents.{IsDocument};
ghost use Rattle.nb_doc.specs.Writing.{notebook_form};
ghost use Rattle.nb_record.specs.State.{RecorderState, Saves, StandsAt};
ghost use Rattle.nb_run.specs.Going.{Goes, IsQuiet};
ghost use Rattle.nb_run.specs.Runs.{AreRun, IsRun};

use crate::cells::{Code, codes_of};
use crate::player::Player;
use crate::round::either;
use crate::status::RunFault;
use jk_core::Kernel;
use jk_language::Language;
use js_shelf::Shelf;
use json_form::Text;
use nb_doc::Notebook;
use nb_record::Recorder;
use std::alloc::{AllocError, Global};
use std::io::{BufRead, Write};

/// What is to be run: a notebook, whether cells after an error are run too, and the path at which it is saved.
#[derive(Drop)]
pub struct Asked {
    pub notebook: Notebook,
    pub all: bool,
    pub path: Text,
}

/// Whether both are so.
fn both(first: bool, second: bool) -> bool
    ensures { result ≡ (first && second) }
{
    first && second
}

/// Runs cells one after another, up to the first that does not end well unless all are to be run. The answer is whether
/// all of them ended well.
fn run_cells<L: Language, R: BufRead, E: Write>(
    player: &mut Player<Kernel<L>>,
    alloc: Global,
    codes: &[Code],
    all: bool,
    lines: &mut R,
    errors: &mut E,
) -> Result<bool, RunFault>
    requires { IsQuiet player.old.kernel }
    ensures { IfOk result (λ ok. (sent : List Arrival) × (told : List Entry)
        × Goes player.old player.new sent told × AreRun all codes.now sent told ok
        × IsQuiet player.new.kernel) }
{
    let mut ok = true;
    let mut place = 0;
    'cells: while place < codes.len() {
        let went = player.run_cell(alloc, &codes[place], lines, errors)?;
        ok = both(ok, went);
        if !either(all, went) {
            return Ok(false);
        }
        place += 1;
    }
    Ok(ok)
}

/// A fresh kernel, with the recorder of a notebook.
fn fresh_player<L: Language>(
    alloc: Global,
    path: Text,
    notebook: Notebook,
) -> Result<Player<Kernel<L>>, AllocError>
    requires document { IsDocument notebook }
    requires shallow { depth (notebook_form notebook) ≤ max_depth }
    ensures kernel { IfOk result (λ player. player.kernel ≡ fresh) }
    ensures path { IfOk result (λ player. player.recorder.path ≡ path) }
    ensures stands { IfOk result (λ player. StandsAt player.recorder.pages notebook []) }
{
    Ok(Player {
        kernel: Kernel::new(alloc)?,
        recorder: Recorder::new(alloc, path, notebook),
        sent: 0,
    })
}

/// Runs a notebook's code cells in order on a fresh kernel, and answers the recorder that was told all that the kernel
/// showed, and whether all of them ended well.
fn run_notebook<L: Language, R: BufRead, E: Write>(
    alloc: Global,
    asked: Asked,
    lines: &mut R,
    errors: &mut E,
) -> Result<(Recorder, bool), RunFault>
    requires document { IsDocument asked.notebook }
    requires shallow { depth (notebook_form asked.notebook) ≤ max_depth }
    ensures { IfOk result (λ ran. (ran.0.path ≡ asked.path)
        × IsRun L.spoken asked.all asked.notebook ran.1 ran.0.pages.notebook) }
{
    let Asked {
        notebook,
        all,
        path,
    } = asked;
    let codes = codes_of(alloc, notebook.cells.as_slice())?;
    let mut player: Player<Kernel<L>> = fresh_player(alloc, path, notebook)?;
    let ok = run_cells(&mut player, alloc, codes.as_slice(), all, lines, errors)?;
    player.kernel.legal();
    Ok((player.recorder, ok))
}

/// Runs a notebook's code cells in order on a fresh kernel, each as one execute request with its id, and puts the notebook
/// with what the kernel showed on a shelf. A cell that asks is given the next of these lines, without its line end; where
/// there is none left its read fails. After a cell that does not end well no other is run, unless all are asked for. The
/// error of each cell is written to `errors`. The answer is whether all cells ended well.
///
/// # Errors
///
/// `Memory`; `Input` where no line could be read; `Unwritten` where the put was refused. Then nothing is saved.
pub fn run_saved<L: Language, S: Shelf, R: BufRead, E: Write>(
    alloc: Global,
    asked: Asked,
    shelf: &mut S,
    lines: &mut R,
    errors: &mut E,
) -> Result<bool, RunFault>
    requires document { IsDocument asked.notebook }
    requires shallow { depth (notebook_form asked.notebook) ≤ max_depth }
    ensures { IfOk result (λ ok. (r : RecorderState) × (r.path ≡ asked.path)
        × IsRun L.spoken asked.all asked.notebook ok r.pages.notebook
        × ShelfTells (S.contents shelf.old) (S.contents shelf.new) (Saves r (Ok tt))) }
{
    let (recorder, ok) = run_notebook::<L, R, E>(alloc, asked, lines, errors)?;
    match recorder.save(shelf) {
        Ok(()) => Ok(ok),
        Err(refusal) => Err(refusal.into()),
    }
}
