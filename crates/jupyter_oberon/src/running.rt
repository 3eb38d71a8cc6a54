//! The program as a runner of notebooks.

use js_files::{FileShelf, SystemFolder};
use json_form::Text;
use nb_run::{Asked, RunFault, read_from, run_saved, run_status};
use ob_language::Oberon;
use std::alloc::{AllocError, Global};
use std::env::Args;
use std::fs::File;
use std::io::{BufRead, Write};
use std::rt::Files;

/// What the arguments of `run` ask for.
#[derive(Debug, Drop)]
pub(crate) struct Runs {
    /// The paths of the notebooks, of which there is one at least.
    paths: Vec<String>,
    /// Whether cells after an error are run too.
    all: bool,
    /// Where the notebook is saved, if not where it was read. There is one notebook then.
    output: Option<String>,
}

/// What was read of the arguments of `run`.
#[derive(Drop)]
struct Reading {
    runs: Runs,
    /// Whether the next argument is the path of the output.
    names_output: bool,
}

impl Reading {
    fn new(alloc: Global) -> Reading {
        Reading {
            runs: Runs {
                paths: Vec::new(alloc),
                all: false,
                output: None,
            },
            names_output: false,
        }
    }

    /// Takes one more argument. It says whether that is right.
    fn take(&mut self, argument: String) -> Result<bool, AllocError> {
        if self.names_output {
            self.runs.output = Some(argument);
            self.names_output = false;
        } else if argument.as_str() == "--all" {
            self.runs.all = true;
        } else if argument.as_str() == "-o" && self.runs.output.is_none() {
            self.names_output = true;
        } else if argument.as_str().starts_with('-') {
            return Ok(false);
        } else {
            self.runs.paths.push(argument)?;
        }
        Ok(true)
    }

    /// What all of them ask for; none where they are wrong.
    fn end(self) -> Option<Runs> {
        let Reading { runs, names_output } = self;
        let few = runs.output.is_none() || runs.paths.len() == 1;
        if names_output || runs.paths.is_empty() || !few {
            return None;
        }
        Some(runs)
    }
}

/// What the arguments of `run` ask for; none where they are wrong.
pub(crate) fn read_runs(
    alloc: Global,
    arguments: Args<Global>,
) -> Result<Option<Runs>, AllocError> {
    let mut reading = Reading::new(alloc);
    for argument in arguments {
        if !reading.take(argument)? {
            return Ok(None);
        }
    }
    Ok(reading.end())
}

/// The folder in which a path leads to a file, and the file's name there.
fn parts_of(path: &str) -> (&str, &str) {
    match path.rsplit_once('/') {
        None => (".", path),
        Some((folder, name)) => {
            if folder.is_empty() {
                ("/", name)
            } else {
                (folder, name)
            }
        }
    }
}

/// Runs the notebook at a path, and saves it at another.
fn run_one<R, I, E>(
    rt: R,
    paths: (&str, &str),
    all: bool,
    lines: &mut I,
    errors: &mut E,
) -> Result<bool, RunFault>
where
    R: Files<File = File> + AllocGlobal + Copy + Drop,
    I: BufRead,
    E: Write,
{
    let alloc = rt.alloc();
    let (folder, name) = parts_of(paths.0);
    let mut source: FileShelf<SystemFolder<R>> = FileShelf::new(rt, folder)?;
    let notebook = read_from(alloc, &mut source, name)?;
    let (folder, name) = parts_of(paths.1);
    let mut target: FileShelf<SystemFolder<R>> = FileShelf::new(rt, folder)?;
    let path = Text::from_str(alloc, name)?;
    let asked = Asked {
        notebook,
        all,
        path,
    };
    run_saved::<Oberon, _, _, _>(alloc, asked, &mut target, lines, errors)
}

/// Tells which of the notebooks is run now. What can't be written is left out.
fn tell_progress<E: Write>(errors: &mut E, place: usize, count: usize, path: &str) {
    let _ = write!(errors, "{place} of {count}: {path}\n");
    let _ = errors.flush();
}

/// Runs the notebooks one after another, each on a kernel of its own. The status is that of the first that did not end
/// well, if there is one. Where `shows` says so, each is named as its turn comes.
pub(crate) fn run_all<R, I, E>(rt: R, runs: &Runs, lines: &mut I, errors: &mut E, shows: bool) -> u8
where
    R: Files<File = File> + AllocGlobal + Copy + Drop,
    I: BufRead,
    E: Write,
{
    let mut status = 0;
    for (place, path) in runs.paths.as_slice().iter().enumerate() {
        if shows {
            tell_progress(errors, place + 1, runs.paths.len(), path.as_str());
        }
        let target = match &runs.output {
            Some(output) => output.as_str(),
            None => path.as_str(),
        };
        let ended = run_one(rt, (path.as_str(), target), runs.all, lines, errors);
        let one = run_status(ended, path.as_str(), errors);
        if status == 0 {
            status = one;
        }
    }
    status
}
