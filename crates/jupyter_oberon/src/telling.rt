//! What the program tells of itself.

use std::io::Write;

/// The version of the program. VERSION at the top has the same.
const VERSION: &str = "1.0.0";

const HELP: &str = "\
jupyter_oberon compiles and runs Oberon-07 as a Jupyter kernel.

  jupyter_oberon serve PORT FOLDER
      serves kernels, and the notebooks in FOLDER, on http://127.0.0.1:PORT until it is ended
      example: jupyter_oberon serve 8888 lessons

  jupyter_oberon run [--all] [-o FILE] NOTEBOOK ..
      runs the code cells of each notebook in order on a fresh kernel, and saves it with what they show;
      after an error no other cell is run, unless --all is given; -o saves one notebook as FILE;
      In reads standard input, a line each; the errors of cells are written to standard error
      status: 0 all ended well, 5 a cell ended by an error, 6 no notebook, 4 a file could not be read or written
      example: jupyter_oberon run lessons/first.ipynb

  jupyter_oberon replay
      reads a session from standard input, one message of JSON a line, and writes what it shows
      example: jupyter_oberon replay < examples/answer.jsonl

  jupyter_oberon --help, jupyter_oberon --version
      write this, and the version

docs/guide.md has more, docs/errors.md what each error means.
";

/// Writes a text. The status is 0, or 4 where that fails.
fn status_of<W: Write>(output: &mut W, text: &str) -> u8 {
    match output.write_all(text.as_bytes()) {
        Ok(()) => match output.flush() {
            Ok(()) => 0,
            Err(_) => 4,
        },
        Err(_) => 4,
    }
}

/// Writes what each command does. The status is 0, or 4 where that fails.
pub(crate) fn help_status<W: Write>(output: &mut W) -> u8 {
    status_of(output, HELP)
}

/// Writes the version. The status is 0, or 4 where that fails.
pub(crate) fn version_status<W: Write>(output: &mut W) -> u8 {
    match write!(output, "jupyter_oberon {VERSION}\n") {
        Ok(()) => status_of(output, ""),
        Err(_) => 4,
    }
}
