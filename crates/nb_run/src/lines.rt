//! Lines for cells that ask.

ghost use Rattle.std.specs.Prelude.{◌≡◌};

use crate::status::RunFault;
use std::alloc::Global;
use std::io::BufRead;

/// The next line, without its line end. None where the input is at its end.
pub(crate) fn next_line<R: BufRead>(
    alloc: Global,
    reader: &mut R,
) -> Result<Option<String>, RunFault> {
    let mut line = String::new(alloc);
    match reader.read_line(&mut line) {
        Ok(0) => Ok(None),
        Ok(_) => {
            if line.as_str().ends_with('\n') {
                let _ = line.pop();
            }
            Ok(Some(line))
        }
        Err(_) => Err(RunFault::Input),
    }
}
