//! Programs made by hand, compiled, linked, and run by the machine in slices of turns.

mod build;
mod run;

use crate::compiled::build::{begin, image_of, image_of_code};
use crate::compiled::run::{Stood, run};
use crate::reference::Seen;
use ob_code::instr::CodeModule;
use ob_mean::{Face, Loaded, Outcome};
use ob_reference_store::stop::NoAnswer;
use ob_vm::Turned;
use std::alloc::Global;

/// How many turns a slice has at most.
const SLICES: [u64; 3] = [1, 3, 1_000_000];

/// Whether a slice ended as it is said that the run stands. A machine doesn't tell before which turn it was stopped.
fn ends_so(turned: Turned, said: Outcome) -> bool {
    match (turned, said) {
        (Turned::Ended, Outcome::Ended) => true,
        (Turned::Trapped(kind, home, line), Outcome::Trapped(other, there, place)) => {
            kind == other && home == there && line == place
        }
        (Turned::Stopped, Outcome::Stopped(_)) => true,
        (Turned::NeedsLine, Outcome::NeedsLine) => true,
        _ => false,
    }
}

fn is_as_said(stood: &Stood, said: Seen<'_>) -> bool {
    ends_so(stood.turned, said.0) && stood.output.as_str() == said.1 && stood.left == said.2
}

/// Whether the body of the last module comes to what is said, with so many turns and these lines, whatever the slices are. A
/// module that imports others knows these of them.
pub(crate) fn comes_to(
    alloc: Global,
    program: &[Loaded],
    known: &[Face],
    lines: &[&str],
    turns: u64,
    said: Seen<'_>,
) -> Result<bool, NoAnswer> {
    for slice in SLICES {
        let mut image = image_of(alloc, program, known)?;
        let machine = begin(alloc, &image, program.len().saturating_sub(1))?;
        let stood = run(alloc, &mut image, machine, lines, turns, slice)?;
        if !is_as_said(&stood, said) {
            return Ok(false);
        }
    }
    Ok(true)
}

/// Whether the body of a module made by hand comes to what is said, with so many turns.
pub(crate) fn code_comes_to(
    alloc: Global,
    code: CodeModule,
    turns: u64,
    said: Seen<'_>,
) -> Result<bool, NoAnswer> {
    let mut image = image_of_code(alloc, code)?;
    let machine = begin(alloc, &image, 0)?;
    let stood = run(alloc, &mut image, machine, &[], turns, turns)?;
    Ok(is_as_said(&stood, said))
}

/// The first number of turns with which the body of the last module comes to something else than is said at its place.
pub(crate) fn first_wrong(
    alloc: Global,
    program: &[Loaded],
    known: &[Face],
    lines: &[&str],
    said: &[Seen<'_>],
) -> Result<Option<usize>, NoAnswer> {
    for (turns, seen) in said.iter().enumerate() {
        if !comes_to(alloc, program, known, lines, turns as u64, *seen)? {
            return Ok(Some(turns));
        }
    }
    Ok(None)
}
