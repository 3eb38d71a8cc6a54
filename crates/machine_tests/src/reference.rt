//! Programs made by hand, run anew with each number of turns from none to more than they need, by the plain evaluator and, as
//! compiled code, by the machine. What each run comes to was worked out by hand.

mod calls;
mod input;
mod loops;
mod operators;
mod structures;
mod traps;
mod trees;
mod values;

use crate::compiled;
use ob_mean::{Face, Loaded, Outcome, TrapKind, TurnKind};
use ob_reference::{Ran, Reference};
use ob_reference_store::state::GivenLine;
use ob_reference_store::stop::NoAnswer;
use std::alloc::{AllocError, Global};

/// Why a run stands, what it has written, and the turns that are left.
pub(crate) type Seen<'a> = (Outcome, &'a str, u64);

const ENDED: Outcome = Outcome::Ended;

const AT_ENTRY: Outcome = Outcome::Stopped(TurnKind::BodyEntry);

const AT_CALL: Outcome = Outcome::Stopped(TurnKind::ProcedureCall);

const AT_OUTPUT: Outcome = Outcome::Stopped(TurnKind::Output);

const AT_INPUT: Outcome = Outcome::Stopped(TurnKind::Input);

const AT_LINE: Outcome = Outcome::Stopped(TurnKind::LineAsked);

/// A trap in a line of the first module.
const fn trapped(kind: TrapKind, line: usize) -> Outcome {
    Outcome::Trapped(kind, 0, line)
}

/// A list of one module.
fn alone(alloc: Global, module: Result<Loaded, AllocError>) -> Result<Vec<Loaded>, AllocError> {
    let mut program = Vec::new(alloc);
    program.push(module?)?;
    Ok(program)
}

/// A list of two modules.
fn both(
    alloc: Global,
    first: Result<Loaded, AllocError>,
    second: Result<Loaded, AllocError>,
) -> Result<Vec<Loaded>, AllocError> {
    let mut program = alone(alloc, first)?;
    program.push(second?)?;
    Ok(program)
}

/// The modules and their variables.
fn loaded(alloc: Global, program: Result<Vec<Loaded>, AllocError>) -> Result<Reference, NoAnswer> {
    Reference::new(alloc, program?)
}

/// Lines that In may ask for; the empty one stands for none to be had.
pub(crate) fn given(alloc: Global, lines: &[&str]) -> Result<Vec<GivenLine>, AllocError> {
    let mut all = Vec::new(alloc);
    for &line in lines {
        if line.is_empty() {
            all.push(GivenLine::Nothing)?;
        } else {
            all.push(GivenLine::Text(String::from_str(alloc, line)?))?;
        }
    }
    Ok(all)
}

fn is_as_said(ran: &Ran, said: Seen<'_>) -> bool {
    ran.outcome == said.0 && ran.output.as_str() == said.1 && ran.turns == said.2
}

/// The first number of turns with which a module's body comes to something else than is said at its place.
fn first_wrong(
    alloc: Global,
    reference: &Reference,
    home: usize,
    lines: &[&str],
    said: &[Seen<'_>],
) -> Result<Option<usize>, NoAnswer> {
    for (turns, seen) in said.iter().enumerate() {
        let ran = reference.run_body(home, given(alloc, lines)?, turns as u64)?;
        if !is_as_said(&ran, *seen) {
            return Ok(Some(turns));
        }
    }
    Ok(None)
}

/// The same of a program, of which the last module's body runs, by the machine and then by the evaluator. A module that
/// imports others knows these of them.
fn wrong_last(
    alloc: Global,
    program: Vec<Loaded>,
    known: &[Face],
    lines: &[&str],
    said: &[Seen<'_>],
) -> Result<Option<usize>, NoAnswer> {
    let home = program.len().saturating_sub(1);
    if let Some(turns) = compiled::first_wrong(alloc, &program, known, lines, said)? {
        return Ok(Some(turns));
    }
    let reference = Reference::new(alloc, program)?;
    first_wrong(alloc, &reference, home, lines, said)
}

/// The same of a program of one module.
fn wrong_alone(
    alloc: Global,
    module: Result<Loaded, AllocError>,
    lines: &[&str],
    said: &[Seen<'_>],
) -> Result<Option<usize>, NoAnswer> {
    wrong_last(alloc, alone(alloc, module)?, &[], lines, said)
}
