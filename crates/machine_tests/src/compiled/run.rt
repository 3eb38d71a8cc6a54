//! Runs of a machine, slice by slice and line by line.

ghost use Rattle.std.specs.Prelude.{◌≡◌, IfOk};
ghost use Rattle.ob_vm.specs.Images.{IsOf, WhereAsked};

use ob_reference_store::stop::NoAnswer;
use ob_vm::{Image, Machine, Turned};
use std::alloc::{AllocError, Global};

/// How many slices a run has at most.
const ROUNDS: u32 = 100_000;

/// How a run's last slice ended, all that was written, and the turns that are left.
#[derive(Drop)]
pub(crate) struct Stood {
    pub turned: Turned,
    pub output: String,
    pub left: u64,
}

/// A slice, whose output stands after that of the slices before it.
fn go_on(
    image: &mut Image,
    machine: &mut Machine,
    output: &mut String,
    turns: u64,
) -> Result<Turned, AllocError>
    requires { IsOf image.old machine.old }
    ensures fits { IsOf image.new machine.new }
    ensures asks { IfOk result (λ t. WhereAsked t image.new machine.new) }
{
    let turned = machine.turns(image, turns);
    output.push_str(machine.take_output().as_str())?;
    Ok(turned)
}

/// The line that a text stands for: an empty one for none to be had.
fn line_of(text: &str) -> Option<&str> {
    if text.is_empty() { None } else { Some(text) }
}

/// Whether the machine asked for a line, and there was one more, which it was given.
fn is_fed(
    image: &Image,
    machine: &mut Machine,
    turned: Turned,
    lines: &[&str],
    given: &mut usize,
) -> Result<bool, AllocError>
    requires fits { IsOf image.now machine.old }
    requires asks { WhereAsked turned image.now machine.old }
    ensures { IsOf image.now machine.new }
{
    match turned {
        Turned::NeedsLine if *given < lines.len() => {
            machine.give_line(image, line_of(lines[*given]))?;
            *given += 1;
            Ok(true)
        }
        _ => Ok(false),
    }
}

/// So many turns, in slices of so many, with these lines where they are asked for.
pub(crate) fn run(
    alloc: Global,
    image: &mut Image,
    machine: Machine,
    lines: &[&str],
    turns: u64,
    slice: u64,
) -> Result<Stood, NoAnswer>
    requires { IsOf image.old machine }
{
    let mut machine = machine;
    let mut output = String::new(alloc);
    let mut left = turns;
    let mut given = 0;
    for _ in 0..ROUNDS {
        let before = machine.used();
        let turned = go_on(image, &mut machine, &mut output, left.min(slice))?;
        left = left.saturating_sub(machine.used().saturating_sub(before));
        let fed = is_fed(image, &mut machine, turned, lines, &mut given)?;
        if !fed && (turned != Turned::Stopped || left == 0) {
            return Ok(Stood {
                turned,
                output,
                left,
            });
        }
    }
    Err(NoAnswer)
}
