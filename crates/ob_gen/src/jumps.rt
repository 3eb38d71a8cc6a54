//! Instructions after one another, and jumps that are written once it is known how far they lead.

ghost use Rattle.std.specs.Prelude.{◌≡◌, ◌+◌, ◌*◌, ◌<◌, ◌≤◌, [], ◌∷◌, ◌++◌, length, slice_set, vec_len, All, OnOk};
ghost use Rattle.ob_gen.specs.Code as spec;
ghost use Rattle.ob_gen.specs.Emitted as emitted;

use ob_code::instr::{Instr, Line};
use std::alloc::AllocError;

/// So many parts are a long list.
const MANY: usize = 1_000;

/// As many lines as a part of a long list may have. This is a guess: where it is wrong, the code is moved while it grows.
const LINES: usize = 6;

/// Room for the code of a list of so many parts, where it is long, so that what is moved while it grows leaves no holes in memory.
pub fn make_room(code: &mut Vec<Line>, parts: usize) -> Result<(), AllocError>
    ensures code { OnOk result (code.new.items ≡ code.old.items) }
    ensures long { OnOk result (vec_len code.new ≡ vec_len code.old) }
{
    if parts < MANY {
        return Ok(());
    }
    code.reserve(parts.saturating_mul(LINES))?;
    Ok(())
}

/// One more instruction, before which `operands` operands and `names` names lie there.
pub fn put(
    code: &mut Vec<Line>,
    operands: usize,
    names: usize,
    instr: Instr,
) -> Result<(), AllocError>
    ensures code { OnOk result (code.new.items ≡ code.old.items ++ spec.line operands names instr ∷ []) }
    ensures grows { OnOk result (vec_len code.new ≡ vec_len code.old + 1) }
{
    code.push(Line {
        operands,
        names,
        instr,
    })?;
    Ok(())
}

/// Another instruction in place of a line.
pub fn put_at(code: &mut Vec<Line>, place: usize, operands: usize, names: usize, instr: Instr)
    requires { place < length code.old.items }
    ensures code { code.new.items ≡ slice_set code.old.items place (spec.line operands names instr) }
    ensures long { vec_len code.new ≡ vec_len code.old }
{
    code[place] = Line {
        operands,
        names,
        instr,
    };
}

/// Jumps, in place of these lines, to the end of the code.
pub fn lead_to_end(code: &mut Vec<Line>, operands: usize, names: usize, holes: &[usize])
    requires { All (λ hole. hole < length code.old.items) holes.now }
    ensures code { code.new.items ≡ emitted.filled operands names code.old.items holes.now }
    ensures long { vec_len code.new ≡ vec_len code.old }
{
    for hole in holes {
        let distance = code.len() - *hole - 1;
        put_at(code, *hole, operands, names, Instr::Skip(distance));
    }
}

/// Where one of these lines finds 0, it leads to a 0 that is pushed at the end of the code.
pub fn close(
    code: &mut Vec<Line>,
    operands: usize,
    names: usize,
    ends: &[usize],
) -> Result<(), AllocError>
    requires all { All (λ end. end < length code.old.items) ends.now }
    requires room { operands < length code.old.items }
    ensures code { OnOk result (code.new.items ≡ emitted.closed operands names code.old.items ends.now) }
    ensures grows { OnOk result (vec_len code.old ≤ vec_len code.new) }
{
    let mut left = ends.len();
    while left > 0 {
        left -= 1;
        let end = ends[left];
        let distance = code.len() - end;
        put_at(code, end, operands + 1, names, Instr::SkipIfZero(distance));
        put(code, operands + 1, names, Instr::Skip(1))?;
        put(code, operands, names, Instr::Push(0))?;
    }
    Ok(())
}
