//! What is known of the operands and names before each line, as far as one way over the lines finds it. Another test decides whether
//! it is so.

ghost use Rattle.std.specs.Prelude.{◌≡◌, ◌<◌, length, OnOk};

use crate::kinds::{cells_of, cover_all, either, element, first, guarded, literal, moved, second};
use crate::validate::entry_of;
use ob_base::Items;
use ob_code::instr::{CodeModule, Instr, NameKind, Procedure};
use ob_code::kinds::{Kind, Known};
use ob_mean::Callee;
use std::alloc::{AllocError, Global};

/// What an instruction does: how many operands and names it takes, and what it leaves.
#[derive(Clone, Copy)]
struct Change {
    taken: usize,
    pushed: Option<Kind>,
    names: usize,
    named: Option<NameKind>,
}

fn taking(taken: usize) -> Change {
    Change {
        taken,
        pushed: None,
        names: 0,
        named: None,
    }
}

fn leaving(taken: usize, kind: Kind) -> Change {
    Change {
        taken,
        pushed: Some(kind),
        names: 0,
        named: None,
    }
}

fn naming(kind: NameKind) -> Change {
    Change {
        taken: 1,
        pushed: None,
        names: 0,
        named: Some(kind),
    }
}

fn calling(code: &CodeModule, callee: Callee) -> Change {
    match entry_of(code, callee) {
        Some(entry) => Change {
            taken: entry.operands,
            pushed: if entry.is_function {
                Some(Kind::Number)
            } else {
                None
            },
            names: entry.names,
            named: None,
        },
        None => taking(0),
    }
}

fn change_by(code: &CodeModule, instr: &Instr, kinds: &[Kind]) -> Change {
    match instr {
        Instr::Push(value) => leaving(0, literal(*value)),
        Instr::PushDone | Instr::Load(_) => leaving(0, Kind::Number),
        Instr::Unary(_, _) | Instr::LoadAt(_) | Instr::TakeLength(_) | Instr::Test(_, _) => leaving(
            1,
            Kind::Number,
        ),
        Instr::Operate(_, _) | Instr::RelateTexts(_, _, _) => leaving(2, Kind::Number),
        Instr::AddOffset(cells) => leaving(1, moved(*cells, first(kinds))),
        Instr::Guard(name, types, _, _) => {
            let cells = cells_of(types.as_slice());
            leaving(1, guarded(*name, cells, first(kinds)))
        }
        Instr::Index(length, size, _) => leaving(2, element(*length, *size, second(kinds))),
        Instr::StoreAt(_) | Instr::AdjustAt(_, _) | Instr::Copy(_, _, _) | Instr::PutInt => taking(
            2,
        ),
        Instr::Drop
        | Instr::Store(_)
        | Instr::StoreText(_, _, _)
        | Instr::SkipIfZero(_)
        | Instr::EnterBack(_)
        | Instr::Assert(_)
        | Instr::Read(_)
        | Instr::PutChar
        | Instr::PutText(_) => taking(1),
        Instr::NamePlace(_, cells) => naming(NameKind::Cells(*cells)),
        Instr::NameArray(_, _, size) => naming(NameKind::ArrayOf(*size)),
        Instr::NameRecord(_, _, cells) | Instr::NameAgain(_, cells) => naming(NameKind::RecordOf(
            *cells,
        )),
        Instr::Invoke(callee, _) => calling(code, *callee),
        _ => taking(0),
    }
}

fn operands_behind(
    alloc: Global,
    change: &Change,
    kinds: &[Kind],
) -> Result<Items<Kind>, AllocError> {
    let mut left = Items::new(alloc);
    if let Some(kind) = change.pushed {
        left.push(kind)?;
    }
    for place in 0..kinds.len() {
        if place >= change.taken {
            left.push(kinds[place])?;
        }
    }
    Ok(left)
}

fn names_behind(
    alloc: Global,
    change: &Change,
    names: &[NameKind],
) -> Result<Items<NameKind>, AllocError> {
    let mut left = Items::new(alloc);
    for place in 0..names.len() {
        if change.names < names.len() - place && place < DEEPEST {
            left.push(names[place])?;
        }
    }
    if let Some(kind) = change.named {
        left.push(kind)?;
    }
    Ok(left)
}

fn behind(alloc: Global, change: &Change, known: &Known) -> Result<Known, AllocError> {
    Ok(Known {
        operands: operands_behind(alloc, change, known.operands.as_slice())?,
        names: names_behind(alloc, change, known.names.as_slice())?,
    })
}

/// Of no more operands, and of few more names, anything is found, so that the cost grows with the lines alone.
const DEEPEST: usize = 256;

/// As many operands as a line says, but no more than lines before it can leave: nothing has arrived there yet.
fn least(alloc: Global, procedure: &Procedure) -> Result<Vec<Known>, AllocError> {
    let mut rows = Vec::new(alloc);
    for place in 0..procedure.lines.len() {
        let count = procedure.lines[place].operands.min(place).min(DEEPEST);
        let mut operands = Items::new(alloc);
        for _ in 0..count {
            operands.push(Kind::Absent)?;
        }
        let names = Items::new(alloc);
        rows.push(Known { operands, names })?;
    }
    Ok(rows)
}

/// Of each the one or the other.
fn joined(alloc: Global, one: &[Kind], other: &[Kind]) -> Result<Items<Kind>, AllocError> {
    let mut kinds = Items::new(alloc);
    for place in 0..one.len() {
        if place < other.len() {
            kinds.push(either(one[place], other[place]))?;
        }
    }
    Ok(kinds)
}

fn copied(alloc: Global, names: &[NameKind]) -> Result<Items<NameKind>, AllocError> {
    let mut copy = Items::new(alloc);
    for place in 0..names.len() {
        copy.push(names[place])?;
    }
    Ok(copy)
}

/// This arrives at a place. The first names that arrive there stay.
fn arrive(
    alloc: Global,
    rows: &mut Vec<Known>,
    place: usize,
    left: &Known,
) -> Result<(), AllocError>
    ensures { OnOk result (length rows.new.items ≡ length rows.old.items) }
{
    if place >= rows.len() {
        return Ok(());
    }
    let kinds = left.operands.as_slice();
    let covered = cover_all(rows[place].operands.as_slice(), kinds);
    if covered && rows[place].names.len() == left.names.len() {
        return Ok(());
    }
    let operands = joined(alloc, rows[place].operands.as_slice(), kinds)?;
    let names = if rows[place].names.len() == 0 {
        copied(alloc, left.names.as_slice())?
    } else {
        copied(alloc, rows[place].names.as_slice())?
    };
    rows[place] = Known { operands, names };
    Ok(())
}

/// What an instruction leaves arrives at the places after it where it leads, and what it finds where it asks again.
fn go_on(
    alloc: Global,
    rows: &mut Vec<Known>,
    place: usize,
    instr: &Instr,
    left: &Known,
) -> Result<(), AllocError>
    requires { place < length rows.old.items }
    ensures { OnOk result (length rows.new.items ≡ length rows.old.items) }
{
    let more = rows.len() - place;
    match instr {
        Instr::Trap(_, _) | Instr::TakeLine => Ok(()),
        Instr::Skip(past) if *past < more => arrive(alloc, rows, place + 1 + *past, left),
        Instr::Skip(_) => Ok(()),
        Instr::SkipIfZero(past) | Instr::SkipIfWithin(_, _, past) => {
            arrive(alloc, rows, place + 1, left)?;
            if *past < more {
                arrive(alloc, rows, place + 1 + *past, left)?;
            }
            Ok(())
        }
        Instr::Read(_) => {
            let found = behind(alloc, &taking(0), &rows[place])?;
            arrive(alloc, rows, place + 1, &found)?;
            if 2 < more {
                arrive(alloc, rows, place + 3, left)?;
            }
            Ok(())
        }
        _ => arrive(alloc, rows, place + 1, left),
    }
}

/// What is known before each line of a procedure, as far as one way over the lines finds it.
pub(crate) fn find(
    alloc: Global,
    code: &CodeModule,
    procedure: &Procedure,
) -> Result<Vec<Known>, AllocError> {
    let mut rows = least(alloc, procedure)?;
    for place in 0..procedure.lines.len() {
        if place < rows.len() {
            let instr = &procedure.lines[place].instr;
            let change = change_by(code, instr, rows[place].operands.as_slice());
            let left = behind(alloc, &change, &rows[place])?;
            go_on(alloc, &mut rows, place, instr, &left)?;
        }
    }
    Ok(rows)
}
