//! Code that somebody made, in which names tell the types of records.

use crate::compiled::code_comes_to;
use crate::reference::Seen;
use ob_base::{Boxed, Items, Shared, SharedItems, Text};
use ob_code::instr::{CodeModule, Entry, Extent, Instr, Line, NameKind, Procedure, Root};
use ob_mean::{Callee, Outcome, TrapKind, TypeName};
use ob_reference_store::stop::NoAnswer;
use ob_verify::validate::validate;
use std::alloc::{AllocError, Global};
use std::test::Fail;

type Types = SharedItems<TypeName>;

/// A record type: its own name, and those of its bases, each with its cells
fn record(alloc: Global, names: &[(&[u8], usize)]) -> Result<Types, AllocError> {
    let mut types = Items::new(alloc);
    for place in 0..names.len() {
        let (text, cells) = names[place];
        let text = Shared::new(alloc, Text::from_slice(alloc, text)?)?;
        types.push(TypeName { text, cells })?;
    }
    SharedItems::new(alloc, types)
}

/// A name for a record there of this type, for a parameter that counts on so many cells
fn named(alloc: Global, root: Root, types: Types, cells: usize) -> Result<Instr, AllocError> {
    Ok(Instr::NameRecord(Boxed::new(alloc, root)?, types, cells))
}

/// T of one cell; U and O, which extend it, of two; and W, which extends U, of three
fn t(alloc: Global) -> Result<Types, AllocError> {
    record(alloc, &[(b"T", 1)])
}

fn u(alloc: Global) -> Result<Types, AllocError> {
    record(alloc, &[(b"U", 2), (b"T", 1)])
}

fn o(alloc: Global) -> Result<Types, AllocError> {
    record(alloc, &[(b"O", 2), (b"T", 1)])
}

fn w(alloc: Global) -> Result<Types, AllocError> {
    record(alloc, &[(b"W", 3), (b"U", 2), (b"T", 1)])
}

fn line(operands: usize, names: usize, instr: Instr) -> Line {
    Line {
        operands,
        names,
        instr,
    }
}

fn cells(from: usize, cells: usize) -> Root {
    Root::OfModule(Extent { from, cells })
}

/// A procedure with one name of this kind, or with none
fn procedure(
    alloc: Global,
    kind: Option<NameKind>,
    lines: Vec<Line>,
) -> Result<Procedure, AllocError> {
    let mut kinds = Items::new(alloc);
    if let Some(kind) = kind {
        kinds.push(kind)?;
    }
    Ok(Procedure {
        entry: Entry {
            operands: 0,
            names: kinds.len(),
            kinds,
            is_function: false,
        },
        cells: 0,
        operand_room: 3,
        name_room: 1,
        lines,
    })
}

/// A module of these procedures, of which the last is its body, with three cells
fn module(alloc: Global, procedures: Vec<Procedure>) -> CodeModule {
    CodeModule {
        cells: 3,
        procedures,
        exported: Vec::new(alloc),
        imports: Vec::new(alloc),
    }
}

/// Whether code may run that has a procedure with a name of this kind and these lines.
fn is_valid(alloc: Global, kind: NameKind, lines: Vec<Line>) -> Result<bool, AllocError> {
    let first = procedure(alloc, Some(kind), lines)?;
    let body = procedure(alloc, None, Vec::new(alloc))?;
    let code = module(alloc, vec![in alloc; first, body]?);
    Ok(validate(alloc, code)?.is_some())
}

const CAUGHT: TrapKind = TrapKind::Assertion;

/// A guard of this type, then the cell of this number there
fn guarded_cell(
    alloc: Global,
    kind: NameKind,
    types: Types,
    cell: usize,
) -> Result<bool, AllocError> {
    let lines = vec![in alloc;
        line(0, 0, Instr::Push(0)),
        line(1, 0, Instr::Guard(0, types, CAUGHT, 1)),
        line(1, 0, Instr::AddOffset(cell)),
        line(1, 0, Instr::LoadAt(Root::Named(0))),
        line(1, 0, Instr::Drop),
    ]?;
    is_valid(alloc, kind, lines)
}

/// The cell of this number without a guard
fn plain_cell(alloc: Global, kind: NameKind, cell: i32) -> Result<bool, AllocError> {
    let lines = vec![in alloc;
        line(0, 0, Instr::Push(cell)),
        line(1, 0, Instr::LoadAt(Root::Named(0))),
        line(1, 0, Instr::Drop),
    ]?;
    is_valid(alloc, kind, lines)
}

#[test]
fn windows(rt: HostRuntime) -> Result<(), Fail> {
    let alloc = rt.alloc();
    let own = NameKind::RecordOf(1);
    assert!(rt; plain_cell(alloc, own, 0)?);
    assert!(rt; !plain_cell(alloc, own, 1)?);
    assert!(rt; guarded_cell(alloc, own, u(alloc)?, 1)?);
    assert!(rt; !guarded_cell(alloc, own, u(alloc)?, 2)?);
    assert!(rt; !guarded_cell(alloc, own, t(alloc)?, 1)?);
    assert!(rt; !guarded_cell(alloc, NameKind::Cells(1), u(alloc)?, 1)?);
    assert!(rt; !guarded_cell(alloc, NameKind::ArrayOf(1), u(alloc)?, 1)?);
    Ok(())
}

/// Whether a name that is made so may be passed where this one is wanted, by a procedure with a name of this kind.
fn passes(
    alloc: Global,
    own: NameKind,
    guard: Option<Types>,
    name: Instr,
    wanted: NameKind,
) -> Result<bool, AllocError> {
    let mut lines = vec![in alloc; line(0, 0, Instr::Push(0))]?;
    if let Some(types) = guard {
        lines.push(line(1, 0, Instr::Guard(0, types, CAUGHT, 1)))?;
    }
    lines.push(line(1, 0, name))?;
    lines.push(line(0, 1, Instr::Invoke(Callee::OfModule(1), 1)))?;
    let procedures = vec![in alloc;
        procedure(alloc, Some(own), lines)?,
        procedure(alloc, Some(wanted), Vec::new(alloc))?,
        procedure(alloc, None, Vec::new(alloc))?,
    ]?;
    Ok(validate(alloc, module(alloc, procedures))?.is_some())
}

#[test]
fn names_of_records(rt: HostRuntime) -> Result<(), Fail> {
    let alloc = rt.alloc();
    let one = NameKind::RecordOf(1);
    let two = NameKind::RecordOf(2);
    let three = NameKind::RecordOf(3);
    assert!(rt;
        passes(
            alloc,
            one,
            None,
            named(alloc, cells(0, 2), u(alloc)?, 1)?,
            one
        )?
    );
    assert!(rt;
        passes(
            alloc,
            one,
            None,
            named(alloc, cells(0, 3), u(alloc)?, 2)?,
            two
        )?
    );
    // an object that is too small, more cells than the type has, and a base of more cells
    assert!(rt;
        !passes(
            alloc,
            one,
            None,
            named(alloc, cells(0, 1), u(alloc)?, 1)?,
            one
        )?
    );
    assert!(rt;
        !passes(
            alloc,
            one,
            None,
            named(alloc, cells(0, 3), u(alloc)?, 3)?,
            three
        )?
    );
    let wide = record(alloc, &[(b"U", 2), (b"T", 3)])?;
    assert!(rt; !passes(alloc, one, None, named(alloc, cells(0, 3), wide, 1)?, one)?);
    // a name once more
    assert!(rt; passes(alloc, two, None, Instr::NameAgain(0, 1), one)?);
    assert!(rt; passes(alloc, two, None, Instr::NameAgain(0, 2), two)?);
    assert!(rt; !passes(alloc, two, None, Instr::NameAgain(0, 3), three)?);
    assert!(rt; passes(alloc, two, Some(w(alloc)?), Instr::NameAgain(0, 3), three)?);
    assert!(rt; !passes(alloc, NameKind::Cells(2), None, Instr::NameAgain(0, 1), one)?);
    assert!(rt; !passes(alloc, two, None, Instr::NameAgain(1, 1), one)?);
    Ok(())
}

/// Writes whether what the name stands for is of each of these types
fn tests(alloc: Global, types: &[Types], next: Option<usize>) -> Result<Vec<Line>, AllocError> {
    let mut lines = Vec::new(alloc);
    for place in 0..types.len() {
        lines.push(line(0, 0, Instr::Push(0)))?;
        lines.push(line(1, 0, Instr::Test(0, types[place].another()?)))?;
        lines.push(line(1, 0, Instr::Push(0)))?;
        lines.push(line(2, 0, Instr::PutInt))?;
    }
    if let Some(next) = next {
        lines.push(line(0, 0, Instr::Push(0)))?;
        lines.push(line(1, 0, Instr::NameAgain(0, 1)))?;
        lines.push(line(0, 1, Instr::Invoke(Callee::OfModule(next), 1)))?;
    }
    Ok(lines)
}

/// A body that passes a record of this type to the first procedure
fn passing(alloc: Global, types: Types) -> Result<Procedure, AllocError> {
    let name = named(alloc, cells(0, 3), types, 1)?;
    let lines = vec![in alloc;
        line(0, 0, Instr::Push(0)),
        line(1, 0, name),
        line(0, 1, Instr::Invoke(Callee::OfModule(0), 1)),
    ]?;
    procedure(alloc, None, lines)
}

/// What two procedures write of a record of this type, of which the first passes it on to the second
fn told(alloc: Global, types: Types, said: &str) -> Result<bool, NoAnswer> {
    let asked = [t(alloc)?, u(alloc)?, o(alloc)?, w(alloc)?];
    let own = Some(NameKind::RecordOf(1));
    let procedures = vec![in alloc;
        procedure(alloc, own, tests(alloc, &asked, Some(1))?)?,
        procedure(alloc, own, tests(alloc, &asked, None)?)?,
        passing(alloc, types)?,
    ]?;
    code_comes_to(
        alloc,
        module(alloc, procedures),
        100,
        (Outcome::Ended, said, 90),
    )
}

#[test]
fn types_are_told(rt: HostRuntime) -> Result<(), Fail> {
    let alloc = rt.alloc();
    assert!(rt; told(alloc, t(alloc)?, "10001000")?);
    assert!(rt; told(alloc, u(alloc)?, "11001100")?);
    assert!(rt; told(alloc, o(alloc)?, "10101010")?);
    assert!(rt; told(alloc, w(alloc)?, "11011101")?);
    Ok(())
}

/// A record of this type is guarded as U, and its second cell gets 7, which is written.
fn guarded(alloc: Global, types: Types, said: Seen<'_>) -> Result<bool, NoAnswer> {
    let lines = vec![in alloc;
        line(0, 0, Instr::Push(0)),
        line(1, 0, Instr::Guard(0, u(alloc)?, CAUGHT, 5)),
        line(1, 0, Instr::AddOffset(1)),
        line(1, 0, Instr::Push(7)),
        line(2, 0, Instr::StoreAt(Root::Named(0))),
        line(0, 0, Instr::Load(cells(1, 1))),
        line(1, 0, Instr::Push(0)),
        line(2, 0, Instr::PutInt),
    ]?;
    let procedures = vec![in alloc;
        procedure(alloc, Some(NameKind::RecordOf(1)), lines)?,
        passing(alloc, types)?,
    ]?;
    code_comes_to(alloc, module(alloc, procedures), 100, said)
}

#[test]
fn guards(rt: HostRuntime) -> Result<(), Fail> {
    let alloc = rt.alloc();
    let passed = (Outcome::Ended, "7", 98);
    assert!(rt; guarded(alloc, u(alloc)?, passed)?);
    assert!(rt; guarded(alloc, w(alloc)?, passed)?);
    let caught = (Outcome::Trapped(CAUGHT, 0, 5), "", 99);
    assert!(rt; guarded(alloc, t(alloc)?, caught)?);
    assert!(rt; guarded(alloc, o(alloc)?, caught)?);
    Ok(())
}
