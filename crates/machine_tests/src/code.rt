//! Code that somebody made, and whether it is valid.

use ob_base::{Boxed, Items};
use ob_code::instr::{
    CodeModule, Entries, Entry, Extent, Instr, Length, Line, LinkedModule, NameKind, Procedure,
    Root, Target,
};
use ob_mean::{Adjustment, Callee, Operator, Relation};
use ob_verify::linked::are_linked;
use ob_verify::validate::validate;
use std::alloc::{AllocError, Global};
use std::test::Fail;

fn line(operands: usize, names: usize, instr: Instr) -> Line {
    Line {
        operands,
        names,
        instr,
    }
}

fn cells(from: usize, cells: usize) -> Root {
    Root::OfModule(Extent { from, cells })
}

fn nothing(alloc: Global) -> Entry {
    Entry {
        operands: 0,
        names: 0,
        kinds: Items::new(alloc),
        is_function: false,
    }
}

/// What is taken and left where one name is of this kind
fn naming(
    alloc: Global,
    operands: usize,
    kind: NameKind,
    is_function: bool,
) -> Result<Entry, AllocError> {
    let mut kinds = Items::new(alloc);
    kinds.push(kind)?;
    Ok(Entry {
        operands,
        names: 1,
        kinds,
        is_function,
    })
}

fn procedure(entry: Entry, cells: usize, lines: Vec<Line>) -> Procedure {
    Procedure {
        entry,
        cells,
        operand_room: 3,
        name_room: 1,
        lines,
    }
}

/// A function of a value and of a name of three cells, which gives the named variable's second cell.
fn second(alloc: Global) -> Result<Procedure, AllocError> {
    let lines = vec![in alloc;
        line(0, 0, Instr::Push(1)),
        line(1, 0, Instr::LoadAt(Root::Named(0))),
    ]?;
    let entry = naming(alloc, 1, NameKind::Cells(3), true)?;
    Ok(procedure(entry, 1, lines))
}

/// Whether code may run that has this procedure, this one as its body, three cells, and an import of two cells with a
/// procedure to which a name is passed.
fn is_code(alloc: Global, first: Procedure, body: Procedure) -> Result<bool, AllocError> {
    let known = Entries {
        cells: 2,
        exported: vec![in alloc; naming(alloc, 0, NameKind::Cells(3), false)?]?,
    };
    let code = CodeModule {
        cells: 3,
        procedures: vec![in alloc; first, body]?,
        exported: vec![in alloc; 0usize]?,
        imports: vec![in alloc; known]?,
    };
    Ok(validate(alloc, code)?.is_some())
}

/// These lines as a body
fn runs(alloc: Global, lines: Vec<Line>) -> Result<bool, AllocError> {
    is_code(alloc, second(alloc)?, procedure(nothing(alloc), 0, lines))
}

/// A name for so many of the first three cells.
fn place_of(alloc: Global, count: usize) -> Result<Instr, AllocError> {
    Ok(Instr::NamePlace(Boxed::new(alloc, cells(0, 3))?, count))
}

/// A name for an array in the first three cells: so many elements of so many cells.
fn array_of(alloc: Global, count: usize, size: usize) -> Result<Instr, AllocError> {
    let root = Boxed::new(alloc, cells(0, 3))?;
    Ok(Instr::NameArray(root, Length::Elements(count), size))
}

/// WHILE x < 3 DO INC(x) END, with the variable here, this jump to the guard and this way back
fn counting(alloc: Global, x: Root, skip: usize, back: usize) -> Result<bool, AllocError> {
    let root = Boxed::new(alloc, x)?;
    let lines = vec![in alloc;
        line(0, 0, Instr::Skip(skip)),
        line(0, 0, Instr::Push(0)),
        line(1, 0, Instr::Push(1)),
        line(2, 0, Instr::AdjustAt(Adjustment::Increase, root)),
        line(0, 0, Instr::Skip(0)),
        line(0, 0, Instr::Load(x)),
        line(1, 0, Instr::Push(3)),
        line(2, 0, Instr::Operate(Operator::Compare(Relation::Less), 1)),
        line(1, 0, Instr::EnterBack(back)),
    ]?;
    runs(alloc, lines)
}

#[test]
fn loops(rt: HostRuntime) -> Result<(), Fail> {
    let alloc = rt.alloc();
    assert!(rt; counting(alloc, cells(2, 1), 4, 7)?);
    assert!(rt; !counting(alloc, cells(2, 1), 5, 7)?);
    assert!(rt; !counting(alloc, cells(2, 1), 9, 7)?);
    assert!(rt; !counting(alloc, cells(2, 1), 4, 6)?);
    assert!(rt; !counting(alloc, cells(2, 1), 4, 9)?);
    Ok(())
}

#[test]
fn objects(rt: HostRuntime) -> Result<(), Fail> {
    let alloc = rt.alloc();
    let import = |from, cells| Root::OfImport(0, Extent { from, cells });
    assert!(rt; !counting(alloc, cells(3, 1), 4, 7)?);
    assert!(rt; counting(alloc, import(1, 1), 4, 7)?);
    assert!(rt; !counting(alloc, import(1, 2), 4, 7)?);
    assert!(rt; !counting(alloc, Root::OfImport(1, Extent { from: 0, cells: 1 }), 4, 7)?);
    assert!(rt; !counting(alloc, Root::OfCall(Extent { from: 0, cells: 1 }), 4, 7)?);
    assert!(rt; !counting(alloc, Root::Named(0), 4, 7)?);
    Ok(())
}

/// This place in an object of three cells is read.
fn reading_at(alloc: Global, at: Vec<Line>) -> Result<bool, AllocError> {
    let mut lines = at;
    lines.push(line(1, 0, Instr::LoadAt(cells(0, 3))))?;
    lines.push(line(1, 0, Instr::Drop))?;
    runs(alloc, lines)
}

#[test]
fn places(rt: HostRuntime) -> Result<(), Fail> {
    let alloc = rt.alloc();
    let first = |k| vec![in alloc; line(0, 0, Instr::Push(k))];
    let field = |n| vec![in alloc; line(0, 0, Instr::Push(0)), line(1, 0, Instr::AddOffset(n))];
    assert!(rt; reading_at(alloc, first(2)?)?);
    assert!(rt; !reading_at(alloc, first(3)?)?);
    assert!(rt; !reading_at(alloc, first(70000)?)?);
    assert!(rt; !reading_at(alloc, first(-1)?)?);
    assert!(rt; reading_at(alloc, field(2)?)?);
    assert!(rt; !reading_at(alloc, field(3)?)?);
    assert!(rt; !reading_at(alloc, vec![in alloc; line(0, 0, Instr::Load(cells(0, 1)))]?)?);
    Ok(())
}

/// An element of an array of so many, each of so many cells
fn element(alloc: Global, count: usize, size: usize) -> Result<bool, AllocError> {
    let lines = vec![in alloc;
        line(0, 0, Instr::Push(0)),
        line(1, 0, Instr::Load(cells(0, 1))),
        line(2, 0, Instr::Index(Length::Elements(count), size, 1)),
    ]?;
    reading_at(alloc, lines)
}

#[test]
fn elements(rt: HostRuntime) -> Result<(), Fail> {
    let alloc = rt.alloc();
    assert!(rt; element(alloc, 3, 1)?);
    assert!(rt; !element(alloc, 4, 1)?);
    assert!(rt; !element(alloc, 3, 2)?);
    assert!(rt; element(alloc, 2, 2)?);
    Ok(())
}

/// A call with this many operands and names before it and after it
fn calling(
    alloc: Global,
    callee: Callee,
    operands: usize,
    names: usize,
    left: usize,
) -> Result<bool, AllocError> {
    let place = place_of(alloc, 3)?;
    let lines = vec![in alloc;
        line(0, 0, Instr::Push(5)),
        line(1, 0, Instr::Push(0)),
        line(2, 0, place),
        line(operands, names, Instr::Invoke(callee, 1)),
        line(left, 0, Instr::Drop),
    ]?;
    runs(alloc, lines)
}

#[test]
fn calls(rt: HostRuntime) -> Result<(), Fail> {
    let alloc = rt.alloc();
    assert!(rt; calling(alloc, Callee::OfModule(0), 1, 1, 1)?);
    assert!(rt; calling(alloc, Callee::OfImport(0, 0), 1, 1, 1)?);
    assert!(rt; !calling(alloc, Callee::OfModule(0), 1, 0, 1)?);
    assert!(rt; !calling(alloc, Callee::OfModule(0), 1, 1, 0)?);
    assert!(rt; !calling(alloc, Callee::OfModule(1), 1, 1, 1)?);
    assert!(rt; !calling(alloc, Callee::OfModule(2), 1, 1, 1)?);
    assert!(rt; !calling(alloc, Callee::OfImport(0, 1), 1, 1, 1)?);
    assert!(rt; !calling(alloc, Callee::OfImport(1, 0), 1, 1, 1)?);
    Ok(())
}

/// A procedure that takes this name, with these lines
fn with_name(alloc: Global, kind: NameKind, lines: Vec<Line>) -> Result<bool, AllocError> {
    let mut first = procedure(naming(alloc, 0, kind, false)?, 1, lines);
    first.name_room = 2;
    is_code(alloc, first, procedure(nothing(alloc), 0, Vec::new(alloc)))
}

/// The cell of this number in what the name stands for is read.
fn named_at(alloc: Global, kind: NameKind, number: i32) -> Result<bool, AllocError> {
    let lines = vec![in alloc;
        line(0, 0, Instr::Push(number)),
        line(1, 0, Instr::LoadAt(Root::Named(0))),
        line(1, 0, Instr::Drop),
    ]?;
    with_name(alloc, kind, lines)
}

/// The name is indexed as an open array of elements of so many cells, of which the cell of this number is read.
fn indexed(alloc: Global, size: usize, cell: usize) -> Result<bool, AllocError> {
    let lines = vec![in alloc;
        line(0, 0, Instr::Push(0)),
        line(1, 0, Instr::Load(cells(0, 1))),
        line(2, 0, Instr::Index(Length::OfName(0), size, 1)),
        line(1, 0, Instr::AddOffset(cell)),
        line(1, 0, Instr::LoadAt(Root::Named(0))),
        line(1, 0, Instr::Drop),
    ]?;
    with_name(alloc, NameKind::ArrayOf(2), lines)
}

/// So many cells of the module, or an array of elements of so many, are passed where this name is wanted.
fn passed(alloc: Global, kind: NameKind, name: Instr) -> Result<bool, AllocError> {
    let lines = vec![in alloc;
        line(0, 0, Instr::Push(0)),
        line(1, 0, name),
        line(0, 1, Instr::Invoke(Callee::OfModule(0), 1)),
    ]?;
    let first = procedure(naming(alloc, 0, kind, false)?, 0, Vec::new(alloc));
    is_code(alloc, first, procedure(nothing(alloc), 0, lines))
}

#[test]
fn names(rt: HostRuntime) -> Result<(), Fail> {
    let alloc = rt.alloc();
    assert!(rt; named_at(alloc, NameKind::Cells(3), 2)?);
    assert!(rt; !named_at(alloc, NameKind::Cells(2), 2)?);
    assert!(rt; !named_at(alloc, NameKind::ArrayOf(3), 2)?);
    assert!(rt; indexed(alloc, 2, 1)?);
    assert!(rt; !indexed(alloc, 2, 2)?);
    assert!(rt; !indexed(alloc, 3, 1)?);
    assert!(rt; !indexed(alloc, 1, 0)?);
    assert!(rt; passed(alloc, NameKind::Cells(3), place_of(alloc, 3)?)?);
    assert!(rt; !passed(alloc, NameKind::Cells(3), place_of(alloc, 2)?)?);
    assert!(rt; passed(alloc, NameKind::ArrayOf(1), array_of(alloc, 3, 1)?)?);
    assert!(rt; !passed(alloc, NameKind::ArrayOf(1), array_of(alloc, 4, 1)?)?);
    assert!(rt; !passed(alloc, NameKind::ArrayOf(1), array_of(alloc, 1, 3)?)?);
    Ok(())
}

/// In.Int(x), with this instruction where the line is asked for
fn reading(alloc: Global, ask: Instr) -> Result<bool, AllocError> {
    let target = Boxed::new(alloc, Target::Int(cells(0, 1)))?;
    let lines = vec![in alloc;
        line(0, 0, Instr::Push(0)),
        line(1, 0, Instr::CallInput),
        line(1, 0, Instr::Read(target)),
        line(1, 0, ask),
        line(1, 0, Instr::TakeLine),
    ]?;
    runs(alloc, lines)
}

#[test]
fn input(rt: HostRuntime) -> Result<(), Fail> {
    let alloc = rt.alloc();
    assert!(rt; reading(alloc, Instr::AskLine)?);
    assert!(rt; !reading(alloc, Instr::CallInput)?);
    assert!(rt; !runs(alloc, vec![in alloc; line(0, 0, Instr::TakeLine)]?)?);
    Ok(())
}

#[test]
fn procedures(rt: HostRuntime) -> Result<(), Fail> {
    let alloc = rt.alloc();
    assert!(rt; runs(alloc, Vec::new(alloc))?);
    assert!(rt; !runs(alloc, vec![in alloc; line(0, 0, Instr::Push(1))]?)?);
    let second_as_body = is_code(alloc, second(alloc)?, second(alloc)?)?;
    assert!(rt; !second_as_body);
    let body_with_cells = is_code(
        alloc,
        second(alloc)?,
        procedure(nothing(alloc), 1, Vec::new(alloc)),
    )?;
    assert!(rt; !body_with_cells);
    let mut without_cells = second(alloc)?;
    without_cells.cells = 0;
    assert!(rt;
        !is_code(
            alloc,
            without_cells,
            procedure(nothing(alloc), 0, Vec::new(alloc))
        )?
    );
    let mut without_result = second(alloc)?;
    without_result.entry.is_function = false;
    assert!(rt;
        !is_code(
            alloc,
            without_result,
            procedure(nothing(alloc), 0, Vec::new(alloc))
        )?
    );
    Ok(())
}

/// Two modules of two and of one cell, of which the second imports the first, and knows it so. The first exports `second`.
fn links(
    alloc: Global,
    first_cell: usize,
    import: usize,
    known: Entries,
    may_run: &[bool],
) -> Result<bool, AllocError> {
    let imported = CodeModule {
        cells: 2,
        procedures: vec![in alloc;
            second(alloc)?,
            procedure(nothing(alloc), 0, Vec::new(alloc)),
        ]?,
        exported: vec![in alloc; 0usize]?,
        imports: Vec::new(alloc),
    };
    let client = CodeModule {
        cells: 1,
        procedures: vec![in alloc; procedure(nothing(alloc), 0, Vec::new(alloc))]?,
        exported: Vec::new(alloc),
        imports: vec![in alloc; known]?,
    };
    let modules = vec![in alloc;
        LinkedModule {
            code: imported,
            imports: Vec::new(alloc),
            cells: 0
        },
        LinkedModule {
            code: client,
            imports: vec![in alloc; import]?,
            cells: first_cell
        },
    ]?;
    Ok(are_linked(&modules, may_run))
}

fn known(
    alloc: Global,
    cells: usize,
    kind: NameKind,
    is_function: bool,
) -> Result<Entries, AllocError> {
    Ok(Entries {
        cells,
        exported: vec![in alloc; naming(alloc, 1, kind, is_function)?]?,
    })
}

#[test]
fn linking(rt: HostRuntime) -> Result<(), Fail> {
    let alloc = rt.alloc();
    let both = [true, true];
    let named = NameKind::Cells(3);
    assert!(rt; links(alloc, 2, 0, known(alloc, 2, named, true)?, &both)?);
    assert!(rt; links(alloc, 2, 0, known(alloc, 1, named, true)?, &both)?);
    assert!(rt; !links(alloc, 1, 0, known(alloc, 2, named, true)?, &both)?);
    assert!(rt; !links(alloc, 2, 2, known(alloc, 2, named, true)?, &both)?);
    assert!(rt; !links(alloc, 2, 0, known(alloc, 3, named, true)?, &both)?);
    assert!(rt;
        !links(
            alloc,
            2,
            0,
            known(alloc, 2, NameKind::Cells(2), true)?,
            &both
        )?
    );
    assert!(rt; !links(alloc, 2, 0, known(alloc, 2, named, false)?, &both)?);
    assert!(rt;
        !links(
            alloc,
            2,
            0,
            known(alloc, 2, NameKind::ArrayOf(3), true)?,
            &both
        )?
    );
    // a module that doesn't fit its import may stay, but neither it nor what imports it may run
    assert!(rt; links(alloc, 2, 0, known(alloc, 3, named, true)?, &[true, false])?);
    assert!(rt; !links(alloc, 2, 0, known(alloc, 2, named, true)?, &[false, true])?);
    Ok(())
}
