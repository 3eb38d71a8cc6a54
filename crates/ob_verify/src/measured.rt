//! Whether so much is known of the operands and names before each line. `keeps` hands on to `object_keeps`, `record_keeps` and
//! `jump_keeps` what it doesn't know: each takes the code, the procedure, its rows and the row at hand, since the clause that they
//! share, `Keeps`, speaks of them all.

ghost use Rattle.std.specs.Prelude.{◌≡◌, ℕ, ◌++◌, ◌-◌, ◌<◌, ◌≤◌, [], ◌∷◌, length, take, drop, option_copied, IsTrue, Some, slice_get};
ghost use Rattle.ob_code.specs.Kinds.{LieAmong, LieInElement, LieInRecord, LieInName, Lie, IsLong, ArrayLies, TextLies, TargetLies, LengthIs, TellsType, IsFew, ArePassed, CoverAll, with_top, results_kinds, nothing, OperandsArrive, NamesArrive, Arrives, known_at, listed, Keeps, HasKinds};
ghost use Rattle.ob_mean.specs.RecordTypes.{AtMost};
ghost use Rattle.ob_code.specs.declared.instr.Line.{Line as LineOf};
ghost use Rattle.ob_code.specs.declared.instr.NameKind.TheVariants.{ArrayOf};

use crate::kinds::{
    NUMBERS, are_same, cells_of, cover_all, covers, element, first, guarded, literal, moved, second,
};
use crate::validate::entry_of;
use ob_code::instr::{
    CodeModule, Entry, Instr, Length, Line, NameKind, Procedure, Root, Span, Target,
};
use ob_code::kinds::{Kind, Known};
use ob_mean::TypeName;

fn lie_among(cells: usize, kind: Kind, count: usize) -> bool
    ensures { IsTrue result → LieAmong cells kind count }
{
    match kind {
        Kind::Number => false,
        Kind::UpTo(most) => most <= cells && count <= cells - most,
        Kind::Inside(_, _, _) => false,
        Kind::Guarded(_, _, _) => false,
        Kind::Absent => true,
    }
}

fn lie_in_element(name: usize, size: usize, kind: Kind, count: usize) -> bool
    ensures { IsTrue result → LieInElement name size kind count }
{
    match kind {
        Kind::Number | Kind::UpTo(_) | Kind::Guarded(_, _, _) => false,
        Kind::Inside(other, cells, most) => {
            other == name && cells == size && most <= size && count <= size - most
        }
        Kind::Absent => true,
    }
}

fn lie_in_record(name: usize, cells: usize, kind: Kind, count: usize) -> bool
    ensures { IsTrue result → LieInRecord name cells kind count }
{
    match kind {
        Kind::Number | Kind::Inside(_, _, _) => false,
        Kind::UpTo(most) => most <= cells && count <= cells - most,
        Kind::Guarded(other, more, most) => {
            other == name && most <= more && count <= more - most
        }
        Kind::Absent => true,
    }
}

fn lie_in_name(named: Option<&NameKind>, name: usize, kind: Kind, count: usize) -> bool
    ensures { IsTrue result → LieInName (option_copied named.entry) name kind count }
{
    match named {
        Some(NameKind::Cells(cells)) => *cells >= NUMBERS || lie_among(*cells, kind, count),
        Some(NameKind::ArrayOf(size)) => lie_in_element(name, *size, kind, count),
        Some(NameKind::RecordOf(cells)) => {
            *cells >= NUMBERS || lie_in_record(name, *cells, kind, count)
        }
        None => false,
    }
}

fn lie(names: &[NameKind], root: Root, kind: Kind, count: usize) -> bool
    ensures { IsTrue result → Lie names.now root kind count }
{
    match root {
        Root::OfModule(extent) => lie_among(extent.cells, kind, count),
        Root::OfImport(_, extent) => lie_among(extent.cells, kind, count),
        Root::OfCall(extent) => lie_among(extent.cells, kind, count),
        Root::Named(name) => lie_in_name(names.get(name), name, kind, count),
    }
}

/// Whether a name stands for an array whose elements have `size` cells.
fn is_array(names: &[NameKind], name: usize, size: usize) -> bool
    ensures { IsTrue result → slice_get names.now name ≡ Some (ArrayOf size) }
{
    match names.get(name) {
        Some(NameKind::ArrayOf(cells)) => *cells == size,
        _ => false,
    }
}

fn is_long(names: &[NameKind], root: Root, name: usize, size: usize) -> bool
    ensures { IsTrue result → IsLong names.now root name size }
{
    match root {
        Root::Named(own) => own == name && is_array(names, own, size),
        Root::OfModule(_) => false,
        Root::OfImport(_, _) => false,
        Root::OfCall(_) => false,
    }
}

fn array_lies(names: &[NameKind], root: Root, length: Length, size: usize, kind: Kind) -> bool
    ensures { IsTrue result → ArrayLies names.now root length size kind }
{
    match length {
        Length::Elements(count) => match count.checked_mul(size) {
            Some(cells) => lie(names, root, kind, cells),
            None => false,
        },
        Length::OfName(name) => is_long(names, root, name, size) && covers(Kind::UpTo(0), kind),
    }
}

fn text_lies(names: &[NameKind], span: Span, kind: Kind) -> bool
    ensures { IsTrue result → TextLies names.now span kind }
{
    array_lies(names, span.root, span.length, 1, kind)
}

fn target_lies(names: &[NameKind], target: Target, kind: Kind) -> bool
    ensures { IsTrue result → TargetLies names.now target kind }
{
    match target {
        Target::Char(root) => lie(names, root, kind, 1),
        Target::Int(root) => lie(names, root, kind, 1),
        Target::String(span) => text_lies(names, span, kind),
        Target::Name(span) => text_lies(names, span, kind),
    }
}

fn length_is(names: &[NameKind], length: Length, size: usize) -> bool
    ensures { IsTrue result → LengthIs names.now length size }
{
    match length {
        Length::Elements(_) => true,
        Length::OfName(name) => is_array(names, name, size),
    }
}

/// A name that tells the type of a record.
fn tells_type(named: Option<&NameKind>) -> bool
    ensures { IsTrue result → TellsType (option_copied named.entry) }
{
    match named {
        Some(NameKind::RecordOf(_)) => true,
        _ => false,
    }
}

/// Records of these types take no more cells.
fn are_at_most(most: usize, types: &[TypeName]) -> bool
    ensures { IsTrue result → AtMost most types.now }
{
    for place in 0..types.len() {
        if types[place].cells > most {
            return false;
        }
    }
    true
}

fn is_few(root: Root) -> bool
    ensures { IsTrue result → IsFew root }
{
    match root {
        Root::OfModule(extent) => extent.cells < NUMBERS,
        Root::OfImport(_, extent) => extent.cells < NUMBERS,
        Root::OfCall(extent) => extent.cells < NUMBERS,
        Root::Named(_) => true,
    }
}

/// What is expected of the operands below, and of one on top where there is one.
fn covers_top(expected: &[Kind], top: Option<Kind>, rest: &[Kind]) -> bool
    ensures { IsTrue result → CoverAll expected.now (with_top top rest.now) }
{
    match top {
        None => cover_all(expected, rest),
        Some(kind) => match expected {
            [] => false,
            [first, others @ ..] => covers(*first, kind) && cover_all(others, rest),
        },
    }
}

/// At the end of the lines a result is left, or nothing.
fn ends(gives: bool, top: Option<Kind>, rest: &[Kind]) -> bool
    ensures { IsTrue result → CoverAll (results_kinds gives) (with_top top rest.now) }
{
    if gives {
        covers_top(&[Kind::Number], top, rest)
    } else {
        covers_top(&[], top, rest)
    }
}

/// A place where no more is known of operands than of these.
fn operands_arrive(
    procedure: &Procedure,
    rows: &[Known],
    place: usize,
    top: Option<Kind>,
    rest: &[Kind],
) -> bool
    ensures { IsTrue result → OperandsArrive (known_at procedure.now (listed rows.now) place) (with_top top rest.now) }
{
    match procedure.lines.get(place) {
        Some(_) => match rows.get(place) {
            Some(row) => covers_top(row.operands.as_slice(), top, rest),
            None => covers_top(&[], top, rest),
        },
        None if place == procedure.lines.len() => ends(procedure.entry.is_function, top, rest),
        None => false,
    }
}

/// A place with these names.
fn names_arrive(procedure: &Procedure, rows: &[Known], place: usize, names: &[NameKind]) -> bool
    ensures { IsTrue result → NamesArrive (known_at procedure.now (listed rows.now) place) names.now }
{
    match procedure.lines.get(place) {
        Some(_) => match rows.get(place) {
            Some(row) => are_same(row.names.as_slice(), names),
            None => are_same(&[], names),
        },
        None if place == procedure.lines.len() => are_same(&[], names),
        None => false,
    }
}

/// A place with these names, and this one after them.
fn name_arrives(
    procedure: &Procedure,
    rows: &[Known],
    place: usize,
    names: &[NameKind],
    name: NameKind,
) -> bool
    ensures { IsTrue result → NamesArrive (known_at procedure.now (listed rows.now) place) (names.now ++ name ∷ []) }
{
    match procedure.lines.get(place) {
        Some(_) => match rows.get(place) {
            Some(row) => is_one_more(row.names.as_slice(), names, name),
            None => false,
        },
        None => false,
    }
}

/// Whether these are the others, and one after them.
fn is_one_more(all: &[NameKind], others: &[NameKind], name: NameKind) -> bool
    ensures { IsTrue result → all.now ≡ others.now ++ name ∷ [] }
{
    if all.len() != others.len() + 1 {
        return false;
    }
    let (front, back) = all.split_at(others.len());
    are_same(front, others) && are_same(back, &[name])
}

/// Whether `taken` operands are there to take.
fn operands_lead(
    procedure: &Procedure,
    rows: &[Known],
    kinds: &[Kind],
    place: usize,
    taken: usize,
    top: Option<Kind>,
) -> bool
    ensures { IsTrue result → (taken ≤ length kinds.now) × OperandsArrive (known_at procedure.now (listed rows.now) place) (with_top top (drop taken kinds.now)) }
{
    if taken > kinds.len() {
        return false;
    }
    let (_, rest) = kinds.split_at(taken);
    operands_arrive(procedure, rows, place, top, rest)
}

/// Whether a place is reached with `taken` operands fewer and `top` on top of them, and the same names.
fn leads(
    procedure: &Procedure,
    rows: &[Known],
    known: &Known,
    place: usize,
    taken: usize,
    top: Option<Kind>,
) -> bool
    ensures taken { IsTrue result → taken ≤ length known.now.operands }
    ensures arrives { IsTrue result → Arrives (known_at procedure.now (listed rows.now) place) (record { operands = with_top top (drop taken known.now.operands); names = known.now.names }) }
{
    let kinds = known.operands.as_slice();
    operands_lead(procedure, rows, kinds, place, taken, top)
        && names_arrive(procedure, rows, place, known.names.as_slice())
}

/// The same of one operand fewer, and a name more.
fn names_one(
    procedure: &Procedure,
    rows: &[Known],
    known: &Known,
    place: usize,
    name: NameKind,
) -> bool
    ensures taken { IsTrue result → 1 ≤ length known.now.operands }
    ensures arrives { IsTrue result → Arrives (known_at procedure.now (listed rows.now) place) (record { operands = drop 1 known.now.operands; names = known.now.names ++ name ∷ [] }) }
{
    let kinds = known.operands.as_slice();
    operands_lead(procedure, rows, kinds, place, 1, None)
        && name_arrives(procedure, rows, place, known.names.as_slice(), name)
}

/// A call that finds its operands and names, and leads to a place with those that it leaves.
fn calls(procedure: &Procedure, rows: &[Known], known: &Known, place: usize, entry: &Entry) -> bool
    ensures taken { IsTrue result → entry.now.operands ≤ length known.now.operands }
    ensures passed { IsTrue result → ArePassed (Some entry.now) known.now.names }
    ensures arrives { IsTrue result → Arrives (known_at procedure.now (listed rows.now) place) (record { operands = results_kinds entry.now.is_function ++ drop entry.now.operands known.now.operands; names = take (length known.now.names - entry.now.names) known.now.names }) }
{
    let names = known.names.as_slice();
    if entry.names > names.len() {
        return false;
    }
    let (rest, passed) = names.split_at(names.len() - entry.names);
    let top = if entry.is_function {
        Some(Kind::Number)
    } else {
        None
    };
    are_same(passed, entry.kinds.as_slice())
        && operands_lead(
            procedure,
            rows,
            known.operands.as_slice(),
            place,
            entry.operands,
            top,
        )
        && names_arrive(procedure, rows, place, rest)
}

/// Whether an instruction finds what it takes and what it asks for, and no place where it leads knows more than it leaves.
fn keeps(
    code: &CodeModule,
    procedure: &Procedure,
    rows: &[Known],
    known: &Known,
    place: usize,
    instr: &Instr,
) -> bool
    requires { place < length procedure.now.lines.items }
    ensures { IsTrue result → Keeps code.now procedure.now (listed rows.now) place known.now instr.now }
{
    let next = place + 1;
    match instr {
        Instr::Push(value) => leads(procedure, rows, known, next, 0, Some(literal(*value))),
        Instr::Drop => leads(procedure, rows, known, next, 1, None),
        Instr::PushDone => leads(procedure, rows, known, next, 0, Some(Kind::Number)),
        Instr::Unary(_, _) => leads(procedure, rows, known, next, 1, Some(Kind::Number)),
        Instr::Operate(_, _) => leads(procedure, rows, known, next, 2, Some(Kind::Number)),
        Instr::AddOffset(cells) => leads(
            procedure,
            rows,
            known,
            next,
            1,
            Some(moved(*cells, first(known.operands.as_slice()))),
        ),
        Instr::Index(length, size, _) => {
            let array = second(known.operands.as_slice());
            length_is(procedure.entry.kinds.as_slice(), *length, *size)
                && leads(
                    procedure,
                    rows,
                    known,
                    next,
                    2,
                    Some(element(*length, *size, array)),
                )
        }
        Instr::TakeLength(_) => leads(procedure, rows, known, next, 1, Some(Kind::Number)),
        Instr::Enter => leads(procedure, rows, known, next, 0, None),
        Instr::Trap(_, _) => true,
        Instr::Assert(_) => leads(procedure, rows, known, next, 1, None),
        Instr::OpenInput => leads(procedure, rows, known, next, 0, None),
        Instr::CallInput => leads(procedure, rows, known, next, 0, None),
        Instr::AskLine => leads(procedure, rows, known, next, 0, None),
        Instr::OpenOutput => leads(procedure, rows, known, next, 0, None),
        Instr::PutChar => leads(procedure, rows, known, next, 1, None),
        Instr::PutInt => leads(procedure, rows, known, next, 2, None),
        Instr::PutLine => leads(procedure, rows, known, next, 0, None),
        _ => object_keeps(code, procedure, rows, known, place, instr),
    }
}

/// An instruction that names an object.
fn object_keeps(
    code: &CodeModule,
    procedure: &Procedure,
    rows: &[Known],
    known: &Known,
    place: usize,
    instr: &Instr,
) -> bool
    requires { place < length procedure.now.lines.items }
    ensures { IsTrue result → Keeps code.now procedure.now (listed rows.now) place known.now instr.now }
{
    let next = place + 1;
    let own = procedure.entry.kinds.as_slice();
    let top = first(known.operands.as_slice());
    let under = second(known.operands.as_slice());
    match instr {
        Instr::Load(root) => lie(own, *root, Kind::UpTo(0), 1)
            && leads(procedure, rows, known, next, 0, Some(Kind::Number)),
        Instr::Store(root) => lie(own, *root, Kind::UpTo(0), 1)
            && leads(procedure, rows, known, next, 1, None),
        Instr::LoadAt(root) => lie(own, *root, top, 1)
            && leads(procedure, rows, known, next, 1, Some(Kind::Number)),
        Instr::StoreAt(root) => lie(own, *root, under, 1)
            && leads(procedure, rows, known, next, 2, None),
        Instr::AdjustAt(_, root) => lie(own, *root.get(), under, 1)
            && leads(procedure, rows, known, next, 2, None),
        Instr::Copy(target, source, cells) => {
            lie(own, *target.get(), under, *cells)
                && lie(own, *source.get(), top, *cells)
                && leads(procedure, rows, known, next, 2, None)
        }
        Instr::StoreText(span, _, _) => text_lies(own, *span.get(), top)
            && leads(procedure, rows, known, next, 1, None),
        Instr::RelateTexts(_, one, other) => {
            text_lies(own, *one.get(), under)
                && text_lies(own, *other.get(), top)
                && leads(procedure, rows, known, next, 2, Some(Kind::Number))
        }
        Instr::NamePlace(root, cells) => {
            let root = *root.get();
            lie(own, root, top, *cells)
                && is_few(root)
                && names_one(procedure, rows, known, next, NameKind::Cells(*cells))
        }
        Instr::NameArray(root, length, size) => {
            let root = *root.get();
            array_lies(own, root, *length, *size, top)
                && is_few(root)
                && names_one(procedure, rows, known, next, NameKind::ArrayOf(*size))
        }
        Instr::PutText(span) => text_lies(own, *span.get(), top)
            && leads(procedure, rows, known, next, 1, None),
        _ => record_keeps(code, procedure, rows, known, place, instr),
    }
}

/// An instruction on the type of a record.
fn record_keeps(
    code: &CodeModule,
    procedure: &Procedure,
    rows: &[Known],
    known: &Known,
    place: usize,
    instr: &Instr,
) -> bool
    requires { place < length procedure.now.lines.items }
    ensures { IsTrue result → Keeps code.now procedure.now (listed rows.now) place known.now instr.now }
{
    let next = place + 1;
    let own = procedure.entry.kinds.as_slice();
    let top = first(known.operands.as_slice());
    match instr {
        Instr::NameRecord(root, types, cells) => {
            let taken = cells_of(types.as_slice());
            let root = *root.get();
            lie(own, root, top, taken)
                && is_few(root)
                && *cells <= taken
                && are_at_most(taken, types.as_slice())
                && names_one(procedure, rows, known, next, NameKind::RecordOf(*cells))
        }
        Instr::NameAgain(name, cells) => {
            tells_type(own.get(*name))
                && lie(own, Root::Named(*name), top, *cells)
                && names_one(procedure, rows, known, next, NameKind::RecordOf(*cells))
        }
        Instr::Test(name, _) => tells_type(own.get(*name))
            && leads(procedure, rows, known, next, 1, Some(Kind::Number)),
        Instr::Guard(name, types, _, _) => {
            let cells = cells_of(types.as_slice());
            tells_type(own.get(*name))
                && leads(
                    procedure,
                    rows,
                    known,
                    next,
                    1,
                    Some(guarded(*name, cells, top)),
                )
        }
        _ => jump_keeps(code, procedure, rows, known, place, instr),
    }
}

/// An instruction that leads to other places than the next.
fn jump_keeps(
    code: &CodeModule,
    procedure: &Procedure,
    rows: &[Known],
    known: &Known,
    place: usize,
    instr: &Instr,
) -> bool
    requires { place < length procedure.now.lines.items }
    ensures { IsTrue result → Keeps code.now procedure.now (listed rows.now) place known.now instr.now }
{
    let next = place + 1;
    let more = procedure.lines.len() - place;
    match instr {
        Instr::Skip(past) => *past < more && leads(procedure, rows, known, next + *past, 0, None),
        Instr::SkipIfZero(past) => {
            *past < more
                && leads(procedure, rows, known, next, 1, None)
                && leads(procedure, rows, known, next + *past, 1, None)
        }
        Instr::SkipIfWithin(_, _, past) => {
            *past < more
                && leads(procedure, rows, known, next, 0, None)
                && leads(procedure, rows, known, next + *past, 0, None)
        }
        Instr::EnterBack(back) => {
            *back <= place
                && leads(procedure, rows, known, next, 1, None)
                && leads(procedure, rows, known, place - *back, 1, None)
        }
        Instr::Invoke(callee, _) => match entry_of(code, *callee) {
            Some(entry) => calls(procedure, rows, known, next, entry),
            None => false,
        },
        Instr::Read(target) => {
            more > 2
                && target_lies(
                    procedure.entry.kinds.as_slice(),
                    *target.get(),
                    first(known.operands.as_slice()),
                )
                && leads(procedure, rows, known, next, 0, None)
                && leads(procedure, rows, known, place + 3, 1, None)
        }
        Instr::TakeLine => place >= 2 && leads(procedure, rows, known, place - 2, 0, None),
        _ => false,
    }
}

/// The same of the line at a place.
fn line_keeps(
    code: &CodeModule,
    procedure: &Procedure,
    rows: &[Known],
    place: usize,
    line: &Line,
) -> bool
    requires { place < length procedure.now.lines.items }
    ensures { IsTrue result → Keeps code.now procedure.now (listed rows.now) place (listed rows.now place) line.now.instr }
{
    match rows.get(place) {
        Some(row) => keeps(code, procedure, rows, row, place, &line.instr),
        None => false,
    }
}

/// Whether each line keeps its row.
fn lines_keep(code: &CodeModule, procedure: &Procedure, rows: &[Known]) -> bool
    ensures { IsTrue result → (place : ℕ) (l : LineOf) → slice_get procedure.now.lines.items place ≡ Some l → Keeps code.now procedure.now (listed rows.now) place (listed rows.now place) l.instr }
{
    for place in 0..procedure.lines.len() {
        if !line_keeps(code, procedure, rows, place, &procedure.lines[place]) {
            return false;
        }
    }
    true
}

/// A procedure begins with nothing.
fn begins(procedure: &Procedure, rows: &[Known]) -> bool
    ensures { IsTrue result → Arrives (known_at procedure.now (listed rows.now) 0) nothing }
{
    operands_arrive(procedure, rows, 0, None, &[]) && names_arrive(procedure, rows, 0, &[])
}

/// Whether so much is known of the operands and names before each line of a procedure.
pub(crate) fn rows_fit(code: &CodeModule, procedure: &Procedure, rows: &[Known]) -> bool
    ensures { IsTrue result → HasKinds code.now procedure.now }
{
    if procedure.entry.kinds.len() != procedure.entry.names {
        return false;
    }
    begins(procedure, rows) && lines_keep(code, procedure, rows)
}
