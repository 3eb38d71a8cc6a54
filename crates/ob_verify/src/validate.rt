//! Tests code that somebody made.

ghost use Rattle.std.specs.Prelude.{◌≡◌, ℕ, ◌+◌, ◌-◌, ◌<◌, ◌≤◌, length, option_copied, IsTrue, IfOk, IfSome, Option, Some, slice_get};
ghost use Rattle.ob_code.specs.Valid.{height, results, height_at, RootFits, LengthFits, SpanFits, TargetFits, Calls, entry_of, is_ask, asks, Fits, LinesFit, ProcedureFits, IsBody, IsValid};
ghost use Rattle.ob_code.specs.Kinds.{HasKinds, IsMeasured};
ghost use Rattle.ob_code.specs.Stuck.{RunsSafely};

use crate::found::find;
use crate::measured::rows_fit;
use ob_code::checked::Checked;
use ob_code::instr::{
    CodeModule, Entry, Extent, Height, Instr, Length, Line, Procedure, Root, Span, Target,
};
use ob_mean::Callee;
use std::alloc::{AllocError, Global};

/// Tests code that somebody made. What is answered is that code. Wherever it is linked among such modules, no run leaves the
/// code, misses an operand or a name, takes a cell out of an object, or goes on for ever without a turn or a line. An object
/// is of a module, of an import, of the running call, or what one of its names stands for.
#[tactic(auto, using(ob_code::proofs::machine::Never::runs_safely))]
pub fn validate(alloc: Global, code: CodeModule) -> Result<Option<Checked>, AllocError>
    ensures value { IfOk result (λ o. IfSome o (λ c. c ≡ code)) }
    ensures measured { IfOk result (λ o. IfSome o (λ _. IsMeasured code)) }
    ensures runs { IfOk result (λ o. IfSome o (λ _. RunsSafely code)) }
{
    if is_measured(alloc, &code)? {
        Ok(Some(Checked::new(code)))
    } else {
        Ok(None)
    }
}

/// Whether code is valid, and enough is known of its operands and names.
fn is_measured(alloc: Global, code: &CodeModule) -> Result<bool, AllocError>
    ensures { IfOk result (λ b. IsTrue b → IsMeasured code.now) }
{
    if !is_valid(code) {
        return Ok(false);
    }
    have_kinds(alloc, code)
}

/// Whether enough is known of the operands and names of each procedure.
fn have_kinds(alloc: Global, code: &CodeModule) -> Result<bool, AllocError>
    ensures { IfOk result (λ b. IsTrue b → (p : ℕ) (f : Procedure) → slice_get code.now.procedures.items p ≡ Some f → HasKinds code.now f) }
{
    for place in 0..code.procedures.len() {
        let known = has_kinds(alloc, code, &code.procedures[place])?;
        if !known {
            return Ok(false);
        }
    }
    Ok(true)
}

fn has_kinds(alloc: Global, code: &CodeModule, procedure: &Procedure) -> Result<bool, AllocError>
    ensures { IfOk result (λ b. IsTrue b → HasKinds code.now procedure.now) }
{
    let rows = find(alloc, code, procedure)?;
    Ok(rows_fit(code, procedure, rows.as_slice()))
}

fn is_valid(code: &CodeModule) -> bool
    ensures { IsTrue result → IsValid code.now }
{
    ends_with_body(code) && exports_fit(code) && procedures_fit(code)
}

/// The last procedure is the body.
fn ends_with_body(code: &CodeModule) -> bool
    ensures { IsTrue result → IsBody (slice_get code.now.procedures.items (length code.now.procedures.items - 1)) }
{
    let count = code.procedures.len();
    if count == 0 {
        return false;
    }
    match code.procedures.get(count - 1) {
        Some(body) => {
            body.entry.operands == 0
                && body.entry.names == 0
                && !body.entry.is_function
                && body.cells == 0
        }
        None => false,
    }
}

fn exports_fit(code: &CodeModule) -> bool
    ensures { IsTrue result → (place p : ℕ) → slice_get code.now.exported.items place ≡ Some p → p < length code.now.procedures.items }
{
    let count = code.procedures.len();
    for number in &code.exported {
        if *number >= count {
            return false;
        }
    }
    true
}

fn procedures_fit(code: &CodeModule) -> bool
    ensures { IsTrue result → (p : ℕ) (f : Procedure) → slice_get code.now.procedures.items p ≡ Some f → ProcedureFits code.now f }
{
    for procedure in &code.procedures {
        if !procedure_fits(code, procedure) {
            return false;
        }
    }
    true
}

fn procedure_fits(code: &CodeModule, procedure: &Procedure) -> bool
    ensures { IsTrue result → ProcedureFits code.now procedure.now }
{
    procedure.entry.operands <= procedure.cells && lines_fit(code, procedure)
}

fn lines_fit(code: &CodeModule, procedure: &Procedure) -> bool
    ensures { IsTrue result → LinesFit code.now procedure.now procedure.now.lines.items }
{
    if !leads(procedure, 0, 0, 0) {
        return false;
    }
    for place in 0..procedure.lines.len() {
        if !fits(code, procedure, place, &procedure.lines[place]) {
            return false;
        }
    }
    true
}

/// How many operands and names lie before the line at this place.
fn height_at(procedure: &Procedure, place: usize) -> Option<Height>
    ensures { result ≡ height_at procedure.now.entry.is_function procedure.now.lines.items place }
{
    match procedure.lines.get(place) {
        Some(line) => Some(Height {
            operands: line.operands,
            names: line.names,
        }),
        None if place == procedure.lines.len() => Some(Height {
            operands: if procedure.entry.is_function { 1 } else { 0 },
            names: 0,
        }),
        None => None,
    }
}

/// Whether as many operands and names are expected at a place.
fn leads(procedure: &Procedure, place: usize, operands: usize, names: usize) -> bool
    ensures { IsTrue result → height_at procedure.now.entry.is_function procedure.now.lines.items place ≡ Some (height operands names) }
{
    match height_at(procedure, place) {
        Some(expected) => expected.operands == operands && expected.names == names,
        None => false,
    }
}

/// Whether as many operands, and the result of a call that gives one, are expected at a place.
fn leaves(procedure: &Procedure, place: usize, operands: usize, gives: bool, names: usize) -> bool
    ensures { IsTrue result → height_at procedure.now.entry.is_function procedure.now.lines.items place ≡ Some (height (operands + results gives) names) }
{
    let results = if gives { 1 } else { 0 };
    match height_at(procedure, place) {
        Some(expected) => {
            expected.operands >= results
                && expected.operands - results == operands
                && expected.names == names
        }
        None => false,
    }
}

/// Whether as many operands, and one name more, are expected at a place.
fn names_one(procedure: &Procedure, place: usize, operands: usize, names: usize) -> bool
    ensures { IsTrue result → height_at procedure.now.entry.is_function procedure.now.lines.items place ≡ Some (height operands (names + 1)) }
{
    match height_at(procedure, place) {
        Some(expected) => {
            expected.operands == operands && expected.names >= 1 && expected.names - 1 == names
        }
        None => false,
    }
}

/// Whether a jump from this place past as many lines leads to where these operands and names are expected.
fn jumps(procedure: &Procedure, place: usize, past: usize, operands: usize, names: usize) -> bool
    requires { place < length procedure.now.lines.items }
    ensures { IsTrue result → height_at procedure.now.entry.is_function procedure.now.lines.items (place + 1 + past) ≡ Some (height operands names) }
{
    past < procedure.lines.len() - place && leads(procedure, place + 1 + past, operands, names)
}

fn extent_fits(extent: Extent, cells: usize) -> bool
    ensures { IsTrue result → extent.from + extent.cells ≤ cells }
{
    extent.cells <= cells && extent.from <= cells - extent.cells
}

fn root_fits(code: &CodeModule, procedure: &Procedure, root: Root) -> bool
    ensures { IsTrue result → RootFits code.now procedure.now root }
{
    match root {
        Root::OfModule(extent) => extent_fits(extent, code.cells),
        Root::OfImport(import, extent) => match code.imports.get(import) {
            Some(known) => extent_fits(extent, known.cells),
            None => false,
        },
        Root::OfCall(extent) => extent_fits(extent, procedure.cells),
        Root::Named(name) => name < procedure.entry.names,
    }
}

fn length_fits(procedure: &Procedure, length: Length) -> bool
    ensures { IsTrue result → LengthFits procedure.now length }
{
    match length {
        Length::Elements(_) => true,
        Length::OfName(name) => name < procedure.entry.names,
    }
}

fn span_fits(code: &CodeModule, procedure: &Procedure, span: Span) -> bool
    ensures { IsTrue result → SpanFits code.now procedure.now span }
{
    root_fits(code, procedure, span.root) && length_fits(procedure, span.length)
}

fn target_fits(code: &CodeModule, procedure: &Procedure, target: Target) -> bool
    ensures { IsTrue result → TargetFits code.now procedure.now target }
{
    match target {
        Target::Char(root) => root_fits(code, procedure, root),
        Target::Int(root) => root_fits(code, procedure, root),
        Target::String(span) => span_fits(code, procedure, span),
        Target::Name(span) => span_fits(code, procedure, span),
    }
}

/// What a call takes and leaves.
pub(crate) fn entry_of(code: &CodeModule, callee: Callee) -> Option<&Entry>
    ensures { option_copied result ≡ entry_of code.now callee }
{
    match callee {
        Callee::OfModule(number) => match code.procedures.get(number) {
            Some(procedure) => Some(&procedure.entry),
            None => None,
        },
        Callee::OfImport(import, place) => match code.imports.get(import) {
            Some(known) => known.exported.get(place),
            None => None,
        },
    }
}

/// Whether a call at this place, before which so many operands and names lie, finds what it takes.
fn calls(
    code: &CodeModule,
    procedure: &Procedure,
    place: usize,
    operands: usize,
    names: usize,
    callee: Callee,
) -> bool
    requires { place < length procedure.now.lines.items }
    ensures { IsTrue result → Calls (entry_of code.now callee) operands names (height_at procedure.now.entry.is_function procedure.now.lines.items (place + 1)) }
{
    match entry_of(code, callee) {
        Some(entry) => {
            entry.operands <= operands
                && entry.names <= names
                && leaves(
                    procedure,
                    place + 1,
                    operands - entry.operands,
                    entry.is_function,
                    names - entry.names,
                )
        }
        None => false,
    }
}

/// Whether a line is asked for at this place.
fn asks(procedure: &Procedure, place: usize) -> bool
    ensures { result ≡ asks (slice_get procedure.now.lines.items place) }
{
    match procedure.lines.get(place) {
        Some(line) => is_ask(&line.instr),
        None => false,
    }
}

fn is_ask(instr: &Instr) -> bool
    ensures { result ≡ is_ask instr.now }
{
    match instr {
        Instr::AskLine => true,
        _ => false,
    }
}

fn fits(code: &CodeModule, procedure: &Procedure, place: usize, line: &Line) -> bool
    requires { place < length procedure.now.lines.items }
    ensures { IsTrue result → Fits code.now procedure.now procedure.now.lines.items place line.now.operands line.now.names line.now.instr }
{
    let operands = line.operands;
    let names = line.names;
    let next = place + 1;
    let has_room = operands < procedure.operand_room;
    match &line.instr {
        Instr::Push(_) => has_room && leaves(procedure, next, operands, true, names),
        Instr::Drop => operands >= 1 && leads(procedure, next, operands - 1, names),
        Instr::PushDone => has_room && leaves(procedure, next, operands, true, names),
        Instr::Unary(_, _) => operands >= 1 && leads(procedure, next, operands, names),
        Instr::Operate(_, _) => operands >= 2 && leads(procedure, next, operands - 1, names),
        Instr::AddOffset(_) => operands >= 1 && leads(procedure, next, operands, names),
        Instr::Index(length, _, _) => {
            length_fits(procedure, *length)
                && operands >= 2
                && leads(procedure, next, operands - 1, names)
        }
        Instr::TakeLength(length) => {
            length_fits(procedure, *length)
                && operands >= 1
                && leads(procedure, next, operands, names)
        }
        Instr::Enter => leads(procedure, next, operands, names),
        Instr::Trap(_, _) => true,
        Instr::Assert(_) => operands >= 1 && leads(procedure, next, operands - 1, names),
        Instr::OpenInput => leads(procedure, next, operands, names),
        Instr::CallInput => leads(procedure, next, operands, names),
        Instr::AskLine => leads(procedure, next, operands, names),
        Instr::OpenOutput => leads(procedure, next, operands, names),
        Instr::PutChar => operands >= 1 && leads(procedure, next, operands - 1, names),
        Instr::PutInt => operands >= 2 && leads(procedure, next, operands - 2, names),
        Instr::PutLine => leads(procedure, next, operands, names),
        _ => object_fits(code, procedure, place, line),
    }
}

/// An instruction that names an object.
fn object_fits(code: &CodeModule, procedure: &Procedure, place: usize, line: &Line) -> bool
    requires { place < length procedure.now.lines.items }
    ensures { IsTrue result → Fits code.now procedure.now procedure.now.lines.items place line.now.operands line.now.names line.now.instr }
{
    let operands = line.operands;
    let names = line.names;
    let next = place + 1;
    match &line.instr {
        Instr::Load(root) => {
            root_fits(code, procedure, *root)
                && operands < procedure.operand_room
                && leaves(procedure, next, operands, true, names)
        }
        Instr::Store(root) => {
            root_fits(code, procedure, *root)
                && operands >= 1
                && leads(procedure, next, operands - 1, names)
        }
        Instr::LoadAt(root) => {
            root_fits(code, procedure, *root)
                && operands >= 1
                && leads(procedure, next, operands, names)
        }
        Instr::StoreAt(root) => {
            root_fits(code, procedure, *root)
                && operands >= 2
                && leads(procedure, next, operands - 2, names)
        }
        Instr::AdjustAt(_, root) => {
            root_fits(code, procedure, *root.get())
                && operands >= 2
                && leads(procedure, next, operands - 2, names)
        }
        Instr::Copy(target, source, _) => {
            root_fits(code, procedure, *target.get())
                && root_fits(code, procedure, *source.get())
                && operands >= 2
                && leads(procedure, next, operands - 2, names)
        }
        Instr::StoreText(span, _, _) => {
            span_fits(code, procedure, *span.get())
                && operands >= 1
                && leads(procedure, next, operands - 1, names)
        }
        Instr::RelateTexts(_, first, second) => {
            span_fits(code, procedure, *first.get())
                && span_fits(code, procedure, *second.get())
                && operands >= 2
                && leads(procedure, next, operands - 1, names)
        }
        Instr::NamePlace(root, _) => {
            root_fits(code, procedure, *root.get())
                && operands >= 1
                && names < procedure.name_room
                && names_one(procedure, next, operands - 1, names)
        }
        Instr::NameArray(root, length, _) => {
            root_fits(code, procedure, *root.get())
                && length_fits(procedure, *length)
                && operands >= 1
                && names < procedure.name_room
                && names_one(procedure, next, operands - 1, names)
        }
        Instr::PutText(span) => {
            span_fits(code, procedure, *span.get())
                && operands >= 1
                && leads(procedure, next, operands - 1, names)
        }
        _ => record_fits(code, procedure, place, line),
    }
}

/// An instruction on the type of a record.
fn record_fits(code: &CodeModule, procedure: &Procedure, place: usize, line: &Line) -> bool
    requires { place < length procedure.now.lines.items }
    ensures { IsTrue result → Fits code.now procedure.now procedure.now.lines.items place line.now.operands line.now.names line.now.instr }
{
    let operands = line.operands;
    let names = line.names;
    let next = place + 1;
    match &line.instr {
        Instr::NameRecord(root, _, _) => {
            root_fits(code, procedure, *root.get())
                && operands >= 1
                && names < procedure.name_room
                && names_one(procedure, next, operands - 1, names)
        }
        Instr::NameAgain(name, _) => {
            *name < procedure.entry.names
                && operands >= 1
                && names < procedure.name_room
                && names_one(procedure, next, operands - 1, names)
        }
        Instr::Test(name, _) | Instr::Guard(name, _, _, _) => {
            *name < procedure.entry.names
                && operands >= 1
                && leads(procedure, next, operands, names)
        }
        _ => jump_fits(code, procedure, place, line),
    }
}

/// An instruction that leads to other places than the next.
fn jump_fits(code: &CodeModule, procedure: &Procedure, place: usize, line: &Line) -> bool
    requires { place < length procedure.now.lines.items }
    ensures { IsTrue result → Fits code.now procedure.now procedure.now.lines.items place line.now.operands line.now.names line.now.instr }
{
    let operands = line.operands;
    let names = line.names;
    let next = place + 1;
    match &line.instr {
        Instr::Skip(past) => jumps(procedure, place, *past, operands, names),
        Instr::SkipIfZero(past) => {
            operands >= 1
                && leads(procedure, next, operands - 1, names)
                && jumps(procedure, place, *past, operands - 1, names)
        }
        Instr::SkipIfWithin(_, _, past) => {
            operands >= 1
                && leads(procedure, next, operands, names)
                && jumps(procedure, place, *past, operands, names)
        }
        Instr::EnterBack(back) => {
            operands >= 1
                && *back <= place
                && leads(procedure, next, operands - 1, names)
                && leads(procedure, place - *back, operands - 1, names)
        }
        Instr::Invoke(callee, _) => calls(code, procedure, place, operands, names, *callee),
        Instr::Read(target) => {
            target_fits(code, procedure, *target.get())
                && operands >= 1
                && leads(procedure, next, operands, names)
                && jumps(procedure, place, 2, operands - 1, names)
        }
        Instr::TakeLine => {
            place >= 2 && asks(procedure, place - 1) && leads(procedure, place - 2, operands, names)
        }
        _ => false,
    }
}
