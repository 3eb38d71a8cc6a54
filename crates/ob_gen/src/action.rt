//! The code of statements that have no others in them. Each begins and ends with no operand on the stack.

ghost use Rattle.std.specs.Prelude.{◌≡◌, ◌≤◌, ◌++◌, vec_len, OnOk};
ghost use Rattle.ob_mean.specs.declared.expression.Designator.{Designator};
ghost use Rattle.ob_mean.specs.WellFormed.{Names, object_of};
ghost use Rattle.ob_gen.specs.Code as spec;
ghost use Rattle.ob_gen.specs.Known.{names_in, object_seen, IsPlaced};

use crate::emit::{Found, emit_arguments, emit_expr, emit_offset, span_of};
use crate::jumps::put;
use crate::known::{Known, object_cells, root_of};
use ob_base::Boxed;
use ob_code::instr::{Instr, Line, Target};
use ob_code::made;
use ob_mean::{Action, Designator, InputCall, OutputCall, Reader, TypedExpr};
use std::alloc::{AllocError, Global};

/// The code of a statement that has no other in it.
pub fn emit_action<'a>(
    alloc: Global,
    code: &mut Vec<Line>,
    known: &Known<'a>,
    action: &'a Action,
) -> Result<(), AllocError>
    requires { IsPlaced known.now }
    ensures code { OnOk result (code.new.items ≡ code.old.items ++ spec.action_code (names_in known.now) action.now) }
    ensures grows { OnOk result (vec_len code.old ≤ vec_len code.new) }
{
    match action {
        Action::Assign(d, e) => emit_assign(alloc, code, known, d, e),
        Action::Copy(d, e) => {
            let target = emit_offset(alloc, code, known, 0, 0, d)?;
            let source = emit_offset(alloc, code, known, 1, 0, e)?;
            let cells = object_cells(target.object);
            let instr = made::copy(alloc, target.root, source.root, cells)?;
            put(code, 2, 0, instr)
        }
        Action::AssignText(d, line, text) => {
            let found = emit_offset(alloc, code, known, 0, 0, d)?;
            let characters = text.copy(alloc)?;
            let instr = made::store_text(alloc, span_of(found), characters, *line)?;
            put(code, 1, 0, instr)
        }
        Action::Adjust(adjustment, d, e) => {
            let found = emit_offset(alloc, code, known, 0, 0, d)?;
            emit_expr(alloc, code, known, 1, 0, e)?;
            let root = Boxed::new(alloc, found.root)?;
            put(code, 2, 0, Instr::AdjustAt(*adjustment, root))
        }
        Action::Assert(line, e) => {
            emit_expr(alloc, code, known, 0, 0, e)?;
            put(code, 1, 0, Instr::Assert(*line))
        }
        Action::Call(callee, line, arguments) => {
            let passed = emit_arguments(alloc, code, known, 0, 0, arguments.as_slice())?;
            put(
                code,
                passed.operands,
                passed.names,
                Instr::Invoke(*callee, *line),
            )
        }
        Action::Input(call) => emit_input(alloc, code, known, call),
        Action::Output(call) => emit_output(alloc, code, known, call),
    }
}

fn emit_assign<'a>(
    alloc: Global,
    code: &mut Vec<Line>,
    known: &Known<'a>,
    d: &'a Designator,
    e: &'a TypedExpr,
) -> Result<(), AllocError>
    requires { IsPlaced known.now }
    ensures code { OnOk result (code.new.items ≡ code.old.items ++ spec.assign_code (names_in known.now) d.now e.now) }
    ensures grows { OnOk result (vec_len code.old ≤ vec_len code.new) }
{
    match d {
        Designator::Whole(variable) => {
            emit_expr(alloc, code, known, 0, 0, e)?;
            put(code, 1, 0, Instr::Store(root_of(known, *variable)))
        }
        Designator::Element(_, _, _) => {
            let found = emit_offset(alloc, code, known, 0, 0, d)?;
            emit_expr(alloc, code, known, 1, 0, e)?;
            put(code, 2, 0, Instr::StoreAt(found.root))
        }
        Designator::Field(_, _) => {
            let found = emit_offset(alloc, code, known, 0, 0, d)?;
            emit_expr(alloc, code, known, 1, 0, e)?;
            put(code, 2, 0, Instr::StoreAt(found.root))
        }
        Designator::Guarded(_, _, _, _) => {
            let found = emit_offset(alloc, code, known, 0, 0, d)?;
            emit_expr(alloc, code, known, 1, 0, e)?;
            put(code, 2, 0, Instr::StoreAt(found.root))
        }
    }
}

/// What a reader sets.
fn target_of(reader: Reader, found: Found) -> Target
    ensures { (names : Names) (d : Designator) → found.entry.root ≡ spec.root_in names d → object_seen found.entry.object ≡ object_of names d → result ≡ spec.target_of names reader d }
{
    match reader {
        Reader::Char => Target::Char(found.root),
        Reader::Int => Target::Int(found.root),
        Reader::String => Target::String(span_of(found)),
        Reader::Name => Target::Name(span_of(found)),
    }
}

fn emit_input<'a>(
    alloc: Global,
    code: &mut Vec<Line>,
    known: &Known<'a>,
    call: &'a InputCall,
) -> Result<(), AllocError>
    requires { IsPlaced known.now }
    ensures code { OnOk result (code.new.items ≡ code.old.items ++ spec.input_code (names_in known.now) call.now) }
    ensures grows { OnOk result (vec_len code.old ≤ vec_len code.new) }
{
    match call {
        InputCall::Open => put(code, 0, 0, Instr::OpenInput),
        InputCall::Read(reader, d) => {
            let found = emit_offset(alloc, code, known, 0, 0, d)?;
            let target = Boxed::new(alloc, target_of(*reader, found))?;
            put(code, 1, 0, Instr::CallInput)?;
            put(code, 1, 0, Instr::Read(target))?;
            put(code, 1, 0, Instr::AskLine)?;
            put(code, 1, 0, Instr::TakeLine)
        }
    }
}

fn emit_output<'a>(
    alloc: Global,
    code: &mut Vec<Line>,
    known: &Known<'a>,
    call: &'a OutputCall,
) -> Result<(), AllocError>
    requires { IsPlaced known.now }
    ensures code { OnOk result (code.new.items ≡ code.old.items ++ spec.output_code (names_in known.now) call.now) }
    ensures grows { OnOk result (vec_len code.old ≤ vec_len code.new) }
{
    match call {
        OutputCall::Open => put(code, 0, 0, Instr::OpenOutput),
        OutputCall::Char(e) => {
            emit_expr(alloc, code, known, 0, 0, e)?;
            put(code, 1, 0, Instr::PutChar)
        }
        OutputCall::String(d) => {
            let found = emit_offset(alloc, code, known, 0, 0, d)?;
            let span = Boxed::new(alloc, span_of(found))?;
            put(code, 1, 0, Instr::PutText(span))
        }
        OutputCall::Int(e, width) => {
            emit_expr(alloc, code, known, 0, 0, e.get())?;
            emit_expr(alloc, code, known, 1, 0, width.get())?;
            put(code, 2, 0, Instr::PutInt)
        }
        OutputCall::Ln => put(code, 0, 0, Instr::PutLine),
    }
}
