//! The code of statements. Each begins and ends with no operand on the stack.

ghost use Rattle.std.specs.Prelude.{◌≡◌, ◌+◌, ◌≤◌, ◌++◌, length, vec_len, All, IfOk, OnOk};
ghost use Rattle.ob_gen.specs.Code as spec;
ghost use Rattle.ob_gen.specs.Emitted as emitted;
ghost use Rattle.ob_gen.specs.Known.{names_in, IsPlaced};

use crate::action::emit_action;
use crate::emit::emit_expr;
use crate::jumps::{lead_to_end, make_room, put, put_at};
use crate::known::{Known, root_of};
use ob_code::instr::{Instr, Line};
use ob_mean::{
    Branch, CaseArm, ForHead, LabelRange, Operator, Relation, TrapKind, TypedExpr, TypedStatement,
    UnaryOperator,
};
use std::alloc::{AllocError, Global};

/// The code of statements that follow each other.
#[cycle(statements)]
pub fn emit_statements<'a>(
    alloc: Global,
    code: &mut Vec<Line>,
    known: &Known<'a>,
    statements: &'a [TypedStatement],
) -> Result<(), AllocError>
    requires { IsPlaced known.now }
    ensures code { OnOk result (code.new.items ≡ code.old.items ++ spec.list_code (names_in known.now) statements.now) }
    ensures grows { OnOk result (vec_len code.old ≤ vec_len code.new) }
{
    make_room(code, statements.len())?;
    for statement in statements {
        emit_statement(alloc, code, known, statement)?;
    }
    Ok(())
}

#[cycle(statements)]
fn emit_statement<'a>(
    alloc: Global,
    code: &mut Vec<Line>,
    known: &Known<'a>,
    statement: &'a TypedStatement,
) -> Result<(), AllocError>
    requires { IsPlaced known.now }
    ensures code { OnOk result (code.new.items ≡ code.old.items ++ spec.stat_code (names_in known.now) statement.now) }
    ensures grows { OnOk result (vec_len code.old ≤ vec_len code.new) }
{
    match statement {
        TypedStatement::Simple(action) => emit_action(alloc, code, known, action),
        TypedStatement::If(branches, rest) => {
            let ends = emit_choice(alloc, code, known, branches.as_slice())?;
            emit_statements(alloc, code, known, rest.as_slice())?;
            lead_to_end(code, 0, 0, &ends);
            Ok(())
        }
        TypedStatement::Case(line, e, arms) => {
            emit_expr(alloc, code, known, 0, 0, e)?;
            emit_arms(alloc, code, known, *line, arms.as_slice())
        }
        TypedStatement::While(branches) => emit_loop(alloc, code, known, branches.as_slice()),
        TypedStatement::Repeat(body, until) => {
            emit_repeat(alloc, code, known, body.as_slice(), until)
        }
        TypedStatement::For(head, body) => {
            emit_for(alloc, code, known, head.get(), body.as_slice())
        }
    }
}

/// The branches of IF, each with a jump that is written later. It answers where those are.
#[cycle(statements)]
fn emit_choice<'a>(
    alloc: Global,
    code: &mut Vec<Line>,
    known: &Known<'a>,
    branches: &'a [Branch],
) -> Result<Vec<usize>, AllocError>
    requires { IsPlaced known.now }
    ensures code { IfOk result (λ v. code.new.items ≡ code.old.items ++ emitted.holed 0 0 (emitted.branch_piece (names_in known.now)) branches.now) }
    ensures grows { IfOk result (λ v. vec_len code.old ≤ vec_len code.new) }
    ensures ends { IfOk result (λ v. v.items ≡ emitted.holes (vec_len code.old) (emitted.branch_piece (names_in known.now)) branches.now) }
{
    let mut ends = Vec::new(alloc);
    for branch in branches {
        emit_branch(alloc, code, known, branch)?;
        ends.push(code.len())?;
        put(code, 0, 0, Instr::Skip(0))?;
    }
    Ok(ends)
}

/// A guard, and the body, which is passed where the guard doesn't hold.
#[cycle(statements)]
fn emit_branch<'a>(
    alloc: Global,
    code: &mut Vec<Line>,
    known: &Known<'a>,
    branch: &'a Branch,
) -> Result<(), AllocError>
    requires { IsPlaced known.now }
    ensures code { OnOk result (code.new.items ≡ code.old.items ++ emitted.branch_piece (names_in known.now) branch.now) }
    ensures grows { OnOk result (vec_len code.old ≤ vec_len code.new) }
{
    emit_expr(alloc, code, known, 0, 0, &branch.guard)?;
    let guard_end = code.len();
    put(code, 1, 0, Instr::SkipIfZero(0))?;
    emit_statements(alloc, code, known, branch.body.as_slice())?;
    let distance = code.len() - guard_end;
    put_at(code, guard_end, 1, 0, Instr::SkipIfZero(distance));
    Ok(())
}

/// The arms of CASE, before which the number lies there that is looked up.
#[cycle(statements)]
fn emit_arms<'a>(
    alloc: Global,
    code: &mut Vec<Line>,
    known: &Known<'a>,
    line: usize,
    arms: &'a [CaseArm],
) -> Result<(), AllocError>
    requires { IsPlaced known.now }
    ensures code { OnOk result (code.new.items ≡ code.old.items ++ emitted.arms_list (names_in known.now) line arms.now) }
    ensures grows { OnOk result (vec_len code.old ≤ vec_len code.new) }
{
    let mut ends = Vec::new(alloc);
    for arm in arms {
        emit_arm(alloc, code, known, arm)?;
        ends.push(code.len())?;
        put(code, 0, 0, Instr::Skip(0))?;
    }
    put(code, 1, 0, Instr::Trap(TrapKind::Label, line))?;
    lead_to_end(code, 0, 0, &ends);
    Ok(())
}

/// The labels, and the body, which is passed where there is no such label.
#[cycle(statements)]
fn emit_arm<'a>(
    alloc: Global,
    code: &mut Vec<Line>,
    known: &Known<'a>,
    arm: &'a CaseArm,
) -> Result<(), AllocError>
    requires { IsPlaced known.now }
    ensures code { OnOk result (code.new.items ≡ code.old.items ++ emitted.arm_piece (names_in known.now) arm.now) }
    ensures grows { OnOk result (vec_len code.old ≤ vec_len code.new) }
{
    emit_labels(code, arm.labels.as_slice())?;
    let labels_end = code.len();
    put(code, 1, 0, Instr::Skip(0))?;
    put(code, 1, 0, Instr::Drop)?;
    emit_statements(alloc, code, known, arm.body.as_slice())?;
    let distance = code.len() - labels_end;
    put_at(code, labels_end, 1, 0, Instr::Skip(distance));
    Ok(())
}

/// Tests of labels, each of which leads past a jump after them.
fn emit_labels(code: &mut Vec<Line>, labels: &[LabelRange]) -> Result<(), AllocError>
    ensures code { OnOk result (code.new.items ≡ code.old.items ++ spec.labels_code labels.now) }
    ensures grows { OnOk result (vec_len code.old ≤ vec_len code.new) }
{
    let mut left = labels.len();
    for range in labels {
        put(
            code,
            1,
            0,
            Instr::SkipIfWithin(range.first, range.last, left),
        )?;
        left -= 1;
    }
    Ok(())
}

/// WHILE: a jump to the guards, the bodies, and the guards.
#[cycle(statements)]
fn emit_loop<'a>(
    alloc: Global,
    code: &mut Vec<Line>,
    known: &Known<'a>,
    branches: &'a [Branch],
) -> Result<(), AllocError>
    requires { IsPlaced known.now }
    ensures code { OnOk result (code.new.items ≡ code.old.items ++ spec.loop_code (emitted.guarded_list (names_in known.now) branches.now)) }
    ensures grows { OnOk result (vec_len code.old ≤ vec_len code.new) }
{
    let start = code.len();
    put(code, 0, 0, Instr::Skip(0))?;
    let starts = emit_bodies(alloc, code, known, branches)?;
    let distance = code.len() - start - 1;
    put_at(code, start, 0, 0, Instr::Skip(distance));
    emit_guards(alloc, code, known, &starts, branches)
}

/// The bodies of a loop, each of which leads to the guards after them all. It answers where they begin.
#[cycle(statements)]
fn emit_bodies<'a>(
    alloc: Global,
    code: &mut Vec<Line>,
    known: &Known<'a>,
    branches: &'a [Branch],
) -> Result<Vec<usize>, AllocError>
    requires { IsPlaced known.now }
    ensures code { IfOk result (λ v. code.new.items ≡ code.old.items ++ spec.bodies_code (emitted.guarded_list (names_in known.now) branches.now)) }
    ensures grows { IfOk result (λ v. vec_len code.old ≤ vec_len code.new) }
    ensures starts { IfOk result (λ v. v.items ≡ emitted.starts (vec_len code.old) (emitted.body_piece (names_in known.now)) branches.now) }
{
    let mut starts = Vec::new(alloc);
    let mut ends = Vec::new(alloc);
    for branch in branches {
        starts.push(code.len())?;
        emit_statements(alloc, code, known, branch.body.as_slice())?;
        ends.push(code.len())?;
        put(code, 0, 0, Instr::Skip(0))?;
    }
    lead_to_end(code, 0, 0, &ends);
    Ok(starts)
}

/// The guards of a loop whose bodies begin at these places.
fn emit_guards<'a>(
    alloc: Global,
    code: &mut Vec<Line>,
    known: &Known<'a>,
    starts: &[usize],
    branches: &'a [Branch],
) -> Result<(), AllocError>
    requires placed { IsPlaced known.now }
    requires each { length starts.now ≡ length branches.now }
    requires behind { All (λ start. start ≤ vec_len code.old) starts.now }
    ensures code { OnOk result (code.new.items ≡ code.old.items ++ emitted.guards_to (names_in known.now) (vec_len code.old) starts.now branches.now) }
    ensures grows { OnOk result (vec_len code.old ≤ vec_len code.new) }
{
    let mut number = 0;
    for branch in branches {
        emit_expr(alloc, code, known, 0, 0, &branch.guard)?;
        let distance = code.len() - starts[number];
        put(code, 1, 0, Instr::EnterBack(distance))?;
        number += 1;
    }
    Ok(())
}

#[cycle(statements)]
fn emit_repeat<'a>(
    alloc: Global,
    code: &mut Vec<Line>,
    known: &Known<'a>,
    body: &'a [TypedStatement],
    until: &'a TypedExpr,
) -> Result<(), AllocError>
    requires { IsPlaced known.now }
    ensures code { OnOk result (code.new.items ≡ code.old.items ++ spec.repeat_code (spec.list_code (names_in known.now) body.now) (spec.expr_code (names_in known.now) 0 0 until.now)) }
    ensures grows { OnOk result (vec_len code.old ≤ vec_len code.new) }
{
    put(code, 0, 0, Instr::Enter)?;
    let start = code.len();
    emit_statements(alloc, code, known, body)?;
    emit_expr(alloc, code, known, 0, 0, until)?;
    put(code, 1, 0, Instr::Unary(UnaryOperator::Not, 0))?;
    let distance = code.len() - start;
    put(code, 1, 0, Instr::EnterBack(distance))
}

/// v <= last, or >= for a step down.
fn for_relation(step: i32) -> Relation
    ensures { result ≡ spec.for_relation step }
{
    if step < 0 {
        Relation::GreaterEqual
    } else {
        Relation::LessEqual
    }
}

/// The test of FOR.
fn emit_for_guard<'a>(
    alloc: Global,
    code: &mut Vec<Line>,
    known: &Known<'a>,
    head: &'a ForHead,
) -> Result<(), AllocError>
    requires { IsPlaced known.now }
    ensures code { OnOk result (code.new.items ≡ code.old.items ++ spec.for_guard (names_in known.now) head.now) }
    ensures grows { OnOk result (vec_len code.old ≤ vec_len code.new) }
{
    put(code, 0, 0, Instr::Load(root_of(known, head.variable)))?;
    emit_expr(alloc, code, known, 1, 0, &head.last)?;
    let operator = Operator::Compare(for_relation(head.step));
    put(code, 2, 0, Instr::Operate(operator, 0))
}

/// The step of FOR, and the jump to its test.
fn emit_for_step(code: &mut Vec<Line>, known: &Known, head: &ForHead) -> Result<(), AllocError>
    requires { IsPlaced known.now }
    ensures code { OnOk result (code.new.items ≡ code.old.items ++ spec.for_step (names_in known.now) head.now) }
    ensures grows { OnOk result (vec_len code.new ≡ vec_len code.old + 4) }
{
    put(code, 0, 0, Instr::Load(root_of(known, head.variable)))?;
    put(code, 1, 0, Instr::Push(head.step))?;
    put(code, 2, 0, Instr::Operate(Operator::Plus, 0))?;
    put(code, 1, 0, Instr::Store(root_of(known, head.variable)))
}

#[cycle(statements)]
fn emit_for<'a>(
    alloc: Global,
    code: &mut Vec<Line>,
    known: &Known<'a>,
    head: &'a ForHead,
    body: &'a [TypedStatement],
) -> Result<(), AllocError>
    requires { IsPlaced known.now }
    ensures code { OnOk result (code.new.items ≡ code.old.items ++ spec.for_code (names_in known.now) head.now (spec.list_code (names_in known.now) body.now)) }
    ensures grows { OnOk result (vec_len code.old ≤ vec_len code.new) }
{
    emit_expr(alloc, code, known, 0, 0, &head.first)?;
    put(code, 1, 0, Instr::Store(root_of(known, head.variable)))?;
    let start = code.len();
    put(code, 0, 0, Instr::Skip(0))?;
    emit_statements(alloc, code, known, body)?;
    emit_for_step(code, known, head)?;
    put(code, 0, 0, Instr::Skip(0))?;
    let body_end = code.len();
    emit_for_guard(alloc, code, known, head)?;
    let guard_end = code.len();
    put(code, 1, 0, Instr::EnterBack(guard_end - start - 1))?;
    put_at(code, start, 0, 0, Instr::Skip(body_end - start - 1));
    Ok(())
}
