//! Sequences and choices.

ghost use Rattle.std.specs.Prelude.{◌≡◌, None, Some, MatchOption, MatchResult};
ghost use Rattle.ob_mean.specs.Runs.{done};
ghost use Rattle.ob_mean.specs.Control.{is_labelled};
ghost use Rattle.ob_mean.specs.Statements as spec;
ghost use Rattle.ob_reference.specs.Branches.{found_arm, EntersFirst, PassesAll, BranchStops};
ghost use Rattle.ob_reference_store.specs.States.{Follows, scope_in, supply_in, world_in};

use crate::action::action;
use crate::expression::value;
use crate::repetition::{for_loop, repeat_loop, while_loop};
use crate::site::Site;
use ob_mean::{Branch, CaseArm, LabelRange, Outcome, TrapKind, TypedStatement};
use ob_reference_store::state::State;
use ob_reference_store::stop::Stop;

/// Whether a label is among these.
fn is_labelled(labels: &[LabelRange], label: i32) -> bool
    ensures { result ≡ is_labelled labels.now label }
{
    match labels {
        [] => false,
        [range, others @ ..] => {
            range.first <= label && label <= range.last || is_labelled(others, label)
        }
    }
}

/// The statements of the first arm with this label.
fn arm_for(arms: &[CaseArm], label: i32) -> Option<&[TypedStatement]>
    ensures { MatchOption result (found_arm arms.now label ≡ None) (λ body. found_arm arms.now label ≡ Some body.now) }
{
    match arms {
        [] => None,
        [arm, others @ ..] => {
            if is_labelled(arm.labels.as_slice(), label) {
                Some(arm.body.as_slice())
            } else {
                arm_for(others, label)
            }
        }
    }
}

/// The statements of the first branch whose guard holds.
#[cycle(running)]
pub(crate) fn first_branch<'a>(
    site: Site<'_>,
    room: u32,
    state: &mut State,
    branches: &'a [Branch],
) -> Result<Option<&'a [TypedStatement]>, Stop>
    ensures { MatchResult result
        (λ found. MatchOption found
        (PassesAll (scope_in site.entry.program.now site.entry.at) branches.now (supply_in state.old) (world_in state.old) state.new)
        (λ body. EntersFirst (scope_in site.entry.program.now site.entry.at) branches.now (supply_in state.old) (world_in state.old) body.now state.new))
        (λ e. BranchStops (scope_in site.entry.program.now site.entry.at) branches.now (supply_in state.old) (world_in state.old) e state.new) }
{
    if room == 0 {
        return Err(Stop::Unanswered);
    }
    match branches {
        [] => Ok(None),
        [branch, others @ ..] => {
            let holds = value(site, room - 1, state, &branch.guard)?;
            if holds == 0 {
                match first_branch(site, room - 1, state, others)? {
                    Some(body) => Ok(Some(body)),
                    None => Ok(None),
                }
            } else {
                Ok(Some(branch.body.as_slice()))
            }
        }
    }
}

/// Statements that follow each other.
#[cycle(running)]
pub(crate) fn statements(
    site: Site<'_>,
    room: u32,
    state: &mut State,
    all: &[TypedStatement],
) -> Result<(), Stop>
    ensures { Follows (λ _. done) result state.new (spec.list_meaning (scope_in site.entry.program.now site.entry.at) all.now (supply_in state.old) (world_in state.old)) }
{
    if room == 0 {
        return Err(Stop::Unanswered);
    }
    for s in all {
        statement(site, room - 1, state, s)?;
    }
    Ok(())
}

/// A statement.
#[cycle(running)]
#[tactic(auto, using(crate::proofs::Sequences::if_is, crate::proofs::Sequences::case_is, crate::proofs::Sequences::while_is, crate::proofs::Sequences::repeat_is, crate::proofs::Sequences::for_is))]
fn statement(site: Site<'_>, room: u32, state: &mut State, s: &TypedStatement) -> Result<(), Stop>
    ensures { Follows (λ _. done) result state.new (spec.stat_meaning (scope_in site.entry.program.now site.entry.at) s.now (supply_in state.old) (world_in state.old)) }
{
    if room == 0 {
        return Err(Stop::Unanswered);
    }
    match s {
        TypedStatement::Simple(one) => action(site, room - 1, state, one),
        TypedStatement::If(branches, rest) => {
            match first_branch(site, room - 1, state, branches.as_slice())? {
                Some(body) => statements(site, room - 1, state, body),
                None => statements(site, room - 1, state, rest.as_slice()),
            }
        }
        TypedStatement::Case(line, e, arms) => {
            let label = value(site, room - 1, state, e)?;
            match arm_for(arms.as_slice(), label) {
                Some(body) => statements(site, room - 1, state, body),
                None => Err(Stop::Stands(Outcome::Trapped(TrapKind::Label, site.at.home, *line))),
            }
        }
        TypedStatement::While(branches) => {
            while_loop(site, room - 1, state, branches.as_slice())
        }
        TypedStatement::Repeat(body, until) => {
            repeat_loop(site, room - 1, state, body.as_slice(), until)
        }
        TypedStatement::For(head, body) => {
            for_loop(site, room - 1, state, head.get(), body.as_slice())
        }
    }
}
