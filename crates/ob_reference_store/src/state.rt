//! What a run changes and uses up.

ghost use Rattle.std.specs.Prelude.{◌≡◌, suc, OnOk, IfErr};
ghost use Rattle.ob_mean.specs.declared.outcome.Outcome.TheVariants.{Stopped};
ghost use Rattle.ob_reference_store.specs.declared.stop.Stop.TheVariants.{Stands};

use crate::stop::Stop;
use crate::value::Value;
use ob_inout::LineBuffer;
use ob_mean::{Outcome, TurnKind};

/// A line that In may ask for.
#[derive(Drop)]
pub enum GivenLine {
    Text(String),
    /// None is to be had.
    Nothing,
}

/// What a run changes and uses up: the store, the text written so far, and what is left of turns and lines.
#[derive(Drop)]
pub struct State {
    pub store: Value,
    pub written: String,
    pub input: LineBuffer,
    /// The turns that are left.
    pub turns: u64,
    /// The lines that were given, and how many of them are used up.
    pub lines: Vec<GivenLine>,
    pub used: usize,
}

/// Where a text runs.
#[derive(Clone, Copy)]
pub struct At {
    /// Its module's number.
    pub home: usize,
    /// The number of the running call's part of the store.
    pub frame: usize,
    /// How many more calls may be open.
    pub depth: u32,
}

/// Uses up a turn.
pub fn take_turn(state: &mut State, kind: TurnKind) -> Result<(), Stop>
    ensures ok { OnOk result ((state.old.turns ≡ suc state.new.turns) × (state.new ≡ record state.old { turns = state.new.turns })) }
    ensures err { IfErr result (λ e. (e ≡ Stands (Stopped kind)) × (state.old.turns ≡ 0) × (state.new ≡ state.old)) }
{
    if state.turns == 0 {
        return Err(Stop::Stands(Outcome::Stopped(kind)));
    }
    state.turns -= 1;
    Ok(())
}
