//! Runs of the plain evaluator.

ghost use Rattle.std.specs.Prelude.{◌≡◌, None, map, option_to_list, slice_get, IfOk, MatchOption};
ghost use Rattle.ob_mean.specs.declared.expression.Callee.TheVariants as callees;
ghost use Rattle.ob_mean.specs.Values as values;
ghost use Rattle.ob_mean.specs.Runs as runs;
ghost use Rattle.ob_mean.specs.Programs as spec;
ghost use Rattle.ob_reference_store.specs.Kept.{value_in};
ghost use Rattle.ob_reference.specs.Answers.{Says, command_in};
ghost use Rattle.ob_reference_store.specs.States.{Follows, line_in, supply_in, world_in};

use crate::call::call;
use crate::site::Site;
use crate::statement::statements;
use ob_inout::LineBuffer;
use ob_mean::{Callee, Loaded, Outcome, TypedStatement};
use ob_reference_store::row::{copy, count, keep_first};
use ob_reference_store::state::{At, GivenLine, State};
use ob_reference_store::stop::{NoAnswer, Stop};
use ob_reference_store::value::Value;
use ob_reference_store::zero::{beside, opening_row};
use std::alloc::Global;

/// How many pieces of a program may be open at once, which bounds the stack.
const ROOM: u32 = 10_000;

/// How many calls may be open.
const MAX_DEPTH: u32 = 1000;

/// A command: a module, and the number of its procedure there.
#[derive(Clone, Copy, Debug, PartialEq, Eq)]
pub struct Command {
    pub home: usize,
    pub procedure: usize,
}

/// What a run has come to.
#[derive(Drop)]
pub struct Ran {
    pub outcome: Outcome,
    /// All text that was written.
    pub output: String,
    /// The turns that are left.
    pub turns: u64,
    /// How many lines are used up.
    pub used: usize,
    lines: Vec<GivenLine>,
    store: Value,
}

/// Loaded modules and their variables, which computes what a cell means by the structure of its tree.
#[derive(Drop)]
pub struct Reference {
    program: Vec<Loaded>,
    store: Value,
    alloc: Global,
}

/// The variables of all modules as they begin.
fn opening_store(alloc: Global, program: &[Loaded]) -> Result<Value, NoAnswer>
    ensures { IfOk result (λ v. value_in v ≡ spec.opening_store program.now) }
{
    match program {
        [] => Ok(Value::Nothing),
        [module, others @ ..] => {
            let first = opening_row(alloc, ROOM, module.tree.variables.as_slice())?;
            let rest = opening_store(alloc, others)?;
            Ok(beside(alloc, first, rest)?)
        }
    }
}

/// The statements of a module's body.
fn body_of(program: &[Loaded], home: usize) -> Option<&[TypedStatement]>
    ensures { MatchOption result (slice_get program.now home ≡ None) (λ body. spec.body_in (slice_get program.now home) ≡ body.now) }
{
    match program.get(home) {
        Some(module) => Some(module.tree.body.as_slice()),
        None => None,
    }
}

/// A state where a run stands.
fn stand(state: State, outcome: Outcome) -> Ran
    ensures { Says (runs.Stands outcome (supply_in state) (world_in state)) result }
{
    Ran {
        outcome,
        output: state.written,
        turns: state.turns,
        used: state.used,
        lines: state.lines,
        store: state.store,
    }
}

/// What a run has come to, if there is an answer.
#[tactic(auto, using(crate::proofs::Endings::goes_on, crate::proofs::Endings::stands_still))]
fn answer(state: State, gone: Result<(), Stop>) -> Result<Ran, NoAnswer>
    ensures { (run : runs.Run runs.Done) → Follows (λ _. runs.done) gone state run → IfOk result (λ ran. Says (runs.ended run) ran) }
{
    match gone {
        Ok(()) => Ok(stand(state, Outcome::Ended)),
        Err(Stop::Stands(outcome)) => Ok(stand(state, outcome)),
        Err(Stop::Unanswered) => Err(NoAnswer),
    }
}

/// A state before a cell.
fn before(
    alloc: Global,
    store: &Value,
    lines: Vec<GivenLine>,
    turns: u64,
) -> Result<State, NoAnswer>
    ensures { IfOk result (λ s. (world_in s ≡ spec.world_before (value_in store.now)) × (supply_in s ≡ runs.supply turns (map line_in lines.items))) }
{
    Ok(State {
        store: copy(alloc, store)?,
        written: String::new(alloc),
        input: LineBuffer::new(alloc),
        turns,
        lines,
        used: 0,
    })
}

/// A command, which is a call at depth 1.
fn run_command(
    alloc: Global,
    program: &[Loaded],
    state: &mut State,
    command: Command,
) -> Result<Option<i32>, Stop>
    ensures { Follows option_to_list result state.new (spec.call_at program.now spec.max_depth command.home (callees.OfModule command.procedure) values.Nothing 0 (supply_in state.old) (world_in state.old)) }
{
    let at = At {
        home: command.home,
        frame: 0,
        depth: MAX_DEPTH,
    };
    let callee = Callee::OfModule(command.procedure);
    let site = Site { alloc, program, at };
    call(site, ROOM, state, callee, Value::Nothing, 0)
}

/// Commands, one after the other.
fn in_turn(
    alloc: Global,
    program: &[Loaded],
    state: &mut State,
    commands: &[Command],
) -> Result<(), Stop>
    ensures { Follows (λ _. runs.done) result state.new (spec.in_turn program.now (map command_in commands.now) (supply_in state.old) (world_in state.old)) }
{
    match commands {
        [] => Ok(()),
        [command, others @ ..] => {
            run_command(alloc, program, state, *command)?;
            in_turn(alloc, program, state, others)
        }
    }
}

impl Reference {
    /// Modules that are loaded, by their numbers, with their variables as they begin.
    pub fn new(alloc: Global, program: Vec<Loaded>) -> Result<Reference, NoAnswer>
        ensures program { IfOk result (λ r. r.program.items ≡ program.items) }
        ensures store { IfOk result (λ r. value_in r.store ≡ spec.opening_store program.items) }
    {
        let store = opening_store(alloc, &program)?;
        Ok(Reference {
            program,
            store,
            alloc,
        })
    }

    /// The body of a module, from the variables as they are, with these lines and at most `turns` turns. Nothing is kept.
    #[tactic(auto, unfolding(ob_mean::specs::Programs::body_meaning))]
    pub fn run_body(&self, home: usize, lines: Vec<GivenLine>, turns: u64) -> Result<Ran, NoAnswer>
        ensures { IfOk result (λ ran. Says (spec.body_meaning self.now.program.items home (runs.supply turns (map line_in lines.items)) (spec.world_before (value_in self.now.store))) ran) }
    {
        let mut state = before(self.alloc, &self.store, lines, turns)?;
        let frame = count(&state.store)?;
        let at = At {
            home,
            frame,
            depth: MAX_DEPTH,
        };
        let site = Site {
            alloc: self.alloc,
            program: &self.program,
            at,
        };
        match body_of(&self.program, home) {
            Some(body) => {
                let gone = statements(site, ROOM, &mut state, body);
                answer(state, gone)
            }
            None => answer(state, Ok(())),
        }
    }

    /// Commands, one after the other, from the variables as they are, with these lines and at most `turns` turns. Nothing is
    /// kept.
    #[tactic(auto, unfolding(ob_mean::specs::Programs::commands_meaning))]
    pub fn run_commands(
        &self,
        commands: &[Command],
        lines: Vec<GivenLine>,
        turns: u64,
    ) -> Result<Ran, NoAnswer>
        ensures { IfOk result (λ ran. Says (spec.commands_meaning self.now.program.items (map command_in commands.now) (runs.supply turns (map line_in lines.items)) (spec.world_before (value_in self.now.store))) ran) }
    {
        let mut state = before(self.alloc, &self.store, lines, turns)?;
        let gone = in_turn(self.alloc, &self.program, &mut state, commands);
        answer(state, gone)
    }

    /// Keeps what a run has left in the modules' variables.
    pub fn keep(&mut self, ran: Ran)
        ensures program { self.new.program ≡ self.old.program }
        ensures store { value_in self.new.store ≡ spec.kept_store self.old.program.items (value_in ran.store) }
    {
        let mut store = ran.store;
        keep_first(&mut store, self.program.len());
        self.store = store;
    }
}
