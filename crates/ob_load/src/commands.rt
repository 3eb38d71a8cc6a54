//! Commands, and the machine that runs them one after the other.

ghost use Rattle.std.specs.Prelude.{◌≡◌, ◌≢◌, ℕ, ◌<◌, List, [], ◌∷◌, ◌++◌, length, vec_capacity, slice_get, IfSome, IfOk, IfErr, Some, None, EachIndex, slice_index, OnOk};
ghost use Rattle.ob_code.specs.Machine.{Code};
ghost use Rattle.ob_image.specs.CommandsCode as code;
ghost use Rattle.ob_image.specs.CommandsCode.{IsCallable};
ghost use Rattle.ob_image.specs.Compiled.{face_in, AreCompiled, AreKnown};
ghost use Rattle.ob_load.specs.Commanded.{AllRunnable, AreCalled, AreReady, IsCodeOfCalls, WithHome};
ghost use Rattle.ob_load.specs.MachineState.{begun_in};
ghost use Rattle.ob_load.specs.Kept.{IsKept};
ghost use Rattle.ob_load.specs.Names.{NamesWithin};
ghost use Rattle.ob_load.specs.declared.task.Task.TheVariants as task;
ghost use Rattle.ob_mean.specs.declared.expression.Callee.TheVariants as callee;
ghost use Rattle.ob_mean.specs.declared.statement.Action.TheVariants as action;
ghost use Rattle.ob_mean.specs.declared.statement.TypedStatement.TheVariants as statement;
ghost use Rattle.ob_mean.specs.Programs as programs;
ghost use Rattle.ob_session.specs.Cells.{CommandName, Runs, all_ready};
ghost use Rattle.ob_image.specs.Stores.{session_of};

use crate::given::GivenLines;
use crate::machine::Machine;
use crate::session::Session;
use crate::task::Task;
use ob_base::{Items, Text};
use ob_code::checked::Checked;
use ob_code::instr::LinkedModule;
use ob_gen::generate;
use ob_image::{KnownFaces, copy_face};
use ob_link::{Command, Modules};
use ob_mean::{Action, Callee, Face, TypedModule, TypedStatement};
use ob_vm::{Image, Room};
use std::alloc::{AllocError, Global};
use std::snapshot::Snapshot;

/// Where among these numbers one stands, if it does.
#[tactic(auto, using(crate::proofs::Called::nowhere_more, crate::proofs::Called::nowhere_all))]
fn place_in(numbers: &[usize], number: usize) -> Option<usize>
    ensures there { IfSome result (λ place. slice_get numbers.now place ≡ Some number) }
    ensures nowhere { result ≡ None → (place : ℕ) → slice_get numbers.now place ≢ Some number }
{
    for place in 0..numbers.len() {
        if numbers[place] == number {
            return Some(place);
        }
    }
    None
}

/// Where a command's procedure stands among those that its module exports.
fn place_of(modules: &Modules, command: Command) -> usize
    requires { (place : ℕ) × IsCallable modules.now command place }
    ensures { IsCallable modules.now command result }
{
    let tree = modules.as_slice()[command.home()].tree();
    match place_in(tree.exported.as_slice(), command.procedure()) {
        Some(place) => place,
        None => unreachable!(),
    }
}

/// The number of the import of this module, which is a new one where none was its import.
fn import_of(homes: &mut Vec<usize>, home: usize) -> Result<usize, AllocError>
    ensures there { IfOk result (λ import. slice_get homes.new.items import ≡ Some home) }
    ensures others { OnOk result (WithHome homes.old.items home homes.new.items) }
{
    match place_in(homes.as_slice(), home) {
        Some(import) => Ok(import),
        None => {
            let import = homes.len();
            homes.push(home)?;
            Ok(import)
        }
    }
}

/// The modules that are imported for commands, each once, and the calls: the number of an import, and a place there.
#[derive(Drop)]
struct Called {
    homes: Vec<usize>,
    calls: Vec<(usize, usize)>,
}

/// The calls of commands.
fn all_calls(modules: &Modules, commands: &[Command]) -> Result<Called, AllocError>
    requires { AllRunnable modules.now commands.now }
    ensures { IfOk result (λ c. AreCalled modules.now commands.now c.homes.items c.calls.items) }
{
    let alloc = modules.alloc();
    let mut homes = Vec::new(alloc);
    let mut calls = Vec::new(alloc);
    for command in commands {
        let place = place_of(modules, *command);
        let import = import_of(&mut homes, command.home())?;
        calls.push((import, place))?;
    }
    Ok(Called { homes, calls })
}

/// What is known of the module of this number.
fn face_at(alloc: Global, known: &[KnownFaces], number: usize) -> Result<Face, AllocError>
    requires { number < length known.now }
    ensures { IfOk result (λ face. face_in (slice_get known.now number) ≡ Some face) }
{
    copy_face(alloc, known[number].face())
}

/// The same of the modules of these numbers.
fn faces_of(alloc: Global, known: &[KnownFaces], numbers: &[usize]) -> Result<Vec<Face>, AllocError>
    requires { EachIndex numbers.now (λ k. slice_index numbers.now k < length known.now) }
    ensures { IfOk result (λ faces. AreKnown known.now numbers.now faces.items) }
{
    let mut faces = Vec::new(alloc);
    for number in numbers {
        let face = face_at(alloc, known, *number)?;
        faces.push(face)?;
    }
    Ok(faces)
}

/// A call of the procedure at this place of an import.
fn call_of(alloc: Global, import: usize, place: usize) -> TypedStatement
    ensures { result ≡ statement.Simple (action.Call (callee.OfImport import place) 0 []) }
{
    TypedStatement::Simple(Action::Call(Callee::OfImport(import, place), 0, Items::new(alloc)))
}

/// A module of these calls.
fn commands_tree(alloc: Global, calls: &[(usize, usize)]) -> Result<TypedModule, AllocError>
    ensures { IfOk result (λ tree. tree ≡ code.commands_tree calls.now) }
{
    let mut body = Items::new(alloc);
    for call in calls {
        body.push(call_of(alloc, call.0, call.1))?;
    }
    Ok(TypedModule {
        name: Text::from_vec(Vec::new(alloc)),
        variables: Items::new(alloc),
        procedures: Items::new(alloc),
        exported: Items::new(alloc),
        body,
    })
}

/// The code of such a module, over what is known of the modules that are imported.
fn commands_code(
    modules: &Modules,
    known: &[KnownFaces],
    homes: &[usize],
    calls: &[(usize, usize)],
) -> Result<Checked, AllocError>
    requires compiled { (all : Code) × AreCompiled modules.now known.now all }
    requires called { (cs : List programs.Command) × AreCalled modules.now cs homes.now calls.now }
    ensures { (cs : List programs.Command) → AreCalled modules.now cs homes.now calls.now → IfOk result (IsCodeOfCalls modules.now known.now cs homes.now) }
{
    let alloc = modules.alloc();
    let faces = faces_of(alloc, known, homes)?;
    let tree = commands_tree(alloc, calls)?;
    let code = generate(alloc, faces.as_slice(), &tree)?;
    Ok(code)
}

/// What the beginning of commands takes, made before anything is changed.
#[derive(Drop)]
pub(crate) struct Calls {
    // Of a module that calls them one after the other.
    pub code: Checked,
    pub imports: Vec<usize>,
    pub name: Vec<u8>,
    pub room: Room,
}

fn calls_of(
    modules: &Modules,
    known: &[KnownFaces],
    commands: &[Command],
    longest: usize,
) -> Result<Calls, AllocError>
    requires compiled { (all : Code) × AreCompiled modules.now known.now all }
    requires runnable { AllRunnable modules.now commands.now }
    ensures { IfOk result (AreReady modules.now known.now commands.now longest) }
{
    let alloc = modules.alloc();
    let Called { homes, calls } = all_calls(modules, commands)?;
    let code = commands_code(modules, known, homes.as_slice(), calls.as_slice())?;
    let name = Vec::with_capacity(alloc, longest)?;
    let room = ob_vm::Machine::room(alloc, &code)?;
    Ok(Calls {
        code,
        imports: homes,
        name,
        room,
    })
}

/// The same, and room for one module more after the others.
fn ready(
    modules: &Modules,
    known: &[KnownFaces],
    code: &mut Vec<LinkedModule>,
    runs: &mut Vec<bool>,
    commands: &[Command],
    longest: usize,
) -> Result<Calls, AllocError>
    requires compiled { AreCompiled modules.now known.now code.old.items }
    requires runnable { AllRunnable modules.now commands.now }
    ensures ready { IfOk result (AreReady modules.now known.now commands.now longest) }
    ensures code { code.new.items ≡ code.old.items }
    ensures flags { runs.new.items ≡ runs.old.items }
    ensures room { OnOk result (length code.new.items < vec_capacity code.new) }
    ensures flag { OnOk result (length runs.new.items < vec_capacity runs.new) }
{
    code.reserve(1)?;
    runs.reserve(1)?;
    calls_of(modules, known, commands, longest)
}

/// A machine before the first turn of commands, over the parts of a session's image. It takes no memory.
fn begin(
    modules: Modules,
    known: Vec<KnownFaces>,
    parts: (Vec<LinkedModule>, Vec<bool>, Vec<i32>),
    calls: Calls,
    commands: Vec<Command>,
    longest: usize,
) -> Machine
    requires kept { IsKept modules known.items (record { code = parts.0.items; may_run = parts.1.items; cells = parts.2.items }) }
    requires named { NamesWithin modules longest }
    requires ready { AreReady modules known.items commands.items longest calls }
    requires room { length parts.0.items < vec_capacity parts.0 }
    requires flag { length parts.1.items < vec_capacity parts.1 }
    ensures { result ≡ begun_in (session_of modules parts.2.items) (task.Commands commands) }
{
    let (mut code, mut may_run, cells) = parts;
    let alloc = modules.alloc();
    let behind = code.len();
    code.push_reserved(LinkedModule {
        code: calls.code.into_code(),
        imports: calls.imports,
        cells: cells.len(),
    });
    may_run.push_reserved(true);
    let opening = Snapshot::of(&cells);
    let image = Image::of(code, may_run, cells);
    let run = ob_vm::Machine::start(alloc, &image, behind, calls.room);
    Machine {
        modules,
        known,
        image,
        run,
        opening,
        task: Task::Commands(commands),
        lines: GivenLines::none(),
        asks: false,
        over: false,
        longest,
        name: calls.name,
    }
}

impl Session {
    /// Makes a machine before the first turn of these commands, which were looked up in this session.
    ///
    /// # Errors
    ///
    /// Out of memory, and then the session is handed back as it was.
    pub fn run_commands(self, commands: Vec<Command>) -> Result<Machine, (Session, AllocError)>
        requires { (names : List CommandName) × (all_ready self names ≡ Runs commands.items) }
        ensures begun { IfOk result (λ m. m ≡ begun_in self (task.Commands commands)) }
        ensures back { IfErr result (λ back. back.0 ≡ self) }
    {
        let Session {
            modules,
            known,
            image,
            longest,
        } = self;
        let (mut code, mut may_run, cells) = image.into_parts();
        match ready(
            &modules,
            known.as_slice(),
            &mut code,
            &mut may_run,
            commands.as_slice(),
            longest,
        ) {
            Ok(calls) => {
                let parts = (code, may_run, cells);
                Ok(begin(modules, known, parts, calls, commands, longest))
            }
            Err(error) => {
                let session = Session::of(modules, known, (code, may_run, cells), longest);
                Err((session, error))
            }
        }
    }
}
