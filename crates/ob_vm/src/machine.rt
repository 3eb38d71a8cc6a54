//! The machine, as its callers see it.

ghost use Rattle.std.specs.Prelude.{◌≡◌, ℕ, ◌+◌, ◌-◌, ◌^◌, ◌≤◌, min, [], length, None, Some, option_copied, slice_get, string_bytes, IfOk, IsOk, OnErr, OnOk};
ghost use Rattle.ob_inout.specs.Reading.{given, opened};
ghost use Rattle.ob_code.specs.Linked.{all_cells};
ghost use Rattle.ob_code.specs.Machine as spec;
ghost use Rattle.ob_code.specs.Kinds.{IsMeasured};
ghost use Rattle.ob_step.specs.Written.{most_output};
ghost use Rattle.ob_vm.specs.Images.{AsksFor, CanRun, HasTakenLine, ImageState, IsOf, IsRoomFor, IsRoomIn, WhereAsked, machine_config};
ghost use Rattle.ob_vm.specs.Slices.{SliceDone};

use crate::image::Image;
use crate::run::{Turned, run_quickly};
use ob_code::checked::Checked;
use ob_code::instr::{CodeModule, Frame, Name, Procedure};
use ob_inout::LineBuffer;
use ob_step::output::Output;
use ob_step::state::State;
use std::alloc::{AllocError, Global};
use std::marker::Model;
use std::mem;

/// Room for the operands and the names of a module's body.
#[derive(Drop)]
pub struct Room {
    stack: Vec<i32>,
    names: Vec<Name>,
}

impl Model for Room {
    ghost use Rattle.std.specs.Prelude.{◌≡◌, [], vec_capacity};
    ghost use Rattle.ob_vm.specs.Images.{RoomState};

    ghost Value = { RoomState };

    ghost view = { λ r. record { operands = vec_capacity r.stack; names = vec_capacity r.names } };

    ghost invariant = { λ r. (r.stack.items ≡ []) × (r.names.items ≡ []) };
}

/// A run of a module's body, which goes on in slices of turns.
#[derive(Drop)]
pub struct Machine {
    state: State,
    used: u64,
}

impl Model for Machine {
    ghost use Rattle.ob_vm.specs.Images.{MachineState, machine_of};

    ghost Value = { MachineState };

    ghost view = { λ m. machine_of m.state m.used };
}

/// The last procedure is the body.
fn body(code: &CodeModule) -> &Procedure
    requires { IsMeasured code.now }
    ensures { slice_get code.now.procedures.items (length code.now.procedures.items - 1) ≡ Some result.now }
{
    match code.procedures.get(code.procedures.len().saturating_sub(1)) {
        Some(body) => body,
        None => unreachable!(),
    }
}

/// Room for what the start of this body needs.
fn room_of(alloc: Global, body: &Procedure) -> Result<Room, AllocError>
    ensures operands { IfOk result (λ room. body.now.operand_room ≤ room.operands) }
    ensures names { IfOk result (λ room. body.now.name_room ≤ room.names) }
{
    let stack = Vec::with_capacity(alloc, body.operand_room)?;
    let names = Vec::with_capacity(alloc, body.name_room)?;
    Ok(Room { stack, names })
}

/// A line that In is given, or none.
fn feed(input: &mut LineBuffer, line: Option<&str>) -> Result<(), AllocError>
    ensures ok { OnOk result (input.new.input ≡ given (option_copied line.entry) input.old.input) }
    ensures none { option_copied line.entry ≡ None → IsOk result }
    ensures err { OnErr result (input.new ≡ input.old) }
{
    match line {
        Some(text) => input.push_line(text),
        None => {
            input.no_line();
            Ok(())
        }
    }
}

impl Machine {
    /// Room for what the start of a module's body needs.
    pub fn room(alloc: Global, code: &Checked) -> Result<Room, AllocError>
        ensures { IfOk result (λ room. IsRoomFor code.now room) }
    {
        room_of(alloc, body(code.code()))
    }

    /// Room for what the start of the body of the image's module of this number needs.
    pub fn room_for(alloc: Global, image: &Image, home: usize) -> Result<Room, AllocError>
        requires { CanRun image.now home }
        ensures { IfOk result (λ room. IsRoomIn image.now home room) }
    {
        room_of(alloc, body(&image.module(home).code))
    }

    /// A machine before the first instruction of the body of the image's module of this number. The image has no cells
    /// beside those of the modules. It takes no memory.
    pub fn start(alloc: Global, image: &Image, home: usize, room: Room) -> Machine
        requires runs { CanRun image.now home }
        requires cells { length image.now.cells ≡ all_cells image.now.code }
        requires room { IsRoomIn image.now home room }
        ensures fits { IsOf image.now result }
        ensures begins { machine_config image.now result ≡ spec.start image.now.code home (record { cells = image.now.cells; written = []; input = opened }) }
        ensures used { result.used ≡ 0 }
        ensures silent { result.in_all ≡ 0 }
    {
        let Room { stack, names } = room;
        let procedures = &image.module(home).code.procedures;
        Machine {
            state: State {
                at: Frame {
                    home,
                    procedure: procedures.len().saturating_sub(1),
                    place: 0,
                    cells: image.cells.len(),
                    names: 0,
                },
                stack,
                names,
                frames: Vec::new(alloc),
                cells: Vec::new(alloc),
                written: Output::new(alloc),
                input: LineBuffer::new(alloc),
            },
            used: 0,
        }
    }

    /// The line of In that the machine asked for, or none where there is none to be had: a later call of `turns` goes on
    /// after it. The image is the one that the machine was started with, as its last call left it. None takes no memory.
    ///
    /// # Errors
    ///
    /// Want of memory; the machine then stands as it was.
    pub fn give_line(&mut self, image: &Image, line: Option<&str>) -> Result<(), AllocError>
        requires fits { IsOf image.now self.old }
        requires asks { AsksFor image.now self.old }
        ensures fits { IsOf image.now self.new }
        ensures taken { OnOk result (HasTakenLine image.now self.old (option_copied line.entry) self.new) }
        ensures used { self.new.used ≡ self.old.used }
        ensures in_all { self.new.in_all ≡ self.old.in_all }
        ensures none { option_copied line.entry ≡ None → IsOk result }
        ensures err { OnErr result (self.new ≡ self.old) }
    {
        feed(&mut self.state.input, line)?;
        self.state.at.place -= 2;
        Ok(())
    }

    /// Goes on by at most n turns, and by no more than leave 2^64 - 1 in all. The image is the one that the machine was
    /// started with, as its last call left it. `NoMemory` stands before a turn that enters no body, and nothing of that
    /// turn is done; a later call goes on there. It stands also before a text of Out with which the machine would have written more
    /// bytes in all than `MOST_OUTPUT`. What has ended or trapped stays so, and what needs a line until one is given.
    pub fn turns(&mut self, image: &mut Image, n: u64) -> Turned
        requires { IsOf image.old self.old }
        ensures fits { IsOf image.new self.new }
        ensures code { image.new.code ≡ image.old.code }
        ensures may_run { image.new.may_run ≡ image.old.may_run }
        ensures asks { WhereAsked result image.new self.new }
        ensures limit { self.new.in_all ≤ most_output }
        ensures does { (k : ℕ) × (self.new.used ≡ self.old.used + k)
            × SliceDone image.old.code (machine_config image.old self.old) (machine_config image.new self.new) (min n (2 ^ 64 - 1 - self.old.used)) result k }
    {
        let most = n.min(u64::MAX - self.used);
        mem::swap(&mut image.cells, &mut self.state.cells);
        let slice = run_quickly(&image.modules, &mut image.quick, &mut self.state, most);
        mem::swap(&mut image.cells, &mut self.state.cells);
        self.used += slice.used;
        let _in_all = self.state.written.in_all();
        slice.turned
    }

    /// The turns so far.
    pub fn used(&self) -> u64
        ensures { result ≡ self.now.used }
    {
        self.used
    }

    /// The output since it was taken last. It takes no memory. A machine of an image is one still, and where it asked for a
    /// line it does so still.
    pub fn take_output(&mut self) -> String
        ensures output { string_bytes result ≡ self.old.written }
        ensures rest { self.new ≡ record self.old { written = [] } }
        ensures fits { (i : ImageState) → IsOf i self.old → IsOf i self.new }
        ensures asks { (i : ImageState) → AsksFor i self.old → AsksFor i self.new }
    {
        self.state.written.take()
    }
}
