//! The machine that runs in slices.

ghost use Rattle.std.specs.Prelude.{◌≡◌, true, false, ◌+◌, ◌<◌, ◌^◌, None, IsOk, OnOk, OnErr, option_copied, string_bytes};
ghost use Rattle.jk_language.specs.MachineState.{here};
ghost use Rattle.jk_language.specs.Runs.{unshown, output_taken, line_given, HasTurned};
ghost use Rattle.ob_load.specs.MachineState.{state_of};

use crate::given::{GivenLines, copied};
use crate::session::Session;
use crate::task::Task;
use crate::trap::{name_in, trap_number};
use jk_language::{Trap, Turned};
use ob_image::KnownFaces;
use ob_link::Modules;
use ob_vm::Image;
use std::alloc::AllocError;
use std::marker::Model;
use std::mem;
use std::snapshot::Snapshot;

/// A module's body, or commands, that run in a session.
#[derive(Drop)]
pub struct Machine {
    pub(crate) modules: Modules,
    pub(crate) known: Vec<KnownFaces>,
    pub(crate) image: Image,
    pub(crate) run: ob_vm::Machine,
    /// The modules' variables when it was begun.
    pub(crate) opening: Snapshot<Vec<i32>>,
    pub(crate) task: Task,
    pub(crate) lines: GivenLines,
    /// Whether it told that it needs a line, and was given none since.
    pub(crate) asks: bool,
    /// Whether the end was told.
    pub(crate) over: bool,
    /// No module's name is longer than this.
    pub(crate) longest: usize,
    /// Room for the name of a module, which a trap takes with it.
    pub(crate) name: Vec<u8>,
}

impl Model for Machine {
    ghost use Rattle.std.specs.Coded.{codes};
    ghost use Rattle.ob_types.specs.contracts.structure.ObType as structure;
    ghost use Rattle.ob_mean.specs.contracts.expression.TypedExpr as expression;
    ghost use Rattle.ob_mean.specs.contracts.shape.Shape as shape;
    ghost use Rattle.ob_mean.specs.contracts.statement.TypedStatement as statement;
    ghost use Rattle.ob_load.specs.ValueCode.{value_code};
    ghost use Rattle.ob_image.specs.Stores.{store_of};
    ghost use Rattle.ob_load.specs.MachineState.{MachineState, stands_at};
    ghost use Rattle.ob_load.specs.Kept.{IsHeld, IsRunning};
    ghost use Rattle.ob_load.specs.Names.{NamesWithin, HasRoom};

    ghost Value = { MachineState };

    ghost coded = { Prim.hlevel (codes, value_code, structure.the_row.coded, expression.the_row.coded, shape.the_row.coded, statement.the_row.coded) };

    ghost view = { λ m. stands_at m.modules (store_of m.modules m.opening.value.items) m.task m.lines m.run m.asks m.over };

    ghost invariant = { λ m. IsHeld m.modules m.known.items m.image
        × IsRunning m.modules (store_of m.modules m.opening.value.items) m.task m.lines m.image m.run m.asks
        × NamesWithin m.modules m.longest
        × HasRoom m.modules m.over m.name };
}

impl Machine {
    /// Goes on by at most `most` turns. Where memory is refused it stands before the turn that wanted it, which enters no
    /// loop's body, and a later call goes on there. After `Ended` and `Trapped` it is not called again; after `NeedsLine` it
    /// answers that again until it is given a line.
    pub fn turns(&mut self, most: u64) -> Turned
        requires on { (state_of self.old).over ≡ false }
        requires few { (state_of self.old).turns + most < 2 ^ 64 }
        ensures { HasTurned (state_of self.old) most result (state_of self.new) }
    {
        match self.run.turns(&mut self.image, most) {
            ob_vm::Turned::Ended => {
                self.asks = false;
                self.over = true;
                Turned::Ended
            }
            ob_vm::Turned::Trapped(kind, home, line) => {
                self.asks = false;
                self.over = true;
                let room = mem::replace(&mut self.name, Vec::new(self.modules.alloc()));
                let module = name_in(room, self.modules.as_slice(), home);
                Turned::Trapped(Trap {
                    number: trap_number(kind),
                    module,
                    line,
                })
            }
            ob_vm::Turned::Stopped => {
                self.asks = false;
                Turned::Stopped
            }
            ob_vm::Turned::NeedsLine => {
                self.asks = true;
                Turned::NeedsLine
            }
            ob_vm::Turned::NoMemory => {
                self.asks = false;
                Turned::NoMemory
            }
        }
    }

    /// Gives the line that was asked for, or tells that there is none, which takes no memory. It is read at once.
    ///
    /// # Errors
    ///
    /// Out of memory, and then nothing has changed.
    pub fn give_line(&mut self, line: Option<&str>) -> Result<(), AllocError>
        requires asked { (state_of self.old).asks ≡ true }
        ensures ok { OnOk result (state_of self.new ≡ line_given (option_copied line.entry) (state_of self.old)) }
        ensures err { OnErr result (state_of self.new ≡ state_of self.old) }
        ensures none { option_copied line.entry ≡ None → IsOk result }
    {
        let copy = copied(self.modules.alloc(), line)?;
        self.run.give_line(&self.image, line)?;
        self.lines.add(&copy);
        self.asks = false;
        let _turned = self.run.turns(&mut self.image, 0);
        Ok(())
    }

    /// The turns so far.
    pub fn used(&self) -> u64
        ensures { result ≡ (state_of self.now).turns }
    {
        self.run.used()
    }

    /// The output since it was taken last. It takes no memory.
    pub fn take_output(&mut self) -> String
        ensures output { string_bytes result ≡ unshown (state_of self.old) }
        ensures after { state_of self.new ≡ output_taken (state_of self.old) }
    {
        self.run.take_output()
    }

    /// The session as the task has left it.
    pub fn finish(self) -> Session
        ensures { result ≡ (here (state_of self)).session }
    {
        let Machine {
            modules,
            known,
            mut image,
            mut run,
            opening: _,
            task: _,
            lines: _,
            asks: _,
            over: _,
            longest,
            name: _,
        } = self;
        let _turned = run.turns(&mut image, 0);
        image.cut();
        let (mut code, mut may_run, cells) = image.into_parts();
        let count = modules.as_slice().len();
        code.truncate(count);
        may_run.truncate(count);
        let image = Image::of(code, may_run, cells);
        Session {
            modules,
            known,
            image,
            longest,
        }
    }
}
