//! The machine of a module's body.

ghost use Rattle.std.specs.Prelude.{◌≡◌, ◌≤◌, [], None, IfOk, IfErr, length, vec_capacity};
ghost use Rattle.ob_types.specs.Solid.{ExportsSolid};
ghost use Rattle.ob_gen.specs.Generated.{IsGenerated};
ghost use Rattle.ob_image.specs.Compiled.{AllFound};
ghost use Rattle.ob_image.specs.Loading.{IsUnreached};
ghost use Rattle.ob_load.specs.Kept.{AreCheckable};
ghost use Rattle.ob_load.specs.Known.{AreSaid, IsSaid};
ghost use Rattle.ob_load.specs.Loading.{BodyMayBegin};
ghost use Rattle.ob_load.specs.MachineState.{begun_in};
ghost use Rattle.ob_load.specs.Names.{NamesWithin};
ghost use Rattle.ob_load.specs.Words.{InterfaceWords};
ghost use Rattle.ob_mean.specs.WellFormed.{IsFaceOf, IsWellFormed};
ghost use Rattle.ob_session.specs.Session.{installed, link_fault, name_of, place_of};
ghost use Rattle.ob_image.specs.Stores.{session_of};

use crate::given::GivenLines;
use crate::loading::{Compiled, load};
use crate::machine::Machine;
use crate::session::Session;
use crate::task::Task;
use ob_code::checked::Checked;
use ob_code::instr::LinkedModule;
use ob_image::KnownFaces;
use ob_link::{Modules, SessionModule};
use ob_vm::{Image, Room};
use std::alloc::AllocError;
use std::snapshot::Snapshot;

/// What the body of the module of this number begins with.
#[derive(Drop)]
pub(crate) struct Beginning {
    pub number: usize,
    pub runs: Vec<bool>,
    pub cells: Vec<i32>,
    pub room: Room,
}

/// A machine before the first turn of a body. It takes no memory.
fn begin(
    modules: Modules,
    known: Vec<KnownFaces>,
    code: Vec<LinkedModule>,
    beginning: Beginning,
    longest: usize,
    name: Vec<u8>,
) -> Machine
    requires may { BodyMayBegin modules known.items code.items beginning }
    requires checkable { AreCheckable modules }
    requires said { AreSaid modules known.items }
    requires named { NamesWithin modules longest }
    requires empty { name.items ≡ [] }
    requires long { longest ≤ vec_capacity name }
    ensures { result ≡ begun_in (session_of modules beginning.cells.items) (Task.Body beginning.number) }
{
    let Beginning {
        number,
        runs,
        cells,
        room,
    } = beginning;
    let opening = Snapshot::of(&cells);
    let alloc = modules.alloc();
    let image = Image::of(code, runs, cells);
    let run = ob_vm::Machine::start(alloc, &image, number, room);
    Machine {
        modules,
        known,
        image,
        run,
        opening,
        task: Task::Body(number),
        lines: GivenLines::none(),
        asks: false,
        over: false,
        longest,
        name,
    }
}

impl Session {
    /// Loads a module, whose code was made over what is known of its imports, and makes a machine before the first turn of its
    /// body. The module's imports link, and none of its name is reached through them. What is known of it and of its imports
    /// is what their keys say.
    ///
    /// # Errors
    ///
    /// Out of memory, and then the session is handed back as it was.
    pub fn run_module(
        self,
        added: SessionModule,
        faces: KnownFaces,
        code: Checked,
    ) -> Result<Machine, (Session, AllocError)>
        requires formed { IsWellFormed faces.faces added.tree }
        requires generated { IsGenerated faces.faces added.tree code }
        requires face { IsFaceOf faces.face added.tree }
        requires found { AllFound self.modules added.imports }
        requires solid { ExportsSolid added.interface.exports }
        requires words { InterfaceWords added.interface }
        requires said { IsSaid added faces }
        requires links { link_fault self.modules added.imports ≡ None }
        requires unreached { IsUnreached self.modules (name_of added) added.imports }
        ensures begun { IfOk result (λ m. m ≡ begun_in (installed self added) (Task.Body (place_of self.modules (name_of added)))) }
        ensures back { IfErr result (λ back. back.0 ≡ self) }
    {
        let longest = self.longest.max(added.interface().name().as_slice().len());
        let name = match Vec::with_capacity(self.modules.alloc(), longest) {
            Ok(name) => name,
            Err(error) => return Err((self, error)),
        };
        let Session {
            mut modules,
            mut known,
            image,
            longest: before,
        } = self;
        let (mut parts, may_run, cells) = image.into_parts();
        let compiled = Compiled { added, faces, code };
        match load(
            &mut modules,
            &mut known,
            &mut parts,
            cells.as_slice(),
            compiled,
        ) {
            Ok(beginning) => Ok(begin(modules, known, parts, beginning, longest, name)),
            Err(error) => {
                let session = Session::of(modules, known, (parts, may_run, cells), before);
                Err((session, error))
            }
        }
    }
}
