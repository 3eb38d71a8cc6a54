//! A module that is loaded, with what is known of it and with its code.

ghost use Rattle.std.specs.Prelude.{◌≡◌, List, None, length, OnOk, OnErr, IfOk};
ghost use Rattle.ob_code.specs.Linked.{all_cells};
ghost use Rattle.ob_gen.specs.Generated.{IsGenerated};
ghost use Rattle.ob_image.specs.Compiled.{AllFound, AreCompiledFrom, Known};
ghost use Rattle.ob_image.specs.Compiled as linked;
ghost use Rattle.ob_image.specs.Loading.{IsUnreached};
ghost use Rattle.ob_load.specs.Known.{AreSaid, IsSaid};
ghost use Rattle.ob_load.specs.Loading.{AreFlags, IsPrepared, BodyMayBegin};
ghost use Rattle.ob_mean.specs.WellFormed.{IsFaceOf, IsWellFormed};
ghost use Rattle.ob_session.specs.Session.{link_fault, name_of, place_of, with_module};
ghost use Rattle.ob_image.specs.Stores as stores;

use crate::body::Beginning;
use ob_code::checked::Checked;
use ob_code::instr::LinkedModule;
use ob_image::{KnownFaces, bounds, lay, loaded_cells, put_at};
use ob_link::{Modules, SessionModule};
use ob_vm::Room;
use std::alloc::AllocError;

/// A module, what is known of it, and its code, which was made over what is known of its imports.
#[derive(Drop)]
pub(crate) struct Compiled {
    pub added: SessionModule,
    pub faces: KnownFaces,
    pub code: Checked,
}

/// What the beginning of a module's body takes, made before anything is changed.
#[derive(Drop)]
pub(crate) struct Prepared {
    pub imports: Vec<usize>,
    pub cells: Vec<i32>,
    pub room: Room,
}

fn prepare(
    modules: &Modules,
    code: &[LinkedModule],
    cells: &[i32],
    compiled: &Compiled,
) -> Result<Prepared, AllocError>
    requires cells { length cells.now ≡ all_cells code.now }
    requires compiled { (known : List Known) × AreCompiledFrom modules.now modules.now known code.now 0 }
    ensures { IfOk result (λ p. IsPrepared modules.now cells.now compiled.now.added compiled.now.code p) }
{
    let alloc = modules.alloc();
    let number = modules.place_of(compiled.added.interface().name());
    let imports = modules.numbers(compiled.added.imports())?;
    let (from, behind) = bounds(code, cells.len(), number);
    let variables = compiled.added.tree().variables.as_slice();
    let new_cells = loaded_cells(alloc, cells, from, behind, variables)?;
    let room = ob_vm::Machine::room(alloc, &compiled.code)?;
    Ok(Prepared {
        imports,
        cells: new_cells,
        room,
    })
}

/// A module takes its place among the modules, and what is known of it among what is known. What comes back says which modules may
/// run. Where memory is refused, all is as it was.
fn take_place(
    modules: &mut Modules,
    known: &mut Vec<KnownFaces>,
    added: SessionModule,
    faces: KnownFaces,
) -> Result<Vec<bool>, AllocError>
    requires sides { length known.old.items ≡ length modules.old }
    ensures modules { OnOk result (modules.new ≡ with_module modules.old added) }
    ensures known { OnOk result (known.new.items ≡ linked.put_at known.old.items (place_of modules.old (name_of added)) faces) }
    ensures flags { IfOk result (λ runs. AreFlags modules.new runs.items) }
    ensures err { OnErr result ((modules.new ≡ modules.old) × (known.new.items ≡ known.old.items)) }
{
    known.reserve(1)?;
    let number = modules.place_of(added.interface().name());
    let runs = modules.install(added)?;
    put_at(known, number, faces);
    Ok(runs)
}

/// A module is loaded, and its body may begin. Where memory is refused, all is as it was.
pub(crate) fn load(
    modules: &mut Modules,
    known: &mut Vec<KnownFaces>,
    code: &mut Vec<LinkedModule>,
    cells: &[i32],
    compiled: Compiled,
) -> Result<Beginning, AllocError>
    requires cells { length cells.now ≡ all_cells code.old.items }
    requires compiled { AreCompiledFrom modules.old modules.old known.old.items code.old.items 0 }
    requires formed { IsWellFormed compiled.faces.faces compiled.added.tree }
    requires generated { IsGenerated compiled.faces.faces compiled.added.tree compiled.code }
    requires face { IsFaceOf compiled.faces.face compiled.added.tree }
    requires found { AllFound modules.old compiled.added.imports }
    requires known { AreSaid modules.old known.old.items }
    requires said { IsSaid compiled.added compiled.faces }
    requires links { link_fault modules.old compiled.added.imports ≡ None }
    requires unreached { IsUnreached modules.old (name_of compiled.added) compiled.added.imports }
    ensures modules { OnOk result (modules.new ≡ with_module modules.old compiled.added) }
    ensures may { IfOk result (λ b. BodyMayBegin modules.new known.new.items code.new.items b) }
    ensures known { OnOk result (known.new.items ≡ linked.put_at known.old.items (place_of modules.old (name_of compiled.added)) compiled.faces) }
    ensures cells { IfOk result (λ b. b.cells.items ≡ stores.loaded_cells modules.old compiled.added cells.now) }
    ensures number { IfOk result (λ b. b.number ≡ place_of modules.old (name_of compiled.added)) }
    ensures err { OnErr result ((modules.new ≡ modules.old) × ((known.new.items ≡ known.old.items) × (code.new.items ≡ code.old.items))) }
{
    code.reserve(1)?;
    let prepared = prepare(modules, code.as_slice(), cells, &compiled)?;
    let number = modules.place_of(compiled.added.interface().name());
    let Compiled {
        added,
        faces,
        code: generated,
    } = compiled;
    let runs = take_place(modules, known, added, faces)?;
    let linked = LinkedModule {
        code: generated.into_code(),
        imports: prepared.imports,
        cells: 0,
    };
    put_at(code, number, linked);
    lay(code, number);
    Ok(Beginning {
        number,
        runs,
        cells: prepared.cells,
        room: prepared.room,
    })
}
