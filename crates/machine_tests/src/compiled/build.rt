//! Images of programs made by hand.

ghost use Rattle.std.specs.Prelude.{◌≡◌, ◌<◌, length, true, slice_get, All, IsTrue, IfOk, OnOk};
ghost use Rattle.ob_code.specs.declared.instr.LinkedModule.{LinkedModule as ModuleOf};
ghost use Rattle.ob_code.specs.Linked.{all_cells, runs_of};
ghost use Rattle.ob_code.specs.Kinds.{IsMeasured};
ghost use Rattle.ob_vm.specs.Images.{IsOf};

use ob_code::instr::{CodeModule, LinkedModule};
use ob_gen::module_code;
use ob_image::push_opening;
use ob_mean::{Face, Loaded};
use ob_reference_store::stop::NoAnswer;
use ob_verify::linked::are_linked;
use ob_verify::validate::validate;
use ob_vm::{Image, Machine};
use std::alloc::Global;

/// Code, which validation has to accept.
fn valid(alloc: Global, code: CodeModule) -> Result<CodeModule, NoAnswer>
    ensures { IfOk result IsMeasured }
{
    match validate(alloc, code)? {
        Some(code) => Ok(code.into_code()),
        None => Err(NoAnswer),
    }
}

/// The code of one module more.
fn add(
    alloc: Global,
    modules: &mut Vec<LinkedModule>,
    first_cell: usize,
    known: &[Face],
    module: &Loaded,
) -> Result<(), NoAnswer>
    requires { All (λ (l : ModuleOf). IsMeasured l.code) modules.old.items }
    ensures { OnOk result (All (λ (l : ModuleOf). IsMeasured l.code) modules.new.items) }
{
    let imports = module.imports.as_slice();
    let known = if imports.is_empty() { &[] } else { known };
    let code = valid(alloc, module_code(alloc, known, &module.tree)?)?;
    modules.push(LinkedModule {
        code,
        imports: Vec::from_slice(alloc, imports)?,
        cells: first_cell,
    })?;
    Ok(())
}

/// Whether the modules have so many cells.
fn have_cells(modules: &[LinkedModule], count: usize) -> bool
    ensures { IsTrue result → count ≡ all_cells modules.now }
{
    match modules {
        [] => count == 0,
        [first, others @ ..] => {
            first.code.cells <= count && have_cells(others, count - first.code.cells)
        }
    }
}

/// The image of a program, in which a module that imports others knows these of them.
pub(crate) fn image_of(
    alloc: Global,
    program: &[Loaded],
    known: &[Face],
) -> Result<Image, NoAnswer> {
    let mut modules = Vec::new(alloc);
    let mut cells = Vec::new(alloc);
    for module in program {
        add(alloc, &mut modules, cells.len(), known, module)?;
        push_opening(&mut cells, module.tree.variables.as_slice())?;
    }
    linked(alloc, modules, cells)
}

/// The image of modules, all of which may run.
fn linked(alloc: Global, modules: Vec<LinkedModule>, cells: Vec<i32>) -> Result<Image, NoAnswer>
    requires { All (λ (l : ModuleOf). IsMeasured l.code) modules.items }
{
    let may_run = vec![in alloc; true; modules.len()]?;
    if are_linked(&modules, &may_run) && have_cells(&modules, cells.len()) {
        Ok(Image::of(modules, may_run, cells))
    } else {
        Err(NoAnswer)
    }
}

/// The image of one module that imports nothing, whose cells are 0.
pub(crate) fn image_of_code(alloc: Global, code: CodeModule) -> Result<Image, NoAnswer> {
    let cells = vec![in alloc; 0i32; code.cells]?;
    let code = valid(alloc, code)?;
    let mut modules = Vec::new(alloc);
    modules.push(LinkedModule {
        code,
        imports: Vec::new(alloc),
        cells: 0,
    })?;
    linked(alloc, modules, cells)
}

fn runs(may_run: &[bool], home: usize) -> bool
    ensures { result ≡ runs_of may_run.now home }
{
    match may_run.get(home) {
        Some(runs) => *runs,
        None => false,
    }
}

/// A machine before the body of the module of this number.
pub(crate) fn begin(alloc: Global, image: &Image, home: usize) -> Result<Machine, NoAnswer>
    ensures { IfOk result (λ m. IsOf image.now m) }
{
    if home >= image.modules().len()
        || !runs(image.may_run(), home)
        || !have_cells(image.modules(), image.cells().len())
    {
        return Err(NoAnswer);
    }
    let room = Machine::room_for(alloc, image, home)?;
    Ok(Machine::start(alloc, image, home, room))
}
