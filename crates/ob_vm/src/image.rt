//! Linked modules and their variables.

ghost use Rattle.std.specs.Prelude.{◌≡◌, ◌≤◌, length, take, Some, slice_get};
ghost use Rattle.ob_code.specs.Linked.{all_cells, IsLinked, runs_of};
ghost use Rattle.ob_code.specs.Kinds.{IsMeasured};
ghost use Rattle.ob_vm.specs.Images.{AreMeasured, CanRun};

use crate::kept::{Kept, none_kept};
use ob_code::instr::LinkedModule;
use ob_step::objects;
use std::marker::Model;

/// Linked modules, which of them may run, and one row of cells: the variables of the modules, one module after the other,
/// and after them those of the calls that are open while a machine runs.
#[derive(Drop)]
pub struct Image {
    pub(crate) modules: Vec<LinkedModule>,
    may_run: Vec<bool>,
    module_cells: usize,
    pub(crate) cells: Vec<i32>,
    // Of procedures that ran when a slice began.
    pub(crate) quick: Kept,
}

impl Model for Image {
    ghost use Rattle.std.specs.Prelude.{◌≡◌, ◌≤◌, length};
    ghost use Rattle.ob_code.specs.Linked.{all_cells, IsLinked, runs_of};
    ghost use Rattle.ob_vm.specs.Images.{ImageState, AreMeasured};
    ghost use Rattle.ob_vm.specs.Quick.{AreQuick};

    ghost Value = { ImageState };

    ghost view = { λ i. record { code = i.modules.items; may_run = i.may_run.items; cells = i.cells.items } };

    ghost invariant = { λ i. (i.module_cells ≡ all_cells i.modules.items)
        × (all_cells i.modules.items ≤ length i.cells.items)
        × IsLinked i.modules.items (runs_of i.may_run.items)
        × AreMeasured i.modules.items (runs_of i.may_run.items)
        × AreQuick i.modules.items i.quick.procedures.items };
}

impl Image {
    /// The image of linked modules, with the first values of their variables. Those may run of whose operands and names enough
    /// is known.
    pub fn of(modules: Vec<LinkedModule>, may_run: Vec<bool>, cells: Vec<i32>) -> Image
        requires linked { IsLinked modules.items (runs_of may_run.items) }
        requires measured { AreMeasured modules.items (runs_of may_run.items) }
        requires cells { length cells.items ≡ all_cells modules.items }
        ensures { result ≡ record { code = modules.items; may_run = may_run.items; cells = cells.items } }
    {
        let module_cells = cells.len();
        let alloc = *cells.allocator();
        Image {
            modules,
            may_run,
            module_cells,
            cells,
            quick: none_kept(alloc),
        }
    }

    /// After a run that was cut off: of the cells only those of the modules stay.
    pub fn cut(&mut self)
        ensures rest { self.new ≡ record self.old { cells = take (all_cells self.old.code) self.old.cells } }
        ensures cells { length self.new.cells ≡ all_cells self.new.code }
    {
        self.cells.truncate(self.module_cells);
    }

    /// The linked modules.
    pub fn modules(&self) -> &[LinkedModule]
        ensures value { result.now ≡ self.now.code }
        ensures linked { IsLinked self.now.code (runs_of self.now.may_run) }
        ensures measured { AreMeasured self.now.code (runs_of self.now.may_run) }
    {
        &self.modules
    }

    /// The module of this number, which may run.
    pub fn module(&self, home: usize) -> &LinkedModule
        requires { CanRun self.now home }
        ensures value { slice_get self.now.code home ≡ Some result.now }
        ensures measured { IsMeasured result.now.code }
    {
        objects::module(self.modules(), home)
    }

    /// Which modules may run, by their numbers.
    pub fn may_run(&self) -> &[bool]
        ensures { result.now ≡ self.now.may_run }
    {
        &self.may_run
    }

    /// The cells of all variables.
    pub fn cells(&self) -> &[i32]
        ensures value { result.now ≡ self.now.cells }
        ensures modules { all_cells self.now.code ≤ length result.now }
    {
        &self.cells
    }

    /// The modules, which of them may run, and the cells, of which an image can be made again.
    pub fn into_parts(self) -> (Vec<LinkedModule>, Vec<bool>, Vec<i32>)
        ensures code { result.0.items ≡ self.code }
        ensures may_run { result.1.items ≡ self.may_run }
        ensures cells { result.2.items ≡ self.cells }
        ensures linked { IsLinked self.code (runs_of self.may_run) }
        ensures measured { AreMeasured self.code (runs_of self.may_run) }
    {
        let Image {
            modules,
            may_run,
            module_cells: _,
            cells,
            quick: _,
        } = self;
        (modules, may_run, cells)
    }
}
