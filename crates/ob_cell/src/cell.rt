//! The plan of a cell.

ghost use Rattle.std.specs.Prelude.{ℕ, List, IfOk, IfErr};
ghost use Rattle.ob_mean.specs.Values.{Value};
ghost use Rattle.ob_link.specs.Looking.{in_store};
ghost use Rattle.ob_link.specs.Modules.{AllSolid, AllDistinct};
ghost use Rattle.ob_load.specs.Words.{AllWords};
ghost use Rattle.ob_cell.specs.Oberon.{IsTreeOf};
ghost use Rattle.ob_cell.specs.Planned.{IsPlanned, IsStaticRefusal};

use crate::command::commands_plan;
use crate::module::module_plan;
use crate::planned::Plan;
use ob_base::Refused;
use ob_link::Modules;
use ob_tree::tree::Cell;
use std::alloc::Global;

/// What a cell comes to before it runs, in a session of these modules: a module that keeps the rules and links is compiled,
/// and commands are looked up.
///
/// `Refused::Fault` has the code of a broken rule and the place of a token there; `Refused::Memory` where memory was refused,
/// or where the variables of the module, of one of its procedures or of an import have more cells than there are addresses.
pub fn plan(alloc: Global, modules: &Modules, cell: &Cell) -> Result<Plan, Refused>
    requires solid { AllSolid modules.now }
    requires distinct { AllDistinct modules.now }
    requires words { AllWords modules.now }
    requires read { (text : List ℕ) × IsTreeOf text cell.now }
    ensures found { IfOk result (λ plan. (store : Value) → IsPlanned (in_store modules.now store) cell.now plan) }
    ensures faults { IfErr result (λ refused. (store : Value) → IsStaticRefusal (in_store modules.now store) cell.now refused) }
{
    match cell {
        Cell::Module(module) => module_plan(alloc, modules, module),
        Cell::Commands(commands) => Ok(commands_plan(alloc, modules, commands.as_slice())?),
    }
}
