//! Cells that are modules.

ghost use Rattle.std.specs.Prelude.{◌≡◌, ℕ, List, map, IfOk, IfErr};
ghost use Rattle.ob_tree.specs.declared.tree.Cell.TheVariants as cells;
ghost use Rattle.ob_mean.specs.Values.{Value};
ghost use Rattle.ob_link.specs.Looking.{in_store};
ghost use Rattle.ob_link.specs.Modules.{AllSolid, AllDistinct};
ghost use Rattle.ob_load.specs.Words.{AllWords};
ghost use Rattle.ob_cell.specs.Oberon.{IsTreeOf};
ghost use Rattle.ob_cell.specs.Planned.{IsPlanned, IsStaticRefusal};
ghost use Rattle.ob_cell.specs.Texts as meaning;

use crate::compiled::{compiled, keyed_imports};
use crate::loaded::loaded_for;
use crate::planned::Plan;
use ob_base::Refused;
use ob_check_module::check;
use ob_check_scope::Imports;
use ob_link::{LinkFault, Modules};
use ob_tree::tree::Module;
use std::alloc::Global;

/// The module, checked, and compiled where it links.
///
/// `Refused::Fault` has the code of a broken rule and the place of a token there; `Refused::Memory` where memory was refused, or
/// where something has 2^64 cells or more.
pub fn module_plan(alloc: Global, modules: &Modules, tree: &Module) -> Result<Plan, Refused>
    requires solid { AllSolid modules.now }
    requires distinct { AllDistinct modules.now }
    requires words { AllWords modules.now }
    requires read { (text : List ℕ) × IsTreeOf text (cells.Module tree.now) }
    ensures found { IfOk result (λ plan. (store : Value) → IsPlanned (in_store modules.now store) (cells.Module tree.now) plan) }
    ensures faults { IfErr result (λ refused. (store : Value) → IsStaticRefusal (in_store modules.now store) (cells.Module tree.now) refused) }
{
    if modules.is_apart(&tree.name.name) {
        return plan_over(alloc, modules, modules.loaded(), tree);
    }
    let loaded = loaded_for(alloc, modules, tree)?;
    plan_over(alloc, modules, &loaded, tree)
}

/// The same over the loaded modules, as the rules for this module see them.
#[tactic(none)]
fn plan_over(
    alloc: Global,
    modules: &Modules,
    loaded: &Imports,
    tree: &Module,
) -> Result<Plan, Refused>
    requires solid { AllSolid modules.now }
    requires words { AllWords modules.now }
    requires read { (text : List ℕ) × IsTreeOf text (cells.Module tree.now) }
    requires loaded { loaded.now ≡ map (meaning.loaded_as modules.now tree.now.name.name) modules.now }
    ensures found { IfOk result (λ plan. (store : Value) → IsPlanned (in_store modules.now store) (cells.Module tree.now) plan) }
    ensures faults { IfErr result (λ refused. (store : Value) → IsStaticRefusal (in_store modules.now store) (cells.Module tree.now) refused) }
{
    let checked = check(alloc, tree, loaded)?;
    let imports = keyed_imports(alloc, checked.imports())?;
    match modules.link_fault(imports.as_slice())? {
        Some(name) => Ok(Plan::Unlinked(LinkFault::OtherKey(name))),
        None => {
            let planned = compiled(alloc, loaded, checked, imports)?;
            Ok(Plan::Module(planned))
        }
    }
}
