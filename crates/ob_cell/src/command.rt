//! Cells that are commands.

ghost use Rattle.std.specs.Prelude.{◌≡◌, map, IfOk};
ghost use Rattle.ob_tree.specs.declared.tree.Cell.TheVariants as cells;
ghost use Rattle.ob_mean.specs.Values.{Value};
ghost use Rattle.ob_cell.specs.Texts as meaning;
ghost use Rattle.ob_link.specs.Looking.{in_store};
ghost use Rattle.ob_cell.specs.Planned.{IsPlanned};

use crate::planned::Plan;
use ob_link::{CommandName, Modules, Ready};
use ob_tree::tree::Command;
use std::alloc::{AllocError, Global};

fn names_of(alloc: Global, commands: &[Command]) -> Result<Vec<CommandName>, AllocError>
    ensures { IfOk result (λ v. v.items ≡ map meaning.command_of commands.now) }
{
    let mut names = Vec::new(alloc);
    for command in commands {
        let home = command.module_name.name.copy(alloc)?;
        let name = command.procedure.name.copy(alloc)?;
        names.push(CommandName::new(home, name))?;
    }
    Ok(names)
}

/// The commands, each looked up, or why the first that can't run can't.
///
/// # Errors
///
/// Out of memory.
pub fn commands_plan(
    alloc: Global,
    modules: &Modules,
    commands: &[Command],
) -> Result<Plan, AllocError>
    ensures { IfOk result (λ plan. (store : Value) → IsPlanned (in_store modules.now store) (cells.Commands commands.now) plan) }
{
    let names = names_of(alloc, commands)?;
    match modules.ready(names.as_slice())? {
        Ready::Runs(commands) => Ok(Plan::Commands(commands)),
        Ready::Faulty(fault) => Ok(Plan::Unlinked(fault)),
    }
}
