//! Modules.

ghost use Rattle.std.specs.Prelude.{◌≡◌, ◌++◌, [], length, option_copied, IfOk, IfErr};
ghost use Rattle.ob_tree.specs.declared.tree.Declarations.{out-Declarations};
ghost use Rattle.ob_check_scope.specs.Rule.{Judges, gives, answer};
ghost use Rattle.ob_check_module.specs.CheckedTree.{CheckedTree};
ghost use Rattle.ob_check_module.specs.Codes as codes;
ghost use Rattle.ob_check_module.specs.Codes.{AnswersTree, FaultsOnly, HasRuleCode, IsAnswer};
ghost use Rattle.ob_check_module.specs.Modules as spec;

use crate::checked::{Checked, Imported};
use crate::procedure::procedures;
use ob_base::{Items, Refused};
use ob_check_decl::{MAX_NESTING, declared_by, exported_procedures, interface_of};
use ob_check_kinds::{Made, shape_of};
use ob_check_scope::rejected::{Rejected, told};
use ob_check_scope::{Declared, Entry, Imports, LoadedModule, Scope, Site, Standing};
use ob_check_stmt::statement::optional;
use ob_check_strings::Variables;
use ob_mean::{TypedModule, TypedProcedure, TypedStatement};
use ob_tree::tree::Module;
use ob_types::Key;
use std::alloc::{AllocError, Global};

fn exported_variable(
    alloc: Global,
    made: &mut Made,
    so_far: Variables,
    entry: &Entry,
) -> Result<Variables, AllocError>
    ensures { IfOk result (λ vs. vs ≡ so_far ++ spec.exported_variable entry.now) }
{
    let mut so_far = so_far;
    match entry {
        Entry::Variable(of, Standing::Exported(_)) => {
            so_far.declare(shape_of(alloc, made, of)?)?;
            Ok(so_far)
        }
        _ => Ok(so_far),
    }
}

/// The variables that others see.
fn exported_variables(
    alloc: Global,
    made: &mut Made,
    declared: &[Declared],
) -> Result<Variables, AllocError>
    ensures { IfOk result (λ vs. vs ≡ spec.exported_variables declared.now) }
{
    let mut so_far = Variables::new(alloc);
    for d in declared {
        so_far = exported_variable(alloc, made, so_far, &d.entry)?;
    }
    Ok(so_far)
}

fn own_variable(
    alloc: Global,
    made: &mut Made,
    so_far: Variables,
    entry: &Entry,
) -> Result<Variables, AllocError>
    ensures { IfOk result (λ vs. vs ≡ so_far ++ spec.own_variable entry.now) }
{
    let mut so_far = so_far;
    match entry {
        Entry::Variable(of, Standing::Own(_)) => {
            so_far.declare(shape_of(alloc, made, of)?)?;
            Ok(so_far)
        }
        _ => Ok(so_far),
    }
}

/// The other variables, after these.
fn own_variables(
    alloc: Global,
    made: &mut Made,
    first: Variables,
    declared: &[Declared],
) -> Result<Variables, AllocError>
    ensures { IfOk result (λ vs. vs ≡ first ++ spec.own_variables declared.now) }
{
    let mut so_far = first;
    for d in declared {
        so_far = own_variable(alloc, made, so_far, &d.entry)?;
    }
    Ok(so_far)
}

/// All variables of the module that are declared: those that others see come first.
fn declared_variables(alloc: Global, declared: &[Declared]) -> Result<Variables, AllocError>
    ensures { IfOk result (λ vs. vs ≡ spec.declared_variables declared.now) }
{
    let mut made = Made::new(alloc);
    let exported = exported_variables(alloc, &mut made, declared)?;
    own_variables(alloc, &mut made, exported, declared)
}

/// The import of a loaded module, with its key, after these.
fn with_key(
    alloc: Global,
    so_far: Items<Imported>,
    loaded: Option<&LoadedModule>,
) -> Result<Items<Imported>, AllocError>
    ensures { IfOk result (λ is. is ≡ so_far ++ spec.with_key (option_copied loaded.entry)) }
{
    let mut so_far = so_far;
    match loaded {
        Some(loaded) => {
            let interface = loaded.interface();
            let name = interface.name().copy(alloc)?;
            let key = Key::new(interface)?;
            so_far.push(Imported { name, key })?;
            Ok(so_far)
        }
        None => Ok(so_far),
    }
}

/// These imports, and the module of a name where it is the next one behind them.
fn imported_by(
    alloc: Global,
    imports: &Imports,
    so_far: Items<Imported>,
    entry: &Entry,
) -> Result<Items<Imported>, AllocError>
    ensures { IfOk result (λ is. is ≡ so_far ++ spec.imported_by imports.now (length so_far) entry.now) }
{
    match entry {
        Entry::Module(import, place) => {
            if *import == so_far.len() {
                with_key(alloc, so_far, imports.modules().get(*place))
            } else {
                Ok(so_far)
            }
        }
        _ => Ok(so_far),
    }
}

fn all_imported(
    alloc: Global,
    imports: &Imports,
    declared: &[Declared],
) -> Result<Items<Imported>, AllocError>
    ensures { IfOk result (λ is. is ≡ spec.all_imported imports.now declared.now) }
{
    let mut so_far = Items::new(alloc);
    for d in declared {
        so_far = imported_by(alloc, imports, so_far, &d.entry)?;
    }
    Ok(so_far)
}

/// A checked module as its parts make it, or lack of memory.
fn checked_of(
    alloc: Global,
    imports: &Imports,
    scope: &Scope,
    procedures: Items<TypedProcedure>,
    body: Items<TypedStatement>,
    variables: Variables,
) -> Result<Checked, AllocError>
    ensures { IfOk result (λ c. c ≡ spec.checked_of imports.now scope.now procedures body variables) }
{
    let declared = scope.block.declared();
    let exported = exported_procedures(alloc, declared)?;
    let interface = interface_of(alloc, &scope.module_name, &scope.block)?;
    let imported = all_imported(alloc, imports, declared)?;
    let tree = TypedModule {
        name: scope.module_name.copy(alloc)?,
        variables: variables.into_items(),
        procedures,
        exported,
        body,
    };
    Ok(Checked::new(tree, interface, imported))
}

/// The body of a module, after its procedures.
#[tactic(auto, unfolding(crate::specs::Modules::body_rule))]
fn with_body(
    alloc: Global,
    imports: &Imports,
    scope: Scope,
    done: Items<TypedProcedure>,
    variables: Variables,
    tree: &Module,
) -> Result<Checked, Rejected>
    ensures { Judges (spec.body_rule imports.now (scope, done, variables) tree.now) result }
{
    let list = tree.body.as_slice();
    let span = tree.name.span;
    let (body, variables) = optional(
        Site {
            alloc,
            imports,
            scope: &scope,
            levels: MAX_NESTING,
        },
        variables,
        list,
        span,
    )?;
    let checked = checked_of(alloc, imports, &scope, done, body, variables)?;
    Ok(checked)
}

/// The procedures of a module, and then its body.
#[tactic(auto, unfolding(crate::specs::Modules::procedures_rule))]
fn with_procedures(
    alloc: Global,
    imports: &Imports,
    scope: Scope,
    variables: Variables,
    tree: &Module,
) -> Result<Checked, Rejected>
    ensures { Judges (spec.procedures_rule imports.now scope variables tree.now) result }
{
    let so_far = (scope, Items::new(alloc), variables);
    let list = tree.declarations.get().procedures.as_slice();
    let (scope, done, variables) = procedures(alloc, imports, MAX_NESTING, so_far, list)?;
    with_body(alloc, imports, scope, done, variables, tree)
}

/// What stands after the declarations of a module.
#[tactic(auto, unfolding(crate::specs::Modules::checked_rule))]
fn behind_declarations(
    alloc: Global,
    imports: &Imports,
    scope: Scope,
    tree: &Module,
) -> Result<Checked, Rejected>
    ensures { Judges (spec.checked_rule imports.now scope tree.now) result }
{
    let variables = declared_variables(alloc, scope.block.declared())?;
    with_procedures(alloc, imports, scope, variables, tree)
}

#[tactic(auto, unfolding(crate::specs::Modules::module_at))]
fn module_of(alloc: Global, imports: &Imports, tree: &Module) -> Result<Checked, Rejected>
    ensures { Judges (spec.module_at imports.now tree.now) result }
{
    let scope = declared_by(alloc, imports, tree)?;
    behind_declarations(alloc, imports, scope, tree)
}

/// What is told of what the rules give.
fn told_of(outcome: Result<Checked, Rejected>) -> Result<Checked, Refused>
    ensures { result ≡ codes.told_of outcome }
{
    match outcome {
        Ok(checked) => Ok(checked),
        Err(rejected) => Err(told(rejected)),
    }
}

/// The typed tree of a module, its interface and its imports, by the static rules of Oberon-07 (Wirth, The Programming Language
/// Oberon), over the modules that are loaded.
///
/// `Refused::Fault` has the code of a broken rule and the place of a token there; `Refused::Memory` where memory was refused.
pub fn check(alloc: Global, tree: &Module, imports: &Imports) -> Result<Checked, Refused>
    // What is answered is what the rules give.
    ensures found { IfOk result (λ c. gives (spec.module_at imports.now tree.now) c) }
    // Where the rules give a checked module it is answered, unless memory runs out.
    ensures only { (c : CheckedTree) → gives (spec.module_at imports.now tree.now) c → AnswersTree c result }
    // The code of a refusal is that of a rule which is broken, and then the rules give none.
    ensures faults { FaultsOnly (spec.module_at imports.now tree.now) result }
    // Of several broken rules the code is that of the first, from left to right.
    ensures answer { IsAnswer (answer (spec.module_at imports.now tree.now)) result }
    // The code is one of the static rules, 10 to 21.
    ensures codes { IfErr result (λ e. HasRuleCode e) }
{
    told_of(module_of(alloc, imports, tree))
}
