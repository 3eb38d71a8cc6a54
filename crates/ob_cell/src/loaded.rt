//! The modules that are loaded, as the static rules see them.

ghost use Rattle.std.specs.Prelude.{◌≡◌, [], ◌∷◌, map, None, IfOk, if◌then◌else◌};
ghost use Rattle.ob_check_scope.specs.Imports.{added, module_place};
ghost use Rattle.ob_cell.specs.Texts as meaning;
ghost use Rattle.ob_link.specs.Modules.{AllDistinct};

use ob_base::Text;
use ob_check_scope::Imports;
use ob_link::{Modules, SessionModule};
use ob_tree::tree::{Import, Module};
use std::alloc::{AllocError, Global};

/// A name alone.
fn only_name(alloc: Global, name: &Text) -> Result<Vec<Text>, AllocError>
    ensures { IfOk result (λ v. v.items ≡ name.now ∷ []) }
{
    let mut names = Vec::new(alloc);
    names.push(name.copy(alloc)?)?;
    Ok(names)
}

/// A module more, of a new name, which reaches these names.
fn with_module(
    imports: Imports,
    new: &SessionModule,
    reached: &[Text],
) -> Result<Imports, AllocError>
    requires { module_place imports new.now.interface.name ≡ None }
    ensures { IfOk result (λ more. more ≡ added imports (record { interface = new.now.interface; reached = reached.now })) }
{
    let mut imports = imports;
    imports.push(new.interface(), reached)?;
    Ok(imports)
}

/// Those of them that reach a name reach it alone.
fn reached_name(reaches: bool, name: &[Text]) -> &[Text]
    ensures { result.now ≡ (if reaches then name.now else []) }
{
    if reaches { name } else { &[] }
}

/// The loaded modules, as the rules for a module of this name see them.
fn all_loaded(alloc: Global, modules: &Modules, name: &Text) -> Result<Imports, AllocError>
    requires { AllDistinct modules.now }
    ensures { IfOk result (λ imports. imports ≡ map (meaning.loaded_as modules.now name.now) modules.now) }
{
    let own = only_name(alloc, name)?;
    let reaching = modules.reaching(name)?;
    let modules = modules.as_slice();
    let mut imports = Imports::empty(alloc);
    for number in 0..modules.len() {
        let reached = reached_name(reaching[number], own.as_slice());
        imports = with_module(imports, &modules[number], reached)?;
    }
    Ok(imports)
}

/// The name of the module that is imported.
fn own_name(import: &Import) -> &Text {
    match &import.module_name {
        Some(own) => &own.name,
        None => &import.name.name,
    }
}

/// The loaded modules, with their interfaces, as the rules for this module see them. Names of those that it imports are looked
/// up quickly.
///
/// # Errors
///
/// Out of memory.
pub fn loaded_for(alloc: Global, modules: &Modules, tree: &Module) -> Result<Imports, AllocError>
    requires { AllDistinct modules.now }
    ensures { IfOk result (λ imports. imports ≡ map (meaning.loaded_as modules.now tree.now.name.name) modules.now) }
{
    let mut imports = all_loaded(alloc, modules, &tree.name.name)?;
    for import in tree.imports.as_slice() {
        imports.index_at(modules.place_of(own_name(import)))?;
    }
    Ok(imports)
}
