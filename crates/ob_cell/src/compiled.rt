//! A checked module, compiled.

ghost use Rattle.std.specs.Prelude.{◌≡◌, map, IfOk};
ghost use Rattle.ob_check_laws.specs.Fitting as fit;
ghost use Rattle.ob_compile.specs.Compilable.{IsCompilable};
ghost use Rattle.ob_cell.specs.Texts as meaning;
ghost use Rattle.ob_cell.specs.Planned.{IsCompiled};

use crate::planned::Planned;
use ob_base::Items;
use ob_check_module::{Checked, Imported};
use ob_check_scope::Imports;
use ob_compile::{compile, face_of, faces_of};
use ob_link::{KeyedImport, SessionModule};
use ob_mean::Face;
use std::alloc::{AllocError, Global};

/// The imports, with their keys.
///
/// # Errors
///
/// Out of memory.
pub fn keyed_imports(alloc: Global, imports: &[Imported]) -> Result<Items<KeyedImport>, AllocError>
    ensures { IfOk result (λ keyed. keyed ≡ map meaning.import_of imports.now) }
{
    let mut keyed = Items::new(alloc);
    for import in imports {
        let name = import.name.copy(alloc)?;
        let key = import.key.another()?;
        keyed.push(KeyedImport::new(name, key))?;
    }
    Ok(keyed)
}

fn items_of(alloc: Global, faces: Vec<Face>) -> Result<Items<Face>, AllocError>
    ensures { IfOk result (λ items. items ≡ faces.items) }
{
    let mut items = Items::new(alloc);
    for face in faces {
        items.push(face)?;
    }
    Ok(items)
}

/// A checked module with these imports, compiled over what the interfaces of the loaded modules say.
///
/// # Errors
///
/// Out of memory; and where something has 2^64 cells or more.
pub fn compiled(
    alloc: Global,
    loaded: &Imports,
    checked: Checked,
    imports: Items<KeyedImport>,
) -> Result<Planned, AllocError>
    requires ready { IsCompilable loaded.now checked }
    requires imports { imports ≡ map meaning.import_of checked.imports }
    ensures same { IfOk result (λ p. p.module ≡ meaning.module_of checked) }
    ensures compiled { IfOk result (λ p. IsCompiled p) }
    ensures faces { IfOk result (λ p. p.faces ≡ fit.faces_of loaded.now checked.imports) }
{
    let faces = faces_of(alloc, loaded, checked.imports())?;
    let code = compile(alloc, faces.as_slice(), checked.tree())?;
    let face = face_of(alloc, checked.interface())?;
    let faces = items_of(alloc, faces)?;
    let (tree, interface, _imported) = checked.into_parts();
    Ok(Planned {
        module: SessionModule::new(interface, tree, imports),
        face,
        faces,
        code,
    })
}
