//! What is known of the modules that a module imports.

ghost use Rattle.std.specs.Prelude.{◌≡◌, ◌++◌, option_copied, IfOk};
ghost use Rattle.ob_check_laws.specs.Fitting as spec;

use crate::face::face_of;
use ob_base::Text;
use ob_check_module::Imported;
use ob_check_scope::{Imports, LoadedModule};
use ob_mean::Face;
use std::alloc::{AllocError, Global};

/// The loaded module of a name.
fn module_named<'a>(loaded: &'a [LoadedModule], name: &Text) -> Option<&'a LoadedModule>
    ensures { spec.loaded_face (option_copied result) ≡ spec.face_named loaded.now name.now }
{
    for module in loaded {
        if module.interface().name().same(name) {
            return Some(module);
        }
    }
    None
}

/// What is known of a loaded module, after these.
fn with_face(
    alloc: Global,
    so_far: Vec<Face>,
    loaded: Option<&LoadedModule>,
) -> Result<Vec<Face>, AllocError>
    ensures { IfOk result (λ v. v.items ≡ so_far.items ++ spec.with_face (spec.loaded_face (option_copied loaded.entry))) }
{
    let mut so_far = so_far;
    match loaded {
        Some(module) => {
            so_far.push(face_of(alloc, module.interface())?)?;
            Ok(so_far)
        }
        None => Ok(so_far),
    }
}

/// What the interfaces of the loaded modules say of those that are imported, in the order of the imports. Or lack of memory.
pub fn faces_of(
    alloc: Global,
    loaded: &Imports,
    imported: &[Imported],
) -> Result<Vec<Face>, AllocError>
    ensures { IfOk result (λ v. v.items ≡ spec.faces_of loaded.now imported.now) }
{
    let mut faces = Vec::new(alloc);
    for import in imported {
        let module = module_named(loaded.modules(), &import.name);
        faces = with_face(alloc, faces, module)?;
    }
    Ok(faces)
}
