//! The interface that the declarations of a module make.

ghost use Rattle.std.specs.Prelude.{◌≡◌, ◌++◌, IfOk, option_to_list};
ghost use Rattle.ob_check_decl.specs.Interfaces as spec;

use ob_base::{Items, Text};
use ob_check_scope::block::{Block, Declared, Entry};
use ob_types::{Exported, Interface, Object};
use std::alloc::{AllocError, Global};

/// What other modules see of a declaration, if anything.
fn object_of(alloc: Global, entry: &Entry) -> Result<Option<Object>, AllocError>
    ensures { IfOk result (λ o. o ≡ spec.object_of entry.now) }
{
    match entry {
        Entry::Constant(constant) => Ok(Some(Object::Constant(constant.copy(alloc)?))),
        Entry::TypeName(of) => Ok(Some(Object::TypeName(of.another()?))),
        Entry::Variable(of, _) => Ok(Some(Object::Variable(of.another()?))),
        Entry::Procedure(signature, _) => Ok(Some(Object::Procedure(signature.copy(alloc)?))),
        Entry::In | Entry::Out | Entry::Module(_, _) => Ok(None),
    }
}

/// One declaration more, where it has a mark.
fn export(
    alloc: Global,
    so_far: Items<Exported>,
    d: &Declared,
) -> Result<Items<Exported>, AllocError>
    ensures { IfOk result (λ es. es ≡ so_far ++ spec.exported_of d.now.name d.now.exported (spec.object_of d.now.entry)) }
{
    let mut so_far = so_far;
    if !d.exported {
        return Ok(so_far);
    }
    match object_of(alloc, &d.entry)? {
        Some(object) => {
            let name = d.name.copy(alloc)?;
            so_far.push(Exported { name, object })?;
            Ok(so_far)
        }
        None => Ok(so_far),
    }
}

fn exports_of(alloc: Global, declared: &[Declared]) -> Result<Items<Exported>, AllocError>
    ensures { IfOk result (λ es. es ≡ spec.exports_of declared.now) }
{
    let mut so_far = Items::new(alloc);
    for d in declared {
        so_far = export(alloc, so_far, d)?;
    }
    Ok(so_far)
}

/// The interface of a module of this name with these declarations: those with a mark, in their order. Or lack of memory.
pub fn interface_of(alloc: Global, name: &Text, block: &Block) -> Result<Interface, AllocError>
    ensures { IfOk result (λ i. i ≡ spec.interface_of name.now block.now) }
{
    let exports = exports_of(alloc, block.declared())?;
    let name = name.copy(alloc)?;
    Interface::new(alloc, name, exports)
}

fn number(d: &Declared) -> Option<usize>
    ensures { option_to_list result ≡ spec.number_of d.now.exported d.now.entry }
{
    match &d.entry {
        Entry::Procedure(_, number) => { if d.exported { Some(*number) } else { None } }
        _ => None,
    }
}

/// The numbers of the exported procedures among these declarations, in their order. Or lack of memory.
pub fn exported_procedures(alloc: Global, declared: &[Declared]) -> Result<Items<usize>, AllocError>
    ensures { IfOk result (λ ns. ns ≡ spec.exported_procedures declared.now) }
{
    let mut so_far = Items::new(alloc);
    for d in declared {
        if let Some(number) = number(d) {
            so_far.push(number)?;
        }
    }
    Ok(so_far)
}
