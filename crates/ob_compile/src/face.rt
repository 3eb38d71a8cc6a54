//! What is known of a module by its interface.

ghost use Rattle.std.specs.Prelude.{◌≡◌, ◌++◌, IfOk};
ghost use Rattle.ob_check_laws.specs.Fitting as spec;

use ob_base::Items;
use ob_check_kinds::{Made, parameters_of, shape_of};
use ob_mean::{Face, Heading, Shape};
use ob_types::{Exported, Interface, Object, Signature};
use std::alloc::{AllocError, Global};

fn variable_shapes(
    alloc: Global,
    made: &mut Made,
    exports: &[Exported],
) -> Result<Items<Shape>, AllocError>
    ensures { IfOk result (λ shapes. shapes ≡ spec.variable_shapes exports.now) }
{
    let mut shapes = Items::new(alloc);
    for exported in exports {
        match &exported.object {
            Object::Variable(of) => shapes.push(shape_of(alloc, made, of)?)?,
            _ => {}
        }
    }
    Ok(shapes)
}

fn heading_of(alloc: Global, made: &mut Made, signature: &Signature) -> Result<Heading, AllocError>
    ensures { IfOk result (λ h. h ≡ spec.heading_of signature.now) }
{
    Ok(Heading {
        parameters: parameters_of(alloc, made, signature.formals.as_slice())?,
        is_function: signature.result.is_some(),
    })
}

fn procedure_headings(
    alloc: Global,
    made: &mut Made,
    exports: &[Exported],
) -> Result<Items<Heading>, AllocError>
    ensures { IfOk result (λ headings. headings ≡ spec.procedure_headings exports.now) }
{
    let mut headings = Items::new(alloc);
    for exported in exports {
        match &exported.object {
            Object::Procedure(signature) => headings.push(heading_of(alloc, made, signature)?)?,
            _ => {}
        }
    }
    Ok(headings)
}

/// What an importing module knows of a module with this interface: the shapes of its exported variables and the headings of its
/// exported procedures, in order of declaration. Or lack of memory.
pub fn face_of(alloc: Global, interface: &Interface) -> Result<Face, AllocError>
    ensures { IfOk result (λ face. face ≡ spec.face_of_interface interface.now) }
{
    let mut made = Made::new(alloc);
    Ok(Face {
        variables: variable_shapes(alloc, &mut made, interface.exports())?,
        procedures: procedure_headings(alloc, &mut made, interface.exports())?,
    })
}
