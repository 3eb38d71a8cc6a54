//! Copies of what is known of a module, which are equal values. Shapes have one more owner.

ghost use Rattle.std.specs.Prelude.{◌≡◌, IfOk};

use ob_base::Items;
use ob_mean::{Face, Heading, Parameter, Shape};
use std::alloc::{AllocError, Global};

fn copy_shapes(alloc: Global, shapes: &[Shape]) -> Result<Items<Shape>, AllocError>
    ensures { IfOk result (λ c. c ≡ shapes.now) }
{
    let mut copies = Items::new(alloc);
    for shape in shapes {
        copies.push(shape.another()?)?;
    }
    Ok(copies)
}

fn another_parameter(parameter: &Parameter) -> Result<Parameter, AllocError>
    ensures { IfOk result (λ c. c ≡ parameter.now) }
{
    match parameter {
        Parameter::Value => Ok(Parameter::Value),
        Parameter::Place(shape) => Ok(Parameter::Place(shape.another()?)),
        Parameter::Open(element) => Ok(Parameter::Open(element.another()?)),
        Parameter::Extended(shape) => Ok(Parameter::Extended(shape.another()?)),
    }
}

fn copy_parameters(alloc: Global, parameters: &[Parameter]) -> Result<Items<Parameter>, AllocError>
    ensures { IfOk result (λ c. c ≡ parameters.now) }
{
    let mut copies = Items::new(alloc);
    for parameter in parameters {
        copies.push(another_parameter(parameter)?)?;
    }
    Ok(copies)
}

fn copy_heading(alloc: Global, heading: &Heading) -> Result<Heading, AllocError>
    ensures { IfOk result (λ c. c ≡ heading.now) }
{
    Ok(Heading {
        parameters: copy_parameters(alloc, heading.parameters.as_slice())?,
        is_function: heading.is_function,
    })
}

fn copy_headings(alloc: Global, headings: &[Heading]) -> Result<Items<Heading>, AllocError>
    ensures { IfOk result (λ c. c ≡ headings.now) }
{
    let mut copies = Items::new(alloc);
    for heading in headings {
        copies.push(copy_heading(alloc, heading)?)?;
    }
    Ok(copies)
}

/// An equal face, or out of memory.
pub fn copy_face(alloc: Global, face: &Face) -> Result<Face, AllocError>
    ensures { IfOk result (λ c. c ≡ face.now) }
{
    Ok(Face {
        variables: copy_shapes(alloc, face.variables.as_slice())?,
        procedures: copy_headings(alloc, face.procedures.as_slice())?,
    })
}
