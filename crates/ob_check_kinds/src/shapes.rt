//! Types and formal parameters as their values have them.

ghost use Rattle.std.specs.Prelude.{◌≡◌, IfOk};
ghost use Rattle.ob_check_kinds.specs.Shapes as spec;

use crate::made::Made;
use ob_base::Items;
use ob_mean::{Parameter, Shape};
use ob_types::{Field, Form, Formal, FormalKind, ObType};
use std::alloc::{AllocError, Global};

/// How a type is made of basic ones, or lack of memory, as where there is no room for 2^64 cells. It shares what it can with the shapes that were made.
#[cycle(shapes)]
#[tactic(auto, using(ob_types::proofs::Measures::array_size, ob_types::proofs::Measures::open_size, crate::proofs::ShapeForms::shape_array, crate::proofs::ShapeForms::shape_open, crate::proofs::ShapeForms::shape_record))]
pub fn shape_of(alloc: Global, made: &mut Made, of: &ObType) -> Result<Shape, AllocError>
    ensures { IfOk result (λ s. s ≡ spec.shape_of of.now) }
{
    if let Some(shape) = made.find(of)? {
        return Ok(shape);
    }
    match of.form() {
        Form::Basic(_) => Ok(Shape::basic()),
        Form::Array(length, element) => {
            let element = shape_of(alloc, made, element.get())?;
            made.keep(of, Shape::array(alloc, *length, element)?)
        }
        Form::Open(element) => {
            let element = shape_of(alloc, made, element.get())?;
            made.keep(of, Shape::array(alloc, 1, element)?)
        }
        Form::Record(record) => {
            let fields = shapes_in(alloc, made, record.get().fields())?;
            made.keep(of, Shape::record(alloc, fields)?)
        }
    }
}

#[cycle(shapes)]
fn shapes_in(alloc: Global, made: &mut Made, fields: &[Field]) -> Result<Items<Shape>, AllocError>
    ensures { IfOk result (λ ss. ss ≡ spec.shapes_in fields.now) }
{
    let mut shapes = Items::new(alloc);
    for field in fields {
        shapes.push(shape_of(alloc, made, field.of())?)?;
    }
    Ok(shapes)
}

fn basic_parameter(kind: FormalKind) -> Parameter
    ensures { result ≡ spec.basic_parameter kind }
{
    match kind {
        FormalKind::Value => Parameter::Value,
        FormalKind::Variable => Parameter::Place(Shape::basic()),
    }
}

fn record_parameter(kind: FormalKind, shape: Shape) -> Parameter
    ensures { result ≡ spec.record_parameter kind shape }
{
    match kind {
        FormalKind::Value => Parameter::Place(shape),
        FormalKind::Variable => Parameter::Extended(shape),
    }
}

#[tactic(auto, using(crate::proofs::ShapeForms::parameter_open))]
fn parameter_of(
    alloc: Global,
    made: &mut Made,
    kind: FormalKind,
    of: &ObType,
) -> Result<Parameter, AllocError>
    ensures { IfOk result (λ p. p ≡ spec.parameter_of kind of.now) }
{
    match of.form() {
        Form::Basic(_) => Ok(basic_parameter(kind)),
        Form::Open(element) => Ok(Parameter::Open(shape_of(alloc, made, element.get())?)),
        Form::Array(_, _) => Ok(Parameter::Place(shape_of(alloc, made, of)?)),
        Form::Record(_) => Ok(record_parameter(kind, shape_of(alloc, made, of)?)),
    }
}

/// What formal parameters are to their procedure, or lack of memory. They share what they can with the shapes that were made.
pub fn parameters_of(
    alloc: Global,
    made: &mut Made,
    formals: &[Formal],
) -> Result<Items<Parameter>, AllocError>
    ensures { IfOk result (λ ps. ps ≡ spec.parameters_of formals.now) }
{
    let mut parameters = Items::new(alloc);
    for formal in formals {
        parameters.push(parameter_of(alloc, made, formal.kind, &formal.of)?)?;
    }
    Ok(parameters)
}
