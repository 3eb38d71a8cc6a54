//! What the names of a text stand for, and where it is.

ghost use Rattle.std.specs.Prelude.{◌≡◌, IfOk, Some, slice_get};
ghost use Rattle.ob_mean.specs.Shapes.{zero_of};
ghost use Rattle.ob_mean.specs.Values.{before, count, size};
ghost use Rattle.ob_mean.specs.WellFormed as formed;
ghost use Rattle.ob_mean.specs.WellFormed.{Of as of};
ghost use Rattle.ob_gen.specs.Code as code;
ghost use Rattle.ob_gen.specs.Known.{names_in, object_seen, IsPlaced};

use ob_code::instr::{Extent, Length, Root};
use ob_mean::{Face, ModuleVariable, Parameter, Shape, ShapeForm, TypedProcedure, Variable};
use ob_table::Table;
use std::alloc::AllocError;

/// What stands at a place.
#[derive(Clone, Copy)]
pub enum Object<'a> {
    Nothing,
    /// A variable of basic type.
    Basic,
    Of(&'a Shape),
    /// An array of characters, as many as this.
    Characters(u32),
    /// An array of such elements whose length is its caller's.
    Open(&'a Shape),
}

/// What a text can name, and where that is.
#[derive(Clone, Copy)]
pub struct Known<'a> {
    /// What is known of the modules that are imported, and where their variables are.
    pub faces: &'a [Face],
    pub face_tables: &'a [Table],
    pub variables: &'a [ModuleVariable],
    pub variable_table: &'a Table,
    pub procedures: &'a [TypedProcedure],
    /// The procedure's parameters and other variables, and where its cells are.
    pub parameters: &'a [Parameter],
    pub own: &'a [Shape],
    pub own_table: &'a Table,
    /// The names that the parameters make, one or none each.
    pub name_table: &'a Table,
}

/// Where a variable of an import is.
#[tactic(auto, using(crate::proofs::emitting::Known::face_extent))]
fn import_extent(known: &Known, import: usize, number: usize) -> Extent
    requires { IsPlaced known.now }
    ensures { result ≡ code.extent_at (code.face_row (slice_get (names_in known.now).faces import)) number }
{
    if import < known.face_tables.len() {
        known.face_tables[import].extent(number)
    } else {
        Extent { from: 0, cells: 0 }
    }
}

/// The object that a variable is.
#[tactic(auto, using(crate::proofs::emitting::Known::row_extent, crate::proofs::emitting::Known::name_before))]
pub fn root_of(known: &Known, variable: Variable) -> Root
    requires { IsPlaced known.now }
    ensures { result ≡ code.root_of (names_in known.now) variable }
{
    match variable {
        Variable::OfModule(number) => Root::OfModule(known.variable_table.extent(number)),
        Variable::OfImport(import, number) => {
            Root::OfImport(import, import_extent(known, import, number))
        }
        Variable::OfProcedure(number) => Root::OfCall(known.own_table.extent(number)),
        Variable::ByParameter(number) => Root::Named(known.name_table.extent(number).from),
    }
}

fn shape_at<'a>(shapes: &'a [Shape], number: usize) -> Object<'a>
    ensures { object_seen result ≡ formed.shape_object (slice_get shapes.now number) }
{
    if number < shapes.len() {
        Object::Of(&shapes[number])
    } else {
        Object::Nothing
    }
}

fn module_object<'a>(variables: &'a [ModuleVariable], number: usize) -> Object<'a>
    ensures { object_seen result ≡ formed.module_object (slice_get variables.now number) }
{
    if number >= variables.len() {
        return Object::Nothing;
    }
    match &variables[number] {
        ModuleVariable::Declared(shape) => Object::Of(shape),
        ModuleVariable::Text(_, length) => Object::Characters(*length),
    }
}

fn face_object<'a>(faces: &'a [Face], import: usize, number: usize) -> Object<'a>
    ensures { object_seen result ≡ formed.face_object (slice_get faces.now import) number }
{
    if import < faces.len() {
        shape_at(faces[import].variables.as_slice(), number)
    } else {
        Object::Nothing
    }
}

#[tactic(auto, using(crate::proofs::emitting::Known::own_first, crate::proofs::emitting::Known::own_rest))]
fn own_object<'a>(parameters: &[Parameter], own: &'a [Shape], number: usize) -> Object<'a>
    ensures { object_seen result ≡ formed.own_object parameters.now own.now number }
{
    if number >= parameters.len() {
        return shape_at(own, number - parameters.len());
    }
    match &parameters[number] {
        Parameter::Value => Object::Basic,
        Parameter::Place(_) => Object::Nothing,
        Parameter::Open(_) => Object::Nothing,
        Parameter::Extended(_) => Object::Nothing,
    }
}

fn named_object<'a>(parameters: &'a [Parameter], number: usize) -> Object<'a>
    ensures { object_seen result ≡ formed.named_object (slice_get parameters.now number) }
{
    if number >= parameters.len() {
        return Object::Nothing;
    }
    match &parameters[number] {
        Parameter::Value => Object::Nothing,
        Parameter::Place(shape) => Object::Of(shape),
        Parameter::Open(shape) => Object::Open(shape),
        Parameter::Extended(shape) => Object::Of(shape),
    }
}

/// What a variable is.
pub fn variable_object<'a>(known: &Known<'a>, variable: Variable) -> Object<'a>
    ensures { object_seen result ≡ formed.variable_object (names_in known.now) variable }
{
    match variable {
        Variable::OfModule(number) => module_object(known.variables, number),
        Variable::OfImport(import, number) => face_object(known.faces, import, number),
        Variable::OfProcedure(number) => own_object(known.parameters, known.own, number),
        Variable::ByParameter(number) => named_object(known.parameters, number),
    }
}

#[tactic(auto, using(crate::proofs::emitting::Known::array_element))]
fn element_in<'a>(shape: &'a Shape) -> Object<'a>
    ensures { object_seen result ≡ formed.shape_object (formed.element_shape shape.now) }
{
    match shape.form() {
        ShapeForm::Array(_, element) => Object::Of(element.get()),
        _ => Object::Nothing,
    }
}

/// What an element of it is.
pub fn element_of<'a>(object: Object<'a>) -> Object<'a>
    ensures { object_seen result ≡ formed.shape_object (formed.elements_in (object_seen object.entry)) }
{
    match object {
        Object::Of(shape) => element_in(shape),
        Object::Characters(_) => Object::Basic,
        Object::Open(element) => Object::Of(element),
        _ => Object::Nothing,
    }
}

#[tactic(auto, using(crate::proofs::emitting::Known::record_field))]
fn field_in<'a>(shape: &'a Shape, number: usize) -> Object<'a>
    ensures { object_seen result ≡ formed.field_in (Some (of shape.now)) number }
{
    match shape.form() {
        ShapeForm::Record(fields) => shape_at(fields.get().shapes.as_slice(), number),
        _ => Object::Nothing,
    }
}

/// What a field of it is.
pub fn field_of<'a>(object: Object<'a>, number: usize) -> Object<'a>
    ensures { object_seen result ≡ formed.field_in (object_seen object.entry) number }
{
    match object {
        Object::Of(shape) => field_in(shape, number),
        _ => Object::Nothing,
    }
}

/// What its base part is, `levels` levels down: the base of a record is its first field.
pub fn base_of<'a>(object: Object<'a>, levels: usize) -> Object<'a>
    ensures { object_seen result ≡ formed.base_object levels (object_seen object.entry) }
{
    let mut base = object;
    for level in 0..levels {
        base = field_of(base, 0);
    }
    base
}

/// How many cells it has.
pub fn object_cells(object: Object) -> usize
    ensures { result ≡ size (code.zero_in (object_seen object.entry)) }
{
    match object {
        Object::Nothing => 0,
        Object::Basic => 1,
        Object::Of(shape) => shape.cells(),
        Object::Characters(length) => length as usize,
        Object::Open(_) => 0,
    }
}

#[tactic(auto, using(crate::proofs::emitting::Known::array_element))]
fn cells_of_element(shape: &Shape) -> usize
    ensures { result ≡ size (code.zero_element (formed.element_shape shape.now)) }
{
    match shape.form() {
        ShapeForm::Array(_, element) => element.get().cells(),
        _ => 0,
    }
}

/// How many cells an element of it has.
pub fn element_cells(object: Object) -> usize
    ensures { result ≡ size (code.zero_element (formed.elements_in (object_seen object.entry))) }
{
    match object {
        Object::Of(shape) => cells_of_element(shape),
        Object::Characters(_) => 1,
        Object::Open(element) => element.cells(),
        _ => 0,
    }
}

/// How many cells of it stand before a part.
pub fn part_before(object: Object, part: usize) -> Result<usize, AllocError>
    ensures { IfOk result (λ n. n ≡ before (code.zero_in (object_seen object.entry)) part) }
{
    match object {
        Object::Of(shape) => shape.before(part),
        Object::Characters(length) => Ok(part.min(length as usize)),
        _ => Ok(0),
    }
}

/// The number of the name, if it is one.
pub fn name_number(root: Root) -> usize
    ensures { result ≡ code.name_number root }
{
    match root {
        Root::Named(number) => number,
        _ => 0,
    }
}

/// How many parts a variable of this shape has.
#[tactic(auto, using(crate::proofs::emitting::Known::array_count, crate::proofs::emitting::Known::record_count))]
fn count_of(shape: &Shape) -> usize
    ensures { result ≡ count (zero_of shape.now) }
{
    match shape.form() {
        ShapeForm::Basic => 0,
        ShapeForm::Array(length, _) => *length as usize,
        ShapeForm::Record(fields) => fields.get().shapes.len().max(1),
    }
}

/// How many elements it has, which begins at this root.
#[tactic(auto, using(crate::proofs::emitting::Known::array_count))]
pub fn length_of(object: Object, root: Root) -> Length
    ensures { result ≡ code.length_in (object_seen object.entry) root }
{
    match object {
        Object::Nothing | Object::Basic => Length::Elements(0),
        Object::Of(shape) => Length::Elements(count_of(shape)),
        Object::Characters(length) => Length::Elements(length as usize),
        Object::Open(_) => Length::OfName(name_number(root)),
    }
}
