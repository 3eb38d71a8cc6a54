//! How values of a type are made of basic ones, and how many cells they take. Shapes share their parts, so that one more use of a
//! shape takes no copy of them.

ghost use Rattle.std.specs.Prelude.{◌≡◌, ◌+◌, ◌*◌, IfOk};
ghost use Rattle.ob_mean.specs.declared.shape.Shape.TheVariants.{Basic as OfBasic, Array as OfArray, Record as OfRecord};
ghost use Rattle.ob_mean.specs.Measured as spec;
ghost use Rattle.ob_mean.specs.Shapes.{at_least_one, zero_of, zeros};
ghost use Rattle.ob_mean.specs.Values.{before, size};

use ob_base::{Items, Shared};
use std::alloc::{AllocError, Global};
use std::marker::Model;

/// What a type is to its values: how they are made of basic ones. It has beside it how many cells they take. Contracts see it
/// written out.
#[cycle(measured)]
#[derive(Drop)]
pub struct Shape {
    form: ShapeForm,
    cells: usize,
}

/// The form of a shape.
#[cycle(measured)]
#[derive(Drop)]
pub enum ShapeForm {
    /// INTEGER, BOOLEAN, CHAR or BYTE.
    Basic,
    /// How many elements, and their shape.
    Array(u32, Shared<Shape>),
    Record(Shared<Fields>),
}

/// The fields of a record.
#[cycle(measured)]
#[derive(Drop)]
pub struct Fields {
    /// In order of declaration.
    pub shapes: Items<Shape>,
    /// How many cells stand before each, and at last how many there are.
    pub(crate) offsets: Vec<usize>,
}

impl Model for Shape {
    ghost use Rattle.std.specs.Coded.{codes};
    ghost use Rattle.ob_mean.specs.declared.shape.Shape as plain;
    ghost use Rattle.ob_mean.specs.contracts.shape.Shape as shape;

    ghost Value = { plain.Shape };

    ghost coded = { Prim.hlevel (codes, shape.the_row.coded) };

    ghost use Rattle.ob_mean.specs.Measured.{shape_of, IsMeasured, size_in};

    ghost view = { λ s. shape_of s.form };

    ghost invariant = { λ s. IsMeasured s.form s.cells };

    ghost size = { size_in };

    ghost use Rattle.std.proofs.Common.{arith};
    ghost use Rattle.ob_mean.specs.MeasuredFalls.{parts_fall};

    ghost size_decreases = { λ a h. omega (arith, parts_fall a.form) };
}

/// Both together. There is no room for 2^64 cells.
fn total(first: usize, second: usize) -> Result<usize, AllocError>
    ensures { IfOk result (λ n. n ≡ first + second) }
{
    match first.checked_add(second) {
        Some(n) => Ok(n),
        None => Err(AllocError),
    }
}

fn times(count: usize, each: usize) -> Result<usize, AllocError>
    ensures { IfOk result (λ n. n ≡ count * each) }
{
    match count.checked_mul(each) {
        Some(n) => Ok(n),
        None => Err(AllocError),
    }
}

/// How many cells stand before each of these fields, and at last how many there are. Or lack of memory.
fn offsets_of(alloc: Global, shapes: &[Shape]) -> Result<Vec<usize>, AllocError>
    ensures { IfOk result (λ v. v.items ≡ spec.offsets 0 shapes.now) }
{
    let mut offsets = Vec::with_capacity(alloc, shapes.len())?;
    let mut cells = 0;
    for shape in shapes {
        offsets.push(cells)?;
        cells = total(cells, shape.cells)?;
    }
    offsets.push(cells)?;
    Ok(offsets)
}

/// How many cells of a record with these fields stand before one of them: a record without fields has a cell.
#[tactic(auto, using(crate::proofs::Cells::none_before, crate::proofs::Cells::offset_at, crate::proofs::Cells::count_offsets))]
fn field_before(fields: &Fields, part: usize) -> usize
    requires { fields.now.offsets.items ≡ spec.offsets 0 fields.now.shapes }
    ensures { result ≡ before (at_least_one (zeros fields.now.shapes)) part }
{
    let count = fields.shapes.len();
    if count == 0 {
        return part.min(1);
    }
    fields.offsets[part.min(count)]
}

/// How many cells a record with these fields has.
#[tactic(auto, using(crate::proofs::Cells::last_offset, crate::proofs::Cells::count_offsets))]
fn record_cells(fields: &Fields) -> usize
    requires { fields.now.offsets.items ≡ spec.offsets 0 fields.now.shapes }
    ensures { result ≡ size (at_least_one (zeros fields.now.shapes)) }
{
    let count = fields.shapes.len();
    if count == 0 {
        return 1;
    }
    fields.offsets[count]
}

impl Shape {
    /// The shape of a basic type.
    pub fn basic() -> Shape
        ensures { result ≡ OfBasic }
    {
        Shape {
            form: ShapeForm::Basic,
            cells: 1,
        }
    }

    /// The shape of an array of so many elements of a shape. Or lack of memory, as where there is no room for 2^64 cells.
    #[tactic(auto, using(crate::proofs::Cells::array_size))]
    pub fn array(alloc: Global, length: u32, element: Shape) -> Result<Shape, AllocError>
        ensures { IfOk result (λ s. s ≡ OfArray length element) }
    {
        let cells = times(length as usize, element.cells)?;
        Ok(Shape {
            form: ShapeForm::Array(length, Shared::new(alloc, element)?),
            cells,
        })
    }

    /// The shape of a record of fields of these shapes. Or lack of memory, as where there is no room for 2^64 cells.
    #[tactic(auto, using(crate::proofs::Cells::record_size))]
    pub fn record(alloc: Global, shapes: Items<Shape>) -> Result<Shape, AllocError>
        ensures { IfOk result (λ s. s ≡ OfRecord shapes) }
    {
        let offsets = offsets_of(alloc, shapes.as_slice())?;
        let fields = Fields { shapes, offsets };
        let cells = record_cells(&fields);
        Ok(Shape {
            form: ShapeForm::Record(Shared::new(alloc, fields)?),
            cells,
        })
    }

    /// Its form.
    pub fn form(&self) -> &ShapeForm
        ensures { spec.shape_of result.now ≡ self.now }
    {
        &self.form
    }

    /// How many cells a variable of this shape has.
    pub fn cells(&self) -> usize
        ensures { result ≡ size (zero_of self.now) }
    {
        self.cells
    }

    /// How many cells of a variable of this shape stand before a part of it. Or lack of memory, where there is no room for 2^64 cells.
    #[tactic(auto, using(crate::proofs::Cells::array_before, crate::proofs::Cells::record_before))]
    pub fn before(&self, part: usize) -> Result<usize, AllocError>
        ensures { IfOk result (λ n. n ≡ before (zero_of self.now) part) }
    {
        match &self.form {
            ShapeForm::Basic => Ok(0),
            ShapeForm::Array(length, element) => {
                times(part.min(*length as usize), element.get().cells)
            }
            ShapeForm::Record(fields) => Ok(field_before(fields.get(), part)),
        }
    }

    /// An equal shape, which shares its parts with this one: in constant time and without memory. Refused only where no more owners
    /// of a part can be counted.
    pub fn another(&self) -> Result<Shape, AllocError>
        ensures { IfOk result (λ s. s ≡ self.now) }
    {
        let form = match &self.form {
            ShapeForm::Basic => ShapeForm::Basic,
            ShapeForm::Array(length, element) => ShapeForm::Array(*length, element.another()?),
            ShapeForm::Record(fields) => ShapeForm::Record(fields.another()?),
        };
        Ok(Shape {
            form,
            cells: self.cells,
        })
    }
}
