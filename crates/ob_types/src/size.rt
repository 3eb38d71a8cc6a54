//! How many cells the values of a type take, and how deep it is.

ghost use Rattle.std.specs.Prelude.{◌≡◌, min};
ghost use Rattle.ob_types.specs.Types as spec;

use crate::form::{Field, Form, ObType};

/// The most cells that a type may have.
pub const MAX_CELLS: u32 = 65_536;

/// The most words ARRAY and RECORD that may stand in one another, where a type is written out.
pub const MAX_LEVELS: u32 = 200;

/// How many cells a value of the type takes: `u32::MAX` stands for that many or more. An open array counts as one
/// element.
#[tactic(auto, using(crate::proofs::Measures::array_size, crate::proofs::Measures::open_size, crate::proofs::Equations::cells_array, crate::proofs::Equations::cells_open))]
pub fn zero_size(of: &ObType) -> u32
    ensures { result ≡ min (spec.cells of.now) u32.MAX }
{
    match of.form() {
        Form::Basic(_) => 1,
        Form::Array(length, element) => length.saturating_mul(zero_size(element.get())),
        Form::Open(element) => zero_size(element.get()),
        Form::Record(record) => record.get().cells(),
    }
}

/// The cells of fields: `u32::MAX` stands for that many or more.
pub(crate) fn fields_size(fields: &[Field]) -> u32
    ensures { result ≡ min (spec.cells_in fields.now) u32.MAX }
{
    let mut size = 0u32;
    for field in fields {
        size = size.saturating_add(zero_size(field.of()));
    }
    size
}

/// How deep the words ARRAY and RECORD stand in one another, where the type is written out: `u32::MAX` stands for that many
/// or more.
#[tactic(auto, using(crate::proofs::Measures::array_size, crate::proofs::Measures::open_size, crate::proofs::Equations::levels_array, crate::proofs::Equations::levels_open))]
pub fn levels(of: &ObType) -> u32
    ensures { result ≡ min (spec.levels of.now) u32.MAX }
{
    match of.form() {
        Form::Basic(_) => 0,
        Form::Array(_, element) => levels(element.get()).saturating_add(1),
        Form::Open(element) => levels(element.get()).saturating_add(1),
        Form::Record(record) => record.get().levels(),
    }
}

/// How deep fields are: `u32::MAX` stands for that much or more.
pub(crate) fn fields_levels(fields: &[Field]) -> u32
    ensures { result ≡ min (spec.levels_in fields.now) u32.MAX }
{
    let mut most = 0u32;
    for field in fields {
        most = most.max(levels(field.of()));
    }
    most
}

/// Whether there may be variables of the type: it has at most `MAX_CELLS` cells and `MAX_LEVELS` levels.
pub fn is_admitted(of: &ObType) -> bool
    ensures { result ≡ spec.is_admitted of.now }
{
    zero_size(of) <= MAX_CELLS && levels(of) <= MAX_LEVELS
}
