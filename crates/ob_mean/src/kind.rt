//! Record types, as a running program tells them apart.

ghost use Rattle.std.specs.Prelude.{◌≡◌, IfOk};
ghost use Rattle.ob_mean.specs.RecordTypes as spec;

use crate::measured::Shape;
use ob_base::{Shared, SharedItems, Text};
use std::alloc::AllocError;

/// A record type by its name, written out, and how many cells its values take.
#[derive(Drop)]
pub struct TypeName {
    pub text: Shared<Text>,
    pub cells: usize,
}

/// A record type: its own name first, then that of its base, and so on; and how its values are made.
#[derive(Drop)]
pub struct RecordKind {
    pub names: SharedItems<TypeName>,
    pub shape: Shape,
}

/// Whether these are one type.
fn same_name(first: &TypeName, second: &TypeName) -> bool
    ensures { result ≡ spec.same_name first.now second.now }
{
    first.text.get().same(second.text.get()) && first.cells == second.cells
}

/// Whether a type is among these.
fn is_among(name: &TypeName, types: &[TypeName]) -> bool
    ensures { result ≡ spec.is_among name.now types.now }
{
    for place in 0..types.len() {
        if same_name(name, &types[place]) {
            return true;
        }
    }
    false
}

/// Whether the first type is the second one, or extends it. Each is given by its name, that of its base, and so on.
pub fn extends(told: &[TypeName], types: &[TypeName]) -> bool
    ensures { result ≡ spec.extends told.now types.now }
{
    match types {
        [] => false,
        [name, ..] => is_among(name, told),
    }
}

impl RecordKind {
    /// The same type once more, which shares its names and the parts of its shape with this one: in constant time and without
    /// memory. Refused only where no more owners of a part can be counted.
    pub fn another(&self) -> Result<RecordKind, AllocError>
        ensures { IfOk result (λ k. k ≡ self.now) }
    {
        Ok(RecordKind {
            names: self.names.another()?,
            shape: self.shape.another()?,
        })
    }
}
