//! Shapes as contracts see them: written out.

use ob_base::{Shared, SharedItems};

/// What a type is to its values: how they are made of basic ones.
#[derive(Drop)]
pub enum Shape {
    /// INTEGER, BOOLEAN, CHAR or BYTE.
    Basic,
    /// How many elements, and their shape.
    Array(u32, Shared<Shape>),
    /// Fields, in order of declaration.
    Record(SharedItems<Shape>),
}
