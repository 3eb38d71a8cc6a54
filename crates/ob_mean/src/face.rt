//! What is known of a module where it is imported.

use crate::measured::Shape;
use crate::module::Parameter;
use ob_base::Items;

/// What callers know of a procedure.
#[derive(Drop)]
pub struct Heading {
    pub parameters: Items<Parameter>,
    /// Whether a call of it has a value.
    pub is_function: bool,
}

/// What an importing module knows of a module.
#[derive(Drop)]
pub struct Face {
    /// The exported variables, in order of declaration.
    pub variables: Items<Shape>,
    /// The exported procedures, in order of declaration.
    pub procedures: Items<Heading>,
}
