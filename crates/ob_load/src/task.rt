//! What a machine runs in a session.

use ob_link::Command;

/// What a machine runs in a session.
#[derive(Drop)]
pub enum Task {
    /// The body of the module of this number.
    Body(usize),
    /// These, one after the other.
    Commands(Vec<Command>),
}
