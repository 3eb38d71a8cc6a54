//! Whose stream it is.

/// Whose stream it is.
pub trait Owner {
    /// Whether something is soon to be written, so that reads are to be short.
    fn is_busy(&self) -> bool;

    /// Whether its work is over, so that little is still to be written. Then a write waits for half a second at most with
    /// nothing taken.
    fn is_over(&self) -> bool;

    /// Something was read.
    fn came(&self);
}
