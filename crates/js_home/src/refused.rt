//! Why a place was not lent.

/// Why a place was not lent.
#[derive(Clone, Copy, Debug, PartialEq, Eq)]
pub enum NoPlace {
    /// All are lent.
    Lent,
    /// Memory was refused.
    Memory,
}
