//! Why a kernel was not told a command.

/// Why a kernel was not told a command.
#[derive(Clone, Copy, Debug, PartialEq, Eq)]
pub enum Untold {
    /// Its inbox is full.
    Full,
    /// There was no memory.
    Memory,
}
