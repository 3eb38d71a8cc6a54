//! What the server allows its clients.

/// For how many milliseconds a connection may keep its thread with nothing done, and how many connections may have one.
#[derive(Clone, Copy, Debug, PartialEq, Eq)]
pub struct Limits {
    /// For how many milliseconds a request's head and body may take, from its connection on.
    pub request: u64,
    /// For how many milliseconds the other side may take nothing of what is written to it.
    pub write: u64,
    /// How many connections have a thread at once at most, beside those of channels.
    pub connections: u64,
}

impl Limits {
    /// Those of the program: 30 seconds, and 256 connections.
    pub const fn usual() -> Limits {
        Limits {
            request: 30_000,
            write: 30_000,
            connections: 256,
        }
    }
}
