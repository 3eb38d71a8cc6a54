//! The protocols of a kernel's WebSocket.

/// How messages of "Messaging in Jupyter" are carried.
#[derive(Clone, Copy, Debug, PartialEq, Eq)]
pub enum Protocol {
    /// Each message is a text, one JSON object.
    Default,
    /// `v1.kernel.websocket.jupyter.org`: each message is a binary message of offsets and parts.
    V1,
}
