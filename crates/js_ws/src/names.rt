//! How a channel names its messages.

use crate::protocol::Protocol;
use json_form::Text;

/// The session of all messages that a channel sends, and what their identifiers begin with: that of the message sent after
/// `n` others is `id`, a low line and `n` in digits.
#[derive(Drop)]
pub struct Names {
    pub session: Text,
    pub id: Text,
    /// The protocol that the handshake chose, in which messages are read and sent.
    pub protocol: Protocol,
}
