//! What the passes of the inbox know. No value of these types is made.

use jk_log::Arrival;
use std::collections::LinkedList;

/// A seat and all that it sent.
pub struct Sender {
    pub place: u8,
    pub sent: LinkedList<Arrival>,
}

/// The seats that a pass has, and whether it takes, with all that was taken.
pub struct Part {
    pub senders: LinkedList<Sender>,
    pub takes: bool,
    pub taken: LinkedList<Arrival>,
}
