//! What a message of a WebSocket comes to.
ghost use Rattle.std.specs.Prelude.{◌≡◌, IfOk, true, false};
ghost use Rattle.js_ws.specs.Hearing.{Hears, HearsRead, HearsSaid, IsTimeLimit, is_fault, is_quiet, on_channel, said};
ghost use Rattle.js_ws.specs.Serialized.{message_in};
ghost use Rattle.jp_msg.specs.Reading.{message_at};

use crate::deserialize::deserialize_message;
use crate::protocol::Protocol;
use jk_log::What;
use jk_queues::Spare;
use jp_msg::{Bad, Channel, Message as Said, read_message};
use json_form::Shared;
use std::alloc::{AllocError, Global};
use std::io::ErrorKind;
use tungstenite::{Error, Message};

/// What a read came to.
#[derive(Drop)]
pub(crate) enum Heard {
    /// What the seat sends.
    Said(What),
    /// A message that is dropped.
    Other,
    /// The stream's time limit ended the read.
    Quiet,
    /// The stream failed, or there was no memory.
    Fault,
}

impl Heard {
    pub(crate) fn is_fault(&self) -> bool
        ensures { result ≡ is_fault self.now }
    {
        match self {
            Heard::Fault => true,
            Heard::Said(_) | Heard::Other | Heard::Quiet => false,
        }
    }

    pub(crate) fn is_quiet(&self) -> bool
        ensures { result ≡ is_quiet self.now }
    {
        match self {
            Heard::Quiet => true,
            Heard::Said(_) | Heard::Other | Heard::Fault => false,
        }
    }
}

/// Whether the stream's time limit ended the read.
fn is_time_limit(error: &Error) -> bool
    ensures yes { result ≡ true → IsTimeLimit error.now }
    ensures no { result ≡ false → ¬ (IsTimeLimit error.now) }
{
    match error {
        Error::Io(cause) => cause.kind() == ErrorKind::WouldBlock,
        _ => false,
    }
}

/// The message on its channel.
fn channelled(alloc: Global, message: Said) -> Result<What, AllocError>
    ensures { IfOk result (λ what. what ≡ on_channel message.channel message) }
{
    let channel = message.channel;
    let Ok(shared) = Shared::share(alloc, message) else {
        return Err(AllocError);
    };
    match channel {
        Channel::Shell => Ok(What::Shell(shared)),
        Channel::Control => Ok(What::Control(shared)),
        Channel::Stdin => Ok(What::Stdin(shared)),
        // No message that was read is on this one.
        Channel::Iopub => Ok(What::Shell(shared)),
    }
}

/// What the reading of a message comes to.
fn heard_as(alloc: Global, read: Result<Said, Bad>) -> Heard
    ensures { HearsRead read result }
{
    match read {
        Ok(message) => match channelled(alloc, message) {
            Ok(what) => Heard::Said(what),
            Err(_) => Heard::Fault,
        },
        Err(Bad::Fault(_)) => Heard::Other,
        Err(Bad::Memory) => Heard::Fault,
    }
}

/// What a text comes to in the default protocol.
#[tactic(auto, using(crate::proofs::Said::said_as))]
fn heard_in_text(alloc: Global, text: &str) -> Heard
    ensures { HearsSaid (said (message_at text.now)) result }
{
    heard_as(alloc, read_message(alloc, text))
}

/// What a binary message comes to in the other.
#[tactic(auto, using(crate::proofs::Said::said_as))]
fn heard_in_binary(alloc: Global, bytes: &[u8]) -> Heard
    ensures { HearsSaid (said (message_in bytes.now)) result }
{
    heard_as(alloc, deserialize_message(alloc, bytes))
}

/// What the answer of a socket's read comes to.
fn heard_of(alloc: Global, protocol: Protocol, read: &Result<Message, Error>) -> Heard
    ensures { Hears protocol read.now result }
{
    match (protocol, read) {
        (Protocol::Default, Ok(Message::Text(text))) => heard_in_text(alloc, text.as_str()),
        (Protocol::V1, Ok(Message::Binary(bytes))) => heard_in_binary(alloc, bytes.as_slice()),
        (_, Ok(_)) => Heard::Other,
        (_, Err(error)) => {
            if is_time_limit(error) {
                Heard::Quiet
            } else {
                Heard::Fault
            }
        }
    }
}

/// What the answer of a socket's read comes to. Where memory is refused to it, it lets the spare block go and tries once more.
pub(crate) fn heard_with(
    alloc: Global,
    protocol: Protocol,
    read: &Result<Message, Error>,
    spare: &mut Spare,
) -> Heard
    ensures { Hears protocol read.now result }
{
    let heard = heard_of(alloc, protocol, read);
    if read.is_ok() && heard.is_fault() && spare.let_go() {
        return heard_of(alloc, protocol, read);
    }
    heard
}
