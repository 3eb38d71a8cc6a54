//! The stream of a channel: messages are read from it, and entries are sent over it.
ghost use Rattle.std.specs.Prelude.{◌≡◌, ◌+◌, ◌≤◌, ◌++◌, List, Result, true, false, length, take, string_bytes, []};
ghost use Rattle.websocket.specs.declared.protocol.config.Role.TheVariants.{Server};
ghost use Rattle.websocket.specs.Connection.{close_step};
ghost use Rattle.js_ws.specs.Closing.{gone};

use crate::hearing::{Heard, heard_with};
use crate::names::Names;
use crate::payload::{Naming, Payload, write_entry};
use jk_log::Entry;
use jk_queues::Spare;
use std::alloc::Global;
use std::io::{Read, Write};
use tungstenite::{
    Bytes, CloseCode, CloseFrame, Error, Message, NoMask, Role, Utf8Bytes, WebSocket,
};

/// A WebSocket of a server, and what its messages are named by.
#[derive(Drop)]
pub struct Wire<S> {
    pub(crate) socket: WebSocket<S, NoMask>,
    pub(crate) names: Names,
    /// How many messages were sent.
    pub(crate) sent: u64,
    /// Whether the stream has failed.
    pub(crate) failed: bool,
    /// Is let go where memory is refused to what was read, or to what is due.
    spare: Spare,
    ghost serves: { failed ≡ false → socket.conn.role ≡ Server },
}

/// What sending came to.
#[derive(Clone, Copy, PartialEq, Eq)]
pub(crate) enum Sending {
    Sent,
    /// There was no memory, and nothing was done.
    Held,
    Failed,
}

impl<S: Read + Write + Drop> Wire<S> {
    ghost use Rattle.tungstenite.specs.declared.error.Error.{Error};
    ghost use Rattle.tungstenite.specs.declared.message.Message.{Message};
    ghost use Rattle.tungstenite.specs.Socket.{Reads, Writes, IsFresh};
    ghost use Rattle.jk_log.specs.declared.entry.Entry.{Entry};
    ghost use Rattle.js_ws.specs.Hearing.{Hears, is_fault};
    ghost use Rattle.js_ws.specs.Frames.{SentAll, frame_of, payload_frame, text_frame, binary_frame};
    ghost use Rattle.js_ws.specs.Wires.{Sends};

    /// A wire over a stream on which nothing was read or sent since its handshake was answered.
    pub(crate) fn new(alloc: Global, stream: S, names: Names) -> Wire<S>
        ensures fresh { IsFresh result.socket stream Server }
        ensures names { result.names ≡ names }
        ensures none { result.sent ≡ 0 }
        ensures good { result.failed ≡ false }
    {
        Wire {
            socket: WebSocket::from_raw_socket(alloc, stream, NoMask, Role::Server, None),
            names,
            sent: 0,
            failed: false,
            spare: Spare::new(),
        }
    }

    /// Whether the stream has failed.
    pub(crate) fn has_failed(&self) -> bool
        ensures { result ≡ self.now.failed }
    {
        self.failed
    }

    /// Reads one message. Where memory is refused to what it says, it lets the spare block go and tries once more.
    pub(crate) fn hear(&mut self, alloc: Global) -> Heard
        requires good { self.old.failed ≡ false }
        ensures heard { (r : Result Message Error) × Reads S.remaining self.old.socket self.new.socket r × Hears self.old.names.protocol r result }
        ensures failed { self.new.failed ≡ is_fault result }
        ensures same { (self.new.names ≡ self.old.names) × (self.new.sent ≡ self.old.sent) }
    {
        let read = self.socket.read();
        let heard = heard_with(alloc, self.names.protocol, &read, &mut self.spare);
        self.failed = heard.is_fault();
        heard
    }

    /// Sends a Close frame that says that the kernel is gone, and sends nothing after it. It says whether that worked.
    pub(crate) fn close(&mut self) -> bool
        requires good { self.old.failed ≡ false }
        ensures closes { result ≡ true → Writes S.contents self.old.socket self.new.socket (close_step self.old.socket.conn gone) }
        ensures last { self.new.failed ≡ true }
    {
        let frame = CloseFrame {
            code: CloseCode::Away,
            reason: Utf8Bytes::new(),
        };
        let closed = self.socket.close(Some(frame));
        self.failed = true;
        closed.is_ok()
    }

    /// Sends what waits.
    fn flush(&mut self) -> Sending
        requires good { self.old.failed ≡ false }
        ensures sends { Sends S.contents self.old self.new [] result }
        ensures same { (self.new.names ≡ self.old.names) × (self.new.sent ≡ self.old.sent) }
    {
        match self.socket.flush() {
            Ok(()) => Sending::Sent,
            Err(_) => {
                self.failed = true;
                Sending::Failed
            }
        }
    }

    /// Sends a text, whose bytes are not copied before they go into the frame.
    fn send_text(&mut self, text: String) -> Sending
        requires good { self.old.failed ≡ false }
        ensures sends { Sends S.contents self.old self.new (text_frame (string_bytes text)) result }
        ensures same { (self.new.names ≡ self.old.names) × (self.new.sent ≡ self.old.sent) }
    {
        let Ok(text) = Utf8Bytes::from_string(text) else {
            return Sending::Held;
        };
        match self.socket.send(Message::Text(text)) {
            Ok(()) => Sending::Sent,
            Err(Error::OutOfMemory) => Sending::Held,
            Err(_) => {
                self.failed = true;
                Sending::Failed
            }
        }
    }

    /// Sends a binary message, whose bytes are not copied before they go into the frame.
    fn send_binary(&mut self, bytes: Vec<u8>) -> Sending
        requires good { self.old.failed ≡ false }
        ensures sends { Sends S.contents self.old self.new (binary_frame bytes.items) result }
        ensures same { (self.new.names ≡ self.old.names) × (self.new.sent ≡ self.old.sent) }
    {
        let Ok(bytes) = Bytes::from_vec(bytes) else {
            return Sending::Held;
        };
        match self.socket.send(Message::Binary(bytes)) {
            Ok(()) => Sending::Sent,
            Err(Error::OutOfMemory) => Sending::Held,
            Err(_) => {
                self.failed = true;
                Sending::Failed
            }
        }
    }

    /// Sends what an entry is sent as, or where that is nothing, what waits.
    fn send_payload(&mut self, payload: Payload) -> Sending
        requires good { self.old.failed ≡ false }
        ensures sends { Sends S.contents self.old self.new (payload_frame payload) result }
        ensures same { (self.new.names ≡ self.old.names) × (self.new.sent ≡ self.old.sent) }
    {
        match payload {
            Payload::Text(text) => self.send_text(text),
            Payload::Binary(bytes) => self.send_binary(bytes),
            Payload::Nothing => self.flush(),
        }
    }

    /// Sends one entry.
    fn send_entry(&mut self, alloc: Global, date: &str, entry: &Entry) -> Sending
        requires good { self.old.failed ≡ false }
        ensures sends { Sends S.contents self.old self.new (frame_of self.old.names date.now self.old.sent entry.now) result }
        ensures count { result ≡ Sending.Sent → self.new.sent ≡ self.old.sent + 1 }
        ensures held { result ≡ Sending.Held → self.new.sent ≡ self.old.sent }
        ensures names { self.new.names ≡ self.old.names }
    {
        let Some(next) = self.sent.checked_add(1) else {
            return Sending::Held;
        };
        let naming = Naming {
            names: &self.names,
            date,
            number: self.sent,
        };
        let Ok(payload) = write_entry(alloc, naming, entry) else {
            return Sending::Held;
        };
        match self.send_payload(payload) {
            Sending::Sent => {
                self.sent = next;
                Sending::Sent
            }
            Sending::Held => Sending::Held,
            Sending::Failed => Sending::Failed,
        }
    }

    /// Sends entries in order, as far as that goes. How many were sent.
    fn send_all(&mut self, alloc: Global, date: &str, held: &[Entry]) -> usize
        requires good { self.old.failed ≡ false }
        ensures within { result ≤ length held.now }
        ensures sent { self.new.failed ≡ false → SentAll S.contents self.old.names date.now self.old.sent self.old.socket self.new.socket (take result held.now) }
        ensures count { self.new.failed ≡ false → self.new.sent ≡ self.old.sent + result }
        ensures names { self.new.names ≡ self.old.names }
    {
        for (count, entry) in held.iter().enumerate() {
            match self.send_entry(alloc, date, entry) {
                Sending::Sent => {}
                Sending::Held => return count,
                Sending::Failed => return count,
            }
        }
        held.len()
    }

    /// Sends the held entries in order, as far as that goes, and holds the others. How many were sent. Where memory is refused it lets
    /// the spare block go, and takes one again once all are sent.
    pub(crate) fn send_held(&mut self, alloc: Global, date: &str, held: &mut Vec<Entry>) -> usize
        ensures first { (front : List Entry) × (held.old.items ≡ front ++ held.new.items) × (length front ≡ result)
            × (self.new.failed ≡ false → SentAll S.contents self.old.names date.now self.old.sent self.old.socket self.new.socket front) }
        ensures count { self.new.failed ≡ false → self.new.sent ≡ self.old.sent + result }
        ensures failed { self.old.failed ≡ true → self.new.failed ≡ true }
        ensures names { self.new.names ≡ self.old.names }
    {
        if self.failed {
            return 0;
        }
        let count = self.send_all(alloc, date, held.as_slice());
        mind(&mut self.spare, alloc, count == held.len());
        drop(held.drain(..count));
        count
    }
}

/// Takes a spare block again where all was sent, and else lets it go.
fn mind(spare: &mut Spare, alloc: Global, all: bool) {
    if all {
        spare.keep(alloc);
    } else {
        spare.let_go();
    }
}
