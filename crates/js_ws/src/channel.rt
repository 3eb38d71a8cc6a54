//! A channel: the connection of one frontend to one kernel.
ghost use Rattle.std.specs.Prelude.{◌≡◌, true, false, is_some};

use crate::feed::Feed;
use crate::names::Names;
use crate::outbox::Outbox;
use crate::wire::Wire;
use jk_board::Follower;
use jk_language::Language;
use jk_log::{Entry, What};
use jk_queues::Seat;
use std::alloc::Global;
use std::io::{Read, Write};

/// One connection of a frontend to a kernel, over a WebSocket: its stream, its seat at the inbox, and its follower of the board.
#[derive(Drop)]
pub struct Channel<S, L: Language> {
    pub(crate) alloc: Global,
    pub(crate) wire: Wire<S>,
    pub(crate) outbox: Outbox,
    pub(crate) feed: Feed<L>,
}

/// What a turn came to. The number is that of the entries that it sent.
#[derive(Clone, Copy, Debug, PartialEq, Eq)]
pub enum Turn {
    Open(usize),
    /// The read ended by the stream's time limit.
    Quiet(usize),
    /// The connection has ended, and further turns do nothing.
    Closed(usize),
}

impl<S: Read + Write + Drop, L: Language> Channel<S, L> {
    ghost use Rattle.js_ws.specs.Turns.{IsNew, over, turn_of};
    ghost use Rattle.js_ws.specs.Closing.{gone};
    ghost use Rattle.tungstenite.specs.Socket.{Writes};
    ghost use Rattle.websocket.specs.Connection.{close_step};

    /// A channel over a stream whose opening handshake was answered. Its first turn submits its `Join`. It takes no memory.
    pub fn new(
        alloc: Global,
        stream: S,
        names: Names,
        seat: Seat,
        follower: Follower<L>,
    ) -> Channel<S, L>
        ensures fresh { IsNew result stream names seat follower }
        ensures calm { result.feed.busy ≡ false }
    {
        let join = seat.next_number();
        Channel {
            alloc,
            wire: Wire::new(alloc, stream, names),
            outbox: Outbox {
                seat,
                hand: Some(What::Join),
                leaving: false,
            },
            feed: Feed {
                follower,
                held: Vec::new(alloc),
                join,
                joined: false,
                ended: false,
                busy: false,
            },
        }
    }

    /// The entries that are due and not sent, in order.
    pub fn held(&self) -> &[Entry]
        ensures { result.now ≡ self.now.feed.held.items }
    {
        self.feed.held.as_slice()
    }

    /// Whether its own join was found among the entries.
    pub fn joined(&self) -> bool
        ensures { result ≡ self.now.feed.joined }
    {
        self.feed.joined
    }

    /// Whether the kernel's last entry was found.
    pub fn ended(&self) -> bool
        ensures { result ≡ self.now.feed.ended }
    {
        self.feed.ended
    }

    /// Whether the kernel is busy with a request of the shell, by the entries that were found. A new channel takes it for idle.
    pub fn is_busy(&self) -> bool
        ensures { result ≡ self.now.feed.busy }
    {
        self.feed.busy
    }

    /// Whether an arrival waits for room in the inbox. A turn then reads nothing until the inbox has taken it.
    pub fn waits(&self) -> bool
        ensures { result ≡ is_some self.now.outbox.hand }
    {
        self.outbox.waits()
    }

    /// Tells the frontend that the kernel is gone, by a Close frame of the status 1001, and sends nothing after it. It says whether
    /// that worked. Where the stream has failed nothing is done.
    pub fn say_gone(self) -> (Channel<S, L>, bool)
        ensures closes { result.1 ≡ true → Writes S.contents self.wire.socket result.0.wire.socket (close_step self.wire.socket.conn gone) }
        ensures ends { (result.0.outbox ≡ self.outbox) × (result.0.feed ≡ self.feed) }
        ensures failed { self.wire.failed ≡ true → result.1 ≡ false }
    {
        if self.wire.has_failed() {
            return (self, false);
        }
        let Channel {
            alloc,
            mut wire,
            outbox,
            feed,
        } = self;
        let closed = wire.close();
        let channel = Channel {
            alloc,
            wire,
            outbox,
            feed,
        };
        (channel, closed)
    }

    /// The seat and the follower, to be given back. The stream is dropped.
    pub fn into_ends(self) -> (Seat, Follower<L>)
        ensures { result ≡ (self.outbox.seat, self.feed.follower) }
    {
        let Channel {
            alloc: _,
            wire: _,
            outbox,
            feed,
        } = self;
        let Outbox {
            seat,
            hand: _,
            leaving: _,
        } = outbox;
        let Feed {
            follower,
            held: _,
            join: _,
            joined: _,
            ended: _,
            busy: _,
        } = feed;
        (seat, follower)
    }

    /// Whether nothing is left to do.
    pub(crate) fn is_over(&self) -> bool
        ensures { result ≡ over self.now }
    {
        if self.feed.ended {
            self.wire.failed || self.feed.held.is_empty()
        } else {
            self.outbox.leaving && self.outbox.hand.is_none()
        }
    }

    /// How a turn is answered in which `count` entries were sent.
    pub(crate) fn answer(&self, quiet: bool, count: usize) -> Turn
        ensures { result ≡ turn_of (over self.now) quiet count }
    {
        if self.is_over() {
            Turn::Closed(count)
        } else if quiet {
            Turn::Quiet(count)
        } else {
            Turn::Open(count)
        }
    }
}
