//! One turn of a channel.
ghost use Rattle.std.specs.Prelude.{◌≡◌, ◌++◌, true, false, is_some, List};
ghost use Rattle.jk_log.specs.declared.entry.Entry.{Entry};
ghost use Rattle.jk_board.specs.Ends.{read_by};
ghost use Rattle.jk_queues.specs.Ends.{seat_inbox};
ghost use Rattle.js_ws.specs.Arrivals.{WasFull};
ghost use Rattle.js_ws.specs.Statuses.{busy_after};
ghost use Rattle.js_ws.specs.Turns.{Listened, IsTurn, over};

use crate::channel::{Channel, Turn};
use crate::outbox::Outbox;
use crate::wire::Wire;
use jk_language::Language;
use std::alloc::Global;
use std::io::{Read, Write};
use std::sync::Wait;

/// Submits what is in hand. Where nothing is left in hand and the stream has not failed, reads one message, and submits it
/// where it is something that the seat sends. Whether the read ended by the stream's time limit.
fn listen<R: Wait, S: Read + Write + Drop>(
    rt: &R,
    alloc: Global,
    wire: &mut Wire<S>,
    outbox: Outbox,
) -> (Outbox, bool)
    ensures listened { Listened S.remaining wire.old wire.new outbox result.0 result.1 }
    ensures seat { (result.0.seat.place ≡ outbox.seat.place) × (seat_inbox result.0.seat ≡ seat_inbox outbox.seat) }
    ensures full { is_some result.0.hand ≡ true → WasFull result.0.seat }
    ensures leaving { result.0.leaving ≡ outbox.leaving }
    ensures same { (wire.new.names ≡ wire.old.names) × (wire.new.sent ≡ wire.old.sent) }
{
    let ready = outbox.submit(rt);
    if wire.has_failed() {
        return (ready, false);
    }
    if ready.waits() {
        return (ready, false);
    }
    let heard = wire.hear(alloc);
    let quiet = heard.is_quiet();
    let said = ready.say(rt, heard);
    (said, quiet)
}

/// One turn of a channel, which is handed back.
///
/// It submits what waits for room in the inbox. Where nothing waits any more, it reads one message. One that the channel's protocol
/// reads (a text, or in the other protocol a binary message) as a message of "Messaging in Jupyter" 5.4 is one arrival, and others
/// are dropped. Then it takes what the follower gives, sends what is due to this connection, with this date, and holds what could
/// not be sent. Where the stream has failed, it submits the connection's `Leave` once nothing else waits. Lack of memory in reading
/// is a fault of the stream, and so is it where the board has dropped what the follower would read next.
///
/// The answer is `Closed` once that `Leave` is submitted, and also once the idle of a shutdown without restart was found and
/// all is sent or the stream has failed. Then the inbox is left alone, and further turns do nothing.
pub fn channel_turn<R: Wait, S: Read + Write + Drop, L: Language>(
    rt: &R,
    date: &str,
    channel: Channel<S, L>,
) -> (Channel<S, L>, Turn)
    ensures over { over channel ≡ true → result ≡ (channel, Turn.Closed 0) }
    ensures turn { over channel ≡ false → IsTurn S.remaining S.contents date.now channel result.0 result.1 }
    ensures busy { over channel ≡ false → (got : List Entry) × (read_by result.0.feed.follower ≡ read_by channel.feed.follower ++ got)
        × (result.0.feed.busy ≡ busy_after channel.feed.busy got) }
{
    if channel.is_over() {
        return (channel, Turn::Closed(0));
    }
    let Channel {
        alloc,
        mut wire,
        outbox,
        feed,
    } = channel;
    let place = outbox.seat.place();
    let heard = listen(rt, alloc, &mut wire, outbox);
    let (outbox, quiet) = heard;
    let taken = feed.take(alloc, place);
    let (mut feed, lost) = taken;
    wire.failed |= lost;
    let count = wire.send_held(alloc, date, &mut feed.held);
    let left = outbox.leave(rt, wire.failed, feed.ended);
    let next = Channel {
        alloc,
        wire,
        outbox: left,
        feed,
    };
    let turn = next.answer(quiet, count);
    (next, turn)
}
