//! The channel of a connection, from its handshake on.
ghost use Rattle.std.specs.Prelude.{◌≡◌, ◌⊎◌, true, false};
ghost use Rattle.jk_queues.specs.Ends.{sent_by};
ghost use Rattle.js_home.specs.Served.{HasServed};
ghost use Rattle.js_ws.specs.Turns.{over};
ghost use Rattle.js_connect.specs.Channels.{GoesOn, HasLeft};

use crate::signals::Signals;
use crossbeam_channel::Sender;
use jk_language::Language;
use js_call::{Call, date_now, tell};
use js_drive::{Place, Wakes};
use js_home::Free;
use js_lend::Lease;
use js_paced::{Paced, Rest, Selector};
use js_ws::{Channel, Names, Turn, channel_turn};
use std::alloc::Global;
use std::io::{Read, Write};
use std::net::TcpStream;
use std::sync::Wait;
use std::thread;
use std::time::{Clock, Duration};

/// How many milliseconds a channel waits where the inbox has no room, or where no date can be had.
const PAUSE: u64 = 1;

/// The stream of a channel, for how many milliseconds the other side may take nothing of what is written to it, and what it rests by.
#[derive(Drop)]
pub(crate) struct Line<'s> {
    pub(crate) stream: &'s TcpStream,
    pub(crate) patience: u64,
    pub(crate) selector: Option<Selector>,
}

/// Serves a channel until it is closed, and then gives its place back and tells the desk so.
pub(crate) fn serve_channel<L: Language, R: Wait + Clock + Copy + Drop>(
    rt: &R,
    alloc: Global,
    line: Line<'_>,
    calls: &Sender<Call<L>>,
    place: Place<L>,
    names: Names,
) {
    let Place { lent, wakes } = place;
    let lease = lent.into_lease();
    let Lease { value, back } = lease;
    let served = serve_at(rt, alloc, line, &wakes, value, names);
    served.follower.rest();
    wakes.driver.ring();
    back.give(rt, served);
    let _ = tell(rt, calls, Call::Back);
}

/// Passes what was shown before, and serves a channel until it is closed. Where the kernel's board has ended nothing is served.
fn serve_at<L: Language, R: Wait + Clock + Copy + Drop>(
    rt: &R,
    alloc: Global,
    line: Line<'_>,
    wakes: &Wakes,
    place: Free<L>,
    names: Names,
) -> Free<L>
    ensures served { HasServed place result }
    ensures left { (sent_by result.seat ≡ sent_by place.seat) ⊎ HasLeft place result }
{
    let (passed, there) = place.pass();
    if !there {
        return passed;
    }
    make_turns(rt, alloc, line, wakes, passed, names)
}

/// Makes turns of a channel until it is closed. The seat and the follower come back.
fn make_turns<L: Language, R: Wait + Clock + Copy + Drop>(
    rt: &R,
    alloc: Global,
    line: Line<'_>,
    wakes: &Wakes,
    place: Free<L>,
    names: Names,
) -> Free<L>
    ensures { HasLeft place result }
{
    let Free { seat, follower } = place;
    let Line {
        stream,
        patience,
        selector,
    } = line;
    let number = seat.place();
    let rest = begin_rests(rt, alloc, selector, stream, wakes, number);
    let signals = Signals::new(wakes, number);
    let paced = Paced::new(*rt, stream, &signals, rest, patience);
    let channel = Channel::new(alloc, paced, names, seat, follower);
    let channel = run(rt, alloc, &signals, channel);
    let channel = take_leave(channel);
    signals.wake(rt);
    wakes.channels.leave(rt, number);
    let (seat, follower) = channel.into_ends();
    Free { seat, follower }
}

/// How the stream of the channel at a place rests, so that the others wake it. There is nothing where it has no selector, the system
/// has no descriptor for it, or memory is refused.
fn begin_rests<R: Wait>(
    rt: &R,
    alloc: Global,
    selector: Option<Selector>,
    stream: &TcpStream,
    wakes: &Wakes,
    place: u8,
) -> Option<Rest> {
    let (rest, waking) = Rest::new(alloc, selector?, stream).ok()?;
    if wakes.channels.enter(rt, place, waking) {
        Some(rest)
    } else {
        None
    }
}

/// Tells the frontend that the kernel is gone, where that has closed the channel.
fn take_leave<L: Language, S: Read + Write + Drop>(channel: Channel<S, L>) -> Channel<S, L>
    ensures { (result.outbox ≡ channel.outbox) × (result.feed ≡ channel.feed) }
{
    if !channel.ended() {
        return channel;
    }
    let (channel, _) = channel.say_gone();
    channel
}

/// Makes turns until the channel is closed, and nothing is left to do.
fn run<L: Language, S: Read + Write + Drop, R: Wait + Clock>(
    rt: &R,
    alloc: Global,
    signals: &Signals<'_>,
    channel: Channel<S, L>,
) -> Channel<S, L>
    ensures goes { GoesOn channel result }
    ensures over { over result ≡ true }
{
    let mut channel = channel;
    for _ in rt.forever() {
        let (next, open) = make_turn(rt, alloc, signals, channel);
        channel = next;
        if !open {
            return channel;
        }
    }
    unreachable!()
}

/// Makes one turn, and notes what it came to, so that the kernel is woken once all is submitted that has come. It says whether the
/// channel is still open.
fn make_turn<L: Language, S: Read + Write + Drop, R: Wait + Clock>(
    rt: &R,
    alloc: Global,
    signals: &Signals<'_>,
    channel: Channel<S, L>,
) -> (Channel<S, L>, bool)
    ensures goes { GoesOn channel result.0 }
    ensures closed { result.1 ≡ false → over result.0 ≡ true }
{
    let Some(date) = date_now(rt, alloc) else {
        thread::sleep(rt, Duration::from_millis(PAUSE));
        return (channel, true);
    };
    let (next, turn) = channel_turn(rt, date.as_str(), channel);
    signals.note(rt, turn, next.is_busy(), next.waits());
    let open = !matches!(turn, Turn::Closed(_));
    if open && next.waits() {
        thread::sleep(rt, Duration::from_millis(PAUSE));
    }
    (next, open)
}
