//! A channel at seat 3 of an inbox, and what comes of its turns.

use jk_board::{Board, Follower};
use jk_language::Language;
use jk_log::{Arrival, What};
use jk_queues::{Inbox, Seat, Taker};
use js_ws::{Channel, Names, Protocol, Turn, channel_turn};
use json_form::Text;
use std::alloc::{AllocError, Global};
use std::io::{Read, Write};
use std::sync::Wait;

pub(crate) const DATE: &str = "1970-01-01T00:00:00.000000Z";

/// A seat with its follower, and the end where its arrivals are taken.
#[derive(Drop)]
struct Ends<L: Language> {
    taker: Taker,
    seat: Seat,
    follower: Follower<L>,
}

/// A channel, and the end where its arrivals are taken.
struct Scene<S, L: Language> {
    taker: Taker,
    channel: Channel<S, L>,
}

/// By what a channel's messages are named.
pub(crate) fn names(alloc: Global, protocol: Protocol) -> Result<Names, AllocError> {
    Ok(Names {
        session: Text::from_str(alloc, "k")?,
        id: Text::from_str(alloc, "c")?,
        protocol,
    })
}

/// Sends joins until the inbox is full.
pub(crate) fn fill<R: Wait>(rt: &R, seat: Seat) {
    let mut seat = seat;
    for _ in 0..257 {
        let join = Arrival {
            seat: seat.place(),
            number: seat.next_number(),
            what: What::Join,
        };
        let (same, _) = seat.submit(rt, join);
        seat = same;
    }
}

/// Seat 3 and its follower, which finds nothing. Another seat may have filled the inbox.
fn make_ends<R: Wait, L: Language>(
    rt: &R,
    alloc: Global,
    is_full: bool,
) -> Result<Ends<L>, AllocError> {
    let Inbox { taker, seats } = Inbox::new(alloc)?;
    let Board {
        publisher,
        followers,
    } = Board::<L>::new(rt, alloc, &taker)?;
    let other = seats.zero;
    let seat = seats.three;
    let follower = followers.three;
    publisher.end(rt);
    if is_full {
        fill(rt, other);
    }
    Ok(Ends {
        taker,
        seat,
        follower,
    })
}

/// A letter for how a turn was answered: it closed the channel, its read ended by the time limit, an arrival waits for room, or
/// none of these.
fn letter_of(turn: Turn, waits: bool) -> char {
    match turn {
        Turn::Closed(_) => 'c',
        Turn::Quiet(_) => 'q',
        Turn::Open(_) => if waits { 'w' } else { 'o' },
    }
}

/// One turn, whose letter is added.
fn turn<R, S, L>(rt: &R, scene: Scene<S, L>, text: &mut String) -> Scene<S, L>
where
    R: Wait,
    S: Read + Write + Drop,
    L: Language,
{
    let Scene { taker, channel } = scene;
    let (channel, turn) = channel_turn(rt, DATE, channel);
    let _ = text.push(letter_of(turn, channel.waits()));
    Scene { taker, channel }
}

/// Adds a letter for what an arrival of seat 3 is, and its number.
fn note(arrival: &Arrival, text: &mut String) {
    let letter = match &arrival.what {
        What::Join => 'J',
        What::Leave => 'L',
        What::Shell(_) => 'S',
        What::Control(_) => 'C',
        What::Stdin(_) => 'I',
    };
    let number = u32::try_from(arrival.number).unwrap_or(10);
    if arrival.seat == 3 {
        let _ = text.push(letter);
        let _ = text.push(char::from_digit(number, 10).unwrap_or('?'));
    }
}

/// Takes the next arrival. One of seat 3 is added.
fn take<R, S, L>(rt: &R, scene: Scene<S, L>, text: &mut String) -> Scene<S, L>
where
    R: Wait,
    S: Read + Write + Drop,
    L: Language,
{
    let Scene { taker, channel } = scene;
    let (taker, arrival) = taker.pop(rt);
    if let Some(arrival) = arrival {
        note(&arrival, text);
    }
    Scene { taker, channel }
}

/// Makes the steps of a scene. A step `t` is a turn, and `p` takes one arrival; in the end all others are taken.
fn make_all<R, S, L>(rt: &R, scene: Scene<S, L>, steps: &str, text: &mut String)
where
    R: Wait,
    S: Read + Write + Drop,
    L: Language,
{
    let mut scene = scene;
    for step in steps.bytes() {
        scene = if step == b't' {
            turn(rt, scene, text)
        } else {
            take(rt, scene, text)
        };
    }
    for _ in 0..300 {
        scene = take(rt, scene, text);
    }
    let Scene {
        taker: _taker,
        channel: _channel,
    } = scene;
}

/// What comes of these steps of a channel over this stream, where its follower finds nothing: the letters of its turns, and
/// the arrivals of its seat when they are taken. Where the inbox is full, another seat has filled it before.
pub(crate) fn play<R, S, L>(
    rt: &R,
    alloc: Global,
    protocol: Protocol,
    stream: S,
    is_full: bool,
    steps: &str,
) -> Result<String, AllocError>
where
    R: Wait,
    S: Read + Write + Drop,
    L: Language,
{
    let names = names(alloc, protocol)?;
    let ends = make_ends::<R, L>(rt, alloc, is_full)?;
    let Ends {
        taker,
        seat,
        follower,
    } = ends;
    let channel = Channel::new(alloc, stream, names, seat, follower);
    let mut text = String::new(alloc);
    make_all(rt, Scene { taker, channel }, steps, &mut text);
    Ok(text)
}
