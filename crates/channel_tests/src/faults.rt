//! A channel whose stream fails, and one whose inbox is full while it sends. Its kernel answers without a parser, in the same thread.

use crate::arrivals::ASKS;
use crate::losses::{Cast, finish, make_cast, sent_by};
use crate::scene::{DATE, fill, names};
use crate::socket::{End, Failing, Fault, Socket};
use jk_board::Follower;
use jk_language::Language;
use jk_log::{Entry, Told};
use jk_run::{Driver, drive_some};
use jp_msg::{Output, State};
use js_ws::{Channel, Protocol, Turn, channel_turn};
use std::alloc::{AllocError, Global};
use std::cell::Cell;
use std::io::{Read, Write};
use std::sync::Wait;
use std::test::Fail;
use test_language::TestLanguage;

/// A letter for what an entry tells. A join and a leave have their numbers.
fn note(entry: &Entry, text: &mut String) -> Result<(), AllocError> {
    let (letter, number) = match &entry.content {
        Told::Joined { number, .. } => ('J', *number),
        Told::Left { number, .. } => ('L', *number),
        Told::Output(Output::Status(State::Busy)) => ('b', 0),
        Told::Output(Output::KernelInfoReply) => ('r', 0),
        Told::Output(Output::Status(State::Idle)) => ('i', 0),
        Told::Output(_) => ('-', 0),
    };
    text.push(letter)?;
    if number > 0 {
        let digit = u32::try_from(number).unwrap_or(10);
        text.push(char::from_digit(digit, 10).unwrap_or('?'))?;
    }
    Ok(())
}

/// The letters of what a follower reads.
fn read_letters<L: Language>(
    alloc: Global,
    follower: Follower<L>,
) -> (Follower<L>, Result<String, AllocError>) {
    let mut text = String::new(alloc);
    let (follower, found) = follower.read(alloc, 64);
    let entries = match found {
        Ok(entries) => entries,
        Err(_) => return (follower, Err(AllocError)),
    };
    for entry in entries.as_slice() {
        if note(entry, &mut text).is_err() {
            return (follower, Err(AllocError));
        }
    }
    (follower, Ok(text))
}

/// Eight turns of a channel, and a round of the driver after each: how many entries it sent, and whether it was closed.
fn turns<R, S, L>(rt: &R, driver: Driver<L>, channel: Channel<S, L>) -> (Driver<L>, usize, bool)
where
    R: Wait,
    S: Read + Write + Drop,
    L: Language,
{
    let mut driver = driver;
    let mut channel = channel;
    let mut sent: usize = 0;
    let mut is_closed = false;
    for _ in 0..8 {
        let (same, answer) = channel_turn(rt, DATE, channel);
        channel = same;
        let (same, _) = drive_some(rt, 1, driver);
        driver = same;
        is_closed = matches!(answer, Turn::Closed(_));
        sent = sent.saturating_add(sent_by(answer));
    }
    (driver, sent, is_closed)
}

/// What becomes of one request on a stream that fails.
#[derive(Drop)]
struct Shown {
    /// The letters of all entries.
    letters: String,
    sent: usize,
    is_closed: bool,
    has_failed: bool,
}

/// Asks over a stream with this fault.
fn ask<R: Wait, L: Language>(rt: &R, alloc: Global, fault: Fault) -> Result<Shown, AllocError> {
    let names = names(alloc, Protocol::Default)?;
    let cast = make_cast::<R, L>(rt, alloc)?;
    let Cast {
        driver,
        other: _,
        seat,
        follower,
        watch,
        parsers: _,
    } = cast;
    let (follower, _) = follower.pass();
    let (watch, _) = watch.pass();
    let has_failed = Cell::new(false);
    let stream = Failing::new(Socket::new(ASKS, End::Waits), fault, &has_failed);
    let channel = Channel::new(alloc, stream, names, seat, follower);
    let (driver, sent, is_closed) = turns(rt, driver, channel);
    let (_watch, letters) = read_letters(alloc, watch);
    finish(rt, driver);
    Ok(Shown {
        letters: letters?,
        sent,
        is_closed,
        has_failed: has_failed.get(),
    })
}

/// Where a read fails, the channel is closed, and its kernel is told. The first read gives the request.
#[test]
fn each_read_fails(rt: HostRuntime) -> Result<(), Fail> {
    for number in 1..100 {
        let shown = ask::<_, TestLanguage>(&rt, rt.alloc(), Fault::Read(number))?;
        let letters = shown.letters.as_str();
        if !shown.has_failed {
            assert_eq!(rt; (letters, shown.sent, shown.is_closed), ("J1bri", 3, false));
            return Ok(());
        }
        let wanted = if number == 1 { "J1L2" } else { "J1briL3" };
        assert_eq!(rt; letters, wanted, "{number}");
        assert!(rt; shown.is_closed && shown.sent <= 3, "{number}");
    }
    Err("some read fails in each run".into())
}

/// The same where a write fails: it is not counted as sent.
#[test]
fn each_write_fails(rt: HostRuntime) -> Result<(), Fail> {
    for number in 1..100 {
        let shown = ask::<_, TestLanguage>(&rt, rt.alloc(), Fault::Write(number))?;
        let letters = shown.letters.as_str();
        if !shown.has_failed {
            assert_eq!(rt; (letters, shown.sent, shown.is_closed), ("J1bri", 3, false));
            return Ok(());
        }
        assert_eq!(rt; letters, "J1briL3", "{number}");
        assert!(rt; shown.is_closed && shown.sent < 3, "{number}");
    }
    Err("some write fails in each run".into())
}

/// Turns of a channel, `t`, and rounds of its driver, `d`: what each turn sent, and whether an arrival waits after it.
fn take_turns<R, S, L>(
    rt: &R,
    driver: Driver<L>,
    channel: Channel<S, L>,
    steps: &str,
    shown: &mut Vec<(usize, bool)>,
) -> (Driver<L>, Channel<S, L>)
where
    R: Wait,
    S: Read + Write + Drop,
    L: Language,
{
    let mut driver = driver;
    let mut channel = channel;
    for step in steps.bytes() {
        if step == b't' {
            let (same, answer) = channel_turn(rt, DATE, channel);
            channel = same;
            let _ = shown.push((sent_by(answer), channel.waits()));
        } else {
            let (same, _) = drive_some(rt, 1, driver);
            driver = same;
        }
    }
    (driver, channel)
}

/// Two requests, of which the second finds that another seat has filled the inbox: what each turn sent, and whether an arrival
/// waits after it.
fn crowded<R: Wait, L: Language>(rt: &R, alloc: Global) -> Result<Vec<(usize, bool)>, AllocError> {
    let names = names(alloc, Protocol::Default)?;
    let mut frames = Vec::from_slice(alloc, ASKS)?;
    frames.extend_from_slice(ASKS)?;
    let cast = make_cast::<R, L>(rt, alloc)?;
    let Cast {
        driver,
        other,
        seat,
        follower,
        watch: _,
        parsers: _,
    } = cast;
    let (follower, _) = follower.pass();
    let socket = Socket::new(frames.as_slice(), End::Waits);
    let channel = Channel::new(alloc, socket, names, seat, follower);
    let mut shown = Vec::new(alloc);
    let (driver, channel) = take_turns(rt, driver, channel, "td", &mut shown);
    fill(rt, other);
    let (driver, _channel) = take_turns(rt, driver, channel, "ttdtdtttt", &mut shown);
    finish(rt, driver);
    Ok(shown)
}

/// A channel whose arrival finds the inbox full goes on to send what its first request was answered. The 256 joins that filled it
/// are shown to nobody, and are read 64 in a turn before the second request's answers.
#[test]
fn a_full_inbox_holds_no_entries_back(rt: HostRuntime) -> Result<(), Fail> {
    let shown = crowded::<_, TestLanguage>(&rt, rt.alloc())?;
    let wanted = [
        (0, false),
        (3, true),
        (0, true),
        (0, false),
        (0, false),
        (0, false),
        (0, false),
        (3, false),
    ];
    assert_eq!(rt; shown.as_slice(), wanted.as_slice());
    Ok(())
}
