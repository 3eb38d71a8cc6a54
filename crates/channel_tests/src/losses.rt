//! Channels of a kernel that works: their turns and the rounds of its driver take turns in one thread.
ghost use Rattle.std.specs.Prelude.{◌≡◌, [], IfOk};
ghost use Rattle.jk_core.specs.State.{fresh};
ghost use Rattle.jk_queues.specs.Ends.{taken_by};

use crate::scene::{DATE, names};
use crate::socket::{Compared, End, Socket};
use jk_board::{Board, Follower};
use jk_core::{Kernel, Work};
use jk_language::Language;
use jk_log::{Arrival, ParsedCell, What};
use jk_queues::{Gate, Inbox, Pool, Seat, Seats, Taker, WorkerEnd, worker};
use jk_run::{Driver, Parts, drive_some};
use js_ws::{Channel, Protocol, Turn, channel_turn};
use std::alloc::{AllocError, Global};
use std::cell::Cell;
use std::io::{Read, Write};
use std::sync::Wait;
use std::test::Fail;
use std::thread;
use std::thread::{JoinHandle, Threads};
use std::time::Clock;
use test_language::TestLanguage;

/// A text frame of a cell that asks for a line and shows it, masked by zeros.
const CELL: &[u8] =
    b"\x81\xde\x00\x00\x00\x00{\"header\":{\"msg_id\":\"m1\",\"session\":\"s1\",\"msg_type\":\"execute_request\"},\"content\":{\"code\":\"?$\"}}";

/// A text frame of a shutdown request without restart, on the control channel, masked by zeros.
const SHUTDOWN: &[u8] =
    b"\x81\xf7\x00\x00\x00\x00{\"channel\":\"control\",\"content\":{\"restart\":false},\"header\":{\"msg_id\":\"m1\",\"session\":\"s1\",\"msg_type\":\"shutdown_request\"}}";

/// A frame of the same request as a binary message, made by serialize_msg_to_ws_v1 of Jupyter Server 1.23.3, masked by zeros.
const SHUTDOWN_V1: &[u8] =
    b"\x82\xfe\x00\x90\x00\x00\x00\x00\x06\x00\x00\x00\x00\x00\x00\x008\x00\x00\x00\x00\x00\x00\x00?\x00\x00\x00\x00\x00\x00\x00{\x00\x00\x00\x00\x00\x00\x00}\x00\x00\x00\x00\x00\x00\x00\x7f\x00\x00\x00\x00\x00\x00\x00\x90\x00\x00\x00\x00\x00\x00\x00control{\"msg_id\":\"m1\",\"session\":\"s1\",\"msg_type\":\"shutdown_request\"}{}{}{\"restart\":false}";

/// The frames of busy, the reply and idle, whose messages are made by that function.
const SHUT_V1: &[u8] =
    b"\x82~\x01\x10\x06\x00\x00\x00\x00\x00\x00\x008\x00\x00\x00\x00\x00\x00\x00=\x00\x00\x00\x00\x00\x00\x00\xb8\x00\x00\x00\x00\x00\x00\x00\xf4\x00\x00\x00\x00\x00\x00\x00\xf6\x00\x00\x00\x00\x00\x00\x00\x10\x01\x00\x00\x00\x00\x00\x00iopub{\"date\":\"1970-01-01T00:00:00.000000Z\",\"msg_id\":\"c_0\",\"msg_type\":\"status\",\"session\":\"k\",\"username\":\"kernel\",\"version\":\"5.4\"}{\"msg_id\":\"m1\",\"msg_type\":\"shutdown_request\",\"session\":\"s1\"}{}{\"execution_state\":\"busy\"}\x82~\x01\x1f\x06\x00\x00\x00\x00\x00\x00\x008\x00\x00\x00\x00\x00\x00\x00?\x00\x00\x00\x00\x00\x00\x00\xc2\x00\x00\x00\x00\x00\x00\x00\xfe\x00\x00\x00\x00\x00\x00\x00\x00\x01\x00\x00\x00\x00\x00\x00\x1f\x01\x00\x00\x00\x00\x00\x00control{\"date\":\"1970-01-01T00:00:00.000000Z\",\"msg_id\":\"c_1\",\"msg_type\":\"shutdown_reply\",\"session\":\"k\",\"username\":\"kernel\",\"version\":\"5.4\"}{\"msg_id\":\"m1\",\"msg_type\":\"shutdown_request\",\"session\":\"s1\"}{}{\"restart\":false,\"status\":\"ok\"}\x82~\x01\x10\x06\x00\x00\x00\x00\x00\x00\x008\x00\x00\x00\x00\x00\x00\x00=\x00\x00\x00\x00\x00\x00\x00\xb8\x00\x00\x00\x00\x00\x00\x00\xf4\x00\x00\x00\x00\x00\x00\x00\xf6\x00\x00\x00\x00\x00\x00\x00\x10\x01\x00\x00\x00\x00\x00\x00iopub{\"date\":\"1970-01-01T00:00:00.000000Z\",\"msg_id\":\"c_2\",\"msg_type\":\"status\",\"session\":\"k\",\"username\":\"kernel\",\"version\":\"5.4\"}{\"msg_id\":\"m1\",\"msg_type\":\"shutdown_request\",\"session\":\"s1\"}{}{\"execution_state\":\"idle\"}";

type Parser = WorkerEnd<ParsedCell<TestLanguage>>;

/// Lets every job pass.
#[derive(Drop)]
struct Open;

impl Gate for Open {
    fn before(&self, _job: u64) {}

    fn after(&self, _job: u64) {}
}

/// A new kernel with the ends of its driver but for the publisher, its seats and its parser.
#[derive(Drop)]
struct Made<L: Language> {
    kernel: Kernel<L>,
    taker: Taker,
    pool: Pool<ParsedCell<L>>,
    seats: Seats,
    parsers: Vec<WorkerEnd<ParsedCell<L>>>,
}

/// A driver, seat 3 and its follower, another seat, another follower, and a parser.
pub(crate) struct Cast<L: Language> {
    pub(crate) driver: Driver<L>,
    pub(crate) other: Seat,
    pub(crate) seat: Seat,
    pub(crate) follower: Follower<L>,
    pub(crate) watch: Follower<L>,
    pub(crate) parsers: Vec<WorkerEnd<ParsedCell<L>>>,
}

fn make<L: Language>(alloc: Global) -> Result<Made<L>, AllocError>
    ensures kernel { IfOk result (λ made. made.kernel ≡ fresh) }
    ensures taker { IfOk result (λ made. taken_by made.taker ≡ []) }
{
    let Inbox { taker, seats } = Inbox::new(alloc)?;
    let (pool, parsers) = Pool::<ParsedCell<L>>::new(alloc, 1)?;
    let kernel = Kernel::<L>::new(alloc)?;
    Ok(Made {
        kernel,
        taker,
        pool,
        seats,
        parsers,
    })
}

/// A driver with what it works with.
pub(crate) fn make_cast<R: Wait, L: Language>(
    rt: &R,
    alloc: Global,
) -> Result<Cast<L>, AllocError> {
    let made = make::<L>(alloc)?;
    let Board {
        publisher,
        followers,
    } = Board::<L>::new(rt, alloc, &made.taker)?;
    let Made {
        kernel,
        taker,
        pool,
        seats,
        parsers,
    } = made;
    let seat = seats.three;
    let other = seats.one;
    let follower = followers.three;
    let watch = followers.recorder;
    let driver = Driver::new(alloc, kernel, taker, pool, publisher);
    Ok(Cast {
        driver,
        other,
        seat,
        follower,
        watch,
        parsers,
    })
}

/// Stops the parser, and ends the board.
pub(crate) fn finish<R: Wait, L: Language>(rt: &R, driver: Driver<L>) {
    let Parts {
        kernel: _,
        taker: _,
        mut pool,
        publisher,
        arrival: _,
        job: _,
        entries: _,
    } = driver.into_parts();
    pool.stop(rt);
    publisher.end(rt);
}

/// At most so many rounds of a kernel and turns of a channel, until the channel is closed and the kernel rests. How many entries
/// the channel sent, or none where that never came.
fn run<R, S, L>(rt: &R, driver: Driver<L>, channel: Channel<S, L>, most: u32) -> Option<usize>
where
    R: Wait,
    S: Read + Write + Drop,
    L: Language,
{
    let mut driver = driver;
    let mut channel = channel;
    let mut sent: usize = 0;
    let mut count = None;
    for _ in 0..most {
        let (same, answer) = channel_turn(rt, DATE, channel);
        channel = same;
        let (same, work) = drive_some(rt, 1, driver);
        driver = same;
        sent = sent.saturating_add(sent_by(answer));
        if matches!(answer, Turn::Closed(_)) && work == Work::Rest {
            count = Some(sent);
            break;
        }
        thread::yield_now();
    }
    finish(rt, driver);
    count
}

/// How many entries a turn sent.
pub(crate) fn sent_by(turn: Turn) -> usize {
    match turn {
        Turn::Open(count) | Turn::Quiet(count) | Turn::Closed(count) => count,
    }
}

/// Starts a parser.
fn begin<R>(rt: R, alloc: Global, end: Parser) -> Result<JoinHandle<Parser>, AllocError>
where
    R: Threads + Wait + Clock + Copy + Send + 'static,
{
    Ok(thread::spawn(&rt, move || {
        worker::<TestLanguage, R, Open>(&rt, alloc, &Open, end)
    })?)
}

/// How many entries a channel over this stream sends until it is closed and its kernel rests.
fn sent<R, S>(rt: R, alloc: Global, protocol: Protocol, stream: S) -> Result<Option<usize>, Fail>
where
    R: Threads + Wait + Clock + Copy + Send + 'static,
    S: Read + Write + Drop,
{
    let names = names(alloc, protocol)?;
    let cast = make_cast::<R, TestLanguage>(&rt, alloc)?;
    let Cast {
        driver,
        other: _,
        seat,
        follower,
        watch: _,
        mut parsers,
    } = cast;
    let (follower, _) = follower.pass();
    let channel = Channel::new(alloc, stream, names, seat, follower);
    let parser = match parsers.pop() {
        Some(end) => begin(rt, alloc, end).ok(),
        None => None,
    };
    let count = run(&rt, driver, channel, 1_000_000);
    match parser {
        Some(parser) => {
            drop(parser.join(&rt));
            Ok(count)
        }
        None => Err("no parser".into()),
    }
}

/// A connection that ends once its cell asks for a line: busy, the input and the input request were sent, and the kernel is told
/// of the end, so that it has no line and rests. And a shutdown without restart: busy, the reply and idle are sent, and with
/// them the channel is closed.
#[test]
fn channels_that_are_closed(rt: HostRuntime) -> Result<(), Fail> {
    let lost = sent(
        rt,
        rt.alloc(),
        Protocol::Default,
        Socket::new(CELL, End::EndsAtInput),
    )?;
    assert_eq!(rt; lost, Some(3));
    let shut = sent(
        rt,
        rt.alloc(),
        Protocol::Default,
        Socket::new(SHUTDOWN, End::Waits),
    )?;
    assert_eq!(rt; shut, Some(3));
    Ok(())
}

/// The same shutdown in the other protocol, and what is written.
#[test]
fn a_shutdown_in_binary_messages(rt: HostRuntime) -> Result<(), Fail> {
    let left = Cell::new(SHUT_V1.len());
    let stream = Compared::new(Socket::new(SHUTDOWN_V1, End::Waits), SHUT_V1, &left);
    let shut = sent(rt, rt.alloc(), Protocol::V1, stream)?;
    assert_eq!(rt; shut, Some(3));
    assert_eq!(rt; left.get(), 0);
    Ok(())
}

/// Sends two thousand joins from a seat, and has the kernel show each.
fn crowd<R: Wait, L: Language>(rt: &R, driver: Driver<L>, seat: Seat) -> Driver<L> {
    let mut driver = driver;
    let mut seat = seat;
    for _ in 0..2_000 {
        let join = Arrival {
            seat: seat.place(),
            number: seat.next_number(),
            what: What::Join,
        };
        let (same, _) = seat.submit(rt, join);
        seat = same;
        let (same, _) = drive_some(rt, 1, driver);
        driver = same;
    }
    driver
}

/// How many entries a screen is sent within eight turns, where it comes when two thousand were shown and asks for a shutdown.
fn late_screen<R: Wait>(rt: &R, alloc: Global, passes: bool) -> Result<Option<usize>, Fail> {
    let names = names(alloc, Protocol::Default)?;
    let cast = make_cast::<R, TestLanguage>(rt, alloc)?;
    let Cast {
        driver,
        other,
        seat,
        follower,
        watch: _,
        parsers: _,
    } = cast;
    let driver = crowd(rt, driver, other);
    let follower = if passes {
        let (passed, _) = follower.pass();
        passed
    } else {
        follower
    };
    let socket = Socket::new(SHUTDOWN, End::Waits);
    let channel = Channel::new(alloc, socket, names, seat, follower);
    Ok(run(rt, driver, channel, 8))
}

/// A screen that comes late has its answers, since its follower has passed what came before.
#[test]
fn second_screen(rt: HostRuntime) -> Result<(), Fail> {
    assert_eq!(rt; late_screen(&rt, rt.alloc(), true)?, Some(3));
    Ok(())
}

/// Where its follower was not lent, the board has dropped what comes next: the stream counts as failed, and nothing is sent.
#[test]
fn lost_screen(rt: HostRuntime) -> Result<(), Fail> {
    assert_eq!(rt; late_screen(&rt, rt.alloc(), false)?, Some(0));
    Ok(())
}
