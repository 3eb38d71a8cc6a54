//! A kernel with its driver in the test's own thread and its parser in another, and what a screen is shown of it.
use jk_board::{Board, Follower};
use jk_core::Kernel;
use jk_log::{Arrival, Entry, ParsedCell, To, Told, What};
use jk_queues::{Gate, Inbox, Pool, Seat, WorkerEnd, worker};
use jk_run::{Driver, Parts, drive_some};
use jp_msg::{Output, State, read_message};
use json_form::Shared;
use std::alloc::{AllocError, Global};
use std::sync::Wait;
use std::test::Fail;
use std::thread;
use std::thread::{JoinHandle, Threads};
use std::time::Clock;
use test_language::TestLanguage;

pub type Parser = WorkerEnd<ParsedCell<TestLanguage>>;

/// Lets every job pass.
#[derive(Drop)]
struct Open;

impl Gate for Open {
    fn before(&self, _job: u64) {}

    fn after(&self, _job: u64) {}
}

/// What is sent once so many entries were shown: a line from seat 1, or anything else from seat 3.
#[derive(Drop)]
pub struct Cue {
    pub shown: usize,
    pub what: What,
}

/// What seats send: a cell of this code from seat 1, and then perhaps one thing more.
#[derive(Drop)]
pub struct Play<'a> {
    pub code: &'a str,
    /// How many such cells are sent.
    pub copies: usize,
    pub cue: Option<Cue>,
    /// How many entries are shown in all.
    pub all: usize,
}

/// A follower, and what it has read.
#[derive(Drop)]
struct Screen {
    follower: Follower<TestLanguage>,
    entries: Vec<Entry>,
    /// How many entries it reads in all.
    all: usize,
}

/// A seat, and what it sends next.
#[derive(Drop)]
struct Sender {
    seat: Seat,
    cue: Option<Cue>,
}

/// A letter for what an entry tells.
pub fn letter(entry: &Entry) -> char {
    match &entry.content {
        Told::Joined { .. } => 'j',
        Told::Left { .. } => 'l',
        Told::Output(output) => match output {
            Output::Status(State::Busy) => 'b',
            Output::Status(State::Idle) => 'i',
            Output::ExecuteInput { .. } => 'e',
            Output::Stream(_) => 's',
            Output::Error(_) => 'x',
            Output::InputRequest => '?',
            Output::ExecuteReply(_) => 'r',
            Output::InterruptReply => 'n',
            _ => '-',
        },
    }
}

/// The letters of what a seat is sent.
pub fn view_of(alloc: Global, entries: &[Entry], seat: u8) -> Result<String, AllocError> {
    let mut text = String::new(alloc);
    for entry in entries {
        let is_sent = match entry.to {
            To::All => true,
            To::Seat(to) => to == seat,
            To::Nobody => false,
        };
        if is_sent {
            text.push(letter(entry))?;
        }
    }
    Ok(text)
}

/// Sends what a seat sends next.
pub fn send<R: Wait>(rt: &R, seat: Seat, what: What) -> Seat {
    let arrival = Arrival {
        seat: seat.place(),
        number: seat.next_number(),
        what,
    };
    let (seat, _) = seat.submit(rt, arrival);
    seat
}

/// A cell of this code.
pub fn cell(alloc: Global, code: &str) -> Result<What, Fail> {
    let text = format!(in alloc;
        "{{\"content\":{{\"code\":\"{code}\"}},\"header\":{{\"msg_id\":\"m\",\"msg_type\":\"execute_request\",\"session\":\"s\"}}}}"
    )?;
    let message = read_message(alloc, text.as_str())?;
    Ok(What::Shell(Shared::share(alloc, message)?))
}

/// Reads what is there for the follower.
pub fn follow(
    alloc: Global,
    follower: Follower<TestLanguage>,
    entries: &mut Vec<Entry>,
) -> (Follower<TestLanguage>, Result<(), AllocError>) {
    let (follower, found) = follower.read(alloc, 64);
    let found = match found {
        Ok(found) => found,
        Err(_) => return (follower, Err(AllocError)),
    };
    for entry in found {
        if entries.push(entry).is_err() {
            return (follower, Err(AllocError));
        }
    }
    (follower, Ok(()))
}

/// Sends what is to be sent at this number of entries.
fn send_at_cue<R: Wait>(rt: &R, sender: Sender, shown: usize) -> Sender {
    let Sender { seat, cue } = sender;
    match cue {
        Some(cue) if shown == cue.shown => {
            let seat = send(rt, seat, cue.what);
            Sender { seat, cue: None }
        }
        cue => Sender { seat, cue },
    }
}

/// Makes rounds until the screen was shown all its entries.
fn run<R: Wait>(
    rt: &R,
    alloc: Global,
    driver: Driver<TestLanguage>,
    screen: Screen,
    sender: Sender,
) -> (Driver<TestLanguage>, Result<Vec<Entry>, AllocError>) {
    let Screen {
        mut follower,
        mut entries,
        all,
    } = screen;
    let mut driver = driver;
    let mut sender = sender;
    for _ in 0..200_000 {
        let (same, _) = drive_some(rt, 1, driver);
        driver = same;
        let (same, read) = follow(alloc, follower, &mut entries);
        follower = same;
        if let Err(error) = read {
            return (driver, Err(error));
        }
        if entries.len() >= all {
            return (driver, Ok(entries));
        }
        sender = send_at_cue(rt, sender, entries.len());
        thread::yield_now();
    }
    (driver, Ok(entries))
}

/// Starts a parser.
pub fn begin<R>(rt: R, alloc: Global, end: Parser) -> Result<JoinHandle<Parser>, AllocError>
where
    R: Threads + Wait + Clock + Copy + Send + 'static,
{
    Ok(thread::spawn(&rt, move || {
        worker::<TestLanguage, R, Open>(&rt, alloc, &Open, end)
    })?)
}

/// Stops the parser, and ends the board.
pub fn finish<R: Wait>(rt: &R, driver: Driver<TestLanguage>) {
    let Parts {
        kernel,
        taker,
        mut pool,
        publisher,
        arrival,
        job,
        entries,
    } = driver.into_parts();
    pool.stop(rt);
    publisher.end(rt);
    drop((kernel, taker, pool, arrival, job, entries));
}

/// A play from its beginning to its end, with a parser in a thread of its own.
fn perform<R>(
    rt: R,
    alloc: Global,
    driver: Driver<TestLanguage>,
    end: Parser,
    screen: Screen,
    sender: Sender,
) -> Result<Vec<Entry>, AllocError>
where
    R: Threads + Wait + Clock + Copy + Send + 'static,
{
    let parser = match begin(rt, alloc, end) {
        Ok(parser) => parser,
        Err(error) => {
            finish(&rt, driver);
            return Err(error);
        }
    };
    let (driver, entries) = run(&rt, alloc, driver, screen, sender);
    finish(&rt, driver);
    drop(parser.join(&rt));
    entries
}

/// What is shown of a play.
pub fn show<R>(rt: R, alloc: Global, play: Play) -> Result<Vec<Entry>, Fail>
where
    R: Threads + Wait + Clock + Copy + Send + 'static,
{
    let Inbox { taker, seats } = Inbox::new(alloc)?;
    let (pool, mut ends) = Pool::<ParsedCell<TestLanguage>>::new(alloc, 1)?;
    let end = ends.pop().ok_or("no parser")?;
    let kernel = Kernel::<TestLanguage>::new(alloc)?;
    let entries = Vec::new(alloc);
    let Play {
        code,
        copies,
        cue,
        all,
    } = play;
    let mut one = send(&rt, seats.one, cell(alloc, code)?);
    for _ in 1..copies {
        one = send(&rt, one, cell(alloc, code)?);
    }
    let seat = match &cue {
        Some(
            Cue {
                what: What::Stdin(_),
                ..
            },
        ) => one,
        _ => seats.three,
    };
    let sender = Sender { seat, cue };
    let Board {
        publisher,
        followers,
    } = Board::<TestLanguage>::new(&rt, alloc, &taker)?;
    let (follower, _) = followers.two.pass();
    let screen = Screen {
        follower,
        entries,
        all,
    };
    let driver = Driver::new(alloc, kernel, taker, pool, publisher);
    Ok(perform(rt, alloc, driver, end, screen, sender)?)
}
