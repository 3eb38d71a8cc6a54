//! A driver makes as many rounds as it is told, and each works a slice of 1,000 turns.

use crate::scene::{Parser, begin, cell, finish, follow, send, view_of};
use jk_board::{Board, Follower};
use jk_core::{Kernel, Work};
use jk_log::ParsedCell;
use jk_queues::{Inbox, Pool};
use jk_run::{Driver, drive_some};
use std::alloc::{AllocError, Global};
use std::sync::Wait;
use std::test::Fail;
use std::thread;
use std::thread::Threads;
use std::time::Clock;
use test_language::TestLanguage;

/// Makes one round after the other, up to the one in which a cell begins.
fn begin_cell<R: Wait>(rt: &R, driver: Driver<TestLanguage>) -> Driver<TestLanguage> {
    let mut driver = driver;
    for _ in 0..200_000 {
        let (same, work) = drive_some(rt, 1, driver);
        driver = same;
        if work == Work::Ran {
            return driver;
        }
        thread::yield_now();
    }
    driver
}

/// What seat 1 is sent of its cell by the round in which that begins and three more, which are asked for at once.
fn shown_by_four<R: Wait>(
    rt: &R,
    alloc: Global,
    driver: Driver<TestLanguage>,
    follower: Follower<TestLanguage>,
) -> (Driver<TestLanguage>, Result<String, AllocError>) {
    let driver = begin_cell(rt, driver);
    let (driver, _) = drive_some(rt, 3, driver);
    let mut entries = Vec::new(alloc);
    let (_follower, read) = follow(alloc, follower, &mut entries);
    match read {
        Ok(()) => (driver, view_of(alloc, &entries, 1)),
        Err(error) => (driver, Err(error)),
    }
}

/// The same, with a parser in a thread of its own.
fn perform<R>(
    rt: R,
    alloc: Global,
    driver: Driver<TestLanguage>,
    follower: Follower<TestLanguage>,
    end: Parser,
) -> Result<String, AllocError>
where
    R: Threads + Wait + Clock + Copy + Send + 'static,
{
    let parser = match begin(rt, alloc, end) {
        Ok(parser) => parser,
        Err(error) => {
            finish(&rt, driver);
            return Err(error);
        }
    };
    let (driver, shown) = shown_by_four(&rt, alloc, driver, follower);
    finish(&rt, driver);
    drop(parser.join(&rt));
    shown
}

/// What is shown of a cell of so many turns.
fn shown_of<R>(rt: R, alloc: Global, turns: usize) -> Result<String, Fail>
where
    R: Threads + Wait + Clock + Copy + Send + 'static,
{
    let Inbox { taker, seats } = Inbox::new(alloc)?;
    let (pool, mut ends) = Pool::<ParsedCell<TestLanguage>>::new(alloc, 1)?;
    let end = ends.pop().ok_or("no parser")?;
    let kernel = Kernel::<TestLanguage>::new(alloc)?;
    let mut code = String::new(alloc);
    for _ in 0..turns {
        code.push('.')?;
    }
    let _one = send(&rt, seats.one, cell(alloc, code.as_str())?);
    let Board {
        publisher,
        followers,
    } = Board::<TestLanguage>::new(&rt, alloc, &taker)?;
    let (follower, _) = followers.two.pass();
    let driver = Driver::new(alloc, kernel, taker, pool, publisher);
    Ok(perform(rt, alloc, driver, follower, end)?)
}

/// Four slices end a cell of 3,500 turns, and not one of 4,500.
#[test]
fn three_rounds_are_three_slices(rt: HostRuntime) -> Result<(), Fail> {
    assert_eq!(rt; shown_of(rt, rt.alloc(), 3_500)?.as_str(), "beri");
    assert_eq!(rt; shown_of(rt, rt.alloc(), 4_500)?.as_str(), "be");
    Ok(())
}
