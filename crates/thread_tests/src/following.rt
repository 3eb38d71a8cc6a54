//! Followers that read joins and leaves, in threads of their own or not.

use jk_board::Follower;
use jk_language::Language;
use jk_log::{Entry, Told};
use std::alloc::{AllocError, Global};
use std::sync::Wait;
use std::thread;
use std::thread::{JoinHandle, Threads};
use test_language::TestLanguage;

/// Whether the entry is the join or leave of this number: numbers that are odd are joins.
fn is_join(entry: &Entry, number: u64) -> bool {
    match &entry.content {
        Told::Joined {
            seat: _,
            number: known,
        } => number % 2 == 1 && *known == number,
        Told::Left {
            seat: _,
            number: known,
        } => number % 2 == 0 && *known == number,
        Told::Output(_) => false,
    }
}

/// How many entries in order are the joins and leaves that follow the one of this number, from the first on.
fn in_order(entries: &[Entry], before: u64) -> u64 {
    let mut count = 0u64;
    for entry in entries {
        count = count.wrapping_add(1);
        if !is_join(entry, before.wrapping_add(count)) {
            return count.wrapping_sub(1);
        }
    }
    count
}

/// Reads so many times. The answer is the number of the last join or leave, where all come from the first on and in order.
pub fn read_times<L: Language>(
    alloc: Global,
    follower: Follower<L>,
    times: u64,
) -> Result<u64, AllocError> {
    read_after(alloc, follower, times, 0)
}

/// Reads so many times. The answer is the number of the last join or leave, where all come in order after the one of this
/// number.
pub fn read_after<L: Language>(
    alloc: Global,
    follower: Follower<L>,
    times: u64,
    number: u64,
) -> Result<u64, AllocError> {
    let mut follower = follower;
    let mut last = number;
    for _ in 0..times {
        let (same, found) = follower.read(alloc, 64);
        follower = same;
        let entries = found.map_err(|_| AllocError)?;
        last = last.wrapping_add(in_order(entries.as_slice(), last));
    }
    Ok(last)
}

/// Reads until so many entries were read, and answers as `read_times` does.
pub fn read_all<L: Language, R: Wait>(
    rt: &R,
    alloc: Global,
    follower: Follower<L>,
    all: u64,
) -> Result<u64, AllocError> {
    let mut follower = follower;
    let mut last = 0u64;
    let mut count = 0u64;
    for _ in rt.forever() {
        if count >= all {
            return Ok(last);
        }
        let (same, found) = follower.read(alloc, 64);
        follower = same;
        let entries = found.map_err(|_| AllocError)?;
        count = count.wrapping_add(entries.len() as u64);
        last = last.wrapping_add(in_order(entries.as_slice(), last));
        thread::yield_now();
    }
    unreachable!()
}

/// Starts a thread that does as `read_all`.
pub fn begin<R>(
    rt: R,
    alloc: Global,
    follower: Follower<TestLanguage>,
    all: u64,
) -> Result<JoinHandle<Result<u64, AllocError>>, AllocError>
where
    R: Threads + Wait + Copy + Send + 'static,
{
    Ok(thread::spawn(&rt, move || read_all(&rt, alloc, follower, all))?)
}
