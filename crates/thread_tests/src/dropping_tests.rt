//! What a board drops, and what it keeps.
ghost use Rattle.std.specs.Prelude.{◌≡◌, ◌<◌, [], OnOk};
ghost use Rattle.jk_board.specs.Ends.{published};
ghost use Rattle.thread_tests.specs.Shown.{HasShown};

use crate::following::read_after;
use crate::joins::{fresh_kernel, publish_each};
use jk_board::{Board, Follower, Publisher, Refusal};
use jk_core::Kernel;
use jk_language::Language;
use jk_queues::Inbox;
use std::alloc::{AllocError, Global};
use std::sync::Wait;
use std::test::Fail;
use test_language::TestLanguage;

/// Publishes entries of these numbers one by one, and counts what is kept then.
fn kept_after<L: Language, R: Wait>(
    rt: &R,
    alloc: Global,
    kernel: &mut Kernel<L>,
    publisher: Publisher<L>,
    first: u64,
    behind: u64,
) -> (Publisher<L>, Result<usize, AllocError>)
    requires { HasShown L.spoken (published publisher) kernel.old }
    ensures { OnOk result.1 (HasShown L.spoken (published result.0) kernel.new) }
{
    let (publisher, done) = publish_each(rt, alloc, kernel, publisher, first, behind);
    let kept = publisher.kept();
    match done {
        Ok(()) => (publisher, Ok(kept)),
        Err(error) => (publisher, Err(error)),
    }
}

/// How many entries are kept when so many were published, and how many when the follower has then read so many times and one more is
/// published.
fn kept_by<L: Language, R: Wait>(
    rt: &R,
    alloc: Global,
    publisher: Publisher<L>,
    follower: Follower<L>,
    count: u64,
    times: u64,
) -> (Publisher<L>, Result<(usize, usize), AllocError>)
    requires none { published publisher ≡ [] }
    requires few { count < 10000 }
{
    let mut kernel = match fresh_kernel::<L>(alloc) {
        Ok(kernel) => kernel,
        Err(error) => return (publisher, Err(error)),
    };
    let (publisher, before) = kept_after(rt, alloc, &mut kernel, publisher, 1, count + 1);
    let before = match before {
        Ok(before) => before,
        Err(error) => return (publisher, Err(error)),
    };
    if read_after(alloc, follower, times, 0).is_err() {
        return (publisher, Err(AllocError));
    }
    let (publisher, after) = kept_after(rt, alloc, &mut kernel, publisher, count + 1, count + 2);
    match after {
        Ok(after) => (publisher, Ok((before, after))),
        Err(error) => (publisher, Err(error)),
    }
}

/// What is kept for a follower that is lent from the first entry on: all that it has not read, and no whole part that it has read.
fn kept_for_one<R: Wait>(
    rt: &R,
    alloc: Global,
    count: u64,
    times: u64,
) -> Result<(usize, usize), AllocError>
    requires { count < 10000 }
{
    let Inbox { taker, .. } = Inbox::new(alloc)?;
    let Board {
        publisher,
        followers,
    } = Board::<TestLanguage>::new(rt, alloc, &taker)?;
    let (follower, _) = followers.one.pass();
    let (publisher, kept) = kept_by(rt, alloc, publisher, follower, count, times);
    publisher.end(rt);
    kept
}

/// Of a hundred publications the first 64 are a part, which is dropped when they are read. Of 4,300 the first 4,096 are a part, and
/// then 64 each.
#[test]
fn dropped_when_read(rt: HostRuntime) -> Result<(), Fail> {
    let (before, after) = kept_for_one(&rt, rt.alloc(), 100, 1)?;
    assert_eq!(rt; before, 100);
    assert_eq!(rt; after, 37);
    let (before, after) = kept_for_one(&rt, rt.alloc(), 4_300, 66)?;
    assert_eq!(rt; before, 4_300);
    assert_eq!(rt; after, 77);
    Ok(())
}

/// One that is lent and stands still keeps all.
#[test]
fn kept_while_unread(rt: HostRuntime) -> Result<(), Fail> {
    let (before, after) = kept_for_one(&rt, rt.alloc(), 200, 0)?;
    assert_eq!(rt; before, 200);
    assert_eq!(rt; after, 201);
    Ok(())
}

/// One that is not lent keeps nothing but the last publication, which goes by `let_go`.
#[test]
fn nothing_kept_for_nobody(rt: HostRuntime) -> Result<(), Fail> {
    let alloc = rt.alloc();
    let Inbox { taker, .. } = Inbox::new(alloc)?;
    let Board {
        publisher,
        followers,
    } = Board::<TestLanguage>::new(&rt, alloc, &taker)?;
    let (publisher, kept) = kept_by(&rt, alloc, publisher, followers.one, 200, 0);
    let publisher = publisher.let_go(&rt, alloc);
    let left = publisher.kept();
    publisher.end(&rt);
    assert_eq!(rt; kept?.0, 1);
    assert_eq!(rt; left, 0);
    Ok(())
}

/// How a follower that is not lent reads after three publications, and how many entries it reads of two more once it has passed.
fn rest_and_pass<L: Language, R: Wait>(
    rt: &R,
    alloc: Global,
    publisher: Publisher<L>,
    follower: Follower<L>,
) -> (Publisher<L>, Result<(bool, usize), AllocError>)
    requires { published publisher ≡ [] }
{
    let mut kernel = match fresh_kernel::<L>(alloc) {
        Ok(kernel) => kernel,
        Err(error) => return (publisher, Err(error)),
    };
    let (follower, _) = follower.pass();
    follower.rest();
    let (publisher, first) = kept_after(rt, alloc, &mut kernel, publisher, 1, 4);
    let _ = match first {
        Ok(kept) => kept,
        Err(error) => return (publisher, Err(error)),
    };
    let (follower, answer) = follower.read(alloc, 64);
    let (follower, _) = follower.pass();
    let (publisher, second) = kept_after(rt, alloc, &mut kernel, publisher, 4, 6);
    if second.is_err() {
        return (publisher, Err(AllocError));
    }
    let (_, found) = follower.read(alloc, 64);
    let lost = matches!(answer, Err(Refusal::Lost));
    match found {
        Ok(entries) => (publisher, Ok((lost, entries.len()))),
        Err(_) => (publisher, Err(AllocError)),
    }
}

/// Who rests and then reads without a pass is told that what comes next is gone. After a pass it reads what comes then.
#[test]
fn lost_after_rest(rt: HostRuntime) -> Result<(), Fail> {
    let alloc = rt.alloc();
    let Inbox { taker, .. } = Inbox::new(alloc)?;
    let Board {
        publisher,
        followers,
    } = Board::<TestLanguage>::new(&rt, alloc, &taker)?;
    let (publisher, done) = rest_and_pass(&rt, alloc, publisher, followers.two);
    publisher.end(&rt);
    let (lost, count) = done?;
    assert!(rt; lost);
    assert_eq!(rt; count, 2);
    Ok(())
}
