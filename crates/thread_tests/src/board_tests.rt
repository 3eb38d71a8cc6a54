//! Followers in threads of their own read beside one publisher.
ghost use Rattle.std.specs.Prelude.{◌≡◌, []};
ghost use Rattle.jk_board.specs.Ends.{published, publisher_board, found_by, told_to, AreNew};
ghost use Rattle.thread_tests.specs.Shown.{HasShown};

use crate::following::{begin, read_after, read_times};
use crate::joins::{fresh_kernel, publish_joins, publish_next};
use jk_board::{Board, Follower, Followers, Publisher};
use jk_core::Kernel;
use jk_language::Language;
use jk_queues::Inbox;
use std::alloc::{AllocError, Global};
use std::process::Abort;
use std::sync::Wait;
use std::test::Fail;
use std::thread::{JoinHandle, Threads};
use test_language::TestLanguage;

/// Seven readers, each in a thread of its own.
type Readers = Vec<JoinHandle<Result<u64, AllocError>>>;

/// Lends seven that read a thousand entries each, and starts them.
fn begin_seven<R>(
    rt: R,
    alloc: Global,
    seven: [Follower<TestLanguage>; 7],
) -> Result<Readers, AllocError>
where
    R: Threads + Wait + Copy + Send + 'static,
{
    let mut readers = Vec::new(alloc);
    for follower in seven {
        let (follower, passed) = follower.pass();
        passed?;
        readers.push(begin(rt, alloc, follower, 1_000)?)?;
    }
    Ok(readers)
}

/// Each of the seven has read all. The eighth was lent and has read nothing, so all is kept. The ninth, which was not lent, learns
/// the publisher's news and has all after sixteen reads. So has a follower that comes when all is published, and then the eighth.
fn end_all<R>(
    rt: R,
    alloc: Global,
    publisher: &mut Publisher<TestLanguage>,
    readers: Readers,
    eighth: Follower<TestLanguage>,
    ninth: Follower<TestLanguage>,
) -> Result<(), Fail>
where
    R: Threads + Wait + Abort + Copy + Send + 'static,
    requires { (found_by ninth ≡ []) × (told_to ninth ≡ []) }
{
    for reader in readers {
        assert_eq!(&rt; reader.join(&rt)?, 1_000);
    }
    let ninth = ninth.learn(publisher.news()?);
    assert_eq!(&rt; read_times(alloc, ninth, 16)?, 1_000);
    let late = publisher.late_follower()?;
    assert_eq!(&rt; read_times(alloc, late, 16)?, 1_000);
    assert_eq!(&rt; read_times(alloc, eighth, 16)?, 1_000);
    Ok(())
}

/// Seven follow beside the publisher, each all of a thousand publications, and two after them.
fn follow<R>(
    rt: R,
    alloc: Global,
    publisher: Publisher<TestLanguage>,
    followers: Followers<TestLanguage>,
) -> (Publisher<TestLanguage>, Result<(), Fail>)
where
    R: Threads + Wait + Abort + Copy + Send + 'static,
    requires empty { published publisher ≡ [] }
    requires followers { AreNew (publisher_board publisher) followers }
{
    let Followers {
        zero,
        one,
        two,
        three,
        four,
        five,
        six,
        seven,
        recorder,
    } = followers;
    let (eighth, passed) = seven.pass();
    if let Err(error) = passed {
        return (publisher, Err(error.into()));
    }
    let first = [zero, one, two, three, four, five, six];
    let readers = match begin_seven(rt, alloc, first) {
        Ok(readers) => readers,
        Err(error) => return (publisher, Err(error.into())),
    };
    let (mut publisher, done) = publish_joins(&rt, alloc, publisher, 1_000, 1);
    let done = match done {
        Ok(()) => end_all(rt, alloc, &mut publisher, readers, eighth, recorder),
        Err(error) => Err(error.into()),
    };
    (publisher, done)
}

#[test]
fn reader_beside_writer(rt: HostRuntime) -> Result<(), Fail> {
    let alloc = rt.alloc();
    let Inbox { taker, .. } = Inbox::new(alloc)?;
    let Board {
        publisher,
        followers,
    } = Board::<TestLanguage>::new(&rt, alloc, &taker)?;
    let (publisher, done) = follow(rt, alloc, publisher, followers);
    publisher.end(&rt);
    done
}

/// A follower that comes after a hundred entries passes them, and reads the three that are published then.
fn pass_hundred<L: Language, R: Wait>(
    rt: &R,
    alloc: Global,
    kernel: &mut Kernel<L>,
    publisher: Publisher<L>,
    follower: Follower<L>,
) -> (Publisher<L>, Result<u64, AllocError>)
    requires { HasShown L.spoken (published publisher) kernel.old }
{
    let (publisher, first) = publish_next(rt, alloc, kernel, publisher, 1, 101);
    if first.is_err() {
        return (publisher, Err(AllocError));
    }
    let (follower, passed) = follower.pass();
    let (publisher, second) = publish_next(rt, alloc, kernel, publisher, 101, 104);
    if passed.is_err() || second.is_err() {
        return (publisher, Err(AllocError));
    }
    (publisher, read_after(alloc, follower, 1, 100))
}

#[test]
fn late_reader(rt: HostRuntime) -> Result<(), Fail> {
    let alloc = rt.alloc();
    let mut kernel = fresh_kernel::<TestLanguage>(alloc)?;
    let Inbox { taker, .. } = Inbox::new(alloc)?;
    let Board {
        publisher,
        followers,
    } = Board::<TestLanguage>::new(&rt, alloc, &taker)?;
    let (publisher, last) = pass_hundred(&rt, alloc, &mut kernel, publisher, followers.one);
    publisher.end(&rt);
    assert_eq!(rt; last?, 103);
    Ok(())
}
