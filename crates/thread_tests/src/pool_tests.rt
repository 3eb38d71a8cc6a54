//! Two workers parse at once.

use jk_log::{Job, Parsed, ParsedCell};
use jk_queues::{Gate, Pool, WorkerEnd, worker};
use json_form::Text;
use std::alloc::{AllocError, Global};
use std::sync::atomic::{AtomicBool, Ordering};
use std::sync::{Arc, Wait};
use std::test::Fail;
use std::thread;
use std::thread::{JoinHandle, Threads};
use std::time::Clock;
use test_language::TestLanguage;

type Parsers = Pool<ParsedCell<TestLanguage>>;

type Parser = WorkerEnd<ParsedCell<TestLanguage>>;

/// Holds job 1 until job 2 is answered.
#[derive(Drop)]
struct HoldsFirst {
    second_answered: AtomicBool,
    gave_up: AtomicBool,
}

impl Gate for HoldsFirst {
    fn before(&self, job: u64) {
        if job != 1 {
            return;
        }
        for _ in 0..1_000_000 {
            if self.second_answered.load(Ordering::SeqCst) {
                return;
            }
            thread::yield_now();
        }
        self.gave_up.store(true, Ordering::SeqCst);
    }

    fn after(&self, job: u64) {
        if job == 2 {
            self.second_answered.store(true, Ordering::SeqCst);
        }
    }
}

/// Offers a text, and tries again while there is no room.
fn offer<R: Wait>(rt: &R, pool: &mut Parsers, number: u64, text: Text) {
    let mut job = Job { number, text };
    for _ in rt.forever() {
        match pool.offer(rt, job) {
            Ok(()) => return,
            Err(back) => job = back,
        }
        thread::yield_now();
    }
}

/// The next result: its job, and whether its text has a tree.
fn next_result<R: Wait>(rt: &R, pool: &mut Parsers) -> (u64, bool) {
    for _ in rt.forever() {
        if let Some(parsed) = pool.collect(rt) {
            return (parsed.job(), matches!(parsed.outcome(), Parsed::Tree(_)));
        }
        thread::yield_now();
    }
    unreachable!()
}

/// Starts a worker.
fn begin<R>(
    rt: R,
    alloc: Global,
    gate: Arc<HoldsFirst>,
    end: Parser,
) -> Result<JoinHandle<Parser>, AllocError>
where
    R: Threads + Wait + Clock + Copy + Send + 'static,
{
    Ok(thread::spawn(&rt, move || {
        worker::<TestLanguage, R, HoldsFirst>(&rt, alloc, &*gate, end)
    })?)
}

#[test]
fn two_parsers_at_once(rt: HostRuntime) -> Result<(), Fail> {
    let alloc = rt.alloc();
    let gate = Arc::new(
        alloc,
        HoldsFirst {
            second_answered: AtomicBool::new(false),
            gave_up: AtomicBool::new(false),
        },
    )?;
    let (mut pool, ends) = Parsers::new(alloc, 2)?;
    let tree = Text::from_str(alloc, "abc")?;
    let refused = Text::from_str(alloc, "#")?;
    offer(&rt, &mut pool, 1, tree);
    offer(&rt, &mut pool, 2, refused);
    let mut workers = Vec::new(alloc);
    for end in ends {
        workers.push(begin(rt, alloc, Arc::try_clone(&gate)?, end)?)?;
    }
    let first = next_result(&rt, &mut pool);
    let second = next_result(&rt, &mut pool);
    pool.stop(&rt);
    for worker in workers {
        drop(worker.join(&rt));
    }
    assert!(rt; !gate.gave_up.load(Ordering::SeqCst));
    assert_eq!(rt; first, (2, false));
    assert_eq!(rt; second, (1, true));
    Ok(())
}
