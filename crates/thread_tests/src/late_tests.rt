//! A result that comes after an interrupt: a worker holds the text of a cell that waits, while the cell before it is interrupted.

use crate::scene::view_of;
use jk_core::{Kernel, Used, Work};
use jk_language::Language;
use jk_log::{Arrival, ParsedCell, What};
use jk_queues::{Gate, Pool, WorkerEnd, worker};
use jp_msg::read_message;
use json_form::Shared;
use std::alloc::{AllocError, Global};
use std::sync::atomic::{AtomicBool, Ordering};
use std::sync::{Arc, Wait};
use std::test::Fail;
use std::thread;
use std::thread::{JoinHandle, Threads};
use std::time::Clock;
use test_language::TestLanguage;

type Parsers = Pool<ParsedCell<TestLanguage>>;

type Parser = WorkerEnd<ParsedCell<TestLanguage>>;

const INTERRUPT: &str =
    r#"{"channel":"control","content":{},"header":{"msg_id":"i","msg_type":"interrupt_request","session":"s"}}"#;

/// Holds job 2 until it is let go.
#[derive(Drop)]
struct HoldsSecond {
    is_let_go: AtomicBool,
    gave_up: AtomicBool,
}

impl Gate for HoldsSecond {
    fn before(&self, job: u64) {
        if job != 2 {
            return;
        }
        for _ in 0..1_000_000 {
            if self.is_let_go.load(Ordering::SeqCst) {
                return;
            }
            thread::yield_now();
        }
        self.gave_up.store(true, Ordering::SeqCst);
    }

    fn after(&self, _job: u64) {}
}

/// Starts a worker.
fn begin<R>(
    rt: R,
    alloc: Global,
    gate: Arc<HoldsSecond>,
    end: Parser,
) -> Result<JoinHandle<Parser>, AllocError>
where
    R: Threads + Wait + Clock + Copy + Send + 'static,
{
    Ok(thread::spawn(&rt, move || {
        worker::<TestLanguage, R, HoldsSecond>(&rt, alloc, &*gate, end)
    })?)
}

/// A cell of this code.
fn cell(alloc: Global, code: &str, stop_on_error: bool) -> Result<What, Fail> {
    let text = format!(in alloc;
        "{{\"content\":{{\"code\":\"{code}\",\"stop_on_error\":{stop_on_error}}},\"header\":{{\"msg_id\":\"m\",\"msg_type\":\"execute_request\",\"session\":\"s\"}}}}"
    )?;
    Ok(What::Shell(Shared::share(alloc, read_message(alloc, text.as_str())?)?))
}

/// Takes what seat 1 sends.
fn take<L: Language>(kernel: &mut Kernel<L>, what: What) -> Result<(), Fail> {
    kernel.take(Arrival {
        seat: 1,
        number: 1,
        what,
    })?;
    Ok(())
}

/// Gives both texts to the pool.
fn give<L: Language, R: Wait>(
    rt: &R,
    kernel: &mut Kernel<L>,
    pool: &mut Pool<ParsedCell<L>>,
) -> Result<(), Fail> {
    for _ in 0..2 {
        if let Some(job) = kernel.next_job()? {
            let _ = pool.offer(rt, job);
        }
    }
    Ok(())
}

/// The next result.
fn next_result<R: Wait>(rt: &R, pool: &mut Parsers) -> ParsedCell<TestLanguage> {
    for _ in rt.forever() {
        if let Some(parsed) = pool.collect(rt) {
            return parsed;
        }
        thread::yield_now();
    }
    unreachable!()
}

/// The number of a job whose result was handed back; 0 where it was kept.
fn handed_back<L: Language>(used: &Used<ParsedCell<L>>) -> u64 {
    match used {
        Used::Kept => 0,
        Used::Stranger(back) => back.job(),
    }
}

/// What became of both results, what the slice after them came to, and what seat 1 is sent.
#[derive(Drop)]
struct Late {
    first: u64,
    second: u64,
    work: Work,
    view: String,
}

/// Makes the kernel's steps while its workers run: the first cell begins and is interrupted, and then the second text is let go.
fn interrupt<R: Wait>(
    rt: &R,
    alloc: Global,
    kernel: &mut Kernel<TestLanguage>,
    pool: &mut Parsers,
    gate: &HoldsSecond,
) -> Result<Late, Fail> {
    let asks = What::Control(Shared::share(alloc, read_message(alloc, INTERRUPT)?)?);
    let first = kernel.parsed(next_result(rt, pool));
    let _ = kernel.work(2);
    let taken = take(kernel, asks);
    gate.is_let_go.store(true, Ordering::SeqCst);
    let second = kernel.parsed(next_result(rt, pool));
    let work = kernel.work(10);
    taken?;
    let marks = kernel.pending_marks();
    let entries = kernel.take_pending(marks)?;
    Ok(Late {
        first: handed_back(&first),
        second: handed_back(&second),
        work,
        view: view_of(alloc, &entries, 1)?,
    })
}

/// Two cells, the first of which is interrupted while a worker holds the text of the second.
fn held_over_an_interrupt<R>(rt: R, alloc: Global, stop_on_error: bool) -> Result<Late, Fail>
where
    R: Threads + Wait + Clock + Copy + Send + 'static,
{
    let gate = Arc::new(
        alloc,
        HoldsSecond {
            is_let_go: AtomicBool::new(false),
            gave_up: AtomicBool::new(false),
        },
    )?;
    let (mut pool, ends) = Parsers::new(alloc, 2)?;
    let mut kernel = Kernel::<TestLanguage>::new(alloc)?;
    take(&mut kernel, cell(alloc, "......", stop_on_error)?)?;
    take(&mut kernel, cell(alloc, "x", stop_on_error)?)?;
    give(&rt, &mut kernel, &mut pool)?;
    let mut workers = Vec::new(alloc);
    for end in ends {
        workers.push(begin(rt, alloc, Arc::try_clone(&gate)?, end)?)?;
    }
    let late = interrupt(&rt, alloc, &mut kernel, &mut pool, &*gate);
    pool.stop(&rt);
    for worker in workers {
        drop(worker.join(&rt));
    }
    let late = late?;
    if gate.gave_up.load(Ordering::SeqCst) {
        return Err("the second text was not let go".into());
    }
    Ok(late)
}

/// Where the interrupt aborts the second cell, its result is handed back, and nothing is left to do.
#[test]
fn a_result_after_an_abort(rt: HostRuntime) -> Result<(), Fail> {
    let late = held_over_an_interrupt(rt, rt.alloc(), true)?;
    assert_eq!(rt; (late.first, late.second, late.work), (0, 2, Work::Rest));
    assert_eq!(rt; late.view.as_str(), "bebnixribri");
    Ok(())
}

/// Where it aborts nothing, the result is kept, and the second cell runs.
#[test]
fn a_result_after_an_interrupt(rt: HostRuntime) -> Result<(), Fail> {
    let late = held_over_an_interrupt(rt, rt.alloc(), false)?;
    assert_eq!(rt; (late.first, late.second, late.work), (0, 0, Work::Ran));
    assert_eq!(rt; late.view.as_str(), "bebnixribesri");
    Ok(())
}
