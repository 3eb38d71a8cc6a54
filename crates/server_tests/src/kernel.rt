//! Cells: slices, results of parsing, errors, silent cells and interrupts.

use crate::plays::Step::{
    Cell, CellWith, Control, Join, Leave, NoJob, Pends, Read, Rests, Shows, Turns,
};
use crate::plays::{go_on, play};
use jk_core::Work::{NeedsParse, Ran, Rest};
use jk_core::{Kernel, Used};
use jk_language::Language;
use jk_log::{Job, ParsedCell};
use json_form::Text;
use std::alloc::Global;
use std::process::Abort;
use std::test::Fail;
use test_language::TestLanguage;

/// A cell of two turns, which writes `4` and `2`; one that is refused; one that cuts itself off; one that does not link.
const WRITES: &str = "42";

const REFUSED: &str = "#";

const TRAPS: &str = "!ab";

const UNLINKED: &str = "@";

#[test]
fn slices(rt: HostRuntime) -> Result<(), Fail> {
    play(
        &rt,
        &[
            Turns(10, Rest),
            Cell(1, "m1", WRITES),
            Turns(10, NeedsParse),
            Read,
            Turns(1, Ran),
            Shows("busy for m1, input 1 for m1, stream 4 for m1"),
            Rests(false),
            Turns(1, Ran),
            Shows("stream 2 for m1, ok 1 for m1 to 1, idle for m1"),
            Rests(true),
            Turns(1, Rest),
        ],
    )?;
    // A slice that writes nothing marks nothing.
    play(
        &rt,
        &[
            Cell(1, "m1", "......x"),
            Read,
            Turns(2, Ran),
            Pends(1),
            Turns(2, Ran),
            Pends(1),
            Turns(2, Ran),
            Pends(1),
            Turns(0, Ran),
            Pends(1),
            Turns(2, Ran),
            Pends(3),
            Shows("busy for m1, input 1 for m1, stream x for m1, ok 1 for m1 to 1, idle for m1"),
        ],
    )
}

/// Whether what a job's parse gives is kept.
fn is_kept<L: Language>(alloc: Global, kernel: &mut Kernel<L>, job: Job) -> bool {
    matches!(kernel.parsed(job.parse(alloc)), Used::Kept)
}

/// The two texts that wait are parsed, and the second comes first.
fn parse_in_reverse<L: Language>(
    rt: &impl Abort,
    alloc: Global,
    kernel: &mut Kernel<L>,
) -> Result<(), Fail> {
    if let (Some(first), Some(second)) = (kernel.next_job()?, kernel.next_job()?) {
        assert_eq!(rt; (first.number, second.number), (1, 2));
        assert!(rt; is_kept(alloc, kernel, second));
        go_on(rt, alloc, kernel, &[Turns(10, NeedsParse)])?;
        assert!(rt; is_kept(alloc, kernel, first));
    } else {
        assert!(rt; false);
    }
    Ok(())
}

/// Whether the parse of a text under the first number is handed back as it was given.
fn is_stranger<L: Language>(
    alloc: Global,
    kernel: &mut Kernel<L>,
    text: &str,
) -> Result<bool, Fail> {
    let job = Job {
        number: 1,
        text: Text::from_str(alloc, text)?,
    };
    Ok(is_handed_back(&kernel.parsed(job.parse(alloc)), 1, text))
}

/// Whether the result of a job of this number and text was handed back.
fn is_handed_back<L: Language>(used: &Used<ParsedCell<L>>, number: u64, text: &str) -> bool {
    match used {
        Used::Kept => false,
        Used::Stranger(back) => back.job() == number && back.text().as_str() == text,
    }
}

#[test]
fn results_of_parsing(rt: HostRuntime) -> Result<(), Fail> {
    let alloc = rt.alloc();
    let mut kernel: Kernel<TestLanguage> = Kernel::new(alloc)?;
    let kernel = &mut kernel;
    let both = [Cell(1, "m1", WRITES), Cell(2, "m2", "")];
    go_on(&rt, alloc, kernel, &both)?;
    assert!(rt; is_stranger(alloc, kernel, "other")?);
    parse_in_reverse(&rt, alloc, kernel)?;
    assert!(rt; is_stranger(alloc, kernel, WRITES)?);
    let shown =
        "busy for m1, input 1 for m1, stream 42 for m1, ok 1 for m1 to 1, idle for m1, busy for m2, input 2 for m2, ok 2 for m2 to 2, idle for m2";
    go_on(
        &rt,
        alloc,
        kernel,
        &[NoJob, Turns(10, Ran), Turns(10, Ran), Shows(shown)],
    )
}

/// The first text is refused, and so the second is aborted before its result comes.
fn abort_before_the_result<L: Language>(
    rt: &impl Abort,
    alloc: Global,
    kernel: &mut Kernel<L>,
) -> Result<(), Fail> {
    if let (Some(first), Some(second)) = (kernel.next_job()?, kernel.next_job()?) {
        assert!(rt; is_kept(alloc, kernel, first));
        let shown =
            "busy for m1, input 1 for m1, error CompileError: compile error 5 at 1:1 for m1, err 1 CompileError for m1 to 1, idle for m1, busy for m2, aborted for m2 to 2, idle for m2";
        go_on(rt, alloc, kernel, &[Turns(10, Ran), Shows(shown)])?;
        assert!(rt; is_handed_back(&kernel.parsed(second.parse(alloc)), 2, WRITES));
    } else {
        assert!(rt; false);
    }
    go_on(rt, alloc, kernel, &[NoJob, Turns(10, Rest)])
}

#[test]
fn a_result_of_an_aborted_cell(rt: HostRuntime) -> Result<(), Fail> {
    let mut kernel: Kernel<TestLanguage> = Kernel::new(rt.alloc())?;
    let both = [Cell(1, "m1", REFUSED), Cell(2, "m2", WRITES)];
    go_on(&rt, rt.alloc(), &mut kernel, &both)?;
    abort_before_the_result(&rt, rt.alloc(), &mut kernel)
}

#[test]
fn errors(rt: HostRuntime) -> Result<(), Fail> {
    // What waits is aborted. A later cell runs.
    play(
        &rt,
        &[
            Cell(1, "m1", REFUSED),
            Cell(2, "m2", ""),
            Read,
            Turns(1000, Ran),
            Shows(
                "busy for m1, input 1 for m1, error CompileError: compile error 5 at 1:1 for m1, err 1 CompileError for m1 to 1, idle for m1, busy for m2, aborted for m2 to 2, idle for m2",
            ),
            Cell(2, "m3", ""),
            Read,
            Turns(1000, Ran),
            Shows("busy for m3, input 2 for m3, ok 2 for m3 to 2, idle for m3"),
        ],
    )?;
    // Nothing is aborted, and what waits runs.
    play(
        &rt,
        &[
            CellWith(1, "m1", TRAPS, ",\"stop_on_error\":false"),
            Cell(2, "m2", UNLINKED),
            Read,
            Turns(1000, Ran),
            Shows(
                "busy for m1, input 1 for m1, stream ab for m1, error Trap: trap 2 in , line 1 for m1, err 1 Trap for m1 to 1, idle for m1",
            ),
            Turns(1000, Ran),
            Shows("busy for m2, input 2 for m2, ok 2 for m2 to 2, idle for m2"),
        ],
    )?;
    play(
        &rt,
        &[
            Cell(1, "m1", UNLINKED),
            Read,
            Turns(1000, Ran),
            Shows(
                "busy for m1, input 1 for m1, error LinkError: link error 30: M for m1, err 1 LinkError for m1 to 1, idle for m1",
            ),
        ],
    )
}

#[test]
fn a_silent_cell(rt: HostRuntime) -> Result<(), Fail> {
    play(
        &rt,
        &[
            CellWith(1, "m1", TRAPS, ",\"silent\":true"),
            Read,
            Turns(1000, Ran),
            Shows("busy for m1, err 0 Trap for m1 to 1, idle for m1"),
            Cell(1, "m2", ""),
            Read,
            Turns(1000, Ran),
            Shows("busy for m2, input 1 for m2, ok 1 for m2 to 1, idle for m2"),
        ],
    )
}

#[test]
fn an_interrupt(rt: HostRuntime) -> Result<(), Fail> {
    play(
        &rt,
        &[
            Join(3),
            Cell(3, "m1", WRITES),
            Read,
            Turns(1, Ran),
            Control(0, "i1", "interrupt_request", ""),
            Shows(
                "joined 3 1 to nobody, busy for m1, input 1 for m1, stream 4 for m1, busy for i1, interrupt_reply for i1 to 0, idle for i1, error Interrupted:  for m1, err 1 Interrupted for m1 to 3, idle for m1",
            ),
            Turns(10, Rest),
            Leave(0),
            Shows("left 0 1 to nobody"),
        ],
    )
}
