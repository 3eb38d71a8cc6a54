//! Requests that are no cells, shutdowns, and what waits.

use crate::plays::Step::{
    Cell, Control, Ended, Join, Line, NoJob, Pends, Query, Read, Rests, Shows, Turns,
};
use crate::plays::play;
use jk_core::Work::{NeedsLine, NeedsParse, Ran, Rest};
use std::test::Fail;

#[test]
fn requests_that_are_no_cells(rt: HostRuntime) -> Result<(), Fail> {
    play(
        &rt,
        &[
            Query(1, "q1", "kernel_info_request", ""),
            Query(
                2,
                "q2",
                "complete_request",
                "\"code\":\"\",\"cursor_pos\":5",
            ),
            Query(3, "q3", "inspect_request", ""),
            Query(1, "q4", "history_request", ""),
            Query(1, "q5", "comm_info_request", ""),
            Query(1, "q6", "interrupt_request", ""),
            Rests(false),
            Pends(0),
            Turns(0, Ran),
            Shows(
                "busy for q1, kernel_info_reply for q1 to 1, idle for q1, busy for q2, complete_reply 5 for q2 to 2, idle for q2, busy for q3, inspect_reply for q3 to 3, idle for q3, busy for q4, history_reply for q4 to 1, idle for q4, busy for q5, comm_info_reply for q5 to 1, idle for q5",
            ),
            Turns(0, Rest),
        ],
    )?;
    // A text that begins with `#` is refused, and `#` alone lacks its end.
    play(
        &rt,
        &[
            Query(1, "q1", "is_complete_request", "\"code\":\"#\""),
            Query(1, "q2", "is_complete_request", "\"code\":\"a.\""),
            Query(1, "q3", "is_complete_request", "\"code\":\"\""),
            Query(1, "q4", "is_complete_request", "\"code\":\"#a\""),
            NoJob,
            Turns(10, Ran),
            Shows(
                "busy for q1, incomplete for q1 to 1, idle for q1, busy for q2, complete for q2 to 1, idle for q2, busy for q3, complete for q3 to 1, idle for q3, busy for q4, invalid for q4 to 1, idle for q4",
            ),
        ],
    )?;
    // What was taken before a cell is answered before it, and what was taken after it once it has ended.
    play(
        &rt,
        &[
            Query(1, "q1", "history_request", ""),
            Cell(1, "m1", "42"),
            Query(2, "q2", "inspect_request", ""),
            Cell(2, "m2", "7"),
            Turns(1, Ran),
            Shows("busy for q1, history_reply for q1 to 1, idle for q1"),
            Turns(1, NeedsParse),
            Read,
            Turns(1, Ran),
            Turns(1, Ran),
            Shows(
                "busy for m1, input 1 for m1, stream 4 for m1, stream 2 for m1, ok 1 for m1 to 1, idle for m1",
            ),
            Turns(1, Ran),
            Shows(
                "busy for q2, inspect_reply for q2 to 2, idle for q2, busy for m2, input 2 for m2, stream 7 for m2, ok 2 for m2 to 2, idle for m2",
            ),
        ],
    )
}

#[test]
fn requests_after_an_error(rt: HostRuntime) -> Result<(), Fail> {
    // Cells are aborted and other requests answered, in the order taken. A later cell runs.
    play(
        &rt,
        &[
            Cell(1, "m1", "!a"),
            Query(2, "q1", "kernel_info_request", ""),
            Cell(2, "m2", ""),
            Query(1, "q2", "comm_info_request", ""),
            Read,
            Turns(10, Ran),
            Cell(2, "m3", ""),
            Shows(
                "busy for m1, input 1 for m1, stream a for m1, error Trap: trap 2 in , line 1 for m1, err 1 Trap for m1 to 1, idle for m1, busy for q1, kernel_info_reply for q1 to 2, idle for q1, busy for m2, aborted for m2 to 2, idle for m2, busy for q2, comm_info_reply for q2 to 1, idle for q2",
            ),
            Read,
            Turns(10, Ran),
            Shows("busy for m3, input 2 for m3, ok 2 for m3 to 2, idle for m3"),
        ],
    )
}

#[test]
fn shutdowns(rt: HostRuntime) -> Result<(), Fail> {
    // While a cell runs, one waits and a query waits. The session and the count start anew: `@` links only where the session
    // keeps something.
    play(
        &rt,
        &[
            Cell(1, "m1", "ab"),
            Cell(2, "m2", ""),
            Query(2, "q1", "history_request", ""),
            Read,
            Turns(1, Ran),
            Control(3, "k1", "kernel_info_request", ""),
            Control(3, "s1", "shutdown_request", "\"restart\":true"),
            Ended(false),
            Shows(
                "busy for m1, input 1 for m1, stream a for m1, busy for k1, kernel_info_reply for k1 to 3, idle for k1, error Restarted:  for m1, err 1 Restarted for m1 to 1, idle for m1, busy for m2, aborted for m2 to 2, idle for m2, busy for q1, history_reply for q1 to 2, idle for q1, busy for s1, shutdown_reply restart for s1 to 3, idle for s1",
            ),
            Turns(10, Rest),
            Cell(1, "m3", "@"),
            Read,
            Turns(10, Ran),
            Shows(
                "busy for m3, input 1 for m3, error LinkError: link error 30: M for m3, err 1 LinkError for m3 to 1, idle for m3",
            ),
        ],
    )?;
    // Nothing is taken after a shutdown without restart.
    play(
        &rt,
        &[
            Control(1, "s1", "shutdown_request", ""),
            Ended(true),
            Shows("busy for s1, shutdown_reply for s1 to 1, idle for s1"),
            Join(2),
            Cell(1, "m1", "a"),
            Query(1, "q1", "kernel_info_request", ""),
            Control(1, "s2", "shutdown_request", "\"restart\":true"),
            Pends(0),
            NoJob,
            Turns(10, Rest),
            Ended(true),
        ],
    )?;
    // An interrupt, and a shutdown, of a cell that asks; a later line is dropped.
    play(
        &rt,
        &[
            Cell(1, "m1", "?"),
            Read,
            Turns(10, NeedsLine),
            Control(0, "i1", "interrupt_request", ""),
            Line(1, "too late"),
            Shows(
                "busy for m1, input 1 for m1, input_request for m1 to 1, busy for i1, interrupt_reply for i1 to 0, idle for i1, error Interrupted:  for m1, err 1 Interrupted for m1 to 1, idle for m1",
            ),
            Cell(1, "m2", "?$"),
            Read,
            Turns(10, NeedsLine),
            Line(1, "x"),
            Control(0, "s1", "shutdown_request", "\"restart\":true"),
            Shows(
                "busy for m2, input 2 for m2, input_request for m2 to 1, error Restarted:  for m2, err 2 Restarted for m2 to 1, idle for m2, busy for s1, shutdown_reply restart for s1 to 0, idle for s1",
            ),
            Turns(10, Rest),
        ],
    )
}
