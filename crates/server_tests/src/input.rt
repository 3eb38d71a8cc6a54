//! Lines that cells ask for.

use crate::plays::Step::{Cell, CellWith, Control, Leave, Line, Pends, Read, Rests, Shows, Turns};
use crate::plays::play;
use jk_core::Work::{NeedsLine, Ran, Rest};
use std::test::Fail;

#[test]
fn a_cell_that_asks(rt: HostRuntime) -> Result<(), Fail> {
    // It reads the first line of its seat.
    play(
        &rt,
        &[
            Cell(2, "m1", "a?$"),
            Read,
            Turns(10, NeedsLine),
            Shows("busy for m1, input 1 for m1, stream a for m1, input_request for m1 to 2"),
            Turns(10, NeedsLine),
            Pends(0),
            Rests(false),
            Line(1, "another seat"),
            Turns(10, NeedsLine),
            Line(2, "xyz"),
            Line(2, "too late"),
            Shows(""),
            Turns(10, Ran),
            Shows("stream x for m1, ok 1 for m1 to 2, idle for m1"),
            Turns(10, Rest),
        ],
    )?;
    // A silent cell asks all the same.
    play(
        &rt,
        &[
            CellWith(1, "m1", "a?b", ",\"silent\":true"),
            Read,
            Turns(10, NeedsLine),
            Shows("busy for m1, input_request for m1 to 1"),
            Line(1, ""),
            Turns(10, Ran),
            Shows("ok 0 for m1 to 1, idle for m1"),
        ],
    )?;
    // A line that an interrupt finds unread is not read: the session keeps what the cell before left.
    play(
        &rt,
        &[
            Cell(1, "m1", "k"),
            Cell(1, "m2", "?$"),
            Read,
            Turns(10, Ran),
            Turns(10, NeedsLine),
            Line(1, "x"),
            Control(0, "i1", "interrupt_request", ""),
            Shows(
                "busy for m1, input 1 for m1, stream k for m1, ok 1 for m1 to 1, idle for m1, busy for m2, input 2 for m2, input_request for m2 to 1, busy for i1, interrupt_reply for i1 to 0, idle for i1, error Interrupted:  for m2, err 2 Interrupted for m2 to 1, idle for m2",
            ),
            Cell(1, "m3", "$"),
            Read,
            Turns(10, Ran),
            Shows("busy for m3, input 3 for m3, stream k for m3, ok 3 for m3 to 1, idle for m3"),
        ],
    )
}

#[test]
fn a_cell_without_a_line(rt: HostRuntime) -> Result<(), Fail> {
    // It may not ask. What it wrote before and after is one stream.
    play(
        &rt,
        &[
            CellWith(2, "m1", "a?b??c", ",\"allow_stdin\":false"),
            Read,
            Turns(10, Ran),
            Shows("busy for m1, input 1 for m1, stream abc for m1, ok 1 for m1 to 2, idle for m1"),
        ],
    )?;
    // Its seat leaves while it is asked.
    play(
        &rt,
        &[
            Cell(2, "m1", "a?b"),
            Read,
            Turns(10, NeedsLine),
            Leave(1),
            Turns(10, NeedsLine),
            Leave(2),
            Line(2, "too late"),
            Turns(10, Ran),
            Shows(
                "busy for m1, input 1 for m1, stream a for m1, input_request for m1 to 2, left 1 1 to nobody, left 2 1 to nobody, stream b for m1, ok 1 for m1 to 2, idle for m1",
            ),
        ],
    )?;
    // Its seat has left before it begins.
    play(
        &rt,
        &[
            Cell(2, "m1", "?b"),
            Leave(2),
            Read,
            Turns(10, Ran),
            Shows(
                "left 2 1 to nobody, busy for m1, input 1 for m1, stream b for m1, ok 1 for m1 to 2, idle for m1",
            ),
        ],
    )
}
