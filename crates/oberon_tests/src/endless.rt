//! A cell that goes on after the end of its input.

use crate::replays::assert_leaves_work;
use crate::sent::Sent::Cell;
use crate::shown::Shown::{Busy, Input};
use std::test::Fail;

#[test]
fn a_loop_without_end(rt: HostRuntime) -> Result<(), Fail> {
    let code = "MODULE L; VAR i: INTEGER; BEGIN WHILE i < 1 DO i := i * 1 END END L.";
    let begun = [("m", 0, Busy), ("m", 0, Input(1, code))];
    assert_leaves_work(&rt, &[Cell(0, "m", code)], &begun)
}
