//! Records, and arrays in them.

use super::trees::{
    assign, binary, constant, copy, element, field, global, none, out_int, read, record, two, unit,
    with,
};
use super::{AT_OUTPUT, ENDED, wrong_alone};
use ob_mean::{Designator, Loaded, Operator};
use std::alloc::{AllocError, Global};

/// The second element of the array in a variable.
fn second(alloc: Global, x: usize) -> Result<Designator, AllocError> {
    element(alloc, field(alloc, global(x), 1), 1, constant(1))
}

/// r.a := 3; r.b[1] := 4; s := r; r.a := 5; Out.Int(s.a + s.b[1], 0); Out.Int(r.a, 2), where r and s are records of a number
/// and an array of two.
fn copied(alloc: Global) -> Result<Loaded, AllocError> {
    let start = two(
        alloc,
        assign(field(alloc, global(0), 0), constant(3)),
        assign(second(alloc, 0), constant(4)),
    );
    let behind = with(
        with(start, copy(global(1), global(0))),
        assign(field(alloc, global(0), 0), constant(5)),
    );
    let sum = binary(
        alloc,
        read(field(alloc, global(1), 0)),
        Operator::Plus,
        1,
        read(second(alloc, 1)),
    );
    let shown = with(
        with(behind, out_int(alloc, sum, 0)),
        out_int(alloc, read(field(alloc, global(0), 0)), 2),
    );
    unit(
        alloc,
        two(alloc, record(alloc, 2), record(alloc, 2)),
        none(alloc),
        shown,
    )
}

#[test]
fn a_record_is_copied_with_its_array(rt: HostRuntime) {
    let said = [
        (AT_OUTPUT, "", 0),
        (AT_OUTPUT, "7", 0),
        (ENDED, "7 5", 0),
        (ENDED, "7 5", 1),
    ];
    assert_eq!(rt;
        wrong_alone(rt.alloc(), copied(rt.alloc()), &[], &said),
        Ok(None)
    );
}
