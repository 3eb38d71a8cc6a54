//! Loops and choices.

use super::trees::{
    arm, assign, basic, binary, branch, case, constant, count, global, increase, none, one,
    out_end, out_int, read, repetition, two, unit, until, with,
};
use super::{AT_ENTRY, AT_OUTPUT, ENDED, wrong_alone};
use ob_mean::{Branch, Loaded, Operator, Relation, TypedExpr, TypedStatement};
use std::alloc::{AllocError, Global};

/// FOR x := 3 TO 1 BY -1 DO Out.Int(x, 2) END; Out.Int(x, 3); Out.Ln
fn counting_down(alloc: Global) -> Result<Loaded, AllocError> {
    let body = one(alloc, out_int(alloc, read(global(0)), 2));
    let all = two(
        alloc,
        count(alloc, 0, 3, 1, -1, body),
        out_int(alloc, read(global(0)), 3),
    );
    unit(
        alloc,
        one(alloc, basic()),
        none(alloc),
        with(all, out_end()),
    )
}

#[test]
fn a_for_goes_down(rt: HostRuntime) {
    let said = [
        (AT_ENTRY, "", 0),
        (AT_OUTPUT, "", 0),
        (AT_ENTRY, " 3", 0),
        (AT_OUTPUT, " 3", 0),
        (AT_ENTRY, " 3 2", 0),
        (AT_OUTPUT, " 3 2", 0),
        (AT_OUTPUT, " 3 2 1", 0),
        (AT_OUTPUT, " 3 2 1  0", 0),
        (ENDED, " 3 2 1  0\n", 0),
        (ENDED, " 3 2 1  0\n", 1),
    ];
    assert_eq!(rt;
        wrong_alone(rt.alloc(), counting_down(rt.alloc()), &[], &said),
        Ok(None)
    );
}

/// A relation of the variables x and y.
fn related(alloc: Global, relation: Relation) -> Result<TypedExpr, AllocError> {
    binary(
        alloc,
        read(global(0)),
        Operator::Compare(relation),
        1,
        read(global(1)),
    )
}

/// A variable less another one.
fn less_by(alloc: Global, x: usize, y: usize) -> Result<TypedStatement, AllocError> {
    let difference = binary(alloc, read(global(x)), Operator::Minus, 1, read(global(y)));
    assign(global(x), difference)
}

fn subtracting(
    alloc: Global,
    relation: Relation,
    x: usize,
    y: usize,
) -> Result<Branch, AllocError> {
    branch(related(alloc, relation), one(alloc, less_by(alloc, x, y)))
}

/// x := 4; y := 6; WHILE x > y DO x := x - y ELSIF x < y DO y := y - x END; Out.Int(x, 0)
fn divisor(alloc: Global) -> Result<Loaded, AllocError> {
    let start = two(
        alloc,
        assign(global(0), constant(4)),
        assign(global(1), constant(6)),
    );
    let branches = two(
        alloc,
        subtracting(alloc, Relation::Greater, 0, 1),
        subtracting(alloc, Relation::Less, 1, 0),
    );
    let body = with(
        with(start, repetition(branches)),
        out_int(alloc, read(global(0)), 0),
    );
    unit(alloc, two(alloc, basic(), basic()), none(alloc), body)
}

#[test]
fn a_while_takes_the_first_branch_that_holds(rt: HostRuntime) {
    let said = [
        (AT_ENTRY, "", 0),
        (AT_ENTRY, "", 0),
        (AT_OUTPUT, "", 0),
        (ENDED, "2", 0),
        (ENDED, "2", 1),
    ];
    assert_eq!(rt;
        wrong_alone(rt.alloc(), divisor(rt.alloc()), &[], &said),
        Ok(None)
    );
}

/// The variable of the module as a label: 1 writes 10, 2 to 4 write 20.
fn looked_up(alloc: Global) -> Result<TypedStatement, AllocError> {
    let arms = two(
        alloc,
        arm(alloc, 1, 1, one(alloc, out_int(alloc, constant(10), 0))),
        arm(alloc, 2, 4, one(alloc, out_int(alloc, constant(20), 0))),
    );
    case(1, read(global(0)), arms)
}

/// REPEAT INC(x); CASE x OF 1: Out.Int(10, 0) | 2 .. 4: Out.Int(20, 0) END UNTIL x >= 2
fn repeated(alloc: Global) -> Result<Loaded, AllocError> {
    let body = two(alloc, increase(global(0), constant(1)), looked_up(alloc));
    let holds = binary(
        alloc,
        read(global(0)),
        Operator::Compare(Relation::GreaterEqual),
        1,
        constant(2),
    );
    unit(
        alloc,
        one(alloc, basic()),
        none(alloc),
        one(alloc, until(body, holds)),
    )
}

#[test]
fn a_repeat_enters_before_it_tests(rt: HostRuntime) {
    let said = [
        (AT_ENTRY, "", 0),
        (AT_OUTPUT, "", 0),
        (AT_ENTRY, "10", 0),
        (AT_OUTPUT, "10", 0),
        (ENDED, "1020", 0),
        (ENDED, "1020", 1),
    ];
    assert_eq!(rt;
        wrong_alone(rt.alloc(), repeated(rt.alloc()), &[], &said),
        Ok(None)
    );
}
