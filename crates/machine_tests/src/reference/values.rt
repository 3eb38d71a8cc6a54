//! Expressions.

use super::trees::{
    array, assign, basic, binary, constant, element, global, none, one, out_char, out_end, out_int,
    read, two, unary, unit, with,
};
use super::{AT_OUTPUT, ENDED, wrong_alone};
use ob_mean::{Loaded, Operator, Relation, UnaryOperator};
use std::alloc::{AllocError, Global};

/// x := -7; Out.Int(x DIV 2, 0); Out.Char(" "); Out.Int(x MOD 2, 0); Out.Char(" "); Out.Int(-(7 DIV 2), 0); Out.Ln
fn floors(alloc: Global) -> Result<Loaded, AllocError> {
    let start = one(alloc, assign(global(0), constant(-7)));
    let quotient = out_int(
        alloc,
        binary(alloc, read(global(0)), Operator::Quotient, 1, constant(2)),
        0,
    );
    let rest = out_int(
        alloc,
        binary(alloc, read(global(0)), Operator::Remainder, 1, constant(2)),
        0,
    );
    let seven = binary(alloc, constant(7), Operator::Quotient, 1, constant(2));
    let negative = out_int(alloc, unary(alloc, UnaryOperator::Negative, 1, seven), 0);
    let first = with(with(with(start, quotient), out_char(32)), rest);
    let body = with(with(with(first, out_char(32)), negative), out_end());
    unit(alloc, one(alloc, basic()), none(alloc), body)
}

#[test]
fn division_is_the_floor_and_its_rest(rt: HostRuntime) {
    let said = [
        (AT_OUTPUT, "", 0),
        (AT_OUTPUT, "-4", 0),
        (AT_OUTPUT, "-4 ", 0),
        (AT_OUTPUT, "-4 1", 0),
        (AT_OUTPUT, "-4 1 ", 0),
        (AT_OUTPUT, "-4 1 -3", 0),
        (ENDED, "-4 1 -3\n", 0),
        (ENDED, "-4 1 -3\n", 1),
    ];
    assert_eq!(rt;
        wrong_alone(rt.alloc(), floors(rt.alloc()), &[], &said),
        Ok(None)
    );
}
