//! The nine traps, each with its line.

use super::trees::{
    arm, array, assertion, assign, assign_text, basic, binary, call, case, constant, element,
    global, none, one, procedure, two, unary, unit,
};
use super::{trapped, wrong_alone};
use ob_mean::{Callee, Loaded, Operator, TrapKind, TypedStatement, UnaryOperator};
use std::alloc::{AllocError, Global};

/// A module with a variable, an array of three, a procedure that calls itself in line 18, and this statement.
fn doing(
    alloc: Global,
    statement: Result<TypedStatement, AllocError>,
) -> Result<Loaded, AllocError> {
    let again = one(alloc, call(Callee::OfModule(0), 18, none(alloc)));
    let calling = procedure(alloc, none(alloc), again);
    unit(
        alloc,
        two(alloc, basic(), array(alloc, 3)),
        one(alloc, calling),
        one(alloc, statement),
    )
}

/// x := first operator second, in a line.
fn computing(
    alloc: Global,
    first: i32,
    operator: Operator,
    line: usize,
    second: i32,
) -> Result<TypedStatement, AllocError> {
    assign(
        global(0),
        binary(alloc, constant(first), operator, line, constant(second)),
    )
}

/// x := operator first, in a line.
fn converting(
    alloc: Global,
    operator: UnaryOperator,
    line: usize,
    first: i32,
) -> Result<TypedStatement, AllocError> {
    assign(global(0), unary(alloc, operator, line, constant(first)))
}

#[test]
fn an_index_is_within_its_array(rt: HostRuntime) {
    let alloc = rt.alloc();
    let outside = assign(element(alloc, global(1), 11, constant(3)), constant(1));
    let said = [(trapped(TrapKind::Index, 11), "", 0)];
    assert_eq!(rt;
        wrong_alone(alloc, doing(alloc, outside), &[], &said),
        Ok(None)
    );
}

#[test]
fn a_divisor_is_above_0(rt: HostRuntime) {
    let alloc = rt.alloc();
    let none_above = computing(alloc, 1, Operator::Quotient, 12, 0);
    let said = [(trapped(TrapKind::Divisor, 12), "", 0)];
    assert_eq!(rt;
        wrong_alone(alloc, doing(alloc, none_above), &[], &said),
        Ok(None)
    );
}

#[test]
fn a_case_has_the_label(rt: HostRuntime) {
    let alloc = rt.alloc();
    let unlabelled = case(13, constant(5), one(alloc, arm(alloc, 1, 4, none(alloc))));
    let said = [(trapped(TrapKind::Label, 13), "", 0)];
    assert_eq!(rt;
        wrong_alone(alloc, doing(alloc, unlabelled), &[], &said),
        Ok(None)
    );
}

#[test]
fn what_is_asserted_holds(rt: HostRuntime) {
    let alloc = rt.alloc();
    let said = [(trapped(TrapKind::Assertion, 14), "", 0)];
    assert_eq!(rt;
        wrong_alone(alloc, doing(alloc, assertion(14, constant(0))), &[], &said),
        Ok(None)
    );
}

#[test]
fn a_character_has_a_number_up_to_255(rt: HostRuntime) {
    let alloc = rt.alloc();
    let above = converting(alloc, UnaryOperator::Character, 15, 256);
    let said = [(trapped(TrapKind::Character, 15), "", 0)];
    assert_eq!(rt;
        wrong_alone(alloc, doing(alloc, above), &[], &said),
        Ok(None)
    );
}

#[test]
fn a_shift_is_by_at_most_31(rt: HostRuntime) {
    let alloc = rt.alloc();
    let far = computing(alloc, 1, Operator::ShiftLeft, 16, 32);
    let said = [(trapped(TrapKind::ShiftCount, 16), "", 0)];
    assert_eq!(rt; wrong_alone(alloc, doing(alloc, far), &[], &said), Ok(None));
}

#[test]
fn a_string_is_shorter_than_its_array(rt: HostRuntime) {
    let alloc = rt.alloc();
    let long = assign_text(alloc, global(1), 17, "abc");
    let said = [(trapped(TrapKind::TextLength, 17), "", 0)];
    assert_eq!(rt;
        wrong_alone(alloc, doing(alloc, long), &[], &said),
        Ok(None)
    );
}

#[test]
fn a_byte_is_a_number_up_to_255(rt: HostRuntime) {
    let alloc = rt.alloc();
    let below = converting(alloc, UnaryOperator::Byte, 19, -1);
    let said = [(trapped(TrapKind::Byte, 19), "", 0)];
    assert_eq!(rt;
        wrong_alone(alloc, doing(alloc, below), &[], &said),
        Ok(None)
    );
}
