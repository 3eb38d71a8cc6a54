//! What In reads, and the lines that it asks for.

use super::trees::{
    array, assign, basic, binary, branch, choice, constant, done, global, input, none, one,
    out_end, out_int, out_text, read, two, unary, unit, with,
};
use super::{AT_INPUT, AT_LINE, AT_OUTPUT, ENDED, wrong_alone};
use ob_mean::{Loaded, Operator, Outcome, Reader, UnaryOperator};
use std::alloc::{AllocError, Global};

/// In.Int(a); In.Int(b); Out.Int(a + b, 0); Out.Ln
fn adding(alloc: Global) -> Result<Loaded, AllocError> {
    let readers = two(
        alloc,
        input(Reader::Int, global(0)),
        input(Reader::Int, global(1)),
    );
    let sum = binary(alloc, read(global(0)), Operator::Plus, 1, read(global(1)));
    let body = with(with(readers, out_int(alloc, sum, 0)), out_end());
    unit(alloc, two(alloc, basic(), basic()), none(alloc), body)
}

#[test]
fn two_readers_share_a_line(rt: HostRuntime) {
    let said = [
        (AT_INPUT, "", 0),
        (AT_LINE, "", 0),
        (AT_INPUT, "", 0),
        (AT_OUTPUT, "", 0),
        (AT_OUTPUT, "46", 0),
        (ENDED, "46\n", 0),
        (ENDED, "46\n", 1),
    ];
    assert_eq!(rt;
        wrong_alone(rt.alloc(), adding(rt.alloc()), &["12 34"], &said),
        Ok(None)
    );
}

#[test]
fn a_reader_stands_where_no_line_was_given_yet(rt: HostRuntime) {
    let said = [
        (AT_INPUT, "", 0),
        (AT_LINE, "", 0),
        (Outcome::NeedsLine, "", 0),
        (Outcome::NeedsLine, "", 1),
    ];
    assert_eq!(rt;
        wrong_alone(rt.alloc(), adding(rt.alloc()), &[], &said),
        Ok(None)
    );
}

/// x := 7; In.Int(x); IF ~In.Done THEN Out.Int(x, 0) END
fn kept(alloc: Global) -> Result<Loaded, AllocError> {
    let failed = unary(alloc, UnaryOperator::Not, 1, done());
    let shown = branch(failed, one(alloc, out_int(alloc, read(global(0)), 0)));
    let start = two(
        alloc,
        assign(global(0), constant(7)),
        input(Reader::Int, global(0)),
    );
    let body = with(start, choice(alloc, shown, none(alloc)));
    unit(alloc, one(alloc, basic()), none(alloc), body)
}

#[test]
fn a_read_without_a_line_leaves_its_variable(rt: HostRuntime) {
    let said = [
        (AT_INPUT, "", 0),
        (AT_LINE, "", 0),
        (AT_OUTPUT, "", 0),
        (ENDED, "7", 0),
        (ENDED, "7", 1),
    ];
    assert_eq!(rt;
        wrong_alone(rt.alloc(), kept(rt.alloc()), &[""], &said),
        Ok(None)
    );
}

/// In.Name(s); Out.String(s), where s has three elements.
fn named(alloc: Global) -> Result<Loaded, AllocError> {
    let body = two(alloc, input(Reader::Name, global(0)), out_text(global(0)));
    unit(alloc, one(alloc, array(alloc, 3)), none(alloc), body)
}

#[test]
fn a_name_is_asked_for_over_blank_lines(rt: HostRuntime) {
    let said = [
        (AT_INPUT, "", 0),
        (AT_LINE, "", 0),
        (AT_LINE, "", 0),
        (AT_OUTPUT, "", 0),
        (ENDED, "ab", 0),
        (ENDED, "ab", 1),
    ];
    assert_eq!(rt;
        wrong_alone(rt.alloc(), named(rt.alloc()), &[" ", " ab c"], &said),
        Ok(None)
    );
}
