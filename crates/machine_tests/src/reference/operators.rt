//! What operators, predeclared functions and relations give, at their limits too.

use super::trees::{
    array, assign, assign_text, binary, constant, element, global, none, one, out_int, two, unary,
    unit, with,
};
use super::{AT_OUTPUT, ENDED, wrong_alone};
use ob_mean::{Loaded, Operator, Relation, TypedExpr, UnaryOperator};
use ob_reference_store::stop::NoAnswer;
use std::alloc::{AllocError, Global};

/// Out.Int(number, 0)
fn saying(alloc: Global, number: Result<TypedExpr, AllocError>) -> Result<Loaded, AllocError> {
    unit(
        alloc,
        none(alloc),
        none(alloc),
        one(alloc, out_int(alloc, number, 0)),
    )
}

/// Whether what is written, in one turn, is something else than is said.
fn is_wrong(
    alloc: Global,
    number: Result<TypedExpr, AllocError>,
    said: &str,
) -> Result<bool, NoAnswer> {
    let said = [(AT_OUTPUT, "", 0), (ENDED, said, 0)];
    Ok(wrong_alone(alloc, saying(alloc, number), &[], &said)?.is_some())
}

/// The first operator of one value that gives something else than is said.
fn wrong_unary(
    alloc: Global,
    cases: &[(UnaryOperator, i32, &str)],
) -> Result<Option<usize>, NoAnswer> {
    for (i, (operator, x, said)) in cases.iter().enumerate() {
        if is_wrong(alloc, unary(alloc, *operator, 1, constant(*x)), said)? {
            return Ok(Some(i));
        }
    }
    Ok(None)
}

/// The first operator of two numbers that gives something else than is said.
fn wrong_binary(
    alloc: Global,
    cases: &[(Operator, i32, i32, &str)],
) -> Result<Option<usize>, NoAnswer> {
    for (i, (operator, x, y, said)) in cases.iter().enumerate() {
        if is_wrong(
            alloc,
            binary(alloc, constant(*x), *operator, 1, constant(*y)),
            said,
        )? {
            return Ok(Some(i));
        }
    }
    Ok(None)
}

#[test]
fn functions_of_one_value(rt: HostRuntime) {
    let cases = [
        (UnaryOperator::Absolute, -7, "7"),
        (UnaryOperator::Absolute, -2147483648, "-2147483648"),
        (UnaryOperator::Negative, -2147483648, "-2147483648"),
        (UnaryOperator::Odd, -3, "1"),
        (UnaryOperator::Odd, 4, "0"),
        (UnaryOperator::Ordinal, 65, "65"),
        (UnaryOperator::Character, 255, "255"),
        (UnaryOperator::Byte, 0, "0"),
        (UnaryOperator::Not, 0, "1"),
        (UnaryOperator::Not, 1, "0"),
    ];
    assert_eq!(rt; wrong_unary(rt.alloc(), &cases), Ok(None));
}

#[test]
fn shifts_and_sums_have_32_bits(rt: HostRuntime) {
    let cases = [
        (Operator::ShiftLeft, 3, 1, "6"),
        (Operator::ShiftLeft, 1, 31, "-2147483648"),
        (Operator::ShiftLeft, -2147483648, 1, "0"),
        (Operator::ShiftRight, -7, 1, "-4"),
        (Operator::ShiftRight, -1, 31, "-1"),
        (Operator::ShiftRight, 2147483647, 30, "1"),
        (Operator::Rotate, 6, 1, "3"),
        (Operator::Rotate, 1, 1, "-2147483648"),
        (Operator::Rotate, -2147483648, 31, "1"),
        (Operator::Plus, 2147483647, 1, "-2147483648"),
        (Operator::Minus, -2147483648, 1, "2147483647"),
        (Operator::Times, 65536, 65537, "65536"),
    ];
    assert_eq!(rt; wrong_binary(rt.alloc(), &cases), Ok(None));
}

#[test]
fn relations_of_numbers(rt: HostRuntime) {
    let cases = [
        (Operator::Compare(Relation::Equal), -1, 1, "0"),
        (Operator::Compare(Relation::NotEqual), -1, 1, "1"),
        (Operator::Compare(Relation::Less), -1, 1, "1"),
        (Operator::Compare(Relation::Less), 1, 1, "0"),
        (Operator::Compare(Relation::LessEqual), 1, 1, "1"),
        (Operator::Compare(Relation::LessEqual), 2, 1, "0"),
        (Operator::Compare(Relation::Greater), 1, 1, "0"),
        (Operator::Compare(Relation::Greater), 1, -1, "1"),
        (Operator::Compare(Relation::GreaterEqual), 1, 1, "1"),
        (Operator::Compare(Relation::GreaterEqual), -1, 1, "0"),
    ];
    assert_eq!(rt; wrong_binary(rt.alloc(), &cases), Ok(None));
}

/// a := first; b := second; Out.Int(ORD(a relation b), 0), where a has 4 elements and b has 9
fn relating(
    alloc: Global,
    first: &str,
    relation: Relation,
    second: &str,
) -> Result<Loaded, AllocError> {
    let texts = two(
        alloc,
        assign_text(alloc, global(0), 1, first),
        assign_text(alloc, global(1), 1, second),
    );
    let holds = TypedExpr::Texts(relation, global(0)?, global(1)?);
    let number = unary(alloc, UnaryOperator::Ordinal, 1, Ok(holds));
    unit(
        alloc,
        two(alloc, array(alloc, 4), array(alloc, 9)),
        none(alloc),
        with(texts, out_int(alloc, number, 0)),
    )
}

/// The first relation of texts that is something else than is said.
fn wrong_texts(
    alloc: Global,
    cases: &[(&str, Relation, &str, &str)],
) -> Result<Option<usize>, NoAnswer> {
    for (i, (first, relation, second, holds)) in cases.iter().enumerate() {
        let said = [(AT_OUTPUT, "", 0), (ENDED, *holds, 0)];
        let module = relating(alloc, first, *relation, second);
        if wrong_alone(alloc, module, &[], &said)?.is_some() {
            return Ok(Some(i));
        }
    }
    Ok(None)
}

#[test]
fn relations_of_texts(rt: HostRuntime) {
    let cases = [
        ("ab", Relation::Equal, "ab", "1"),
        ("ab", Relation::Less, "abc", "1"),
        ("b", Relation::Less, "abc", "0"),
        ("b", Relation::Greater, "abc", "1"),
        ("", Relation::LessEqual, "", "1"),
        ("", Relation::GreaterEqual, "a", "0"),
        ("abc", Relation::NotEqual, "abd", "1"),
    ];
    assert_eq!(rt; wrong_texts(rt.alloc(), &cases), Ok(None));
}

/// a[0] := "a"; a[1] := "b"; b := "ab"; Out.Int(ORD(a = b), 0), where a has 2 elements and b has 3
fn filled(alloc: Global) -> Result<Loaded, AllocError> {
    let front = two(
        alloc,
        assign(element(alloc, global(0), 1, constant(0)), constant(97)),
        assign(element(alloc, global(0), 1, constant(1)), constant(98)),
    );
    let texts = with(front, assign_text(alloc, global(1), 1, "ab"));
    let holds = TypedExpr::Texts(Relation::Equal, global(0)?, global(1)?);
    let number = unary(alloc, UnaryOperator::Ordinal, 1, Ok(holds));
    unit(
        alloc,
        two(alloc, array(alloc, 2), array(alloc, 3)),
        none(alloc),
        with(texts, out_int(alloc, number, 0)),
    )
}

#[test]
fn a_text_ends_with_its_array(rt: HostRuntime) {
    let said = [(AT_OUTPUT, "", 0), (ENDED, "1", 0)];
    assert_eq!(rt;
        wrong_alone(rt.alloc(), filled(rt.alloc()), &[], &said),
        Ok(None)
    );
}
