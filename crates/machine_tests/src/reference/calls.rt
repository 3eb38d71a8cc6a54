//! Calls, what is passed, and several cells.

use super::trees::{
    assign, basic, binary, branch, by_parameter, by_place, by_value, call, choice, constant,
    function, function_procedure, global, imported, importing, increase, length, local, none, one,
    open, out_int, out_text, procedure, read, text, two, unit, with,
};
use super::{
    AT_CALL, AT_OUTPUT, ENDED, Seen, alone, both, loaded, trapped, wrong_alone, wrong_last,
};
use crate::compiled;
use ob_base::Items;
use ob_mean::{
    Callee, Face, Heading, Loaded, Operator, Outcome, Parameter, Relation, Shape, TrapKind,
    TurnKind, TypedExpr, TypedProcedure,
};
use ob_reference::{Command, Reference};
use ob_reference_store::stop::NoAnswer;
use std::alloc::{AllocError, Global};

/// PROCEDURE P(VAR a, b: INTEGER); BEGIN a := 1; b := b + a END P
fn adding(alloc: Global) -> Result<TypedProcedure, AllocError> {
    let sum = binary(
        alloc,
        read(by_parameter(1)),
        Operator::Plus,
        1,
        read(by_parameter(0)),
    );
    let body = two(
        alloc,
        assign(by_parameter(0), constant(1)),
        assign(by_parameter(1), sum),
    );
    let parameters = two(
        alloc,
        Ok(Parameter::Place(Shape::basic())),
        Ok(Parameter::Place(Shape::basic())),
    );
    procedure(alloc, parameters, body)
}

/// x := 5; P(x, x); Out.Int(x, 0)
fn aliased(alloc: Global) -> Result<Loaded, AllocError> {
    let passed = two(alloc, by_place(global(0)), by_place(global(0)));
    let start = two(
        alloc,
        assign(global(0), constant(5)),
        call(Callee::OfModule(0), 1, passed),
    );
    let body = with(start, out_int(alloc, read(global(0)), 0));
    unit(alloc, one(alloc, basic()), one(alloc, adding(alloc)), body)
}

#[test]
fn two_parameters_name_one_variable(rt: HostRuntime) {
    let said = [
        (AT_CALL, "", 0),
        (AT_OUTPUT, "", 0),
        (ENDED, "2", 0),
        (ENDED, "2", 1),
    ];
    assert_eq!(rt;
        wrong_alone(rt.alloc(), aliased(rt.alloc()), &[], &said),
        Ok(None)
    );
}

/// PROCEDURE W(s: ARRAY OF CHAR); BEGIN Out.Int(LEN(s), 0); Out.String(s) END W
fn writing(alloc: Global) -> Result<TypedProcedure, AllocError> {
    let body = two(
        alloc,
        out_int(alloc, length(by_parameter(0)), 0),
        out_text(by_parameter(0)),
    );
    procedure(alloc, one(alloc, Ok(Parameter::Open(Shape::basic()))), body)
}

/// W("ab")
fn string_passed(alloc: Global) -> Result<Loaded, AllocError> {
    let passed = one(alloc, open(global(0)));
    let body = one(alloc, call(Callee::OfModule(0), 1, passed));
    unit(
        alloc,
        one(alloc, text(alloc, "ab", 3)),
        one(alloc, writing(alloc)),
        body,
    )
}

#[test]
fn a_string_is_passed_with_its_0x(rt: HostRuntime) {
    let said = [
        (AT_CALL, "", 0),
        (AT_OUTPUT, "", 0),
        (AT_OUTPUT, "3", 0),
        (ENDED, "3ab", 0),
        (ENDED, "3ab", 1),
    ];
    assert_eq!(rt;
        wrong_alone(rt.alloc(), string_passed(rt.alloc()), &[], &said),
        Ok(None)
    );
}

/// F(n - 1), where n is the parameter.
fn of_one_less(alloc: Global) -> Result<TypedExpr, AllocError> {
    let less = binary(alloc, read(local(0)), Operator::Minus, 1, constant(1));
    function(Callee::OfModule(0), 1, one(alloc, by_value(less)))
}

/// PROCEDURE F(n: INTEGER): INTEGER; VAR r: INTEGER; BEGIN IF n <= 1 THEN r := 1 ELSE r := n * F(n - 1) END RETURN r END F
fn factorial(alloc: Global) -> Result<TypedProcedure, AllocError> {
    let small = binary(
        alloc,
        read(local(0)),
        Operator::Compare(Relation::LessEqual),
        1,
        constant(1),
    );
    let product = binary(
        alloc,
        read(local(0)),
        Operator::Times,
        1,
        of_one_less(alloc),
    );
    let first = branch(small, one(alloc, assign(local(1), constant(1))));
    let rest = one(alloc, assign(local(1), product));
    let body = one(alloc, choice(alloc, first, rest));
    function_procedure(
        one(alloc, Ok(Parameter::Value)),
        one(alloc, Ok(Shape::basic())),
        body,
        read(local(1)),
    )
}

/// Out.Int(F(3), 0)
fn multiplied(alloc: Global) -> Result<Loaded, AllocError> {
    let three = function(Callee::OfModule(0), 1, one(alloc, by_value(constant(3))));
    unit(
        alloc,
        none(alloc),
        one(alloc, factorial(alloc)),
        one(alloc, out_int(alloc, three, 0)),
    )
}

#[test]
fn a_function_calls_itself_in_an_expression(rt: HostRuntime) {
    let said = [
        (AT_CALL, "", 0),
        (AT_CALL, "", 0),
        (AT_CALL, "", 0),
        (AT_OUTPUT, "", 0),
        (ENDED, "6", 0),
        (ENDED, "6", 1),
    ];
    assert_eq!(rt;
        wrong_alone(rt.alloc(), multiplied(rt.alloc()), &[], &said),
        Ok(None)
    );
}

/// PROCEDURE P; BEGIN INC(x); P END P; PROCEDURE Show; BEGIN Out.Int(x, 0) END Show; BEGIN P
fn bottomless(alloc: Global) -> Result<Loaded, AllocError> {
    let again = two(
        alloc,
        increase(global(0), constant(1)),
        call(Callee::OfModule(0), 7, none(alloc)),
    );
    let showing = one(alloc, out_int(alloc, read(global(0)), 0));
    let procedures = two(
        alloc,
        procedure(alloc, none(alloc), again),
        procedure(alloc, none(alloc), showing),
    );
    let body = one(alloc, call(Callee::OfModule(0), 8, none(alloc)));
    unit(alloc, one(alloc, basic()), procedures, body)
}

/// Why a body stands with so many turns, once its variables are kept, and whether these commands then write this text.
fn then_written(
    reference: &mut Reference,
    alloc: Global,
    turns: u64,
    commands: &[Command],
    text: &str,
) -> Result<(Outcome, bool), NoAnswer> {
    let ran = reference.run_body(0, Vec::new(alloc), turns)?;
    let outcome = ran.outcome;
    reference.keep(ran);
    let ran = reference.run_commands(commands, Vec::new(alloc), 1_000)?;
    Ok((outcome, ran.outcome == ENDED && ran.output.as_str() == text))
}

fn shown_after(
    alloc: Global,
    module: Result<Loaded, AllocError>,
    turns: u64,
    commands: &[Command],
    text: &str,
) -> Result<(Outcome, bool), NoAnswer> {
    let mut reference = loaded(alloc, alone(alloc, module))?;
    then_written(&mut reference, alloc, turns, commands, text)
}

const SHOW: Command = Command {
    home: 0,
    procedure: 1,
};

#[test]
fn a_thousand_calls_are_open_at_most(rt: HostRuntime) {
    let alloc = rt.alloc();
    let over = trapped(TrapKind::CallDepth, 7);
    assert_eq!(rt;
        shown_after(alloc, bottomless(alloc), 1_000, &[SHOW], "1000"),
        Ok((over, true))
    );
    let stopped = Outcome::Stopped(TurnKind::ProcedureCall);
    assert_eq!(rt;
        shown_after(alloc, bottomless(alloc), 999, &[SHOW, SHOW], "999999"),
        Ok((stopped, true))
    );
}

/// Whether the machine comes to what is said with so many turns.
fn comes_to(
    alloc: Global,
    module: Result<Loaded, AllocError>,
    turns: u64,
    said: Seen<'_>,
) -> Result<bool, NoAnswer> {
    let program = alone(alloc, module)?;
    compiled::comes_to(alloc, &program, &[], &[], turns, said)
}

#[test]
fn a_thousand_calls_are_open_at_most_in_the_machine(rt: HostRuntime) {
    let alloc = rt.alloc();
    let over = trapped(TrapKind::CallDepth, 7);
    assert_eq!(rt;
        comes_to(alloc, bottomless(alloc), 1_000, (over, "", 0)),
        Ok(true)
    );
    assert_eq!(rt;
        comes_to(alloc, bottomless(alloc), 999, (AT_CALL, "", 0)),
        Ok(true)
    );
}

/// A module with a variable v and PROCEDURE Inc; BEGIN INC(v) END Inc.
fn counter(alloc: Global) -> Result<Loaded, AllocError> {
    let body = one(alloc, increase(global(0), constant(1)));
    let procedures = one(alloc, procedure(alloc, none(alloc), body));
    unit(alloc, one(alloc, basic()), procedures, none(alloc))
}

/// N.Inc; Out.Int(N.v, 0)
fn client(alloc: Global) -> Result<Loaded, AllocError> {
    let body = two(
        alloc,
        call(Callee::OfImport(0, 0), 1, none(alloc)),
        out_int(alloc, read(imported(0, 0)), 0),
    );
    importing(alloc, one(alloc, Ok(0)), none(alloc), none(alloc), body)
}

/// What importing modules know of the counter.
fn face(alloc: Global) -> Result<Face, AllocError> {
    let heading = Heading {
        parameters: Items::new(alloc),
        is_function: false,
    };
    Ok(Face {
        variables: one(alloc, Ok(Shape::basic()))?,
        procedures: one(alloc, Ok(heading))?,
    })
}

/// The first wrong number of turns of the second of two modules.
fn wrong_second(
    alloc: Global,
    program: Result<Vec<Loaded>, AllocError>,
    said: &[Seen<'_>],
) -> Result<Option<usize>, NoAnswer> {
    let known = [face(alloc)?];
    wrong_last(alloc, program?, &known, &[], said)
}

#[test]
fn a_module_calls_what_it_imports(rt: HostRuntime) {
    let alloc = rt.alloc();
    let said = [
        (AT_CALL, "", 0),
        (AT_OUTPUT, "", 0),
        (ENDED, "1", 0),
        (ENDED, "1", 1),
    ];
    let program = both(alloc, counter(alloc), client(alloc));
    assert_eq!(rt; wrong_second(alloc, program, &said), Ok(None));
}
