//! The keys of interfaces: the texts that a module which imports them keeps. They were worked out by hand. What a module shows that
//! extends no record has the text that it had before records could be extended.

use ob_base::Refused;
use ob_check_module::check;
use ob_check_scope::Imports;
use ob_parse::parse_text;
use ob_tree::tree::{Cell, Module};
use ob_types::interface_text;
use std::alloc::Global;
use std::test::Fail;

fn key_is(alloc: Global, imports: &Imports, module: &Module, key: &str) -> Result<bool, Refused> {
    let checked = check(alloc, module, imports)?;
    let text = interface_text(alloc, checked.interface())?;
    Ok(text.as_str() == key)
}

/// Whether a module that imports no other has this key.
fn has_key(alloc: Global, text: &str, key: &str) -> Result<bool, Refused> {
    match parse_text(alloc, text)? {
        Cell::Module(module) => key_is(alloc, &Imports::empty(alloc), &module, key),
        Cell::Commands(_) => Ok(false),
    }
}

/// Whether a module that imports this one has this key.
fn has_key_over(alloc: Global, first: &str, text: &str, key: &str) -> Result<bool, Refused> {
    match (parse_text(alloc, first)?, parse_text(alloc, text)?) {
        (Cell::Module(first), Cell::Module(module)) => {
            let mut imports = Imports::empty(alloc);
            let checked = check(alloc, &first, &imports)?;
            imports.add(checked.interface(), &[])?;
            key_is(alloc, &imports, &module, key)
        }
        _ => Ok(false),
    }
}

const ENDLESS: &str =
    "MODULE Endless; IMPORT Out; VAR i: INTEGER; PROCEDURE Show*; BEGIN Out.Int(i, 0); Out.Ln END Show; BEGIN WHILE TRUE DO INC(i) END END Endless.";

const FIBONACCI: &str =
    "MODULE Fibonacci; IMPORT Out; PROCEDURE Fib*(n: INTEGER): INTEGER; VAR f: INTEGER; BEGIN IF n < 2 THEN f := n ELSE f := Fib(n - 1) + Fib(n - 2) END RETURN f END Fib; PROCEDURE Show*; VAR i: INTEGER; BEGIN FOR i := 0 TO 10 DO Out.Int(Fib(i), 4) END; Out.Ln END Show; BEGIN Show END Fibonacci.";

const STACK: &str =
    "MODULE Stack; CONST size = 8; VAR items: ARRAY size OF INTEGER; count*: INTEGER; PROCEDURE Push*(x: INTEGER); BEGIN items[count] := x; INC(count) END Push; PROCEDURE Pop*(VAR x: INTEGER); BEGIN ASSERT(count > 0); DEC(count); x := items[count] END Pop; END Stack.";

const REVERSE: &str =
    "MODULE Reverse; IMPORT Stack, Out; VAR i, x: INTEGER; PROCEDURE Underflow*; VAR y: INTEGER; BEGIN Stack.Pop(y) END Underflow; BEGIN FOR i := 1 TO 5 DO Stack.Push(i * i) END; WHILE Stack.count > 0 DO Stack.Pop(x); Out.Int(x, 4) END; Out.Ln END Reverse.";

#[test]
fn keys_of_the_examples(rt: HostRuntime) -> Result<(), Fail> {
    let alloc = rt.alloc();
    assert!(rt; has_key(alloc, ENDLESS, "module Endless\nproc Show()\n")?);
    assert!(rt;
        has_key(
            alloc,
            FIBONACCI,
            "module Fibonacci\nproc Fib(pI;):I\nproc Show()\n"
        )?
    );
    assert!(rt;
        has_key(
            alloc,
            STACK,
            "module Stack\nvar count I\nproc Push(pI;)\nproc Pop(vI;)\n"
        )?
    );
    assert!(rt; has_key_over(alloc, STACK, REVERSE, "module Reverse\nproc Underflow()\n")?);
    Ok(())
}

/// Records, arrays and constants.
#[test]
fn keys_of_records_without_a_base(rt: HostRuntime) -> Result<(), Fail> {
    let alloc = rt.alloc();
    let text =
        "MODULE A; CONST n* = 3; s* = \"ab\"; TYPE T* = RECORD a*, b: ARRAY n OF CHAR; c*: RECORD d: BYTE END END; VAR t*: T; u*: ARRAY 2 OF T; PROCEDURE P*(VAR r: T; q: ARRAY OF BOOLEAN); END P; END A.";
    let key =
        "module A\nconst n I 3\nconst s S 6162\ntype T RA.T.0(a*:A3 C;b:A3 C;c*:RA.T.1(d:Y;);)\nvar t RA.T.0(a*:A3 C;b:A3 C;c*:RA.T.1(d:Y;);)\nvar u A2 RA.T.0(a*:A3 C;b:A3 C;c*:RA.T.1(d:Y;);)\nproc P(vRA.T.0(a*:A3 C;b:A3 C;c*:RA.T.1(d:Y;););pOB;)\n";
    assert!(rt; has_key(alloc, text, key)?);
    let extension =
        "MODULE A; TYPE T* = RECORD a*: INTEGER END; U* = RECORD (T) b: CHAR END; END A.";
    let key = "module A\ntype T RA.T.0(a*:I;)\ntype U RA.U.0(^RA.T.0(a*:I;);b:C;)\n";
    assert!(rt; has_key(alloc, extension, key)?);
    Ok(())
}
