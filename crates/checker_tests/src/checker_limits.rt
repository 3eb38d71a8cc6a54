//! Limits of nesting and of sizes in the checker.

use ob_base::{Boxed, Code, Items, Refused, Text};
use ob_check_module::check;
use ob_check_scope::Imports;
use ob_parse::parse_text;
use ob_scan::Span;
use ob_tree::tree::{
    Cell, ConstDeclaration, Declarations, Expr, Factor, Ident, IdentDef, Module, Simple, Term,
};
use std::alloc::{AllocError, Global};
use std::test::Fail;

/// The code of a module over no loaded ones. None where it is well typed.
fn code_of(alloc: Global, module: &Module) -> Option<Code> {
    match check(alloc, module, &Imports::empty(alloc)) {
        Err(Refused::Fault(fault)) => Some(fault.code),
        _ => None,
    }
}

fn refusal_of(refused: Refused) -> Option<Code> {
    match refused {
        Refused::Fault(fault) => Some(fault.code),
        Refused::Memory => None,
    }
}

/// The code of a text that is refused by the grammar or by the rules.
fn text_code(alloc: Global, text: &str) -> Option<Code> {
    match parse_text(alloc, text) {
        Ok(Cell::Module(module)) => code_of(alloc, &module),
        Ok(Cell::Commands(_)) => Some(Code::Token),
        Err(refused) => refusal_of(refused),
    }
}

/// Procedures whose formals are open arrays.
const OPEN_ARRAYS: &str =
    "TYPE Row = ARRAY 3 OF INTEGER; VAR i: INTEGER; a: ARRAY 3 OF INTEGER; b: ARRAY 2, 3 OF INTEGER; c: ARRAY 2, 3 OF CHAR; PROCEDURE One(v: ARRAY OF INTEGER); END One; PROCEDURE Written(VAR v: ARRAY OF INTEGER); END Written; PROCEDURE Fixed(v: ARRAY OF Row); END Fixed; PROCEDURE Two(v: ARRAY OF ARRAY OF INTEGER); END Two; PROCEDURE Texts(v: ARRAY OF ARRAY OF CHAR); END Texts;";

/// The code of these statements in a procedure whose value parameter `v` and VAR parameter `w` are open arrays of open arrays.
fn inside_code(alloc: Global, body: &str) -> Result<Option<Code>, AllocError> {
    let text = format!(in alloc;
        "MODULE A; {OPEN_ARRAYS} PROCEDURE P(v: ARRAY OF ARRAY OF INTEGER; VAR w: ARRAY OF ARRAY OF INTEGER); BEGIN {body} END P; END A."
    )?;
    Ok(text_code(alloc, text.as_str()))
}

#[test]
fn open_arrays_of_open_arrays(rt: HostRuntime) -> Result<(), Fail> {
    for (body, code) in [
        ("i := v[1][2] + v[1, 2] + LEN(v) + LEN(v[0])", None),
        ("w[1, 2] := v[0, 0]; INC(w[0][i])", None),
        ("P(v, w); P(w, w); Two(v); Two(w)", None),
        (
            "One(v[0]); One(w[i]); Written(w[0]); One(a); One(b[1])",
            None,
        ),
        ("Fixed(b)", None),
        ("Two(b)", Some(Code::Parameters)),
        ("Two(a)", Some(Code::Parameters)),
        ("P(b, w)", Some(Code::Parameters)),
        ("P(v, b)", Some(Code::Parameters)),
        ("P(v, v)", Some(Code::ReadOnly)),
        ("Two((v))", Some(Code::Parameters)),
        ("Two(v[0])", Some(Code::Parameters)),
        ("One(v)", Some(Code::Parameters)),
        ("Fixed(v)", Some(Code::Parameters)),
        ("Written(v[0])", Some(Code::ReadOnly)),
        ("Texts(c)", Some(Code::Parameters)),
        ("Texts(\"ab\")", Some(Code::Parameters)),
        ("v[1, 2] := 0", Some(Code::ReadOnly)),
        ("w := v", Some(Code::LeftOut)),
        ("w[0] := v[0]", Some(Code::LeftOut)),
        ("w[0] := a", Some(Code::LeftOut)),
        ("i := v[0]", Some(Code::Types)),
        ("i := v[0, 0, 0]", Some(Code::Types)),
    ] {
        assert_eq!(rt; inside_code(rt.alloc(), body)?, code, "{body}");
    }
    Ok(())
}

/// What stands before and after so many nested parentheses round 1.
fn enclosed(alloc: Global, before: &str, depth: usize, behind: &str) -> Result<String, AllocError> {
    let mut text = String::new(alloc);
    text.push_str(before)?;
    for _ in 0..depth {
        text.push('(')?;
    }
    text.push('1')?;
    for _ in 0..depth {
        text.push(')')?;
    }
    text.push_str(behind)?;
    Ok(text)
}

/// The code of a module with so many nested parentheses.
fn enclosed_code(
    alloc: Global,
    before: &str,
    depth: usize,
    behind: &str,
) -> Result<Option<Code>, AllocError> {
    let text = enclosed(alloc, before, depth, behind)?;
    Ok(text_code(alloc, text.as_str()))
}

/// A list of statements, a procedure and an ARRAY nest too.
#[test]
fn parentheses_at_the_limit(rt: HostRuntime) -> Result<(), Fail> {
    for (before, behind, most) in [
        ("MODULE A; CONST c = ", "; END A.", 200usize),
        ("MODULE A; VAR a: ARRAY ", " OF INTEGER; END A.", 199),
        ("MODULE A; VAR x: INTEGER; BEGIN x := ", " END A.", 199),
        (
            "MODULE A; VAR x: INTEGER; PROCEDURE P; BEGIN x := ",
            " END P; END A.",
            198,
        ),
    ] {
        let accepted = enclosed_code(rt.alloc(), before, most, behind)?;
        assert_eq!(rt; accepted, None, "{before}");
        let refused = enclosed_code(rt.alloc(), before, most.saturating_add(1), behind)?;
        assert_eq!(rt; refused, Some(Code::Nesting), "{before}");
    }
    Ok(())
}

const SOMEWHERE: Span = Span {
    start: 0,
    end: 0,
    line: 1,
    column: 1,
};

fn expression_of(alloc: Global, factor: Factor) -> Expr {
    Expr {
        left: Simple {
            sign: None,
            first: Term {
                first: factor,
                others: Items::new(alloc),
            },
            others: Items::new(alloc),
        },
        right: None,
    }
}

/// 1 in so many parentheses.
fn parentheses(alloc: Global, depth: usize) -> Result<Expr, AllocError> {
    let mut expression = expression_of(alloc, Factor::Integer(1, SOMEWHERE));
    for _ in 0..depth {
        let inside = Boxed::new(alloc, expression)?;
        expression = expression_of(alloc, Factor::Parens(SOMEWHERE, inside));
    }
    Ok(expression)
}

fn name(alloc: Global, chars: &[u8]) -> Result<Ident, AllocError> {
    Ok(Ident {
        name: Text::from_slice(alloc, chars)?,
        span: SOMEWHERE,
    })
}

fn constant_of(alloc: Global, value: Expr) -> Result<ConstDeclaration, AllocError> {
    Ok(ConstDeclaration {
        name: IdentDef {
            name: name(alloc, b"c")?,
            mark: None,
        },
        value: Boxed::new(alloc, value)?,
    })
}

/// A module with one constant.
fn module_of(alloc: Global, constant: ConstDeclaration) -> Result<Module, AllocError> {
    let mut constants = Items::new(alloc);
    constants.push(constant)?;
    let declarations = Declarations {
        constants,
        types: Items::new(alloc),
        variables: Items::new(alloc),
        procedures: Items::new(alloc),
    };
    Ok(Module {
        name: name(alloc, b"A")?,
        imports: Items::new(alloc),
        declarations: Boxed::new(alloc, declarations)?,
        body: Items::new(alloc),
    })
}

/// The code of a tree with a constant in so many parentheses.
fn tree_code(alloc: Global, depth: usize) -> Result<Option<Code>, AllocError> {
    let constant = constant_of(alloc, parentheses(alloc, depth)?)?;
    let module = module_of(alloc, constant)?;
    Ok(code_of(alloc, &module))
}

/// No text has such a tree.
#[test]
fn a_tree_that_nests_deeper_has_no_size(rt: HostRuntime) -> Result<(), Fail> {
    assert_eq!(rt; tree_code(rt.alloc(), 200)?, None);
    assert_eq!(rt; tree_code(rt.alloc(), 201)?, Some(Code::Size));
    Ok(())
}
