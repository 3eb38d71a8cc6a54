//! Checked modules and the size of their code.

ghost use Rattle.ob_check_laws.specs.Solid.{EachSolid};

use ob_base::Refused;
use ob_check_module::check;
use ob_check_scope::Imports;
use ob_code::checked::Checked;
use ob_compile::{compile, face_of, faces_of};
use ob_image::copy_face;
use ob_mean::Face;
use ob_parse::parse_text;
use ob_tree::tree::{Cell, Module};
use std::alloc::{AllocError, Global};
use std::test::Fail;

// ---- from a text to code

/// The code of a module over these.
#[tactic(auto, using(ob_compile::proofs::Checked::each_compilable))]
fn code_over(alloc: Global, imports: &Imports, module: &Module) -> Result<Checked, Refused>
    requires { EachSolid imports.now }
{
    let checked = check(alloc, module, imports)?;
    let faces = faces_of(alloc, imports, checked.imports())?;
    Ok(compile(alloc, faces.as_slice(), checked.tree())?)
}

/// The code of a module that imports another, or nothing of it.
#[tactic(auto, using(ob_compile::proofs::Checked::each_compilable, ob_compile::proofs::Solid::stays_solid))]
fn code_behind(alloc: Global, first: &Module, second: &Module) -> Result<Checked, Refused> {
    let mut imports = Imports::empty(alloc);
    let checked = check(alloc, first, &imports)?;
    imports.add(checked.interface(), &[])?;
    code_over(alloc, &imports, second)
}

/// How many cells and procedures the code of a module has, and how many imports it knows.
fn counts(code: &Checked) -> (usize, usize, usize) {
    let code = code.code();
    (code.cells, code.procedures.len(), code.imports.len())
}

fn counts_behind(
    alloc: Global,
    first: &str,
    second: &str,
) -> Result<(usize, usize, usize), Refused> {
    match (parse_text(alloc, first)?, parse_text(alloc, second)?) {
        (Cell::Module(first), Cell::Module(second)) => {
            Ok(counts(&code_behind(alloc, &first, &second)?))
        }
        _ => Ok((0, 0, 0)),
    }
}

const A: &str =
    "MODULE A; TYPE R* = RECORD i, j*: INTEGER END; VAR x*: INTEGER; r*: R; y: INTEGER; PROCEDURE P*(VAR a: ARRAY OF CHAR; i: INTEGER); BEGIN a[i] := \"x\" END P; PROCEDURE Q; END Q; PROCEDURE F*(): INTEGER; RETURN x END F; END A.";

#[test]
fn a_module_is_compiled_over_another(rt: HostRuntime) -> Result<(), Fail> {
    let second =
        "MODULE B; IMPORT A; VAR s: ARRAY 3 OF CHAR; i: INTEGER; PROCEDURE P; END P; BEGIN A.P(s, A.x); i := A.F() + A.r.j END B.";
    assert_eq!(rt; counts_behind(rt.alloc(), A, second)?, (4, 2, 1));
    let named =
        "MODULE B; IMPORT X := A, O := Out, A, Y := A; VAR s: ARRAY 3 OF CHAR; i: INTEGER; PROCEDURE P; END P; BEGIN X.P(s, A.x); i := Y.F() + A.r.j END B.";
    assert_eq!(rt; counts_behind(rt.alloc(), A, named)?, (4, 2, 1));
    assert_eq!(rt;
        counts_behind(
            rt.alloc(),
            A,
            "MODULE C; VAR i: INTEGER; BEGIN i := 1 END C."
        )?,
        (1, 1, 0)
    );
    assert_eq!(rt; counts_behind(rt.alloc(), A, A)?, (4, 4, 0));
    Ok(())
}

// ---- strings

/// A module that passes so many strings to an array of 65,536 characters, all of them equal or each another.
fn passing(alloc: Global, count: u32, equal: bool) -> Result<String, AllocError> {
    let mut text = String::new(alloc);
    text.push_str("MODULE A; TYPE T = ARRAY 65536 OF CHAR; PROCEDURE P(a: T); END P; BEGIN ")?;
    for i in 0..count {
        let which = if equal { 0 } else { i };
        text.push_str(format!(in alloc; "P(\"{which}\"); ")?.as_str())?;
    }
    text.push_str("END A.")?;
    Ok(text)
}

/// How many cells its code has.
fn cells_passing(alloc: Global, count: u32, equal: bool) -> Result<usize, Refused> {
    let text = passing(alloc, count, equal)?;
    match parse_text(alloc, text.as_str())? {
        Cell::Module(module) => {
            let code = code_over(alloc, &Imports::empty(alloc), &module)?;
            Ok(code.code().cells)
        }
        Cell::Commands(_) => Err(Refused::Memory),
    }
}

#[test]
fn equal_strings_are_one_variable(rt: HostRuntime) -> Result<(), Fail> {
    assert_eq!(rt; cells_passing(rt.alloc(), 3, true)?, 65536);
    assert_eq!(rt; cells_passing(rt.alloc(), 3, false)?, 196608);
    Ok(())
}

#[test]
fn strings_of_more_than_two_to_the_31_cells_together_compile(rt: HostRuntime) -> Result<(), Fail> {
    assert_eq!(rt; cells_passing(rt.alloc(), 32769, false)?, 2147549184);
    Ok(())
}

// ---- faces

/// The face of a module of this text.
fn face(alloc: Global, text: &str) -> Result<Face, Refused> {
    match parse_text(alloc, text)? {
        Cell::Module(module) => {
            let checked = check(alloc, &module, &Imports::empty(alloc))?;
            Ok(face_of(alloc, checked.interface())?)
        }
        Cell::Commands(_) => Err(Refused::Memory),
    }
}

/// How many variables and procedures a face has, and how many parameters the first procedure.
fn sizes(face: &Face) -> (usize, usize, usize) {
    let parameters = match face.procedures.as_slice().get(0) {
        Some(heading) => heading.parameters.len(),
        None => 0,
    };
    (face.variables.len(), face.procedures.len(), parameters)
}

#[test]
fn a_face_has_what_is_exported(rt: HostRuntime) -> Result<(), Fail> {
    let known = face(rt.alloc(), A)?;
    assert_eq!(rt; sizes(&known), (2, 2, 2));
    assert_eq!(rt; sizes(&copy_face(rt.alloc(), &known)?), (2, 2, 2));
    assert_eq!(rt;
        sizes(&face(rt.alloc(), "MODULE A; VAR x: INTEGER; END A.")?),
        (0, 0, 0)
    );
    Ok(())
}
