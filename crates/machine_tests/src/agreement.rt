//! Programs from texts: the plain evaluator and the machine agree on each, with each number of turns and in slices of each size.

mod programs;

use crate::compiled;
use crate::reference::given;
use ob_base::{Items, Text};
use ob_check_module::{Imported, check};
use ob_check_scope::Imports;
use ob_compile::faces_of;
use ob_mean::{Face, Loaded};
use ob_parse::parse_text;
use ob_reference::Reference;
use ob_reference_store::stop::NoAnswer;
use ob_tree::tree::{Cell, Module};
use std::alloc::{AllocError, Global};
use std::process::Abort;
use std::test::Fail;

/// Modules in the order in which they were loaded, and what the last one knows of those that it imports.
#[derive(Drop)]
struct Program {
    modules: Vec<Loaded>,
    known: Vec<Face>,
}

/// The number of a loaded module, or how many there are.
fn number_of(imports: &Imports, name: &Text) -> usize {
    for (number, module) in imports.modules().iter().enumerate() {
        if module.interface().name().same(name) {
            return number;
        }
    }
    imports.modules().len()
}

fn numbers_of(
    alloc: Global,
    imports: &Imports,
    imported: &[Imported],
) -> Result<Items<usize>, AllocError> {
    let mut numbers = Items::new(alloc);
    for import in imported {
        numbers.push(number_of(imports, &import.name))?;
    }
    Ok(numbers)
}

/// A module more, which has to be well typed.
fn add(
    alloc: Global,
    imports: &mut Imports,
    program: &mut Program,
    module: &Module,
) -> Result<(), Fail> {
    let checked = check(alloc, module, imports)?;
    program.known = faces_of(alloc, imports, checked.imports())?;
    let numbers = numbers_of(alloc, imports, checked.imports())?;
    imports.add(checked.interface(), &[])?;
    let (tree, _, _) = checked.into_parts();
    program.modules.push(Loaded {
        tree,
        imports: numbers,
    })?;
    Ok(())
}

/// The program of modules of these texts.
fn program_of(alloc: Global, texts: &[&str]) -> Result<Program, Fail> {
    let mut imports = Imports::empty(alloc);
    let mut program = Program {
        modules: Vec::new(alloc),
        known: Vec::new(alloc),
    };
    for text in texts {
        match parse_text(alloc, *text)? {
            Cell::Module(module) => add(alloc, &mut imports, &mut program, &module)?,
            Cell::Commands(_) => return Err("commands".into()),
        }
    }
    Ok(program)
}

/// Whether the machine comes with so many turns to what the evaluator says.
fn is_agreed(
    alloc: Global,
    program: &Program,
    reference: &Reference,
    lines: &[&str],
    turns: u64,
) -> Result<bool, NoAnswer> {
    let home = program.modules.len().saturating_sub(1);
    let ran = reference.run_body(home, given(alloc, lines)?, turns)?;
    let said = (ran.outcome, ran.output.as_str(), ran.turns);
    compiled::comes_to(alloc, &program.modules, &program.known, lines, turns, said)
}

/// Up to how many turns each number is tried.
const EACH: u64 = 40;

/// Numbers of turns that are tried too. Few programs use up the last one.
const MORE: [u64; 2] = [100, 2_000];

/// The first number of turns with which evaluator and machine do not agree on the body of the last module.
fn first_apart(alloc: Global, texts: &[&str], lines: &[&str]) -> Result<Option<u64>, Fail> {
    let program = program_of(alloc, texts)?;
    let reference = Reference::new(alloc, program_of(alloc, texts)?.modules)?;
    for turns in 0..=EACH {
        if !is_agreed(alloc, &program, &reference, lines, turns)? {
            return Ok(Some(turns));
        }
    }
    for turns in MORE {
        if !is_agreed(alloc, &program, &reference, lines, turns)? {
            return Ok(Some(turns));
        }
    }
    Ok(None)
}

/// Evaluator and machine agree on programs of one module that read nothing.
fn assert_agreed<R: AllocGlobal + Abort>(rt: &R, texts: &[&str]) -> Result<(), Fail> {
    for text in texts {
        assert_eq!(rt; first_apart(rt.alloc(), &[*text], &[])?, None, "{text}");
    }
    Ok(())
}

#[test]
fn arithmetic(rt: HostRuntime) -> Result<(), Fail> {
    assert_agreed(&rt, &programs::ARITHMETIC)
}

#[test]
fn control(rt: HostRuntime) -> Result<(), Fail> {
    assert_agreed(&rt, &programs::CONTROL)
}

#[test]
fn data(rt: HostRuntime) -> Result<(), Fail> {
    assert_agreed(&rt, &programs::DATA)
}

#[test]
fn extensions(rt: HostRuntime) -> Result<(), Fail> {
    assert_agreed(&rt, &programs::EXTENSIONS)
}

#[test]
fn calls(rt: HostRuntime) -> Result<(), Fail> {
    assert_agreed(&rt, &programs::CALLS)
}

#[test]
fn names(rt: HostRuntime) -> Result<(), Fail> {
    assert_agreed(&rt, &programs::NAMES)
}

#[test]
fn traps(rt: HostRuntime) -> Result<(), Fail> {
    assert_agreed(&rt, &programs::TRAPS)
}

#[test]
fn reads(rt: HostRuntime) -> Result<(), Fail> {
    for (text, lines) in programs::READS {
        assert_eq!(rt; first_apart(rt.alloc(), &[text], lines)?, None, "{text}");
    }
    Ok(())
}

#[test]
fn imports(rt: HostRuntime) -> Result<(), Fail> {
    for text in programs::IMPORTS {
        let texts = [programs::IMPORTED, text];
        assert_eq!(rt; first_apart(rt.alloc(), &texts, &[])?, None, "{text}");
    }
    Ok(())
}
