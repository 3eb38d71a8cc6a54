//! The texts of errors.

ghost use Rattle.std.specs.Prelude.{◌≡◌, IfOk, flat_map, string_bytes};
ghost use Rattle.std.specs.Char.{encode_utf8};
ghost use Rattle.jk_log.specs.Failures.{compile_failure, link_value, link_failure, refusal_failure, trap_failure, cause_failure};

use crate::mark::Cause;
use jk_language::{Fault, LinkFault, Refusal, Trap};
use jp_msg::Failure;
use json_form::Text;
use std::alloc::{AllocError, Global};

/// The error of a cell that does not run.
pub(crate) fn of_refusal(alloc: Global, refusal: &Refusal) -> Result<Failure, AllocError>
    ensures { IfOk result (λ failure. failure ≡ refusal_failure refusal.now) }
{
    match refusal {
        Refusal::Compile(fault) => of_fault(alloc, fault),
        Refusal::Link(fault) => of_link(alloc, fault),
    }
}

/// The error of a cell that does not link.
fn of_link(alloc: Global, fault: &LinkFault) -> Result<Failure, AllocError>
    ensures { IfOk result (λ failure. failure ≡ link_failure fault.now) }
{
    let evalue = link_text(alloc, fault)?;
    Ok(Failure {
        ename: Text::from_str(alloc, "LinkError")?,
        evalue,
    })
}

#[tactic(auto, unfolding(crate::specs::Failures::link_value))]
fn link_text(alloc: Global, fault: &LinkFault) -> Result<Text, AllocError>
    ensures { IfOk result (λ text. text ≡ link_value fault.now) }
{
    match fault {
        LinkFault::NotLoaded(home) => {
            let home = latin_text(alloc, home.as_slice())?;
            let text = format!(in alloc; "link error 30: {home}")?;
            Ok(Text::from_string(text))
        }
        LinkFault::NoCommand(home, name) => {
            let home = latin_text(alloc, home.as_slice())?;
            let name = latin_text(alloc, name.as_slice())?;
            let text = format!(in alloc; "link error 31: {home}.{name}")?;
            Ok(Text::from_string(text))
        }
        LinkFault::OtherKey(home) => {
            let home = latin_text(alloc, home.as_slice())?;
            let text = format!(in alloc; "link error 32: {home}")?;
            Ok(Text::from_string(text))
        }
    }
}

/// The error of a text that was refused.
#[tactic(auto, unfolding(crate::specs::Failures::compile_failure))]
fn of_fault(alloc: Global, fault: &Fault) -> Result<Failure, AllocError>
    ensures { IfOk result (λ failure. failure ≡ compile_failure fault.now) }
{
    let number = fault.number;
    let line = fault.line;
    let column = fault.column;
    let evalue = format!(in alloc; "compile error {number} at {line}:{column}")?;
    Ok(Failure {
        ename: Text::from_str(alloc, "CompileError")?,
        evalue: Text::from_string(evalue),
    })
}

/// The error of a cell that was cut off.
#[tactic(auto, unfolding(crate::specs::Failures::trap_failure))]
pub(crate) fn of_trap(alloc: Global, trap: &Trap) -> Result<Failure, AllocError>
    ensures { IfOk result (λ failure. failure ≡ trap_failure trap.now) }
{
    let number = trap.number;
    let name = latin_text(alloc, trap.module.as_slice())?;
    let line = trap.line;
    let evalue = format!(in alloc; "trap {number} in {name}, line {line}")?;
    Ok(Failure {
        ename: Text::from_str(alloc, "Trap")?,
        evalue: Text::from_string(evalue),
    })
}

/// The error of a cell that was stopped.
#[tactic(auto, unfolding(crate::specs::Failures::cause_failure))]
pub(crate) fn of_cause(alloc: Global, cause: Cause) -> Result<Failure, AllocError>
    ensures { IfOk result (λ failure. failure ≡ cause_failure cause) }
{
    match cause {
        Cause::Memory => Failure::new(alloc, "Memory", ""),
        Cause::Interrupted => Failure::new(alloc, "Interrupted", ""),
        Cause::Restarted => Failure::new(alloc, "Restarted", ""),
    }
}

/// The text of characters up to U+00FF.
fn latin_text(alloc: Global, chars: &[u8]) -> Result<String, AllocError>
    ensures { IfOk result (λ text. string_bytes text ≡ flat_map encode_utf8 chars.now) }
{
    let mut text = String::new(alloc);
    for letter in chars {
        text.push(*letter as char)?;
    }
    Ok(text)
}
