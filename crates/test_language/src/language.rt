//! The language of the tests.

ghost use Rattle.std.specs.Prelude.{◌≡◌, ◌==◌, ◌&&◌};
ghost use Rattle.test_meaning.specs.Texts.{begins_with};

use crate::machine::Machine;
use jk_language::{Begun, Fault, Language, LinkFault, Name, Refusal, Refused, Turned};
use std::alloc::{AllocError, Global};
use test_meaning::{Text, begins_with};

/// The language of the tests. The README of its crate says what a text does.
#[derive(Debug, Drop)]
pub struct TestLanguage;

impl Language for TestLanguage {
    ghost use Rattle.test_meaning.specs.Texts.{spoken_texts};
    ghost use Rattle.test_meaning.proofs.Laws.{texts_language};
    ghost use Rattle.test_language.specs.States.{machine_state};

    type Session = u8;

    type Tree = Text;

    type Machine = Machine;

    ghost spoken = { spoken_texts };

    ghost state = { machine_state };

    fn opening(alloc: Global) -> u8 {
        let _ = alloc;
        0
    }

    fn parse(alloc: Global, text: &str) -> Result<Text, Refused> {
        let bytes = text.as_bytes();
        if begins_with(bytes, b'#') {
            return Err(Refused::Fault(Fault {
                number: 5,
                line: 1,
                column: 1,
                at_end: bytes.len() == 1,
            }));
        }
        match Text::from_slice(alloc, bytes) {
            Ok(text) => Ok(text),
            Err(_) => Err(Refused::Memory),
        }
    }

    fn begin(
        alloc: Global,
        session: u8,
        tree: &Text,
    ) -> Result<Begun<u8, Machine>, (u8, AllocError)> {
        if is_missing(tree.as_slice(), session) {
            return match Name::from_slice(alloc, b"M") {
                Ok(name) => Ok(Begun::Refused(session, Refusal::Link(LinkFault::NotLoaded(name)))),
                Err(error) => Err((session, error)),
            };
        }
        match Text::from_slice(alloc, tree.as_slice()) {
            Ok(text) => Ok(Begun::Runs(Machine::new(alloc, session, text))),
            Err(error) => Err((session, error)),
        }
    }

    fn turns(machine: &mut Machine, most: u64) -> Turned {
        machine.turns(most)
    }

    fn give_line(machine: &mut Machine, line: Option<&str>) -> Result<(), AllocError> {
        machine.give_line(line)
    }

    fn used(machine: &Machine) -> u64 {
        machine.used()
    }

    fn take_output(machine: &mut Machine) -> String {
        machine.take_output()
    }

    fn finish(machine: Machine) -> u8 {
        machine.finish()
    }

    ghost lawful = { texts_language };
}

/// Whether a text needs a module that is not there.
fn is_missing(bytes: &[u8], session: u8) -> bool
    ensures { result ≡ (begins_with 64 bytes.now && session == 0) }
{
    begins_with(bytes, b'@') && session == 0
}
