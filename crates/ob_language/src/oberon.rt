//! The language that a kernel runs. Each call of the trait goes to the function of ob_cell or ob_load that does it, as those of
//! test_language go to its own.

use jk_language::{Begun, Language, Refused, Turned};
use ob_cell::Tree;
use ob_load::{Machine, Session};
use std::alloc::{AllocError, Global};

/// Oberon-07 (Wirth, The Programming Language Oberon), with the modules In and Out. A cell is a module, or commands.
#[derive(Debug, Drop)]
pub struct Oberon;

impl Language for Oberon {
    ghost use Rattle.ob_load.specs.MachineState.{state_of};
    ghost use Rattle.ob_cell.specs.Oberon.{spoken_oberon};
    ghost use Rattle.ob_cell.proofs.Lawful.{oberon_lawful};

    type Session = Session;

    type Tree = Tree;

    type Machine = Machine;

    ghost spoken = { spoken_oberon };

    ghost state = { state_of };

    fn opening(alloc: Global) -> Session {
        Session::new(alloc)
    }

    fn parse(alloc: Global, text: &str) -> Result<Tree, Refused> {
        ob_cell::parse(alloc, text)
    }

    fn begin(
        alloc: Global,
        session: Session,
        tree: &Tree,
    ) -> Result<Begun<Session, Machine>, (Session, AllocError)> {
        ob_cell::begin(alloc, session, tree)
    }

    fn turns(machine: &mut Machine, most: u64) -> Turned {
        machine.turns(most)
    }

    fn give_line(machine: &mut Machine, line: Option<&str>) -> Result<(), AllocError> {
        machine.give_line(line)
    }

    fn used(machine: &Machine) -> u64 {
        machine.used()
    }

    fn take_output(machine: &mut Machine) -> String {
        machine.take_output()
    }

    fn finish(machine: Machine) -> Session {
        machine.finish()
    }

    ghost lawful = { oberon_lawful };
}
