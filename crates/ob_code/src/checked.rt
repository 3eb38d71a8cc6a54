//! Code of whose operands and names enough is known.

ghost use Rattle.std.specs.Prelude.{◌≡◌};
ghost use Rattle.ob_code.specs.Kinds.{IsMeasured};
ghost use Rattle.ob_code.specs.Stuck.{RunsSafely};

use crate::instr::CodeModule;
use std::marker::Model;

/// Code that never misses an operand or a name, never leads out of its lines, and takes no cells but those of the objects that
/// it names, wherever it is linked among such modules.
#[derive(Drop)]
pub struct Checked {
    code: CodeModule,
}

impl Model for Checked {
    ghost use Rattle.ob_code.specs.Kinds.{IsMeasured};
    ghost use Rattle.ob_code.specs.declared.instr.CodeModule.{CodeModule};

    ghost Value = { CodeModule };

    ghost view = { λ c. c.code };

    ghost invariant = { λ c. IsMeasured c.code };
}

impl Checked {
    /// Code of whose operands and names enough is known by its making.
    pub fn new(code: CodeModule) -> Checked
        requires { IsMeasured code }
        ensures { result ≡ code }
    {
        Checked { code }
    }

    /// The code itself.
    #[tactic(auto, using(crate::proofs::machine::Never::runs_safely))]
    pub fn code(&self) -> &CodeModule
        ensures value { result.now ≡ self.now }
        ensures measured { IsMeasured result.now }
        ensures runs { RunsSafely result.now }
    {
        &self.code
    }

    /// The code, which goes into a linked module.
    #[tactic(auto, using(crate::proofs::machine::Never::runs_safely))]
    pub fn into_code(self) -> CodeModule
        ensures value { result ≡ self }
        ensures measured { IsMeasured result }
        ensures runs { RunsSafely result }
    {
        self.code
    }
}
