//! A language.

ghost use Rattle.std.specs.Prelude.{◌≡◌, ℕ, List, true, false, None, ◌+◌, ◌<◌, ◌^◌, IfOk, IfErr, IsOk, OnOk, OnErr, option_copied, string_bytes};
ghost use Rattle.jk_language.specs.Spoken.{Spoken, IsLanguage, IsRefusal};
ghost use Rattle.jk_language.specs.Unread.{IsUnread};
ghost use Rattle.jk_language.specs.MachineState.{MachineState, here};
ghost use Rattle.jk_language.specs.Beginning.{HasBegun};
ghost use Rattle.jk_language.specs.Runs.{HasTurned, unshown, output_taken, line_given};

use crate::outcome::{Refusal, Refused, Turned};
use std::alloc::{AllocError, Global};

/// What comes of beginning a cell.
#[derive(Drop)]
pub enum Begun<S, M> {
    Runs(M),
    /// The text breaks a rule of the language, or a command of it can't be called. The session is handed back.
    Refused(S, Refusal),
}

/// A language whose cells run in turns.
pub trait Language {
    /// What the cells of a kernel hand from each to the next.
    type Session: Drop;

    /// A text that was read.
    type Tree: Drop;

    /// A cell that runs.
    type Machine: Drop;

    /// The meaning of texts.
    ghost spoken: { Spoken Self.Session Self.Tree };

    /// What a machine stands at.
    ghost state: { Self.Machine → MachineState Self.Session };

    /// The session before the first cell.
    fn opening(alloc: Global) -> Self::Session
        ensures { result ≡ spoken.opening };

    /// Reads a text. It is refused by a fault that it has in every session, and only where it has no tree, or for lack of
    /// memory.
    fn parse(alloc: Global, text: &str) -> Result<Self::Tree, Refused>
        ensures found { IfOk result (λ tree. spoken.IsTree text.now tree) }
        ensures faults { IfErr result (λ refused. (session : Self.Session) → IsRefusal spoken session text.now refused) }
        ensures unread { IfErr result (λ refused. IsUnread spoken text.now refused) };

    /// A machine before the first turn of a cell, or why the cell is refused. Where memory is wanting, the session
    /// is handed back.
    fn begin(
        alloc: Global,
        session: Self::Session,
        tree: &Self::Tree,
    ) -> Result<Begun<Self::Session, Self::Machine>, (Self::Session, AllocError)>
        ensures begun { IfOk result (λ begun. (text : List ℕ) → spoken.IsTree text tree.now → HasBegun spoken state session text begun) }
        ensures back { IfErr result (λ back. back.0 ≡ session) };

    /// Goes on by at most `most` turns. Where memory is refused it stands before the turn that wanted it, and a later
    /// call goes on there. After `Ended` and `Trapped` it is not called again; after `NeedsLine` it answers that again
    /// until it is given a line.
    fn turns(machine: &mut Self::Machine, most: u64) -> Turned
        requires on { (state machine.old).over ≡ false }
        requires few { (state machine.old).turns + most < 2 ^ 64 }
        ensures { HasTurned (state machine.old) most result (state machine.new) };

    /// Gives the line that was asked for, or tells that there is none, which takes no memory.
    ///
    /// # Errors
    ///
    /// Lack of memory, and then nothing has changed.
    fn give_line(machine: &mut Self::Machine, line: Option<&str>) -> Result<(), AllocError>
        requires asked { (state machine.old).asks ≡ true }
        ensures ok { OnOk result (state machine.new ≡ line_given (option_copied line.entry) (state machine.old)) }
        ensures err { OnErr result (state machine.new ≡ state machine.old) }
        ensures none { option_copied line.entry ≡ None → IsOk result };

    /// The turns so far.
    fn used(machine: &Self::Machine) -> u64
        ensures { result ≡ (state machine.now).turns };

    /// The output since it was taken last. It takes no memory.
    fn take_output(machine: &mut Self::Machine) -> String
        ensures output { string_bytes result ≡ unshown (state machine.old) }
        ensures after { state machine.new ≡ output_taken (state machine.old) };

    /// The session as the cell has left it.
    fn finish(machine: Self::Machine) -> Self::Session
        ensures { result ≡ (here (state machine)).session };

    /// What the meaning of each text keeps.
    ghost lawful: { IsLanguage spoken };
}
