//! Commands, and what looking them up comes to.

ghost use Rattle.std.specs.Prelude.{◌≡◌};

use ob_base::Text;
use std::marker::Model;

/// A command as a cell names it: M.P.
#[derive(Drop)]
pub struct CommandName {
    home: Text,
    name: Text,
}

impl Model for CommandName {
    ghost use Rattle.ob_session.specs.Cells as cells;

    ghost Value = { cells.CommandName };

    ghost view = { λ c. record { home = c.home; name = c.name } };
}

impl CommandName {
    /// The procedure of this name in the module of that name.
    pub fn new(home: Text, name: Text) -> CommandName
        ensures { result ≡ record { home = home; name = name } }
    {
        CommandName { home, name }
    }

    /// The name of the module.
    pub fn home(&self) -> &Text
        ensures { result.now ≡ self.now.home }
    {
        &self.home
    }

    /// The name of the procedure.
    pub fn name(&self) -> &Text
        ensures { result.now ≡ self.now.name }
    {
        &self.name
    }
}

/// A command that was looked up: a module, and the number of its procedure there.
#[derive(Clone, Copy, Debug, PartialEq, Eq)]
pub struct Command {
    home: usize,
    procedure: usize,
}

impl Model for Command {
    ghost use Rattle.ob_mean.specs.Programs as programs;

    ghost Value = { programs.Command };

    ghost view = { λ c. record { home = c.home; procedure = c.procedure } };

    ghost inverse = { λ c. record { home = c.home; procedure = c.procedure } };
}

impl Command {
    /// The procedure of this number in the module of that number.
    pub fn new(home: usize, procedure: usize) -> Command
        ensures { result ≡ record { home = home; procedure = procedure } }
    {
        Command { home, procedure }
    }

    /// The number of the module.
    pub fn home(&self) -> usize
        ensures { result ≡ self.now.home }
    {
        self.home
    }

    /// The number of the procedure in its module.
    pub fn procedure(&self) -> usize
        ensures { result ≡ self.now.procedure }
    {
        self.procedure
    }
}

/// Why a cell does not link.
#[derive(Debug, Drop)]
pub enum LinkFault {
    /// 30: no module of this name is loaded.
    NotLoaded(Text),
    /// 31: the module of the first name has no command of the second.
    NoCommand(Text, Text),
    /// 32: a module of this name is reached through imports, and is not loaded with the recorded key.
    OtherKey(Text),
}

/// What the look-up of one command comes to.
#[derive(Debug, Drop)]
pub enum Looked {
    /// It can run.
    Found(Command),
    /// Why it can't.
    Missing(LinkFault),
}

/// What the look-up of commands comes to.
#[derive(Debug, Drop)]
pub enum Ready {
    /// All of them can run.
    Runs(Vec<Command>),
    /// Why the first that can't run can't.
    Faulty(LinkFault),
}
