//! Laws of the definitions.

ghost use Rattle.ob_session.specs.Laws.{EachIsLawful, EachIsFed};
ghost use Rattle.ob_session.specs.Loads.{EachLoads};
ghost use Rattle.ob_session.specs.Rows.{WorkedRows};
ghost use Rattle.ob_session.specs.Links.{EachLinksExactly};

/// Every cell that keeps the static rules, in every session and with any lines, is lawful from turn to turn: it uses no more
/// turns than it is given, what it has used is a moment at which it stands just so, its output only grows, it stops only
/// where its turns are used up, and where it did not stop more turns change nothing.
pub fn lawful_law()
    ensures { EachIsLawful }
{}

/// One more line changes nothing where no line is asked for. Where one is, the cell goes on from there, and does not ask
/// again without a turn.
pub fn fed_law()
    ensures { EachIsFed }
{}

/// Imports link exactly where every module that is reached through them, by a chain of any length, is loaded with the key that
/// its client recorded. Where they don't, the name that is given is that of a module that is reached and is not so loaded.
pub fn links_law()
    ensures { EachLinksExactly }
{}

/// What small modules and commands come to, worked by hand.
pub fn rows_law()
    ensures { WorkedRows }
{}

/// A module that is loaded is found by its name, with its variables at zero. Every other module is found as before, keeps its
/// place, and keeps its variables.
pub fn loads_law()
    ensures { EachLoads }
{}
