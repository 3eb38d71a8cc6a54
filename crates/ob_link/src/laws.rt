//! Laws of the definitions.

ghost use Rattle.ob_link.specs.Exchange.{EachExchangeGoesBack};
ghost use Rattle.ob_link.specs.Modules.{EachLoadStaysSo};
ghost use Rattle.ob_link.specs.Reaching.{EachReachesExactly};
ghost use Rattle.ob_link.specs.Runs.{EachImportRuns, EachRunsLinked};

/// Imports that link name modules that are loaded with the recorded keys, and whose own imports link, so that each of them may
/// run. And a module of a number may run exactly where its imports link.
pub fn imports_run_law()
    ensures imports { EachImportRuns }
    ensures linked { EachRunsLinked }
{}

/// A module reaches a name exactly where an import of that name is reached through its imports, by a chain of any length.
pub fn reaching_law()
    ensures { EachReachesExactly }
{}

/// An exchange that is taken back leaves the modules as they were.
pub fn exchange_law()
    ensures { EachExchangeGoesBack }
{}

/// The types that the modules export have cells, and no two modules have one name, after one more is loaded whose exported types
/// have cells.
pub fn load_law()
    ensures { EachLoadStaysSo }
{}
