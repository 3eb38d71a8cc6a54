//! The store of a session and the row of cells that a machine keeps of it: laws of the definitions.
ghost use Rattle.ob_image.specs.Counted.{EachCountsCells};
ghost use Rattle.ob_image.specs.Runs.{EachKeepsCells, EachMayBegin};
ghost use Rattle.ob_image.specs.Stores.{EachIsFoundAgain, EachLoadsCells};

/// As many cells as the modules' variables take are the picture of exactly one store that has the shapes of those variables.
pub fn found_again_law()
    ensures { EachIsFoundAgain }
{}

/// Loading a module puts its variables as they begin in the place of its cells, or after those of all others; each other cell
/// stays, and what is loaded is the store of these cells.
pub fn loads_cells_law()
    ensures { EachLoadsCells }
{}

/// A run may begin with the store of these cells, and they are what a machine has then.
pub fn may_begin_law()
    ensures { EachMayBegin }
{}

/// What stays of a store after a run, however it ended, is the store of the first cells of its picture, as many as the
/// modules' variables take.
pub fn keeps_cells_law()
    ensures { EachKeepsCells }
{}

/// Where the code of each module has as many cells as its variables take, the code of all has as many as their store, and each
/// module's variables lie after as many cells as the code of those before it has.
pub fn counts_cells_law()
    ensures { EachCountsCells }
{}
