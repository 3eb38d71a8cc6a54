//! The acts of a driver are steps of the world.
ghost use Rattle.std.specs.Prelude.{◌≡◌, ◌++◌, List, [], ℕ};
ghost use Rattle.jk_log.specs.declared.arrival.Arrival.{Arrival};
ghost use Rattle.jk_core.specs.State.{fresh};
ghost use Rattle.jk_run.specs.Acts.{DriverState, driven, Act, Does, Drives};
ghost use Rattle.jk_run.specs.Around.{IsAround, Offers};
ghost use Rattle.jk_run.specs.Supplied.{arrivals_of, AreSupplied};
ghost use Rattle.jk_world.specs.World.{World, Event, Step, Run, opening};

use jk_language::Language;

/// In a world that has the driver's kernel and board, and in its places what an act takes, each act of the driver is a step,
/// and the world has the driver's kernel and board after it.
pub fn act_law<L: Language>()
    ensures { (w : World L.Tree) (d e : DriverState L.Tree) (act : Act L.Tree)
        → IsAround w d → Offers w act → Does L.spoken d act e
        → (event : Event L.Tree) × (v : World L.Tree) × Step L.spoken w event v × IsAround v e }
{}

/// Whatever acts led a driver from a kernel that had taken nothing, where each result that it handed in was of a job that it had
/// given, and of each job it handed in one at most: steps of the world lead from its opening to a world that has the driver's
/// kernel and board, to which exactly what the driver took was sent, in that order, and then what stands in the inbox.
pub fn drive_law<L: Language>()
    ensures { (acts : List (Act L.Tree)) (d : DriverState L.Tree) (standing : List Arrival) (followers : ℕ)
        → Drives L.spoken (driven fresh [] [] []) acts d → AreSupplied [] acts
        → (events : List (Event L.Tree)) × (w : World L.Tree) × Run L.spoken (opening followers) events w
        × IsAround w d × (w.sent ≡ arrivals_of acts ++ standing) × (w.inbox ≡ standing) }
{}
