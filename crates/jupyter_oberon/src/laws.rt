//! The laws of a kernel and the world round it, for Oberon: a legal log is here one of the written meaning of Oberon-07.

ghost use Rattle.std.specs.Prelude.{◌≡◌, ◌++◌, List, [], ℕ, None, Some};
ghost use Rattle.jk_log.specs.Log.{Log};
ghost use Rattle.jk_log.specs.Legal.{IsLegal, owed};
ghost use Rattle.jk_log.specs.Render.{render};
ghost use Rattle.jk_world.specs.World.{World, Event, opening, Run, IsTrueWorld, HasGoneOn};
ghost use Rattle.jk_world.specs.Cells.{IsAnsweredOnce, begun_in, CellIsRight};
ghost use Rattle.jk_world.specs.Order.{IsFalling, answered_places};
ghost use Rattle.jk_world.specs.Sessions.{AllBeginIn, IsHandedOn};
ghost use Rattle.jk_world.specs.Input.{IsInputRight, AsksAreAllowed};
ghost use Rattle.jk_world.specs.Counts.{TellCounts};
ghost use Rattle.jk_world.specs.Requests.{IsShownRight};
ghost use Rattle.jk_world.specs.Parents.{ParentsFit};
ghost use Rattle.jk_world.specs.Answers.{AreShownOnce};
ghost use Rattle.jk_world.specs.Shown.{CellsAreShown};
ghost use Rattle.jk_world.specs.Controls.{ControlsAreShown};
ghost use Rattle.jk_world.specs.Aborts.{AbortsAreRight};
ghost use Rattle.jk_world.specs.Stops.{StopsAreRight};
ghost use Rattle.ob_tree.specs.declared.tree.Cell.{Cell};
ghost use Rattle.ob_session.specs.Session.{Session};
ghost use Rattle.ob_cell.specs.Oberon.{spoken_oberon};

use ob_language::Oberon;

/// After any list of steps the world is true.
pub fn world_law()
    ensures { (followers : ℕ) (events : List (Event Cell)) (w : World Cell)
        → Run spoken_oberon (opening followers) events w → IsTrueWorld spoken_oberon w }
{
    jk_world::world_law::<Oberon>()
}

/// A beginning of a legal log at which nothing is owed is legal.
pub fn prefix_law()
    ensures { (past more : Log) → IsLegal spoken_oberon (more ++ past) → owed past ≡ [] → IsLegal spoken_oberon past }
{
    jk_world::prefix_law::<Oberon>()
}

/// No step loses or changes anything.
pub fn growth_law()
    ensures { (w : World Cell) (events : List (Event Cell)) (v : World Cell)
        → Run spoken_oberon w events v → HasGoneOn w v }
{
    jk_world::growth_law::<Oberon>()
}

/// Each request is answered at most once.
pub fn once_law()
    ensures { (log : Log) (at : ℕ) → IsLegal spoken_oberon log → IsAnsweredOnce log at }
{
    jk_world::once_law::<Oberon>()
}

/// Requests are answered in order.
pub fn order_law()
    ensures { (log : Log) → IsLegal spoken_oberon log → IsFalling (answered_places log) }
{
    jk_world::order_law::<Oberon>()
}

/// The streams of a begun cell are the output of its meaning.
pub fn streams_law()
    ensures { (log : Log) (at : ℕ) (begun : Session) → IsLegal spoken_oberon log
        → begun_in spoken_oberon at log ≡ Some begun → CellIsRight spoken_oberon log at begun }
{
    jk_world::streams_law::<Oberon>()
}

/// The session goes from cell to cell.
pub fn session_law()
    ensures each { (log : Log) → IsLegal spoken_oberon log → AllBeginIn spoken_oberon log }
    ensures last { (log : Log) → IsLegal spoken_oberon log → IsHandedOn spoken_oberon log }
{
    jk_world::session_law::<Oberon>()
}

/// What cells ask for, and are given.
pub fn input_law()
    ensures given { (log : Log) (at : ℕ) → IsLegal spoken_oberon log → IsInputRight log at }
    ensures allowed { (log : Log) → IsLegal spoken_oberon log → AsksAreAllowed log }
{
    jk_world::input_law::<Oberon>()
}

/// The counts that are told.
pub fn count_law()
    ensures { (log : Log) → IsLegal spoken_oberon log → TellCounts log }
{
    jk_world::count_law::<Oberon>()
}

/// What is shown of each arrival.
pub fn shown_law()
    ensures { (log : Log) (at : ℕ) → IsLegal spoken_oberon log → IsShownRight log at }
{
    jk_world::shown_law::<Oberon>()
}

/// What is shown of a request that waits and is no cell.
pub fn answer_law()
    ensures { (log : Log) → IsLegal spoken_oberon log → AreShownOnce spoken_oberon log }
{
    jk_world::answer_law::<Oberon>()
}

/// Of a begun cell busy, the cell, its streams and questions, one error where there is one, one reply and idle are shown.
pub fn cell_law()
    ensures { (log : Log) → IsLegal spoken_oberon log → CellsAreShown log }
{
    jk_world::cell_law::<Oberon>()
}

/// What is answered as it is taken is shown together, once.
pub fn control_law()
    ensures { (log : Log) → IsLegal spoken_oberon log → ControlsAreShown log }
{
    jk_world::control_law::<Oberon>()
}

/// An interrupt or a shutdown stops the cell that runs.
pub fn stop_law()
    ensures { (log : Log) → IsLegal spoken_oberon log → StopsAreRight log }
{
    jk_world::stop_law::<Oberon>()
}

/// An execute request is aborted exactly by an error of a cell that stops on errors, or by a shutdown.
pub fn abort_law()
    ensures { (log : Log) → IsLegal spoken_oberon log → AbortsAreRight log }
{
    jk_world::abort_law::<Oberon>()
}

/// Whose each stream and error is.
pub fn parents_law()
    ensures { (log : Log) → IsLegal spoken_oberon log → ParentsFit None (render log) }
{
    jk_world::parents_law::<Oberon>()
}
