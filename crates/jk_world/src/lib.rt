//! Laws of a kernel and of the world round it, for every language: what holds after any list of steps, and what a legal
//! log tells of each request.
#![tactic(auto)]

ghost use Rattle.std.specs.Prelude.{◌≡◌, ◌++◌, ◌||◌, List, [], ℕ, None, Some};
ghost use Rattle.jk_log.specs.declared.entry.Entry.{Entry};
ghost use Rattle.jk_log.specs.Log.{Log};
ghost use Rattle.jk_log.specs.Legal.{IsLegal, owed};
ghost use Rattle.jk_log.specs.Render.{render};
ghost use Rattle.jk_world.specs.World.{World, Event, opening, Run, IsTrueWorld, HasGoneOn};
ghost use Rattle.jk_world.specs.Cells.{IsAnsweredOnce, begun_in, CellIsRight};
ghost use Rattle.jk_world.specs.Order.{IsFalling, answered_places};
ghost use Rattle.jk_world.specs.Sessions.{AllBeginIn, IsHandedOn};
ghost use Rattle.jk_world.specs.Input.{IsInputRight, AsksAreAllowed};
ghost use Rattle.jk_world.specs.Counts.{TellCounts};
ghost use Rattle.jk_world.specs.Requests.{IsShownRight};
ghost use Rattle.jk_world.specs.Parents.{ParentsFit};
ghost use Rattle.jk_world.specs.Answers.{AreShownOnce};
ghost use Rattle.jk_world.specs.Shown.{CellsAreShown};
ghost use Rattle.jk_world.specs.Controls.{ControlsAreShown};
ghost use Rattle.jk_world.specs.Aborts.{AbortsAreRight};
ghost use Rattle.jk_world.specs.Stops.{StopsAreRight};
ghost use Rattle.jk_world.specs.Recorded.{CellsAreRecorded};
ghost use Rattle.jk_log.specs.View.{view, part, has_joined};
ghost use Rattle.nb_doc.specs.declared.notebook.Notebook.{Notebook};
ghost use Rattle.nb_record.specs.Book.{Item};

use jk_language::Language;

/// After any list of steps, whatever the seats send: the log is legal; the board and the pending entries together are
/// what is shown of the log; each follower has read a beginning of the board; what was taken from each seat is a
/// beginning of what it sent; a recorder's notebook is the book of the entries that it has read since it began and of the
/// puts between them; and a save that says so leaves the text of that book at the recorder's path.
pub fn world_law<L: Language>()
    ensures { (followers : ℕ) (events : List (Event L.Tree)) (w : World L.Tree)
        → Run L.spoken (opening followers) events w → IsTrueWorld L.spoken w }
{}

/// A beginning of a legal log at which nothing is owed is legal. So what the other laws say of a log holds of each such
/// beginning of it: of the cells before a shutdown as of those after it.
pub fn prefix_law<L: Language>()
    ensures { (past more : Log) → IsLegal L.spoken (more ++ past) → owed past ≡ [] → IsLegal L.spoken past }
{}

/// In any list of steps nothing that was sent, taken, marked or published is lost or changed.
pub fn growth_law<L: Language>()
    ensures { (w : World L.Tree) (events : List (Event L.Tree)) (v : World L.Tree)
        → Run L.spoken w events v → HasGoneOn w v }
{}

/// In a legal log each request is begun, refused, aborted or answered at most once, and a cell that was begun either runs
/// or was ended or stopped once.
pub fn once_law<L: Language>()
    ensures { (log : Log) (at : ℕ) → IsLegal L.spoken log → IsAnsweredOnce log at }
{}

/// In a legal log the requests on the shell channel are begun, refused, aborted or answered in the order in which they
/// were taken.
pub fn order_law<L: Language>()
    ensures { (log : Log) → IsLegal L.spoken log → IsFalling (answered_places log) }
{}

/// In a legal log the streams of each begun cell, joined, are the output of its meaning: in the session in which it was
/// begun, with the lines given before its last flush, after the turns of that flush, all of which it has used. A cell that
/// was ended or stopped was so as that meaning says.
pub fn streams_law<L: Language>()
    ensures { (log : Log) (at : ℕ) (begun : L.Session) → IsLegal L.spoken log
        → begun_in L.spoken at log ≡ Some begun → CellIsRight L.spoken log at begun }
{}

/// In a legal log each cell is begun in the session that the cell before it left, the first, and the first after a
/// shutdown, in the opening session; and what the cells since the last shutdown left is still so at the log's end. While no
/// cell runs the session is what the last one left.
pub fn session_law<L: Language>()
    ensures each { (log : Log) → IsLegal L.spoken log → AllBeginIn L.spoken log }
    ensures last { (log : Log) → IsLegal L.spoken log → IsHandedOn L.spoken log }
{}

/// In a legal log a cell asks for a line at most once at each number of turns. The texts that it is given are lines that
/// the seat of its request sent, in their order, each at most once. It asks only where its request allows it, and not once
/// its seat has left.
pub fn input_law<L: Language>()
    ensures given { (log : Log) (at : ℕ) → IsLegal L.spoken log → IsInputRight log at }
    ensures allowed { (log : Log) → IsLegal L.spoken log → AsksAreAllowed log }
{}

/// In a legal log each count that is told is the number of the cells begun since the last shutdown that are to be stored.
pub fn count_law<L: Language>()
    ensures { (log : Log) → IsLegal L.spoken log → TellCounts log }
{}

/// In what is shown of a legal log each entry goes to whom it must. Each request that was begun, refused or aborted has
/// one execute reply, once its cell no longer runs. The streams of a request are those of its cell, or none where it is
/// silent.
pub fn shown_law<L: Language>()
    ensures { (log : Log) (at : ℕ) → IsLegal L.spoken log → IsShownRight log at }
{}

/// In what is shown of a legal log, of a request that waits on the shell channel and is no cell no output stands before it
/// is answered. Then busy, its one reply, to its asker on its channel, and idle stand together, and no other output of it.
pub fn answer_law<L: Language>()
    ensures { (log : Log) → IsLegal L.spoken log → AreShownOnce L.spoken log }
{}

/// In what is shown of a legal log an execute request is one of three. It waits, and no output of it stands there. Or its
/// cell was begun: then its outputs are busy, the cell with its count, streams that are not empty and questions for a line;
/// and once it was ended or stopped the one error that this names, one reply with the same count, and idle, and nothing after.
/// Of a silent cell cell, streams and error are left out. Or it was aborted, or refused for memory: busy, that reply, idle.
pub fn cell_law<L: Language>()
    ensures { (log : Log) → IsLegal L.spoken log → CellsAreShown log }
{}

/// In what is shown of a legal log, an interrupt, a question about the kernel and a shutdown on the control channel have busy,
/// their one reply to the seat that asked, and idle, together, and no other entry; a connection that begins or ends has one
/// notice.
pub fn control_law<L: Language>()
    ensures { (log : Log) → IsLegal L.spoken log → ControlsAreShown log }
{}

/// In a legal log a cell is stopped for lack of memory, or else by an interrupt or a shutdown that was taken while it ran; and
/// each of these stops the cell that runs, directly: only the answer to the interrupt and what the cell had written stand
/// before.
pub fn stop_law<L: Language>()
    ensures { (log : Log) → IsLegal L.spoken log → StopsAreRight log }
{}

/// In a legal log an execute request is aborted exactly by an error of a cell whose request stops on errors, or by a
/// shutdown, that came while it waited; and that directly: no arrival is taken and no cell begun before it. What is shown
/// of an aborted request `cell_law` says.
pub fn abort_law<L: Language>()
    ensures { (log : Log) → IsLegal L.spoken log → AbortsAreRight log }
{}

/// In what is shown of a legal log each stream and each error is for the request of the last `ExecuteInput` before it.
pub fn parents_law<L: Language>()
    ensures { (log : Log) → IsLegal L.spoken log → ParentsFit None (render log) }
{}

/// The view of two joined lists is the view of the first followed by the part that the second adds. That part depends on
/// the second and on whether the Join is in the first.
pub fn view_law()
    ensures more { (xs ys : List Entry) (seat number : ℕ) → view (xs ++ ys) seat number
        ≡ view xs seat number ++ part (has_joined seat number xs) ys seat number }
    ensures joined { (xs ys : List Entry) (seat number : ℕ) → has_joined seat number (xs ++ ys)
        ≡ (has_joined seat number xs || has_joined seat number ys) }
{}

/// The book of entries and puts, which by `world_law` is a recorder's notebook, holds of a code cell what was shown of it. Since a
/// stored request was begun for the cell it has that request's count, and the streams and errors shown until the next cell was
/// begun (by `parents_law` those of that request, by `cell_law` at most one error), as long as no put takes it away or has it
/// with no count. A put that has it with no count, after the request had ended, empties it. A cell for which nothing was begun
/// since the recorder began has what the last put says, or else the first notebook.
pub fn book_law()
    ensures { (base : Notebook) (items : List Item) → CellsAreRecorded base items }
{}
