//! Laws of the definitions.

ghost use Rattle.jk_language.specs.Spoken.{IsLanguage};
ghost use Rattle.ob_cell.specs.Oberon.{spoken_oberon};
ghost use Rattle.ob_cell.specs.Texts.{EachTextIsLawful};

/// In each session each text keeps what a kernel asks of a cell. It is lawful from turn to turn: it uses no more turns than it
/// is given, its output only grows, and where it did not stop more turns change nothing. It is lawful from line to line: one
/// more line changes nothing where none is asked for. And a cell that is refused leaves the session as it was.
pub fn oberon_law()
    ensures { IsLanguage spoken_oberon }
{}

/// In each session each text is refused by compiling at every number of turns, or it is a cell that is lawful from turn to
/// turn and from line to line: it uses no more turns than it is given, what it has used is a moment at which it stands just
/// so, its output only grows, and one more line changes nothing where none is asked for.
pub fn text_law()
    ensures { EachTextIsLawful }
{}
