//! What holds of every reader of In.

ghost use Rattle.std.specs.Prelude.{ℕ};
ghost use Rattle.ob_inout.specs.Reading.{IsAgain, read_char, read_int, read_string, read_name};

/// A reader that asked for a line goes on, once it is given, as if the line had been there: reading with lines is
/// reading without, again and again with one line more.
pub fn one_more_line_law()
    ensures of_char { IsAgain read_char }
    ensures of_int { IsAgain read_int }
    ensures of_string { (size : ℕ) → IsAgain (read_string size) }
    ensures of_name { (size : ℕ) → IsAgain (read_name size) }
{}
