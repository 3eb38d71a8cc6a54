//! The lines that a machine was given, for clauses alone.

ghost use Rattle.std.specs.Prelude.{◌≡◌, [], ◌∷◌, ◌++◌, None, IfOk, IsOk, option_copied};
ghost use Rattle.ob_load.specs.Given.{line_of};

use std::alloc::{AllocError, Global};
use std::marker::Model;
use std::mem;
use std::snapshot::Snapshot;

/// The lines so far. Contracts see the list of them; it has no bytes.
#[derive(Drop)]
pub(crate) struct GivenLines {
    before: Snapshot<Option<GivenLines>>,
    last: Snapshot<Option<String>>,
}

impl Model for GivenLines {
    ghost use Rattle.std.specs.Prelude.{List, length};
    ghost use Rattle.std.proofs.Common.{arith, length-append};
    ghost use Rattle.ob_inout.specs.Reading.{Line};
    ghost use Rattle.ob_load.specs.Given.{line_of, lines_with};

    ghost Value = { List Line };

    ghost view = { λ g. lines_with g.before.value (line_of g.last.value) };

    ghost size = { length };

    ghost size_decreases = { λ a h. Prim.grind (arith, length-append) };
}

impl GivenLines {
    /// No lines.
    pub fn none() -> GivenLines
        ensures { result ≡ [] }
    {
        let before: Option<GivenLines> = None;
        let last: Option<String> = None;
        GivenLines {
            before: Snapshot::of(&before),
            last: Snapshot::of(&last),
        }
    }

    /// One more.
    pub fn add(&mut self, line: &Option<String>)
        ensures { self.new ≡ self.old ++ line_of line.now ∷ [] }
    {
        let before = Some(mem::replace(self, GivenLines::none()));
        *self = GivenLines {
            before: Snapshot::of(&before),
            last: Snapshot::of(line),
        };
    }
}

/// A copy of a line. That of none takes no memory.
pub(crate) fn copied(alloc: Global, line: Option<&str>) -> Result<Option<String>, AllocError>
    ensures ok { IfOk result (λ copy. line_of copy ≡ option_copied line.entry) }
    ensures none { option_copied line.entry ≡ None → IsOk result }
{
    match line {
        Some(text) => {
            let mut copy = String::new(alloc);
            copy.push_str(text)?;
            Ok(Some(copy))
        }
        None => Ok(None),
    }
}
