//! What is known of a record type.

ghost use Rattle.std.specs.Prelude.{◌≡◌, min};
ghost use Rattle.ob_types.specs.declared.structure.ObType.TheVariants.{Record as OfRecord};
ghost use Rattle.ob_types.specs.Types.{cells, levels};
ghost use Rattle.ob_types.specs.Declarable as spec;
ghost use Rattle.ob_types.specs.Spelling.{record_spelled, AreEnds};
ghost use Rattle.ob_types.specs.declared.structure.RecordType.{out-RecordType};

use crate::form::{Ends, RecordType};

impl RecordType {
    /// How many cells a value takes: `u32::MAX` stands for that many or more.
    #[tactic(auto, using(crate::proofs::Rolled::cells_rolled))]
    pub(crate) fn cells(&self) -> u32
        ensures { result ≡ min (cells (OfRecord self.now)) u32.MAX }
    {
        self.facts.cells
    }

    /// How deep it is: `u32::MAX` stands for that much or more.
    #[tactic(auto, using(crate::proofs::Rolled::levels_rolled))]
    pub(crate) fn levels(&self) -> u32
        ensures { result ≡ min (levels (OfRecord self.now)) u32.MAX }
    {
        self.facts.levels
    }

    /// Whether the names in it are words and its arrays have elements.
    #[tactic(auto, using(crate::proofs::Rolled::plain_rolled))]
    pub(crate) fn is_plain(&self) -> bool
        ensures { result ≡ spec.is_plain (OfRecord self.now) }
    {
        self.facts.plain
    }

    /// How it is spelled.
    #[tactic(auto, using(crate::proofs::Rolled::parts_rolled))]
    pub(crate) fn spelling(&self) -> &[u8]
        ensures { result.now ≡ record_spelled (out-RecordType self.now).name (out-RecordType self.now).fields }
    {
        self.facts.spelling.as_slice()
    }

    /// Which of its fields end with one record.
    pub(crate) fn ends(&self) -> &Ends
        ensures { AreEnds result.now (out-RecordType self.now).fields }
    {
        &self.facts.ends
    }
}
