//! The labels of a CASE.

ghost use Rattle.std.specs.Prelude.{◌≡◌, ◌≤ℤ◌, int_lt, [], ◌∷◌, reverse, true, OnOk};
ghost use Rattle.ob_check_stmt.specs.Labels as spec;

use ob_mean::LabelRange;
use std::alloc::{AllocError, Global};
use std::collections::BTreeMap;
use std::marker::Model;

/// The ranges of labels of a CASE so far, of which none is empty and no two meet, with a map from the first label of each to its
/// last. Contracts see the list of them, the last first.
#[derive(Drop)]
pub struct Labels {
    ranges: Vec<LabelRange>,
    lasts: BTreeMap<i32, i32>,
}

impl Model for Labels {
    ghost use Rattle.std.specs.Prelude.{List, reverse};
    ghost use Rattle.ob_mean.specs.declared.statement.LabelRange.{LabelRange};
    ghost use Rattle.ob_check_stmt.specs.LabelIndex.{AreApart, IsIndex};

    ghost Value = { List LabelRange };

    ghost view = { λ l. reverse l.ranges.items };

    ghost invariant = { λ l. AreApart (reverse l.ranges.items) × IsIndex l.lasts (reverse l.ranges.items) };
}

impl Labels {
    /// No label.
    pub fn new(alloc: Global) -> Labels
        ensures { result ≡ [] }
    {
        Labels {
            ranges: Vec::new(alloc),
            lasts: BTreeMap::new(alloc),
        }
    }

    /// Whether none of these labels is in a range. It takes a look-up.
    pub fn is_free(&self, range: LabelRange) -> bool
        ensures { result ≡ spec.is_free self.now range }
    {
        self.has_none(range.first, range.last)
    }

    fn has_none(&self, first: i32, last: i32) -> bool
        ensures { result ≡ spec.is_free self.now (record { first = first; last = last }) }
    {
        match self.lasts.range(..=last).next_back() {
            Some((_, end)) => is_below(end, &first),
            None => true,
        }
    }

    /// One range more, which is not empty and meets none of these. Where memory is refused the labels are to be dropped.
    pub fn add(&mut self, range: LabelRange) -> Result<(), AllocError>
        requires filled { range.first ≤ℤ range.last }
        requires free { spec.is_free self.old range ≡ true }
        ensures { OnOk result (self.new ≡ range ∷ self.old) }
    {
        self.ranges.reserve(1)?;
        self.lasts.insert(range.first, range.last)?;
        match self.ranges.push(range) {
            Ok(()) => Ok(()),
            Err(_) => unreachable!(),
        }
    }
}

fn is_below(last: &i32, first: &i32) -> bool
    ensures { result ≡ int_lt last.now first.now }
{
    let last = *last;
    let first = *first;
    last < first
}
