//! What a look at recorders finds.

/// What a look at all recorders found.
#[derive(Clone, Copy, Debug, PartialEq, Eq)]
pub enum Found {
    /// There is no kernel.
    NoKernel,
    Nothing,
    Entries,
    /// There may be more to read now.
    More,
    /// A kernel is ending.
    Ending,
}

impl Found {
    /// The more urgent of two.
    pub fn or(self, other: Found) -> Found {
        if self.urgency() < other.urgency() {
            other
        } else {
            self
        }
    }

    fn urgency(self) -> u8 {
        match self {
            Found::NoKernel => 0,
            Found::Nothing => 1,
            Found::Entries => 2,
            Found::Ending => 3,
            Found::More => 4,
        }
    }
}
