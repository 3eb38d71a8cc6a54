//! A replay from text to text.

use jk_replay::replay_status;
use ob_language::Oberon;
use std::alloc::Global;

/// What the program would write and answer.
#[derive(Debug, Drop)]
pub struct Replayed {
    /// What goes to standard output.
    pub written: Vec<u8>,
    /// What goes to standard error.
    pub told: Vec<u8>,
    /// The exit status.
    pub status: u8,
}

/// Replays lines on a kernel of Oberon-07 of its own, as the program does with its standard input. Where memory is
/// wanting the status is 2, as the program's.
pub fn replay_text(alloc: Global, lines: &str) -> Replayed {
    let mut reader = lines.as_bytes();
    let mut written = Vec::new(alloc);
    let mut told = Vec::new(alloc);
    let status = replay_status::<Oberon, _, _, _>(alloc, &mut reader, &mut written, &mut told);
    Replayed {
        written,
        told,
        status,
    }
}
