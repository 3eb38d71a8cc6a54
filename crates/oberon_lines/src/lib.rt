//! Lines of text replayed by a kernel of Oberon-07, as the program replays its standard input.
#![tactic(auto)]

mod replayed;

pub use replayed::{Replayed, replay_text};
