//! How many bytes entries take, about. No clause speaks of it.

use jk_log::{Entry, Told};
use jp_msg::{Failure, Outcome, Output};

/// What an entry takes beside its texts.
const ENTRY: usize = 128;

/// The bytes of these entries.
pub fn bytes_of(entries: &[Entry]) -> usize {
    let mut bytes = 0usize;
    for entry in entries {
        let texts = match &entry.content {
            Told::Output(output) => text_bytes(output),
            Told::Joined { .. } | Told::Left { .. } => 0,
        };
        bytes = bytes.saturating_add(ENTRY).saturating_add(texts);
    }
    bytes
}

/// The bytes of an output's texts.
fn text_bytes(output: &Output) -> usize {
    match output {
        Output::ExecuteInput { code, .. } => code.value().as_str().len(),
        Output::Stream(text) => text.value().as_str().len(),
        Output::Error(failure) => failure_bytes(failure),
        Output::ExecuteReply(Outcome::Failed { failure, .. }) => failure_bytes(failure),
        _ => 0,
    }
}

fn failure_bytes(failure: &Failure) -> usize {
    let name = failure.ename.as_str().len();
    name.saturating_add(failure.evalue.as_str().len())
}
