//! Whose a board is.

use jk_queues::Taker;
use std::snapshot::Snapshot;

/// For which kernel a board was made: the end that takes from the kernel's inbox, as it was then. It has no bytes, and clauses alone
/// see it.
pub type Owner = Snapshot<Taker>;
