//! What a publisher tells a follower.

use crate::owner::Owner;
use crate::posted::Posted;
use crate::rule::{Grows, Seen};
use jk_language::Language;
use left_right::reader::Reader;
use std::snapshot::Snapshot;

/// All that was published at a moment, for one follower to learn. It has a place of its own at the board, which the follower
/// takes over.
#[derive(Drop)]
pub struct News<L: Language> {
    pub(crate) reader: Reader<Posted, Seen, Grows<L>>,
    pub(crate) owner: Snapshot<Owner>,
}
