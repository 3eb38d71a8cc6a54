//! The places of a kernel, as connections have them.

use crate::wakes::Wakes;
use jk_language::Language;
use js_home::Place as Lent;

/// A place at a kernel, which is lent to one connection at a time.
#[derive(Drop)]
pub struct Place<L: Language> {
    pub lent: Lent<L>,
    /// What wakes the kernel and its channels.
    pub wakes: Wakes,
}
