//! The one who publishes.
ghost use Rattle.std.specs.Prelude.{◌≡◌, [], drop};
ghost use Rattle.left_right.specs.Sides.{view};
ghost use Rattle.std.specs.Coded.{Coded-set, coded_list, le_prop, ×_prop};
ghost use Rattle.jk_log.specs.contracts.entry.Entry as entry;
ghost use Rattle.jk_board.specs.Posted.{Shows};

use crate::marks::Marks;
use crate::owner::Owner;
use crate::posted::Posted;
use crate::rule::{Grows, Seen};
use jk_language::Language;
use jk_log::Entry;
use left_right::Absorb;
use left_right::writer::Writer;
use std::alloc::{AllocError, Global};
use std::collections::LinkedList;
use std::sync::Arc;

mod steps;
mod telling;

/// What takes the place of all that is kept.
#[derive(Drop)]
pub struct Replace {
    pub posted: Posted,
}

/// What the two copies have in common. No value of it is made.
pub struct Window {
    pub dropped: usize,
    pub held: LinkedList<Entry>,
}

impl Absorb<Replace> for Posted {
    ghost use Rattle.jk_board.specs.Pending.{window_of};

    type State = Window;

    ghost state = { window_of };

    ghost applied = { λ all next. window_of next.posted };

    fn absorb_first(&mut self, operation: &Replace, _other: &Posted) -> Result<(), AllocError> {
        *self = operation.posted.share()?;
        Ok(())
    }

    fn absorb_second(&mut self, operation: Replace, _other: &Posted) -> Result<(), Replace> {
        *self = operation.posted;
        Ok(())
    }
}

/// The two copies that followers read.
pub type Copies<L> = Writer<Posted, Replace, Seen, Grows<L>>;

/// Publishes entries to all followers. End it by `end`: followers find nothing from then on.
pub struct Publisher<L: Language> {
    pub(crate) copies: Copies<L>,
    pub(crate) marks: Arc<Marks, Global>,
    pub(crate) owner: Owner,
    ghost nothing_pending: { drop copies.behind copies.log.items ≡ [] },
    ghost saw_all: { Shows (view copies.desk.place).seen copies.desk.shown.value } by { ×_prop le_prop (Coded-set (coded_list entry.the_row.coded) _ _) },
}
