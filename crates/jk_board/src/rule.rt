//! The rule of the board, and what each step of it tells.

use crate::posted::Posted;
use atomic_table::{Join, Split};
use crossbeam_utils::rule::{Outcome, Protocol};
use jk_language::Language;
use jk_log::Entry;
use std::collections::LinkedList;
use std::marker::PhantomData;

/// What a reader or the writer knows: the whole board that it saw last, and the boards that it was told of. No value of it is made.
pub struct Seen {
    pub seen: LinkedList<Entry>,
    pub told: LinkedList<LinkedList<Entry>>,
}

/// What is kept is the last part of a beginning of what a legal log of the language shows, and that beginning only grows.
pub struct Grows<L> {
    language: PhantomData<L>,
}

impl<L: Language> Protocol<Posted, Seen> for Grows<L> {
    ghost use Rattle.std.specs.Prelude.{[]};
    ghost use Rattle.jk_board.specs.Rule as rule;

    ghost holds = { rule.Grows L.spoken };

    ghost first = { rule.sees [] [] };
}

/// The board that is published, or found.
pub struct Finds<L> {
    language: PhantomData<L>,
}

impl<L: Language> Outcome<Posted, Seen> for Finds<L> {
    ghost use Rattle.jk_board.specs.Rule as rule;

    ghost then = { rule.Finds L.spoken };
}

/// What the writer saw, for a reader to learn.
pub struct Notes;

impl Split<Seen> for Notes {
    ghost left = { λ v. v };

    ghost right = { λ v. v };
}

impl Join<Seen> for Notes {
    ghost use Rattle.std.specs.Prelude.{[], ◌∷◌};
    ghost use Rattle.jk_board.specs.Rule.{sees};

    ghost both = { λ v w. sees v.seen (w.seen ∷ v.told) };

    ghost spent = { sees [] [] };
}
