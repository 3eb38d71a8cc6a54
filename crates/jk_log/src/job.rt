//! Texts to be read, and what came of reading them.

ghost use Rattle.std.specs.Prelude.{◌≡◌};
ghost use Rattle.jk_log.specs.Results.{IsResult};

use jk_language::{Fault, Language, Refused};
use json_form::Text;
use std::alloc::Global;
use std::marker::Model;

/// What came of reading a cell's text.
#[derive(Drop)]
pub enum Parsed<T> {
    Tree(T),
    Fault(Fault),
    Memory,
}

/// A text to be read. The number is the request's place among the arrivals taken, from 1.
#[derive(Drop)]
pub struct Job {
    pub number: u64,
    pub text: Text,
}

/// A text that was read. The type keeps that the outcome is of this text.
#[derive(Drop)]
pub struct ParsedCell<L: Language> {
    job: u64,
    text: Text,
    outcome: Parsed<L::Tree>,
}

impl<L: Language> Model for ParsedCell<L> {
    ghost use Rattle.jk_log.specs.Results.{Reading, IsResult};

    ghost Value = { Reading L.Tree };

    ghost view = { λ p. record { job = p.job; text = p.text; outcome = p.outcome } };

    ghost invariant = { λ p. IsResult L.spoken p.text p.outcome };
}

impl Job {
    /// Reads the text. Where memory is refused the outcome is `Memory`.
    pub fn parse<L: Language>(self, alloc: Global) -> ParsedCell<L>
        ensures job { result.job ≡ self.number }
        ensures text { result.text ≡ self.text }
        ensures right { IsResult L.spoken result.text result.outcome }
    {
        let Job { number, text } = self;
        let outcome = outcome_of::<L>(alloc, text.as_str());
        ParsedCell {
            job: number,
            text,
            outcome,
        }
    }
}

/// What comes of reading a text.
fn outcome_of<L: Language>(alloc: Global, text: &str) -> Parsed<L::Tree>
    ensures { IsResult L.spoken text.now result }
{
    match L::parse(alloc, text) {
        Ok(tree) => Parsed::Tree(tree),
        Err(Refused::Fault(fault)) => Parsed::Fault(fault),
        Err(Refused::Memory) => Parsed::Memory,
    }
}

impl<L: Language> ParsedCell<L> {
    /// What it is made of.
    pub fn into_parts(self) -> (u64, Text, Parsed<L::Tree>)
        ensures parts { result ≡ (self.job, self.text, self.outcome) }
        ensures right { IsResult L.spoken result.1 result.2 }
    {
        let ParsedCell { job, text, outcome } = self;
        (job, text, outcome)
    }

    /// The number of the job.
    pub fn job(&self) -> u64
        ensures { result ≡ self.now.job }
    {
        self.job
    }

    /// The text that was read.
    pub fn text(&self) -> &Text
        ensures { result.now ≡ self.now.text }
    {
        &self.text
    }

    /// What came of it.
    pub fn outcome(&self) -> &Parsed<L::Tree>
        ensures value { result.now ≡ self.now.outcome }
        ensures right { IsResult L.spoken self.now.text self.now.outcome }
    {
        &self.outcome
    }
}
