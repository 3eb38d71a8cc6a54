//! Names and labels.

ghost use Rattle.std.specs.Prelude.{◌≡◌, ◌≤◌, ◌<◌, length, IfOk, OnSome};
ghost use Rattle.ob_scan.specs.declared.token.Symbol.TheVariants as s;
ghost use Rattle.ob_parse_expression.specs.NameReading as spec;
ghost use Rattle.ob_parse_expression.specs.Reading as reading;
ghost use Rattle.ob_parse_expression.specs.Reading.{Reads, separated, next_item};

use crate::parser::Parser;
use ob_base::{Code, Items, Refused};
use ob_scan::{Kind, Symbol, Token};
use ob_tree::tree::{Ident, IdentDef, Label, LabelRange, Qualident};

impl Parser<'_> {
    /// A name that is declared, with or without an export mark.
    #[tactic(auto, unfolding(crate::specs::NameReading::ident_def))]
    pub fn ident_def(&mut self) -> Result<IdentDef, Refused>
        ensures read { Reads (spec.ident_def self.old.rest.now) result self.new.rest.now }
        ensures shorter { length self.new.rest.now ≤ length self.old.rest.now }
    {
        let name = self.ident()?;
        let mark = self.eat(Symbol::Times);
        Ok(IdentDef { name, mark })
    }

    /// One or more declared names, with commas between.
    #[tactic(auto, unfolding(crate::specs::Reading::separated))]
    pub fn ident_list(&mut self) -> Result<Items<IdentDef>, Refused>
        ensures read { Reads (separated s.Comma spec.ident_def self.old.rest.now) result self.new.rest.now }
        ensures shorter { length self.new.rest.now ≤ length self.old.rest.now }
    {
        let mut names = Items::new(self.alloc);
        names.push(self.ident_def()?)?;
        while let Some(next) = self.next_ident_def()? {
            names.push(next)?;
        }
        Ok(names)
    }

    #[tactic(auto, unfolding(crate::specs::Reading::next_item))]
    fn next_ident_def(&mut self) -> Result<Option<IdentDef>, Refused>
        ensures read { Reads (next_item s.Comma spec.ident_def self.old.rest.now) result self.new.rest.now }
        ensures shorter { length self.new.rest.now ≤ length self.old.rest.now }
        ensures taken { IfOk result (λ found. OnSome found (length self.new.rest.now < length self.old.rest.now)) }
    {
        if self.eat(Symbol::Comma).is_none() {
            return Ok(None);
        }
        Ok(Some(self.ident_def()?))
    }

    /// One or more names, with commas between.
    #[tactic(auto, unfolding(crate::specs::Reading::separated))]
    pub fn idents(&mut self) -> Result<Items<Ident>, Refused>
        ensures read { Reads (separated s.Comma reading.ident self.old.rest.now) result self.new.rest.now }
        ensures shorter { length self.new.rest.now ≤ length self.old.rest.now }
    {
        let mut names = Items::new(self.alloc);
        names.push(self.ident()?)?;
        while let Some(next) = self.next_ident()? {
            names.push(next)?;
        }
        Ok(names)
    }

    #[tactic(auto, unfolding(crate::specs::Reading::next_item))]
    fn next_ident(&mut self) -> Result<Option<Ident>, Refused>
        ensures read { Reads (next_item s.Comma reading.ident self.old.rest.now) result self.new.rest.now }
        ensures shorter { length self.new.rest.now ≤ length self.old.rest.now }
        ensures taken { IfOk result (λ found. OnSome found (length self.new.rest.now < length self.old.rest.now)) }
    {
        if self.eat(Symbol::Comma).is_none() {
            return Ok(None);
        }
        Ok(Some(self.ident()?))
    }

    /// A name, or a name of a module and a name in it.
    #[tactic(auto, unfolding(crate::specs::NameReading::qualident))]
    pub fn qualident(&mut self) -> Result<Qualident, Refused>
        ensures read { Reads (spec.qualident self.old.rest.now) result self.new.rest.now }
        ensures shorter { length self.new.rest.now ≤ length self.old.rest.now }
    {
        let first = self.ident()?;
        let second = self.member()?;
        Ok(Qualident { first, second })
    }

    /// The name after a period, if one comes next.
    #[tactic(auto, unfolding(crate::specs::NameReading::member))]
    fn member(&mut self) -> Result<Option<Ident>, Refused>
        ensures read { Reads (spec.member self.old.rest.now) result self.new.rest.now }
        ensures shorter { length self.new.rest.now ≤ length self.old.rest.now }
    {
        if self.eat(Symbol::Period).is_none() {
            return Ok(None);
        }
        Ok(Some(self.ident()?))
    }

    #[tactic(auto, unfolding(crate::specs::NameReading::label))]
    fn label(&mut self) -> Result<Label, Refused>
        ensures read { Reads (spec.label self.old.rest.now) result self.new.rest.now }
        ensures shorter { length self.new.rest.now ≤ length self.old.rest.now }
    {
        let [Token { kind, span }, rest @ ..] = self.rest else {
            return Err(self.fault(Code::Token));
        };
        match kind {
            Kind::Ident(_) => Ok(Label::Name(self.qualident()?)),
            Kind::Integer(number) => {
                self.rest = rest;
                Ok(Label::Integer(*number, *span))
            }
            Kind::Text(text) => {
                let text = text.get().copy(self.alloc)?;
                self.rest = rest;
                Ok(Label::Text(text, *span))
            }
            Kind::Symbol(_) => Err(self.fault(Code::Token)),
        }
    }

    /// The label after `..`, if that sign comes next.
    #[tactic(auto, unfolding(crate::specs::NameReading::last_label))]
    fn last_label(&mut self) -> Result<Option<Label>, Refused>
        ensures read { Reads (spec.last_label self.old.rest.now) result self.new.rest.now }
        ensures shorter { length self.new.rest.now ≤ length self.old.rest.now }
    {
        if self.eat(Symbol::DotDot).is_none() {
            return Ok(None);
        }
        Ok(Some(self.label()?))
    }

    #[tactic(auto, unfolding(crate::specs::NameReading::label_range))]
    fn label_range(&mut self) -> Result<LabelRange, Refused>
        ensures read { Reads (spec.label_range self.old.rest.now) result self.new.rest.now }
        ensures shorter { length self.new.rest.now ≤ length self.old.rest.now }
    {
        let first = self.label()?;
        let last = self.last_label()?;
        Ok(LabelRange { first, last })
    }

    /// One or more labels or ranges of labels, with commas between.
    #[tactic(auto, unfolding(crate::specs::Reading::separated))]
    pub fn label_ranges(&mut self) -> Result<Items<LabelRange>, Refused>
        ensures read { Reads (separated s.Comma spec.label_range self.old.rest.now) result self.new.rest.now }
        ensures shorter { length self.new.rest.now ≤ length self.old.rest.now }
    {
        let mut ranges = Items::new(self.alloc);
        ranges.push(self.label_range()?)?;
        while let Some(next) = self.next_label_range()? {
            ranges.push(next)?;
        }
        Ok(ranges)
    }

    #[tactic(auto, unfolding(crate::specs::Reading::next_item))]
    fn next_label_range(&mut self) -> Result<Option<LabelRange>, Refused>
        ensures read { Reads (next_item s.Comma spec.label_range self.old.rest.now) result self.new.rest.now }
        ensures shorter { length self.new.rest.now ≤ length self.old.rest.now }
        ensures taken { IfOk result (λ found. OnSome found (length self.new.rest.now < length self.old.rest.now)) }
    {
        if self.eat(Symbol::Comma).is_none() {
            return Ok(None);
        }
        Ok(Some(self.label_range()?))
    }
}
