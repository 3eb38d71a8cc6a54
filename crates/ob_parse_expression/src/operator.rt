//! Operators.

ghost use Rattle.std.specs.Prelude.{◌≡◌, ◌≤◌, ◌<◌, length, Ok, OnSome};
ghost use Rattle.ob_parse_expression.specs.ExpressionReading as spec;
ghost use Rattle.ob_parse_expression.specs.Reading as reading;

use crate::parser::Parser;
use ob_scan::{Kind, Span, Symbol};
use ob_tree::tree::{AddOperator, MulOperator, Relation, Sign};

fn sign_of(kind: &Kind) -> Option<Sign>
    ensures { result ≡ spec.sign_of kind.now }
{
    match kind {
        Kind::Symbol(Symbol::Plus) => Some(Sign::Plus),
        Kind::Symbol(Symbol::Minus) => Some(Sign::Minus),
        _ => None,
    }
}

fn relation_of(kind: &Kind) -> Option<Relation>
    ensures { result ≡ spec.relation_of kind.now }
{
    match kind {
        Kind::Symbol(Symbol::Equal) => Some(Relation::Equal),
        Kind::Symbol(Symbol::NotEqual) => Some(Relation::NotEqual),
        Kind::Symbol(Symbol::Less) => Some(Relation::Less),
        Kind::Symbol(Symbol::LessEqual) => Some(Relation::LessEqual),
        Kind::Symbol(Symbol::Greater) => Some(Relation::Greater),
        Kind::Symbol(Symbol::GreaterEqual) => Some(Relation::GreaterEqual),
        _ => None,
    }
}

fn add_of(kind: &Kind) -> Option<AddOperator>
    ensures { result ≡ spec.add_of kind.now }
{
    match kind {
        Kind::Symbol(Symbol::Plus) => Some(AddOperator::Plus),
        Kind::Symbol(Symbol::Minus) => Some(AddOperator::Minus),
        Kind::Symbol(Symbol::Or) => Some(AddOperator::Or),
        _ => None,
    }
}

fn mul_of(kind: &Kind) -> Option<MulOperator>
    ensures { result ≡ spec.mul_of kind.now }
{
    match kind {
        Kind::Symbol(Symbol::Times) => Some(MulOperator::Times),
        Kind::Symbol(Symbol::Div) => Some(MulOperator::Div),
        Kind::Symbol(Symbol::Mod) => Some(MulOperator::Mod),
        Kind::Symbol(Symbol::And) => Some(MulOperator::And),
        _ => None,
    }
}

impl Parser<'_> {
    #[tactic(auto, unfolding(crate::specs::Reading::operator))]
    pub(crate) fn sign(&mut self) -> Option<(Sign, Span)>
        ensures read { reading.operator spec.sign_of self.old.rest.now ≡ Ok (result, self.new.rest.now) }
        ensures shorter { length self.new.rest.now ≤ length self.old.rest.now }
    {
        let (token, rest) = self.rest.split_first()?;
        let sign = sign_of(&token.kind)?;
        self.rest = rest;
        Some((sign, token.span))
    }

    #[tactic(auto, unfolding(crate::specs::Reading::operator))]
    pub(crate) fn relation(&mut self) -> Option<(Relation, Span)>
        ensures read { reading.operator spec.relation_of self.old.rest.now ≡ Ok (result, self.new.rest.now) }
        ensures shorter { length self.new.rest.now ≤ length self.old.rest.now }
    {
        let (token, rest) = self.rest.split_first()?;
        let relation = relation_of(&token.kind)?;
        self.rest = rest;
        Some((relation, token.span))
    }

    #[tactic(auto, unfolding(crate::specs::Reading::operator))]
    pub(crate) fn add_operator(&mut self) -> Option<(AddOperator, Span)>
        ensures read { reading.operator spec.add_of self.old.rest.now ≡ Ok (result, self.new.rest.now) }
        ensures shorter { length self.new.rest.now ≤ length self.old.rest.now }
        ensures taken { OnSome result (length self.new.rest.now < length self.old.rest.now) }
    {
        let (token, rest) = self.rest.split_first()?;
        let operator = add_of(&token.kind)?;
        self.rest = rest;
        Some((operator, token.span))
    }

    #[tactic(auto, unfolding(crate::specs::Reading::operator))]
    pub(crate) fn mul_operator(&mut self) -> Option<(MulOperator, Span)>
        ensures read { reading.operator spec.mul_of self.old.rest.now ≡ Ok (result, self.new.rest.now) }
        ensures shorter { length self.new.rest.now ≤ length self.old.rest.now }
        ensures taken { OnSome result (length self.new.rest.now < length self.old.rest.now) }
    {
        let (token, rest) = self.rest.split_first()?;
        let operator = mul_of(&token.kind)?;
        self.rest = rest;
        Some((operator, token.span))
    }
}
