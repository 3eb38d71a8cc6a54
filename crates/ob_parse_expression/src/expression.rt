//! Expressions, by recursive descent.

ghost use Rattle.std.specs.Prelude.{◌≡◌, ◌≤◌, ◌<◌, length, IfOk, OnSome};
ghost use Rattle.ob_parse_expression.specs.ExpressionReading as spec;
ghost use Rattle.ob_parse_expression.specs.ExpressionReading.{inner, inner_factor};
ghost use Rattle.ob_parse_expression.specs.Reading.{Reads, many};

use crate::ahead::at_guard;
use crate::parser::Parser;
use ob_base::{Boxed, Code, Items, Refused};
use ob_scan::{Kind, Span, Symbol, Token};
use ob_tree::tree::{
    AddedTerm, Designator, Expr, Factor, NextFactor, Related, Selector, Simple, Term,
};

impl Parser<'_> {
    /// An expression in which `levels` more constructs may nest.
    #[cycle(expression)]
    #[tactic(auto, unfolding(crate::specs::ExpressionReading::expr_of))]
    pub fn expr(&mut self, levels: u32) -> Result<Expr, Refused>
        ensures read { Reads (spec.expr levels self.old.rest.now) result self.new.rest.now }
        ensures shorter { length self.new.rest.now ≤ length self.old.rest.now }
    {
        let left = self.simple(levels)?;
        let right = self.related(levels)?;
        Ok(Expr { left, right })
    }

    /// The same, behind a pointer: so what holds it stays small.
    #[cycle(expression)]
    pub fn boxed_expr(&mut self, levels: u32) -> Result<Boxed<Expr>, Refused>
        ensures read { Reads (spec.expr levels self.old.rest.now) result self.new.rest.now }
        ensures shorter { length self.new.rest.now ≤ length self.old.rest.now }
    {
        let value = self.expr(levels)?;
        Ok(Boxed::new(self.alloc, value)?)
    }

    #[cycle(expression)]
    #[tactic(auto, unfolding(crate::specs::ExpressionReading::related))]
    fn related(&mut self, levels: u32) -> Result<Option<Boxed<Related>>, Refused>
        ensures read { Reads (spec.related levels (inner levels) (inner_factor levels) self.old.rest.now) result self.new.rest.now }
        ensures shorter { length self.new.rest.now ≤ length self.old.rest.now }
    {
        let Some((relation, span)) = self.relation() else {
            return self.asked();
        };
        let simple = self.simple(levels)?;
        let related = Related::By(relation, span, simple);
        Ok(Some(Boxed::new(self.alloc, related)?))
    }

    /// IS and the name of a type, if IS comes next.
    #[tactic(auto, unfolding(crate::specs::ExpressionReading::asked))]
    fn asked(&mut self) -> Result<Option<Boxed<Related>>, Refused>
        ensures read { Reads (spec.asked self.old.rest.now) result self.new.rest.now }
        ensures shorter { length self.new.rest.now ≤ length self.old.rest.now }
    {
        let Some(span) = self.eat(Symbol::Is) else {
            return Ok(None);
        };
        let of = self.qualident()?;
        let asked = Related::Is(span, of);
        Ok(Some(Boxed::new(self.alloc, asked)?))
    }

    #[cycle(expression)]
    #[tactic(auto, unfolding(crate::specs::ExpressionReading::simple))]
    fn simple(&mut self, levels: u32) -> Result<Simple, Refused>
        ensures read { Reads (spec.simple levels (inner levels) (inner_factor levels) self.old.rest.now) result self.new.rest.now }
        ensures shorter { length self.new.rest.now ≤ length self.old.rest.now }
    {
        let sign = self.sign();
        let first = self.term(levels)?;
        let others = self.added_terms(levels)?;
        Ok(Simple {
            sign,
            first,
            others,
        })
    }

    #[cycle(expression)]
    fn added_terms(&mut self, levels: u32) -> Result<Items<AddedTerm>, Refused>
        ensures read { Reads (many (spec.added_term levels (inner levels) (inner_factor levels)) self.old.rest.now) result self.new.rest.now }
        ensures shorter { length self.new.rest.now ≤ length self.old.rest.now }
    {
        let mut items = Items::new(self.alloc);
        while let Some(next) = self.added_term(levels)? {
            items.push(next)?;
        }
        Ok(items)
    }

    #[cycle(expression)]
    #[tactic(auto, unfolding(crate::specs::ExpressionReading::added_term))]
    fn added_term(&mut self, levels: u32) -> Result<Option<AddedTerm>, Refused>
        ensures read { Reads (spec.added_term levels (inner levels) (inner_factor levels) self.old.rest.now) result self.new.rest.now }
        ensures shorter { length self.new.rest.now ≤ length self.old.rest.now }
        ensures taken { IfOk result (λ found. OnSome found (length self.new.rest.now < length self.old.rest.now)) }
    {
        let Some((operator, span)) = self.add_operator() else {
            return Ok(None);
        };
        let term = self.term(levels)?;
        Ok(Some(AddedTerm {
            operator,
            span,
            term,
        }))
    }

    #[cycle(expression)]
    #[tactic(auto, unfolding(crate::specs::ExpressionReading::term))]
    fn term(&mut self, levels: u32) -> Result<Term, Refused>
        ensures read { Reads (spec.term levels (inner levels) (inner_factor levels) self.old.rest.now) result self.new.rest.now }
        ensures shorter { length self.new.rest.now ≤ length self.old.rest.now }
    {
        let first = self.factor(levels)?;
        let others = self.next_factors(levels)?;
        Ok(Term { first, others })
    }

    #[cycle(expression)]
    fn next_factors(&mut self, levels: u32) -> Result<Items<NextFactor>, Refused>
        ensures read { Reads (many (spec.next_factor levels (inner levels) (inner_factor levels)) self.old.rest.now) result self.new.rest.now }
        ensures shorter { length self.new.rest.now ≤ length self.old.rest.now }
    {
        let mut items = Items::new(self.alloc);
        while let Some(next) = self.next_factor(levels)? {
            items.push(next)?;
        }
        Ok(items)
    }

    #[cycle(expression)]
    #[tactic(auto, unfolding(crate::specs::ExpressionReading::next_factor))]
    fn next_factor(&mut self, levels: u32) -> Result<Option<NextFactor>, Refused>
        ensures read { Reads (spec.next_factor levels (inner levels) (inner_factor levels) self.old.rest.now) result self.new.rest.now }
        ensures shorter { length self.new.rest.now ≤ length self.old.rest.now }
        ensures taken { IfOk result (λ found. OnSome found (length self.new.rest.now < length self.old.rest.now)) }
    {
        let Some((operator, span)) = self.mul_operator() else {
            return Ok(None);
        };
        let factor = self.factor(levels)?;
        Ok(Some(NextFactor {
            operator,
            span,
            factor,
        }))
    }

    #[cycle(expression)]
    #[tactic(auto, unfolding(crate::specs::ExpressionReading::factor_of))]
    fn factor(&mut self, levels: u32) -> Result<Factor, Refused>
        ensures read { Reads (spec.factor_of levels (inner levels) (inner_factor levels) self.old.rest.now) result self.new.rest.now }
        ensures shorter { length self.new.rest.now ≤ length self.old.rest.now }
    {
        let [Token { kind, span }, rest @ ..] = self.rest else {
            return Err(self.fault(Code::Token));
        };
        let span = *span;
        match kind {
            Kind::Ident(_) => self.value_or_call(levels),
            Kind::Integer(number) => {
                self.rest = rest;
                Ok(Factor::Integer(*number, span))
            }
            Kind::Text(text) => {
                let text = text.get().copy(self.alloc)?;
                self.rest = rest;
                Ok(Factor::Text(text, span))
            }
            Kind::Symbol(Symbol::True) => {
                self.rest = rest;
                Ok(Factor::Truth(true, span))
            }
            Kind::Symbol(Symbol::False) => {
                self.rest = rest;
                Ok(Factor::Truth(false, span))
            }
            Kind::Symbol(Symbol::LeftParen) => {
                self.rest = rest;
                self.parens(levels, span)
            }
            Kind::Symbol(Symbol::Not) => {
                self.rest = rest;
                self.negated(levels, span)
            }
            _ => Err(self.fault(Code::Token)),
        }
    }

    /// What stands after an opening parenthesis, whose place is given.
    #[cycle(expression)]
    #[tactic(auto, unfolding(crate::specs::ExpressionReading::parens))]
    fn parens(&mut self, levels: u32, span: Span) -> Result<Factor, Refused>
        ensures read { Reads (spec.parens levels (inner levels) span self.old.rest.now) result self.new.rest.now }
        ensures shorter { length self.new.rest.now ≤ length self.old.rest.now }
    {
        let inside = self.open(levels, span)?;
        let value = self.boxed_expr(inside)?;
        self.expect(Symbol::RightParen)?;
        Ok(Factor::Parens(span, value))
    }

    /// What stands after `~`, whose place is given.
    #[cycle(expression)]
    #[tactic(auto, unfolding(crate::specs::ExpressionReading::negated))]
    fn negated(&mut self, levels: u32, span: Span) -> Result<Factor, Refused>
        ensures read { Reads (spec.negated levels (inner_factor levels) span self.old.rest.now) result self.new.rest.now }
        ensures shorter { length self.new.rest.now ≤ length self.old.rest.now }
    {
        let inside = self.open(levels, span)?;
        let operand = self.factor(inside)?;
        Ok(Factor::Not(span, Boxed::new(self.alloc, operand)?))
    }

    #[cycle(expression)]
    #[tactic(auto, unfolding(crate::specs::ExpressionReading::value_or_call))]
    fn value_or_call(&mut self, levels: u32) -> Result<Factor, Refused>
        ensures read { Reads (spec.value_or_call levels (inner levels) self.old.rest.now) result self.new.rest.now }
        ensures shorter { length self.new.rest.now ≤ length self.old.rest.now }
    {
        let designator = self.designator(levels)?;
        let Some(span) = self.eat(Symbol::LeftParen) else {
            return Ok(Factor::Value(designator));
        };
        let designator = Boxed::new(self.alloc, designator)?;
        Ok(Factor::Call(designator, self.actuals(levels, span)?))
    }

    /// The actual parameters after an opening parenthesis, whose place is given.
    #[cycle(expression)]
    #[tactic(auto, unfolding(crate::specs::ExpressionReading::actuals))]
    pub fn actuals(&mut self, levels: u32, span: Span) -> Result<Items<Expr>, Refused>
        ensures read { Reads (spec.actuals levels (inner levels) self.old.rest.now) result self.new.rest.now }
        ensures shorter { length self.new.rest.now ≤ length self.old.rest.now }
    {
        let inside = self.open(levels, span)?;
        if self.eat(Symbol::RightParen).is_some() {
            return Ok(Items::new(self.alloc));
        }
        let actuals = self.exprs(inside)?;
        self.expect(Symbol::RightParen)?;
        Ok(actuals)
    }

    /// A designator, with its selectors.
    #[cycle(expression)]
    #[tactic(auto, unfolding(crate::specs::ExpressionReading::designator))]
    pub fn designator(&mut self, levels: u32) -> Result<Designator, Refused>
        ensures read { Reads (spec.designator levels (inner levels) self.old.rest.now) result self.new.rest.now }
        ensures shorter { length self.new.rest.now ≤ length self.old.rest.now }
    {
        let name = self.ident()?;
        let selectors = self.selectors(levels)?;
        Ok(Designator { name, selectors })
    }

    #[cycle(expression)]
    fn selectors(&mut self, levels: u32) -> Result<Items<Selector>, Refused>
        ensures read { Reads (many (spec.selector levels (inner levels)) self.old.rest.now) result self.new.rest.now }
        ensures shorter { length self.new.rest.now ≤ length self.old.rest.now }
    {
        let mut items = Items::new(self.alloc);
        while let Some(next) = self.selector(levels)? {
            items.push(next)?;
        }
        Ok(items)
    }

    #[cycle(expression)]
    #[tactic(auto, unfolding(crate::specs::ExpressionReading::selector))]
    fn selector(&mut self, levels: u32) -> Result<Option<Selector>, Refused>
        ensures read { Reads (spec.selector levels (inner levels) self.old.rest.now) result self.new.rest.now }
        ensures shorter { length self.new.rest.now ≤ length self.old.rest.now }
        ensures taken { IfOk result (λ found. OnSome found (length self.new.rest.now < length self.old.rest.now)) }
    {
        if self.eat(Symbol::Period).is_some() {
            return Ok(Some(Selector::Field(self.ident()?)));
        }
        let Some(span) = self.eat(Symbol::LeftBracket) else {
            return self.guard();
        };
        let inside = self.open(levels, span)?;
        let indexes = self.exprs(inside)?;
        self.expect(Symbol::RightBracket)?;
        Ok(Some(Selector::Index(indexes)))
    }

    /// A name in parentheses that is a selector, if one comes next.
    #[tactic(auto, unfolding(crate::specs::ExpressionReading::guard))]
    fn guard(&mut self) -> Result<Option<Selector>, Refused>
        ensures read { Reads (spec.guard self.old.rest.now) result self.new.rest.now }
        ensures shorter { length self.new.rest.now ≤ length self.old.rest.now }
        ensures taken { IfOk result (λ found. OnSome found (length self.new.rest.now < length self.old.rest.now)) }
    {
        if !at_guard(self.rest) {
            return Ok(None);
        }
        self.guard_name()
    }

    #[tactic(auto, unfolding(crate::specs::ExpressionReading::guard_name))]
    fn guard_name(&mut self) -> Result<Option<Selector>, Refused>
        ensures read { Reads (spec.guard_name self.old.rest.now) result self.new.rest.now }
        ensures shorter { length self.new.rest.now ≤ length self.old.rest.now }
        ensures taken { IfOk result (λ found. OnSome found (length self.new.rest.now < length self.old.rest.now)) }
    {
        self.expect(Symbol::LeftParen)?;
        let of = self.qualident()?;
        self.expect(Symbol::RightParen)?;
        Ok(Some(Selector::Guard(of)))
    }

    /// One or more expressions, with commas between.
    #[cycle(expression)]
    #[tactic(auto, unfolding(crate::specs::ExpressionReading::exprs))]
    pub fn exprs(&mut self, levels: u32) -> Result<Items<Expr>, Refused>
        ensures read { Reads (spec.exprs (spec.expr levels) self.old.rest.now) result self.new.rest.now }
        ensures shorter { length self.new.rest.now ≤ length self.old.rest.now }
    {
        let mut exprs = Items::new(self.alloc);
        exprs.push(self.expr(levels)?)?;
        while let Some(next) = self.next_expr(levels)? {
            exprs.push(next)?;
        }
        Ok(exprs)
    }

    #[cycle(expression)]
    #[tactic(auto, unfolding(crate::specs::ExpressionReading::next_expr))]
    fn next_expr(&mut self, levels: u32) -> Result<Option<Expr>, Refused>
        ensures read { Reads (spec.next_expr (spec.expr levels) self.old.rest.now) result self.new.rest.now }
        ensures shorter { length self.new.rest.now ≤ length self.old.rest.now }
        ensures taken { IfOk result (λ found. OnSome found (length self.new.rest.now < length self.old.rest.now)) }
    {
        if self.eat(Symbol::Comma).is_none() {
            return Ok(None);
        }
        Ok(Some(self.expr(levels)?))
    }
}
