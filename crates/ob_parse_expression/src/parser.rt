//! What every production reads by: a cursor over tokens.

ghost use Rattle.std.specs.Prelude.{◌≡◌, ◌≢◌, ℕ, suc, ◌≤◌, ◌<◌, length, Ok, Option, Some, None, OnOk, OnSome, IfOk, MatchOption};
ghost use Rattle.ob_parse_expression.specs.Reading as reading;
ghost use Rattle.ob_parse_expression.specs.Reading.{Reads, IsFault};

use ob_base::{Code, Fault, Refused};
use ob_scan::{Kind, Span, Symbol, Token, same_symbol};
use ob_tree::tree::Ident;
use std::alloc::Global;

/// The tokens that are left.
#[derive(Drop)]
pub struct Parser<'a> {
    pub alloc: Global,
    pub rest: &'a [Token],
    /// The place just after the last token of all.
    pub end: Span,
}

impl<'a> Parser<'a> {
    /// A fault at the next token, or at the end.
    pub fn fault(&self, code: Code) -> Refused
        ensures { IsFault code result }
    {
        let (at, at_end) = match self.rest {
            [token, ..] => (token.span, false),
            [] => (self.end, true),
        };
        Refused::Fault(Fault {
            code,
            line: at.line as usize,
            column: at.column as usize,
            at_end,
        })
    }

    /// Passes a symbol, if it comes next.
    #[tactic(auto, unfolding(crate::specs::Reading::eat))]
    pub fn eat(&mut self, symbol: Symbol) -> Option<Span>
        ensures read { reading.eat symbol self.old.rest.now ≡ Ok (result, self.new.rest.now) }
        ensures shorter { length self.new.rest.now ≤ length self.old.rest.now }
        ensures taken { OnSome result (length self.new.rest.now < length self.old.rest.now) }
    {
        match self.rest {
            [
                Token {
                    kind: Kind::Symbol(found),
                    span,
                },
                rest @ ..,
            ] if same_symbol(*found, symbol) => {
                self.rest = rest;
                Some(*span)
            }
            _ => None,
        }
    }

    /// Passes a symbol that has to come next.
    #[tactic(auto, unfolding(crate::specs::Reading::expect))]
    pub fn expect(&mut self, symbol: Symbol) -> Result<Span, Refused>
        ensures read { Reads (reading.expect symbol self.old.rest.now) result self.new.rest.now }
        ensures taken { IfOk result (λ _. length self.new.rest.now < length self.old.rest.now) }
        ensures shorter { length self.new.rest.now ≤ length self.old.rest.now }
    {
        match self.rest {
            [
                Token {
                    kind: Kind::Symbol(found),
                    span,
                },
                rest @ ..,
            ] if same_symbol(*found, symbol) => {
                self.rest = rest;
                Ok(*span)
            }
            _ => Err(self.fault(Code::Token)),
        }
    }

    /// A name.
    #[tactic(auto, unfolding(crate::specs::Reading::ident))]
    pub fn ident(&mut self) -> Result<Ident, Refused>
        ensures read { Reads (reading.ident self.old.rest.now) result self.new.rest.now }
        ensures taken { IfOk result (λ _. length self.new.rest.now < length self.old.rest.now) }
        ensures shorter { length self.new.rest.now ≤ length self.old.rest.now }
    {
        match self.rest {
            [
                Token {
                    kind: Kind::Ident(name),
                    span,
                },
                rest @ ..,
            ] => {
                let name = name.get().copy(self.alloc)?;
                self.rest = rest;
                Ok(Ident { name, span: *span })
            }
            _ => Err(self.fault(Code::Token)),
        }
    }

    /// Whether a name comes next.
    pub fn at_ident(&self) -> bool
        ensures { result ≡ reading.at_ident self.now.rest.now }
    {
        match self.rest {
            [
                Token {
                    kind: Kind::Ident(_),
                    ..
                },
                ..
            ] => true,
            _ => false,
        }
    }

    /// Opens one more construct by the sign or word at `at`, and answers how many more may open in it.
    #[tactic(auto, unfolding(crate::specs::Reading::opens))]
    pub fn open(&self, levels: u32, at: Span) -> Result<u32, Refused>
        ensures read { Reads (reading.opens levels self.now.rest.now) result self.now.rest.now }
        ensures inside { IfOk result (λ inside. levels ≡ suc inside) }
    {
        if levels == 0 {
            return Err(Refused::Fault(Fault {
                code: Code::Nesting,
                line: at.line as usize,
                column: at.column as usize,
                at_end: false,
            }));
        }
        Ok(levels - 1)
    }
}
