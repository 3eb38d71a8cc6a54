//! Where an expression begins.

ghost use Rattle.std.specs.Prelude.{◌≡◌, ℕ, List};
ghost use Rattle.ob_scan.specs.declared.token.Token.{Token};
ghost use Rattle.ob_tree.specs.declared.tree.Expr.{Expr};
ghost use Rattle.ob_tree.specs.declared.tree.Factor.{out-Factor};
ghost use Rattle.ob_tree.specs.Expression as grammar;
ghost use Rattle.ob_tree.specs.FirstToken.{first_of, first_of_factor, BeginsAt};

use crate::tree::{Expr, Factor};
use ob_scan::Span;

impl Expr {
    /// The place of the first token.
    pub fn first_token(&self) -> Span
        ensures { result ≡ first_of self.now }
    {
        match &self.left.sign {
            Some((_, span)) => *span,
            None => self.left.first.first.first_token(),
        }
    }
}

impl Factor {
    /// The place of the first token.
    pub fn first_token(&self) -> Span
        ensures { result ≡ first_of_factor (out-Factor self.now) }
    {
        match self {
            Factor::Integer(_, span)
            | Factor::Text(_, span)
            | Factor::Truth(_, span)
            | Factor::Parens(span, _)
            | Factor::Not(span, _) => *span,
            Factor::Value(designator) => designator.name.span,
            Factor::Call(designator, _) => designator.get().name.span,
        }
    }
}

/// The tokens of an expression begin at the place that `first_of` names.
pub fn first_token_law()
    ensures { (levels : ℕ) (e : Expr) (tokens rest : List Token) → grammar.expr levels e tokens rest → BeginsAt (first_of e) tokens }
{}
