//! Whether a name in parentheses is a selector.

ghost use Rattle.std.specs.Prelude.{◌≡◌};
ghost use Rattle.ob_tree.specs.Ahead as spec;

use ob_scan::{Kind, Symbol, Token};

fn goes_on(tokens: &[Token]) -> bool
    ensures { result ≡ spec.goes_on_at tokens.now }
{
    match tokens {
        [
            Token {
                kind: Kind::Symbol(
                    Symbol::Period | Symbol::LeftBracket | Symbol::LeftParen | Symbol::Becomes,
                ),
                ..
            },
            ..
        ] => true,
        _ => false,
    }
}

fn closed(tokens: &[Token]) -> bool
    ensures { result ≡ spec.closed_at tokens.now }
{
    match tokens {
        [
            Token {
                kind: Kind::Symbol(Symbol::RightParen),
                ..
            },
            rest @ ..,
        ] => goes_on(rest),
        _ => false,
    }
}

fn second(tokens: &[Token]) -> bool
    ensures { result ≡ spec.second_at tokens.now }
{
    match tokens {
        [
            Token {
                kind: Kind::Ident(_),
                ..
            },
            rest @ ..,
        ] => closed(rest),
        _ => false,
    }
}

fn named(tokens: &[Token]) -> bool
    ensures { result ≡ spec.named_at tokens.now }
{
    match tokens {
        [
            Token {
                kind: Kind::Symbol(Symbol::Period),
                ..
            },
            rest @ ..,
        ] => second(rest),
        [
            Token {
                kind: Kind::Symbol(Symbol::RightParen),
                ..
            },
            rest @ ..,
        ] => goes_on(rest),
        _ => false,
    }
}

fn first(tokens: &[Token]) -> bool
    ensures { result ≡ spec.first_at tokens.now }
{
    match tokens {
        [
            Token {
                kind: Kind::Ident(_),
                ..
            },
            rest @ ..,
        ] => named(rest),
        _ => false,
    }
}

/// Whether a name in parentheses comes next, and behind it a sign that goes on with it.
pub fn at_guard(tokens: &[Token]) -> bool
    ensures { result ≡ spec.at_guard tokens.now }
{
    match tokens {
        [
            Token {
                kind: Kind::Symbol(Symbol::LeftParen),
                ..
            },
            rest @ ..,
        ] => first(rest),
        _ => false,
    }
}
