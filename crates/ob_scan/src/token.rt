//! The tokens of a text.

ghost use Rattle.std.specs.Prelude.{◌≡◌, ◌≢◌, true, false};
ghost use Rattle.ob_scan.specs.Symbols.{same_symbol};

use ob_base::{Boxed, Text};

/// A reserved word or a sign.
#[derive(Clone, Copy, Debug, PartialEq, Eq)]
pub enum Symbol {
    Array,
    Begin,
    By,
    Case,
    Const,
    Div,
    Do,
    Else,
    Elsif,
    End,
    False,
    For,
    If,
    Import,
    In,
    Is,
    Mod,
    Module,
    Nil,
    Of,
    Or,
    Pointer,
    Procedure,
    Record,
    Repeat,
    Return,
    Then,
    To,
    True,
    Type,
    Until,
    Var,
    While,
    Plus,
    Minus,
    Times,
    Slash,
    Not,
    And,
    Period,
    Comma,
    Semicolon,
    Bar,
    LeftParen,
    RightParen,
    LeftBracket,
    RightBracket,
    LeftBrace,
    RightBrace,
    Becomes,
    Arrow,
    Equal,
    NotEqual,
    Less,
    LessEqual,
    Greater,
    GreaterEqual,
    DotDot,
    Colon,
}

/// What a token is, with its value. Texts stand apart, so that a sign takes little room.
#[derive(Debug, Drop)]
pub enum Kind {
    Ident(Boxed<Text>),
    Integer(i32),
    Text(Boxed<Text>),
    Symbol(Symbol),
}

/// Where a token stands: its first byte and the byte after it, and the line and column of its first
/// character, from 1.
#[derive(Clone, Copy, Debug, PartialEq, Eq)]
pub struct Span {
    pub start: u32,
    pub end: u32,
    pub line: u32,
    pub column: u32,
}

/// A token, and where it stands.
#[derive(Debug, Drop)]
pub struct Token {
    pub kind: Kind,
    pub span: Span,
}

/// Whether two signs or reserved words are the same.
pub fn same_symbol(a: Symbol, b: Symbol) -> bool
    ensures value { result ≡ same_symbol a b }
    ensures same { result ≡ true → a ≡ b }
    ensures other { result ≡ false → a ≢ b }
{
    a == b
}
