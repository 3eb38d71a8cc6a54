//! What takes the tokens of a text.

ghost use Rattle.std.specs.Prelude.{◌≡◌, List, [], ◌∷◌, ◌++◌, OnOk};
ghost use Rattle.json.specs.Token.{Token as SpecToken};
ghost use Rattle.json.specs.Reads.{token_of};
ghost use Rattle.json.specs.Print.{print, IsPrintable};

use json::{Pretty, Token, Writer};
use std::alloc::{AllocError, Global};
use std::marker::Model;

pub(crate) trait Tokens {
    ghost written: { Self → List SpecToken };

    fn token(&mut self, token: Token<'_>) -> Result<(), AllocError>
        requires { IsPrintable (token_of token) }
        ensures { OnOk result (written self.new ≡ written self.old ++ token_of token.entry ∷ []) };
}

impl Tokens for Pretty {
    ghost written = { λ w. w };

    #[inline(always)]
    fn token(&mut self, token: Token<'_>) -> Result<(), AllocError> {
        Pretty::token(self, token)
    }
}

/// A text with no space. Contracts see its tokens.
pub struct Compact {
    out: Writer,
}

// Written out, so that a proof of a caller has one step for it.
impl Drop for Compact {
    fn drop(self) {
        let Compact { out: _ } = self;
    }
}

impl Model for Compact {
    ghost use Rattle.std.specs.Prelude.{◌≡◌, List, []};
    ghost use Rattle.json.specs.Token.{Token as SpecToken, tokens_code};

    ghost Value = { List SpecToken };

    ghost coded = { tokens_code };

    ghost view = { λ c. c.out.tokens };

    ghost invariant = { λ c. c.out.before ≡ [] };
}

impl Compact {
    /// No tokens.
    pub fn new(alloc: Global) -> Compact
        ensures { result ≡ [] }
    {
        Compact {
            out: Writer::new(Vec::new(alloc)),
        }
    }

    /// The text.
    pub fn into_text(self) -> Vec<u8>
        ensures { result.items ≡ print self }
    {
        let Compact { out } = self;
        out.into_inner()
    }

    /// One more token.
    #[inline(always)]
    pub fn token(&mut self, token: Token<'_>) -> Result<(), AllocError>
        requires { IsPrintable (token_of token) }
        ensures { OnOk result (self.new ≡ self.old ++ token_of token.entry ∷ []) }
    {
        self.out.token(token)
    }
}

impl Tokens for Compact {
    ghost written = { λ c. c };

    #[inline(always)]
    fn token(&mut self, token: Token<'_>) -> Result<(), AllocError> {
        Compact::token(self, token)
    }
}
