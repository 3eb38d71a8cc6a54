//! The members of an answer, in a text with no space.

ghost use Rattle.std.specs.Prelude.{◌≡◌, [], ◌∷◌, ◌++◌, OnOk};
ghost use Rattle.json.specs.Token.{begin_object, end_object};
ghost use Rattle.serde_json.specs.Data.{null, boolean, string};
ghost use Rattle.nb_doc.specs.Writing.{notebook_form};
ghost use Rattle.nb_text.specs.Tokens.{member_tokens};

use crate::members::write_text;
use crate::sink::Compact;
use crate::whole::write_book;
use json::Token;
use nb_doc::Notebook;
use std::alloc::{AllocError, Global};

impl Compact {
    /// An object begins.
    pub fn begin(&mut self) -> Result<(), AllocError>
        ensures { OnOk result (self.new ≡ self.old ++ begin_object ∷ []) }
    {
        self.token(Token::BeginObject)
    }

    /// An object ends.
    pub fn end(&mut self) -> Result<(), AllocError>
        ensures { OnOk result (self.new ≡ self.old ++ end_object ∷ []) }
    {
        self.token(Token::EndObject)
    }

    /// A member that is a text.
    pub fn text(&mut self, key: &str, text: &str) -> Result<(), AllocError>
        ensures { OnOk result (self.new ≡ self.old ++ member_tokens key.now (string text.now)) }
    {
        write_text(self, key, text)
    }

    /// A member that is `null`.
    pub fn null(&mut self, key: &str) -> Result<(), AllocError>
        ensures { OnOk result (self.new ≡ self.old ++ member_tokens key.now null) }
    {
        self.token(Token::Key(key))?;
        self.token(Token::Null)
    }

    /// A member that is a truth value.
    pub fn boolean(&mut self, key: &str, value: bool) -> Result<(), AllocError>
        ensures { OnOk result (self.new ≡ self.old ++ member_tokens key.now (boolean value)) }
    {
        self.token(Token::Key(key))?;
        self.token(Token::Bool(value))
    }

    /// A member that is a notebook.
    pub fn notebook(
        &mut self,
        alloc: Global,
        key: &str,
        notebook: &Notebook,
    ) -> Result<(), AllocError>
        ensures { OnOk result (self.new ≡ self.old ++ member_tokens key.now (notebook_form notebook.now)) }
    {
        self.token(Token::Key(key))?;
        write_book(alloc, self, notebook)
    }
}
