//! What a slice wrote, which is shown without a copy of it.

ghost use Rattle.std.specs.Prelude.{◌≡◌, IfOk, string_bytes};
ghost use Rattle.jk_log.specs.Texts.{text_in};

use jp_msg::shared_text;
use json_form::{Shared, Text};
use std::alloc::{AllocError, Global};
use std::marker::Model;

/// How a text is held.
#[derive(Drop)]
pub(crate) enum Held {
    /// With what is shown of it.
    Together(Shared<Text>),
    /// By its mark alone: it is empty, or memory was refused as it was to be shared.
    Alone(Text),
}

/// What a slice wrote. Contracts see the text itself.
pub struct Written {
    held: Held,
}

// Written out, so that a proof of a caller has one step for it.
impl Drop for Written {
    fn drop(self) {
        let Written { held: _ } = self;
    }
}

impl Model for Written {
    ghost use Rattle.std.specs.Prelude.{ℕ, List};
    ghost use Rattle.jk_log.specs.Texts.{text_in};

    ghost Value = { List ℕ };

    ghost view = { λ w. text_in w.held };
}

impl Written {
    /// A text that is taken over. Where it is not empty it is made ready to be shared, which takes a little memory;
    /// where that is refused it is kept all the same, and `shared` copies it.
    pub fn from_string(text: String) -> Written
        ensures { result ≡ string_bytes text }
    {
        let alloc = *text.allocator();
        Written {
            held: hold(alloc, Text::from_string(text)),
        }
    }

    /// The text.
    pub fn as_str(&self) -> &str
        ensures { result.now ≡ self.now }
    {
        match &self.held {
            Held::Together(text) => text.value().as_str(),
            Held::Alone(text) => text.as_str(),
        }
    }

    /// One more owner of the text. Only an empty text, or one for which memory was refused before, is copied.
    ///
    /// # Errors
    ///
    /// Out of memory for that copy, or the count of owners is full.
    pub fn shared(&self, alloc: Global) -> Result<Shared<Text>, AllocError>
        ensures { IfOk result (λ s. s ≡ self.now) }
    {
        match &self.held {
            Held::Together(text) => text.another(),
            Held::Alone(text) => shared_text(alloc, text.as_str()),
        }
    }
}

/// A text, ready to be shared where it is not empty and there is memory for that.
fn hold(alloc: Global, text: Text) -> Held
    ensures { text_in result ≡ text }
{
    if text.as_str().is_empty() {
        return Held::Alone(text);
    }
    match Shared::share(alloc, text) {
        Ok(shared) => Held::Together(shared),
        Err(back) => Held::Alone(back.value),
    }
}
