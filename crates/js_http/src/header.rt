//! The header lines of a message (field lines in RFC 9110, section 5).
ghost use Rattle.std.specs.Prelude.{◌≡◌};
ghost use Rattle.std.specs.List.{list_all};
ghost use Rattle.std.specs.Str.{bytes_eq};
ghost use Rattle.std.specs.Option.{option_copied};

use crate::lookup::{first_value, values_are};
use crate::values::Bytes;
use std::marker::Model;

/// One header line: its name as it was written, and its value without the blanks around it.
#[derive(Debug, Drop)]
pub struct Header {
    pub name: Bytes,
    pub value: Bytes,
}

impl Header {
    ghost use Rattle.js_http.specs.Headers.{is_same_name};

    /// Whether the line has that name, in any case of its letters.
    pub fn is_named(&self, name: &[u8]) -> bool
        ensures { result ≡ is_same_name self.now.name name.now }
    {
        self.name.as_slice().eq_ignore_ascii_case(name)
    }
}

/// The header lines of a message, in order.
#[derive(Debug, Drop)]
pub struct Headers {
    lines: Vec<Header>,
}

impl Model for Headers {
    ghost use Rattle.std.specs.Prelude.{List};
    ghost use Rattle.js_http.specs.declared.header.Header.{Header};

    ghost Value = { List Header };

    ghost view = { λ h. h.lines.items };
}

impl Headers {
    ghost use Rattle.js_http.specs.Headers.{values_of, first_of};

    /// The lines, in order.
    pub fn as_slice(&self) -> &[Header]
        ensures { result.now ≡ self.now }
    {
        self.lines.as_slice()
    }

    /// The value of the first line of that name.
    pub fn get(&self, name: &[u8]) -> Option<&[u8]>
        ensures { option_copied result ≡ first_of (values_of name.now self.now) }
    {
        first_value(self.as_slice(), name)
    }

    /// Whether each line of that name has exactly that value.
    pub fn all_are(&self, name: &[u8], value: &[u8]) -> bool
        ensures { result ≡ list_all (λ other. bytes_eq other value.now) (values_of name.now self.now) }
    {
        values_are(self.as_slice(), name, value)
    }
}

impl From<Vec<Header>> for Headers {
    ghost from_gives = { λ lines h. h ≡ lines.items };

    fn from(lines: Vec<Header>) -> Headers {
        Headers { lines }
    }
}
