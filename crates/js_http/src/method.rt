//! The methods of requests.
ghost use Rattle.std.specs.Prelude.{◌≡◌};
ghost use Rattle.js_http.specs.Methods as spec;

/// The method of a request.
#[derive(Clone, Copy, Debug, PartialEq, Eq, Hash)]
pub enum Method {
    Get,
    Post,
    Put,
    Patch,
    Delete,
    /// Any other token.
    Other,
}

impl Method {
    /// The method of a token, whose case matters.
    pub fn from_bytes(text: &[u8]) -> Method
        ensures { result ≡ spec.method_of text.now }
    {
        if text == b"GET".as_slice() {
            Method::Get
        } else if text == b"POST".as_slice() {
            Method::Post
        } else if text == b"PUT".as_slice() {
            Method::Put
        } else if text == b"PATCH".as_slice() {
            Method::Patch
        } else if text == b"DELETE".as_slice() {
            Method::Delete
        } else {
            Method::Other
        }
    }

    /// Whether a request of this method has to state the length of its body.
    pub fn needs_length(self) -> bool
        ensures { result ≡ spec.needs_length self }
    {
        matches!(self, Method::Put | Method::Patch)
    }
}
