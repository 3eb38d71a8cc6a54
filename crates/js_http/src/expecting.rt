//! Whether a client waits to be told that its body may come.
ghost use Rattle.std.specs.Prelude.{◌≡◌, MatchResult, List, ℕ, ⊤, true};
ghost use Rattle.js_http.specs.Begun.{BeginsAt};
ghost use Rattle.js_http.specs.Expecting.{AwaitsContinue, IsInterim, expects_continue};
ghost use Rattle.js_http.specs.Writing.{WritesFront};

use crate::head::Head;
use crate::request::Begun;
use crate::write::write_bytes;
use std::io;
use std::io::Write;

/// Whether a head asks to be told that its body may come. One of HTTP/1.0 can't.
fn expects(head: &Head) -> bool
    ensures { result ≡ expects_continue head.now.minor head.now.headers }
{
    if head.minor == 0 {
        return false;
    }
    match head.headers.get(b"expect") {
        Some(value) => value.eq_ignore_ascii_case(b"100-continue"),
        None => false,
    }
}

/// Whether a client waits with its body until it is told that it may come. Where all of the body is there, it does not.
fn awaits(begun: &Begun) -> bool
    requires { BeginsAt begun.now.received.items begun.now }
    ensures { result ≡ true → AwaitsContinue begun.now.received.items }
{
    begun.received.len() - begun.head.len < begun.len as usize && expects(&begun.head)
}

/// Tells a client that waits for it that its body may come.
pub(crate) fn invite<W: Write>(writer: &mut W, begun: &Begun) -> io::Result<()>
    requires { BeginsAt begun.now.received.items begun.now }
    ensures { (text : List ℕ) × IsInterim begun.now.received.items text
        × WritesFront (W.contents writer.old) (W.contents writer.new) text result
        × MatchResult result (λ _. ⊤) (λ _. AwaitsContinue begun.now.received.items) }
{
    if awaits(begun) {
        return write_bytes(writer, b"HTTP/1.1 100 Continue\r\n\r\n");
    }
    Ok(())
}
