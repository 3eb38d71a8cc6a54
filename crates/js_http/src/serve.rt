//! One request and its response on a stream.
ghost use Rattle.std.specs.Prelude.{◌≡◌, ◌≢◌, ◌++◌, ℕ, List, Result, IfOk, IfSome, MatchResult};
ghost use Rattle.std.specs.Io.KnownBytes.{Consumes};
ghost use Rattle.js_http.specs.declared.refusal.HttpRefusal.{HttpRefusal};
ghost use Rattle.js_http.specs.declared.request.Request.{Request};
ghost use Rattle.js_http.specs.declared.serve.Served.{Served};
ghost use Rattle.js_http.specs.Expecting.{IsInterim};
ghost use Rattle.js_http.specs.Requests.{Answers, IsUnfinished};
ghost use Rattle.js_http.specs.Serving.{MayCome, Replies, refusal_text, served_of, status_of};
ghost use Rattle.js_http.specs.Writing.{WritesFront};

use crate::expecting::invite;
use crate::request::{begin_request, finish_request};
use crate::{HttpRefusal, Request, Response, write_response};
use std::alloc::Global;
use std::io;
use std::io::{Read, Write};

/// A stream of bytes as its two halves; for a socket both are references to it.
#[derive(Drop)]
pub struct Stream<R, W> {
    pub reader: R,
    pub writer: W,
}

/// What was done with a stream.
#[derive(Clone, Copy, Debug, PartialEq, Eq, Hash)]
pub enum Served {
    /// The answer to its request was written.
    Answered,
    /// No request received. The status of the refusal was written, if it has one.
    Unanswered(HttpRefusal),
}

/// Writes the response of a refusal, if it has one.
fn refuse<W: Write>(writer: &mut W, refusal: HttpRefusal) -> io::Result<Served>
    ensures { WritesFront (W.contents writer.old) (W.contents writer.new) (refusal_text (status_of refusal)) result
        × IfOk result (λ served. served ≡ Served.Unanswered refusal) }
{
    if let Some(status) = refusal.status() {
        write_response(writer, &Response::Refused(status))?;
    }
    Ok(Served::Unanswered(refusal))
}

/// Reads one request. A client that waits to be told that its body may come is told so before the body is read. The error is
/// the writer's.
fn take_invited<R: Read, W: Write>(
    alloc: Global,
    stream: &mut Stream<R, W>,
) -> io::Result<Result<Request, HttpRefusal>>
    ensures stream { IfOk result (λ read. read ≢ Err HttpRefusal.Ended → IfSome (R.remaining stream.old.reader) (λ input. Answers input read)) }
    ensures taken { (came : List ℕ) × (more : List ℕ) × (text : List ℕ)
        × Consumes (R.remaining stream.old.reader) (R.remaining stream.new.reader) (came ++ more)
        × IsInterim came text
        × WritesFront (W.contents stream.old.writer) (W.contents stream.new.writer) text result
        × MatchResult result (Answers (came ++ more)) (λ _. IsUnfinished (came ++ more)) }
{
    let begun = match begin_request(alloc, &mut stream.reader) {
        Ok(begun) => begun,
        Err(refusal) => return Ok(Err(refusal)),
    };
    invite(&mut stream.writer, &begun)?;
    Ok(finish_request(alloc, &mut stream.reader, begun))
}

/// Reads one request, asks `answer` for its response, and writes that. Where the request is refused with a status,
/// that status's response is written and `answer` is not called; where the stream ends or fails first, no response is
/// written. A client that waits to be told that the body of its request may come is told so first (100, RFC 9110). The
/// error is the writer's: what was written is then a beginning of all that.
pub fn serve_one<R: Read, W: Write, F: FnOnce(Request) -> Response + Drop>(
    alloc: Global,
    stream: &mut Stream<R, W>,
    answer: F,
) -> io::Result<Served>
    // The answer is asked for no other request than the one that the stream begins with.
    requires { (request : Request) → MayCome (R.remaining stream.old.reader) request → F.pre answer request }
    ensures { (came : List ℕ) × (more : List ℕ) × (read : Result Request HttpRefusal) × (interim : List ℕ) × (text : List ℕ)
        × Consumes (R.remaining stream.old.reader) (R.remaining stream.new.reader) (came ++ more)
        × Answers (came ++ more) read
        × (read ≢ Err HttpRefusal.Ended → IfSome (R.remaining stream.old.reader) (λ input. Answers input read))
        × IsInterim came interim
        × Replies (F.post answer) read text
        × WritesFront (W.contents stream.old.writer) (W.contents stream.new.writer) (interim ++ text) result
        × IfOk result (λ served. served ≡ served_of read) }
{
    match take_invited(alloc, stream)? {
        Ok(request) => {
            let response = answer(request);
            write_response(&mut stream.writer, &response)?;
            Ok(Served::Answered)
        }
        Err(refusal) => refuse(&mut stream.writer, refusal),
    }
}
