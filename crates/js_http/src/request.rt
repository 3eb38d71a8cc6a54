//! One request from a stream.
ghost use Rattle.std.specs.Prelude.{◌≡◌, ◌≢◌, ◌≤◌, ◌++◌, ℕ, List, length, IfSome, MatchResult, ◌⊎◌, ◌==◌};
ghost use Rattle.std.specs.List.{before_first, after_first};
ghost use Rattle.std.specs.Io.KnownBytes.{Consumes};
ghost use Rattle.js_http.specs.Begun.{BeginsAt};
ghost use Rattle.js_http.specs.Requests.{Answers, Refuses, BeginsRefused, IsRequest};
ghost use Rattle.js_http.specs.declared.refusal.HttpRefusal.{HttpRefusal};
ghost use Rattle.js_http.specs.declared.request.Request.{Request};

use crate::framing::body_len;
use crate::head::Head;
use crate::read::{READ_LEN, read_body, read_head};
use crate::{Bytes, Headers, HttpRefusal, Method, Text};
use std::alloc::Global;
use std::io::Read;

/// A request: its method, its target as it was sent, its header lines in order, and its body.
#[derive(Debug, Drop)]
pub struct Request {
    pub method: Method,
    pub target: Text,
    pub headers: Headers,
    pub body: Bytes,
}

impl Request {
    /// The target up to its first question mark, or all of it.
    pub fn path(&self) -> &str
        ensures { result.now ≡ before_first (λ byte. byte == 63) self.now.target }
    {
        match self.target.as_str().split_once('?') {
            Some((path, _)) => path,
            None => self.target.as_str(),
        }
    }

    /// The target after its first question mark, or nothing.
    pub fn query(&self) -> &str
        ensures { result.now ≡ after_first (λ byte. byte == 63) self.now.target }
    {
        match self.target.as_str().split_once('?') {
            Some((_, query)) => query,
            None => "",
        }
    }
}

/// A request whose head has come, and all that came with it.
#[derive(Drop)]
pub(crate) struct Begun {
    pub(crate) head: Head,
    pub(crate) received: Vec<u8>,
    /// How long its body is.
    pub(crate) len: u32,
    room: Vec<u8>,
    reads: u32,
}

/// Reads until the head of a request is whole, or is refused.
pub(crate) fn begin_request<R: Read>(alloc: Global, reader: &mut R) -> Result<Begun, HttpRefusal>
    ensures { (taken : List ℕ)
        × Consumes (R.remaining reader.old) (R.remaining reader.new) taken
        × (length taken ≤ 16384) × MatchResult result (BeginsAt taken) (Refuses taken) }
{
    let mut reads = 0;
    let mut room = Vec::new(alloc);
    room.resize(READ_LEN, 0)?;
    let (head, received) = read_head(alloc, reader, &mut room, &mut reads)?;
    let len = body_len(head.method.needs_length(), &head.headers)?;
    Ok(Begun {
        head,
        received,
        len,
        room,
        reads,
    })
}

/// Reads what is left of a request that has begun.
pub(crate) fn finish_request<R: Read>(
    alloc: Global,
    reader: &mut R,
    begun: Begun,
) -> Result<Request, HttpRefusal>
    requires { BeginsAt begun.received.items begun }
    ensures { (more : List ℕ)
        × Consumes (R.remaining reader.old) (R.remaining reader.new) more
        × (length more ≤ 16777216) × Answers (begun.received.items ++ more) result }
{
    let Begun {
        head,
        received,
        len,
        mut room,
        mut reads,
    } = begun;
    let body = read_body(
        alloc,
        reader,
        &mut room,
        &received[head.len..],
        len as usize,
        &mut reads,
    )?;
    Ok(Request {
        method: head.method,
        target: head.target,
        headers: head.headers,
        body: Bytes::from(body),
    })
}

/// The request at the front of a stream, or why there is none.
fn take_request<R: Read>(alloc: Global, reader: &mut R) -> Result<Request, HttpRefusal>
    ensures { (taken : List ℕ)
        × Consumes (R.remaining reader.old) (R.remaining reader.new) taken
        × (length taken ≤ 16793600) × Answers taken result }
{
    let begun = begin_request(alloc, reader)?;
    finish_request(alloc, reader, begun)
}

/// Reads one request from the front of a stream, and reads no more once it is whole or refused.
///
/// It counts its reads: at most 16,793,600 of them give bytes. Any fault of the stream is `Ended`, an interrupted
/// read too, and so is its end before the request is whole. What was taken of the stream is gone from it, whatever
/// the answer is. A head that is bad within its first `MAX_HEAD_LEN` bytes is refused as bad, whatever its length is.
pub fn read_request<R: Read>(alloc: Global, reader: &mut R) -> Result<Request, HttpRefusal>
    // The answer is to what was taken, and no more is taken than a request may have.
    ensures taken { (taken : List ℕ)
        × Consumes (R.remaining reader.old) (R.remaining reader.new) taken
        × (length taken ≤ 16793600) × Answers taken result }
    // However the bytes come, the answer is to all of them, unless the stream ends or fails first.
    ensures stream { result ≢ Err HttpRefusal.Ended → IfSome (R.remaining reader.old) (λ input. Answers input result) }
{
    take_request(alloc, reader)
}

/// A law: bytes begin with one request at most; what begins with a request is refused for nothing but lack of memory;
/// and what begins with a head that is refused for what it says of its body is refused for that.
pub fn one_request_law()
    ensures request { (input : List ℕ) (r q : Request) → IsRequest input r → IsRequest input q → r ≡ q }
    ensures no_refusal { (input : List ℕ) (r : Request) (e : HttpRefusal) → IsRequest input r → Refuses input e → e ≡ HttpRefusal.Memory }
    ensures refusal { (input : List ℕ) (e f : HttpRefusal) → BeginsRefused input e → Refuses input f → (f ≡ e) ⊎ (f ≡ HttpRefusal.Memory) }
{}
