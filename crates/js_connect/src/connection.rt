//! One connection: a request and its response, or a channel.
ghost use Rattle.std.specs.Prelude.{◌≡◌, IfSome};
ghost use Rattle.js_http.specs.declared.response.Response.TheVariants.{Page, Refused};
ghost use Rattle.js_http.specs.declared.response.ErrorStatus.TheVariants.{InternalServerError};
ghost use Rattle.js_http.specs.declared.request.Request.{Request};
ghost use Rattle.js_http.specs.declared.response.Response.{Response};
ghost use Rattle.js_connect.specs.Answered.{IsAnswered, OrFails, ShowsFile};
ghost use Rattle.js_call.specs.Replies.{IsReply};
ghost use Rattle.js_connect.specs.Served.{IsServed};

use crate::channel::{Line, serve_channel};
use crossbeam_channel::Sender;
use jk_language::Language;
use js_call::{Call, Crowd, Guest, Limits, Reply, Turned, Turns, Upgrade, ask_by, tell};
use js_http::{ErrorStatus, Request, Response, Served, Stream, Text, serve_one, write_response};
use js_paced::{Limited, end_of_answer};
use js_rest::{Outcome, ReadRequest, finish};
use js_shelf::Opening;
use js_tables::{About, Answer};
use std::alloc::Global;
use std::io::{Read, Write};
use std::net::{Shutdown, TcpListener, TcpStream};
use std::sync::Wait;
use std::time::{Clock, Duration};
use std::{io, thread};

/// How many milliseconds pass before the acceptor goes on where the system or memory refused something.
const PAUSE: u64 = 10;

/// For how many milliseconds the rest of a request is read that was refused before it was read, at most.
const REST: u64 = 1_000;

/// For how many milliseconds the acceptor waits at most for one whom it turns away.
const TURN: u64 = 10;

/// Accepts connections, and tells the desk of each, until the desk is gone. Where as many as may have a thread do, one is answered
/// that the server is busy.
pub fn accept_all<L: Language, R: Wait + Clock + Copy + Drop>(
    rt: &R,
    alloc: Global,
    limits: Limits,
    listener: &TcpListener,
    calls: &Sender<Call<L>>,
) {
    let crowd = make_crowd(rt, alloc, limits.connections);
    let mut turned = Turned::new(alloc);
    for accepted in listener.incoming() {
        let Ok(stream) = accepted else {
            thread::sleep(rt, Duration::from_millis(PAUSE));
            continue;
        };
        match crowd.enter() {
            Some(ticket) => if !tell(rt, calls, Call::Accepted(Guest { stream, ticket })) {
                return;
            },
            None => {
                turn_away(rt, &stream);
                turned.keep(stream);
            }
        }
    }
}

/// A crowd, as soon as there is memory for it.
fn make_crowd<R: Wait + Clock>(rt: &R, alloc: Global, most: u64) -> Crowd {
    for _ in rt.forever() {
        if let Ok(crowd) = Crowd::new(alloc, most) {
            return crowd;
        }
        thread::sleep(rt, Duration::from_millis(PAUSE));
    }
    unreachable!()
}

/// Answers that the server is busy, and ends what is written.
fn turn_away<R: Clock + Copy + Drop>(rt: &R, stream: &TcpStream) {
    if let Ok(mut limited) = Limited::new(*rt, stream, TURN, TURN) {
        let _ = write_response(
            &mut limited,
            &Response::Refused(ErrorStatus::ServiceUnavailable),
        );
        let _ = stream.shutdown(Shutdown::Write);
    }
}

/// What is done once the response of a request was written.
#[derive(Drop)]
enum Next<L: Language> {
    /// Nothing: the connection ends.
    End,
    /// The desk is told that its last response was written.
    Stop,
    /// A channel is served.
    Channel(Upgrade<L>),
}

/// Who answers the request of a connection.
trait Answers {
    /// This response answers a request, and this is who answers afterwards.
    ghost answers: { Self → Request → Response → Self → Type 0 };

    /// The response to a request.
    fn answer(&mut self, request: Request) -> Response
        ensures { answers self.old request result self.new };
}

/// Makes what a PUT puts, asks the desk, and keeps what is done once the response was written.
#[derive(Drop)]
struct Asking<'a, L: Language, R> {
    rt: &'a R,
    alloc: Global,
    turns: &'a Turns,
    calls: &'a Sender<Call<L>>,
    page: &'a str,
    next: Next<L>,
}

impl<L: Language, R: Wait> Answers for Asking<'_, L, R> {
    ghost answers = { λ old request response new. IsAnswered old.page.now request response new.next };

    fn answer(&mut self, request: Request) -> Response {
        let request = self.turns.read(self.rt, self.alloc, request);
        let (response, next) = answer_to(self.rt, self.alloc, self.calls, request, self.page);
        self.next = next;
        response
    }
}

/// Serves one connection: reads its request, asks the desk, and writes the response or the page, or serves the channel. A channel
/// leaves the crowd of connections, and what comes after its end is dropped, so that its last message arrives.
pub fn serve_connection<L: Language, R: Wait + Clock + Copy + Drop>(
    rt: &R,
    alloc: Global,
    limits: Limits,
    guest: Guest,
    calls: &Sender<Call<L>>,
    page: &str,
) {
    let Guest { stream, ticket } = guest;
    let _ = stream.set_nodelay(true);
    let mut asking = Asking {
        rt,
        alloc,
        turns: &ticket.turns,
        calls,
        page,
        next: Next::End,
    };
    let served = serve_request(rt, alloc, limits, &stream, &mut asking);
    match asking.next {
        Next::End => if is_refused(served) {
            end_of_answer(*rt, &stream, REST);
        },
        Next::Stop => {
            let _ = tell(rt, calls, Call::Written);
        }
        Next::Channel(upgrade) => {
            drop(ticket);
            serve_upgraded(rt, alloc, limits, &stream, calls, upgrade);
        }
    }
}

/// Reads the request of a connection, and writes the response that is answered to it, or that of its refusal. There is nothing
/// where the other side is gone.
fn serve_request<R: Clock + Copy + Drop, A: Answers>(
    rt: &R,
    alloc: Global,
    limits: Limits,
    stream: &TcpStream,
    asking: &mut A,
) -> Option<Served> {
    let reader = Limited::new(*rt, stream, limits.request, limits.write).ok()?;
    let writer = Limited::new(*rt, stream, limits.request, limits.write).ok()?;
    let mut halves = Stream { reader, writer };
    answer_one(alloc, &mut halves, asking).ok()
}

/// Reads one request of a stream, and writes the response that is answered to it, or that of its refusal.
fn answer_one<I: Read, O: Write, A: Answers>(
    alloc: Global,
    stream: &mut Stream<I, O>,
    asking: &mut A,
) -> io::Result<Served>
    ensures { IsServed I.remaining O.contents (A.answers asking.old) stream.old stream.new result }
{
    serve_one(alloc, stream, |request| asking.answer(request))
}

/// Whether a refusal was answered before the request was read. What still comes of such a request is read and dropped, so that the
/// answer arrives.
fn is_refused(served: Option<Served>) -> bool {
    match served {
        Some(Served::Unanswered(refusal)) => refusal.status().is_some(),
        _ => false,
    }
}

/// Serves the channel that a connection became, until it ends.
fn serve_upgraded<L: Language, R: Wait + Clock + Copy + Drop>(
    rt: &R,
    alloc: Global,
    limits: Limits,
    stream: &TcpStream,
    calls: &Sender<Call<L>>,
    upgrade: Upgrade<L>,
) {
    let Upgrade {
        place,
        names,
        selector,
    } = upgrade;
    let line = Line {
        stream,
        patience: limits.write,
        selector,
    };
    serve_channel(rt, alloc, line, calls, place, names);
    end_of_answer(*rt, stream, REST);
}

/// The response to a request, and what is done once it was written.
fn answer_to<L: Language, R: Wait>(
    rt: &R,
    alloc: Global,
    calls: &Sender<Call<L>>,
    request: ReadRequest,
    page: &str,
) -> (Response, Next<L>)
    ensures { IsAnswered page.now request result.0 result.1 }
{
    match ask(rt, alloc, calls, request) {
        Some(Reply::Response(response)) => (response, Next::End),
        Some(Reply::Shown(about, opening)) => (shown(alloc, about, opening), Next::End),
        Some(Reply::Last(response)) => (response, Next::Stop),
        Some(Reply::Channel(response, upgrade)) => (response, Next::Channel(upgrade)),
        Some(Reply::Page) => (page_response(alloc, page), Next::End),
        None => (failed(), Next::End),
    }
}

/// The response that has the page.
fn page_response(alloc: Global, page: &str) -> Response
    ensures { OrFails result (result ≡ Page page.now) }
{
    match String::from_str(alloc, page) {
        Ok(page) => Response::Page(Text::from(page)),
        Err(_) => failed(),
    }
}

/// The response where memory was refused.
fn failed() -> Response
    ensures { result ≡ Refused InternalServerError }
{
    Response::Refused(ErrorStatus::InternalServerError)
}

/// The response that shows a file, which is read here: other requests are answered meanwhile.
fn shown(alloc: Global, about: About, opening: Opening) -> Response
    ensures { OrFails result (ShowsFile about opening result) }
{
    match finish(alloc, Outcome::Shown(about, opening)) {
        Answer::Reply(response) => response,
        _ => failed(),
    }
}

/// Asks the desk, and waits for its reply. There is none where memory was refused.
fn ask<L: Language, R: Wait>(
    rt: &R,
    alloc: Global,
    calls: &Sender<Call<L>>,
    request: ReadRequest,
) -> Option<Reply<L>>
    ensures { IfSome result (IsReply request) }
{
    let (question, waiting) = ask_by(rt, alloc, request)?;
    if calls.send(rt, Call::Asked(question)).is_err() {
        return None;
    }
    waiting.wait(rt)
}
