//! The desk: the one thread that has the tables, the kernels and the files, and answers requests one after the other.
ghost use Rattle.std.specs.Prelude.{◌≡◌, None, IfSome};
ghost use Rattle.js_desk.specs.Askers.{AreAnsweredOnce};
ghost use Rattle.js_http.specs.declared.response.Response.TheVariants.{Refused};
ghost use Rattle.js_rest.specs.declared.parts.Outcome.TheVariants.{Answered};
ghost use Rattle.js_tables.specs.declared.plan.Answer.TheVariants.{Channels};
ghost use Rattle.js_call.specs.Asking.{asks, Replies, Responds};
ghost use Rattle.js_call.specs.Replies.{CameTo, IsReply, IsSwitch, IsUnserved};

use crate::concern::{Concern, concern_of};
use crate::job::Job;
use crate::pulse::{QUICK, Rhythm, Round};
use crossbeam_channel::{Receiver, Sender, unbounded};
use ends::Delay;
use jk_language::Language;
use js_call::{Call, Client, Made, Matter, Reply, Upgrade, admit, date_now, given_now, refused};
use js_desk::Askers;
use js_drive::Opened;
use js_http::{ErrorStatus, HttpRefusal, Request, Response};
use js_kernels::{Kernels, Unlent, Unopened};
use js_paced::Selector;
use js_rest::{Manager, Outcome, ReadRequest};
use js_shelf::Shelf;
use js_tables::{Answer, Given};
use js_ws::{Names, handshake, protocol_of};
use json_form::Text;
use std::alloc::Global;
use std::net::TcpListener;
use std::random::RandomSource;
use std::sync::Wait;
use std::time::Clock;
use stopping::Stopping;

mod ends;
mod recorders;
mod stopping;

pub use stopping::{Closes, close_desk};

/// How many jobs may wait with no memory for more: the thread that calls for recorders, and some more.
const ROOM: usize = 4;

/// The tables with the kernels, the files, who has asked, and what is still to be done. It can't be dropped, and ends by `close`.
pub struct Desk<L: Language, R: Wait + Drop, S: Shelf + Drop> {
    rt: R,
    alloc: Global,
    manager: Manager<Kernels<R, L>>,
    shelf: S,
    /// Where connections tell their calls, and where these come.
    sender: Sender<Call<L>>,
    calls: Receiver<Call<L>>,
    /// All who have asked, each of whom was answered once or waits.
    clients: Askers<Client<L>>,
    /// What is to be started next, the last one first.
    jobs: Vec<Job<L>>,
    /// Where the thread that calls for recorders is told how long it pauses, in milliseconds. There is none where that thread could
    /// not be started.
    pauses: Option<Sender<u64>>,
    /// Whether that thread has called.
    beats: bool,
    rhythm: Rhythm,
    /// The look at all recorders that is under way, if there is one.
    round: Option<Round>,
    /// How far the server has stopped, once it was told to.
    stopping: Option<Stopping>,
    /// What the stream of the next channel rests by.
    selector: Option<Selector>,
}

impl<L, R, S> Desk<L, R, S>
where
    L: Language,
    R: Wait + Clock + RandomSource + Copy + Drop,
    S: Shelf + Drop,
{
    /// A desk for the connections of a listener. There is none where memory is refused.
    pub fn new(rt: R, alloc: Global, listener: TcpListener, shelf: S) -> Option<Desk<L, R, S>> {
        let start = date_now(&rt, alloc)?;
        let manager = Manager::new(alloc, start, Kernels::<R, L>::new(rt, alloc)).ok()?;
        let (sender, calls) = unbounded::<Call<L>, Global>(alloc).ok()?;
        let theirs = sender.clone().ok()?;
        let mut jobs = Vec::with_capacity(alloc, ROOM).ok()?;
        jobs.push(Job::Accept(listener, theirs)).ok()?;
        Some(Desk {
            rt,
            alloc,
            manager,
            shelf,
            sender,
            calls,
            clients: Askers::new(alloc),
            jobs,
            pauses: None,
            beats: false,
            rhythm: Rhythm::new(),
            round: None,
            stopping: None,
            selector: None,
        })
    }

    /// Whether the next channel has nothing that its stream rests by.
    pub fn lacks_selector(&self) -> bool {
        self.selector.is_none()
    }

    /// Gives the next channel what its stream rests by. The caller makes it, since it may use the network; there is nothing where the
    /// system has no descriptor for it.
    pub fn give_selector(&mut self, selector: Option<Selector>) {
        self.selector = selector;
    }

    /// Does what is to be done next, and answers the job for which a thread is to be started now, if there is one. Where none
    /// can be started the job is to be dropped. Once the server has stopped nothing is done any more. Each who has asked was
    /// answered once then, or waits for a kernel that is made or ends.
    pub fn next(&mut self) -> Option<Job<L>>
        ensures settled { self.new.clients.turn ≡ None }
        ensures once { AreAnsweredOnce self.new.clients }
    {
        let job = self.do_next();
        self.clients.settle(&self.rt);
        job
    }

    fn do_next(&mut self) -> Option<Job<L>> {
        if let Some(job) = self.jobs.pop() {
            return Some(job);
        }
        if let Some(made) = self.clients.take_made() {
            self.await_ends(made);
            return None;
        }
        if self.stopping.is_some() {
            return self.stop_on();
        }
        if let Some(request) = self.clients.next_held() {
            return self.reply_to(request);
        }
        if let Some(round) = self.round.take() {
            return self.go_on(round);
        }
        let call = self.calls.recv(&self.rt).ok()?;
        self.take(call)
    }

    fn take(&mut self, call: Call<L>) -> Option<Job<L>> {
        match admit(&self.rt, &mut self.clients, call) {
            Matter::Accepted(stream) => {
                let calls = self.sender.clone().ok()?;
                Some(Job::Connection(stream, calls))
            }
            Matter::Asked(request) => self.reply_or_refuse(request),
            Matter::Written => {
                self.note_written();
                None
            }
            Matter::Back => {
                self.take_back();
                None
            }
            Matter::Pulse => {
                self.beat();
                None
            }
        }
    }

    /// Takes back the places that connections have given back.
    fn take_back(&mut self) {
        self.manager.running.follow();
        self.manager.running.drop_left();
    }

    /// Answers whoever is to be answered now, by a reply to what that one asked.
    fn send(&mut self, answer: Reply<L>)
        requires { IfSome self.old.clients.turn (Replies answer) }
    {
        self.clients.answer(&self.rt, answer);
    }

    /// Answers whoever is to be answered now that it failed, or that there is nothing for it.
    fn refuse(&mut self, status: ErrorStatus)
        requires { IsUnserved (Refused status) }
    {
        self.send(refused(status));
    }

    /// Replies to a request, after a look at what the kernels have published. Where it made a kernel, the answer is the job of
    /// its thread, and the reply waits for it. A request that is about a kernel that is ending, its session or its notebook waits for
    /// that end.
    fn reply_to(&mut self, request: ReadRequest) -> Option<Job<L>>
        requires { IfSome self.old.clients.turn (asks request) }
    {
        let Some(given) = given_now(&self.rt, self.alloc) else {
            self.refuse(ErrorStatus::InternalServerError);
            return None;
        };
        self.look(&given.date);
        let asked = request.request();
        let concern = concern_of(self.alloc, asked);
        match self.turn_of(asked.method, &concern) {
            Delay::No => self.answer(request, &concern, &given),
            Delay::Join(id) => {
                self.end_later(id.as_str());
                None
            }
            Delay::Hold => {
                self.hold(request);
                None
            }
        }
    }

    /// Replies to a request now. The recorders of the notebooks that it is about have followed what was shown before.
    fn answer(&mut self, request: ReadRequest, concern: &Concern, given: &Given) -> Option<Job<L>>
        requires { IfSome self.old.clients.turn (asks request) }
    {
        self.catch_up_on(concern, given);
        let (request, outcome) = self.step(request, given);
        match outcome {
            Outcome::Answered(answer) => self.carry_on(answer, &request, given),
            Outcome::Shown(about, opening) => {
                self.send(Reply::Shown(about, opening));
                None
            }
        }
    }

    /// Lets the recorders follow that a request is about.
    fn catch_up_on(&mut self, concern: &Concern, given: &Given)
        ensures { self.new.clients ≡ self.old.clients }
    {
        match concern {
            Concern::File(path) => self.catch_up_at(path.as_str(), &given.date),
            Concern::Paths => self.catch_up_at("", &given.date),
            _ => {}
        }
    }

    /// The request, and what it comes to. The recorders that are new then begin.
    fn step(&mut self, request: ReadRequest, given: &Given) -> (Request, Outcome)
        ensures same { self.new.clients ≡ self.old.clients }
        ensures request { result.0 ≡ request }
        ensures came { CameTo request result.1 }
    {
        let (request, prepared) = request.into_parts();
        let outcome = self
            .manager
            .step(self.alloc, &mut self.shelf, given, &request, prepared);
        self.start_recorders();
        (request, outcome)
    }

    /// Replies as an answer says, which the step for this request came to.
    fn carry_on(&mut self, answer: Answer, request: &Request, given: &Given) -> Option<Job<L>>
        requires asked { IfSome self.old.clients.turn (asks request.now) }
        requires came { CameTo request.now (Answered answer) }
    {
        match answer {
            Answer::Reply(response) => self.respond(response),
            Answer::Channels(id) => {
                let channel = self.channel_for(request, id, given);
                self.send(channel);
                None
            }
            Answer::Ends(id) => {
                self.end_later(id.as_str());
                None
            }
            Answer::Page => {
                self.send(Reply::Page);
                None
            }
            Answer::Stops => {
                self.stop();
                None
            }
        }
    }

    /// Sends a response, or lets it wait for the kernel that was made.
    fn respond(&mut self, response: Response) -> Option<Job<L>>
        requires { IfSome self.old.clients.turn (Responds response) }
    {
        match self.manager.running.take_unopened() {
            Some(unopened) => {
                let Unopened { opening, opened } = unopened;
                if self
                    .clients
                    .wait_for_made(Made { opened, response })
                    .is_some()
                {
                    self.manager.running.drop_last();
                }
                Some(Job::Drive(opening))
            }
            None => {
                self.send(Reply::Response(response));
                None
            }
        }
    }

    /// Waits for the ends of a new kernel, and sends the response that waits for them. Where none come the kernel is gone, and
    /// its row goes before the next answer.
    fn await_ends(&mut self, made: Made<L>)
        requires { IfSome self.old.clients.turn (Responds made.response) }
    {
        let Made { opened, response } = made;
        if self.take_opened(&opened) {
            self.start_recorders();
            self.send(Reply::Response(response));
        } else {
            self.refuse(ErrorStatus::InternalServerError);
        }
    }

    fn take_opened(&mut self, opened: &Receiver<Opened<L>>) -> bool
        ensures { self.new.clients ≡ self.old.clients }
    {
        let Ok(opened) = opened.recv(&self.rt) else {
            self.manager.running.drop_last();
            return false;
        };
        self.manager.running.take_ends(opened);
        self.ring(QUICK);
        true
    }

    /// The reply where the channels of a kernel are asked for.
    fn channel_for(&mut self, request: &Request, id: Text, given: &Given) -> Reply<L>
        requires { CameTo request.now (Answered (Channels id)) }
        ensures same { self.new.clients ≡ self.old.clients }
        ensures reply { IsReply request.now result }
    {
        match handshake(self.alloc, request) {
            Ok(response) => self.switch(request, id, given, response),
            Err(HttpRefusal::BadRequest) => refused(ErrorStatus::BadRequest),
            Err(_) => refused(ErrorStatus::InternalServerError),
        }
    }

    /// The switch of protocols with a place at the kernel whose channels are asked for, or a refusal where there is none: 404 where
    /// the kernel has ended since it was looked up, and 503 where all places are lent.
    fn switch(&mut self, request: &Request, id: Text, given: &Given, response: Response) -> Reply<L>
        requires came { CameTo request.now (Answered (Channels id)) }
        requires switch { IsSwitch request.now response }
        ensures same { self.new.clients ≡ self.old.clients }
        ensures reply { IsReply request.now result }
    {
        let Ok(name) = given.second_id(self.alloc) else {
            return refused(ErrorStatus::InternalServerError);
        };
        match self.manager.running.take_place(id.as_str()) {
            Ok(place) => {
                let names = Names {
                    session: id,
                    id: name,
                    protocol: protocol_of(request),
                };
                Reply::Channel(
                    response,
                    Upgrade {
                        place,
                        names,
                        selector: self.selector.take(),
                    },
                )
            }
            Err(Unlent::Ended) => refused(ErrorStatus::NotFound),
            Err(Unlent::Full) => refused(ErrorStatus::ServiceUnavailable),
            Err(Unlent::Memory) => refused(ErrorStatus::InternalServerError),
        }
    }
}
