//! A request in three parts: what is made of its body, the step over the tables, the kernels and the shelf, and the answer. The first
//! and the last may be done by any thread, since they look at nothing else.
ghost use Rattle.std.specs.Prelude.{◌≡◌, Option};
ghost use Rattle.js_contents.specs.Puts.{ready_put};
ghost use Rattle.js_http.specs.Targets.{segments_of};
ghost use Rattle.js_http.specs.declared.request.Request.{Request};
ghost use Rattle.js_rest.specs.Answers.{path_of, IsAnswer, IsAnswerAlone};
ghost use Rattle.js_rest.specs.Parts as spec;
ghost use Rattle.js_rest.specs.declared.parts.Outcome.{Outcome};
ghost use Rattle.js_rest.specs.declared.route.Route.{Route};
ghost use Rattle.js_shelf.specs.Shelves.{Contents};
ghost use Rattle.js_tables.specs.Plans.{Gives};
ghost use Rattle.js_tables.specs.Tables.{Rows};
ghost use Rattle.js_tables.specs.declared.given.Given.{Given};
ghost use Rattle.js_tables.specs.declared.plan.Answer.{Answer};

use crate::running::Running;
use js_contents::{Ready, opening_plan, read_put};
use js_http::{Method, Request, Response, path_segments};
use js_shelf::Opening;
use js_tables::{About, Answer, Plan, Refusal};
use std::alloc::Global;
use std::marker::Model;

/// What was made of a request before the tables, the kernels and the shelf are looked at.
#[derive(Drop)]
pub enum Prepared {
    /// Of a PUT: what is put, and where, or why it is refused. Which refusal is the answer is for the step to say.
    Put(Result<Ready, Refusal>),
    /// Of any other request: nothing.
    Other,
}

/// What a request comes to at its step.
#[derive(Drop)]
pub enum Outcome {
    Answered(Answer),
    /// A file that was opened is to be read and shown.
    Shown(About, Opening),
}

fn read_ready(alloc: Global, request: &Request) -> Result<Ready, Refusal>
    ensures { Gives result (ready_put request.now.body (segments_of (path_of request.now))) }
{
    let segments = path_segments(alloc, request.path())?;
    read_put(alloc, request.body.as_slice(), segments.as_slice())
}

/// What is made of a request before the tables, the kernels and the shelf are looked at. Of a PUT the body's JSON is read, the
/// notebook is made of it, and its text is written.
pub fn prepare(alloc: Global, request: &Request) -> Prepared
    ensures { spec.IsPrepared request.now result }
{
    match request.method {
        Method::Put => Prepared::Put(read_ready(alloc, request)),
        _ => Prepared::Other,
    }
}

/// A request, and what was made of it before the tables, the kernels and the shelf are looked at. The type keeps that it was made of
/// this request, in whatever thread.
#[derive(Drop)]
pub struct ReadRequest {
    request: Request,
    prepared: Prepared,
}

impl Model for ReadRequest {
    ghost use Rattle.js_http.specs.declared.request.Request.{Request};
    ghost use Rattle.js_rest.specs.Parts.{IsPrepared};

    ghost Value = { Request };

    ghost view = { λ r. r.request };

    ghost invariant = { λ r. IsPrepared r.request r.prepared };
}

impl ReadRequest {
    /// A request, and what `prepare` makes of it.
    pub fn new(alloc: Global, request: Request) -> ReadRequest
        ensures { result ≡ request }
    {
        let prepared = prepare(alloc, &request);
        ReadRequest { request, prepared }
    }

    /// The request.
    pub fn request(&self) -> &Request
        ensures { result.now ≡ self.now }
    {
        &self.request
    }

    /// The request, and what was made of it.
    pub fn into_parts(self) -> (Request, Prepared)
        ensures request { result.0 ≡ self }
        ensures prepared { spec.IsPrepared result.0 result.1 }
    {
        let ReadRequest { request, prepared } = self;
        (request, prepared)
    }
}

fn answer_of(found: Result<Plan, Refusal>) -> Answer
    ensures { result ≡ spec.answer_of found }
{
    match found {
        Ok(plan) => plan.answer,
        Err(refusal) => Answer::Reply(Response::Refused(refusal.status())),
    }
}

/// The answer that an outcome is. A file that was opened is read, the notebook is made of its bytes, and the text of the answer is
/// written. Where the device or memory fails meanwhile, the answer is 500.
pub fn finish(alloc: Global, outcome: Outcome) -> Answer
    ensures { spec.Finishes outcome result }
{
    match outcome {
        Outcome::Answered(answer) => answer,
        Outcome::Shown(about, opening) => answer_of(opening_plan(alloc, &about, opening)),
    }
}

/// A law: what a step over a prepared request and its finish come to, in whatever threads, is the answer to the request, over the
/// tables, the kernels and the shelf that the step saw.
pub fn parts_law<L: Running>()
    ensures shelf { (given : Given) (request : Request) (r s : Rows) (l k : L) (outcome : Outcome) (answer : Answer) (m n : Contents)
        → spec.Steps L.begins L.tells given request r s l k outcome m n → spec.Finishes outcome answer
        → IsAnswer L.begins L.tells given request r s l k answer m n }
    ensures alone { (path : Option Route) (given : Given) (request : Request) (r s : Rows) (l k : L) (outcome : Outcome) (answer : Answer)
        → spec.StepsAlone L.begins L.tells path given request r s l k outcome → spec.Finishes outcome answer
        → IsAnswerAlone L.begins L.tells path given request r s l k answer }
{}
