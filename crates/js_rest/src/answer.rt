//! The answer to a request. Each route has a function of its own beside its definition (`page` beside `page_plan` of specs/Answers), also
//! where two of them differ in a word.
ghost use Rattle.std.specs.Prelude.{◌≡◌, get_or, [], Some, IfOk};
ghost use Rattle.js_http.specs.Origins.{is_own as is_own_request};
ghost use Rattle.js_http.specs.Targets.{segments_of};
ghost use Rattle.js_shelf.specs.Shelves.{Tells};
ghost use Rattle.js_rest.specs.Answers as spec;
ghost use Rattle.js_rest.specs.Changes.{Tries, TriesAlone, told, told_command};
ghost use Rattle.js_contents.specs.Reads.{Comes};
ghost use Rattle.js_rest.specs.Parts as parts;
ghost use Rattle.js_rest.specs.Routes.{table, route_of};
ghost use Rattle.js_tables.specs.Moments.{IsDate};
ghost use Rattle.js_tables.specs.Plans.{Gives};
ghost use Rattle.js_tables.specs.Tables.{rows, no_rows, HasRoom};
ghost use Rattle.js_tables.specs.declared.plan.Change.TheVariants as variant;

use crate::contents::contents_aim;
use crate::inputs::Inputs;
use crate::opening::open;
use crate::parts::{Outcome, Prepared, finish, prepare};
use crate::route::{Route, find, routes};
use crate::running::Running;
use crate::untold::Untold;
use crate::{kernels, sessions};
use js_contents::{Aim, planned};
use js_follow::put_book;
use js_http::{ErrorStatus, Method, Request, Response, is_own, path_segments};
use js_shelf::{Shelf, ShelfRefusal};
use js_tables::{Answer, Change, Given, Plan, ReadNotebook, Refusal, Tables, Update};
use json_form::Text;
use matchit::{InsertError, Router};
use std::alloc::Global;

/// The server's tables, the kernels that run, and the table of routes.
#[derive(Drop)]
pub struct Manager<L: Drop> {
    router: Router<Route>,
    pub tables: Tables,
    pub running: L,
    ghost routed: { router ≡ table },
}

// ---- carrying a plan out

fn told_of(answer: Result<(), ShelfRefusal>) -> Result<(), ErrorStatus>
    ensures { result ≡ told answer }
{
    match answer {
        Ok(()) => Ok(()),
        Err(cause) => Err(Refusal::from(cause).status()),
    }
}

fn status_of(answer: Result<(), Untold>) -> Result<(), ErrorStatus>
    ensures { result ≡ told_command answer }
{
    match answer {
        Ok(()) => Ok(()),
        Err(Untold::Full) => Err(ErrorStatus::ServiceUnavailable),
        Err(Untold::Memory) => Err(ErrorStatus::InternalServerError),
    }
}

/// A notebook is put at a path.
#[tactic(auto, using(crate::proofs::Putting::tries_book))]
fn try_book<L: Running, S: Shelf>(
    alloc: Global,
    tables: &mut Tables,
    running: &mut L,
    shelf: &mut S,
    path: Text,
    book: ReadNotebook,
) -> Result<(), ErrorStatus>
    requires { HasRoom tables.old }
    ensures shelf { Tells (S.contents shelf.old) (S.contents shelf.new)
        (Tries L.begins L.tells (variant.PutBook path book) result (rows tables.old) (rows tables.new) running.old running.new) }
    ensures alone { TriesAlone L.begins L.tells (variant.PutBook path book) result (rows tables.old) (rows tables.new) running.old running.new }
    ensures room { HasRoom tables.new }
{
    told_of(put_book(alloc, tables, shelf, path, book))
}

fn try_change<L: Running, S: Shelf>(
    alloc: Global,
    tables: &mut Tables,
    running: &mut L,
    shelf: &mut S,
    change: Change,
) -> Result<(), ErrorStatus>
    requires { HasRoom tables.old }
    ensures shelf { Tells (S.contents shelf.old) (S.contents shelf.new)
        (Tries L.begins L.tells change result (rows tables.old) (rows tables.new) running.old running.new) }
    ensures alone { TriesAlone L.begins L.tells change result (rows tables.old) (rows tables.new) running.old running.new }
    ensures room { HasRoom tables.new }
{
    match change {
        Change::Nothing => Ok(()),
        Change::Put(path, item) => told_of(shelf.put(path.as_str(), item)),
        Change::PutBook(path, book) => try_book(alloc, tables, running, shelf, path, book),
        Change::Delete(path) => told_of(shelf.delete(path.as_str())),
        Change::Rename(from, to) => told_of(shelf.rename(from.as_str(), to.as_str())),
        Change::Begin(id) => match running.begin(id.as_str()) {
            Ok(()) => Ok(()),
            Err(_) => Err(ErrorStatus::InternalServerError),
        },
        Change::Tell(id, command) => status_of(running.tell(id.as_str(), command)),
    }
}

// ---- finding the plan

fn page(method: Method) -> Result<Plan, Refusal>
    ensures { Gives result (spec.page_plan method) }
{
    match method {
        Method::Get => Ok(Plan {
            change: Change::Nothing,
            update: Update::Same,
            answer: Answer::Page,
        }),
        _ => Err(Refusal::Status(ErrorStatus::MethodNotAllowed)),
    }
}

fn version(alloc: Global, method: Method) -> Result<Plan, Refusal>
    ensures { Gives result (spec.version_plan method) }
{
    match method {
        Method::Get => kernels::version(alloc),
        _ => Err(Refusal::Status(ErrorStatus::MethodNotAllowed)),
    }
}

fn shutdown(method: Method) -> Result<Plan, Refusal>
    ensures { Gives result (spec.shutdown_plan method) }
{
    match method {
        Method::Post => Ok(Plan {
            change: Change::Nothing,
            update: Update::Same,
            answer: Answer::Stops,
        }),
        _ => Err(Refusal::Status(ErrorStatus::MethodNotAllowed)),
    }
}

fn kernelspecs(alloc: Global, method: Method) -> Result<Plan, Refusal>
    ensures { Gives result (spec.kernelspecs_plan method) }
{
    match method {
        Method::Get => kernels::kernelspecs(alloc),
        _ => Err(Refusal::Status(ErrorStatus::MethodNotAllowed)),
    }
}

fn all_kernels(
    alloc: Global,
    tables: &Tables,
    given: &Given,
    request: &Request,
) -> Result<Plan, Refusal>
    ensures { Gives result (spec.kernels_plan request.now.method (rows tables.now) given.now request.now) }
{
    match request.method {
        Method::Get => kernels::all(alloc, tables),
        Method::Post => kernels::create(alloc, tables, given, request.body.as_slice()),
        _ => Err(Refusal::Status(ErrorStatus::MethodNotAllowed)),
    }
}

fn one_kernel(alloc: Global, tables: &Tables, method: Method, id: &[u8]) -> Result<Plan, Refusal>
    ensures { Gives result (spec.kernel_plan method id.now (rows tables.now)) }
{
    match method {
        Method::Get => kernels::one(alloc, tables, id),
        Method::Delete => kernels::end(tables, id),
        _ => Err(Refusal::Status(ErrorStatus::MethodNotAllowed)),
    }
}

fn interrupt(tables: &Tables, method: Method, id: &[u8]) -> Result<Plan, Refusal>
    ensures { Gives result (spec.interrupt_plan method id.now (rows tables.now)) }
{
    match method {
        Method::Post => kernels::interrupt(tables, id),
        _ => Err(Refusal::Status(ErrorStatus::MethodNotAllowed)),
    }
}

fn restart(alloc: Global, tables: &Tables, method: Method, id: &[u8]) -> Result<Plan, Refusal>
    ensures { Gives result (spec.restart_plan method id.now (rows tables.now)) }
{
    match method {
        Method::Post => kernels::restart(alloc, tables, id),
        _ => Err(Refusal::Status(ErrorStatus::MethodNotAllowed)),
    }
}

fn channels(tables: &Tables, method: Method, id: &[u8]) -> Result<Plan, Refusal>
    ensures { Gives result (spec.channels_plan method id.now (rows tables.now)) }
{
    match method {
        Method::Get => kernels::channels(tables, id),
        _ => Err(Refusal::Status(ErrorStatus::MethodNotAllowed)),
    }
}

#[tactic(auto, using(crate::proofs::Telling::tells_same))]
fn all_sessions<S: Shelf>(
    alloc: Global,
    tables: &Tables,
    shelf: &mut S,
    given: &Given,
    request: &Request,
) -> Result<Plan, Refusal>
    ensures shelf { Tells (S.contents shelf.old) (S.contents shelf.new)
        (spec.FindsSessions (rows tables.now) given.now request.now result) }
    ensures alone { spec.IsSessionsAlone request.now.method (rows tables.now) result }
{
    match request.method {
        Method::Get => sessions::all(alloc, tables),
        Method::Post => open(alloc, tables, shelf, given, request.body.as_slice()),
        _ => Err(Refusal::Status(ErrorStatus::MethodNotAllowed)),
    }
}

fn one_session(
    alloc: Global,
    tables: &Tables,
    request: &Request,
    id: &[u8],
) -> Result<Plan, Refusal>
    ensures { Gives result (spec.session_plan request.now.method id.now request.now.body (rows tables.now)) }
{
    match request.method {
        Method::Get => sessions::one(alloc, tables, id),
        Method::Patch => sessions::patch(alloc, tables, id, request.body.as_slice()),
        Method::Delete => sessions::end(tables, id),
        _ => Err(Refusal::Status(ErrorStatus::MethodNotAllowed)),
    }
}

/// A segment of the path of a request, or no bytes.
fn segment(segments: &[js_http::Bytes], place: usize) -> &[u8]
    ensures { result.now ≡ get_or segments.now place [] }
{
    match segments.get(place) {
        Some(bytes) => bytes.as_slice(),
        None => &[],
    }
}

/// The plan of a request on what stands in the tables alone.
fn tables_plan(
    alloc: Global,
    route: Route,
    tables: &Tables,
    given: &Given,
    request: &Request,
    segments: &[js_http::Bytes],
) -> Result<Plan, Refusal>
    requires { segments.now ≡ segments_of (spec.path_of request.now) }
    ensures { Gives result (spec.tables_plan route (rows tables.now) given.now request.now) }
{
    let id = segment(segments, 3);
    match route {
        Route::Page => page(request.method),
        Route::Version => version(alloc, request.method),
        Route::Shutdown => shutdown(request.method),
        Route::Kernelspecs => kernelspecs(alloc, request.method),
        Route::Kernels => all_kernels(alloc, tables, given, request),
        Route::Kernel => one_kernel(alloc, tables, request.method, id),
        Route::Interrupt => interrupt(tables, request.method, id),
        Route::Restart => restart(alloc, tables, request.method, id),
        Route::Channels => channels(tables, request.method, id),
        // `route_aim` asks for neither sessions nor contents.
        Route::Sessions => Err(Refusal::Status(ErrorStatus::MethodNotAllowed)),
        Route::Session => one_session(alloc, tables, request, id),
        Route::Contents => Err(Refusal::Status(ErrorStatus::MethodNotAllowed)),
    }
}

/// What is to be done for a request on a route. The shelf is read and not changed.
#[tactic(auto, using(crate::proofs::Telling::tells_same))]
fn route_aim<S: Shelf>(
    inputs: Inputs<'_>,
    route: Route,
    shelf: &mut S,
    prepared: Prepared,
    segments: &[js_http::Bytes],
) -> Result<Aim, Refusal>
    requires segments { segments.now ≡ segments_of (spec.path_of inputs.request.now) }
    requires prepared { parts.IsPrepared inputs.request.now prepared }
    ensures shelf { Tells (S.contents shelf.old) (S.contents shelf.new)
        (parts.AimsOn route (rows inputs.entry.tables.now) inputs.entry.given.now inputs.entry.request.now result) }
    ensures alone { Comes (spec.IsFoundAlone (Some route) (rows inputs.entry.tables.now) inputs.entry.given.now inputs.entry.request.now) result }
{
    let Inputs {
        alloc,
        tables,
        given,
        request,
    } = inputs;
    match route {
        Route::Contents => contents_aim(inputs, shelf, prepared, segments),
        Route::Sessions => planned(all_sessions(alloc, tables, shelf, given, request)),
        _ => planned(tables_plan(alloc, route, tables, given, request, segments)),
    }
}

/// What is to be done for a request by its path. The shelf is read and not changed.
#[tactic(auto, using(crate::proofs::Telling::tells_same, crate::proofs::Failing::found_failed, crate::proofs::Failing::found_failed_alone))]
fn path_aim<S: Shelf>(
    inputs: Inputs<'_>,
    router: &Router<Route>,
    shelf: &mut S,
    prepared: Prepared,
) -> Result<Aim, Refusal>
    requires routed { router.now ≡ table }
    requires prepared { parts.IsPrepared inputs.request.now prepared }
    ensures shelf { Tells (S.contents shelf.old) (S.contents shelf.new)
        (parts.AimsAt (route_of (spec.path_of inputs.entry.request.now)) (rows inputs.entry.tables.now) inputs.entry.given.now inputs.entry.request.now result) }
    ensures alone { Comes (spec.IsFoundAlone (route_of (spec.path_of inputs.entry.request.now)) (rows inputs.entry.tables.now) inputs.entry.given.now inputs.entry.request.now) result }
{
    let request = inputs.request;
    let segments = path_segments(inputs.alloc, request.path())?;
    match find(router, request.path()) {
        None => Err(Refusal::Status(ErrorStatus::NotFound)),
        Some(route) => route_aim(inputs, route, shelf, prepared, segments.as_slice()),
    }
}

/// What is to be done for a request. The shelf is read and not changed.
#[tactic(auto, using(crate::proofs::Telling::tells_same))]
fn find_aim<S: Shelf>(
    inputs: Inputs<'_>,
    router: &Router<Route>,
    shelf: &mut S,
    prepared: Prepared,
) -> Result<Aim, Refusal>
    requires routed { router.now ≡ table }
    requires prepared { parts.IsPrepared inputs.request.now prepared }
    ensures shelf { Tells (S.contents shelf.old) (S.contents shelf.new)
        (parts.Aims (rows inputs.entry.tables.now) inputs.entry.given.now inputs.entry.request.now result) }
    ensures alone { Comes
        (spec.IsFoundAloneIf (is_own_request inputs.entry.request.now.headers) (route_of (spec.path_of inputs.entry.request.now)) (rows inputs.entry.tables.now) inputs.entry.given.now inputs.entry.request.now)
        result }
{
    let request = inputs.request;
    if is_own(&request.headers) {
        path_aim(inputs, router, shelf, prepared)
    } else {
        Err(Refusal::Status(ErrorStatus::Forbidden))
    }
}

impl<L: Running> Manager<L> {
    /// No kernels. `start` is the date of the server's start, as the answers show it.
    ///
    /// # Errors
    /// Where there is no memory.
    pub fn new(alloc: Global, start: Text, running: L) -> Result<Manager<L>, InsertError>
        ensures tables { IfOk result (λ manager. rows manager.tables ≡ no_rows start) }
        ensures running { IfOk result (λ manager. manager.running ≡ running) }
    {
        Ok(Manager {
            router: routes(alloc)?,
            tables: Tables::new(alloc, start),
            running,
        })
    }

    fn carry_out<S: Shelf>(&mut self, alloc: Global, shelf: &mut S, plan: Plan) -> Answer
        ensures shelf { Tells (S.contents shelf.old) (S.contents shelf.new)
            (spec.CarriesOut L.begins L.tells plan (rows self.old.tables) (rows self.new.tables) self.old.running self.new.running result) }
        ensures alone { spec.CarriesOutAlone L.begins L.tells plan (rows self.old.tables) (rows self.new.tables) self.old.running self.new.running result }
    {
        let Plan {
            change,
            update,
            answer,
        } = plan;
        if self.tables.make_room().is_err() {
            return Answer::Reply(Response::Refused(ErrorStatus::InternalServerError));
        }
        match try_change(alloc, &mut self.tables, &mut self.running, shelf, change) {
            Ok(()) => {
                self.tables.update(update);
                answer
            }
            Err(status) => Answer::Reply(Response::Refused(status)),
        }
    }

    /// The step of a request of which this was made, over the tables, the kernels and the shelf. No notebook is read of JSON and
    /// none is written as JSON here, but for a recorder that begins or saves.
    pub fn step<S: Shelf>(
        &mut self,
        alloc: Global,
        shelf: &mut S,
        given: &Given,
        request: &Request,
        prepared: Prepared,
    ) -> Outcome
        requires { parts.IsPrepared request.now prepared }
        ensures shelf { Tells (S.contents shelf.old) (S.contents shelf.new)
            (parts.Steps L.begins L.tells given.now request.now (rows self.old.tables) (rows self.new.tables) self.old.running self.new.running result) }
        // What concerns neither contents nor a new session comes to this whatever the shelf tells.
        ensures alone { parts.StepsAlone L.begins L.tells (route_of (spec.path_of request.now)) given.now request.now (rows self.old.tables) (rows self.new.tables) self.old.running self.new.running result }
    {
        let inputs = Inputs {
            alloc,
            tables: &self.tables,
            given,
            request,
        };
        match find_aim(inputs, &self.router, shelf, prepared) {
            Ok(aim) => match aim {
                Aim::Plan(plan) => Outcome::Answered(self.carry_out(alloc, shelf, plan)),
                Aim::File(about, opening) => Outcome::Shown(about, opening),
            },
            Err(refusal) => Outcome::Answered(Answer::Reply(Response::Refused(refusal.status()))),
        }
    }

    /// Answers a request: its three parts, one after the other.
    pub fn answer<S: Shelf>(
        &mut self,
        alloc: Global,
        shelf: &mut S,
        given: &Given,
        request: &Request,
    ) -> Answer
        ensures shelf { Tells (S.contents shelf.old) (S.contents shelf.new)
            (spec.IsAnswer L.begins L.tells given.now request.now (rows self.old.tables) (rows self.new.tables) self.old.running self.new.running result) }
        // What concerns neither contents nor a new session is answered so whatever the shelf tells.
        ensures alone { spec.IsAnswerAlone L.begins L.tells (route_of (spec.path_of request.now)) given.now request.now (rows self.old.tables) (rows self.new.tables) self.old.running self.new.running result }
    {
        let prepared = prepare(alloc, request);
        let outcome = self.step(alloc, shelf, given, request, prepared);
        finish(alloc, outcome)
    }
}
