//! How the server stops: each kernel is ended as its DELETE ends it, and then the desk has nothing to do any more.
ghost use Rattle.std.specs.Prelude.{◌≡◌, ◌&&◌, ◌||◌, IfOk, IfSome, codes};
ghost use Rattle.js_http.specs.declared.response.Response.TheVariants.{Success};
ghost use Rattle.js_call.specs.Asking.{asks, Replies};
ghost use Rattle.js_call.specs.declared.call.Reply.TheVariants.{Last};

use super::Desk;
use crate::job::Job;
use crate::pulse::QUICK;
use jk_language::Language;
use js_call::{Reply, date_now};
use js_desk::is_over;
use js_http::{Bytes, ErrorStatus, Response};
use js_rest::{ReadRequest, Running};
use js_shelf::Shelf;
use js_tables::Command;
use json_form::Text;
use std::alloc::{AllocError, Global};
use std::random::RandomSource;
use std::sync::Wait;
use std::time::{Clock, Duration, Instant};

/// How far a server has stopped that was told to.
#[derive(Drop)]
pub(super) struct Stopping {
    /// When it was told to.
    begun: Option<Instant>,
    /// Whether the request that told it has its response.
    answered: bool,
    /// Whether nothing is left to do.
    done: bool,
}

/// Whether a server has stopped that was told to: its time is over; or the request has its response, and no kernel is there.
fn has_stopped(late: bool, answered: bool, gone: bool) -> bool
    ensures { result ≡ (late || (answered && gone)) }
{
    late || (answered && gone)
}

/// The content of the response to the request that tells the server to stop.
fn nothing(alloc: Global) -> Result<Bytes, AllocError>
    ensures { IfOk result (λ content. content ≡ codes "{}") }
{
    let mut content = Vec::new(alloc);
    content.extend_from_slice(b"{}")?;
    Ok(Bytes::from(content))
}

/// What ends by value, and leaves something.
pub trait Closes {
    /// What it leaves.
    type Left: Drop;

    /// Answers all who wait still.
    fn close(self) -> Self::Left;
}

/// Closes a desk: all who wait still are answered that the server stops. The files are left.
pub fn close_desk<D: Closes>(desk: D) -> D::Left {
    desk.close()
}

impl<L, R, S> Closes for Desk<L, R, S>
where
    L: Language,
    R: Wait + Clock + RandomSource + Copy + Drop,
    S: Shelf + Drop,
{
    type Left = S;

    fn close(self) -> S {
        let Desk {
            rt,
            alloc,
            manager: _,
            shelf,
            sender: _,
            calls: _,
            clients,
            jobs: _,
            pauses: _,
            beats: _,
            rhythm: _,
            round: _,
            stopping: _,
            selector: _,
        } = self;
        clients.close(&rt, alloc);
        shelf
    }
}

impl<L, R, S> Desk<L, R, S>
where
    L: Language,
    R: Wait + Clock + RandomSource + Copy + Drop,
    S: Shelf + Drop,
{
    /// Whether the server was told to stop, and has: each kernel has ended, or five seconds have passed.
    pub fn has_stopped(&self) -> bool {
        match &self.stopping {
            Some(stopping) => stopping.done,
            None => false,
        }
    }

    /// The server was told to stop. Requests that wait are answered that it is not there for them. Where memory is refused, it
    /// goes on as before.
    pub(super) fn stop(&mut self)
        requires { IfSome self.old.clients.turn (Replies (Last (Success (codes "{}")))) }
    {
        let Ok(content) = nothing(self.alloc) else {
            self.refuse(ErrorStatus::InternalServerError);
            return;
        };
        self.send(Reply::Last(Response::Success(content)));
        self.stopping = Some(Stopping {
            begun: Instant::now(&self.rt).ok(),
            answered: false,
            done: false,
        });
        self.clients.stop(&self.rt, self.alloc);
    }

    /// Replies to a request, unless the server stops.
    pub(super) fn reply_or_refuse(&mut self, request: ReadRequest) -> Option<Job<L>>
        requires { IfSome self.old.clients.turn (asks request) }
    {
        if self.stopping.is_none() {
            return self.reply_to(request);
        }
        self.refuse(ErrorStatus::ServiceUnavailable);
        None
    }

    /// The request that told the server to stop has its response.
    pub(super) fn note_written(&mut self) {
        if let Some(stopping) = &mut self.stopping {
            stopping.answered = true;
        }
    }

    /// Goes on stopping, and takes a call that comes at once.
    pub(super) fn stop_on(&mut self) -> Option<Job<L>> {
        if self.has_stopped() {
            return None;
        }
        self.end_all();
        let gone = self.manager.running.is_empty();
        self.note_end(gone);
        let call = self
            .calls
            .recv_timeout(&self.rt, Duration::from_millis(QUICK))
            .ok()?;
        self.take(call)
    }

    /// Notes whether the server has stopped, where the kernels are gone or are not.
    fn note_end(&mut self, gone: bool) {
        if let Some(stopping) = &mut self.stopping {
            let late = is_over(&self.rt, stopping.begun);
            stopping.done = has_stopped(late, stopping.answered, gone);
        }
    }

    /// Tells each kernel to shut down that was not told yet, and lets the recorders of those that end follow.
    fn end_all(&mut self) {
        let Some(date) = date_now(&self.rt, self.alloc) else {
            return;
        };
        self.look(&date);
        for place in (0..self.manager.tables.kernels.len()).rev() {
            if let Some(id) = self.lasting_at(place) {
                self.end_kernel(id);
            }
        }
        self.follow_all(&date);
    }

    /// The kernel in a row that is not ending.
    fn lasting_at(&self, place: usize) -> Option<Text> {
        let id = self.manager.tables.kernels.get(place)?.id.copy().ok()?;
        if self.clients.endings().has(id.as_str()) {
            return None;
        }
        Some(id)
    }

    /// Tells a kernel to shut down. One with a recorder is ending from then on, another goes at once. Where it could not be told
    /// nothing has changed, and it is told the next time.
    fn end_kernel(&mut self, id: Text) {
        if self
            .manager
            .running
            .tell(id.as_str(), Command::Shutdown)
            .is_err()
        {
            return;
        }
        if self.is_recorded(id.as_str()) {
            let _ = self.clients.begin_end(self.alloc, id.as_str());
        } else {
            let _ = self.drop_row(id);
        }
    }
}
