//! What the threads of the server do.
ghost use Rattle.std.specs.Prelude.{IfSome};
ghost use Rattle.js_drive.specs.Parsers.{AreParsersOf};

use crate::pulse::pulse;
use crossbeam_channel::{Receiver, Sender};
use jk_language::Language;
use js_call::{Call, Guest, Limits};
use js_connect::{accept_all, serve_connection};
use js_drive::{NewKernel, Opening, Parser, make_kernel};
use std::alloc::Global;
use std::net::TcpListener;
use std::sync::Wait;
use std::time::Clock;

/// What one thread does. It is started where the language is known, since there it is known what may cross to it.
#[derive(Drop)]
pub enum Job<L: Language> {
    /// Accepts connections.
    Accept(TcpListener, Sender<Call<L>>),
    /// Serves one connection.
    Connection(Guest, Sender<Call<L>>),
    /// Drives one kernel, which it makes.
    Drive(Opening<L>),
    /// Calls the desk after each pause that it says, so that it reads for recorders.
    Pulse(Sender<Call<L>>, Receiver<u64>),
}

/// Does a job. A browser that asks for the page is sent that one. A kernel that is to be driven is made and comes back: first each
/// of its parsers gets a thread, by `parse`, and then `drive_kernel` is told whether all have one. The parsers are those of its driver's
/// pool.
pub fn work<L: Language, R: Wait + Clock + Copy + Drop>(
    rt: &R,
    alloc: Global,
    limits: Limits,
    job: Job<L>,
    page: &str,
) -> Option<(Vec<Parser<L>>, NewKernel<L>)>
    ensures { IfSome result (λ made. AreParsersOf made.1 made.0.items) }
{
    match job {
        Job::Accept(listener, calls) => {
            accept_all(rt, alloc, limits, &listener, &calls);
            None
        }
        Job::Connection(guest, calls) => {
            serve_connection(rt, alloc, limits, guest, &calls, page);
            None
        }
        Job::Drive(opening) => make_kernel(rt, alloc, opening),
        Job::Pulse(calls, pauses) => {
            pulse(rt, &calls, &pauses);
            None
        }
    }
}
