//! Who asks the desk, and what the desk has of each.
ghost use Rattle.std.specs.Prelude.{◌≡◌, length};
ghost use Rattle.js_lend.specs.Ends.{lent_by};
ghost use Rattle.js_call.specs.Sets.{same_requests};

use crate::call::Reply;
use crate::exchange::Exchange;
use crossbeam_channel::{Receiver, Sender};
use jk_language::Language;
use js_drive::Opened;
use js_http::Response;
use js_lend::Lease;
use std::sync::Wait;

/// One who has asked the desk, to whom one reply goes: the exchange that it lent for its request, which goes back with the reply, and
/// what wakes it then.
#[derive(Drop)]
pub struct Client<L: Language> {
    lease: Lease<Exchange<L>>,
    wake: Sender<()>,
    ghost same: { lease.value.asked.items ≡ (lent_by lease.back).asked.items } by { same_requests _ _ },
    ghost once: { length (lent_by lease.back).asked.items ≡ 1 },
}

/// What comes of a kernel that is made: its ends, and the response of whoever asked for it.
#[derive(Drop)]
pub struct Made<L: Language> {
    pub opened: Receiver<Opened<L>>,
    pub response: Response,
}

impl<L: Language> Client<L> {
    ghost use Rattle.js_call.specs.Asking.{Replies};

    /// One who has lent this exchange.
    pub(crate) fn new(lease: Lease<Exchange<L>>, wake: Sender<()>) -> Client<L>
        requires same { lent_by lease.back ≡ lease.value }
        requires once { length lease.value.asked.items ≡ 1 }
        ensures { result.lease ≡ lease }
    {
        Client { lease, wake }
    }

    /// Gives the exchange back with a reply to what was asked in it, and wakes whoever lent it.
    pub(crate) fn give<R: Wait>(self, rt: &R, reply: Reply<L>)
        requires { Replies reply self }
    {
        let Client { lease, wake } = self;
        let Lease { value, back } = lease;
        back.give(rt, value.with_reply(reply));
        let _ = wake.send(rt, ());
    }
}
