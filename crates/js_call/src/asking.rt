//! Those who ask the desk: what each asked, and what is replied.
ghost use Rattle.std.specs.Prelude.{◌≡◌};
ghost use Rattle.js_http.specs.declared.response.Response.TheVariants.{Refused};
ghost use Rattle.js_call.specs.Asking as spec;
ghost use Rattle.js_call.specs.declared.call.Reply.TheVariants.{Response as Responded};

use crate::call::{Call, Reply};
use crate::client::{Client, Made};
use crate::crowd::Guest;
use crate::question::Question;
use jk_language::Language;
use js_desk::{Asker, Askers, Cause};
use js_http::{ErrorStatus, Response};
use js_rest::ReadRequest;
use std::sync::Wait;

impl<L: Language> Asker for Client<L> {
    type Request = ReadRequest;

    type Reply = Reply<L>;

    type Made = Made<L>;

    ghost asks = { λ client request. spec.asks request client };

    ghost replies = { λ client reply. spec.Replies reply client };

    ghost comes = { λ client made. spec.Responds made.response client };

    ghost ends = { λ client. spec.WantsEnd client };

    fn reply<R: Wait>(self, rt: &R, reply: Reply<L>) {
        self.give(rt, reply);
    }

    fn dismiss<R: Wait>(self, rt: &R, cause: Cause) {
        self.reply(rt, reply_for(cause));
    }
}

/// What is replied for a cause.
fn reply_for<L: Language>(cause: Cause) -> Reply<L>
    ensures { result ≡ Responded (spec.response_for cause) }
{
    match cause {
        Cause::Ended => Reply::Response(Response::NoContent),
        Cause::Failed => refused(ErrorStatus::InternalServerError),
        Cause::Stops => refused(ErrorStatus::ServiceUnavailable),
    }
}

/// A refusal with a status.
pub fn refused<L: Language>(status: ErrorStatus) -> Reply<L>
    ensures { result ≡ Responded (Refused status) }
{
    Reply::Response(Response::Refused(status))
}

/// What a call is about, once it is known who asked.
#[derive(Drop)]
pub enum Matter {
    Accepted(Guest),
    Asked(ReadRequest),
    Back,
    Written,
    Pulse,
}

/// Takes a call. Whoever asks by it is among those who asked, and is to be answered now; the request that goes on is what that one asked.
pub fn admit<L: Language, R: Wait>(rt: &R, clients: &mut Askers<Client<L>>, call: Call<L>) -> Matter
    ensures admits { spec.Admits call clients.old clients.new }
    ensures asked { spec.IsAskedNow result clients.new.turn }
{
    match call {
        Call::Accepted(guest) => Matter::Accepted(guest),
        Call::Asked(question) => {
            let Question { request, client } = question;
            clients.ask(rt, client);
            Matter::Asked(request)
        }
        Call::Back => Matter::Back,
        Call::Written => Matter::Written,
        Call::Pulse => Matter::Pulse,
    }
}
