//! What a connection lends to the desk for a request, and what comes back with the reply.
ghost use Rattle.std.specs.Prelude.{◌≡◌, [], ◌∷◌, Some};

use crate::call::Reply;
use jk_language::Language;
use js_http::Request;
use js_lend::Comes;
use past::Past;

/// One request, and the reply to it once there is one. What was asked clauses alone see.
#[derive(Drop)]
pub struct Exchange<L: Language> {
    asked: Past<Request>,
    reply: Option<Reply<L>>,
}

impl<L: Language> Comes for Exchange<L> {
    ghost use Rattle.js_call.specs.Exchanging.{ComesBack};

    ghost comes = { ComesBack };
}

impl<L: Language> Exchange<L> {
    /// This is asked, and has no reply yet.
    pub(crate) fn new(request: &Request) -> Exchange<L>
        ensures { result.asked.items ≡ request.now ∷ [] }
    {
        Exchange {
            asked: Past::new().and(request),
            reply: None,
        }
    }

    /// The same was asked, and this is the reply.
    pub(crate) fn with_reply(self, reply: Reply<L>) -> Exchange<L>
        ensures asked { result.asked.items ≡ self.asked.items }
        ensures reply { result.reply ≡ Some reply }
    {
        let Exchange { asked, reply: _ } = self;
        Exchange {
            asked,
            reply: Some(reply),
        }
    }

    /// The reply, if there is one.
    pub(crate) fn into_reply(self) -> Option<Reply<L>>
        ensures { result ≡ self.reply }
    {
        let Exchange { asked: _, reply } = self;
        reply
    }
}
