//! How a connection asks, and waits for its reply.
ghost use Rattle.std.specs.Prelude.{◌≡◌, IfSome};
ghost use Rattle.js_lend.specs.Ends.{lent_to};
ghost use Rattle.js_call.specs.Exchanging.{HasAsked, IsReplied};

use crate::call::Reply;
use crate::client::Client;
use crate::exchange::Exchange;
use crate::question::Question;
use crossbeam_channel::{Receiver, bounded};
use jk_language::Language;
use js_lend::{Blank, Loan};
use js_rest::ReadRequest;
use std::alloc::Global;
use std::sync::Wait;

/// One who has lent an exchange, and is woken when it has come back.
#[derive(Drop)]
pub struct Waiting<L: Language> {
    loan: Loan<Exchange<L>>,
    woken: Receiver<()>,
}

/// The question by which a request is asked, and who waits for its reply. There is nothing where memory is refused.
pub fn ask_by<L: Language, R: Wait>(
    rt: &R,
    alloc: Global,
    request: ReadRequest,
) -> Option<(Question<L>, Waiting<L>)>
    ensures question { IfSome result (λ made. made.0.request ≡ request) }
    ensures waiting { IfSome result (λ made. HasAsked request (lent_to made.1.loan)) }
{
    let (wake, woken) = bounded(alloc, 1).ok()?;
    let blank = Blank::new(alloc).ok()?;
    let (loan, lease) = blank.lend(rt, Exchange::new(request.request()));
    let client = Client::new(lease, wake);
    Some((Question { request, client }, Waiting { loan, woken }))
}

impl<L: Language> Waiting<L> {
    /// Waits for the reply to what was asked. There is none where whoever was to reply is gone.
    pub fn wait<R: Wait>(self, rt: &R) -> Option<Reply<L>>
        ensures { IfSome result (λ reply. IsReplied reply (lent_to self.loan)) }
    {
        let Waiting { mut loan, woken } = self;
        let _ = woken.recv(rt);
        loan.take(rt)?.into_reply()
    }
}
