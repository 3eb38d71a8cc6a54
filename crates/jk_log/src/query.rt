//! Requests that wait and are no cells: what is answered to them.

ghost use Rattle.std.specs.Prelude.{◌≡◌, IfOk};
ghost use Rattle.jk_log.specs.Asked.{query_in};
ghost use Rattle.jk_log.specs.Queries.{IsCompleteSo, IsStatusOf, complete_reply, reply_to};

use crate::arrival::{What, query_sent};
use jk_language::{Language, Refused};
use jp_msg::{Completeness, Output, Request};
use std::alloc::{AllocError, Global};

/// The status with which an arrival is answered: that of its code, where it asks whether that is complete.
///
/// # Errors
///
/// Out of memory.
pub fn status_of<L: Language>(
    alloc: Global,
    what: &What,
) -> Result<Option<Completeness>, AllocError>
    ensures { IfOk result (λ status. IsStatusOf L.spoken (query_in what.now) status) }
{
    match query_sent(what) {
        Some(Request::IsComplete { code }) => {
            let status = completeness::<L>(alloc, code.as_str())?;
            Ok(Some(status))
        }
        _ => Ok(None),
    }
}

/// Whether a code is complete: it lacks its end where more text could mend it.
///
/// # Errors
///
/// Out of memory.
fn completeness<L: Language>(alloc: Global, code: &str) -> Result<Completeness, AllocError>
    ensures { IfOk result (λ status. IsCompleteSo L.spoken code.now status) }
{
    match L::parse(alloc, code) {
        Ok(_) => Ok(Completeness::Complete),
        Err(Refused::Fault(fault)) => {
            if fault.at_end {
                Ok(Completeness::Incomplete)
            } else {
                Ok(Completeness::Invalid)
            }
        }
        Err(Refused::Memory) => Err(AllocError),
    }
}

/// The content of the reply to a request, with its status.
pub(crate) fn reply_of(request: &Request, status: Option<Completeness>) -> Option<Output>
    ensures { result ≡ reply_to request.now status }
{
    match request {
        Request::KernelInfo => Some(Output::KernelInfoReply),
        Request::IsComplete { .. } => complete_reply_of(status),
        Request::Complete { cursor_pos } => Some(Output::CompleteReply {
            cursor_pos: *cursor_pos,
        }),
        Request::Inspect => Some(Output::InspectReply),
        Request::History => Some(Output::HistoryReply),
        Request::CommInfo => Some(Output::CommInfoReply),
        Request::Execute(_)
        | Request::Interrupt
        | Request::Shutdown { .. }
        | Request::InputReply { .. }
        | Request::Other => None,
    }
}

/// The reply that tells whether a code is complete.
fn complete_reply_of(status: Option<Completeness>) -> Option<Output>
    ensures { result ≡ complete_reply status }
{
    match status {
        Some(status) => Some(Output::IsCompleteReply(status)),
        None => None,
    }
}
