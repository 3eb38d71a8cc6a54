//! Which entries a connection is sent.
ghost use Rattle.std.specs.Prelude.{◌≡◌};
ghost use Rattle.jk_log.specs.View as spec;
ghost use Rattle.js_ws.specs.Shutdowns as last;
ghost use Rattle.js_ws.specs.Statuses as status;

use jk_log::{Entry, To, Told};
use jp_msg::{Channel, Content, Message, Output, Request, State};

/// Whether an entry that goes there goes to the seat.
pub(crate) fn goes_to(to: To, seat: u8) -> bool
    ensures { result ≡ spec.goes_to seat to }
{
    match to {
        To::All => true,
        To::Seat(place) => place == seat,
        To::Nobody => false,
    }
}

/// Whether the entry is the join of that seat with that number.
pub(crate) fn is_join(entry: &Entry, seat: u8, number: u64) -> bool
    ensures { result ≡ spec.is_join seat number entry.now }
{
    match &entry.content {
        Told::Joined {
            seat: place,
            number: its,
        } => *place == seat && *its == number,
        Told::Left { .. } | Told::Output(_) => false,
    }
}

/// Whether it tells that the kernel is idle.
fn tells_idle(told: &Told) -> bool
    ensures { result ≡ last.tells_idle told.now }
{
    match told {
        Told::Output(Output::Status(State::Idle)) => true,
        _ => false,
    }
}

/// Whether the request asks the kernel to end and not to start again.
fn ends_kernel(message: &Message) -> bool
    ensures { result ≡ last.content_ends message.now.content }
{
    match &message.content {
        Content::Request(Request::Shutdown { restart }) => !*restart,
        _ => false,
    }
}

/// Whether the entry is the last that a kernel shows: the idle of a shutdown without restart.
pub fn is_last(entry: &Entry) -> bool
    ensures { result ≡ last.is_last entry.now }
{
    tells_idle(&entry.content)
        && match &entry.parent {
            Some(parent) => ends_kernel(parent.value()),
            None => false,
        }
}

/// Whether the message came on the shell.
fn from_shell(message: &Message) -> bool
    ensures { result ≡ status.is_shell message.now.channel }
{
    match message.channel {
        Channel::Shell => true,
        Channel::Control | Channel::Stdin | Channel::Iopub => false,
    }
}

/// The state that is told, or the one before.
fn state_by(before: bool, told: &Told) -> bool
    ensures { result ≡ status.state_by before told.now }
{
    match told {
        Told::Output(Output::Status(State::Busy)) => true,
        Told::Output(Output::Status(State::Idle)) => false,
        _ => before,
    }
}

/// Whether the kernel is busy with a request of the shell after an entry, by what was so before it.
pub(crate) fn busy_with(before: bool, entry: &Entry) -> bool
    ensures { result ≡ status.busy_with before entry.now }
{
    let for_shell = match &entry.parent {
        Some(parent) => from_shell(parent.value()),
        None => false,
    };
    if for_shell {
        state_by(before, &entry.content)
    } else {
        before
    }
}
