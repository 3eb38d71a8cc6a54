//! The messages of the commands by which the server tells a kernel something.
ghost use Rattle.std.specs.Prelude.{◌≡◌, IfSome, true};
ghost use Rattle.jk_log.specs.Asked.{sort_as};
ghost use Rattle.js_kernels.specs.Told.{asked};

use jk_log::{Sort, What, sort_of};
use jp_msg::read_message;
use js_tables::Command;
use json_form::Shared;
use std::alloc::Global;

/// The messages by which the server tells a kernel something. What they are answered goes to no connection.
const INTERRUPT: &str =
    "{\"channel\":\"control\",\"content\":{},\"header\":{\"msg_id\":\"server\",\"msg_type\":\"interrupt_request\",\"session\":\"server\"}}";

const RESTART: &str =
    "{\"channel\":\"control\",\"content\":{\"restart\":true},\"header\":{\"msg_id\":\"server\",\"msg_type\":\"shutdown_request\",\"session\":\"server\"}}";

const SHUTDOWN: &str =
    "{\"channel\":\"control\",\"content\":{\"restart\":false},\"header\":{\"msg_id\":\"server\",\"msg_type\":\"shutdown_request\",\"session\":\"server\"}}";

/// Whether what a kernel has to do for a message is this command.
fn is_asked(command: Command, sort: Sort) -> bool
    ensures { result ≡ true → sort ≡ asked command }
{
    match command {
        Command::Interrupt => match sort {
            Sort::Interrupt => true,
            _ => false,
        },
        Command::Restart => match sort {
            Sort::Shutdown { restart } => restart,
            _ => false,
        },
        Command::Shutdown => match sort {
            Sort::Shutdown { restart } => !restart,
            _ => false,
        },
    }
}

/// The message of a command. There is none where memory is refused.
pub(super) fn message_of(alloc: Global, command: Command) -> Option<What>
    ensures { IfSome result (λ what. sort_as what ≡ asked command) }
{
    let text = match command {
        Command::Interrupt => INTERRUPT,
        Command::Restart => RESTART,
        Command::Shutdown => SHUTDOWN,
    };
    let message = read_message(alloc, text).ok()?;
    let what = What::Control(Shared::share(alloc, message).ok()?);
    if is_asked(command, sort_of(&what)) {
        Some(what)
    } else {
        None
    }
}
