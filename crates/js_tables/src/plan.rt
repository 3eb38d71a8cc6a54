//! What is to be done for a request, once it has been judged.
ghost use Rattle.std.specs.Prelude.{◌≡◌};
ghost use Rattle.js_tables.specs.Plans as spec;

use crate::book::ReadNotebook;
use crate::tables::{Kernel, Recording};
use js_http::Response;
use js_shelf::Item;
use json_form::Text;
use nb_doc::Listed;
use std::collections::HashMap;

/// A change of the tables, which needs no memory.
#[derive(Drop)]
pub enum Update {
    Same,
    /// A kernel, with the recorder of its session.
    AddKernel(Kernel, Option<Recording>),
    /// The kernel goes, with its session and its recorder.
    DropKernel(Text),
    /// The sessions of kernels have changed, and there is one more recorder or none.
    SetKernels(Listed<Kernel>, Option<Recording>),
    /// The date of a path.
    SetDate(Text, Text),
    /// The file at a path goes, with its date and with the recorder of the session there.
    DropFile(Text),
    /// Paths of sessions and of dates have changed: the kernels, and the date of each path.
    Move(Listed<Kernel>, HashMap<String, Text>),
}

/// What a kernel is told on its control channel.
#[derive(Clone, Copy, Debug, PartialEq, Eq)]
pub enum Command {
    Interrupt,
    Restart,
    Shutdown,
}

/// The one call that a request makes on what stands outside the tables, and that may be refused.
#[derive(Drop)]
pub enum Change {
    Nothing,
    Put(Text, Item),
    /// A notebook is put at a path. The recorder of the session there, if there is one, is given it and saves; where there is none,
    /// its file is put.
    PutBook(Text, ReadNotebook),
    Delete(Text),
    Rename(Text, Text),
    /// A kernel of that identifier is made.
    Begin(Text),
    Tell(Text, Command),
}

/// What a request is answered.
#[derive(Drop)]
pub enum Answer {
    Reply(Response),
    /// The channels of the kernel of that identifier are to be opened.
    Channels(Text),
    /// The kernel of that identifier has a recorder and was told to shut down. Once the recorder was told all that it showed, and
    /// the save of that was tried, the kernel's row goes, and then the answer is 204.
    Ends(Text),
    /// The page for a browser, as a response of 200.
    Page,
    /// The server is to stop: 200 with the body `{}`. After it each session is ended as its DELETE ends it, and then the server
    /// stops.
    Stops,
}

/// The change that is tried first, and what follows where it succeeds.
#[derive(Drop)]
pub struct Plan {
    pub change: Change,
    pub update: Update,
    pub answer: Answer,
}

/// A plan that changes nothing.
pub fn reply(response: Response) -> Plan
    ensures { result ≡ spec.reply response }
{
    Plan {
        change: Change::Nothing,
        update: Update::Same,
        answer: Answer::Reply(response),
    }
}
