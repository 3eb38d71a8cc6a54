//! What an entry means for a notebook.

ghost use Rattle.std.specs.Prelude.{◌≡◌, IfOk, string_bytes};
ghost use Rattle.jp_msg.specs.Writing.{traceback_text};
ghost use Rattle.nb_record.specs.Book.{is_stored, wish_of, begins, error_of, event_told, event_of};
ghost use Rattle.nb_record.specs.State as spec;
ghost use Rattle.nb_record.specs.State.{IsReadableEvent};

use jk_log::{Entry, Told};
use jp_msg::{Content, Failure, Message, Output as ToldOutput, Request, State};
use json_form::Text;
use nb_doc::{Notebook, Output};
use serde_json::Value;
use std::alloc::{AllocError, Global};

/// What happens to a notebook that is recorded.
#[derive(Drop)]
pub enum Event {
    /// A cell that is stored begins: the id that its request wishes for, its source and its count.
    Begins {
        wish: Option<Text>,
        source: Text,
        count: u64,
    },
    /// A cell that is not stored begins.
    Passes,
    /// The cell that began last writes.
    Writes(Output),
    /// The cell that began last has ended.
    Ends,
    Puts(Notebook),
    Nothing,
}

/// What an entry means.
pub(crate) fn event_in(alloc: Global, entry: &Entry) -> Result<Event, AllocError>
    ensures event { IfOk result (λ v. v ≡ event_of entry.now.parent entry.now.content) }
    ensures readable { IfOk result IsReadableEvent }
{
    match &entry.parent {
        None => Ok(Event::Nothing),
        Some(request) => match &entry.content {
            Told::Joined { .. } | Told::Left { .. } => Ok(Event::Nothing),
            Told::Output(output) => told(alloc, request.value(), output),
        },
    }
}

fn told(alloc: Global, request: &Message, output: &ToldOutput) -> Result<Event, AllocError>
    ensures event { IfOk result (λ v. v ≡ event_told request.now output.now) }
    ensures readable { IfOk result IsReadableEvent }
{
    match output {
        ToldOutput::ExecuteInput {
            code,
            execution_count,
        } => begun(alloc, request, code.value(), *execution_count),
        ToldOutput::Stream(text) => Ok(Event::Writes(Output::stream(
            alloc,
            "stdout",
            text.value().as_str(),
        )?)),
        ToldOutput::Error(failure) => Ok(Event::Writes(error(alloc, failure)?)),
        ToldOutput::ExecuteReply(_) => Ok(Event::Ends),
        _ => Ok(Event::Nothing),
    }
}

fn begun(alloc: Global, request: &Message, source: &Text, count: u64) -> Result<Event, AllocError>
    ensures event { IfOk result (λ v. v ≡ begins request.now source.now count) }
    ensures readable { IfOk result IsReadableEvent }
{
    if !stored(&request.content) {
        return Ok(Event::Passes);
    }
    Ok(Event::Begins {
        wish: wish(alloc, request)?,
        source: source.copy()?,
        count,
    })
}

/// Whether an entry is the idle of an execute request that is stored. Then its cell has ended.
pub fn ends_stored(entry: &Entry) -> bool
    ensures { result ≡ spec.ends_stored entry.now }
{
    match &entry.parent {
        None => false,
        Some(request) => stored(&request.value().content) && is_idle(&entry.content),
    }
}

fn is_idle(content: &Told) -> bool
    ensures { result ≡ spec.is_idle content.now }
{
    matches!(content, Told::Output(ToldOutput::Status(State::Idle)))
}

fn stored(content: &Content) -> bool
    ensures { result ≡ is_stored content.now }
{
    match content {
        Content::Request(Request::Execute(execute)) => execute.store_history && !execute.silent,
        _ => false,
    }
}

/// The id of the cell that a frontend names in the metadata of its request.
fn wish(alloc: Global, request: &Message) -> Result<Option<Text>, AllocError>
    ensures { IfOk result (λ w. w ≡ wish_of request.now) }
{
    match request
        .metadata
        .value()
        .get("cellId")
        .and_then(Value::as_str)
    {
        None => Ok(None),
        Some(id) => Ok(Some(Text::from_str(alloc, id)?)),
    }
}

fn error(alloc: Global, failure: &Failure) -> Result<Output, AllocError>
    ensures { IfOk result (λ o. o ≡ error_of failure.now) }
{
    let line = traceback(alloc, failure)?;
    Output::error(
        alloc,
        failure.ename.as_str(),
        failure.evalue.as_str(),
        line.as_str(),
    )
}

/// The one line of a traceback.
#[tactic(auto, unfolding(jp_msg::specs::Writing::traceback_text))]
fn traceback(alloc: Global, failure: &Failure) -> Result<String, AllocError>
    ensures { IfOk result (λ s. string_bytes s ≡ traceback_text failure.now) }
{
    let mut line = String::from_str(alloc, failure.ename.as_str())?;
    if !failure.evalue.as_str().is_empty() {
        line.push_str(": ")?;
        line.push_str(failure.evalue.as_str())?;
    }
    Ok(line)
}
