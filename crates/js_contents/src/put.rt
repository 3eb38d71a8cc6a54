//! What a PUT says that it puts.
ghost use Rattle.std.specs.Prelude.{◌≡◌, ◌≤◌, filter, Some, IfOk};
ghost use Rattle.serde_json.specs.Data.{depth};
ghost use Rattle.serde_json.specs.Read.{max_depth};
ghost use Rattle.nb_doc.specs.Documents.{IsDocument};
ghost use Rattle.nb_doc.specs.Writing.{notebook_form};
ghost use Rattle.js_contents.specs.Puts as spec;
ghost use Rattle.js_contents.specs.declared.put.Putting.TheVariants.{Notebook as Book};
ghost use Rattle.js_tables.specs.Plans.{Gives};

use crate::kind::is_notebook_name;
use crate::notebook::{notebook_in, notebook_of};
use crate::place::{Place, place_of};
use base64::DecodeAllocError;
use base64::engine::general_purpose::STANDARD;
use js_http::ErrorStatus;
use js_shelf::Bytes;
use js_tables::{ReadNotebook, Refusal, given_text_in, read_body, text_in};
use json_form::{Json, Text};
use nb_doc::taken_field;
use nb_read::{BookPut, Unread, read_book_put};
use std::alloc::{AllocError, Global};

/// What is put.
#[derive(Drop)]
pub enum Putting {
    Folder,
    File(Bytes),
    Notebook(ReadNotebook),
}

/// What the body of a PUT says: what is put, and perhaps when the file there was last put.
#[derive(Drop)]
pub struct PutBody {
    pub putting: Putting,
    pub last_modified: Option<Text>,
}

/// What is put, and where.
#[derive(Drop)]
pub struct Ready {
    pub place: Place,
    pub body: PutBody,
}

fn is_plain(byte: u8) -> bool
    ensures { result ≡ spec.is_plain byte }
{
    byte != b'\n' && byte != b'\r'
}

fn without_line_ends(alloc: Global, text: &[u8]) -> Result<Vec<u8>, AllocError>
    ensures { IfOk result (λ bytes. bytes.items ≡ filter spec.is_plain text.now) }
{
    text.iter()
        .copied()
        .filter(|byte| is_plain(*byte))
        .collect(alloc)
}

fn decoded(alloc: Global, text: &[u8]) -> Result<Putting, Refusal>
    ensures { Gives result (spec.decoded text.now) }
{
    let plain = without_line_ends(alloc, text)?;
    match STANDARD.decode(alloc, plain.as_slice()) {
        Ok(bytes) => Ok(Putting::File(Bytes::from(bytes))),
        Err(DecodeAllocError::OutOfMemory) => Err(Refusal::Failed),
        Err(_) => Err(Refusal::Status(ErrorStatus::BadRequest)),
    }
}

fn file_of(alloc: Global, format: &str, content: Text) -> Result<Putting, Refusal>
    ensures { Gives result (spec.file_of format.now content) }
{
    if format == "text" {
        return Ok(Putting::File(Bytes::from(content.into_string().into_bytes())));
    }
    if format == "base64" {
        return decoded(alloc, content.as_str().as_bytes());
    }
    Err(Refusal::Status(ErrorStatus::BadRequest))
}

fn file_in(alloc: Global, body: &Json) -> Result<Putting, Refusal>
    ensures { Gives result (spec.file_in body.now) }
{
    let format = text_in(alloc, body, "format")?;
    let content = text_in(alloc, body, "content")?;
    file_of(alloc, format.as_str(), content)
}

/// The content of a notebook, which has to be there. It is taken out of the body.
fn content_in(body: Json) -> Result<Json, Refusal>
    requires { depth body ≤ max_depth }
    ensures exact { Gives result (spec.content_in body) }
    ensures shallow { IfOk result (λ content. depth content ≤ max_depth) }
{
    match taken_field(body.into_value(), "content") {
        None => Err(Refusal::Status(ErrorStatus::BadRequest)),
        Some(content) => if content.is_null() {
            Err(Refusal::Status(ErrorStatus::BadRequest))
        } else {
            Ok(Json::of_whole(content))
        },
    }
}

fn notebook_putting(alloc: Global, body: Json) -> Result<Putting, Refusal>
    requires { depth body ≤ max_depth }
    ensures { Gives result (spec.notebook_putting body) }
{
    let notebook = notebook_of(alloc, content_in(body)?)?;
    Ok(Putting::Notebook(ReadNotebook::new(notebook)))
}

fn putting_in(alloc: Global, body: Json) -> Result<Putting, Refusal>
    requires { depth body ≤ max_depth }
    ensures { Gives result (spec.putting_in body) }
{
    let kind = text_in(alloc, &body, "type")?;
    if kind.as_str() == "directory" {
        return Ok(Putting::Folder);
    }
    if kind.as_str() == "file" {
        return file_in(alloc, &body);
    }
    if kind.as_str() == "notebook" {
        return notebook_putting(alloc, body);
    }
    Err(Refusal::Status(ErrorStatus::BadRequest))
}

fn put_body_in(alloc: Global, body: Json) -> Result<PutBody, Refusal>
    requires { depth body ≤ max_depth }
    ensures { Gives result (spec.put_body_in body) }
{
    let last_modified = given_text_in(alloc, &body, "last_modified")?;
    let putting = putting_in(alloc, body)?;
    Ok(PutBody {
        putting,
        last_modified,
    })
}

/// What a body says that puts a notebook.
fn book_body(put: BookPut) -> PutBody
    requires document { IsDocument put.notebook }
    requires shallow { depth (notebook_form put.notebook) ≤ max_depth }
    ensures putting { result.putting ≡ Book put.notebook }
    ensures last_modified { result.last_modified ≡ put.last_modified }
{
    let BookPut {
        notebook,
        last_modified,
    } = put;
    PutBody {
        putting: Putting::Notebook(ReadNotebook::new(notebook)),
        last_modified,
    }
}

/// What a body says. A notebook of 4.5 is made straight of the body's text, and any other body is read as a value first.
fn put_body(alloc: Global, content: &[u8]) -> Result<PutBody, Refusal>
    ensures { Gives result (spec.put_body content.now) }
{
    match read_book_put(alloc, content) {
        Ok(put) => Ok(book_body(put)),
        Err(Unread::Memory) => Err(Refusal::Failed),
        Err(Unread::Other) => put_body_in(alloc, read_body(alloc, content)?),
    }
}

/// What is put under that name: a file under a notebook's name is read as a notebook, and a notebook goes nowhere else.
pub fn fitted(alloc: Global, name: &str, putting: Putting) -> Result<Putting, Refusal>
    ensures { Gives result (spec.fitted name.now putting) }
{
    let is_notebook = is_notebook_name(name);
    match putting {
        Putting::Folder => Ok(Putting::Folder),
        Putting::File(bytes) => {
            if is_notebook {
                let notebook = notebook_in(alloc, bytes.as_slice())?;
                Ok(Putting::Notebook(ReadNotebook::new(notebook)))
            } else {
                Ok(Putting::File(bytes))
            }
        }
        Putting::Notebook(notebook) => {
            if is_notebook {
                Ok(Putting::Notebook(notebook))
            } else {
                Err(Refusal::Status(ErrorStatus::BadRequest))
            }
        }
    }
}

/// The same, and the text of a notebook has been written.
fn written(alloc: Global, putting: Putting) -> Result<Putting, AllocError>
    ensures { IfOk result (λ p. p ≡ putting) }
{
    match putting {
        Putting::Folder => Ok(Putting::Folder),
        Putting::File(bytes) => Ok(Putting::File(bytes)),
        Putting::Notebook(book) => Ok(Putting::Notebook(book.with_text(alloc)?)),
    }
}

/// What a PUT puts, and where: all of its plan that neither the tables nor the shelf say. The first three segments are those of
/// `/api/contents`. Nothing of a notebook's JSON is left to be done.
///
/// # Errors
/// 400 for the fields of the body, the path, and what may not be put there, in this order.
pub fn read_put(
    alloc: Global,
    content: &[u8],
    segments: &[js_http::Bytes],
) -> Result<Ready, Refusal>
    ensures { Gives result (spec.ready_put content.now segments.now) }
{
    let body = put_body(alloc, content)?;
    let place = place_of(alloc, segments)?;
    let fit = fitted(alloc, place.name.as_str(), body.putting)?;
    let putting = written(alloc, fit)?;
    Ok(Ready {
        place,
        body: PutBody {
            putting,
            last_modified: body.last_modified,
        },
    })
}
