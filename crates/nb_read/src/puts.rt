//! What the body of a request says that puts a notebook.

ghost use Rattle.std.specs.Prelude.{◌≡◌, ◌<◌, ◌≤◌, length, true, IfOk, codes};
ghost use Rattle.serde_json.specs.Data.{depth};
ghost use Rattle.serde_json.specs.Read.{max_depth};
ghost use Rattle.json_form.specs.Forms.{Has, given, present};
ghost use Rattle.serde_json.specs.Find.{get, as_str};
ghost use Rattle.nb_doc.specs.Documents.{IsDocument};
ghost use Rattle.nb_doc.specs.Writing.{notebook_form};
ghost use Rattle.nb_read.specs.Finds.{Finds, FindsBy};
ghost use Rattle.nb_read.specs.Lent.{data_view};
ghost use Rattle.nb_read.specs.Puts.{IsBookPut, IsBookValue, dated};

use crate::fields::{field, text_field, text_in};
use crate::reading::{notebook_of_lent, read_value};
use crate::unread::Unread;
use json::{Scratch, Value};
use json_form::Text;
use nb_doc::Notebook;
use std::alloc::Global;

/// A notebook that is put, and perhaps when its file was last put.
#[derive(Drop)]
pub struct BookPut {
    pub notebook: Notebook,
    pub last_modified: Option<Text>,
}

/// What a body says that puts a notebook of 4.5, which is made straight of the body's own JSON. Every other body is left to others.
///
/// # Errors
/// `Other` where the body says something else, or something is wrong with it; `Memory` where memory is refused.
pub fn read_book_put(alloc: Global, body: &[u8]) -> Result<BookPut, Unread>
    ensures put { IfOk result (λ p. IsBookPut body.now p.notebook p.last_modified) }
    // It is a document of 4.5.
    ensures document { IfOk result (λ p. IsDocument p.notebook) }
    // Once it is written it nests no deeper than JSON is read.
    ensures shallow { IfOk result (λ p. depth (notebook_form p.notebook) ≤ max_depth) }
{
    if body.is_empty() {
        return Err(Unread::Other);
    }
    match std::str::from_utf8(body) {
        Ok(text) => put_in(alloc, text),
        Err(_) => Err(Unread::Other),
    }
}

fn put_in(alloc: Global, text: &str) -> Result<BookPut, Unread>
    requires { 0 < length text.now }
    ensures put { IfOk result (λ p. IsBookPut text.now p.notebook p.last_modified) }
    ensures document { IfOk result (λ p. IsDocument p.notebook) }
    ensures shallow { IfOk result (λ p. depth (notebook_form p.notebook) ≤ max_depth) }
{
    let mut scratch = Scratch::new(alloc);
    let value = read_value(alloc, text, &mut scratch)?;
    put_of(alloc, &value)
}

fn put_of(alloc: Global, value: &Value<'_>) -> Result<BookPut, Unread>
    requires { depth (data_view value.now) ≤ max_depth }
    ensures put { IfOk result (λ p. IsBookValue (data_view value.now) p.notebook p.last_modified) }
    ensures document { IfOk result (λ p. IsDocument p.notebook) }
    ensures shallow { IfOk result (λ p. depth (notebook_form p.notebook) ≤ max_depth) }
{
    if is_book(value) {
        book_put(alloc, value)
    } else {
        Err(Unread::Other)
    }
}

/// Whether it says that it puts a notebook.
#[tactic(auto, using(crate::proofs::Named::has_named))]
fn is_book(value: &Value<'_>) -> bool
    ensures { result ≡ true → Has as_str (codes "type") (data_view value.now) (codes "notebook") }
{
    match text_field(value, "type") {
        Ok(kind) => kind == "notebook",
        Err(_) => false,
    }
}

fn book_put(alloc: Global, value: &Value<'_>) -> Result<BookPut, Unread>
    requires low { depth (data_view value.now) ≤ max_depth }
    requires kind { Has as_str (codes "type") (data_view value.now) (codes "notebook") }
    ensures put { IfOk result (λ p. IsBookValue (data_view value.now) p.notebook p.last_modified) }
    ensures document { IfOk result (λ p. IsDocument p.notebook) }
    ensures shallow { IfOk result (λ p. depth (notebook_form p.notebook) ≤ max_depth) }
{
    let last_modified = date_of(alloc, value)?;
    let content = content_of(value)?;
    let notebook = notebook_of_lent(alloc, content)?;
    Ok(BookPut {
        notebook,
        last_modified,
    })
}

fn content_of<'v, 't>(value: &'v Value<'t>) -> Result<&'v Value<'t>, Unread>
    ensures { FindsBy (λ v. data_view v.now) result (get (codes "content") (data_view value.now)) }
{
    match field(value, "content") {
        Some(found) => Ok(found),
        None => Err(Unread::Other),
    }
}

/// When the file was last put, where that is said.
#[tactic(auto, unfolding(json_form::specs::Forms::given))]
fn date_of(alloc: Global, value: &Value<'_>) -> Result<Option<Text>, Unread>
    ensures { Finds result (dated (given (codes "last_modified") (data_view value.now))) }
{
    match field(value, "last_modified") {
        None => Ok(None),
        Some(found) => date_in(alloc, found),
    }
}

/// A text, or nothing where it is `null`.
fn date_in(alloc: Global, value: &Value<'_>) -> Result<Option<Text>, Unread>
    ensures { Finds result (dated (present (data_view value.now))) }
{
    match value {
        Value::Null => Ok(None),
        _ => Ok(Some(Text::from_str(alloc, text_in(value)?)?)),
    }
}
