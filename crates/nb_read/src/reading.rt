//! Reading notebooks.

ghost use Rattle.std.specs.Prelude.{◌≡◌, ◌<◌, ◌≤◌, ◌^◌, [], length, true, false, pos, codes, Some, Ok, IfOk};
ghost use Rattle.serde_json.specs.Data.{depth};
ghost use Rattle.serde_json.specs.Read.{max_depth, read};
ghost use Rattle.json_form.specs.Forms.{Has, whole_of, text_has_float};
ghost use Rattle.nb_doc.specs.Steps.{Answers};
ghost use Rattle.nb_doc.specs.declared.notebook.Notebook.{Notebook};
ghost use Rattle.nb_doc.specs.Documents.{ids, IsDocument};
ghost use Rattle.nb_doc.specs.TextForms.{IsNotebook, IsNotebookText};
ghost use Rattle.nb_doc.specs.Reading.{notebook_at};
ghost use Rattle.nb_doc.specs.Writing.{notebook_form};
ghost use Rattle.std.specs.List.{list_all};
ghost use Rattle.nb_doc.specs.Ids.{is_allowed, are_distinct};
ghost use Rattle.json.specs.Json as grammar;
ghost use Rattle.json.specs.Lex.{tokens};
ghost use Rattle.json.specs.Value.{value_view};
ghost use Rattle.nb_read.specs.Lent.{data_view};
ghost use Rattle.nb_read.specs.Own.{HasCells};

use crate::cells::read_cells;
use crate::fields::object_field;
use crate::ids::{are_allowed, are_distinct_ids};
use crate::unread::Unread;
use crate::version::is_current;
use crate::whole::is_whole;
use json::{Error, Reader, Scratch, Value};
use nb_doc::{Cell, Listed, NbBad, Notebook};
use std::alloc::Global;

/// How deep JSON is read.
const MAX_DEPTH: usize = 127;

/// The notebook that a text is, or its first fault: what `nb_doc::read_notebook` gives. A notebook of 4.5 is made straight of the
/// text's own JSON; every other text is left to that reader.
///
/// # Errors
/// `Fault` with the text's first fault where it is no notebook of 4.0 to 4.5, `Memory` where memory is refused.
pub fn read_notebook(alloc: Global, text: &[u8]) -> Result<Notebook, NbBad>
    // What is read is the text's notebook.
    ensures found { IfOk result (IsNotebookText text.now) }
    // A text that is a notebook is read, unless memory runs out.
    ensures only { (n : Notebook) → IsNotebookText text.now n → Answers result (Ok n) }
    // Which fault it is.
    ensures exact { Answers result (notebook_at text.now) }
    // It is a document of 4.5: all ids are allowed and distinct.
    ensures document { IfOk result IsDocument }
    // Once it is written it nests no deeper than JSON is read.
    ensures shallow { IfOk result (λ n. depth (notebook_form n) ≤ max_depth) }
{
    match read_quickly(alloc, text) {
        Ok(notebook) => Ok(notebook),
        Err(Unread::Memory) => Err(NbBad::Memory),
        Err(Unread::Other) => nb_doc::read_notebook(alloc, text),
    }
}

fn read_quickly(alloc: Global, bytes: &[u8]) -> Result<Notebook, Unread>
    ensures found { IfOk result (IsNotebookText bytes.now) }
    ensures few { IfOk result (λ n. length n.cells < 2 ^ 64) }
{
    match std::str::from_utf8(bytes) {
        Ok(text) => notebook_in(alloc, text),
        Err(_) => Err(Unread::Other),
    }
}

fn notebook_in(alloc: Global, text: &str) -> Result<Notebook, Unread>
    ensures found { IfOk result (IsNotebookText text.now) }
    ensures few { IfOk result (λ n. length n.cells < 2 ^ 64) }
{
    let mut scratch = Scratch::new(alloc);
    let value = read_value(alloc, text, &mut scratch)?;
    notebook_of_lent(alloc, &value)
}

/// The value of a text whose numbers are whole.
pub(crate) fn read_value<'t>(
    alloc: Global,
    text: &'t str,
    scratch: &'t mut Scratch,
) -> Result<Value<'t>, Unread>
    ensures reads { IfOk result (λ v. read text.now ≡ Some (data_view v)) }
    ensures whole { IfOk result (λ v. text_has_float text.now ≡ false) }
    ensures shallow { IfOk result (λ v. depth (data_view v) ≤ max_depth) }
{
    let value = read_one(alloc, text, scratch)?;
    if is_whole(&value) {
        Ok(value)
    } else {
        Err(Unread::Other)
    }
}

/// The value of a text, with nothing after it.
fn read_one<'t>(alloc: Global, text: &'t str, scratch: &'t mut Scratch) -> Result<Value<'t>, Unread>
    ensures { IfOk result (λ v. grammar.value max_depth (tokens text.now) ≡ Some (value_view v, [])) }
{
    let mut reader = Reader::new(text, scratch)?;
    match Value::read(alloc, &mut reader, MAX_DEPTH) {
        Ok(value) => if reader.next().is_none() {
            Ok(value)
        } else {
            Err(Unread::Other)
        },
        Err(Error::OutOfMemory) => Err(Unread::Memory),
        Err(_) => Err(Unread::Other),
    }
}

/// The notebook of 4.5 that a value is.
pub(crate) fn notebook_of_lent(alloc: Global, value: &Value<'_>) -> Result<Notebook, Unread>
    ensures found { IfOk result (IsNotebook (data_view value.now)) }
    ensures few { IfOk result (λ n. length n.cells < 2 ^ 64) }
    ensures document { IfOk result IsDocument }
    ensures shallow { depth (data_view value.now) ≤ max_depth → IfOk result (λ n. depth (notebook_form n) ≤ max_depth) }
{
    if is_current(value) {
        current_notebook(alloc, value)
    } else {
        Err(Unread::Other)
    }
}

fn current_notebook(alloc: Global, value: &Value<'_>) -> Result<Notebook, Unread>
    requires major { Has whole_of (codes "nbformat") (data_view value.now) (pos 4) }
    requires minor { Has whole_of (codes "nbformat_minor") (data_view value.now) (pos 5) }
    ensures found { IfOk result (IsNotebook (data_view value.now)) }
    ensures few { IfOk result (λ n. length n.cells < 2 ^ 64) }
{
    let cells = good_cells(alloc, value)?;
    let metadata = object_field(alloc, value, "metadata")?;
    Ok(Notebook { cells, metadata })
}

/// The cells of a notebook of 4.5, whose ids are allowed and distinct.
fn good_cells(alloc: Global, value: &Value<'_>) -> Result<Listed<Cell>, Unread>
    ensures cells { IfOk result (λ cs. HasCells (data_view value.now) cs) }
    ensures allowed { IfOk result (λ cs. list_all is_allowed (ids cs) ≡ true) }
    ensures distinct { IfOk result (λ cs. are_distinct (ids cs) ≡ true) }
    ensures few { IfOk result (λ cs. length cs < 2 ^ 64) }
{
    let cells = read_cells(alloc, value)?;
    if are_allowed(cells.as_slice()) && are_distinct_ids(alloc, cells.as_slice())? {
        // So that clauses know that there are fewer than 2^64.
        let _count = cells.len();
        Ok(Listed::new(cells))
    } else {
        Err(Unread::Other)
    }
}
