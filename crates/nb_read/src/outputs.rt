//! Reading the outputs of a cell.

ghost use Rattle.std.specs.Prelude.{◌≡◌, IfOk, codes};
ghost use Rattle.serde_json.specs.Find.{as_str};
ghost use Rattle.json_form.specs.Forms.{Has};
ghost use Rattle.nb_doc.specs.Documents.{IsKept};
ghost use Rattle.nb_doc.specs.Fields.{is_kept};
ghost use Rattle.nb_doc.specs.TextForms.{IsOutputOf, IsText, HasList, Members};
ghost use Rattle.nb_read.specs.Lent.{data_view, items_data};

use crate::fields::{joined_field, list_field, text_field, text_in};
use crate::kept::keep;
use crate::unread::Unread;
use json::Value;
use json_form::Text;
use nb_doc::{Listed, Output};
use std::alloc::Global;

/// The outputs of a cell.
pub(crate) fn read_outputs(alloc: Global, value: &Value<'_>) -> Result<Listed<Output>, Unread>
    ensures { IfOk result (λ os. HasList IsOutputOf (codes "outputs") (data_view value.now) os) }
{
    let items = list_field(value, "outputs")?;
    let found = outputs(alloc, items)?;
    Ok(Listed::new(found))
}

fn outputs(alloc: Global, items: &Vec<Value<'_>>) -> Result<Vec<Output>, Unread>
    ensures { IfOk result (λ os. Members IsOutputOf (items_data items.now.items) os.items) }
{
    let mut found = Vec::with_capacity(alloc, items.len())?;
    for item in items {
        let output = output(alloc, item)?;
        found.push(output)?;
    }
    Ok(found)
}

#[tactic(auto, using(crate::proofs::Named::has_named, crate::proofs::Named::kept_is))]
fn output(alloc: Global, value: &Value<'_>) -> Result<Output, Unread>
    ensures { IfOk result (λ o. IsOutputOf (data_view value.now) o) }
{
    let kind = text_field(value, "output_type")?;
    if kind == "stream" {
        stream(alloc, value)
    } else if kind == "error" {
        error(alloc, value)
    } else if is_kept_kind(kind) {
        kept_output(alloc, value)
    } else {
        Err(Unread::Other)
    }
}

fn is_kept_kind(kind: &str) -> bool
    ensures { result ≡ is_kept kind.now }
{
    kind == "display_data" || kind == "execute_result"
}

/// Data that is shown or is a result.
fn kept_output(alloc: Global, value: &Value<'_>) -> Result<Output, Unread>
    requires { IsKept (data_view value.now) }
    ensures { IfOk result (λ o. IsOutputOf (data_view value.now) o) }
{
    let json = keep(alloc, value)?;
    Ok(Output::Kept(json))
}

fn stream(alloc: Global, value: &Value<'_>) -> Result<Output, Unread>
    requires { Has as_str (codes "output_type") (data_view value.now) (codes "stream") }
    ensures { IfOk result (λ o. IsOutputOf (data_view value.now) o) }
{
    let given = text_field(value, "name")?;
    let text = joined_field(alloc, value, "text")?;
    let name = Text::from_str(alloc, given)?;
    Ok(Output::Stream { name, text })
}

fn error(alloc: Global, value: &Value<'_>) -> Result<Output, Unread>
    requires { Has as_str (codes "output_type") (data_view value.now) (codes "error") }
    ensures { IfOk result (λ o. IsOutputOf (data_view value.now) o) }
{
    let named = text_field(value, "ename")?;
    let valued = text_field(value, "evalue")?;
    let traceback = texts_field(alloc, value, "traceback")?;
    let ename = Text::from_str(alloc, named)?;
    let evalue = Text::from_str(alloc, valued)?;
    Ok(Output::Error {
        ename,
        evalue,
        traceback,
    })
}

/// A list of texts.
fn texts_field(alloc: Global, value: &Value<'_>, key: &str) -> Result<Listed<Text>, Unread>
    ensures { IfOk result (λ ts. HasList IsText key.now (data_view value.now) ts) }
{
    let items = list_field(value, key)?;
    let found = texts(alloc, items)?;
    Ok(Listed::new(found))
}

fn texts(alloc: Global, items: &Vec<Value<'_>>) -> Result<Vec<Text>, Unread>
    ensures { IfOk result (λ ts. Members IsText (items_data items.now.items) ts.items) }
{
    let mut found = Vec::with_capacity(alloc, items.len())?;
    for item in items {
        let text = text_of(alloc, item)?;
        found.push(text)?;
    }
    Ok(found)
}

fn text_of(alloc: Global, value: &Value<'_>) -> Result<Text, Unread>
    ensures { IfOk result (λ t. IsText (data_view value.now) t) }
{
    let given = text_in(value)?;
    let text = Text::from_str(alloc, given)?;
    Ok(text)
}
