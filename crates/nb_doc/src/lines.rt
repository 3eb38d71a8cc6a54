//! Lists of texts, as they are written.

ghost use Rattle.std.specs.Prelude.{◌≡◌, false, IfOk};
ghost use Rattle.serde_json.specs.View.{view};
ghost use Rattle.serde_json.specs.Written.{has_float};
ghost use Rattle.nb_doc.specs.Writing.{texts_form, lines_form};

use crate::row::Row;
use json_form::Text;
use serde_json::Value;
use std::alloc::{AllocError, Global};

/// The lines of a text with their ends.
#[tactic(auto, unfolding(crate::specs::Writing::lines_form, crate::specs::Writing::texts_form))]
pub(crate) fn lines_value(alloc: Global, text: &str) -> Result<Value, AllocError>
    ensures form { IfOk result (λ v. view v ≡ lines_form text.now) }
    ensures whole { IfOk result (λ v. has_float (view v) ≡ false) }
{
    let mut row = Row::empty(alloc);
    for line in text.split_inclusive('\n') {
        row.push(Value::String(String::from_str(alloc, line)?))?;
    }
    Ok(row.into_value())
}

#[tactic(auto, unfolding(crate::specs::Writing::texts_form))]
pub(crate) fn texts_value(alloc: Global, texts: &[Text]) -> Result<Value, AllocError>
    ensures form { IfOk result (λ v. view v ≡ texts_form texts.now) }
    ensures whole { IfOk result (λ v. has_float (view v) ≡ false) }
{
    let mut row = Row::empty(alloc);
    for text in texts {
        row.push(Value::String(String::from_str(alloc, text.as_str())?))?;
    }
    Ok(row.into_value())
}
