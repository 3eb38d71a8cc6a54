//! Types that a declaration can make.

ghost use Rattle.std.specs.Prelude.{◌≡◌, ◌&&◌, nat_le};
ghost use Rattle.std.specs.List.{list_all};
ghost use Rattle.ob_types.specs.Types.{max_cells};
ghost use Rattle.ob_types.specs.Declarable as spec;

use crate::form::{Field, Form, ObType};
use crate::size::{MAX_CELLS, is_admitted};
use crate::structure::RecordName;
use ob_base::Text;

fn is_word(name: &Text) -> bool
    ensures { result ≡ spec.is_word name.now }
{
    for c in name.as_slice() {
        if !c.is_ascii_alphanumeric() {
            return false;
        }
    }
    true
}

fn all_words(names: &[Text]) -> bool
    ensures { result ≡ list_all spec.is_word names.now }
{
    for name in names {
        if !is_word(name) {
            return false;
        }
    }
    true
}

pub(crate) fn are_words(name: &RecordName) -> bool
    ensures { result ≡ spec.are_words name.now }
{
    is_word(&name.module_name) && all_words(name.enclosing.as_slice()) && is_word(&name.declared)
}

fn is_record(of: &ObType) -> bool
    ensures { result ≡ spec.is_record of.now }
{
    match of.form() {
        Form::Record(_) => true,
        Form::Basic(_) | Form::Array(_, _) | Form::Open(_) => false,
    }
}

/// Whether a field has a word as its name, or is a base, which is a record.
fn is_labelled(name: &Text, of: &ObType) -> bool
    ensures { result ≡ spec.is_labelled name.now of.now }
{
    if name.as_slice().is_empty() {
        return is_record(of);
    }
    is_word(name)
}

fn has_length(length: u32) -> bool
    ensures { result ≡ (nat_le 1 length && nat_le length max_cells) }
{
    1 <= length && length <= MAX_CELLS
}

/// Whether the names in a type are words and its arrays have elements.
#[tactic(auto, using(crate::proofs::Measures::array_size, crate::proofs::Measures::open_size, crate::proofs::DeclarableForms::plain_array, crate::proofs::DeclarableForms::plain_open))]
fn is_plain(of: &ObType) -> bool
    ensures { result ≡ spec.is_plain of.now }
{
    match of.form() {
        Form::Basic(_) => true,
        Form::Array(length, element) => has_length(*length) && is_plain(element.get()),
        Form::Open(element) => is_plain(element.get()),
        Form::Record(record) => record.get().is_plain(),
    }
}

fn is_plain_field(field: &Field) -> bool
    ensures { result ≡ (spec.is_labelled field.now.name field.now.of && spec.is_plain field.now.of) }
{
    is_labelled(field.name(), field.of()) && is_plain(field.of())
}

/// Whether the names in fields are words and their arrays have elements.
pub(crate) fn are_plain(fields: &[Field]) -> bool
    ensures { result ≡ spec.plain_fields fields.now }
{
    for field in fields {
        if !is_plain_field(field) {
            return false;
        }
    }
    true
}

/// Whether a declaration can make a type.
pub fn is_declarable(of: &ObType) -> bool
    ensures { result ≡ spec.is_declarable of.now }
{
    is_admitted(of) && is_plain(of)
}
