//! Fields that end with one record, so that it is compared once.

ghost use Rattle.std.specs.Prelude.{◌≡◌, ◌-◌, ◌<◌, ◌⊎◌, length, option_map, None, IfOk, IsFalse, IsTrue};
ghost use Rattle.ob_types.specs.Spelling as spec;

use crate::compatible::same_record;
use crate::form::{Ends, Field, Form, ObType, RecordType};
use std::alloc::{AllocError, Global};

/// So many fields before a field are looked at.
const LOOKED: usize = 8;

/// The record that a type ends with, behind its arrays.
#[tactic(auto, using(crate::proofs::Measures::array_size, crate::proofs::Measures::open_size, crate::proofs::SpellingForms::array_end, crate::proofs::SpellingForms::open_end))]
fn end_of(of: &ObType) -> Option<&RecordType>
    ensures { option_map (λ r. r.now) result ≡ spec.end_in of.now }
{
    match of.form() {
        Form::Basic(_) => None,
        Form::Array(_, element) => end_of(element.get()),
        Form::Open(element) => end_of(element.get()),
        Form::Record(record) => Some(record.get()),
    }
}

/// Whether two types end with one record.
#[tactic(auto, using(crate::proofs::FieldEnds::records_same))]
fn same_end(one: &ObType, other: &ObType) -> bool
    ensures { IsTrue result → spec.end_in one.now ≡ spec.end_in other.now }
{
    match (end_of(one), end_of(other)) {
        (Some(record), Some(another)) => same_record(record, another),
        _ => false,
    }
}

/// The number of the field that stands for one: of a field before it that ends with the same record, or its own.
fn first_of(backs: &[u8], number: usize) -> usize
    ensures { result ≡ spec.first_at backs.now number }
{
    if number < backs.len() {
        number.saturating_sub(backs[number] as usize)
    } else {
        number
    }
}

/// How many fields before a field one stands that ends with the same record, if one is found, else 0.
fn back_for(fields: &[Field], number: usize) -> u8
    requires there { number < length fields.now }
    ensures { spec.end_at fields.now (number - result) ≡ spec.end_at fields.now number }
{
    for back in 1..=LOOKED.min(number) {
        if same_end(fields[number - back].of(), fields[number].of()) {
            return back as u8;
        }
    }
    0
}

/// Whether two of these fields or more end with records.
fn have_records(fields: &[Field]) -> bool {
    let mut found = false;
    for field in fields {
        if end_of(field.of()).is_some() {
            if found {
                return true;
            }
            found = true;
        }
    }
    false
}

/// For each field how many fields before it one stands that ends with the same record, where two may. Or lack of memory.
fn backs_of(alloc: Global, fields: &[Field]) -> Result<Vec<u8>, AllocError>
    ensures { IfOk result (λ v. spec.AreFirst v.items fields.now) }
{
    let mut backs = Vec::new(alloc);
    if !have_records(fields) {
        return Ok(backs);
    }
    for number in 0..fields.len() {
        let back = back_for(fields, number);
        backs.push(back)?;
    }
    Ok(backs)
}

/// Whether a field ends with a record for which no field before stands.
fn is_kept(fields: &[Field], backs: &[u8], number: usize) -> bool
    requires there { number < length fields.now }
    ensures { IsFalse result → (spec.end_at fields.now number ≡ None) ⊎ (spec.first_at backs.now number < number) }
{
    if first_of(backs, number) < number {
        return false;
    }
    end_of(fields[number].of()).is_some()
}

/// The numbers of these fields. Or lack of memory.
fn kept_of(alloc: Global, fields: &[Field], backs: &[u8]) -> Result<Vec<usize>, AllocError>
    ensures kept { IfOk result (λ v. spec.AreKept (length fields.now) v.items backs.now fields.now) }
    ensures within { IfOk result (λ v. spec.AreWithin v.items fields.now) }
{
    let mut kept = Vec::new(alloc);
    for number in 0..fields.len() {
        if is_kept(fields, backs, number) {
            kept.push(number)?;
        }
    }
    Ok(kept)
}

/// Which of these fields end with one record. Or lack of memory.
pub(crate) fn ends_of(alloc: Global, fields: &[Field]) -> Result<Ends, AllocError>
    ensures { IfOk result (λ ends. spec.AreEnds ends fields.now) }
{
    let backs = backs_of(alloc, fields)?;
    let kept = kept_of(alloc, fields, backs.as_slice())?;
    Ok(Ends { backs, kept })
}
