//! Records as lists of bytes, by which two are compared at once down to the records in them.

ghost use Rattle.std.specs.Prelude.{◌≡◌, ◌≤◌, ◌++◌, [], length, IfOk, OnOk};
ghost use Rattle.ob_types.specs.Spelling as spec;

use crate::form::{Field, Form, ObType};
use crate::structure::{Basic, RecordName};
use ob_base::Text;
use std::alloc::{AllocError, Global};

fn put_letter(output: &mut Vec<u8>, c: u8) -> Result<(), AllocError>
    ensures { OnOk result (output.new.items ≡ output.old.items ++ spec.letter c) }
{
    if c < 16 {
        output.push(11)?;
    }
    output.push(c)?;
    Ok(())
}

fn put_letters(output: &mut Vec<u8>, name: &[u8]) -> Result<(), AllocError>
    ensures { OnOk result (output.new.items ≡ output.old.items ++ spec.letters name.now) }
{
    for &c in name {
        put_letter(output, c)?;
    }
    Ok(())
}

fn put_number(output: &mut Vec<u8>, number: u32) -> Result<(), AllocError>
    ensures { OnOk result (output.new.items ≡ output.old.items ++ spec.number_spelled number) }
{
    output.push((number % 256) as u8)?;
    output.push((number / 256 % 256) as u8)?;
    output.push((number / 256 / 256 % 256) as u8)?;
    output.push((number / 256 / 256 / 256) as u8)?;
    Ok(())
}

fn basic_number(of: Basic) -> u8
    ensures { result ≡ spec.basic_number of }
{
    match of {
        Basic::Integer => 0,
        Basic::Boolean => 1,
        Basic::Char => 2,
        Basic::Byte => 3,
    }
}

fn put_enclosing(output: &mut Vec<u8>, procedures: &[Text]) -> Result<(), AllocError>
    ensures { OnOk result (output.new.items ≡ output.old.items ++ spec.enclosing_spelled procedures.now) }
{
    for procedure in procedures {
        output.push(1)?;
        put_letters(output, procedure.as_slice())?;
        output.push(2)?;
    }
    output.push(0)?;
    Ok(())
}

fn put_name(output: &mut Vec<u8>, name: &RecordName) -> Result<(), AllocError>
    ensures { OnOk result (output.new.items ≡ output.old.items ++ spec.name_spelled name.now) }
{
    put_letters(output, name.module_name.as_slice())?;
    output.push(3)?;
    put_enclosing(output, name.enclosing.as_slice())?;
    put_letters(output, name.declared.as_slice())?;
    output.push(4)?;
    put_number(output, name.before)
}

fn mark(exported: bool) -> usize
    ensures { result ≡ spec.mark exported }
{
    if exported { 1 } else { 0 }
}

/// Appends a type, down to a basic type or a record.
#[tactic(auto, using(crate::proofs::Measures::array_size, crate::proofs::Measures::open_size, crate::proofs::SpellingForms::array_spelled, crate::proofs::SpellingForms::open_spelled))]
fn put_type(output: &mut Vec<u8>, of: &ObType) -> Result<(), AllocError>
    ensures { OnOk result (output.new.items ≡ output.old.items ++ spec.type_spelled of.now) }
{
    match of.form() {
        Form::Basic(basic) => {
            output.push(basic_number(*basic))?;
            Ok(())
        }
        Form::Array(length, element) => {
            output.push(4)?;
            put_number(output, *length)?;
            put_type(output, element.get())
        }
        Form::Open(element) => {
            output.push(5)?;
            put_type(output, element.get())
        }
        Form::Record(_) => {
            output.push(6)?;
            Ok(())
        }
    }
}

/// How many characters two names begin with in common, 100 at most.
fn shared(previous: &[u8], name: &[u8]) -> usize
    ensures shared { result ≡ spec.shared 100 previous.now name.now }
    ensures within { result ≤ length name.now }
    ensures few { result ≤ 100 }
{
    let most = previous.len().min(name.len()).min(100);
    for count in 0..most {
        if previous[count] != name[count] {
            return count;
        }
    }
    most
}

/// Appends a field that stands after one of this name.
fn put_field(output: &mut Vec<u8>, previous: &[u8], field: &Field) -> Result<(), AllocError>
    ensures { OnOk result (output.new.items ≡ output.old.items ++ spec.field_spelled previous.now field.now) }
{
    let name = field.name().as_slice();
    let common = shared(previous, name);
    output.push((16 + 2 * common + mark(field.exported())) as u8)?;
    put_letters(output, &name[common..])?;
    put_type(output, field.of())
}

fn put_fields(output: &mut Vec<u8>, fields: &[Field]) -> Result<(), AllocError>
    ensures { OnOk result (output.new.items ≡ output.old.items ++ spec.fields_spelled [] fields.now) }
{
    let mut previous: &[u8] = &[];
    for field in fields {
        put_field(output, previous, field)?;
        previous = field.name().as_slice();
    }
    output.push(10)?;
    Ok(())
}

/// How a record of this name with these fields is spelled. Or lack of memory.
pub(crate) fn spelling_of(
    alloc: Global,
    name: &RecordName,
    fields: &[Field],
) -> Result<Vec<u8>, AllocError>
    ensures { IfOk result (λ v. v.items ≡ spec.record_spelled name.now fields.now) }
{
    let mut spelling = Vec::new(alloc);
    put_name(&mut spelling, name)?;
    put_fields(&mut spelling, fields)?;
    Ok(spelling)
}
