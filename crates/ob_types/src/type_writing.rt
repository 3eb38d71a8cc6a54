//! Types as text.

ghost use Rattle.std.specs.Prelude.{◌≡◌, ◌++◌, string_bytes, OnOk};
ghost use Rattle.std.specs.Fmt.{decimal};
ghost use Rattle.ob_types.specs.InterfaceText as spec;

use crate::form::{Field, Form, ObType, RecordType};
use crate::structure::{Basic, RecordName};
use itoa::Buffer;
use ob_base::Text;
use std::alloc::AllocError;

/// Appends the characters of a name.
pub fn put_name(output: &mut String, name: &Text) -> Result<(), AllocError>
    ensures { OnOk result (string_bytes output.new ≡ string_bytes output.old ++ spec.name_text name.now) }
{
    for &c in name.as_slice() {
        output.push(char::from(c))?;
    }
    Ok(())
}

fn basic_letter(of: Basic) -> &'static str
    ensures { result.now ≡ spec.basic_text of }
{
    match of {
        Basic::Integer => "I",
        Basic::Boolean => "B",
        Basic::Char => "C",
        Basic::Byte => "Y",
    }
}

/// Appends a number.
pub fn put_number(output: &mut String, number: u32) -> Result<(), AllocError>
    ensures { OnOk result (string_bytes output.new ≡ string_bytes output.old ++ decimal number) }
{
    let mut digits = Buffer::new();
    output.push_str(digits.format(number))
}

/// Appends the letter of a basic type.
pub fn put_basic(output: &mut String, of: Basic) -> Result<(), AllocError>
    ensures { OnOk result (string_bytes output.new ≡ string_bytes output.old ++ spec.basic_text of) }
{
    output.push_str(basic_letter(of))
}

fn put_enclosing(output: &mut String, procedures: &[Text]) -> Result<(), AllocError>
    ensures { OnOk result (string_bytes output.new ≡ string_bytes output.old ++ spec.enclosing_text procedures.now) }
{
    for procedure in procedures {
        put_name(output, procedure)?;
        output.push('.')?;
    }
    Ok(())
}

#[tactic(auto, unfolding(crate::specs::InterfaceText::record_name_text))]
fn put_record_name(output: &mut String, name: &RecordName) -> Result<(), AllocError>
    ensures { OnOk result (string_bytes output.new ≡ string_bytes output.old ++ spec.record_name_text name.now) }
{
    put_name(output, &name.module_name)?;
    output.push('.')?;
    put_enclosing(output, name.enclosing.as_slice())?;
    put_name(output, &name.declared)?;
    output.push('.')?;
    put_number(output, name.before)
}

/// Appends what stands before a field's type: its name and mark, or the sign of a base.
fn put_label(output: &mut String, name: &Text, exported: bool) -> Result<(), AllocError>
    ensures { OnOk result (string_bytes output.new ≡ string_bytes output.old ++ spec.label_text name.now exported) }
{
    if name.as_slice().is_empty() {
        return output.push('^');
    }
    put_name(output, name)?;
    if exported {
        output.push('*')?;
    }
    output.push(':')
}

/// Appends a type.
#[cycle(type_writing)]
#[tactic(auto, using(crate::proofs::Measures::array_size, crate::proofs::Measures::open_size))]
pub fn put_type(output: &mut String, of: &ObType) -> Result<(), AllocError>
    ensures { OnOk result (string_bytes output.new ≡ string_bytes output.old ++ spec.type_text of.now) }
{
    match of.form() {
        Form::Basic(basic) => put_basic(output, *basic),
        Form::Array(length, element) => {
            output.push('A')?;
            put_number(output, *length)?;
            output.push(' ')?;
            put_type(output, element.get())
        }
        Form::Open(element) => {
            output.push('O')?;
            put_type(output, element.get())
        }
        Form::Record(record) => put_record(output, record.get()),
    }
}

#[cycle(type_writing)]
#[tactic(auto, using(crate::proofs::Measures::fields_size))]
fn put_record(output: &mut String, of: &RecordType) -> Result<(), AllocError>
    ensures { OnOk result (string_bytes output.new ≡ string_bytes output.old ++ spec.record_text of.now) }
{
    output.push('R')?;
    put_record_name(output, of.name())?;
    output.push('(')?;
    put_fields(output, of.fields())?;
    output.push(')')
}

#[cycle(type_writing)]
fn put_fields(output: &mut String, fields: &[Field]) -> Result<(), AllocError>
    ensures { OnOk result (string_bytes output.new ≡ string_bytes output.old ++ spec.all_fields_text fields.now) }
{
    for field in fields {
        put_field(output, field)?;
    }
    Ok(())
}

#[cycle(type_writing)]
fn put_field(output: &mut String, field: &Field) -> Result<(), AllocError>
    ensures { OnOk result (string_bytes output.new ≡ string_bytes output.old ++ spec.field_text field.now) }
{
    put_label(output, field.name(), field.exported())?;
    put_type(output, field.of())?;
    output.push(';')
}
