//! Interfaces as text: a line for the module, and one for each name that it exports.

ghost use Rattle.std.specs.Prelude.{◌≡◌, ◌++◌, ◌<◌, [], ◌∷◌, string_bytes, OnOk};
ghost use Rattle.std.specs.Fmt.{signed_decimal};
ghost use Rattle.ob_types.specs.InterfaceText as spec;

use crate::exports::{Constant, Exported, Formal, FormalKind, Object, Signature};
use crate::type_writing::{put_basic, put_name, put_number, put_type};
use itoa::Buffer;
use ob_base::Text;
use std::alloc::AllocError;

fn hex_digit(digit: u8) -> u8
    requires { digit < 16 }
    ensures value { result ≡ spec.hex_digit digit }
    ensures ascii { result < 128 }
{
    if digit < 10 {
        digit + b'0'
    } else {
        digit - 10 + b'a'
    }
}

fn put_hex(output: &mut String, characters: &Text) -> Result<(), AllocError>
    ensures { OnOk result (string_bytes output.new ≡ string_bytes output.old ++ spec.hex_text characters.now) }
{
    for &c in characters.as_slice() {
        output.push(char::from(hex_digit(c / 16)))?;
        output.push(char::from(hex_digit(c % 16)))?;
    }
    Ok(())
}

fn put_integer(output: &mut String, number: i32) -> Result<(), AllocError>
    ensures { OnOk result (string_bytes output.new ≡ string_bytes output.old ++ signed_decimal number) }
{
    let mut digits = Buffer::new();
    output.push_str(digits.format(number))
}

fn put_constant(output: &mut String, value: &Constant) -> Result<(), AllocError>
    ensures { OnOk result (string_bytes output.new ≡ string_bytes output.old ++ spec.constant_text value.now) }
{
    match value {
        Constant::Integer(number) => {
            output.push_str("I ")?;
            put_integer(output, *number)
        }
        Constant::Boolean(truth) => output.push_str(if *truth { "B 1" } else { "B 0" }),
        Constant::Char(character) => {
            output.push_str("C ")?;
            put_number(output, *character as u32)
        }
        Constant::Text(characters) => {
            output.push_str("S ")?;
            put_hex(output, characters)
        }
    }
}

fn kind_letter(kind: FormalKind) -> char
    ensures { result ∷ [] ≡ spec.kind_text kind }
{
    match kind {
        FormalKind::Value => 'p',
        FormalKind::Variable => 'v',
    }
}

fn put_formals(output: &mut String, formals: &[Formal]) -> Result<(), AllocError>
    ensures { OnOk result (string_bytes output.new ≡ string_bytes output.old ++ spec.formals_text formals.now) }
{
    for formal in formals {
        output.push(kind_letter(formal.kind))?;
        put_type(output, &formal.of)?;
        output.push(';')?;
    }
    Ok(())
}

fn put_signature(output: &mut String, signature: &Signature) -> Result<(), AllocError>
    ensures { OnOk result (string_bytes output.new ≡ string_bytes output.old ++ spec.signature_text signature.now) }
{
    output.push('(')?;
    put_formals(output, signature.formals.as_slice())?;
    output.push(')')?;
    if let Some(basic) = signature.result {
        output.push(':')?;
        put_basic(output, basic)?;
    }
    Ok(())
}

/// What stands before the value of an exported name: its word and the name.
fn put_head(output: &mut String, word: &str, name: &Text) -> Result<(), AllocError>
    ensures { OnOk result (string_bytes output.new ≡ string_bytes output.old ++ word.now ++ spec.name_text name.now) }
{
    output.push_str(word)?;
    put_name(output, name)
}

fn put_object(output: &mut String, name: &Text, object: &Object) -> Result<(), AllocError>
    ensures { OnOk result (string_bytes output.new ≡ string_bytes output.old ++ spec.object_text name.now object.now) }
{
    match object {
        Object::Constant(value) => {
            put_head(output, "const ", name)?;
            output.push(' ')?;
            put_constant(output, value)
        }
        Object::TypeName(of) => {
            put_head(output, "type ", name)?;
            output.push(' ')?;
            put_type(output, of)
        }
        Object::Variable(of) => {
            put_head(output, "var ", name)?;
            output.push(' ')?;
            put_type(output, of)
        }
        Object::Procedure(signature) => {
            put_head(output, "proc ", name)?;
            put_signature(output, signature)
        }
    }
}

/// Appends the lines of these.
pub fn put_exports(output: &mut String, exports: &[Exported]) -> Result<(), AllocError>
    ensures { OnOk result (string_bytes output.new ≡ string_bytes output.old ++ spec.exports_text exports.now) }
{
    for exported in exports {
        put_object(output, &exported.name, &exported.object)?;
        output.push('\n')?;
    }
    Ok(())
}

/// Appends the text of the interface of these parts.
#[tactic(auto, unfolding(crate::specs::InterfaceText::interface_text))]
pub fn put_interface(
    output: &mut String,
    name: &Text,
    exports: &[Exported],
) -> Result<(), AllocError>
    ensures { OnOk result (string_bytes output.new ≡ string_bytes output.old ++ spec.interface_text (record { name = name.now; exports = exports.now })) }
{
    put_head(output, "module ", name)?;
    output.push('\n')?;
    put_exports(output, exports)
}
