//! The outputs of a cell.

ghost use Rattle.std.specs.Prelude.{◌≡◌, ◌++◌, OnOk};
ghost use Rattle.nb_doc.specs.Writing.{joined, stream_form, error_form, output_form, outputs_form};
ghost use Rattle.nb_text.specs.Tokens.{data_tokens, member_tokens};

use crate::members::{write_lines, write_text, write_texts};
use crate::sink::Tokens;
use crate::values::write_value;
use json::Token;
use json_form::Text;
use nb_doc::Output;
use std::alloc::AllocError;

/// The outputs of a cell, among which no neighbouring streams have one name.
#[tactic(auto, unfolding(nb_doc::specs::Writing::outputs_form))]
pub(crate) fn write_outputs<W: Tokens>(
    out: &mut W,
    key: &str,
    outputs: &[Output],
) -> Result<(), AllocError>
    requires { joined outputs.now ≡ outputs.now }
    ensures { OnOk result (W.Tokens.written out.new ≡ W.Tokens.written out.old ++ member_tokens key.now (outputs_form outputs.now)) }
{
    out.token(Token::Key(key))?;
    out.token(Token::BeginArray)?;
    for output in outputs {
        write_output(out, output)?;
    }
    out.token(Token::EndArray)
}

#[tactic(auto, unfolding(nb_doc::specs::Writing::output_form))]
fn write_output<W: Tokens>(out: &mut W, output: &Output) -> Result<(), AllocError>
    ensures { OnOk result (W.Tokens.written out.new ≡ W.Tokens.written out.old ++ data_tokens (output_form output.now)) }
{
    match output {
        Output::Stream { name, text } => write_stream(out, name, text),
        Output::Error {
            ename,
            evalue,
            traceback,
        } => write_error(out, ename, evalue, traceback.as_slice()),
        Output::Kept(json) => write_value(json.value(), out),
    }
}

#[tactic(auto, unfolding(nb_doc::specs::Writing::stream_form))]
fn write_stream<W: Tokens>(out: &mut W, name: &Text, text: &Text) -> Result<(), AllocError>
    ensures { OnOk result (W.Tokens.written out.new ≡ W.Tokens.written out.old ++ data_tokens (stream_form name.now text.now)) }
{
    out.token(Token::BeginObject)?;
    write_text(out, "name", name.as_str())?;
    write_text(out, "output_type", "stream")?;
    write_lines(out, "text", text.as_str())?;
    out.token(Token::EndObject)
}

#[tactic(auto, unfolding(nb_doc::specs::Writing::error_form))]
fn write_error<W: Tokens>(
    out: &mut W,
    ename: &Text,
    evalue: &Text,
    traceback: &[Text],
) -> Result<(), AllocError>
    ensures { OnOk result
        (W.Tokens.written out.new ≡ W.Tokens.written out.old ++ data_tokens (error_form ename.now evalue.now traceback.now)) }
{
    out.token(Token::BeginObject)?;
    write_text(out, "ename", ename.as_str())?;
    write_text(out, "evalue", evalue.as_str())?;
    write_text(out, "output_type", "error")?;
    write_texts(out, "traceback", traceback)?;
    out.token(Token::EndObject)
}
