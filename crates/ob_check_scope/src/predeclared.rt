//! The names that are declared before any module, and those in In and Out.

ghost use Rattle.std.specs.Prelude.{◌≡◌};
ghost use Rattle.ob_check_scope.specs.Predeclared as spec;

use crate::rule::RuleCode;
use ob_base::Text;
use ob_types::Basic;

/// A function that is declared before any module.
#[derive(Clone, Copy, Debug, PartialEq, Eq)]
pub enum Function {
    Abs,
    Odd,
    Lsl,
    Asr,
    Ror,
    Ord,
    Chr,
    Len,
}

/// A proper procedure that is declared before any module.
#[derive(Clone, Copy, Debug, PartialEq, Eq)]
pub enum ProperProcedure {
    Inc,
    Dec,
    Assert,
}

/// What a name is before any module.
#[derive(Clone, Copy, Debug, PartialEq, Eq)]
pub enum Predeclared {
    Basic(Basic),
    Function(Function),
    Procedure(ProperProcedure),
    /// A name of Oberon-07 that this language leaves out.
    LeftOut,
    Unknown,
}

/// What In exports under a name.
#[derive(Clone, Copy, Debug, PartialEq, Eq)]
pub enum InputName {
    Open,
    Char,
    Int,
    String,
    Name,
    /// The variable.
    Done,
    Unknown,
}

/// What Out exports under a name.
#[derive(Clone, Copy, Debug, PartialEq, Eq)]
pub enum OutputName {
    Open,
    Char,
    String,
    Int,
    Ln,
    Unknown,
}

fn basic_named(name: &Text) -> Option<Basic>
    ensures { result ≡ spec.basic_named name.now }
{
    let name = name.as_slice();
    if name == b"INTEGER".as_slice() {
        Some(Basic::Integer)
    } else if name == b"BOOLEAN".as_slice() {
        Some(Basic::Boolean)
    } else if name == b"CHAR".as_slice() {
        Some(Basic::Char)
    } else if name == b"BYTE".as_slice() {
        Some(Basic::Byte)
    } else {
        None
    }
}

fn shift_named(name: &Text) -> Option<Function>
    ensures { result ≡ spec.shift_named name.now }
{
    let name = name.as_slice();
    if name == b"LSL".as_slice() {
        Some(Function::Lsl)
    } else if name == b"ASR".as_slice() {
        Some(Function::Asr)
    } else if name == b"ROR".as_slice() {
        Some(Function::Ror)
    } else {
        None
    }
}

fn function_named(name: &Text) -> Option<Function>
    ensures { result ≡ spec.function_named name.now }
{
    let chars = name.as_slice();
    if chars == b"ABS".as_slice() {
        Some(Function::Abs)
    } else if chars == b"ODD".as_slice() {
        Some(Function::Odd)
    } else if chars == b"ORD".as_slice() {
        Some(Function::Ord)
    } else if chars == b"CHR".as_slice() {
        Some(Function::Chr)
    } else if chars == b"LEN".as_slice() {
        Some(Function::Len)
    } else {
        shift_named(name)
    }
}

fn procedure_named(name: &Text) -> Option<ProperProcedure>
    ensures { result ≡ spec.procedure_named name.now }
{
    let name = name.as_slice();
    if name == b"INC".as_slice() {
        Some(ProperProcedure::Inc)
    } else if name == b"DEC".as_slice() {
        Some(ProperProcedure::Dec)
    } else if name == b"ASSERT".as_slice() {
        Some(ProperProcedure::Assert)
    } else {
        None
    }
}

fn is_left_out_type(name: &Text) -> bool
    ensures { result ≡ spec.is_left_out_type name.now }
{
    let name = name.as_slice();
    name == b"REAL".as_slice() || name == b"SET".as_slice()
}

fn is_left_out_function(name: &Text) -> bool
    ensures { result ≡ spec.is_left_out_function name.now }
{
    let name = name.as_slice();
    name == b"FLOOR".as_slice() || name == b"FLT".as_slice() || name == b"NEW".as_slice()
}

fn is_left_out_procedure(name: &Text) -> bool
    ensures { result ≡ spec.is_left_out_procedure name.now }
{
    let name = name.as_slice();
    name == b"INCL".as_slice()
        || name == b"EXCL".as_slice()
        || name == b"PACK".as_slice()
        || name == b"UNPK".as_slice()
}

fn is_left_out(name: &Text) -> bool
    ensures { result ≡ spec.is_left_out name.now }
{
    is_left_out_type(name) || is_left_out_function(name) || is_left_out_procedure(name)
}

/// What a name is before any module.
#[tactic(auto, unfolding(crate::specs::Predeclared::predeclared_named))]
pub fn predeclared_named(name: &Text) -> Predeclared
    ensures { result ≡ spec.predeclared_named name.now }
{
    if let Some(basic) = basic_named(name) {
        return Predeclared::Basic(basic);
    }
    if let Some(function) = function_named(name) {
        return Predeclared::Function(function);
    }
    match procedure_named(name) {
        Some(procedure) => Predeclared::Procedure(procedure),
        None => {
            if is_left_out(name) {
                Predeclared::LeftOut
            } else {
                Predeclared::Unknown
            }
        }
    }
}

/// What is broken where nothing declares a name that has to stand for a value, or for a type.
pub fn absent(predeclared: Predeclared) -> RuleCode
    ensures { result ≡ spec.absent predeclared }
{
    match predeclared {
        Predeclared::LeftOut => RuleCode::LeftOut,
        Predeclared::Unknown => RuleCode::UnknownName,
        Predeclared::Basic(_) | Predeclared::Function(_) | Predeclared::Procedure(_) =>
            RuleCode::Types,
    }
}

/// What In exports under a name.
#[tactic(auto, unfolding(crate::specs::Predeclared::input_named))]
pub fn input_named(name: &Text) -> InputName
    ensures { result ≡ spec.input_named name.now }
{
    let name = name.as_slice();
    if name == b"Open".as_slice() {
        InputName::Open
    } else if name == b"Char".as_slice() {
        InputName::Char
    } else if name == b"Int".as_slice() {
        InputName::Int
    } else if name == b"String".as_slice() {
        InputName::String
    } else if name == b"Name".as_slice() {
        InputName::Name
    } else if name == b"Done".as_slice() {
        InputName::Done
    } else {
        InputName::Unknown
    }
}

/// What Out exports under a name.
#[tactic(auto, unfolding(crate::specs::Predeclared::output_named))]
pub fn output_named(name: &Text) -> OutputName
    ensures { result ≡ spec.output_named name.now }
{
    let name = name.as_slice();
    if name == b"Open".as_slice() {
        OutputName::Open
    } else if name == b"Char".as_slice() {
        OutputName::Char
    } else if name == b"String".as_slice() {
        OutputName::String
    } else if name == b"Int".as_slice() {
        OutputName::Int
    } else if name == b"Ln".as_slice() {
        OutputName::Ln
    } else {
        OutputName::Unknown
    }
}

/// Whether In exports it.
pub fn is_input(name: InputName) -> bool
    ensures { result ≡ spec.is_input name }
{
    match name {
        InputName::Unknown => false,
        _ => true,
    }
}

/// Whether Out exports it.
pub fn is_output(name: OutputName) -> bool
    ensures { result ≡ spec.is_output name }
{
    match name {
        OutputName::Unknown => false,
        _ => true,
    }
}
