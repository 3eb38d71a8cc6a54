//! Copies, which are equal values, and types with more than one owner.

ghost use Rattle.std.specs.Prelude.{◌≡◌, IfOk};

use crate::exports::{Constant, Formal, Signature};
use crate::form::{Form, ObType};
use crate::structure::RecordName;
use ob_base::{Items, Text};
use std::alloc::{AllocError, Global};

fn copy_names(alloc: Global, names: &[Text]) -> Result<Items<Text>, AllocError>
    ensures { IfOk result (λ c. c ≡ names.now) }
{
    let mut copies = Items::new(alloc);
    for name in names {
        copies.push(name.copy(alloc)?)?;
    }
    Ok(copies)
}

impl RecordName {
    /// An equal name, or lack of memory.
    pub fn copy(&self, alloc: Global) -> Result<RecordName, AllocError>
        ensures { IfOk result (λ c. c ≡ self.now) }
    {
        Ok(RecordName {
            module_name: self.module_name.copy(alloc)?,
            enclosing: copy_names(alloc, self.enclosing.as_slice())?,
            declared: self.declared.copy(alloc)?,
            before: self.before,
        })
    }
}

impl ObType {
    /// An equal type, which shares its parts with this one: in constant time and without memory. Refused only where no more owners
    /// of a part can be counted.
    pub fn another(&self) -> Result<ObType, AllocError>
        ensures { IfOk result (λ c. c ≡ self.now) }
    {
        let form = match &self.form {
            Form::Basic(basic) => Form::Basic(*basic),
            Form::Array(length, element) => Form::Array(*length, element.another()?),
            Form::Open(element) => Form::Open(element.another()?),
            Form::Record(record) => Form::Record(record.another()?),
        };
        Ok(ObType { form })
    }
}

impl Constant {
    /// An equal constant, or lack of memory.
    pub fn copy(&self, alloc: Global) -> Result<Constant, AllocError>
        ensures { IfOk result (λ c. c ≡ self.now) }
    {
        match self {
            Constant::Integer(number) => Ok(Constant::Integer(*number)),
            Constant::Boolean(truth) => Ok(Constant::Boolean(*truth)),
            Constant::Char(character) => Ok(Constant::Char(*character)),
            Constant::Text(characters) => Ok(Constant::Text(characters.copy(alloc)?)),
        }
    }
}

impl Formal {
    /// An equal formal parameter, whose type shares its parts with this one's.
    pub fn another(&self) -> Result<Formal, AllocError>
        ensures { IfOk result (λ c. c ≡ self.now) }
    {
        Ok(Formal {
            kind: self.kind,
            of: self.of.another()?,
        })
    }
}

fn copy_formals(alloc: Global, formals: &[Formal]) -> Result<Items<Formal>, AllocError>
    ensures { IfOk result (λ c. c ≡ formals.now) }
{
    let mut copies = Items::new(alloc);
    for formal in formals {
        copies.push(formal.another()?)?;
    }
    Ok(copies)
}

impl Signature {
    /// An equal signature, or lack of memory.
    pub fn copy(&self, alloc: Global) -> Result<Signature, AllocError>
        ensures { IfOk result (λ c. c ≡ self.now) }
    {
        Ok(Signature {
            formals: copy_formals(alloc, self.formals.as_slice())?,
            result: self.result,
        })
    }
}
