//! Copies of what a cell's run left.

ghost use Rattle.std.specs.Prelude.{◌≡◌, IfOk};

use crate::listed::Listed;
use crate::notebook::{Execution, Output};
use json_form::Text;
use std::alloc::{AllocError, Global};

impl Execution {
    /// An equal one.
    pub fn copy(&self, alloc: Global) -> Result<Execution, AllocError>
        ensures { IfOk result (λ e. e ≡ self.now) }
    {
        let outputs = outputs_copy(alloc, self.outputs.as_slice())?;
        Ok(Execution {
            execution_count: self.execution_count,
            outputs,
        })
    }
}

impl Output {
    /// An equal one.
    pub fn copy(&self, alloc: Global) -> Result<Output, AllocError>
        ensures { IfOk result (λ o. o ≡ self.now) }
    {
        match self {
            Output::Stream { name, text } => Ok(Output::Stream {
                name: name.copy()?,
                text: text.copy()?,
            }),
            Output::Error {
                ename,
                evalue,
                traceback,
            } => Ok(Output::Error {
                ename: ename.copy()?,
                evalue: evalue.copy()?,
                traceback: texts_copy(alloc, traceback.as_slice())?,
            }),
            Output::Kept(json) => Ok(Output::Kept(json.copy()?)),
        }
    }
}

fn outputs_copy(alloc: Global, outputs: &[Output]) -> Result<Listed<Output>, AllocError>
    ensures { IfOk result (λ copies. copies ≡ outputs.now) }
{
    let mut copies = Vec::with_capacity(alloc, outputs.len())?;
    for output in outputs {
        copies.push(output.copy(alloc)?)?;
    }
    Ok(Listed::new(copies))
}

fn texts_copy(alloc: Global, texts: &[Text]) -> Result<Listed<Text>, AllocError>
    ensures { IfOk result (λ copies. copies ≡ texts.now) }
{
    let mut copies = Vec::with_capacity(alloc, texts.len())?;
    for text in texts {
        copies.push(text.copy()?)?;
    }
    Ok(Listed::new(copies))
}
