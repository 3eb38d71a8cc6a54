//! The JSON of answers.
ghost use Rattle.std.specs.Prelude.{◌≡◌, false, IfOk, OnOk};
ghost use Rattle.serde_json.specs.Data.{string};
ghost use Rattle.serde_json.specs.View.{view};
ghost use Rattle.serde_json.specs.Written.{has_float};
ghost use Rattle.js_tables.specs.Forms as spec;

use crate::tables::{Kernel, Session, State};
use js_http::Bytes;
use json_form::Text;
use nb_doc::Row;
use serde_json::{Value, json};
use std::alloc::{AllocError, Global};

/// The bytes of a value.
#[tactic(auto, unfolding(crate::specs::Forms::body_text))]
pub fn json_body(alloc: Global, value: &Value) -> Result<Bytes, AllocError>
    requires { has_float (view value.now) ≡ false }
    ensures { IfOk result (λ b. b ≡ spec.body_text (view value.now)) }
{
    let text = value.to_string(alloc)?;
    Ok(Bytes::from(text.into_bytes()))
}

/// The version of the server.
#[tactic(auto, unfolding(crate::specs::Forms::version_form))]
pub fn version_value(alloc: Global) -> Result<Value, AllocError>
    ensures form { IfOk result (λ v. view v ≡ spec.version_form) }
    ensures whole { IfOk result (λ v. has_float (view v) ≡ false) }
{
    json!(in alloc; {"version": "1.0.0"})
}

#[tactic(auto, unfolding(crate::specs::Forms::spec_form))]
fn spec_value(alloc: Global) -> Result<Value, AllocError>
    ensures form { IfOk result (λ v. view v ≡ spec.spec_form) }
    ensures whole { IfOk result (λ v. has_float (view v) ≡ false) }
{
    json!(in alloc; {
        "argv": [],
        "display_name": "Oberon-07",
        "env": {},
        "interrupt_mode": "message",
        "language": "oberon",
        "metadata": {}
    })
}

#[tactic(auto, unfolding(crate::specs::Forms::oberon_form))]
fn oberon_value(alloc: Global) -> Result<Value, AllocError>
    ensures form { IfOk result (λ v. view v ≡ spec.oberon_form) }
    ensures whole { IfOk result (λ v. has_float (view v) ≡ false) }
{
    let spec = spec_value(alloc)?;
    json!(in alloc; {"name": "oberon", "resources": {}, "spec": spec})
}

#[tactic(auto, unfolding(crate::specs::Forms::all_specs_form))]
fn all_specs_value(alloc: Global) -> Result<Value, AllocError>
    ensures form { IfOk result (λ v. view v ≡ spec.all_specs_form) }
    ensures whole { IfOk result (λ v. has_float (view v) ≡ false) }
{
    let oberon = oberon_value(alloc)?;
    json!(in alloc; {"oberon": oberon})
}

/// The kernels that can be made.
#[tactic(auto, unfolding(crate::specs::Forms::kernelspecs_form))]
pub fn kernelspecs_value(alloc: Global) -> Result<Value, AllocError>
    ensures form { IfOk result (λ v. view v ≡ spec.kernelspecs_form) }
    ensures whole { IfOk result (λ v. has_float (view v) ≡ false) }
{
    let all = all_specs_value(alloc)?;
    json!(in alloc; {"default": "oberon", "kernelspecs": all})
}

impl State {
    #[tactic(auto, unfolding(crate::specs::Forms::state_name))]
    fn name(self) -> &'static str
        ensures { result.now ≡ spec.state_name self }
    {
        match self {
            State::Busy => "busy",
            State::Idle => "idle",
        }
    }
}

/// A kernel.
#[tactic(auto, unfolding(crate::specs::Forms::kernel_form))]
pub fn kernel_value(alloc: Global, kernel: &Kernel) -> Result<Value, AllocError>
    ensures form { IfOk result (λ v. view v ≡ spec.kernel_form kernel.now) }
    ensures whole { IfOk result (λ v. has_float (view v) ≡ false) }
{
    json!(in alloc; {
        "connections": kernel.connections,
        "execution_state": kernel.state.name(),
        "id": kernel.id.as_str(),
        "last_activity": kernel.last_activity.as_str(),
        "name": "oberon"
    })
}

/// All kernels.
#[tactic(auto, unfolding(crate::specs::Forms::kernels_form))]
pub fn kernels_value(alloc: Global, kernels: &[Kernel]) -> Result<Value, AllocError>
    ensures form { IfOk result (λ v. view v ≡ spec.kernels_form kernels.now) }
    ensures whole { IfOk result (λ v. has_float (view v) ≡ false) }
{
    let mut row = Row::empty(alloc);
    for kernel in kernels {
        row.push(kernel_value(alloc, kernel)?)?;
    }
    Ok(row.into_value())
}

/// A session, with its kernel.
#[tactic(auto, unfolding(crate::specs::Forms::session_form))]
pub fn session_value(alloc: Global, kernel: &Kernel, session: &Session) -> Result<Value, AllocError>
    ensures form { IfOk result (λ v. view v ≡ spec.session_form kernel.now session.now) }
    ensures whole { IfOk result (λ v. has_float (view v) ≡ false) }
{
    let kernel = kernel_value(alloc, kernel)?;
    json!(in alloc; {
        "id": session.id.as_str(),
        "kernel": kernel,
        "name": session.name.as_str(),
        "path": session.path.as_str(),
        "type": session.kind.as_str()
    })
}

/// One more form, where the kernel has a session.
fn push_session(alloc: Global, row: &mut Row, kernel: &Kernel) -> Result<(), AllocError>
    ensures { OnOk result (row.new ≡ spec.with_form row.old kernel.now kernel.now.session) }
{
    match &kernel.session {
        None => Ok(()),
        Some(session) => row.push(session_value(alloc, kernel, session)?),
    }
}

/// All sessions.
#[tactic(auto, unfolding(crate::specs::Forms::sessions_form))]
pub fn sessions_value(alloc: Global, kernels: &[Kernel]) -> Result<Value, AllocError>
    ensures form { IfOk result (λ v. view v ≡ spec.sessions_form kernels.now) }
    ensures whole { IfOk result (λ v. has_float (view v) ≡ false) }
{
    let mut row = Row::empty(alloc);
    for kernel in kernels {
        push_session(alloc, &mut row, kernel)?;
    }
    Ok(row.into_value())
}

/// A text as JSON.
pub fn text_value(alloc: Global, text: &str) -> Result<Value, AllocError>
    ensures form { IfOk result (λ v. view v ≡ string text.now) }
    ensures whole { IfOk result (λ v. has_float (view v) ≡ false) }
{
    json!(in alloc; text)
}

/// What stands at a path.
#[derive(Clone, Copy, Debug, PartialEq, Eq)]
pub enum Kind {
    Directory,
    File,
    Notebook,
}

impl Kind {
    /// Its name in answers and queries.
    #[tactic(auto, unfolding(crate::specs::Forms::kind_name))]
    pub fn name(self) -> &'static str
        ensures { result.now ≡ spec.kind_name self }
    {
        match self {
            Kind::Directory => "directory",
            Kind::File => "file",
            Kind::Notebook => "notebook",
        }
    }
}

/// What is said of a thing at a path beside its content.
#[derive(Drop)]
pub struct About {
    pub kind: Kind,
    pub path: Text,
    pub name: Text,
    pub date: Text,
}

/// What is said of a thing at a path, with its content, and the format and the media type of that.
#[tactic(auto, unfolding(crate::specs::Forms::model_form))]
pub fn model_value(
    alloc: Global,
    about: &About,
    content: Value,
    format: Value,
    mimetype: Value,
) -> Result<Value, AllocError>
    requires content { has_float (view content) ≡ false }
    requires format { has_float (view format) ≡ false }
    requires mimetype { has_float (view mimetype) ≡ false }
    ensures form { IfOk result (λ v. view v ≡ spec.model_form about.now (view content) (view format) (view mimetype)) }
    ensures whole { IfOk result (λ v. has_float (view v) ≡ false) }
{
    json!(in alloc; {
        "content": content,
        "created": about.date.as_str(),
        "format": format,
        "last_modified": about.date.as_str(),
        "mimetype": mimetype,
        "name": about.name.as_str(),
        "path": about.path.as_str(),
        "type": about.kind.name(),
        "writable": true
    })
}
