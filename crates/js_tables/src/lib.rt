//! What the server keeps of its kernels, sessions and files, the JSON that it answers with, and the plans that requests
//! come to (Jupyter Server REST API).
#![tactic(auto)]

mod body;
mod book;
mod forms;
mod given;
mod moment;
mod plan;
mod refusal;
mod sessions;
mod tables;

pub use body::{
    check_kernel_name, given_text_in, named_or_oberon, optional_text_in, read_body, text_in,
};
pub use book::ReadNotebook;
pub use forms::{
    About, Kind, json_body, kernel_value, kernels_value, kernelspecs_value, model_value,
    session_value, sessions_value, text_value, version_value,
};
pub use given::Given;
pub use moment::date_text;
pub use plan::{Answer, Change, Command, Plan, Update, reply};
pub use refusal::Refusal;
pub use sessions::{find_by_path, find_by_session, kernel_copy, session_copy, with_session};
pub use tables::{Kernel, Recording, Session, State, Tables, find_kernel};
