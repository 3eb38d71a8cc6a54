//! The messages of the Jupyter protocol ("Messaging in Jupyter", version 5.4), in the default JSON form of its
//! WebSocket connections: read, made, copied and written.
#![tactic(auto)]

mod building;
mod copying;
mod message;
mod reading;
mod writing;

pub use building::{Stamp, shared_text};
pub use json_form::{Bad, Fault};
pub use message::{
    Channel, Completeness, Content, Execute, Failure, Header, Message, Outcome, Output, Request,
    RequestKind, State,
};
pub use reading::{MAX_MESSAGE, message_of_value, number_of, read_message, read_value};
pub use writing::{output_json, write_message};
