//! The connections of the running server: a request and its response, or a channel.
#![tactic(auto)]

mod channel;
mod connection;
mod signals;

pub use connection::{accept_all, serve_connection};
