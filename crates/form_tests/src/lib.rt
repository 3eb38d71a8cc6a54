//! Tests of JSON forms, messages, notebooks, requests and responses of HTTP, handshakes of channels, and shelves.
#![tactic(auto)]

#[cfg(test)]
mod handshakes;
#[cfg(test)]
mod json_forms;
#[cfg(test)]
mod messages;
#[cfg(test)]
mod notebooks;
#[cfg(test)]
mod origins;
#[cfg(test)]
mod read_books;
#[cfg(test)]
mod requests;
#[cfg(test)]
mod shelves;
#[cfg(test)]
mod subprotocol;
