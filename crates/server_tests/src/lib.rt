//! Tests of the kernel, of a notebook's recorder, and of replays; and what tests of replays are written with.
#![tactic(auto)]

mod devices;
#[cfg(test)]
mod input;
#[cfg(test)]
mod kernel;
mod lines;
#[cfg(test)]
mod plays;
#[cfg(test)]
mod recorder;
#[cfg(test)]
mod replays;
#[cfg(test)]
mod requests;
#[cfg(test)]
mod saving;
#[cfg(test)]
mod shown;
#[cfg(test)]
mod statuses;

pub use devices::{Limited, Trickle, played};
pub use lines::{
    begun, cell_line, ended, failed, first_cell, input_line, input_request, joined, stream,
    whole_cell,
};
