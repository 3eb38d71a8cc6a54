//! Tests of the server's routes, over a shelf in memory and kernels that only take note of what they are told.
//!
//! A test is a play: a text of requests, each followed by its answer. `plays` says how it is written.
#![tactic(auto)]

#[cfg(test)]
mod books;
#[cfg(test)]
mod contents;
#[cfg(test)]
mod edited;
#[cfg(test)]
mod failures;
#[cfg(test)]
mod kernels;
#[cfg(test)]
mod notes;
#[cfg(test)]
mod older;
#[cfg(test)]
mod plays;
#[cfg(test)]
mod sessions;
#[cfg(test)]
mod whole;
