//! Tests of notebooks that are run and saved.
#![tactic(auto)]

#[cfg(test)]
mod runs;
#[cfg(test)]
mod statuses;
