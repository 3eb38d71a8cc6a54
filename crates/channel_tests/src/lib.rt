//! Tests of channels: turns over a stream in memory.
#![tactic(auto)]

#[cfg(test)]
mod arrivals;
#[cfg(test)]
mod faults;
#[cfg(test)]
mod losses;
#[cfg(test)]
mod scene;
#[cfg(test)]
mod socket;
