//! The running server over the small language, on loopback in one process.
#![tactic(auto)]

#[cfg(test)]
mod client;
#[cfg(test)]
mod commands;
pub mod crew;
#[cfg(test)]
mod limits;
#[cfg(test)]
mod losses;
#[cfg(test)]
mod notebooks;
#[cfg(test)]
mod rows;
#[cfg(test)]
mod screens;
#[cfg(test)]
mod steps;
