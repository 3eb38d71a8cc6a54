//! Tests of replays over Oberon-07: lines in and lines out, as tables.
#![tactic(auto)]

#[cfg(test)]
mod endless;
#[cfg(test)]
mod extensions;
#[cfg(test)]
mod input;
#[cfg(test)]
mod interrupts;
#[cfg(test)]
mod limits;
#[cfg(test)]
mod modules;
#[cfg(test)]
mod programs;
#[cfg(test)]
mod records;
#[cfg(test)]
mod replays;
#[cfg(test)]
mod requests;
#[cfg(test)]
mod sent;
#[cfg(test)]
mod shown;
