//! Threads at the ends that a kernel's threads share: arrivals sent and taken, texts parsed, entries published and read.
#![tactic(auto)]

#[cfg(test)]
mod board_tests;
#[cfg(test)]
mod driver_tests;
#[cfg(test)]
mod dropping_tests;
pub mod following;
#[cfg(test)]
mod inbox_tests;
pub mod joins;
#[cfg(test)]
mod late_tests;
#[cfg(test)]
mod pool_tests;
#[cfg(test)]
mod rounds_tests;
pub mod scene;
#[cfg(test)]
mod spare_tests;
