//! Tests of stack code, of the plain evaluator, and of compiled programs that a machine runs; and that the two agree.
#![tactic(auto)]

#[cfg(test)]
mod agreement;
#[cfg(test)]
mod code;
#[cfg(test)]
mod compiled;
#[cfg(test)]
mod records;
#[cfg(test)]
mod reference;
