//! Tests of the checker and of what compiles a checked module: declarations, expressions, modules, texts that break rules.
#![tactic(auto)]

#[cfg(test)]
mod checker;
#[cfg(test)]
mod checker_limits;
#[cfg(test)]
mod compile;
#[cfg(test)]
mod declare;
#[cfg(test)]
mod express;
#[cfg(test)]
mod keys;
#[cfg(test)]
mod several;
