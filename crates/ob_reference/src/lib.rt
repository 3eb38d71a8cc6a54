//! A plain program that computes what the typed trees of Oberon mean, by their structure. Tests alone use it.
#![tactic(auto)]

mod action;
mod call;
mod expression;
mod reference;
mod repetition;
mod site;
mod statement;

pub use reference::{Command, Ran, Reference};
