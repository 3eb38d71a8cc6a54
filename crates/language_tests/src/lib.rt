//! Tests of the language's parts that stand on no checker: texts and lists, tokens, trees, types, In and Out, and what links.
#![tactic(auto)]

#[cfg(test)]
mod base;
#[cfg(test)]
mod inout;
#[cfg(test)]
mod link;
#[cfg(test)]
mod parse;
#[cfg(test)]
mod scan;
#[cfg(test)]
mod types;
