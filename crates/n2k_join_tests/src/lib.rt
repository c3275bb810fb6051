//! The tests of `n2k_join`, over its public calls: groups, states and frames (`join`), the examples of its doc comments
//! (`examples`), and `samples`, which `n2k_tests` uses too.
#![tactic(auto)]

#[cfg(test)]
mod examples;
#[cfg(test)]
mod join;
pub mod samples;
