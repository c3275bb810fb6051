//! The tests of the two lowest libraries, over their public calls: lines and texts (`wire`), tables, values and JSON
//! lines (`table`), the examples of their doc comments (`examples`), and `samples`, which `n2k_tests` uses too.
//!
//! They are proved at the same time as the libraries above these two.
#![tactic(auto)]

#[cfg(test)]
mod examples;
pub mod samples;
#[cfg(test)]
mod table;
#[cfg(test)]
mod wire;
