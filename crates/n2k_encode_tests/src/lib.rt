//! The tests of `n2k_encode`: JSON lines and their data (`lines`), and the examples of its doc comments (`examples`).
#![tactic(auto)]

#[cfg(test)]
mod examples;
#[cfg(test)]
mod lines;
