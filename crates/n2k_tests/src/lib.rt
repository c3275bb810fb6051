//! The tests of `n2k_run`, over its public calls (`run`), and the examples of its doc comments (`examples`).
//! `appending` tests what the appending calls of all four libraries leave. `n2k_table_tests` and `n2k_join_tests`
//! contain the tests of the lower three libraries.
//!
//! Tests have crates of their own, so that each library is proved once, and the tests are proved at the same time.
#![tactic(auto)]

#[cfg(test)]
mod appending;
#[cfg(test)]
mod examples;
#[cfg(test)]
mod run;
