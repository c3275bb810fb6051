//! Tests of n2k_join.

mod groups;
mod growth;
mod logs;
mod splitting;
mod states;
