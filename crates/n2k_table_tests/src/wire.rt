//! Tests of n2k_wire.

mod lines;
mod texts;
