//! Tests of n2k_run.

mod decoding;
mod devices;
mod growth;
mod parts;
mod plain;
mod samples;
mod sending;
mod standard;
mod texts;
