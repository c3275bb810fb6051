//! The examples of doc comments.
mod encode;
mod encode_run;
