//! A run: the command that was typed over its files, and what it comes to.

pub mod commands;
pub mod difference;
pub mod hint;
pub mod program;
