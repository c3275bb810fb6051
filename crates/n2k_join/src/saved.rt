//! The saved state: writing its text, and reading it.

mod object;
mod reader;
mod resume;
mod rules;
mod spelled;
mod text;
mod value;
mod written;

pub(crate) use reader::read_state;
pub(crate) use resume::{format_in, parsed, stored_groups};
pub(crate) use rules::{rules_hold, waits_hold};
pub(crate) use spelled::SpelledGroup;
pub(crate) use text::state_text;
pub(crate) use written::written_parts;

/// The format of a state with its window.
pub(crate) const SAVED_FORMAT: u64 = 2;

/// The format of a state without its window.
pub(crate) const OLD_FORMAT: u64 = 1;
