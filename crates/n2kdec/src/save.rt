//! The file of a state: where it is, and how it gets the new state.

pub mod destination;
pub mod keeper;
pub mod replacement;
