//! Tests of n2k_table.

mod choosing;
mod cuts;
mod fields;
mod first_faults;
mod format_3;
mod limits;
mod lines;
mod reading;
mod sets_read;
mod sets_shown;
mod shown;
mod strings_read;
mod strings_shown;
mod tables;
