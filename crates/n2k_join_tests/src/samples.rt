//! What the tests of several crates use: short spellings of states, windows, and passing a line to a join.
use n2k_join::{Join, JoinFault, Step, Window};
use n2k_table::Table;
use n2k_table_tests::samples::SAMPLE_ID;
use n2k_wire::{Packing, read_line};
use std::alloc::Global;
use std::test::Fail;

/// Spells a state out: ' becomes a quotation mark, and ID the table's id.
pub fn spelled(alloc: Global, state: &str) -> Result<String, Fail> {
    let quoted = state.replace(alloc, "'", "\"")?;
    Ok(quoted.replace(alloc, "ID", SAMPLE_ID)?)
}

/// The program's default window. It ends no group in the logs of the tests.
pub fn long_window() -> Window {
    Window::new(10_000).unwrap()
}

/// The shortest window.
pub fn shortest_window() -> Window {
    Window::new(Window::SHORTEST).unwrap()
}

/// Passes a line to a join. Groups whose window ends at the line are broken first.
pub fn take(join: &mut Join, table: &Table, line: &str) -> Result<Step, JoinFault> {
    while join.expire().is_some() {}
    join.line(table, read_line(line.as_bytes(), Packing::Frames))
}
