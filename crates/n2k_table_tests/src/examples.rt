//! The examples of the doc comments of n2k_wire and n2k_table, as in `n2k_tests`.
mod table;
mod wire;

use n2k_wire::{Entry, Packet, Packing, read_line};
use std::test::Fail;

// The packet of a line, as a frame.
fn frame_in(line: &str) -> Result<Packet, Fail> {
    match read_line(line.as_bytes(), Packing::Frames) {
        Entry::Frame(packet) => Ok(packet),
        _ => Err("no frame".into()),
    }
}
