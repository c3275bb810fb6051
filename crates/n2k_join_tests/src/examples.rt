//! The examples of the doc comments of n2k_join, as in `n2k_tests`.
mod join;

use n2k_wire::{Entry, Packet, Packing, read_line};
use std::test::Fail;

// The packet of a plain line, as a whole message.
fn message_in(line: &str) -> Result<Packet, Fail> {
    match read_line(line.as_bytes(), Packing::Whole) {
        Entry::Whole(packet) => Ok(packet),
        _ => Err("no message".into()),
    }
}
