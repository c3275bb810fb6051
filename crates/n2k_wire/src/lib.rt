//! Lines of a log, CAN identifiers, packets, and the texts of packets.
//!
//! ```rust
//! let line = "(1502979132.106111) can0 09F8027F#00FCFFFF0000FFFF";
//! let Entry::Frame(packet) = read_line(line.as_bytes(), Packing::Frames) else {
//!     return Err("no frame".into());
//! };
//! assert_eq!(rt; (packet.id().pgn, packet.data().len()), (129026, 8));
//! let mut text = Vec::new(alloc);
//! plain_text(alloc, &packet, &mut text)?;
//! let wanted = "2017-08-17T14:12:12.106Z,2,129026,127,255,8,00,fc,ff,ff,00,00,ff,ff\n";
//! assert_eq!(rt; text.as_slice(), wanted.as_bytes());
//! ```
//!
//! - `read_line` reads one line of a log, of `candump -L` or plain, as its `Entry`: a frame or a whole message as a
//!   `Packet`, a line to skip, or a bad line with its cause (`BadCause`). For the lines of a log use a `LineReader`: it
//!   gives the same result, and moves no packet.
//! - `split_id` splits a CAN identifier into priority, PGN, source and destination (`Id`), and `join_id` joins them.
//! - `Packet` holds a message or a frame: its stamp, its `Id`, and up to 223 bytes.
//! - `plain_text` and `candump_text` append a packet as a line. `LineHead` is how the lines of a message's frames begin,
//!   and `CandumpLines` begins candump lines of packets in a row; `is_interface` tests the name of an interface. `laws`
//!   has theorems that connect these calls.
//!
//! No other call needs memory. Each result is a defined function of the given bytes.
//!
//! Each example is a test of `n2k_table_tests`, word for word. In them `rt` is the runtime that `main` or a test gets,
//! and `alloc` its allocator, `rt.alloc()`; `frame_in(line)` is the packet of a line's frame.
#![tactic(auto)]

mod candump;
mod candump_fast;
mod candump_writer;
mod cuts;
mod digits;
mod entry;
mod fault;
mod identifier;
pub mod laws;
mod line_head;
mod packet;
mod plain;
mod plain_fast;
mod plain_writer;
mod stamp;

pub use candump::{FRAME_PAYLOAD, is_interface};
pub use candump_writer::{CandumpLines, candump_text};
pub use entry::{BadCause, Entry, LONGEST_LINE, LineReader, Packing, read_line};
pub use fault::WireFault;
pub use identifier::{Id, join_id, split_id};
pub use line_head::LineHead;
pub use packet::{GREATEST_PGN, Packet};
pub use plain::GREATEST_ADDRESS;
pub use plain_writer::{LINE_ROOM, plain_text, write_line};
pub use stamp::UTC_LEN;
