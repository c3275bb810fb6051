//! What the bits of a message mean: a table of messages read from TOML, field values, and JSON lines.
//!
//! ```rust
//! let table = sample_table(alloc)?;
//! let line = "2011-11-24-22:42:04.388,2,127251,36,255,8,7d,0b,7d,02,00,ff,ff,ff";
//! let packet = frame_in(line)?;
//! let mut text = Vec::new(alloc);
//! json_line(alloc, &table, &packet, false, &mut text)?;
//! let end = "\"description\":\"Rate of Turn\",\"fields\":{\"SID\":125,\"Rate\":0.00509634375}}\n";
//! assert!(rt; text.ends_with(end.as_bytes()));
//! ```
//!
//! - `Table::read` reads a table, or returns its fault (`TableFault`). `Table::id` is the
//!   SHA-256 of what was read.
//! - `Table::kind` says how a PGN is sent, and `Table::choose` gives the `Definition` of a message: the first
//!   of its PGN in the file that its data match.
//! - `Definition::fields` gives each field's name and what it shows of the data (`Shown`): a number, the name
//!   of a value, a text (of bytes, UTF-8 or UTF-16), bytes, bits by their names (`Flags`), digits, or nothing.
//!   `Definition::repeat` gives the same of each set of fields that follows them (`Sets`), if the table says
//!   that something does.
//! - `decimal_text` appends a number with its decimals, and `json_line` the line of a message. For the lines of a log,
//!   one after the other, use `json_line_of`, which puts them together in a buffer that is kept (`LineBuffer`).
//!
//! A table that reads has no fault, and a fault that is answered is the first in it. What a number field shows is its raw
//! value, the sum of its bits times powers of two, taken as two's complement if it is signed, with its offset added
//! if it has one, times a resolution that is kept as whole numbers. So each decimal that is printed is exact: nothing
//! is rounded, and there is no floating-point number. A message that no definition matches is printed with its data as
//! they are.
//!
//! Each example is a test of `n2k_table_tests`, in the same words. In them `rt` is the runtime that `main` or a test is
//! handed, and `alloc` its allocator, `rt.alloc()`; `frame_in(line)` is the packet of a line's frame, and
//! `sample_table` and `pairs_table` read tables of three and of four messages.
#![tactic(auto)]

mod bits;
mod coding;
mod decimal;
mod decimal_fast;
mod definition;
mod definition_reader;
mod fault;
mod field;
mod field_reader;
mod field_value;
mod fields_reader;
mod flags;
mod index;
mod json_header;
mod known_pgn;
pub mod laws;
mod line;
mod line_buffer;
mod lookup;
mod lookup_reader;
mod match_prefilter;
mod number;
mod padded_text;
mod repeat;
mod resolution;
mod shown;
mod string_place;
mod string_value;
mod table;
mod table_id;
mod text;
mod tree;
mod wide_text;

pub use coding::Coding;
pub use decimal::decimal_text;
pub use definition::{Definition, Kind};
pub use fault::TableFault;
pub use field::Field;
pub use flags::{Flag, Flags};
pub use known_pgn::KnownPgn;
pub use line::{json_line, json_line_in, json_line_of};
pub use line_buffer::{LineBuffer, TextBuffer};
pub use lookup::Lookup;
pub use repeat::{Repeat, Sets};
pub use resolution::Resolution;
pub use shown::{Fields, Shown};
pub use string_place::Form;
pub use table::Table;
pub use table_id::TableId;
pub use wide_text::split_character;
