//! Runs over devices: they read a log, take its lines one by one, and write texts and reports.
//!
//! ```rust
//! let table = sample_table(alloc)?;
//! let options = Options {
//!     packing: Packing::Frames,
//!     empty: false,
//!     window: Window::new(10_000).unwrap(),
//! };
//! let mut log = StdSource::new("(1.0) can0 09F8027F#00FCFFFF0000FFFF\n".as_bytes());
//! let mut out = MemorySink::new(alloc, 4096, 0);
//! let mut err = MemorySink::new(alloc, 4096, 0);
//! let part = run_part(alloc, &table, None, options, &mut log, &mut out, &mut err)?;
//! assert_eq!(rt; part.counts.messages, 1);
//! let end = "\"fields\":{\"SID\":0,\"COG Reference\":\"True\",\"SOG\":0.00}}\n";
//! assert!(rt; out.bytes().ends_with(end.as_bytes()));
//! ```
//!
//! To decode a log use `run_part`: it begins the log or continues from a saved state, and returns the state to save. If
//! nothing is to be saved, use `run_counted`.
//! `run_parts` does so for parts in memory, `run` for an existing join, and `run_more` for both. To write a summary use
//! `write_summary`, which needs no memory; `summary_text` appends one to a text. The main theorem is clause `headline`
//! of `run_parts`: a log that was cut after lines prints in parts exactly what one run over it prints.
//!
//! - `run` prints the JSON line of each message that a log gives, `run_plain` each frame and each whole message as its
//!   plain line, `run_frames` each whole message as the lines of its frames. All report each bad line by its number,
//!   and `run` each broken group. `run_counted`, `run_plain_counted` and `run_frames_counted` also return the counts with
//!   a fault.
//! - `Options` define how the data of lines are packed, and whether absent fields are printed.
//! - `Blocks` returns the lines of a log from a block of 4,096 bytes. A run keeps no more of its log, and writes the
//!   results of its lines before it reads on: so a live pipe shows each message when its line came. The text of a block
//!   has 32 KiB of room on the stack; a run needs less than 128 KiB of stack.
//! - `Source` and `Sink` are devices: `StdSource` and `StdSink` over the standard library's, `MemorySource` and
//!   `MemorySink` for tests, whose calls can be short and can fail.
//! - `read_bytes` reads a source whole, up to a limit; `write_all` writes a text whole. `bad_text` and `broken_text`
//!   are the reports of a line.
//! - `laws` has theorems: what is printed of messages that were scattered over a log, or written and then read; if the
//!   window is in order, what each printed line shows, and which lines before a part of a log are enough.
//!
//! A run that returns Ok has written exactly the texts and reports of the log's lines, in their order. A run that
//! returns a fault has written a prefix of them, the reports first: the fault names the one device whose call failed,
//! memory, 10^12 reads without an end, or too many lines. The promise of every run is written once, in specs/Runs.
//!
//! Each example is a test of `n2k_tests`, word for word. In them `rt` is the runtime that `main` or a test gets, and
//! `alloc` its allocator, `rt.alloc()`; `sample_table` reads a table in which 129026 is sent in single frames and
//! 130820 in fast packets, and `usual_options` are the options of the example above.
#![tactic(auto)]

mod blocks;
mod decoding;
mod device;
mod engine;
mod fault;
mod frames;
pub mod laws;
mod memory;
mod more;
mod options;
mod part;
mod part_source;
mod plain;
mod reading;
mod standard;
mod texts;
mod writing;

pub use blocks::{Blocks, Next};
pub use decoding::run;
pub use device::{Failed, Sink, Source};
pub use engine::RunRoom;
pub use fault::{BytesFault, RunFault};
pub use frames::{run_frames, run_frames_counted};
pub use memory::{MemorySink, MemorySource};
pub use more::run_more;
pub use n2k_join::{Counts, MOST_LINES};
pub use options::Options;
pub use part::{Part, PartFault, run_counted, run_part, run_parts};
pub use plain::{run_plain, run_plain_counted};
pub use reading::{MOST_READS, read_bytes};
pub use standard::{StdSink, StdSource};
pub use texts::{bad_text, broken_text, summary_text, write_summary};
pub use writing::write_all;
