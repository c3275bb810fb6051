//! The run of `encode`: each line of JSON of a log as a plain line.
//!
//! ```rust
//! let table = sample_table(alloc)?;
//! let mut log = StdSource::new("{\"pgn\":127251,\"fields\":{\"SID\":1}}\n{}\n".as_bytes());
//! let mut out = MemorySink::new(alloc, 4096, 0);
//! let mut err = MemorySink::new(alloc, 4096, 0);
//! let mut counts = Counts::NONE;
//! run_encode(
//!     alloc,
//!     &table,
//!     false,
//!     &mut counts,
//!     &mut log,
//!     &mut out,
//!     &mut err,
//! )?;
//! let line = "1970-01-01T00:00:00.000Z,6,127251,0,255,8,01,ff,ff,ff,7f,ff,ff,ff\n";
//! assert_eq!(rt; out.bytes(), line.as_bytes());
//! assert_eq!(rt; err.bytes(), "line 2 bad B14 member\n".as_bytes());
//! ```
//!
//! `run_encode` passes each line to `encode_line` of `n2k_encode`, and prints the message, or reports the refusal with
//! the number of the line. It keeps one line, of at most 65,538 bytes, and the texts of one block of 4,096 bytes. Before
//! the next read it writes the reports, then the texts. `Encoding` takes a log that comes in several calls.
//!
//! The example is a test of `n2k_encode_tests`.
#![tactic(auto)]

mod encoder;
mod encoding;
pub mod laws;
mod ledger;
mod line;
mod texts;

pub use encoder::run_encode;
pub use encoding::Encoding;
