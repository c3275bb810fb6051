//! Encodes lines of JSON, in the form that `decode` prints, as messages.
//!
//! ```rust
//! let table = sample_table(alloc)?;
//! let mut scratch = Scratch::new(alloc);
//! let line = "{\"pgn\":127251,\"src\":36,\"fields\":{\"SID\":125,\"Rate\":0.00509634375}}";
//! let packet = encode_line(alloc, &table, false, line.as_bytes(), &mut scratch)?;
//! let data = [125, 0x0b, 0x7d, 2, 0, 255, 255, 255];
//! assert_eq!(rt; packet.data(), data.as_slice());
//! ```
//!
//! - `encode_line` returns the message of a line of JSON in the form that `json_line` of `n2k_table` prints.
//! - It returns a `Refusal` if there is no such message: if the line lacks a member, if the table does not have a name or
//!   a value, or if no data show everything that the line gives.
//!
//! The message reads back as the line. It has the timestamp and the identifier of the line. The definition that the table
//! chooses for its data shows each field and set exactly as the line gives it, and shows nothing else, except values that
//! the definition fixes with `match`. Numbers are compared digit by digit, without rounding. With `nearest` each number is
//! at most half a unit of its field away from the given one.
//!
//! Each example is a test of `n2k_encode_tests`, in the same words. `rt` is the runtime that `main` and each test
//! receive, `alloc` is `rt.alloc()`, and `sample_table` reads a table of three messages.
#![tactic(auto)]

mod coded;
mod draft;
mod encode;
mod given;
pub mod laws;
mod numeral;
mod place;
mod reading;
mod refusal;
mod request;
mod shows;
mod texts;
mod value;

pub use encode::{LONGEST_REQUEST, encode_line};
pub use refusal::{EncodeError, Refusal};
