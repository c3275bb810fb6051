//! Groups of frames that make fast packets, and the counts of a log.
//!
//! ```rust
//! let table = sample_table(alloc)?;
//! let mut join = Join::new(alloc, &table, Window::new(10_000).unwrap());
//! let first = "(11.0) can0 1DFF0405#4120202020202020";
//! let second = "(12.0) can0 1DFF0405#400DA39903444546";
//! assert_eq!(rt; join.expire(), None);
//! let step = join.line(&table, read_line(first.as_bytes(), Packing::Frames))?;
//! assert!(rt; step.message.is_none());
//! assert_eq!(rt; join.expire(), None);
//! let step = join.line(&table, read_line(second.as_bytes(), Packing::Frames))?;
//! let message = step.message.ok_or("a message")?;
//! assert_eq!(rt; message.data().len(), 13);
//! ```
//!
//! - `Window` is the limit of an incomplete group: a number of lines and, in order, rising frame numbers.
//! - `Join::new` is the join before the first line. Before each line, `Join::expire` breaks the groups whose window
//!   ends at it, one a call. `Join::line` then takes the line, as its entry, and returns the message that the line is
//!   or completes, why it is bad, and the group that its frame breaks (`Step`, `Broken`). A line that is refused
//!   (`JoinFault`) leaves the join unchanged. For the lines of a log use `Join::accept_in_place`: it gives the same result, but
//!   leaves the message in the entry (`InPlaceStep`, `message_of`) instead of moving it.
//! - `Join::counts` are the lines, messages, bad lines, unknown PGNs, broken and open groups so far (`Counts`).
//! - `Join::save` writes the state of a join as text. `Join::resume` continues from a text, or returns why it is
//!   refused (`StateFault`).
//! - `Splitter::message` appends the frames of a message, under the sequence of its stream, or refuses it
//!   (`SplitFault`). For the messages of a log use `Splitter::split`, which makes a message's frames one at a time
//!   (`Frames`).
//! - `laws` has theorems about the definitions.
//!
//! The messages of a log are defined over the whole log (specs/Messages): the frames of each key are cut into groups,
//! and a complete group is a message. A join keeps only the open groups, and one line of it is one step of that
//! definition, from any state.
//!
//! Each example is a test of `n2k_join_tests`, word for word. In them `rt` is the runtime that `main` or a test gets,
//! and `alloc` its allocator, `rt.alloc()`; `sample_table` reads a table in which 129026 is sent in single frames and
//! 130820 in fast packets, and `message_in(line)` is the packet of a plain line.
#![tactic(auto)]

mod counts;
mod entry_taking;
mod fault;
mod frame;
mod frame_taking;
mod group;
mod join;
pub mod laws;
mod open_groups;
mod piece;
mod saved;
mod splitter;
mod step;
mod stream;
mod window;

pub use counts::{Counts, MOST_LINES};
pub use fault::{JoinFault, SplitFault, StateFault};
pub use join::Join;
pub use splitter::{Frames, Splitter};
pub use step::{Broken, InPlaceStep, Step, TableMessage, message_of};
pub use stream::Stream;
pub use window::Window;
