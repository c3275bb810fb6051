//! Why a packet has no text.
use thiserror::Error;

/// Why a packet has no candump line.
#[derive(Clone, Copy, PartialEq, Eq, Debug, Error)]
pub enum WireFault {
    /// The stamp isn't `YYYY-MM-DDTHH:MM:SS.mmmZ` of a day that the calendar has from 1970 on.
    #[error("the stamp isn't a time of UTC")]
    NoStamp,
    /// No identifier of 29 bits has this PGN, priority and addresses.
    #[error("no CAN identifier has this PGN, priority and addresses")]
    NoId,
    /// A growth was refused.
    #[error("out of memory")]
    Memory,
}
