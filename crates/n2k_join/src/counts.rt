//! The counts of a run.

/// The counts of a run, as its summary prints them.
#[derive(Clone, Copy, Debug, Default, PartialEq, Eq)]
pub struct Counts {
    /// Lines read, skipped ones too.
    pub lines: u64,
    /// Messages written.
    pub messages: u64,
    /// Bad lines.
    pub bad: u64,
    /// Frames and whole messages whose PGN isn't in the table.
    pub unknown: u64,
    /// Groups that ended without a message.
    pub broken: u64,
    /// Groups that are open at the end. The summary calls this count `open`.
    pub held: u64,
}

impl Counts {
    /// Before the first line.
    pub const NONE: Counts = Counts {
        lines: 0,
        messages: 0,
        bad: 0,
        unknown: 0,
        broken: 0,
        held: 0,
    };
}

/// The most lines of a log.
pub const MOST_LINES: u64 = 999_999_999_999_999;
