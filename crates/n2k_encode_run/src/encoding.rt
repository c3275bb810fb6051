//! Encodes a log whose lines come in several calls.
ghost use Rattle.std.specs.Prelude.{◌≡◌, []};
ghost use Rattle.n2k_run.specs.Runs.{sinks_seen};
ghost use Rattle.n2k_encode_run.specs.More.{EncodesMore};
ghost use Rattle.n2k_encode_run.specs.Outcomes.{counts_of};

use crate::encoder::Encoder;
use crate::ledger::Ledger;
use json::Scratch;
use n2k_join::Counts;
use n2k_run::{RunFault, Sink};
use n2k_table::Table;
use std::alloc::Global;
use std::marker::Model;

/// The lines of a log that were encoded so far, and memory for the texts of a line.
#[derive(Drop)]
pub struct Encoding {
    nearest: bool,
    counts: Counts,
    scratch: Scratch,
}

impl Model for Encoding {
    ghost use Rattle.n2k_encode_run.specs.Inner.Taking.{AreCounts};
    ghost use Rattle.n2k_encode_run.specs.More.{EncodingParts};

    ghost Value = { EncodingParts };

    ghost view = { λ e. record { nearest = e.nearest; counts = e.counts } };

    ghost invariant = { λ e. AreCounts e.counts };
}

impl Encoding {
    /// Before the first line. `nearest` is that of `run_encode`.
    ///
    /// ```rust
    /// let table = sample_table(alloc)?;
    /// let mut out = MemorySink::new(alloc, 4096, 0);
    /// let mut err = MemorySink::new(alloc, 4096, 0);
    /// let mut encoding = Encoding::new(alloc, false);
    /// ```
    pub fn new(alloc: Global, nearest: bool) -> Encoding
        ensures { result ≡ record { nearest = nearest; counts = counts_of [] } }
    {
        Encoding {
            nearest,
            counts: Counts::NONE,
            scratch: Scratch::new(alloc),
        }
    }

    /// The counts of the lines so far.
    ///
    /// ```rust
    /// let counts = encoding.counts();
    /// assert_eq!(rt; (counts.lines, counts.messages, counts.bad), (2, 1, 1));
    /// ```
    pub fn counts(&self) -> Counts
        ensures { result ≡ self.now.counts }
    {
        self.counts
    }

    /// Takes the lines of `more`, the bytes of a log after those of the earlier calls, if these ended with a line: what
    /// `run_encode` prints and reports of the whole log is written. The texts of one call are kept in memory.
    /// `TooManyLines` if the log then has over 999,999,999,999,999 lines; `Memory` if an allocation was refused;
    /// `Write` and `Report` if that sink failed, and then prefixes were written. After any fault the encoding is
    /// unchanged.
    ///
    /// ```rust
    /// let monday = "{\"pgn\":127251,\"fields\":{\"SID\":1}}\n".as_bytes();
    /// encoding.take(alloc, &table, monday, &mut out, &mut err)?;
    /// encoding.take(alloc, &table, "{}".as_bytes(), &mut out, &mut err)?;
    /// let line = "1970-01-01T00:00:00.000Z,6,127251,0,255,8,01,ff,ff,ff,7f,ff,ff,ff\n";
    /// assert_eq!(rt; out.bytes(), line.as_bytes());
    /// assert_eq!(rt; err.bytes(), "line 2 bad B14 member\n".as_bytes());
    /// ```
    pub fn take<W: Sink, E: Sink>(
        &mut self,
        alloc: Global,
        table: &Table,
        more: &[u8],
        writer: &mut W,
        reporter: &mut E,
    ) -> Result<(), RunFault>
        ensures { let before = sinks_seen W.Sink E.Sink writer.old reporter.old in
            let after = sinks_seen W.Sink E.Sink writer.new reporter.new in
            EncodesMore table.now more.now self.old self.new before after result }
    {
        let Encoding {
            nearest,
            counts,
            scratch,
        } = self;
        let encoder = Encoder {
            alloc,
            table,
            nearest: *nearest,
        };
        let mut ledger = Ledger::new(alloc, *counts);
        encoder.take_lines(more, scratch, &mut ledger)?;
        ledger.write(writer, reporter)?;
        *counts = ledger.counts;
        Ok(())
    }
}
