//! The run over the lines of a log.
ghost use Rattle.std.specs.Prelude.{◌≡◌, ◌<◌, ◌≤◌, ℕ, List, [], length, take, OnOk};
ghost use Rattle.n2k_run.specs.Blocks.{HasNoFeed};
ghost use Rattle.n2k_run.specs.Lines.{without_return};
ghost use Rattle.n2k_run.specs.Runs.{seen};
ghost use Rattle.n2k_encode_run.specs.Encodes.{Encodes};
ghost use Rattle.n2k_encode_run.specs.Inner.Taking.{AreCounts, FeedsBytes, FeedsRest, IsFresh, TakesAll, TakesLine, TakesRead, most_kept};

use crate::ledger::Ledger;
use crate::line::{first_line, is_skipped, keep, line_end, split_line, without_return};
use crate::texts::refused_text;
use json::Scratch;
use n2k_encode::{EncodeError, LONGEST_REQUEST, encode_line};
use n2k_join::{Counts, MOST_LINES};
use n2k_run::{MOST_READS, RunFault, Sink, Source};
use n2k_table::Table;
use n2k_wire::plain_text;
use std::alloc::Global;

/// The number of bytes of one read.
const BLOCK: usize = 4096;

/// The parts that do not change during a run.
#[derive(Drop)]
pub(crate) struct Encoder<'a> {
    pub(crate) alloc: Global,
    pub(crate) table: &'a Table,
    pub(crate) nearest: bool,
}

/// The buffers of a run.
#[derive(Drop)]
struct Room {
    /// The unfinished line before the next read.
    kept: Vec<u8>,
    /// Memory for the texts of a line.
    scratch: Scratch,
}

impl Encoder<'_> {
    /// Takes a line: counts it, and appends its message or its report to the pending texts.
    fn take_line(
        &self,
        line: &[u8],
        scratch: &mut Scratch,
        ledger: &mut Ledger,
    ) -> Result<(), RunFault>
        requires { AreCounts ledger.old.counts }
        ensures taken { TakesLine self.now.table.now self.now.nearest line.now ledger.old ledger.new result }
        ensures counts { OnOk result (AreCounts ledger.new.counts) }
    {
        if ledger.counts.lines == MOST_LINES {
            return Err(RunFault::TooManyLines);
        }
        ledger.counts.lines += 1;
        if line.len() <= LONGEST_REQUEST && is_skipped(line) {
            return Ok(());
        }
        match encode_line(self.alloc, self.table, self.nearest, line, scratch) {
            Ok(packet) => {
                plain_text(self.alloc, &packet, &mut ledger.text)?;
                ledger.counts.messages += 1;
            }
            Err(EncodeError::Refused(refusal)) => {
                refused_text(self.alloc, ledger.counts.lines, refusal, &mut ledger.report)?;
                ledger.counts.bad += 1;
            }
            Err(EncodeError::Memory) => return Err(RunFault::Memory),
        }
        Ok(())
    }

    /// Takes each line of bytes that are in memory.
    pub(crate) fn take_lines(
        &self,
        bytes: &[u8],
        scratch: &mut Scratch,
        ledger: &mut Ledger,
    ) -> Result<(), RunFault>
        requires { AreCounts ledger.old.counts }
        ensures taken { TakesAll self.now.table.now self.now.nearest bytes.now ledger.old ledger.new result }
        ensures counts { OnOk result (AreCounts ledger.new.counts) }
    {
        let mut left = bytes;
        while !left.is_empty() {
            let (line, rest) = first_line(left);
            self.take_line(without_return(line), scratch, ledger)?;
            left = rest;
        }
        Ok(())
    }

    /// Takes the kept line, which is complete.
    fn take_kept(&self, room: &mut Room, ledger: &mut Ledger) -> Result<(), RunFault>
        requires { AreCounts ledger.old.counts }
        ensures taken { (chunk : List ℕ) → room.old.kept.items ≡ take most_kept chunk
            → TakesLine self.now.table.now self.now.nearest (without_return chunk) ledger.old ledger.new result }
        ensures counts { OnOk result (AreCounts ledger.new.counts) }
        ensures none_kept { room.new.kept.items ≡ [] }
    {
        let Room { kept, scratch } = room;
        let taken = self.take_line(without_return(kept), scratch, ledger);
        kept.clear();
        taken
    }

    /// Takes each line that ends in these bytes, and keeps the unfinished line after them.
    fn feed(&self, bytes: &[u8], room: &mut Room, ledger: &mut Ledger) -> Result<(), RunFault>
        requires counts { AreCounts ledger.old.counts }
        requires few { length room.old.kept.items ≤ most_kept }
        ensures fed { (part : List ℕ) → HasNoFeed part → room.old.kept.items ≡ take most_kept part
            → FeedsBytes self.now.table.now self.now.nearest part bytes.now room.new.kept.items ledger.old ledger.new
            result }
        ensures counts { OnOk result (AreCounts ledger.new.counts) }
        ensures few { OnOk result (length room.new.kept.items ≤ most_kept) }
    {
        let mut left = bytes;
        while let Some(end) = line_end(left) {
            let (line, rest) = split_line(left, end);
            keep(&mut room.kept, line)?;
            self.take_kept(room, ledger)?;
            left = rest;
        }
        keep(&mut room.kept, left)?;
        Ok(())
    }

    /// Takes the unfinished line at the end of the log, if there is one.
    fn feed_rest(&self, room: &mut Room, ledger: &mut Ledger) -> Result<(), RunFault>
        requires { AreCounts ledger.old.counts }
        ensures fed { (part : List ℕ) → HasNoFeed part → room.old.kept.items ≡ take most_kept part
            → FeedsRest self.now.table.now self.now.nearest part ledger.old ledger.new result }
        ensures counts { OnOk result (AreCounts ledger.new.counts) }
    {
        if room.kept.is_empty() {
            Ok(())
        } else {
            self.take_kept(room, ledger)
        }
    }

    /// Takes the result of a read: bytes, or none at the end of the log.
    fn take_read(&self, bytes: &[u8], room: &mut Room, ledger: &mut Ledger) -> Result<(), RunFault>
        requires counts { AreCounts ledger.old.counts }
        requires few { length room.old.kept.items ≤ most_kept }
        ensures taken { (part : List ℕ) → HasNoFeed part → room.old.kept.items ≡ take most_kept part
            → TakesRead self.now.table.now self.now.nearest part bytes.now room.new.kept.items ledger.old ledger.new
            result }
        ensures counts { OnOk result (AreCounts ledger.new.counts) }
        ensures few { 0 < length bytes.now → OnOk result (length room.new.kept.items ≤ most_kept) }
    {
        if bytes.is_empty() {
            self.feed_rest(room, ledger)
        } else {
            self.feed(bytes, room, ledger)
        }
    }

    /// Reads the log to its end, and writes the texts of each read before the next read.
    fn run<R: Source, W: Sink, E: Sink>(
        &self,
        ledger: &mut Ledger,
        reader: &mut R,
        writer: &mut W,
        reporter: &mut E,
    ) -> Result<(), RunFault>
        requires { IsFresh ledger.old }
        ensures { let before = seen R.Source W.Sink E.Sink reader.old writer.old reporter.old in
            let after = seen R.Source W.Sink E.Sink reader.new writer.new reporter.new in
            Encodes self.now.table.now self.now.nearest before after ledger.new.counts result }
    {
        let mut block = [0; BLOCK];
        let mut room = Room {
            kept: Vec::new(self.alloc),
            scratch: Scratch::new(self.alloc),
        };
        for _reads in 0..MOST_READS {
            let count = ledger.read_block(reader, &mut block)?;
            let taken = self.take_read(&block[..count], &mut room, ledger);
            ledger.settle(taken, writer, reporter)?;
            if count == 0 {
                return Ok(());
            }
        }
        Err(RunFault::Read)
    }
}

/// Prints the message of each line of JSON of a log as its plain line, to `writer`, and the report of each refused line to
/// `reporter`; empty lines and lines that begin with `#` are skipped. With `nearest` a number is the nearest one that its
/// field can show; without it each number is exact. `counts` gets the numbers of lines, messages and bad lines. Errors:
/// `Read` if the source failed or 10^12 reads found no end; the lines whose LF was read are then
/// printed and reported; `Write` and `Report` if that sink failed, `Memory` if an allocation was refused, `TooManyLines`
/// past 999,999,999,999,999 lines, which are then printed and reported. After any fault a prefix of the texts and of
/// the reports has been written. No device failed except the one that the fault names.
///
/// ```rust
/// let table = sample_table(alloc)?;
/// let mut log = StdSource::new("{\"pgn\":127251,\"fields\":{\"SID\":1}}\n{}\n".as_bytes());
/// let mut out = MemorySink::new(alloc, 4096, 0);
/// let mut err = MemorySink::new(alloc, 4096, 0);
/// let mut counts = Counts::NONE;
/// run_encode(
///     alloc,
///     &table,
///     false,
///     &mut counts,
///     &mut log,
///     &mut out,
///     &mut err,
/// )?;
/// let line = "1970-01-01T00:00:00.000Z,6,127251,0,255,8,01,ff,ff,ff,7f,ff,ff,ff\n";
/// assert_eq!(rt; out.bytes(), line.as_bytes());
/// assert_eq!(rt; err.bytes(), "line 2 bad B14 member\n".as_bytes());
/// ```
pub fn run_encode<R: Source, W: Sink, E: Sink>(
    alloc: Global,
    table: &Table,
    nearest: bool,
    counts: &mut Counts,
    reader: &mut R,
    writer: &mut W,
    reporter: &mut E,
) -> Result<(), RunFault>
    ensures { let before = seen R.Source W.Sink E.Sink reader.old writer.old reporter.old in
        let after = seen R.Source W.Sink E.Sink reader.new writer.new reporter.new in
        Encodes table.now nearest before after counts.new result }
{
    let encoder = Encoder {
        alloc,
        table,
        nearest,
    };
    let mut ledger = Ledger::new(alloc, Counts::NONE);
    let ended = encoder.run(&mut ledger, reader, writer, reporter);
    *counts = ledger.counts;
    ended
}
