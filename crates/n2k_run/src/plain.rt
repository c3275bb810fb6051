//! The run of `plain`: each frame and each whole message of a log as a plain line.
ghost use Rattle.std.specs.Prelude.{◌≡◌, IfOk, IfSome, OnOk};
ghost use Rattle.std.specs.Io.KnownBytes.{Appends};
ghost use Rattle.n2k_run.specs.Plain.{plain_counts, plain_counts_of, plain_out, plain_output, plain_reports};
ghost use Rattle.n2k_run.specs.Runs.{Runs, seen};

use crate::device::{Sink, Source};
use crate::engine::{EntryHandler, RunRoom, run_entries};
use crate::fault::RunFault;
use crate::texts::bad_text;
use n2k_join::{Counts, MOST_LINES};
use n2k_table::LineBuffer;
use n2k_wire::{Entry, Packing};
use std::alloc::Global;

/// Makes plain lines, and counts the lines.
struct PlainLines;

impl EntryHandler for PlainLines {
    ghost use Rattle.std.specs.Prelude.{false};
    ghost use Rattle.n2k_join.specs.declared.counts.Counts.{Counts};
    ghost use Rattle.n2k_run.specs.Entries.{is_packet};
    ghost use Rattle.n2k_run.specs.Inner.Counting.{AreLineCounts, counting_fold};
    ghost use Rattle.n2k_run.specs.Plain.{entry_line};

    type State = Counts;

    ghost Known = { Counts };

    ghost known = { λ counts. counts };

    ghost fold = { λ _. counting_fold entry_line is_packet (λ _. false) };

    ghost is_ready = { λ _ counts. AreLineCounts counts };

    #[inline(always)]
    fn take(
        &self,
        alloc: Global,
        counts: &mut Counts,
        entry: &mut Entry,
        text: &mut LineBuffer,
        report: &mut Vec<u8>,
    ) -> Result<(), RunFault> {
        if counts.lines == MOST_LINES {
            return Err(RunFault::TooManyLines);
        }
        counts.lines += 1;
        match entry {
            Entry::Skip => {}
            Entry::Bad(cause) => {
                bad_text(alloc, counts.lines, *cause, report)?;
                counts.bad += 1;
            }
            Entry::Frame(packet) | Entry::Whole(packet) => {
                text.push_plain(packet)?;
                counts.messages += 1;
            }
        }
        Ok(())
    }
}

/// Prints each frame and each whole message of a log as its plain line, to `writer`, and the report of each bad line to
/// `reporter`. Faults: `Read` if the source failed or 10^12 reads found no end, and `TooManyLines` past
/// 999,999,999,999,999 lines; the lines whose LF was read, or those up to the limit, are then printed and reported.
/// `Write` or `Report` if that sink failed, `Memory` if an allocation was refused. After any fault a prefix of the
/// texts and of the reports has been written. Only the device that the fault names has failed.
///
/// ```rust
/// let mut log = StdSource::new("(1.0) can0 18EAFF01#14F001\n".as_bytes());
/// let mut out = MemorySink::new(alloc, 4096, 0);
/// let mut err = MemorySink::new(alloc, 4096, 0);
/// let counts = run_plain(alloc, &mut log, &mut out, &mut err)?;
/// assert_eq!(rt; counts.messages, 1);
/// let line = "1970-01-01T00:00:01.000Z,6,59904,1,255,3,14,f0,01\n";
/// assert_eq!(rt; out.bytes(), line.as_bytes());
/// ```
pub fn run_plain<R: Source, W: Sink, E: Sink>(
    alloc: Global,
    reader: &mut R,
    writer: &mut W,
    reporter: &mut E,
) -> Result<Counts, RunFault>
    ensures runs { let before = seen R.Source W.Sink E.Sink reader.old writer.old reporter.old in
        let after = seen R.Source W.Sink E.Sink reader.new writer.new reporter.new in
        Runs plain_output (λ es. IfOk result (λ counts. counts ≡ plain_counts_of es)) before after result }

    // After Ok, if the bytes of the log are known: the output of `plain` for these bytes.
    ensures out { IfOk result (λ counts. IfSome (R.remaining reader.old) (λ log.
        Appends (W.contents writer.old) (W.contents writer.new) (plain_out log)
        × Appends (E.contents reporter.old) (E.contents reporter.new) (plain_reports log)
        × (counts ≡ plain_counts log))) }
{
    let mut counts = Counts::NONE;
    run_plain_counted(alloc, &mut counts, reader, writer, reporter)?;
    Ok(counts)
}

/// As `run_plain`, but a fault gives the counts, too: `counts` gets the counts of the log, or after `Read` and
/// `TooManyLines` those of the lines that are printed and reported.
///
/// ```rust
/// let mut log = StdSource::new("(1.0) can0 18EAFF01#14F001\n".as_bytes());
/// let mut out = MemorySink::new(alloc, 4096, 0);
/// let mut err = MemorySink::new(alloc, 4096, 0);
/// let mut counts = Counts::NONE;
/// run_plain_counted(alloc, &mut counts, &mut log, &mut out, &mut err)?;
/// assert_eq!(rt; counts.messages, 1);
/// let line = "1970-01-01T00:00:01.000Z,6,59904,1,255,3,14,f0,01\n";
/// assert_eq!(rt; out.bytes(), line.as_bytes());
/// ```
pub fn run_plain_counted<R: Source, W: Sink, E: Sink>(
    alloc: Global,
    counts: &mut Counts,
    reader: &mut R,
    writer: &mut W,
    reporter: &mut E,
) -> Result<(), RunFault>
    ensures runs { let before = seen R.Source W.Sink E.Sink reader.old writer.old reporter.old in
        let after = seen R.Source W.Sink E.Sink reader.new writer.new reporter.new in
        Runs plain_output (λ es. counts.new ≡ plain_counts_of es) before after result }

    // After Ok, if the bytes of the log are known: the output of `plain` for these bytes.
    ensures out { OnOk result (IfSome (R.remaining reader.old) (λ log.
        Appends (W.contents writer.old) (W.contents writer.new) (plain_out log)
        × Appends (E.contents reporter.old) (E.contents reporter.new) (plain_reports log)
        × (counts.new ≡ plain_counts log))) }
{
    *counts = Counts::NONE;
    run_entries(
        alloc,
        &PlainLines,
        Packing::Frames,
        counts,
        &mut RunRoom::new(alloc),
        reader,
        writer,
        reporter,
    )
}
