//! The run of `frames`: each whole message of a log as the lines of its frames.
ghost use Rattle.std.specs.Prelude.{◌≡◌, List, ℕ, Err, IfErr, IfOk, IfSome, OnOk};
ghost use Rattle.std.specs.Io.KnownBytes.{Appends};
ghost use Rattle.n2k_table.specs.Table.{kind};
ghost use Rattle.n2k_join.specs.Pieces.{first_sequences};
ghost use Rattle.n2k_join.specs.Splitter.{sequences};
ghost use Rattle.n2k_run.specs.FramesOut.{IsInterface, interface_of, frames_counts, frames_out, frames_output, frames_reports, frame_counts_of};
ghost use Rattle.n2k_run.specs.Runs.{Runs, seen};
ghost use Rattle.n2k_run.specs.Inner.Sending.{BeginsLines, SentLine, SentMessage, frame_line};

use crate::device::{Sink, Source};
use crate::engine::{EntryHandler, RunRoom, run_entries};
use crate::fault::RunFault;
use crate::texts::bad_text;
use n2k_join::{Counts, MOST_LINES, SplitFault, Splitter, laws};
use n2k_table::{LineBuffer, Table};
use n2k_wire::{
    BadCause, CandumpLines, Entry, FRAME_PAYLOAD, LineHead, Packet, Packing, WireFault,
};
use std::alloc::{AllocError, Global};

/// The outcome of a line.
#[derive(Clone, Copy)]
enum Outcome {
    /// The line is not a message, and not bad.
    Skipped,
    /// The line is a message, and its frames are written.
    Written,
    /// The line is bad, for this cause.
    Bad(BadCause),
}

/// Turns a head into the start of a message's lines: plain lines, or candump's at an interface.
fn set_head(
    lines: &mut Option<CandumpLines>,
    message: &Packet,
    head: &mut LineHead,
) -> Result<(), WireFault>
    ensures head { OnOk result (BeginsLines lines.old message.now head.new) }
    ensures fault { IfErr result (λ fault. (payload : List ℕ)
        → frame_line lines.old (record message.now { payload = payload }) ≡ Err fault) }
    ensures interface { lines.new ≡ lines.old }
{
    match lines {
        Some(lines) => lines.set_head(message, head),
        None => {
            head.set_plain(message);
            Ok(())
        }
    }
}

/// Sends messages in order.
#[derive(Drop)]
struct Sender<'a> {
    splitter: Splitter,
    /// The lines at the interface, if one is given.
    lines: Option<CandumpLines<'a>>,
    /// The start of the lines of a message.
    head: LineHead,
}

/// The state of a run that sends messages.
#[derive(Drop)]
struct Sending<'a> {
    sender: Sender<'a>,
    counts: Counts,
}

/// Makes the lines of the frames of messages: plain lines, or the lines of candump at an interface.
#[derive(Drop)]
struct FrameLines<'a> {
    table: &'a Table,
    interface: Option<&'a str>,
}

impl<'a> FrameLines<'a> {
    /// The sender before the first message.
    fn sender(&self, alloc: Global) -> Sender<'a>
        requires { IsInterface (interface_of self.now.interface) }
        ensures splitter { sequences result.splitter ≡ first_sequences }
        ensures lines { result.lines ≡ interface_of self.now.interface }
    {
        Sender {
            splitter: Splitter::new(alloc),
            lines: match self.interface {
                Some(name) => Some(CandumpLines::new(name)),
                None => None,
            },
            head: LineHead::EMPTY,
        }
    }

    /// Sends a message: splits it, and writes the lines of its frames, all or none.
    fn send(
        &self,
        sender: &mut Sender,
        message: &Packet,
        text: &mut LineBuffer,
    ) -> Result<Outcome, AllocError>
        requires { sender.old.lines ≡ interface_of self.now.interface }
        ensures sent { IfOk result (SentMessage (kind self.now.table.now) (interface_of self.now.interface) message.now
            (sequences sender.old.splitter) (sequences sender.new.splitter) text.old.items text.new.items) }
        ensures lines { sender.new.lines ≡ sender.old.lines }
    {
        let frames = match sender.splitter.split(self.table, message) {
            Ok(frames) => frames,
            Err(SplitFault::Unknown) => return Ok(Outcome::Bad(BadCause::Unknown)),
            Err(SplitFault::TooLong) => return Ok(Outcome::Bad(BadCause::Size)),
            Err(SplitFault::Memory) => return Err(AllocError),
        };
        if let Err(fault) = set_head(&mut sender.lines, message, &mut sender.head) {
            return match fault {
                WireFault::NoStamp => Ok(Outcome::Bad(BadCause::Time)),
                WireFault::NoId => Ok(Outcome::Bad(BadCause::Address)),
                WireFault::Memory => Err(AllocError),
            };
        }
        let mut room = [0; FRAME_PAYLOAD];
        for number in 0..frames.count() {
            text.push_line(&sender.head, frames.data(number, &mut room))?;
        }
        Ok(Outcome::Written)
    }

    /// The outcome of the entry of a line.
    fn outcome(
        &self,
        sender: &mut Sender,
        entry: &Entry,
        text: &mut LineBuffer,
    ) -> Result<Outcome, AllocError>
        requires { sender.old.lines ≡ interface_of self.now.interface }
        ensures sent { IfOk result (SentLine (kind self.now.table.now) (interface_of self.now.interface) entry.now
            (sequences sender.old.splitter) (sequences sender.new.splitter) text.old.items text.new.items) }
        ensures lines { sender.new.lines ≡ sender.old.lines }
    {
        match entry {
            Entry::Skip => Ok(Outcome::Skipped),
            Entry::Bad(cause) => Ok(Outcome::Bad(*cause)),
            Entry::Frame(_) => Ok(Outcome::Bad(BadCause::Frame)),
            Entry::Whole(message) => self.send(sender, message, text),
        }
    }
}

impl<'a> EntryHandler for FrameLines<'a> {
    ghost use Rattle.std.specs.Prelude.{◌≡◌};
    ghost use Rattle.n2k_table.specs.Table.{kind};
    ghost use Rattle.n2k_join.specs.Splitter.{sequences};
    ghost use Rattle.n2k_run.specs.FramesOut.{interface_of};
    ghost use Rattle.n2k_run.specs.Inner.Sending.{AreFrameCounts, Sent, sending_fold};

    type State = Sending<'a>;

    ghost Known = { Sent };

    ghost known = { λ s. record { held = sequences s.sender.splitter; counts = s.counts } };

    ghost fold = { λ m. sending_fold (kind m.table.now) (interface_of m.interface) };

    ghost is_ready = { λ m s. (s.sender.lines ≡ interface_of m.interface) × AreFrameCounts s.counts };

    fn take(
        &self,
        alloc: Global,
        state: &mut Sending<'a>,
        entry: &mut Entry,
        text: &mut LineBuffer,
        report: &mut Vec<u8>,
    ) -> Result<(), RunFault> {
        if state.counts.lines == MOST_LINES {
            return Err(RunFault::TooManyLines);
        }
        state.counts.lines += 1;
        match self.outcome(&mut state.sender, entry, text)? {
            Outcome::Skipped => {}
            Outcome::Written => state.counts.messages += 1,
            Outcome::Bad(cause) => {
                bad_text(alloc, state.counts.lines, cause, report)?;
                state.counts.bad += 1;
            }
        }
        Ok(())
    }
}

/// Writes each whole message of a log, a plain line of 0 to 223 bytes, as the lines of its frames: plain lines or, with
/// an interface, the lines that `candump -L` writes at it. The messages of each stream, a sender's messages of one fast
/// PGN to one receiver, are numbered in turn from 0 to 7. `reporter` gets the report of each bad line: each line that
/// can't be read and, in this order,
///
/// - `B10 frame`: a candump line, which is a frame, not a message;
/// - `B8 unknown`: a message of a PGN that the table doesn't have;
/// - `B9 size`: a message of over 8 bytes whose PGN is sent in single frames;
/// - `B11 time` and `B12 address`, only with an interface: the stamp isn't `YYYY-MM-DDTHH:MM:SS.mmmZ` of a day of the
///   calendar from 1970 on, or `join_id` has no identifier for the message. Such a message of a fast PGN still uses its
///   number.
///
/// No part of a bad line is written. The counts are lines, written messages, and bad lines. Faults as for `run_plain`.
///
/// ```rust
/// let table = sample_table(alloc)?;
/// let line = "1970-01-01T00:00:10.300Z,7,130820,5,255,11,a3,99,01,41,42,43,00,00,00,00,00";
/// let mut log = StdSource::new(line.as_bytes());
/// let mut out = MemorySink::new(alloc, 4096, 0);
/// let mut err = MemorySink::new(alloc, 4096, 0);
/// assert!(rt; is_interface(b"can0"));
/// run_frames(alloc, &table, Some("can0"), &mut log, &mut out, &mut err)?;
/// let sent = "(0000000010.300000) can0 1DFF0405#000BA39901414243\n\
///     (0000000010.300000) can0 1DFF0405#010000000000FFFF\n";
/// assert_eq!(rt; out.bytes(), sent.as_bytes());
/// ```
pub fn run_frames<R: Source, W: Sink, E: Sink>(
    alloc: Global,
    table: &Table,
    interface: Option<&str>,
    reader: &mut R,
    writer: &mut W,
    reporter: &mut E,
) -> Result<Counts, RunFault>
    requires { IsInterface (interface_of interface) }
    ensures runs { let before = seen R.Source W.Sink E.Sink reader.old writer.old reporter.old in
        let after = seen R.Source W.Sink E.Sink reader.new writer.new reporter.new in
        Runs (frames_output table.now (interface_of interface.entry))
        (λ es. IfOk result (λ counts. counts ≡ frame_counts_of (kind table.now) (interface_of interface.entry) es))
        before after result }

    // After Ok, if the bytes of the log are known: the output of `frames` for these bytes.
    ensures out { IfOk result (λ counts. IfSome (R.remaining reader.old) (λ log.
        Appends (W.contents writer.old) (W.contents writer.new)
        (frames_out table.now (interface_of interface.entry) log)
        × Appends (E.contents reporter.old) (E.contents reporter.new)
        (frames_reports table.now (interface_of interface.entry) log)
        × (counts ≡ frames_counts table.now (interface_of interface.entry) log))) }
{
    let mut counts = Counts::NONE;
    run_frames_counted(
        alloc,
        table,
        interface,
        &mut counts,
        reader,
        writer,
        reporter,
    )?;
    Ok(counts)
}

/// As `run_frames`, but a fault gives the counts, too: `counts` gets the counts of the log, or after `Read` and
/// `TooManyLines` those of the lines that are written and reported.
///
/// ```rust
/// let table = sample_table(alloc)?;
/// let line = "1970-01-01T00:00:10.300Z,7,130820,5,255,11,a3,99,01,41,42,43,00,00,00,00,00";
/// let mut log = StdSource::new(line.as_bytes());
/// let mut out = MemorySink::new(alloc, 4096, 0);
/// let mut err = MemorySink::new(alloc, 4096, 0);
/// assert!(rt; is_interface(b"can0"));
/// let (name, mut counts) = (Some("can0"), Counts::NONE);
/// run_frames_counted(
///     alloc,
///     &table,
///     name,
///     &mut counts,
///     &mut log,
///     &mut out,
///     &mut err,
/// )?;
/// let sent = "(0000000010.300000) can0 1DFF0405#000BA39901414243\n\
///     (0000000010.300000) can0 1DFF0405#010000000000FFFF\n";
/// assert_eq!(rt; out.bytes(), sent.as_bytes());
/// ```
pub fn run_frames_counted<R: Source, W: Sink, E: Sink>(
    alloc: Global,
    table: &Table,
    interface: Option<&str>,
    counts: &mut Counts,
    reader: &mut R,
    writer: &mut W,
    reporter: &mut E,
) -> Result<(), RunFault>
    requires { IsInterface (interface_of interface) }
    ensures runs { let before = seen R.Source W.Sink E.Sink reader.old writer.old reporter.old in
        let after = seen R.Source W.Sink E.Sink reader.new writer.new reporter.new in
        Runs (frames_output table.now (interface_of interface.entry))
        (λ es. counts.new ≡ frame_counts_of (kind table.now) (interface_of interface.entry) es) before after result }

    // After Ok, if the bytes of the log are known: the output of `frames` for these bytes.
    ensures out { OnOk result (IfSome (R.remaining reader.old) (λ log.
        Appends (W.contents writer.old) (W.contents writer.new)
        (frames_out table.now (interface_of interface.entry) log)
        × Appends (E.contents reporter.old) (E.contents reporter.new)
        (frames_reports table.now (interface_of interface.entry) log)
        × (counts.new ≡ frames_counts table.now (interface_of interface.entry) log))) }
{
    laws::splits_written();
    let handler = FrameLines { table, interface };
    let mut state = Sending {
        sender: handler.sender(alloc),
        counts: Counts::NONE,
    };
    let ran = run_entries(
        alloc,
        &handler,
        Packing::Whole,
        &mut state,
        &mut RunRoom::new(alloc),
        reader,
        writer,
        reporter,
    );
    *counts = state.counts;
    ran
}
