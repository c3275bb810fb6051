//! The run of `decode`: the JSON line of each message of a log.
ghost use Rattle.std.specs.Prelude.{◌≡◌, ◌++◌, List, None, IfSome, OnOk, option_map, option_to_list};
ghost use Rattle.std.specs.List.{flat_map};
ghost use Rattle.n2k_wire.specs.declared.entry.Entry.{Entry};
ghost use Rattle.n2k_table.specs.Table.{kind, TableParts};
ghost use Rattle.n2k_join.specs.State.{state};
ghost use Rattle.n2k_join.specs.Step.{due};
ghost use Rattle.n2k_run.specs.Decoded.{join_fold, message_line, output_after};
ghost use Rattle.n2k_run.specs.Inner.Overdue.{BreaksOverdue};
ghost use Rattle.n2k_run.specs.Fold.{after_all};
ghost use Rattle.n2k_run.specs.Reports.{broken_text, cause_report};
ghost use Rattle.n2k_run.specs.Runs.{Runs, output_from, seen};

use crate::device::{Sink, Source};
use crate::engine::{EntryHandler, RunRoom, run_entries};
use crate::fault::RunFault;
use crate::options::{Options, lemma_window_valid};
use crate::texts::{bad_text, broken_text};
use n2k_join::{Broken, Join, TableMessage, laws, message_of};
use n2k_table::{LineBuffer, Table, json_line_of};
use n2k_wire::{BadCause, Entry};
use std::alloc::{AllocError, Global};

/// Breaks the groups whose window ends at the next line, the oldest first, and reports them.
fn break_overdue(alloc: Global, join: &mut Join, report: &mut Vec<u8>) -> Result<(), AllocError>
    ensures none_due { OnOk result (due join.new ≡ None) }
    ensures breaks { OnOk result (BreaksOverdue join.old join.new report.old.items report.new.items) }
{
    while let Some(group) = join.expire() {
        let line = join.counts().lines + 1;
        broken_text(alloc, line, &group, report)?;
    }
    Ok(())
}

/// The report of the group that a line's frame breaks.
fn push_broken(
    alloc: Global,
    line: u64,
    broken: Option<Broken>,
    report: &mut Vec<u8>,
) -> Result<(), AllocError>
    ensures { OnOk result (report.new.items ≡ report.old.items ++ flat_map (broken_text line) (option_to_list broken)) }
{
    match broken {
        None => Ok(()),
        Some(group) => broken_text(alloc, line, &group, report),
    }
}

/// The report of why a line is bad.
fn push_cause(
    alloc: Global,
    line: u64,
    cause: Option<BadCause>,
    report: &mut Vec<u8>,
) -> Result<(), AllocError>
    ensures { OnOk result (report.new.items ≡ report.old.items ++ cause_report line cause) }
{
    match cause {
        None => Ok(()),
        Some(cause) => bad_text(alloc, line, cause, report),
    }
}

/// The JSON line of the message that a line gives. It is inlined, since a call for each line costs more.
#[inline(always)]
fn push_message(
    message: Option<TableMessage<'_>>,
    empty: bool,
    text: &mut LineBuffer,
) -> Result<(), AllocError>
    requires { IfSome message (λ m. m.pgn.pgn ≡ m.packet.now.id.pgn) }
    ensures { (t : TableParts) → IfSome message.entry (λ m. m.pgn.table ≡ t)
        → OnOk result (text.new.items ≡ text.old.items ++ message_line t empty
        (option_map (λ m. m.packet.now) message.entry)) }
{
    match message {
        None => Ok(()),
        Some(TableMessage { packet, pgn }) => json_line_of(&pgn, packet, empty, text),
    }
}

/// Makes the JSON lines of the messages that a join gives.
#[derive(Drop)]
struct JsonLines<'a> {
    table: &'a Table,
    empty: bool,
}

impl<'a> EntryHandler for JsonLines<'a> {
    ghost use Rattle.std.specs.Prelude.{⊤};
    ghost use Rattle.n2k_join.specs.State.{State};
    ghost use Rattle.n2k_run.specs.Decoded.{join_fold};

    type State = Join;

    ghost Known = { State };

    ghost known = { λ join. join };

    ghost fold = { λ s. join_fold s.table.now s.empty };

    ghost is_ready = { λ _ _. ⊤ };

    fn take(
        &self,
        alloc: Global,
        join: &mut Join,
        entry: &mut Entry,
        text: &mut LineBuffer,
        report: &mut Vec<u8>,
    ) -> Result<(), RunFault> {
        break_overdue(alloc, join, report)?;
        let step = join.accept_in_place(self.table, entry)?;
        push_broken(alloc, step.line, step.broken, report)?;
        push_cause(alloc, step.line, step.bad, report)?;
        let message = message_of(step.message, entry);
        push_message(message, self.empty, text)?;
        Ok(())
    }
}

/// Prints to `writer` the JSON line of each message of a log, in the order of the lines that complete them, and to
/// `reporter`, for each line, the groups that it breaks and why it is bad. The join continues from its state, and is in
/// the state after the log at the end; the window of the options must be the join's. It ends at the end of the log or
/// by a fault, as `run_plain`: after `Read` the join is after the last line whose LF was read, and after `TooManyLines`
/// at the last number; after `Write`, `Report` and `Memory` the join can't be used further.
///
/// ```rust
/// let (table, options) = (sample_table(alloc)?, usual_options());
/// let mut join = Join::new(alloc, &table, options.window);
/// let mut log = StdSource::new("(1.0) can0 09F8027F#0500\nhello\n".as_bytes());
/// let mut out = MemorySink::new(alloc, 4096, 0);
/// let mut err = MemorySink::new(alloc, 4096, 0);
/// run(
///     alloc, &table, &mut join, options, &mut log, &mut out, &mut err,
/// )?;
/// assert_eq!(rt; (join.counts().messages, join.counts().bad), (1, 1));
/// assert_eq!(rt; err.bytes(), "line 2 bad B3 form\n".as_bytes());
/// ```
pub fn run<R: Source, W: Sink, E: Sink>(
    alloc: Global,
    table: &Table,
    join: &mut Join,
    options: Options,
    reader: &mut R,
    writer: &mut W,
    reporter: &mut E,
) -> Result<(), RunFault>
    requires window { join.old.window ≡ options.window }

    // From any join: the texts and reports of the steps of the log's entries, in order.
    ensures steps { let before = seen R.Source W.Sink E.Sink reader.old writer.old reporter.old in
        let after = seen R.Source W.Sink E.Sink reader.new writer.new reporter.new in
        let fold = join_fold table.now options.empty in
        Runs (output_from fold options.packing join.old)
        (λ es. join.new ≡ after_all fold join.old es) before after result }

    // If the join has taken the entries `prefix` with this table: the output that the whole log gives for the lines
    // after them.
    ensures log { (prefix : List Entry) → join.old ≡ state table.now.id options.window (kind table.now) prefix →
        let before = seen R.Source W.Sink E.Sink reader.old writer.old reporter.old in
        let after = seen R.Source W.Sink E.Sink reader.new writer.new reporter.new in
        Runs (output_after table.now options prefix)
        (λ es. join.new ≡ state table.now.id options.window (kind table.now) (prefix ++ es)) before after result }
{
    run_in(
        alloc,
        table,
        join,
        options,
        &mut RunRoom::new(alloc),
        reader,
        writer,
        reporter,
    )
}

/// `run`, in room that is kept.
pub(crate) fn run_in<R: Source, W: Sink, E: Sink>(
    alloc: Global,
    table: &Table,
    join: &mut Join,
    options: Options,
    room: &mut RunRoom,
    reader: &mut R,
    writer: &mut W,
    reporter: &mut E,
) -> Result<(), RunFault>
    requires window { join.old.window ≡ options.window }

    ensures steps { let before = seen R.Source W.Sink E.Sink reader.old writer.old reporter.old in
        let after = seen R.Source W.Sink E.Sink reader.new writer.new reporter.new in
        let fold = join_fold table.now options.empty in
        Runs (output_from fold options.packing join.old)
        (λ es. join.new ≡ after_all fold join.old es) before after result }
    ensures log { (prefix : List Entry) → join.old ≡ state table.now.id options.window (kind table.now) prefix →
        let before = seen R.Source W.Sink E.Sink reader.old writer.old reporter.old in
        let after = seen R.Source W.Sink E.Sink reader.new writer.new reporter.new in
        Runs (output_after table.now options prefix)
        (λ es. join.new ≡ state table.now.id options.window (kind table.now) (prefix ++ es)) before after result }
{
    laws::steps_agree();
    laws::lines_stay();
    lemma_window_valid(&options);
    let Options { packing, empty, .. } = options;
    let handler = JsonLines { table, empty };
    run_entries(
        alloc, &handler, packing, join, room, reader, writer, reporter,
    )
}
